ghost use Rattle.std.specs.Prelude.{◌≡◌, ℕ, List};
ghost use Rattle.record_spans.specs.Spans.{stands_in};
ghost use Rattle.record_spans.specs.declared.span.Span.{Span};
ghost use Rattle.resume_meta.specs.Meta.{AreSeparate, IsTextOf};
ghost use Rattle.resume_meta.specs.declared.meta.Meta.{Meta};
ghost use Rattle.state_parts.specs.declared.answer.Commit.{Commit};
ghost use Rattle.kept_commits.specs.Kept.{IsKept, IsMetaOf};

use resume_meta::metas_have_texts_of_their_own;

/// A law: separate spans in which the same numbers stand are the same spans.
pub fn separate_spans_are_unique()
    ensures { (a b : List Span) → AreSeparate a → AreSeparate b
        → ((n : ℕ) → stands_in a n ≡ stands_in b n) → a ≡ b }
{}

/// A law: after a start and some commits one text is held.
pub fn kept_texts_are_unique()
    ensures { (commits : List Commit) (a b : List ℕ) → IsKept commits a → IsKept commits b
        → a ≡ b }
{}

/// A law: the meta that is loaded is that of the commits after which it is held.
pub fn loads_go_on()
    ensures { (commits : List Commit) (bytes : List ℕ) (meta : Meta) → IsKept commits bytes
        → IsTextOf bytes meta → IsMetaOf commits meta }
{
    metas_have_texts_of_their_own();
}
