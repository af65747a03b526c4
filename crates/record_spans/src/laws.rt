ghost use Rattle.std.specs.Prelude.{◌≡◌, ◌≤◌, ◌+◌, ◌↔◌, ℕ, List, true, length, Contains};
ghost use Rattle.record_spans.specs.declared.span.Span.{Span};
ghost use Rattle.record_spans.specs.Spans.{AreApart, AreRunsOf, end_of, records_of, stands_in};

/// A law: numbers have only one list of maximal runs.
pub fn runs_are_unique()
    ensures { (numbers : List ℕ) (a b : List Span) → AreRunsOf numbers a → AreRunsOf numbers b
        → a ≡ b }
{}

/// A law: what stands in one of some spans is one of their records.
pub fn records_are_those_that_stand()
    ensures { (spans : List Span) (n : ℕ)
        → (stands_in spans n ≡ true) ↔ Contains (records_of spans) n }
{}
