//! Laws of the numbers, each a call that does nothing. A holder is the list of its numbers.
ghost use Rattle.std.specs.Prelude.{◌≡◌, ◌≢◌, ◌≤◌, ◌↔◌, ℕ, All, List, [], ◌∷◌, ◌++◌};
ghost use Rattle.counted_items.specs.Weights.{Same};
ghost use Rattle.pass_numbers.specs.declared.Number.{Number};
ghost use Rattle.pass_numbers.specs.Numbers.{Numbered, IsWhole, over, has};
ghost use Rattle.pass_numbers.specs.Numbers.{first_numbers, kept_numbers, cut_numbers};

/// A law: no number stands twice.
pub fn numbers_stand_once()
    ensures { (holders : List (List Number)) (digits : List ℕ)
        → Numbered (λ ns. ns) holders → over (λ ns. ns) (has digits) holders ≤ 1 }
{}

/// A law: the first holder has all numbers.
pub fn the_first_is_whole()
    ensures { IsWhole first_numbers }
{}

/// A law: the one holder that is left has all numbers.
pub fn the_last_is_whole()
    ensures { (ns : List Number) → Numbered (λ ns. ns) (ns ∷ []) ↔ IsWhole ns }
{}

/// A law: holders with all numbers have them in any order.
pub fn holders_have_no_order()
    ensures { (holders others : List (List Number))
        → Same holders others → Numbered (λ ns. ns) holders → Numbered (λ ns. ns) others }
{}

/// A law: beside a holder of all numbers no other has any.
pub fn whole_leaves_none()
    ensures { (whole : List Number) (others : List (List Number))
        → Numbered (λ ns. ns) (whole ∷ others) → IsWhole whole → All (λ ns. ns ≡ []) others }
{}

/// A law: holders with all numbers have them after a split.
pub fn a_split_gives_one()
    ensures { (ns : List Number) (others : List (List Number)) → ns ≢ []
        → Numbered (λ ns. ns) (ns ∷ others)
        → Numbered (λ ns. ns) (kept_numbers ns ∷ cut_numbers ns ∷ others) }
{}

/// A law: holders with all numbers have them after a join.
pub fn a_join_loses_none()
    ensures { (ns ms : List Number) (others : List (List Number))
        → Numbered (λ ns. ns) (ns ∷ ms ∷ others) → Numbered (λ ns. ns) ((ns ++ ms) ∷ others) }
{}
