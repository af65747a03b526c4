ghost use Rattle.std.specs.Prelude.{◌≡◌, ◌≤◌, ◌↔◌, ℕ, List, Contains, IsPermutation, sum_by};
ghost use Rattle.std.specs.Coded.{Coded};
ghost use Rattle.counted_items.specs.Codes.{times};
ghost use Rattle.counted_items.specs.Weights.{weigh, Same, Within};

/// A law: a list weighs the sum of its items' weights.
pub fn lists_weigh_sums<X>()
    ensures { (f : X → ℕ) (xs : List X) → weigh f xs ≡ sum_by f xs }
{}

/// A law: lists that differ in their order alone have each item as often.
pub fn order_does_not_count<X>()
    ensures { (xs ys : List X) → IsPermutation xs ys → Same xs ys }
{}

/// A law: two lists have each item as often exactly where each is within the other.
pub fn same_is_within_both_ways<X>()
    ensures { (xs ys : List X) → Same xs ys ↔ (Within xs ys × Within ys xs) }
{}

/// A law: what stands in a list stands in each list that it is within.
pub fn items_within_are_there<X>()
    ensures { (coded : Coded X) (xs ys : List X) (x : X)
        → Within xs ys → Contains xs x → Contains ys x }
{}

/// A law: of items whose equality can be decided, a list is within another exactly where it
/// has each item at most as often, and the two have the same weights exactly where they
/// have each item as often.
pub fn counts_decide<X>()
    ensures within { (coded : Coded X) (xs ys : List X)
        → Within xs ys ↔ ((x : X) → times coded x xs ≤ times coded x ys) }
    ensures same { (coded : Coded X) (xs ys : List X)
        → Same xs ys ↔ ((x : X) → times coded x xs ≡ times coded x ys) }
{}
