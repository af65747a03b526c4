ghost use Rattle.std.specs.Prelude.{◌≡◌, ◌≤◌, ◌<◌, ◌*◌, ◌⊎◌, ◌↔◌, ℕ, List, [], Bool, true, length, Contains};
ghost use Rattle.record_offers.specs.Offers.{batch_count, batch_numbers, first_free, is_free};

/// A law: the number of batches is the least that holds all records, and each of them has one.
pub fn batches_hold_all_records()
    ensures enough { (n size : ℕ) → 0 < size → n ≤ batch_count n size * size }
    ensures least { (n size many : ℕ) → 0 < size → n ≤ many * size → batch_count n size ≤ many }
    ensures there { (n size txid : ℕ) → 0 < size
        → (batch_numbers n size txid ≡ []) ↔ ((txid ≡ 0) ⊎ (batch_count n size < txid)) }
{}

/// A law: what a spout with partitions offers is a record that is not gone and whose partition is
/// not shut, and no more of them than the size.
pub fn offers_are_free()
    ensures free { (size partitions shut n : ℕ) (gone : List Bool)
        → Contains (first_free size partitions shut gone) n
        → (1 ≤ n) × (n ≤ length gone) × (is_free partitions shut gone n ≡ true) }
    ensures few { (size partitions shut : ℕ) (gone : List Bool)
        → length (first_free size partitions shut gone) ≤ size }
{}
