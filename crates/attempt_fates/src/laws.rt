ghost use Rattle.std.specs.Prelude.{◌≡◌, ◌*◌, ◌≤◌, ℕ, List, true, false, drop, length};
ghost use Rattle.record_offers.specs.Offers.{is_gone};
ghost use Rattle.taken_records.specs.Cuts.{Cut, IsStart};
ghost use Rattle.attempt_fates.specs.declared.fates.Attempt.{Attempt};
ghost use Rattle.attempt_fates.specs.Fates.{IsWhole, commits_of, committed_records};

/// A law: where fates are committed once and whole, each record that was not gone at the start
/// stands in exactly one committed attempt, and each that was gone in none.
pub fn each_record_is_committed_once()
    ensures once { (cut : Cut) (ticks number : ℕ) (fates : List Attempt) → IsWhole cut ticks fates
        → 1 ≤ number → number ≤ length cut.gone → is_gone cut.gone number ≡ false
        → length (commits_of number fates) ≡ 1 }
    ensures gone { (cut : Cut) (ticks number : ℕ) (fates : List Attempt) → IsWhole cut ticks fates
        → 1 ≤ number → number ≤ length cut.gone → is_gone cut.gone number ≡ true
        → length (commits_of number fates) ≡ 0 }
{}

/// A law: where fates are committed once and whole, without partitions, the records of the committed
/// attempts, in the order of the commits, are all records after the batches of the start.
pub fn committed_records_are_all()
    ensures { (cut : Cut) (ticks : ℕ) (fates : List Attempt) → IsStart cut → cut.partitions ≡ 0
        → IsWhole cut ticks fates
        → committed_records cut.records fates ≡ drop (cut.start * cut.size) cut.records }
{}
