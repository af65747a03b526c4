ghost use Rattle.std.specs.Prelude.{◌≡◌, ◌≤◌, ◌<◌, ◌+◌, ◌^◌, ◌++◌, ℕ, List, [], ◌∷◌, Bool, true, false, length, min};
ghost use Rattle.record_spans.specs.declared.span.Span.{Span};
ghost use Rattle.record_spans.specs.Spans.{AreRunsOf, stands_in};
ghost use Rattle.record_spans.specs.Fronts.{AreFronts};
ghost use Rattle.record_offers.specs.Offers.{AreMarked, OfferState, batch_count, batch_numbers, first_free, fresh, is_gone, left_in, offered};
ghost use Rattle.record_offers.specs.Starts.{IsPossible};
ghost use Rattle.storm_values.specs.declared.value.Value.{Value};
ghost use Rattle.taken_records.specs.Cuts.{IsStart};
ghost use Rattle.taken_records.specs.Taken.{AreTaken, IsBatch, StayFronts, marked, one_if, passed_with, runs_of, times_in};

/// A law: the marks where those of some spans are set are the only ones that are marked so.
pub fn marks_are_set()
    ensures set { (spans : List Span) (to : Bool) (gone : List Bool)
        → AreMarked (stands_in spans) to gone (marked to spans gone) }
    ensures only { (spans : List Span) (to : Bool) (old new : List Bool)
        → AreMarked (stands_in spans) to old new → new ≡ marked to spans old }
{}

/// A law: the runs of what is offered are its maximal runs, and there are no others. They hold 1
/// record up to as many as the size, where something is offered.
pub fn offers_are_runs()
    ensures runs { (state : OfferState) (txid shut : ℕ)
        → AreRunsOf (offered state txid shut) (runs_of (offered state txid shut)) }
    ensures only { (state : OfferState) (txid shut : ℕ) (spans : List Span)
        → AreRunsOf (offered state txid shut) spans
        → spans ≡ runs_of (offered state txid shut) }
    ensures batch { (records size txid : ℕ) → 0 < size → 1 ≤ txid
        → txid ≤ batch_count records size
        → IsBatch records size (runs_of (batch_numbers records size txid)) }
    ensures free { (size partitions shut : ℕ) (gone : List Bool)
        → 1 ≤ length (first_free size partitions shut gone)
        → IsBatch (length gone) size (runs_of (first_free size partitions shut gone)) }
{}

/// A law: a batch is taken whose records are not gone, and comes back; and it does not matter in
/// which order batches were taken. The first records that are free are not gone.
pub fn records_are_taken_once()
    ensures first { (began : List Bool) (size : ℕ) → AreTaken began began size [] }
    ensures taken { (began gone : List Bool) (size : ℕ) (before after : List (List Span))
        (spans : List Span) → AreTaken began gone size (before ++ after)
        → IsBatch (length began) size spans
        → ((n : ℕ) → stands_in spans n ≡ true → is_gone gone n ≡ false)
        → AreTaken began (marked true spans gone) size (before ++ spans ∷ after) }
    ensures free { (size partitions shut n : ℕ) (gone : List Bool)
        → stands_in (runs_of (first_free size partitions shut gone)) n ≡ true
        → is_gone gone n ≡ false }
    ensures put_back { (began gone : List Bool) (size : ℕ) (before after : List (List Span))
        (spans : List Span) → AreTaken began gone size (before ++ spans ∷ after)
        → AreTaken began (marked false spans gone) size (before ++ after) }
    ensures moved { (began gone : List Bool) (size : ℕ) (done before after : List (List Span))
        (spans : List Span) → AreTaken began gone size (done ++ (before ++ spans ∷ after))
        → AreTaken began gone size ((done ++ spans ∷ []) ++ (before ++ after)) }
    ensures apart { (began gone : List Bool) (size : ℕ) (taken : List (List Span)) (n : ℕ)
        → AreTaken began gone size taken → 1 ≤ n → n ≤ length began
        → one_if (is_gone began n) + times_in taken n ≤ 1 }
{}

/// A law: with partitions, what has passed stays a front of each, where the first free records are
/// taken after the others and batches come back from the last one on.
pub fn fronts_are_kept()
    ensures first { (partitions : ℕ) (began : List Bool) (spans : List Span)
        → AreFronts partitions spans
        → ((n : ℕ) → 1 ≤ n → n ≤ length began → is_gone began n ≡ stands_in spans n)
        → StayFronts partitions (length began) (is_gone began) [] }
    ensures taken { (size partitions shut : ℕ) (began gone : List Bool)
        (taken : List (List Span)) → AreTaken began gone size taken
        → StayFronts partitions (length began) (is_gone began) taken
        → StayFronts partitions (length began) (is_gone began)
        (taken ++ runs_of (first_free size partitions shut gone) ∷ []) }
    ensures put_back { (partitions records : ℕ) (passed : ℕ → Bool)
        (before after : List (List Span))
        → StayFronts partitions records passed (before ++ after)
        → StayFronts partitions records passed before }
    ensures gone { (began gone : List Bool) (size : ℕ) (taken : List (List Span)) (n : ℕ)
        → AreTaken began gone size taken → 1 ≤ n → n ≤ length began
        → passed_with (is_gone began) taken n ≡ is_gone gone n }
{}

/// A law: where no record is left, each was gone at first or stands in exactly one of the batches
/// that were taken. With partitions, none of which is shut, as many records are offered until then
/// as the size says, or all that are left.
pub fn all_records_are_taken()
    ensures all { (began gone : List Bool) (size : ℕ) (taken : List (List Span)) (n : ℕ)
        → AreTaken began gone size taken → left_in gone ≡ 0 → 1 ≤ n → n ≤ length began
        → one_if (is_gone began n) + times_in taken n ≡ 1 }
    ensures offered { (size partitions : ℕ) (gone : List Bool)
        → length (first_free size partitions 0 gone) ≡ min size (left_in gone) }
{}

/// A law: offers may start where no record is gone, and after any transactions that may have taken
/// just the records that are gone.
pub fn possible_starts_are_starts()
    ensures fresh { (records : List (List Value)) (size partitions : ℕ) → 0 < size
        → length records < 2 ^ 64 → IsStart (fresh records size partitions) }
    ensures after { (records : List (List Value)) (size partitions txid : ℕ)
        (spans : List Span) (marks : List Bool) → 0 < size → txid + length records < 2 ^ 64
        → IsPossible (length records) size partitions txid spans
        → AreMarked (stands_in spans) true (fresh records size partitions).gone marks
        → IsStart (record (fresh records size partitions) { gone = marks; start = txid }) }
{}
