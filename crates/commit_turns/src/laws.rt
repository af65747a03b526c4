ghost use Rattle.std.specs.Prelude.{◌≡◌, ◌≤◌, ◌+◌, ◌++◌, ◌↔◌, ℕ, List, [], length, Option, None, false, is_some, true};
ghost use Rattle.std.specs.Option.{option_to_list};
ghost use Rattle.attempt_fates.specs.declared.fates.Attempt.{Attempt};
ghost use Rattle.attempt_fates.specs.Fates.{IsWhole};
ghost use Rattle.commit_turns.specs.Account.{desk_of, ends_of};
ghost use Rattle.commit_turns.specs.Desks.{Desk, first_desk};
ghost use Rattle.commit_turns.specs.Kept.{HasLowest, IsKept};
ghost use Rattle.commit_turns.specs.Outcomes.{Begin, IsOutcome, hears};
ghost use Rattle.commit_turns.specs.Turns.{decided, is_finished, next_to_commit, next_wait, turned};
ghost use Rattle.record_offers.specs.Offers.{batch_count};
ghost use Rattle.state_parts.specs.declared.answer.CommitOutcome.{CommitOutcome};
ghost use Rattle.taken_records.specs.Cuts.{Cut, IsStart};
ghost use Rattle.tuple_account.specs.acker_core.declared.verdict.Verdict.{Verdict};
ghost use Rattle.tuple_account.specs.counted_items.Weights.{weigh};
ghost use Rattle.tuple_account.specs.storm_values.declared.value.Root.{Root};
ghost use Rattle.tuple_account.specs.topology_plan.Topology.{Topology};
ghost use Rattle.tuple_account.specs.topology_plan.Valid.{IsValid};
ghost use Rattle.tuple_account.specs.Fits.{Fits};
ghost use Rattle.tuple_account.specs.Histories.{History, Opening, joined, nothing, opens};
ghost use Rattle.tuple_account.specs.Sound.{is_about};

/// A law: what the coordinator keeps holds at first, and after each turn and each outcome of a
/// commit: each record is taken once at most, batches are committed in order, and the attempts of a
/// transaction run one after another.
pub fn desks_are_kept()
    ensures first { (t : Topology) (cut : Cut) → IsValid t → IsStart cut
        → IsKept t cut (first_desk cut) [] }
    ensures turn { (t : Topology) (cut : Cut) (d : Desk) (fates : List Attempt)
        → IsValid t → IsStart cut → d.exhausted ≡ None → IsKept t cut d fates
        → (verdict : Option Verdict) (ticks shut : ℕ)
        → IsKept t cut (turned t cut verdict ticks shut d).desk
        (fates ++ (turned t cut verdict ticks shut d).ended) }
    ensures outcome { (t : Topology) (cut : Cut) (d : Desk) (fates : List Attempt)
        → IsValid t → IsStart cut → d.exhausted ≡ None → IsKept t cut d fates
        → (how : CommitOutcome)
        → IsKept t cut (decided t cut how d).desk (fates ++ (decided t cut how d).ended) }
{}

/// A law: the coordinator's account fits what happened at first, and after each turn, with the
/// verdict that it heard and the attempts that it began, and after each outcome of a commit.
pub fn accounts_stay_fit()
    ensures first { (t : Topology) (cut : Cut)
        → Fits t (desk_of cut (first_desk cut)) (ends_of []) nothing }
    ensures turn { (t : Topology) (cut : Cut) (d : Desk) (fates : List Attempt) (h : History)
        → IsValid t → IsStart cut → d.exhausted ≡ None → IsKept t cut d fates
        → Fits t (desk_of cut d) (ends_of fates) h
        → (verdict : Option Verdict) (ticks shut : ℕ) (openings : List Opening)
        → Begin openings (turned t cut verdict ticks shut d).begun
        → ((root : Root) → weigh (is_about root) (h.heard ++ option_to_list verdict)
        ≤ weigh (opens root) h.begun)
        → Fits t (desk_of cut (turned t cut verdict ticks shut d).desk)
        (ends_of (fates ++ (turned t cut verdict ticks shut d).ended))
        (joined h (hears verdict openings)) }
    ensures outcome { (t : Topology) (cut : Cut) (d : Desk) (fates : List Attempt) (h : History)
        → IsValid t → IsStart cut → d.exhausted ≡ None → IsKept t cut d fates
        → Fits t (desk_of cut d) (ends_of fates) h
        → (how : CommitOutcome) → IsOutcome t how
        → Fits t (desk_of cut (decided t cut how d).desk)
        (ends_of (fates ++ (decided t cut how d).ended)) h }
    ensures roots { (t : Topology) (cut : Cut) (d : Desk) (fates : List Attempt) (h : History)
        → IsValid t → IsStart cut → d.exhausted ≡ None → IsKept t cut d fates
        → Fits t (desk_of cut d) (ends_of fates) h
        → (verdict : Option Verdict) (ticks shut : ℕ) (openings : List Opening)
        → Begin openings (turned t cut verdict ticks shut d).begun
        → (root : Root) → weigh (opens root) h.begun + weigh (opens root) openings ≤ 1 }
{}

/// A law: where no record is left uncommitted, each was gone at the start or stands in exactly one
/// committed attempt. Without partitions that is so exactly where the last batch is committed.
pub fn finished_runs_are_whole()
    ensures whole { (t : Topology) (cut : Cut) (d : Desk) (fates : List Attempt)
        → IsKept t cut d fates → is_finished t cut d ≡ true → IsWhole cut d.tick fates }
    ensures batches { (t : Topology) (cut : Cut) (d : Desk) (fates : List Attempt)
        → IsStart cut → IsKept t cut d fates → cut.partitions ≡ 0
        → (is_finished t cut d ≡ true)
        ↔ (d.committed ≡ batch_count (length cut.gone) cut.size) }
{}

/// A law: a turn that did not stop ends where as many attempts are pending as may be, or nothing is
/// offered while these partitions are shut.
pub fn turns_fill_up()
    ensures { (t : Topology) (cut : Cut) (d : Desk) (verdict : Option Verdict)
        (ticks shut : ℕ)
        → (turned t cut verdict ticks shut d).desk.exhausted ≡ None
        → next_wait t cut shut (turned t cut verdict ticks shut d).desk ≡ None }
{}

/// A law: after each turn that did not stop and in which no partition was shut, while some record
/// is left uncommitted, an attempt of the lowest transaction that is not committed is pending.
pub fn lowest_is_pending()
    ensures { (t : Topology) (cut : Cut) (d : Desk) (fates : List Attempt)
        → IsValid t → IsStart cut → d.exhausted ≡ None → IsKept t cut d fates
        → (verdict : Option Verdict) (ticks : ℕ)
        → HasLowest t cut (turned t cut verdict ticks 0 d).desk }
{}

/// A law: the commit that a turn orders is the one whose outcome is told next, and a commit is out
/// where one was ordered.
pub fn orders_are_decided()
    ensures ordered { (t : Topology) (cut : Cut) (d : Desk) (verdict : Option Verdict)
        (ticks shut : ℕ)
        → (turned t cut verdict ticks shut d).desk.exhausted ≡ None
        → next_to_commit t cut (turned t cut verdict ticks shut d).desk
        ≡ (turned t cut verdict ticks shut d).commit }
    ensures out { (t : Topology) (cut : Cut) (d : Desk) (verdict : Option Verdict)
        (ticks shut : ℕ)
        → d.out ≡ false
        → (turned t cut verdict ticks shut d).desk.out
        ≡ is_some (turned t cut verdict ticks shut d).commit }
{}
