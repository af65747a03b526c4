ghost use Rattle.std.specs.Prelude.{◌≡◌, ◌<◌, ◌≤◌, ◌+◌, ◌⊎◌, ℕ, List, [], ◌∷◌, ◌++◌, All, Option, Some, false, length};
ghost use Rattle.std.specs.List.{AllZip, flat_map};
ghost use Rattle.attempt_fates.specs.declared.fates.Attempt.{Attempt};
ghost use Rattle.attempt_fates.specs.Fates.{committed_batches};
ghost use Rattle.batch_commits.specs.Standing.{AllButLastAreCounted, FailsAtOneOf, FailuresAreCounted, HasStrangeAt, HasTextKey, HoldAll, IsNextBatch, PartsStand, RoseByFailures, TellsFailedPart, batches_in, failed_commits, first_batches, writes_at, writes_of};
ghost use Rattle.commit_turns.specs.Account.{rows_at};
ghost use Rattle.commit_turns.specs.Desks.{Desk};
ghost use Rattle.commit_turns.specs.Kept.{IsKept};
ghost use Rattle.commit_turns.specs.Outcomes.{IsOutcome};
ghost use Rattle.commit_turns.specs.declared.wait.Wait.{Wait};
ghost use Rattle.commit_turns.specs.Turns.{decided, end_by, next_to_commit, turned};
ghost use Rattle.record_offers.specs.Offers.{is_gone};
ghost use Rattle.record_spans.specs.declared.span.Span.{Span};
ghost use Rattle.state_parts.specs.Commits.{AreCommitted, ArePerhapsCommitted, CountsFollow, FailOnceAtMost, IsBadAt, SameCounts};
ghost use Rattle.state_parts.specs.Makers.{RoseBySum, faults_of};
ghost use Rattle.state_parts.specs.PartPlans.{AreParts, IsOneOf, plans_of};
ghost use Rattle.state_parts.specs.PartTables.{IsBadRowAt, IsTableOver};
ghost use Rattle.state_parts.specs.Standing.{IsEmpty};
ghost use Rattle.state_parts.specs.declared.answer.CommitOutcome.{CommitOutcome};
ghost use Rattle.state_parts.specs.declared.parts.StatePart.{StatePart};
ghost use Rattle.taken_records.specs.Cuts.{Cut};
ghost use Rattle.taken_records.specs.Taken.{times_in};
ghost use Rattle.tuple_account.specs.Ends.{IsPart};
ghost use Rattle.tuple_account.specs.acker_core.declared.verdict.Verdict.{Verdict};
ghost use Rattle.tuple_account.specs.bolt_ops.RowOp.{Custom};
ghost use Rattle.tuple_account.specs.storm_values.declared.value.Root.{Root};
ghost use Rattle.tuple_account.specs.topology_plan.declared.parts.Kind.{Kind};
ghost use Rattle.tuple_account.specs.topology_plan.Topology.{Topology};
ghost use Rattle.tuple_account.specs.topology_plan.Wired.{IsWired};
ghost use Rattle.tuple_account.specs.tree_model.Tables.{AreTables, states_of};
ghost use Rattle.tuple_account.specs.tree_model.declared.messages.AckMsg.{AckMsg};
ghost use Rattle.tuple_account.specs.tree_model.declared.write.Table.{Table};
ghost use Rattle.tuple_account.specs.tree_model.declared.write.Write.{Write};

use state_parts::{
    commits_move_all_parts_on, parts_over_empty_stores_begin, tables_of_parts_are_tables_of_writes,
    writes_of_trees_are_placed,
};
use storm_stores::CellStore;
use tuple_account::tree_model::writes_of_joined_rows;

/// A law: parts over empty stores stand at no batches, a commit of the next batch's writes that is
/// done moves them on by that batch, and one that was broken off leaves them where they stand. With
/// partitions only opaque states may be tried again with other records.
pub fn commits_of_batches_move_parts<C: CellStore>()
    ensures first { (t : Topology) (custom : Custom) (cut : Cut) (parts : List (StatePart C))
        → All (IsEmpty C.tells) parts → PartsStand C.tells t custom cut [] parts }
    ensures done { (t : Topology) (custom : Custom) (cut : Cut) (batches : List (List Span))
        (spans : List Span) (root : Root) (old new : List (StatePart C))
        → root.txid ≡ length batches + 1 → IsNextBatch cut batches spans
        → PartsStand C.tells t custom cut batches old
        → AreCommitted C.tells custom root (writes_at t custom cut spans) old new
        → PartsStand C.tells t custom cut (batches ++ spans ∷ []) new }
    ensures broken_off { (t : Topology) (custom : Custom) (cut : Cut)
        (batches : List (List Span)) (spans : List Span) (root : Root)
        (old new : List (StatePart C))
        → IsWired t → (0 < cut.partitions → t.spout_kind ≡ Kind.Opaque) → AreParts t old
        → root.txid ≡ length batches + 1 → IsNextBatch cut batches spans
        → PartsStand C.tells t custom cut batches old → (HoldAll cut batches → ⊥)
        → ArePerhapsCommitted C.tells custom root (writes_at t custom cut spans) old new
        → PartsStand C.tells t custom cut batches new }
{
    parts_over_empty_stores_begin::<C>();
    commits_move_all_parts_on::<C>();
    writes_of_trees_are_placed();
    writes_of_joined_rows();
}

/// A law: where parts stand at batches that hold all records, their tables are those of the writes
/// of the records of these batches, in the order of the commits.
pub fn parts_that_stand_have_the_tables<C: CellStore>()
    ensures { (t : Topology) (custom : Custom) (cut : Cut) (batches : List (List Span))
        (parts : List (StatePart C)) (tables : List Table)
        → IsWired t → AreParts t parts → HoldAll cut batches
        → PartsStand C.tells t custom cut batches parts
        → AllZip (IsTableOver C.tells parts) (states_of t custom) tables
        → AreTables t custom (writes_of t custom cut batches) tables }
{
    tables_of_parts_are_tables_of_writes::<C>();
    writes_of_trees_are_placed();
}

/// A law: the batches of a spout without partitions, up to the last, hold all records, and theirs
/// are those of the input, in its order. Any batches hold all records or do not.
pub fn all_batches_hold_all_records()
    ensures hold { (cut : Cut) → 0 < cut.size → HoldAll cut (first_batches cut (batches_in cut)) }
    ensures records { (cut : Cut) → 0 < cut.size → length cut.gone ≡ length cut.records
        → flat_map (rows_at cut) (first_batches cut (batches_in cut)) ≡ cut.records }
    ensures known { (cut : Cut) (batches : List (List Span))
        → HoldAll cut batches ⊎ (HoldAll cut batches → ⊥) }
{}

/// A law: the commit that is ordered next is of the transaction after the batches that were
/// committed, those before the start first. Its batch is the next one, and has a record that stands
/// in none of these, so that they do not hold all records.
pub fn next_commits_are_of_the_next_batch()
    ensures number { (t : Topology) (cut : Cut) (d : Desk) (fates : List Attempt)
        (before : List (List Span)) (w : Wait)
        → IsKept t cut d fates → next_to_commit t cut d ≡ Some w → length before ≡ cut.start
        → w.root.txid ≡ length (before ++ committed_batches fates) + 1 }
    ensures batch { (t : Topology) (cut : Cut) (d : Desk) (fates : List Attempt)
        (before : List (List Span)) (w : Wait)
        → IsKept t cut d fates → next_to_commit t cut d ≡ Some w → length before ≡ cut.start
        → IsNextBatch cut (before ++ committed_batches fates) w.spans }
    ensures left { (t : Topology) (cut : Cut) (d : Desk) (fates : List Attempt)
        (before : List (List Span)) (w : Wait)
        → IsKept t cut d fates → next_to_commit t cut d ≡ Some w
        → ((n : ℕ) → 1 ≤ n → n ≤ length cut.gone → is_gone cut.gone n ≡ false
        → times_in before n ≡ 0)
        → HoldAll cut (before ++ committed_batches fates) → ⊥ }
{}

/// A law: a cell that no part takes, or one at a key that is no text, was there at that key before
/// a commit of writes whose keys are texts; and a fault that tells of a bad cell tells of such a
/// one.
pub fn strange_cells_were_there<C: CellStore>()
    ensures commit { (custom : Custom) (root : Root) (made : List Write)
        (old new : List (StatePart C)) (key : List ℕ)
        → All HasTextKey made → ArePerhapsCommitted C.tells custom root made old new
        → HasStrangeAt C.tells new key → HasStrangeAt C.tells old key }
    ensures bad_before { (custom : Custom) (root : Root) (made : List Write)
        (old new : List (StatePart C)) (key : List ℕ)
        → ArePerhapsCommitted C.tells custom root made old new
        → IsBadAt C.tells new key → IsBadAt C.tells old key }
    ensures bad_cell { (parts : List (StatePart C)) (key : List ℕ)
        → IsBadAt C.tells parts key → HasStrangeAt C.tells parts key }
    ensures bad_row { (parts : List (StatePart C)) (key : List ℕ)
        → IsBadRowAt C.tells parts key → HasStrangeAt C.tells parts key }
{}

/// A law: the counts of stores go along the end of the attempt whose commit came to an outcome, and
/// along those of the attempts that are dropped with it; the attempts that end in a turn tell of no
/// failure. A part at which a commit fails is one of a state, and each of these stands among the
/// parts.
pub fn failures_of_commits_are_counted<C: CellStore>()
    ensures counted { (t : Topology) (cut : Cut) (ended : Attempt) (how : CommitOutcome)
        (list : Option (List AckMsg)) (old new : List (StatePart C))
        → CountsFollow C.fault_count how old new → ended.end ≡ end_by t cut how list
        → FailuresAreCounted C.fault_count (ended ∷ []) old new }
    ensures decided { (t : Topology) (cut : Cut) (d : Desk) (w : Wait) (how : CommitOutcome)
        (old new : List (StatePart C))
        → next_to_commit t cut d ≡ Some w → CountsFollow C.fault_count how old new
        → FailuresAreCounted C.fault_count (decided t cut how d).ended old new }
    ensures turn { (t : Topology) (cut : Cut) (d : Desk) (verdict : Option Verdict)
        (ticks shut : ℕ) → failed_commits (turned t cut verdict ticks shut d).ended ≡ 0 }
    ensures outcome { (t : Topology) (how : CommitOutcome) (old new : List (StatePart C))
        → AreParts t old → TellsFailedPart C.fault_count old new how → IsOutcome t how }
    ensures part { (t : Topology) (parts : List (StatePart C)) (component part : ℕ)
        → AreParts t parts → IsPart t component part → IsOneOf (plans_of parts) component part }
{}

/// A law: counts that went along the ends of some attempts and then of others went along those of
/// all, and where no commit failed they stayed. A last commit that no fate tells may have failed
/// once more at each part. Together the counts rose by as many as commits failed at least.
pub fn counts_run_on<C: CellStore>()
    ensures then { (xs ys : List Attempt) (a b c : List (StatePart C))
        → plans_of b ≡ plans_of a → FailuresAreCounted C.fault_count xs a b
        → FailuresAreCounted C.fault_count ys b c
        → FailuresAreCounted C.fault_count (xs ++ ys) a c }
    ensures none { (parts : List (StatePart C))
        → FailuresAreCounted C.fault_count [] parts parts }
    ensures quiet { (xs : List Attempt) (parts : List (StatePart C))
        → failed_commits xs ≡ 0 → FailuresAreCounted C.fault_count xs parts parts }
    ensures same { (xs : List Attempt) (a b : List (StatePart C))
        → failed_commits xs ≡ 0 → FailuresAreCounted C.fault_count xs a b
        → SameCounts C.fault_count a b }
    ensures last { (xs : List Attempt) (a b c : List (StatePart C))
        → FailuresAreCounted C.fault_count xs a b → FailOnceAtMost C.fault_count b c
        → AllButLastAreCounted C.fault_count xs a c }
    ensures then_last { (xs ys : List Attempt) (a b c : List (StatePart C))
        → plans_of b ≡ plans_of a → FailuresAreCounted C.fault_count xs a b
        → AllButLastAreCounted C.fault_count ys b c
        → AllButLastAreCounted C.fault_count (xs ++ ys) a c }
    ensures all_told { (xs : List Attempt) (a b : List (StatePart C))
        → FailuresAreCounted C.fault_count xs a b → AllButLastAreCounted C.fault_count xs a b }
    ensures sum { (xs : List Attempt) (a b : List (StatePart C))
        → All (FailsAtOneOf (plans_of a)) xs → FailuresAreCounted C.fault_count xs a b
        → RoseByFailures (length a) (failed_commits xs) (faults_of C.fault_count a)
        (faults_of C.fault_count b) }
    ensures last_sum { (xs : List Attempt) (a b : List (StatePart C))
        → All (FailsAtOneOf (plans_of a)) xs → AllButLastAreCounted C.fault_count xs a b
        → RoseBySum (failed_commits xs) (faults_of C.fault_count a) (faults_of C.fault_count b) }
{}
