ghost use Rattle.std.specs.Prelude.{◌≡◌, ◌≤◌, ◌+◌, ◌==◌, ℕ, true, false, if◌then◌else◌, List, Some, All, slice_get};
ghost use Rattle.commit_order.specs.attempt_fates.declared.fates.Attempt.{Attempt};
ghost use Rattle.commit_order.specs.bolt_ops.RowOp.{Custom, IsCustom};
ghost use Rattle.commit_order.specs.commit_turns.declared.wait.Wait.{Wait};
ghost use Rattle.commit_order.specs.commit_turns.Account.{rows_at};
ghost use Rattle.commit_order.specs.commit_turns.Outcomes.{IsOutcome};
ghost use Rattle.event_worlds.specs.Accounted.{Accounted, AreCaused, BeginsWithBatch, IsInput, LedAt, LedTo};
ghost use Rattle.event_worlds.specs.Beside.{IsFreeStep, LedBeside};
ghost use Rattle.event_worlds.specs.Added.{added, first_history};
ghost use Rattle.event_worlds.specs.Worlds.{Known, Step, first_known, next, open_with, run, shut_with};
ghost use Rattle.commit_order.specs.counted_items.Weights.{weigh};
ghost use Rattle.commit_order.specs.record_offers.Offers.{is_shut};
ghost use Rattle.commit_order.specs.record_spans.declared.span.Span.{Span};
ghost use Rattle.commit_order.specs.record_spans.Spans.{AreApart};
ghost use Rattle.commit_order.specs.state_parts.declared.answer.CommitOutcome.{CommitOutcome};
ghost use Rattle.commit_order.specs.storm_values.declared.value.Root.{Root};
ghost use Rattle.commit_order.specs.storm_values.declared.value.Value.{Value};
ghost use Rattle.commit_order.specs.topology_plan.Topology.{Topology};
ghost use Rattle.commit_order.specs.tree_model.declared.messages.AckMsg.{AckMsg};
ghost use Rattle.commit_order.specs.tree_model.Lists.{Covers, IsClosed};
ghost use Rattle.commit_order.specs.tree_model.Trees.{node_count};
ghost use Rattle.commit_order.specs.taken_records.Cuts.{Cut};
ghost use Rattle.commit_order.specs.tuple_account.Histories.{History, Opening, Packet, joined};
ghost use Rattle.commit_order.specs.tuple_account.Moves.{Station};
ghost use Rattle.commit_order.specs.tuple_account.Sound.{IsSound};

use commit_order::commit_turns::{accounts_stay_fit, desks_are_kept};
use commit_order::tree_model::nodes_of_joined_rows;

/// A law: start words alone led to the first world, and each step leads on, with what it adds to
/// the history, whatever the words of the sources and the outcomes of commits.
pub fn steps_add_to_histories()
    ensures first { (t : Topology) (custom : Custom) (cut : Cut) (words : ℕ → ℕ → ℕ)
        → IsInput t cut
        → LedTo t custom cut words (first_history t words) (first_known t cut words) }
    ensures next { (t : Topology) (custom : Custom) (cut : Cut) (words : ℕ → ℕ → ℕ)
        (outcomes : List CommitOutcome) (s : Step) (h : History) (k : Known)
        → IsInput t cut → IsCustom custom → All (IsOutcome t) outcomes
        → LedTo t custom cut words h k
        → LedTo t custom cut words (joined h (added t custom cut words s k))
        (next t custom cut words outcomes s k) }
{
    desks_are_kept();
    accounts_stay_fit();
}

/// A law: the accounts fit the first world, and each world that steps lead to, whatever the order
/// of the steps, the words of the sources and the outcomes of commits.
pub fn worlds_are_accounted()
    ensures first { (t : Topology) (custom : Custom) (cut : Cut) (words : ℕ → ℕ → ℕ)
        → IsInput t cut → Accounted t custom cut words (first_known t cut words) }
    ensures next { (t : Topology) (custom : Custom) (cut : Cut) (words : ℕ → ℕ → ℕ)
        (outcomes : List CommitOutcome) (s : Step) (k : Known)
        → IsInput t cut → IsCustom custom → All (IsOutcome t) outcomes
        → Accounted t custom cut words k
        → Accounted t custom cut words (next t custom cut words outcomes s k) }
    ensures run { (t : Topology) (custom : Custom) (cut : Cut) (words : ℕ → ℕ → ℕ)
        (outcomes : List CommitOutcome) (steps : List Step) (k : Known)
        → IsInput t cut → IsCustom custom → All (IsOutcome t) outcomes
        → Accounted t custom cut words k
        → Accounted t custom cut words (run t custom cut words outcomes steps k) }
{
    steps_add_to_histories();
}

/// A law: the coordinator's steps lead on where packets wait beside the world, as in boxes that
/// others use, and it has nothing left to hand over.
pub fn coordinators_steps_lead_on_beside()
    ensures { (t : Topology) (custom : Custom) (cut : Cut) (words : ℕ → ℕ → ℕ)
        (outcomes : List CommitOutcome) (s : Step) (weight : (Packet → ℕ) → ℕ) (h : History)
        (k : Known)
        → IsInput t cut → All (IsOutcome t) outcomes → IsFreeStep s k.world.orders
        → LedBeside t custom cut words weight h k
        → LedBeside t custom cut words weight (joined h (added t custom cut words s k))
        (next t custom cut words outcomes s k) }
{
    desks_are_kept();
    accounts_stay_fit();
}

/// A law: a partition that is shut or opened is so from then on, and each other one is as it was.
pub fn partitions_are_shut_one_by_one()
    ensures shut { (q r shut : ℕ)
        → is_shut (shut_with q shut) r ≡ (if r == q then true else is_shut shut r) }
    ensures opened { (q r shut : ℕ)
        → is_shut (open_with q shut) r ≡ (if r == q then false else is_shut shut r) }
{}

/// A law: in each such world every end has its cause, and the ids of all lists are drawn.
pub fn ends_of_worlds_have_causes()
    ensures { (t : Topology) (custom : Custom) (cut : Cut) (words : ℕ → ℕ → ℕ) (k : Known)
        → IsInput t cut → Accounted t custom cut words k
        → AreCaused t custom cut k.world.desk.tick words k.world.fates }
{
    nodes_of_joined_rows();
}

/// A law: what led to a world began each root with the rows of a batch that its transaction may
/// have; what was begun are the attempts that ended and those that are pending, each with the rows
/// of its own records.
pub fn roots_begin_with_their_batches()
    ensures batches { (t : Topology) (custom : Custom) (cut : Cut) (words : ℕ → ℕ → ℕ)
        (all : Station) (h : History) (k : Known)
        → LedAt t custom cut words all h k → All (BeginsWithBatch cut) h.begun }
    ensures attempts { (t : Topology) (custom : Custom) (cut : Cut) (words : ℕ → ℕ → ℕ)
        (all : Station) (h : History) (k : Known)
        → LedAt t custom cut words all h k
        → (f : Root → List (List Value) → ℕ)
        → weigh (λ (o : Opening). f o.begun.root o.begun.rows) h.begun
        ≡ weigh (λ (a : Attempt). f a.root (rows_at cut a.spans)) k.world.fates
        + weigh (λ (w : Wait). f w.root (rows_at cut w.spans)) k.world.desk.pending }
{}

/// A law: the tree of a batch has no more nodes than that of all records.
pub fn batches_have_no_more_nodes()
    ensures { (t : Topology) (custom : Custom) (cut : Cut) (spans : List Span)
        → AreApart 0 spans
        → node_count t custom (rows_at cut spans) ≤ node_count t custom cut.records }
{
    nodes_of_joined_rows();
}

/// A law: in each such world a list that a pending attempt was settled with is true, single, steady
/// and closed, and covers the tuple tree of its records.
pub fn settled_lists_are_whole()
    ensures { (t : Topology) (custom : Custom) (cut : Cut) (words : ℕ → ℕ → ℕ) (k : Known)
        → IsInput t cut → Accounted t custom cut words k
        → (i : ℕ) (w : Wait) (list : List AckMsg)
        → slice_get k.world.desk.pending i ≡ Some w → w.settled ≡ Some list
        → IsSound t custom (rows_at cut w.spans) w.root list × IsClosed list
        × Covers t custom (rows_at cut w.spans) list }
{}

/// A law: what holds of ends and of settled lists in such worlds holds too where packets wait
/// beside them.
pub fn worlds_with_others_are_accounted()
    ensures causes { (t : Topology) (custom : Custom) (cut : Cut) (words : ℕ → ℕ → ℕ)
        (weight : (Packet → ℕ) → ℕ) (h : History) (k : Known)
        → IsInput t cut → LedBeside t custom cut words weight h k
        → AreCaused t custom cut k.world.desk.tick words k.world.fates }
    ensures settled { (t : Topology) (custom : Custom) (cut : Cut) (words : ℕ → ℕ → ℕ)
        (all : Station) (h : History) (k : Known)
        → IsInput t cut → LedAt t custom cut words all h k
        → (i : ℕ) (w : Wait) (list : List AckMsg)
        → slice_get k.world.desk.pending i ≡ Some w → w.settled ≡ Some list
        → IsSound t custom (rows_at cut w.spans) w.root list × IsClosed list
        × Covers t custom (rows_at cut w.spans) list }
{
    nodes_of_joined_rows();
}
