ghost use Rattle.std.specs.Prelude.{◌≡◌, ◌<◌, ◌+◌, ℕ, List, All, true};
ghost use Rattle.event_worlds.specs.bolt_ops.RowOp.{Custom, IsCustom};
ghost use Rattle.event_worlds.specs.commit_turns.Turns.{is_finished};
ghost use Rattle.event_worlds.specs.Accounted.{IsInput};
ghost use Rattle.event_worlds.specs.Added.{first_history};
ghost use Rattle.event_worlds.specs.Worlds.{Known, Step, first_known, is_over, run, world_after};
ghost use Rattle.event_worlds.specs.state_parts.declared.answer.CommitOutcome.{CommitOutcome};
ghost use Rattle.event_worlds.specs.state_parts.declared.answer.CommitOutcome.TheVariants.{Done};
ghost use Rattle.event_worlds.specs.topology_plan.Topology.{Topology};
ghost use Rattle.event_worlds.specs.taken_records.Cuts.{Cut};
ghost use Rattle.event_worlds.specs.tuple_account.Histories.{History};
ghost use Rattle.event_worlds.specs.Rounds.{CanFinish, DoesNotCoincide, HasRounds, round_with, rounds_needed, ticks_in};
ghost use Rattle.world_progress.specs.Doing.{done};
ghost use Rattle.world_progress.specs.Lasting.{Lasting, NoneAborted};
ghost use Rattle.world_progress.specs.Rounding.{DoesMore, IsOpen, LastsOn, ShutsNone};
ghost use Rattle.world_progress.specs.Running.{so_far};

use event_worlds::commit_turns::lowest_is_pending;
use event_worlds::steps_add_to_histories;
use event_worlds::tree_model::nodes_of_joined_rows;

/// A law: nothing is lost in the first world, and nothing by steps where no commit fails and fewer
/// ticks pass than there are buckets; what was done does not fall.
pub fn lasting_worlds_go_on()
    ensures first { (t : Topology) (custom : Custom) (cut : Cut) (words : ℕ → ℕ → ℕ)
        → IsInput t cut
        → Lasting t custom cut words (first_history t words) (first_known t cut words) }
    ensures steps { (t : Topology) (custom : Custom) (cut : Cut) (words : ℕ → ℕ → ℕ)
        (outcomes : List CommitOutcome) (steps : List Step) (h : History) (k : Known)
        → IsInput t cut → IsCustom custom
        → All (λ (how : CommitOutcome). how ≡ Done) outcomes
        → Lasting t custom cut words h k → k.world.tick + ticks_in steps < t.buckets
        → LastsOn t custom cut words (ticks_in steps) h k
        (so_far t custom cut words outcomes steps h k)
        (run t custom cut words outcomes steps k) }
{
    steps_add_to_histories();
}

/// A law: where every bolt lets batches through within the attempts of the plan and no commit
/// fails, a whole round from a world in which nothing is lost and no partition is shut does
/// something, or all is over after it. Nothing is lost by it where fewer ticks passed than there
/// are buckets.
pub fn rounds_do_something()
    ensures { (t : Topology) (custom : Custom) (cut : Cut) (words : ℕ → ℕ → ℕ)
        (outcomes : List CommitOutcome) (ticks : ℕ) (h : History) (k : Known)
        → IsInput t cut → IsCustom custom → CanFinish t
        → All (λ (how : CommitOutcome). how ≡ Done) outcomes
        → Lasting t custom cut words h k → k.world.tick + ticks < t.buckets
        → LastsOn t custom cut words ticks h k
        (so_far t custom cut words outcomes (round_with t ticks) h k)
        (run t custom cut words outcomes (round_with t ticks) k)
        × (IsOpen cut k.world → DoesMore t cut h k
        (so_far t custom cut words outcomes (round_with t ticks) h k)
        (run t custom cut words outcomes (round_with t ticks) k)) }
{
    steps_add_to_histories();
    lowest_is_pending();
}

/// A law: with partitions no attempt aborts where every bolt lets batches through at the first
/// attempt, nothing is lost, no ids coincided and fewer ticks passed than there are buckets.
pub fn no_attempt_aborts_with_partitions()
    ensures { (t : Topology) (custom : Custom) (cut : Cut) (words : ℕ → ℕ → ℕ) (h : History)
        (k : Known)
        → IsInput t cut → CanFinish t → Lasting t custom cut words h k → k.world.tick < t.buckets
        → All DoesNotCoincide k.world.fates → NoneAborted cut k.world.fates }
{}

/// A law: what was done, where nothing is lost and with partitions no attempt aborted, is less than
/// the number of rounds that enough rounds are, beside the transactions up to the start.
pub fn what_can_be_done_is_bounded()
    ensures { (t : Topology) (custom : Custom) (cut : Cut) (words : ℕ → ℕ → ℕ) (h : History)
        (k : Known)
        → IsInput t cut → Lasting t custom cut words h k → NoneAborted cut k.world.fates
        → done h k.world < cut.start + rounds_needed t custom cut }
{
    nodes_of_joined_rows();
}

/// A law: where every bolt lets batches through within the attempts of the plan, nothing is lost,
/// no ids coincided and fewer ticks passed than there are buckets, what is over is finished: no
/// record is left uncommitted.
pub fn what_is_over_is_finished()
    ensures { (t : Topology) (custom : Custom) (cut : Cut) (words : ℕ → ℕ → ℕ) (h : History)
        (k : Known)
        → IsInput t cut → CanFinish t → Lasting t custom cut words h k
        → k.world.tick < t.buckets → All DoesNotCoincide k.world.fates
        → is_over t cut k.world ≡ true → is_finished t cut k.world.desk ≡ true }
{}

/// A law: where every bolt lets batches through within the attempts of the plan, with partitions at
/// the first of them, no commit fails, no ids coincide, no partition is shut and fewer ticks pass
/// than there are buckets, enough whole rounds commit every record, from the first world, and from
/// each in which nothing is lost.
pub fn enough_rounds_finish()
    ensures first { (t : Topology) (custom : Custom) (cut : Cut) (words : ℕ → ℕ → ℕ)
        (outcomes : List CommitOutcome) (steps : List Step)
        → IsInput t cut → IsCustom custom → CanFinish t
        → All (λ (how : CommitOutcome). how ≡ Done) outcomes
        → All DoesNotCoincide (world_after t custom cut words outcomes steps).fates
        → HasRounds t (rounds_needed t custom cut) steps → ticks_in steps < t.buckets
        → (0 < cut.partitions → All ShutsNone steps)
        → is_finished t cut (world_after t custom cut words outcomes steps).desk ≡ true }
    ensures later { (t : Topology) (custom : Custom) (cut : Cut) (words : ℕ → ℕ → ℕ)
        (outcomes : List CommitOutcome) (steps : List Step) (h : History) (k : Known)
        → IsInput t cut → IsCustom custom → CanFinish t
        → All (λ (how : CommitOutcome). how ≡ Done) outcomes
        → Lasting t custom cut words h k → IsOpen cut k.world
        → All DoesNotCoincide (run t custom cut words outcomes steps k).world.fates
        → HasRounds t (rounds_needed t custom cut) steps
        → k.world.tick + ticks_in steps < t.buckets
        → (0 < cut.partitions → All ShutsNone steps)
        → is_finished t cut (run t custom cut words outcomes steps k).world.desk ≡ true }
{
    steps_add_to_histories();
    lowest_is_pending();
    nodes_of_joined_rows();
}
