ghost use Rattle.std.specs.Prelude.{◌≡◌, ◌<◌, ◌+◌, ℕ, []};
ghost use Rattle.event_worlds.specs.bolt_ops.RowOp.{Custom, IsCustom};
ghost use Rattle.event_worlds.specs.Accounted.{LedAt};
ghost use Rattle.event_worlds.specs.Beside.{LedBeside};
ghost use Rattle.event_worlds.specs.Orderly.{IsOrderly};
ghost use Rattle.event_worlds.specs.Worlds.{Known, TaskSide, World, acker_at, drew, ended, task_at, with_task};
ghost use Rattle.stretch_worlds.specs.Holding.{IsHeldUp, for_acker, for_task};
ghost use Rattle.stretch_worlds.specs.Stretching.{ExecutionsFit, IsFit, IsInside, LeavesDesk};
ghost use Rattle.stretch_worlds.specs.Turns.{IsCovered, held_beside, known, task_bench};
ghost use Rattle.event_worlds.specs.topology_plan.Topology.{Topology, tasks_in_all};
ghost use Rattle.event_worlds.specs.topology_plan.Valid.{IsValid};
ghost use Rattle.event_worlds.specs.topology_plan.Wired.{IsWired};
ghost use Rattle.event_worlds.specs.taken_records.Cuts.{Cut};
ghost use Rattle.event_worlds.specs.tuple_account.Benches.{Works};
ghost use Rattle.event_worlds.specs.tuple_account.Histories.{History, Packet, joined};
ghost use Rattle.event_worlds.specs.tuple_account.Moves.{HasDrawn, Moves, Station};

/// A law: work that moves what waits somewhere and in a world, begins no root and hears no verdict
/// leads on to any world that has what the work left in it.
pub fn stretches_lead_on()
    ensures { (t : Topology) (custom : Custom) (cut : Cut) (words : ℕ → ℕ → ℕ)
        (all after : Station) (h more : History) (k new : Known)
        → LedAt t custom cut words all h k
        → Moves t custom all more after → HasDrawn words more
        → IsInside more → IsFit t new → LeavesDesk k new
        → LedAt t custom cut words after (joined h more) new }
{}

/// A law: what one task did over boxes beside a world leads on, to the world in which the task has
/// what it is left with.
pub fn turns_of_tasks_lead_on()
    ensures { (t : Topology) (custom : Custom) (cut : Cut) (words : ℕ → ℕ → ℕ) (h more : History)
        (w : World) (counts : ℕ → ℕ) (n count : ℕ) (side : TaskSide)
        (sent taken sent_then taken_then left : (Packet → ℕ) → ℕ)
        → n < tasks_in_all t
        → LedBeside t custom cut words (held_beside sent taken left) h (known w counts)
        → Works t custom 1 (task_bench n (counts n) (task_at t n w) sent taken) more
        (task_bench n (counts n + count) side sent_then taken_then)
        → IsCovered sent taken → IsCovered sent_then taken_then
        → side.inbox ≡ (task_at t n w).inbox → side.stand.given ≡ ended (counts n + count)
        → IsOrderly t (with_task n side w) → HasDrawn words more → IsInside more
        → LedBeside t custom cut words (held_beside sent_then taken_then left) (joined h more)
        (known (with_task n side w) (drew n count counts)) }
{}

/// A law: what executions send fits the tasks and ackers that it goes to, where what they take
/// fits.
pub fn executions_fit()
    ensures { (t : Topology) (custom : Custom)
        → IsValid t → IsWired t → IsCustom custom → ExecutionsFit t custom }
{}

/// A law: where each task and each acker has nothing to do, or has something back because a box
/// that is nearer to the coordinator is full, and no verdict waits, all boxes and outboxes are
/// empty.
pub fn nothing_is_held_up()
    ensures tasks { (t : Topology) (rank : ℕ → ℕ) (held : (Packet → ℕ) → ℕ) (w : World)
        → IsHeldUp t rank held w → (n : ℕ) → n < tasks_in_all t
        → ((task_at t n w).outbox ≡ []) × (held (for_task n) ≡ 0) }
    ensures ackers { (t : Topology) (rank : ℕ → ℕ) (held : (Packet → ℕ) → ℕ) (w : World)
        → IsHeldUp t rank held w → (n : ℕ) → n < t.ackers
        → ((acker_at n w).outbox ≡ []) × (held (for_acker n) ≡ 0) }
{}
