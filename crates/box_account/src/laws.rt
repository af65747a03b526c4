ghost use Rattle.std.specs.Prelude.{ℕ, List, map};
ghost use Rattle.std.specs.List.{AllByRecursion};
ghost use Rattle.event_worlds.specs.attempt_fates.declared.fates.Attempt.{Attempt};
ghost use Rattle.event_worlds.specs.bolt_ops.RowOp.{Custom};
ghost use Rattle.box_account.specs.Hearing.{HeardBeforeFailing};
ghost use Rattle.box_account.specs.Inboxes.{GoesThrough};
ghost use Rattle.box_account.specs.Taken.{TookTrue, TookTruly};
ghost use Rattle.box_account.specs.Telling.{BoxesTell};
ghost use Rattle.box_rows.specs.declared.mail.Mail.{Mail};
ghost use Rattle.box_rows.specs.FitRows.{IsFitRow};
ghost use Rattle.box_rows.specs.Mails.{IsTrueMail};
ghost use Rattle.box_rows.specs.Rows.{ArePasses};
ghost use Rattle.event_worlds.specs.Accounted.{LedAt};
ghost use Rattle.event_worlds.specs.Added.{added, first_history};
ghost use Rattle.event_worlds.specs.Beside.{LedBeside};
ghost use Rattle.event_worlds.specs.Worlds.{Known, Step, first_world, next};
ghost use Rattle.event_worlds.specs.state_parts.declared.answer.CommitOutcome.{CommitOutcome};
ghost use Rattle.task_queues.specs.declared.pass.Mailbox.{Mailbox};
ghost use Rattle.task_queues.specs.declared.pass.Pass.{Pass};
ghost use Rattle.task_queues.specs.declared.rule.View.{View};
ghost use Rattle.task_queues.specs.Passes.{view_of};
ghost use Rattle.task_queues.specs.Rule.{Stood};
ghost use Rattle.event_worlds.specs.topology_plan.Topology.{Topology};
ghost use Rattle.event_worlds.specs.taken_records.Cuts.{Cut};
ghost use Rattle.event_worlds.specs.tuple_account.Histories.{History, Packet, joined};
ghost use Rattle.event_worlds.specs.tuple_account.Moves.{Station};

/// A law: before the commit of an attempt fails a verdict that it is complete is heard: so it is at
/// first, so it stays with whatever happens beside, and after each step, whatever waits.
pub fn complete_verdicts_are_heard()
    ensures first { (t : Topology) (cut : Cut) (words : ℕ → ℕ → ℕ)
        → HeardBeforeFailing (first_history t words) (first_world t cut words).fates }
    ensures later { (h more : History) (fates : List Attempt)
        → HeardBeforeFailing h fates → HeardBeforeFailing (joined h more) fates }
    ensures step { (t : Topology) (custom : Custom) (cut : Cut) (words : ℕ → ℕ → ℕ)
        (outcomes : List CommitOutcome) (all : Station) (s : Step) (h : History) (k : Known)
        → LedAt t custom cut words all h k → HeardBeforeFailing h k.world.fates
        → HeardBeforeFailing (joined h (added t custom cut words s k))
        (next t custom cut words outcomes s k).world.fates }
{}

/// A law: under the rule of boxes what a pass took is true of the plan and the box that it names,
/// and so of the box that it is a row's pass to; a row with all numbers knows it.
pub fn rows_took_true()
    ensures stood { (v : View Mail) (items : List Mail) → Stood IsTrueMail v items → TookTruly v }
    ensures row { (t : Topology) (boxes : List (Mailbox Mail)) (row : List (Pass Mail))
        → ArePasses t boxes row → AllByRecursion TookTruly (map view_of row)
        → TookTrue t row }
    ensures fit { (t : Topology) (boxes : List (Mailbox Mail)) (row : List (Pass Mail))
        → IsFitRow t boxes row → TookTrue t row }
{}

/// A law: where a history led to a world, all that was taken from boxes went through it, and each
/// message was taken from its own box, the taken lists tell of each end: the verdict that it comes
/// from stands in the coordinator's, each message of its list in the box of the root's acker, and
/// the tuple of each done and failure once in the boxes of its component's tasks.
pub fn boxes_tell_of_ends()
    ensures { (t : Topology) (custom : Custom) (cut : Cut) (words : ℕ → ℕ → ℕ)
        (weight : (Packet → ℕ) → ℕ) (h : History) (k : Known) (row : List (Pass Mail))
        → LedBeside t custom cut words weight h k → GoesThrough row h k.world → TookTrue t row
        → HeardBeforeFailing h k.world.fates
        → BoxesTell t custom cut row k.world.fates }
{}
