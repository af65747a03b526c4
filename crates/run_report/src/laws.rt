ghost use Rattle.std.specs.Prelude.{◌≡◌, List};
ghost use Rattle.tree_model.specs.topology_plan.Topology.{Topology};
ghost use Rattle.attempt_fates.specs.declared.fates.Attempt.{Attempt};
ghost use Rattle.run_report.specs.Fated.{AreLinesOf};
ghost use Rattle.report_grammar.specs.Report.{AttemptText};

/// A law: fates have one list of lines.
pub fn lines_are_one()
    ensures { (plan : Topology) (fates : List Attempt) (lines others : List AttemptText)
        → AreLinesOf plan fates lines → AreLinesOf plan fates others → lines ≡ others }
{}
