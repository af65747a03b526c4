ghost use Rattle.std.specs.Prelude.{◌≡◌};
ghost use Rattle.report_grammar.specs.Report.{ReportText, report_text};
ghost use Rattle.report_grammar.specs.WellFormed.{IsWellFormed};

/// A law: no text has two reports.
pub fn reports_have_texts_of_their_own()
    ensures { (report other : ReportText) → IsWellFormed report → IsWellFormed other
        → report_text report ≡ report_text other → report ≡ other }
{}
