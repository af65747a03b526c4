ghost use Rattle.std.specs.Prelude.{Some};
ghost use Rattle.report_lines.specs.Faults.{report_fault_text};

use std::error::Error;
use std::fmt;
use storm_values::Memory;

/// Why a text is no report. Lines are counted from 1.
#[derive(Debug, PartialEq, Eq, Drop)]
pub enum ReportFault {
    /// The first line that is not of a report. Where a line is missing it is the one behind the
    /// last.
    Line(u64),
    Memory,
}

impl fmt::Display for ReportFault {
    ghost output = { λ fault. Some (report_fault_text fault) };

    fn fmt<W: fmt::Write>(&self, f: &mut fmt::Formatter<W>) -> fmt::Result {
        match self {
            ReportFault::Line(number) => write!(f, "line {number}: not a line of a report"),
            ReportFault::Memory => write!(f, "out of memory"),
        }
    }
}

impl Error for ReportFault {}

impl From<Memory> for ReportFault {
    ghost use Rattle.std.specs.Prelude.{◌≡◌};
    ghost use Rattle.report_lines.specs.declared.fault.ReportFault.TheVariants as fault;

    ghost from_gives = { λ _ made. made ≡ fault.Memory };

    fn from(_: Memory) -> ReportFault {
        ReportFault::Memory
    }
}
