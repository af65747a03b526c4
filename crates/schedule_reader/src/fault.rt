ghost use Rattle.std.specs.Prelude.{Some};
ghost use Rattle.schedule_reader.specs.Faults.{schedule_fault_text};

use crate::limits::MOST_SCHEDULE_BYTES;
use std::error::Error;
use std::fmt;
use storm_values::Memory;

/// Why a schedule is refused. Lines are counted from 1.
#[derive(Debug, PartialEq, Eq, Drop)]
pub enum ScheduleFault {
    TooLong,
    /// The line is no step.
    Line(u64),
    /// The line names a task, an acker or a partition that is not there.
    NoTask(u64),
    Memory,
}

impl fmt::Display for ScheduleFault {
    ghost output = { λ fault. Some (schedule_fault_text fault) };

    fn fmt<W: fmt::Write>(&self, f: &mut fmt::Formatter<W>) -> fmt::Result {
        match self {
            ScheduleFault::TooLong => write!(f, "longer than {MOST_SCHEDULE_BYTES} bytes"),
            ScheduleFault::Line(number) => write!(f, "line {number}: not a step"),
            ScheduleFault::NoTask(number) => write!(f, "line {number}: no such number"),
            ScheduleFault::Memory => write!(f, "out of memory"),
        }
    }
}

impl Error for ScheduleFault {}

impl From<Memory> for ScheduleFault {
    ghost use Rattle.std.specs.Prelude.{◌≡◌};
    ghost use Rattle.schedule_reader.specs.declared.fault.ScheduleFault.TheVariants as fault;

    ghost from_gives = { λ _ made. made ≡ fault.Memory };

    fn from(_: Memory) -> ScheduleFault {
        ScheduleFault::Memory
    }
}
