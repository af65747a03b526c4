ghost use Rattle.std.specs.Prelude.{◌≡◌, Some, IfOk};

use resume_meta::Meta;
use std::io;
use storm_values::Memory;

// Why a test fails.
#[derive(Debug, Drop)]
pub enum Trouble {
    // The case or step of this number, from 0, has another answer.
    Case(usize),
    // Of a text the byte at this place, counted from 0, was changed to this one and accepted.
    Byte(usize, u8),
    // A text was not read, or a file has other bytes.
    Text,
    // A keeper counts so many faults.
    Faults(u64),
    // The system refused a call.
    Refused,
    Memory,
}

impl From<Memory> for Trouble {
    fn from(_: Memory) -> Self {
        Trouble::Memory
    }
}

impl From<io::Error> for Trouble {
    fn from(_: io::Error) -> Self {
        Trouble::Refused
    }
}

// What was read, if something was.
pub fn some_meta(read: Option<Meta>) -> Result<Meta, Trouble>
    ensures { IfOk result (λ meta. read ≡ Some meta) }
{
    match read {
        Some(meta) => Ok(meta),
        None => Err(Trouble::Text),
    }
}
