ghost use Rattle.std.specs.Prelude.{◌≡◌, ◌≤◌, IfOk, IfErr, string_bytes};
ghost use Rattle.storm_answers.specs.Outside.{sink_use};
ghost use Rattle.storm_answers.specs.steps.Stops.{IsWritten, IsStopWritten};

use crate::early_end::EarlyEnd;
use crate::status::Status;
use storm_outside::{Sink, write_all};

/// Writes what a command came to: the text of its own work, or why it stopped.
/// Answers how it ended then.
pub fn write_answer<K: Sink>(came: Result<String, EarlyEnd>, out: &mut K) -> Status
    ensures done { IfOk came (λ text. IsWritten Status.Done (string_bytes text)
        (sink_use K.taken K.faults out.old out.new) result) }
    ensures stop { IfErr came (λ stop. IsStopWritten stop
        (sink_use K.taken K.faults out.old out.new) result) }
    ensures never_falls { K.faults out.old ≤ K.faults out.new }
{
    match came {
        Ok(text) => write_text(Status::Done, text.as_bytes(), out),
        Err(EarlyEnd::Told(status, line)) => write_text(status, line.as_bytes(), out),
        Err(EarlyEnd::Memory) => Status::Memory,
    }
}

/// Writes the text of a command that ended with a status, and answers how it ended then.
pub fn write_text<K: Sink>(status: Status, text: &[u8], out: &mut K) -> Status
    ensures written { IsWritten status text.now (sink_use K.taken K.faults out.old out.new) result }
    ensures never_falls { K.faults out.old ≤ K.faults out.new }
{
    match write_all(out, text) {
        Ok(()) => status,
        Err(_) => Status::WriteFault,
    }
}
