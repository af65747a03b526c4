// One read of a source and one write to an output, with the faults counted.
ghost use Rattle.std.specs.Prelude.{◌≡◌, ◌<◌, ◌≤◌, length, IfOk, OnOk, OnErr};
ghost use Rattle.std.specs.Io.KnownBytes.{ReadConsumes, WriteAppends};
ghost use Rattle.storm_values.specs.Counts.{Rose, raised};

use crate::failed::{Failed, count_fault};
use std::io::{Read, Write};

/// Reads the first bytes of what is left of a source into the front of the buffer, and answers
/// how many. 0 is the end.
pub fn read_piece<S: Read>(
    source: &mut S,
    buf: &mut [u8],
    faults: &mut u64,
) -> Result<usize, Failed>
    ensures count { IfOk result (λ k. k ≤ length buf.old) }
    ensures bytes { ReadConsumes (S.remaining source.old) (S.remaining source.new) result buf.new }
    ensures kept { OnOk result (faults.new ≡ faults.old) }
    ensures failed { OnErr result (faults.new ≡ raised faults.old) }
    ensures rose { OnErr result (Rose faults.old faults.new) }
    ensures never_falls { faults.old ≤ faults.new }
{
    match source.read(buf) {
        Ok(count) => Ok(count),
        Err(_) => Err(count_fault(faults)),
    }
}

/// Writes the first of some bytes, and answers how many.
pub fn write_piece<W: Write>(out: &mut W, bytes: &[u8], faults: &mut u64) -> Result<usize, Failed>
    ensures least { IfOk result (λ k. 0 < k) }
    ensures count { IfOk result (λ k. k ≤ length bytes.now) }
    ensures bytes { WriteAppends (W.contents out.old) (W.contents out.new) result bytes.now }
    ensures kept { OnOk result (faults.new ≡ faults.old) }
    ensures failed { OnErr result (faults.new ≡ raised faults.old) }
    ensures rose { OnErr result (Rose faults.old faults.new) }
    ensures never_falls { faults.old ≤ faults.new }
{
    match out.write(bytes) {
        Ok(count) if count > 0 => Ok(count),
        _ => Err(count_fault(faults)),
    }
}
