ghost use Rattle.std.specs.Prelude.{◌≡◌, ℕ, ◌<◌, ◌≤◌, ◌++◌, List, length, take, Option, Some, IfOk, OnOk, OnErr, IfSome, IsNone};
ghost use Rattle.storm_values.specs.Counts.{Rose};
ghost use Rattle.storm_outside.specs.Pieces.{HasTaken};

use crate::failed::Failed;

/// An output.
pub trait Sink {
    /// The bytes that were taken, where the sink tells them.
    ghost taken: { Self → Option (List ℕ) };

    /// How often the outside has failed. The count ends at 2^64 - 1.
    ghost faults: { Self → ℕ };

    /// Takes some of the bytes, from the first on, and answers how many.
    fn write(&mut self, bytes: &[u8]) -> Result<usize, Failed>
        requires some { 0 < length bytes.now }
        ensures least { IfOk result (λ k. 0 < k) }
        ensures count { IfOk result (λ k. k ≤ length bytes.now) }
        ensures took { IfOk result (λ k. IfSome (taken self.old) (λ before.
            taken self.new ≡ Some (before ++ take k bytes.now))) }
        ensures untold { IsNone (taken self.old) → IsNone (taken self.new) }
        ensures failed { OnErr result (Rose (faults self.old) (faults self.new)) }
        ensures failed_taken { OnErr result (taken self.new ≡ taken self.old) }
        ensures never_falls { faults self.old ≤ faults self.new };
}

/// Writes all the bytes, in order.
pub fn write_all<K: Sink>(sink: &mut K, bytes: &[u8]) -> Result<(), Failed>
    ensures ok { OnOk result (IfSome (K.taken sink.old) (λ before.
        K.taken sink.new ≡ Some (before ++ bytes.now))) }
    ensures prefix { OnErr result (IfSome (K.taken sink.old) (λ before.
        HasTaken before bytes.now (K.taken sink.new))) }
    ensures untold { IsNone (K.taken sink.old) → IsNone (K.taken sink.new) }
    ensures failed { OnErr result (Rose (K.faults sink.old) (K.faults sink.new)) }
    ensures never_falls { K.faults sink.old ≤ K.faults sink.new }
{
    let mut at = 0;
    while at < bytes.len() {
        let count = sink.write(&bytes[at..])?;
        at += count;
    }
    Ok(())
}
