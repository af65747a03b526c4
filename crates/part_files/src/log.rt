ghost use Rattle.std.specs.Prelude.{◌≡◌, ◌≤◌, ◌-◌, ◌^◌, ◌++◌, ℕ, List, IfOk, OnOk, OnErr, IsErrOf};
ghost use Rattle.storm_values.specs.Counts.{raised};
ghost use Rattle.part_files.specs.Logs.{HoldsFirst};

use std::alloc::Global;
use storm_outside::{Failed, InFault};
use storm_values::Bytes;

/// Bytes to which more are appended, and which are not changed otherwise. A log that tells no bytes
/// goes on to tell none.
pub trait Log: Drop {
    /// The log tells that it holds these bytes.
    ghost holds: { Self → List ℕ → Type 0 };

    /// How often the log has failed. The count ends at 2^64 - 1.
    ghost fault_count: { Self → ℕ };

    /// All its bytes, from the first on.
    fn read(&mut self, alloc: Global) -> Result<Bytes, InFault>
        ensures bytes { IfOk result (λ bytes. (held : List ℕ) →
            holds self.old held → bytes ≡ held) }
        ensures same { (held : List ℕ) → holds self.old held → holds self.new held }
        ensures told_before { (held : List ℕ) → holds self.new held → holds self.old held }
        ensures failed { IsErrOf result InFault.Failed →
            fault_count self.new ≡ raised (fault_count self.old) }
        ensures quiet { (IsErrOf result InFault.Failed → ⊥) →
            fault_count self.new ≡ fault_count self.old }
        ensures never_falls { fault_count self.old ≤ fault_count self.new };

    /// Adds bytes at the end, which takes no memory. Where it fails, some of the first of them were
    /// added: none of them or all of them also.
    fn append(&mut self, bytes: &[u8]) -> Result<(), Failed>
        ensures done { OnOk result ((held : List ℕ) →
            holds self.old held → holds self.new (held ++ bytes.now)) }
        ensures cut { OnErr result ((held : List ℕ) →
            holds self.old held → HoldsFirst (holds self.new) held bytes.now) }
        ensures told_before { (held : List ℕ) → holds self.new held →
            (before : List ℕ) × holds self.old before }
        ensures failed { OnErr result (fault_count self.new ≡ raised (fault_count self.old)) }
        ensures quiet { OnOk result (fault_count self.new ≡ fault_count self.old) }
        ensures never_falls { fault_count self.old ≤ fault_count self.new };

    /// How often the log has failed. It takes no memory.
    fn faults(&self) -> u64
        ensures { result ≡ fault_count self.now };

    /// A log tells one content.
    ghost one_content: { (s : Self) (a b : List ℕ) → holds s a → holds s b → a ≡ b };

    /// The count ends at 2^64 - 1.
    ghost count_ends: { (s : Self) → fault_count s ≤ 2 ^ 64 - 1 };
}
