ghost use Rattle.std.specs.Prelude.{◌≡◌, ◌≤◌, ◌-◌, ◌^◌, ◌⊎◌, ℕ, Some, IfOk, OnOk, IsErrOf};
ghost use Rattle.storm_values.specs.Counts.{raised};
ghost use Rattle.resume_meta.specs.Keepers.{Held};

use storm_stores::StoreFault;
use storm_values::Bytes;

/// Keeps some bytes, or nothing yet, and may refuse a call. A keeper that tells nothing goes on to
/// tell nothing.
pub trait Keeper {
    /// The keeper tells that it holds this.
    ghost holds: { Self → Held → Type 0 };

    /// How often the keeper has failed. The count ends at 2^64 - 1.
    ghost fault_count: { Self → ℕ };

    /// The bytes that are kept.
    fn load(&mut self) -> Result<Option<Bytes>, StoreFault>
        ensures kept { IfOk result (λ kept. (held : Held) → holds self.old held → kept ≡ held) }
        ensures same { (held : Held) → holds self.old held → holds self.new held }
        ensures told_before { (held : Held) → holds self.new held → holds self.old held }
        ensures failed { IsErrOf result StoreFault.Failed →
            fault_count self.new ≡ raised (fault_count self.old) }
        ensures quiet { (IsErrOf result StoreFault.Failed → ⊥) →
            fault_count self.new ≡ fault_count self.old }
        ensures never_falls { fault_count self.old ≤ fault_count self.new };

    /// Keeps these bytes in the place of what was kept. Where the call fails, that is kept still,
    /// or these bytes.
    fn save(&mut self, bytes: &[u8]) -> Result<(), StoreFault>
        ensures done { OnOk result ((held : Held) →
            holds self.old held → holds self.new (Some bytes.now)) }
        ensures perhaps_done { IsErrOf result StoreFault.Failed → (held : Held) →
            holds self.old held → holds self.new held ⊎ holds self.new (Some bytes.now) }
        ensures not_done { IsErrOf result StoreFault.Memory → (held : Held) →
            holds self.old held → holds self.new held }
        ensures told_before { (held : Held) →
            holds self.new held → (before : Held) × holds self.old before }
        ensures failed { IsErrOf result StoreFault.Failed →
            fault_count self.new ≡ raised (fault_count self.old) }
        ensures quiet { (IsErrOf result StoreFault.Failed → ⊥) →
            fault_count self.new ≡ fault_count self.old }
        ensures never_falls { fault_count self.old ≤ fault_count self.new };

    /// A keeper tells one content.
    ghost one_content: { (s : Self) (a b : Held) → holds s a → holds s b → a ≡ b };

    /// The count ends at 2^64 - 1.
    ghost count_ends: { (s : Self) → fault_count s ≤ 2 ^ 64 - 1 };
}
