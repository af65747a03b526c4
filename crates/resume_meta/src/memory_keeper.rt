ghost use Rattle.std.specs.Prelude.{◌≡◌, ◌≤◌, ◌-◌, ◌^◌, ◌↔◌, ◌⊎◌, None, Some, IfOk, IsSome, OnOk, OnErr, IsErrOf, option_map};
ghost use Rattle.std.proofs.Common.{sym, ◌∙◌};
ghost use Rattle.std.proofs.Math.Nat.{min-le_right};
ghost use Rattle.storm_values.specs.Counts.{raised};
ghost use Rattle.call_log.specs.Calls.{NextFails, counted, failing_as, failing_at, next_fate};
ghost use Rattle.storm_stores.specs.MemoryStore.{ended};
ghost use Rattle.resume_meta.specs.Keepers.{Held};
ghost use Rattle.resume_meta.specs.MemoryKeeper.{held_after, keeper_of};

use crate::keeper::Keeper;
use call_log::Calls;
use std::alloc::Global;
use std::marker::Model;
use storm_stores::StoreFault;
use storm_values::{Bytes, Memory};

/// Bytes in memory.
#[derive(Debug, Drop)]
pub struct MemKeeper {
    held: Option<Bytes>,
    loads: Calls<()>,
    /// Of each save that fails, whether it happens all the same.
    saves: Calls<bool>,
    faults: u64,
    alloc: Global,
}

impl Model for MemKeeper {
    ghost use Rattle.resume_meta.specs.MemoryKeeper.{KeeperState};

    ghost Value = { KeeperState };

    ghost view = { λ s. record {
      held = s.held;
      loads = s.loads;
      saves = s.saves;
      faults = s.faults;
    } };
}

/// Counts a fault, up to 2^64 - 1.
pub(crate) fn count_fault(faults: &mut u64) -> StoreFault
    ensures raised { faults.new ≡ raised faults.old }
    ensures ended { ended faults.new ≡ raised (ended faults.old) }
    ensures never_falls { ended faults.old ≤ ended faults.new }
    ensures fault { result ≡ StoreFault.Failed }
{
    *faults = faults.saturating_add(1);
    StoreFault::Failed
}

impl MemKeeper {
    /// A keeper of these bytes, or of nothing, whose calls do not fail.
    pub fn new(alloc: Global, held: Option<Bytes>) -> Self
        ensures state { result ≡ keeper_of held }
        ensures told { ⟦<MemKeeper as Keeper>⟧.holds result held }
    {
        MemKeeper {
            held,
            loads: Calls::new(alloc),
            saves: Calls::new(alloc),
            faults: 0,
            alloc,
        }
    }

    /// Lets the load of this number fail, the first being number 1.
    pub fn fail_load(&mut self, number: u64) -> Result<(), Memory>
        ensures ok { OnOk result (self.new ≡ record self.old {
          loads = failing_at self.old.loads number;
        }) }
        ensures err { OnErr result (self.new ≡ self.old) }
    {
        self.loads.fail(number, ())
    }

    /// Lets the save of this number fail, the first being number 1, whether it happens all the same
    /// or not.
    pub fn fail_save(&mut self, number: u64, happened: bool) -> Result<(), Memory>
        ensures ok { OnOk result (self.new ≡ record self.old {
          saves = failing_as self.old.saves number happened;
        }) }
        ensures err { OnErr result (self.new ≡ self.old) }
    {
        self.saves.fail(number, happened)
    }

    /// What is held.
    pub fn held(&self) -> Option<&[u8]>
        ensures value { option_map (λ bytes. bytes.now) result ≡ self.now.held }
        ensures told { ⟦<MemKeeper as Keeper>⟧.holds self.now
            (option_map (λ bytes. bytes.now) result) }
    {
        match &self.held {
            Some(bytes) => Some(bytes.as_slice()),
            None => None,
        }
    }

    /// How often a call has failed. The count ends at 2^64 - 1.
    pub fn faults(&self) -> u64
        ensures { result ≡ ⟦<MemKeeper as Keeper>⟧.fault_count self.now }
    {
        self.faults
    }
}

impl Keeper for MemKeeper {
    ghost holds = { λ s held. held ≡ s.held };

    ghost fault_count = { λ s. ended s.faults };

    ghost one_content = { λ s a b is_a is_b. is_a ∙ sym is_b };

    ghost count_ends = { λ s. min-le_right s.faults (2 ^ 64 - 1) };

    fn load(&mut self) -> Result<Option<Bytes>, StoreFault>
        ensures fails { IsErrOf result StoreFault.Failed ↔ NextFails self.old.loads }
        ensures kept { IfOk result (λ kept. kept ≡ self.old.held) }
        ensures state { (IsErrOf result StoreFault.Failed → ⊥) → self.new ≡ record self.old {
          loads = counted self.old.loads;
        } }
        ensures refused { IsErrOf result StoreFault.Failed → self.new ≡ record self.old {
          loads = counted self.old.loads;
          faults = raised self.old.faults;
        } }
        ensures failed { IsErrOf result StoreFault.Failed →
            ended self.new.faults ≡ raised (ended self.old.faults) }
        ensures never_falls { ended self.old.faults ≤ ended self.new.faults }
    {
        if self.loads.count() {
            return Err(count_fault(&mut self.faults));
        }
        match &self.held {
            Some(bytes) => Ok(Some(bytes.copy()?)),
            None => Ok(None),
        }
    }

    fn save(&mut self, bytes: &[u8]) -> Result<(), StoreFault>
        ensures fails { IsErrOf result StoreFault.Failed → IsSome (next_fate self.old.saves) }
        ensures does_not_fail { OnOk result (next_fate self.old.saves ≡ None) }
        ensures done { OnOk result (self.new ≡ record self.old {
          held = Some bytes.now;
          saves = counted self.old.saves;
        }) }
        ensures refused { IsErrOf result StoreFault.Failed → self.new ≡ record self.old {
          held = held_after (next_fate self.old.saves) self.old.held bytes.now;
          saves = counted self.old.saves;
          faults = raised self.old.faults;
        } }
        ensures no_memory { IsErrOf result StoreFault.Memory → self.new ≡ record self.old {
          saves = counted self.old.saves;
        } }
        ensures perhaps_done { IsErrOf result StoreFault.Failed → (held : Held) →
            held ≡ self.old.held → (held ≡ self.new.held) ⊎ (Some bytes.now ≡ self.new.held) }
        ensures failed { IsErrOf result StoreFault.Failed →
            ended self.new.faults ≡ raised (ended self.old.faults) }
        ensures never_falls { ended self.old.faults ≤ ended self.new.faults }
    {
        match self.saves.next() {
            None => {
                self.held = Some(Bytes::from_slice(self.alloc, bytes)?);
                Ok(())
            }
            Some(happened) => {
                if happened {
                    self.held = Some(Bytes::from_slice(self.alloc, bytes)?);
                }
                Err(count_fault(&mut self.faults))
            }
        }
    }
}
