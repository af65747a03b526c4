ghost use Rattle.std.specs.Prelude.{◌≡◌, ◌≤◌, ◌-◌, ◌^◌, ◌↔◌, ◌++◌, length, take, IsErr, IfOk, OnOk, OnErr, IsErrOf};
ghost use Rattle.std.proofs.Common.{sym, ◌∙◌};
ghost use Rattle.std.proofs.Math.Nat.{min-le_right};
ghost use Rattle.storm_values.specs.Counts.{raised};
ghost use Rattle.call_log.specs.Calls.{counted, failing_at, NextFails};
ghost use Rattle.storm_stores.specs.MemoryStore.{ended};
ghost use Rattle.part_files.specs.MemoryLog.{AppendFails, added, appended, cut_at, log_of};

use crate::log::Log;
use call_log::Calls;
use std::alloc::Global;
use std::marker::Model;
use storm_outside::{Failed, InFault};
use storm_values::{Bytes, Memory};

/// A log in memory, which has room for so many bytes in all. An append for which there is no room
/// adds as many bytes as there is room for, and fails.
#[derive(Debug, Drop)]
pub struct MemLog {
    bytes: Vec<u8>,
    room: usize,
    reads: Calls<()>,
    /// Of each append that is cut short, the most bytes that it adds.
    appends: Calls<usize>,
    faults: u64,
}

impl Model for MemLog {
    ghost use Rattle.std.specs.Prelude.{◌≤◌, vec_capacity, vec_len};
    ghost use Rattle.part_files.specs.MemoryLog.{LogState};

    ghost Value = { LogState };

    ghost view = { λ s. record {
      bytes = s.bytes.items;
      room = s.room;
      reads = s.reads;
      appends = s.appends;
      faults = s.faults;
    } };

    ghost invariant = { λ s. (s.room ≤ vec_capacity s.bytes) × (vec_len s.bytes ≤ s.room) };
}

/// Counts a fault, up to 2^64 - 1.
pub(crate) fn count_fault(faults: &mut u64) -> Failed
    ensures raised { faults.new ≡ raised faults.old }
    ensures ended { ended faults.new ≡ raised (ended faults.old) }
    ensures never_falls { ended faults.old ≤ ended faults.new }
{
    *faults = faults.saturating_add(1);
    Failed
}

impl MemLog {
    /// A log with these bytes, whose calls do not fail while there is room. It takes the memory for
    /// the whole room.
    pub fn new(alloc: Global, bytes: &[u8], room: usize) -> Result<Self, Memory>
        requires { length bytes.now ≤ room }
        ensures state { IfOk result (λ log. log ≡ log_of bytes.now room) }
        ensures held { IfOk result (λ log. ⟦<MemLog as Log>⟧.holds log bytes.now) }
    {
        let mut held = Vec::with_capacity(alloc, room)?;
        held.extend_from_slice(bytes)?;
        Ok(MemLog {
            bytes: held,
            room,
            reads: Calls::new(alloc),
            appends: Calls::new(alloc),
            faults: 0,
        })
    }

    /// Lets the read of this number fail, the first being number 1.
    pub fn fail_read(&mut self, number: u64) -> Result<(), Memory>
        ensures ok { OnOk result (self.new ≡ record self.old {
          reads = failing_at self.old.reads number;
        }) }
        ensures err { OnErr result (self.new ≡ self.old) }
    {
        self.reads.fail(number, ())
    }

    /// Lets the append of this number fail, the first being number 1, after it added so many bytes,
    /// or all of its own where they are fewer.
    pub fn cut_append(&mut self, number: u64, count: usize) -> Result<(), Memory>
        ensures ok { OnOk result (self.new ≡ record self.old {
          appends = cut_at self.old.appends (record { number = number; count = count });
        }) }
        ensures err { OnErr result (self.new ≡ self.old) }
    {
        self.appends.fail(number, count)
    }

    pub fn bytes(&self) -> &[u8]
        ensures value { result.now ≡ self.now.bytes }
        ensures told { ⟦<MemLog as Log>⟧.holds self.now result.now }
    {
        self.bytes.as_slice()
    }
}

impl Log for MemLog {
    ghost holds = { λ s bytes. bytes ≡ s.bytes };

    ghost fault_count = { λ s. ended s.faults };

    ghost one_content = { λ s a b is_a is_b. is_a ∙ sym is_b };

    ghost count_ends = { λ s. min-le_right s.faults (2 ^ 64 - 1) };

    fn read(&mut self, alloc: Global) -> Result<Bytes, InFault>
        ensures fails { IsErrOf result InFault.Failed ↔ NextFails self.old.reads }
        ensures bytes { IfOk result (λ bytes. bytes ≡ self.old.bytes) }
        ensures state { (IsErrOf result InFault.Failed → ⊥) → self.new ≡ record self.old {
          reads = counted self.old.reads;
        } }
        ensures refused { IsErrOf result InFault.Failed → self.new ≡ record self.old {
          reads = counted self.old.reads;
          faults = raised self.old.faults;
        } }
        ensures failed { IsErrOf result InFault.Failed →
            ended self.new.faults ≡ raised (ended self.old.faults) }
        ensures never_falls { ended self.old.faults ≤ ended self.new.faults }
    {
        if self.reads.count() {
            return Err(InFault::from(count_fault(&mut self.faults)));
        }
        Ok(Bytes::from_slice(alloc, self.bytes.as_slice())?)
    }

    fn append(&mut self, bytes: &[u8]) -> Result<(), Failed>
        ensures fails { IsErr result ↔ AppendFails self.old bytes.now }
        ensures done { OnOk result (self.new ≡ record self.old {
          bytes = self.old.bytes ++ bytes.now;
          appends = appended self.old.appends;
        }) }
        ensures cut { OnErr result (self.new ≡ record self.old {
          bytes = self.old.bytes ++ take (added self.old bytes.now) bytes.now;
          appends = appended self.old.appends;
          faults = raised self.old.faults;
        }) }
        ensures failed { OnErr result
            (ended self.new.faults ≡ raised (ended self.old.faults)) }
        ensures never_falls { ended self.old.faults ≤ ended self.new.faults }
    {
        let cut = self.appends.next();
        let fits = bytes.len().min(self.room - self.bytes.len());
        let count = cut.unwrap_or(bytes.len()).min(fits);
        self.bytes.extend_from_slice(&bytes[..count]).unwrap();
        if cut.is_some() || fits < bytes.len() {
            return Err(count_fault(&mut self.faults));
        }
        Ok(())
    }

    fn faults(&self) -> u64 {
        self.faults
    }
}
