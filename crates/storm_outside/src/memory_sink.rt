ghost use Rattle.std.specs.Prelude.{◌≡◌, ◌<◌, ◌≤◌, ◌↔◌, ◌++◌, length, take, min, Some, IfOk, IsErr, OnOk, OnErr};
ghost use Rattle.storm_values.specs.Counts.{Rose, raised};
ghost use Rattle.call_log.specs.Calls.{counted, failing_at};
ghost use Rattle.storm_outside.specs.MemorySink.{empty_sink, free, WriteFails};

use crate::failed::{Failed, count_fault};
use crate::sink::Sink;
use call_log::Calls;
use std::alloc::Global;
use std::marker::Model;
use storm_values::Memory;

/// An output in memory. A write takes no more than is free, and no more than a given number of
/// bytes. One that finds no room fails.
#[derive(Debug, Drop)]
pub struct MemSink {
    taken: Vec<u8>,
    longest: usize,
    room: usize,
    writes: Calls<()>,
    faults: u64,
}

impl Model for MemSink {
    ghost use Rattle.std.specs.Prelude.{◌≤◌, vec_capacity, vec_len};
    ghost use Rattle.storm_outside.specs.MemorySink.{SinkState};

    ghost Value = { SinkState };

    ghost view = { λ s. record {
      taken = s.taken.items;
      longest = s.longest;
      room = s.room;
      writes = s.writes;
      faults = s.faults;
    } };

    ghost invariant = { λ s.
        (1 ≤ s.longest) × (s.room ≤ vec_capacity s.taken) × (vec_len s.taken ≤ s.room) };
}

impl MemSink {
    /// An empty sink. It takes the memory for the whole room.
    pub fn new(alloc: Global, longest: usize, room: usize) -> Result<Self, Memory>
        requires { 1 ≤ longest }
        ensures { IfOk result (λ sink. sink ≡ empty_sink longest room) }
    {
        Ok(MemSink {
            taken: Vec::with_capacity(alloc, room)?,
            longest,
            room,
            writes: Calls::new(alloc),
            faults: 0,
        })
    }

    /// Lets the write of this number fail, the first being number 1.
    pub fn fail_write(&mut self, number: u64) -> Result<(), Memory>
        ensures ok { OnOk result (self.new ≡ record self.old {
          writes = failing_at self.old.writes number;
        }) }
        ensures err { OnErr result (self.new ≡ self.old) }
    {
        self.writes.fail(number, ())
    }

    /// The bytes taken.
    pub fn bytes(&self) -> &[u8]
        ensures value { result.now ≡ self.now.taken }
        ensures told { ⟦<MemSink as Sink>⟧.taken self.now ≡ Some result.now }
    {
        self.taken.as_slice()
    }

    /// How often a write has failed. The count ends at 2^64 - 1.
    pub fn faults(&self) -> u64
        ensures value { result ≡ self.now.faults }
        ensures told { ⟦<MemSink as Sink>⟧.faults self.now ≡ result }
    {
        self.faults
    }
}

impl Sink for MemSink {
    ghost taken = { λ s. Some s.taken };

    ghost faults = { λ s. s.faults };

    fn write(&mut self, bytes: &[u8]) -> Result<usize, Failed>
        requires some { 0 < length bytes.now }
        ensures fails { IsErr result ↔ WriteFails self.old }
        ensures least { IfOk result (λ k. 0 < k) }
        ensures count { IfOk result (λ k.
            k ≡ min (length bytes.now) (min self.old.longest (free self.old))) }
        ensures took { IfOk result (λ k. self.new ≡ record self.old {
          taken = self.old.taken ++ take k bytes.now;
          writes = counted self.old.writes;
        }) }
        ensures refused { OnErr result (self.new ≡ record self.old {
          writes = counted self.old.writes;
          faults = raised self.old.faults;
        }) }
        ensures failed { OnErr result (Rose self.old.faults self.new.faults) }
        ensures never_falls { self.old.faults ≤ self.new.faults }
    {
        let fails = self.writes.count();
        let free = self.room - self.taken.len();
        if fails || free == 0 {
            return Err(count_fault(&mut self.faults));
        }
        let count = bytes.len().min(self.longest.min(free));
        self.taken.extend_from_slice(&bytes[..count]).unwrap();
        Ok(count)
    }
}
