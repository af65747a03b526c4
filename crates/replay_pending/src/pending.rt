ghost use Rattle.std.specs.Prelude.{◌≡◌, ◌≢◌, ◌≤◌, ◌<◌, ◌+◌, ◌-◌, ◌^◌, ◌↔◌, ◌∷◌, ◌++◌, [], None, Some, false, not, is_some, length, filter, option_copied, count_by, IsTrue, IfOk, IfErr, OnOk, OnErr, OnSome};
ghost use Rattle.replay_pending.specs.Faults.{IsCauseOf};
ghost use Rattle.replay_pending.specs.InFlight.{AreCounted, AreDistinct, IsNext, aborted, begun, counted, due, ended, entry_of, has_txid, is_above, is_of_txid, none_in_flight, settled, settled_after, ticked, timed_of, tried, txids_of, with_begun};
ghost use Rattle.replay_pending.specs.declared.entry.Entry.{Entry};

use crate::attempts::{Tried, Tries};
use crate::entry::Entry;
use crate::fault::BeginFault;
use crate::places;
use record_spans::Spans;
use std::alloc::Global;
use std::marker::Model;
use storm_values::{Memory, Root};

/// The attempts in flight: at most so many are pending, in the order of their begins. An attempt is
/// timed until it is settled. A timed one ends at the tick that has the number of buckets since its
/// begin. A call takes time in proportion to the attempts that are pending, of which there are at
/// most 64; a tick does so for each attempt that it ends.
#[derive(Drop)]
pub struct Pending<L> {
    cap: u32,
    buckets: u32,
    tick: u64,
    // in the order of their begins
    entries: Vec<Entry<L>>,
    tries: Tries,
}

impl<L> Model for Pending<L> {
    ghost use Rattle.replay_pending.specs.InFlight.{InFlight, in_flight_code};

    ghost Value = { InFlight L };

    ghost coded = { in_flight_code L.code };

    ghost use Rattle.replay_pending.specs.InFlight.{AreKept};

    ghost view = { λ p. record {
      cap = p.cap;
      buckets = p.buckets;
      tick = p.tick;
      pending = p.entries.items;
      tries = p.tries;
    } };

    ghost invariant = { λ p. AreKept p.cap p.tries p.entries.items };
}

impl<L: Drop> Pending<L> {
    /// Nothing is pending, at tick 0. The most that may be is `cap`. It takes no memory.
    pub fn new(alloc: Global, cap: u32, buckets: u32) -> Self
        requires least { 1 ≤ cap }
        requires most { cap ≤ 64 }
        requires least_buckets { 2 ≤ buckets }
        requires most_buckets { buckets ≤ 16 }
        ensures { result ≡ none_in_flight cap buckets }
    {
        Pending {
            cap,
            buckets,
            tick: 0,
            entries: Vec::new(alloc),
            tries: Tries::new(alloc),
        }
    }

    /// An attempt begins with its records, timed from this tick on. Where as many are pending as
    /// may be, or without memory, all stays, and the spans are dropped.
    pub fn begin(&mut self, root: Root, spans: Spans) -> Result<(), BeginFault>
        requires { IsNext root self.old }
        ensures ok { OnOk result (self.new ≡ begun root spans self.old) }
        ensures room { OnOk result (length self.old.pending < self.old.cap) }
        ensures cause { IfErr result (IsCauseOf self.old) }
        ensures err { OnErr result (self.new ≡ self.old) }
    {
        if self.entries.len() >= self.cap as usize {
            return Err(BeginFault::AtCap(self.cap));
        }
        let entry = Entry {
            root,
            spans,
            start: self.tick,
            settled: None,
        };
        match add_entry(&mut self.entries, &mut self.tries, entry) {
            Ok(()) => Ok(()),
            Err(_) => Err(BeginFault::Memory),
        }
    }

    /// A timed attempt is settled with a list: it stays pending and is no longer timed. It answers
    /// whether the attempt was timed, else the list is dropped. It takes no memory.
    pub fn settle(&mut self, root: Root, list: L) -> bool
        ensures timed { result ≡ is_some (timed_of root self.old.pending) }
        ensures settled { IsTrue result
            → self.new ≡ record self.old { pending = settled root list self.old.pending } }
        ensures same { result ≡ false → self.new ≡ self.old }
    {
        match places::timed_place(&self.entries, root) {
            Some(place) => {
                self.entries[place].settled = Some(list);
                true
            }
            None => false,
        }
    }

    /// An attempt is no longer pending, and is moved out, where it was. It is not counted as
    /// aborted. It takes no memory.
    pub fn end(&mut self, root: Root) -> Option<Entry<L>>
        ensures entry { result ≡ entry_of root self.old.pending }
        ensures ended { self.new ≡ record self.old { pending = ended root self.old.pending } }
        ensures same { result ≡ None → self.new ≡ self.old }
    {
        places::take(&mut self.entries, root)
    }

    /// An attempt aborts: it is no longer pending, and is moved out and counted as aborted, where
    /// it was. It takes no memory.
    pub fn abort(&mut self, root: Root) -> Option<Entry<L>>
        ensures entry { result ≡ entry_of root self.old.pending }
        ensures aborted { OnSome result (self.new ≡ aborted root self.old) }
        ensures same { result ≡ None → self.new ≡ self.old }
    {
        match places::take(&mut self.entries, root) {
            Some(entry) => {
                self.tries.abort(root.txid);
                Some(entry)
            }
            None => None,
        }
    }

    /// The first pending attempt whose transaction is above this one is moved out, settled or not.
    /// It is not counted as aborted. It takes no memory.
    pub fn end_above(&mut self, txid: u64) -> Option<Entry<L>>
        ensures first { (e : Entry L) → result ≡ Some e → filter (is_above txid) self.old.pending
            ≡ e ∷ filter (is_above txid) self.new.pending }
        ensures others { filter (λ (e : Entry L). not (is_above txid e)) self.new.pending
            ≡ filter (λ (e : Entry L). not (is_above txid e)) self.old.pending }
        ensures none { result ≡ None → filter (is_above txid) self.old.pending ≡ [] }
        ensures same { result ≡ None → self.new ≡ self.old }
        ensures rest { self.new ≡ record self.old { pending = self.new.pending } }
    {
        match places::place_above(&self.entries, txid) {
            Some(place) => Some(self.entries.remove(place)),
            None => None,
        }
    }

    /// One tick: the timed attempts that are due end, and are moved out in the order of their
    /// begins, and counted as aborted. Without memory all stays. Where none is due it takes no
    /// memory. Ticks end at the number 2^64 - 1, at which none may be asked for.
    pub fn tick(&mut self) -> Result<Vec<Entry<L>>, Memory>
        requires { self.old.tick ≢ 2 ^ 64 - 1 }
        ensures told { IfOk result (λ told. told.items ≡ due self.old) }
        ensures ok { OnOk result (self.new ≡ ticked self.old) }
        ensures err { OnErr result (self.new ≡ self.old) }
    {
        let tick = self.tick + 1;
        let count = places::late_count(&self.entries, self.buckets, tick);
        let mut told = Vec::with_capacity(*self.entries.allocator(), count)?;
        places::move_late(&mut self.entries, &mut told, self.buckets, tick);
        count_aborted(&mut self.tries, &told);
        self.tick = tick;
        Ok(told)
    }

    /// The number of the tick.
    pub fn tick_number(&self) -> u64
        ensures { result ≡ self.now.tick }
    {
        self.tick
    }

    /// How many attempts are pending.
    pub fn len(&self) -> usize
        ensures { result ≡ length self.now.pending }
    {
        self.entries.len()
    }

    /// Whether an attempt of a transaction is pending.
    pub fn has_txid(&self, txid: u64) -> bool
        ensures { result ≡ has_txid txid self.now.pending }
    {
        places::has_txid(&self.entries, txid)
    }

    /// The timed attempt of a root.
    pub fn timed(&self, root: Root) -> Option<&Entry<L>>
        ensures { option_copied result ≡ timed_of root self.now.pending }
    {
        places::timed(&self.entries, root)
    }

    /// The settled attempt of the transaction after this one.
    pub fn settled_after(&self, before: u64) -> Option<&Entry<L>>
        ensures { option_copied result ≡ settled_after before self.now.pending }
    {
        places::settled_after(&self.entries, before)
    }

    /// How many attempts of a transaction were begun, and how many of them aborted.
    pub fn tried(&self, txid: u64) -> Tried
        ensures { result ≡ tried txid self.now.tries }
    {
        self.tries.tried(txid)
    }

    /// Whether a root may begin: no attempt of its transaction is pending, and it is the next one.
    pub fn is_next(&self, root: Root) -> bool
        ensures { IsTrue result ↔ IsNext root self.now }
    {
        let fresh = !places::has_txid(&self.entries, root.txid);
        let next = u64::from(self.tries.tried(root.txid).begun) + 1 == u64::from(root.attempt);
        fresh & next
    }

    /// No more attempts are pending than may be, and none twice, and of each transaction no more
    /// than were begun and did not abort.
    pub fn pending_are_few(&self)
        ensures most { length self.now.pending ≤ self.now.cap }
        ensures once { AreDistinct self.now.pending }
        ensures counted { AreCounted self.now.tries self.now.pending }
    {
        let _ = &self.entries;
    }
}

// Adds and counts an attempt that begins, or does neither.
fn add_entry<L: Drop>(
    entries: &mut Vec<Entry<L>>,
    tries: &mut Tries,
    entry: Entry<L>,
) -> Result<(), Memory>
    ensures placed { OnOk result (entries.new.items ≡ entries.old.items ++ entry ∷ []) }
    ensures counted { OnOk result
        (tries.new ≡ with_begun entry.root.txid entry.root.attempt tries.old) }
    ensures entries_stay { OnErr result (entries.new.items ≡ entries.old.items) }
    ensures counts_stay { OnErr result (tries.new ≡ tries.old) }
{
    entries.reserve(1)?;
    tries.begin(entry.root.txid, entry.root.attempt)?;
    entries.push_reserved(entry);
    Ok(())
}

// Counts attempts as aborted, in their order.
fn count_aborted<L: Drop>(tries: &mut Tries, entries: &[Entry<L>])
    requires { AreCounted tries.old entries.now }
    ensures { tries.new ≡ counted (txids_of entries.now) tries.old }
{
    for entry in entries {
        tries.abort(entry.root.txid);
    }
}
