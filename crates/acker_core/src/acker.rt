ghost use Rattle.std.specs.Prelude.{◌≡◌, ◌≤◌, [], None, IfOk, IsSome, OnOk, OnErr, option_and_then};
ghost use Rattle.rotating_ledger.specs.Held.{AreHeldOnce, AreYoung, value_of, without, entered, rotated};
ghost use Rattle.rotating_ledger.specs.Told.{told};
ghost use Rattle.tree_model.specs.Lists.{root_of};
ghost use Rattle.tree_model.specs.declared.messages.AckMsg.TheVariants as msg;
ghost use Rattle.message_lists.specs.Packed.{HasKeyText, done_lent};
ghost use Rattle.acker_core.specs.Entries.{AreSilent, appended, met, tell, told_of};
ghost use Rattle.acker_core.specs.States.{state_of};

use crate::entry::{Entry, root_in};
use crate::verdict::Verdict;
use message_lists::{LentDone, LentNote, Room};
use rotating_ledger::{Rotating, Told};
use std::alloc::{AllocError, Global};
use std::marker::Model;
use tree_model::AckMsg;
use tree_model::storm_values::{Memory, Root};

/// Keeps the messages of each root until they tell something, in buckets that rotate: an entry
/// stays in the bucket of its first message. Contracts see the entries as lists of messages, in the
/// order in which they began, with their ages.
#[derive(Debug, Drop)]
pub struct Acker {
    alloc: Global,
    entries: Rotating<Entry>,
    // taken at once for a list that begins: lists are of like lengths
    room: Room,
}

impl Model for Acker {
    ghost use Rattle.std.specs.Prelude.{List};
    ghost use Rattle.rotating_ledger.specs.Held.{Rotation, rotation_code};
    ghost use Rattle.tree_model.specs.declared.messages.AckMsg.{AckMsg};
    ghost use Rattle.acker_core.specs.Entries.{AreSilent};

    ghost Value = { Rotation (List AckMsg) };

    ghost view = { λ a. a.entries };

    ghost invariant = { λ a. AreSilent a.entries.held };
}

impl Acker {
    /// No entries, in so many buckets.
    pub fn new(alloc: Global, buckets: u32) -> Result<Self, Memory>
        requires least { 2 ≤ buckets }
        requires most { buckets ≤ 16 }
        ensures { IfOk result (λ made. made ≡ record { buckets = buckets; held = [] }) }
    {
        Ok(Acker {
            alloc,
            entries: Rotating::new(alloc, buckets)?,
            room: Room::none(),
        })
    }

    /// Meets a message, and tells what its root comes to. A complete verdict has the
    /// entry's messages, which are moved; a fail has the path of the first failure.
    /// Without memory all stays.
    pub fn step(&mut self, message: AckMsg) -> Result<Option<Verdict>, Memory>
        ensures told { IfOk result (λ told. told ≡ told_of message self.old.held) }
        ensures met { OnOk result
            (self.new ≡ record self.old { held = met message self.old.held }) }
        ensures gone { IfOk result (λ told.
            IsSome told → value_of (root_of message) self.new.held ≡ None) }
        ensures err { OnErr result (self.new ≡ self.old) }
    {
        let root = root_in(&message);
        let told = add_message(self.alloc, self.room, &mut self.entries, root, message)?;
        if told.tells() {
            let verdict = take_verdict(&mut self.entries, root);
            self.room = room_after(&verdict, self.room);
            return Ok(verdict);
        }
        Ok(None)
    }

    /// Meets a done that is lent in parts, of which a message is made only where its root's entry
    /// begins with it. What it comes to is told as by `step`.
    pub fn step_done(&mut self, done: &LentDone<'_>) -> Result<Option<Verdict>, Memory>
        requires text { HasKeyText done.now.write }
        ensures told { IfOk result
            (λ told. told ≡ told_of (msg.Done (done_lent done.now)) self.old.held) }
        ensures met { OnOk result (self.new
            ≡ record self.old { held = met (msg.Done (done_lent done.now)) self.old.held }) }
        ensures err { OnErr result (self.new ≡ self.old) }
    {
        let told = add_done(self.alloc, self.room, &mut self.entries, done)?;
        if told.tells() {
            let verdict = take_verdict(&mut self.entries, done.root);
            self.room = room_after(&verdict, self.room);
            return Ok(verdict);
        }
        Ok(None)
    }

    /// Drops the entries of the oldest bucket. It takes no memory.
    pub fn tick(&mut self)
        ensures { self.new ≡ record self.old { held = rotated self.old.buckets self.old.held } }
    {
        let _ = self.entries.rotate();
    }

    /// No entry tells anything: what tells is gone at once.
    pub fn tells_nothing(&self)
        ensures { AreSilent self.now.held }
    {
        let _ = &self.entries;
    }

    /// No root has two entries, and no entry is as many ticks old as there are buckets.
    pub fn entries_are_young(&self)
        ensures once { AreHeldOnce self.now.held }
        ensures young { AreYoung self.now.buckets self.now.held }
    {
        self.entries.held_are_young();
    }
}

// The room for the next list: that of a complete one and an eighth more.
fn room_after(verdict: &Option<Verdict>, before: Room) -> Room {
    match verdict {
        Some(Verdict::Complete { list, .. }) => list.room(),
        _ => before,
    }
}

// Adds a message to a root's entry, which begins with it where there is none.
fn add_message(
    alloc: Global,
    room: Room,
    entries: &mut Rotating<Entry>,
    root: Root,
    message: AckMsg,
) -> Result<Told, Memory>
    ensures told { IfOk result (λ told_is.
        told_is ≡ told (state_of (appended (value_of root entries.old.held) message))) }
    ensures entered { OnOk result (let before = value_of root entries.old.held in
        entries.new
        ≡ record entries.old
        { held = entered root before (appended before message) entries.old.held }) }
    ensures err { OnErr result (entries.new ≡ entries.old) }
{
    match entries.get(root) {
        Some(entry) => {
            entry.add(message)?;
            Ok(entry.told())
        }
        None => {
            let entry = Entry::new(alloc, room, message)?;
            let told = entry.told();
            match entries.put(root, entry) {
                Ok(()) => Ok(told),
                Err(_) => Err(AllocError),
            }
        }
    }
}

// Adds a done that is lent to its root's entry, which begins with it where there is none.
fn add_done(
    alloc: Global,
    room: Room,
    entries: &mut Rotating<Entry>,
    done: &LentDone<'_>,
) -> Result<Told, Memory>
    requires text { HasKeyText done.now.write }
    ensures told { IfOk result (λ told_is. told_is ≡ told (state_of
        (appended (value_of done.now.root entries.old.held) (msg.Done (done_lent done.now))))) }
    ensures entered { OnOk result (let before = value_of done.now.root entries.old.held in
        let m = msg.Done (done_lent done.now) in
        entries.new
        ≡ record entries.old
        { held = entered done.now.root before (appended before m) entries.old.held }) }
    ensures err { OnErr result (entries.new ≡ entries.old) }
{
    match entries.get(done.root) {
        Some(entry) => {
            entry.add_done(alloc, done)?;
            Ok(entry.told())
        }
        None => {
            let message = LentNote::Done(*done).to_message(alloc)?;
            add_message(alloc, room, entries, done.root, message)
        }
    }
}

// Takes out what a root's entry tells.
fn take_verdict(entries: &mut Rotating<Entry>, root: Root) -> Option<Verdict>
    ensures told { result ≡ option_and_then (tell root) (value_of root entries.old.held) }
    ensures others { entries.new ≡ record entries.old { held = without root entries.old.held } }
    ensures gone { value_of root entries.new.held ≡ None }
{
    match entries.take(root) {
        Some(entry) => entry.into_verdict(root),
        None => None,
    }
}
