ghost use Rattle.std.specs.Prelude.{◌≡◌, ◌≤◌, [], None, Some, Option, IsTrue, IfOk, OnOk, OnErr, IfNone, OnSome};
ghost use Rattle.rotating_ledger.specs.Held.{AreHeldOnce, AreYoung, value_of, with_value, settled, rotated};
ghost use Rattle.rotating_ledger.specs.Told.{init_of, ack_of, fail_note, met, merged, tells, told, told_of};

use crate::rotating::Rotating;
use crate::state::{AckState, Told};
use std::alloc::{AllocError, Global};
use std::marker::Model;
use storm_values::{Memory, Root};

/// The XOR word of each root, whether its init came and whether a fail came, in buckets that
/// rotate. An entry stays in the bucket of its first message. A message of a root that has
/// an entry takes no memory.
#[derive(Debug, Drop)]
pub struct Ledger {
    states: Rotating<AckState>,
}

impl Model for Ledger {
    ghost use Rattle.rotating_ledger.specs.Held.{Rotation, rotation_code};
    ghost use Rattle.rotating_ledger.specs.Told.{state_code};
    ghost use Rattle.rotating_ledger.specs.declared.state.AckState.{AckState};

    ghost Value = { Rotation AckState };

    ghost coded = { rotation_code state_code };

    ghost view = { λ l. l.states };
}

impl Ledger {
    /// No entries, in so many buckets.
    pub fn new(alloc: Global, buckets: u32) -> Result<Self, Memory>
        requires least { 2 ≤ buckets }
        requires most { buckets ≤ 16 }
        ensures { IfOk result (λ made. made ≡ record { buckets = buckets; held = [] }) }
    {
        Ok(Ledger {
            states: Rotating::new(alloc, buckets)?,
        })
    }

    /// A root began; the word is the XOR of its first ids.
    pub fn init(&mut self, root: Root, word: u64) -> Result<Told, Memory>
        ensures told { IfOk result (λ told. told ≡ told_of root (init_of word) self.old.held) }
        ensures met { OnOk result
            (self.new ≡ record self.old { held = met root (init_of word) self.old.held }) }
        ensures gone { IfOk result (λ told.
            IsTrue (tells told) → value_of root self.new.held ≡ None) }
        ensures err { OnErr result (self.new ≡ self.old) }
        ensures err_absent { OnErr result (value_of root self.old.held ≡ None) }
    {
        self.meet(root, AckState::init(word))
    }

    /// A tuple was acked; the word is the XOR of its id and of the ids anchored to it.
    pub fn ack(&mut self, root: Root, word: u64) -> Result<Told, Memory>
        ensures told { IfOk result (λ told. told ≡ told_of root (ack_of word) self.old.held) }
        ensures met { OnOk result
            (self.new ≡ record self.old { held = met root (ack_of word) self.old.held }) }
        ensures gone { IfOk result (λ told.
            IsTrue (tells told) → value_of root self.new.held ≡ None) }
        ensures err { OnErr result (self.new ≡ self.old) }
        ensures err_absent { OnErr result (value_of root self.old.held ≡ None) }
    {
        self.meet(root, AckState::ack(word))
    }

    /// A tuple failed.
    pub fn fail(&mut self, root: Root) -> Result<Told, Memory>
        ensures told { IfOk result (λ told. told ≡ told_of root fail_note self.old.held) }
        ensures met { OnOk result
            (self.new ≡ record self.old { held = met root fail_note self.old.held }) }
        ensures gone { IfOk result (λ told.
            IsTrue (tells told) → value_of root self.new.held ≡ None) }
        ensures err { OnErr result (self.new ≡ self.old) }
        ensures err_absent { OnErr result (value_of root self.old.held ≡ None) }
    {
        self.meet(root, AckState::fail())
    }

    /// Drops the entries of the oldest bucket. It takes no memory.
    pub fn tick(&mut self)
        ensures { self.new ≡ record self.old { held = rotated self.old.buckets self.old.held } }
    {
        let _ = self.states.rotate();
    }

    /// No root has two entries, and no entry is as many ticks old as there are buckets.
    pub fn entries_are_young(&self)
        ensures once { AreHeldOnce self.now.held }
        ensures young { AreYoung self.now.buckets self.now.held }
    {
        self.states.held_are_young();
    }

    // A message of a root.
    fn meet(&mut self, root: Root, message: AckState) -> Result<Told, Memory>
        ensures told { IfOk result (λ told. told ≡ told_of root message self.old.held) }
        ensures met { OnOk result
            (self.new ≡ record self.old { held = met root message self.old.held }) }
        ensures gone { IfOk result (λ told.
            IsTrue (tells told) → value_of root self.new.held ≡ None) }
        ensures err { OnErr result (self.new ≡ self.old) }
        ensures err_absent { OnErr result (value_of root self.old.held ≡ None) }
    {
        match merge_in(&mut self.states, root, message) {
            Some(told) => {
                if told.tells() {
                    self.states.take(root);
                    return Ok(told);
                }
                Ok(told)
            }
            None => begin(&mut self.states, root, message),
        }
    }
}

// The first message of a root.
fn begin(states: &mut Rotating<AckState>, root: Root, message: AckState) -> Result<Told, Memory>
    requires { value_of root states.old.held ≡ None }
    ensures told { IfOk result (λ told_is. told_is ≡ told message) }
    ensures met { OnOk result (states.new ≡ record states.old {
      held = settled root None message states.old.held (tells (told message));
    }) }
    ensures gone { IfOk result (λ told.
        IsTrue (tells told) → value_of root states.new.held ≡ None) }
    ensures err { OnErr result (states.new ≡ states.old) }
{
    let told = message.told();
    if told.tells() {
        return Ok(told);
    }
    match states.put(root, message) {
        Ok(()) => Ok(told),
        Err(_) => Err(AllocError),
    }
}

// Adds a message to a root's state, if it has one, and answers what the state comes to.
fn merge_in(states: &mut Rotating<AckState>, root: Root, message: AckState) -> Option<Told>
    ensures absent { IfNone result (value_of root states.old.held ≡ None) }
    ensures same { IfNone result (states.new ≡ states.old) }
    ensures present { OnSome result
        ((state : AckState) × (value_of root states.old.held ≡ Some state)
        × (states.new
        ≡ record states.old { held = with_value root states.old.held (merged state message) })
        × (result ≡ Some (told (merged state message)))) }
{
    match states.get(root) {
        Some(state) => {
            state.merge(message);
            Some(state.told())
        }
        None => None,
    }
}
