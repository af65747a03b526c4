ghost use Rattle.std.specs.Prelude.{◌≡◌, ◌∷◌, ◌++◌, [], None, Some, slice_get, slice_set, OnOk, OnErr, IfErr, IsTrue};
ghost use Rattle.rotating_ledger.specs.Slots.{slot_at, AreFound, HasAt, Trims};

use crate::key::Key;
use crate::slot::Slot;
use std::alloc::Global;
use std::collections::HashMap;
use std::mem;
use storm_values::Root;

/// Values in the order in which they were put, with a map from each root to its slot.
#[derive(Debug, Drop)]
pub struct Bucket<V> {
    pub places: HashMap<Key, usize>,
    pub slots: Vec<Slot<V>>,
}

impl<V: Drop> Bucket<V> {
    ghost use Rattle.std.specs.Prelude.{slice_index_or, IsSome};
    ghost use Rattle.std.specs.Borrow.{Lends, sem};
    ghost use Rattle.rotating_ledger.specs.Slots.{value_in};
    ghost use Rattle.rotating_ledger.specs.Lent.{with_slot};
    ghost use Rattle.rotating_ledger.specs.contracts.bucket.Bucket.{the_row};

    pub fn new(alloc: Global) -> Self
        ensures empty { result.slots.items ≡ [] }
        ensures found { AreFound result.places result.slots.items }
    {
        Bucket {
            places: HashMap::new(alloc),
            slots: Vec::new(alloc),
        }
    }

    /// The slot of a root.
    pub fn slot_of(&self, root: Root) -> Option<usize>
        ensures { result ≡ slot_at self.now.places root }
    {
        // most buckets are empty, and a root is not hashed for them
        if self.places.is_empty() {
            return None;
        }
        let key = Key {
            txid: root.txid,
            attempt: root.attempt,
        };
        self.places.get(&key).copied()
    }

    /// Whether a slot has the value of a root.
    pub fn has_at(&self, slot: usize, root: Root) -> bool
        ensures { IsTrue result → HasAt self.now slot root }
    {
        match self.slots.get(slot) {
            Some(Slot::Full(held, _)) => *held == root,
            _ => false,
        }
    }

    /// Puts a value at the end. The value comes back for want of memory alone.
    pub fn put(&mut self, root: Root, value: V) -> Result<(), V>
        requires found { AreFound self.old.places self.old.slots.items }
        requires absent { slot_at self.old.places root ≡ None }
        ensures ok { OnOk result
            (self.new.slots.items ≡ self.old.slots.items ++ Slot.Full root value ∷ []) }
        ensures err { OnErr result (self.new.slots.items ≡ self.old.slots.items) }
        ensures value_returned { IfErr result (λ v. v ≡ value) }
        ensures found { AreFound self.new.places self.new.slots.items }
    {
        let slot = self.slots.len();
        if self.slots.reserve(1).is_err() {
            return Err(value);
        }
        let key = Key {
            txid: root.txid,
            attempt: root.attempt,
        };
        match self.places.insert(key, slot) {
            Err(_) => Err(value),
            // there is room for it
            Ok(_) => match self.slots.push(Slot::Full(root, value)) {
                Ok(()) => Ok(()),
                Err(_) => unreachable!(),
            },
        }
    }

    /// The value in a slot.
    pub fn value_mut(&mut self, slot: usize) -> &mut V
        requires { IsSome (value_in (slice_index_or self.old.slots.items slot Slot.Empty)) }
        ensures* lends { sem 𝓛
            (Lends (the_row V.row) V.row self.entry result (with_slot self.old slot)) }
        ensures value { value_in (slice_index_or self.old.slots.items slot Slot.Empty)
            ≡ Some result.now }
    {
        self.slots[slot].value_mut()
    }

    /// Takes the value of a root out of its slot.
    pub fn take_at(&mut self, root: Root, slot: usize) -> V
        requires found { AreFound self.old.places self.old.slots.items }
        requires here { slot_at self.old.places root ≡ Some slot }
        ensures value { slice_get self.old.slots.items slot ≡ Some (Slot.Full root result) }
        ensures slots { Trims (slice_set self.old.slots.items slot Slot.Empty)
            self.new.slots.items }
        ensures found { AreFound self.new.places self.new.slots.items }
    {
        let key = Key {
            txid: root.txid,
            attempt: root.attempt,
        };
        self.places.remove(&key);
        match mem::replace(&mut self.slots[slot], Slot::Empty) {
            Slot::Full(_, value) => {
                trim(&mut self.slots);
                value
            }
            Slot::Empty => unreachable!(),
        }
    }
}

// Takes away the empty slots past the last value.
fn trim<V: Drop>(slots: &mut Vec<Slot<V>>)
    ensures { Trims slots.old.items slots.new.items }
{
    while let Some(Slot::Empty) = slots.last() {
        slots.pop();
    }
}
