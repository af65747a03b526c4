ghost use Rattle.std.specs.Prelude.{◌≡◌};
ghost use Rattle.rotating_ledger.specs.Slots.{pairs_in};

use crate::slot::Slot;
use std::marker::Model;
use std::vec::IntoIter;
use storm_values::Root;

/// The roots and values that a rotation took away, as an iterator in the order in which they were
/// put. Going over it takes no memory.
#[derive(Drop)]
pub struct Dropped<V> {
    slots: IntoIter<Slot<V>>,
}

impl<V> Model for Dropped<V> {
    ghost use Rattle.std.specs.Prelude.{List};
    ghost use Rattle.storm_values.specs.declared.value.Root.{Root};

    ghost Value = { List (Root × V) };

    ghost use Rattle.std.specs.Vec.Iter.{into_iter_items};
    ghost use Rattle.rotating_ledger.specs.Slots.{pairs_in};

    ghost view = { λ d. pairs_in (into_iter_items d.slots) };
}

impl<V> Dropped<V> {
    pub(crate) fn new(slots: Vec<Slot<V>>) -> Self
        ensures { result ≡ pairs_in slots.items }
    {
        Dropped {
            slots: slots.into_iter(),
        }
    }
}

impl<V: Drop> Iterator for Dropped<V> {
    ghost use Rattle.std.specs.Iterator.{YieldsFirst, item_count};

    type Item = (Root, V);

    ghost next_gives = { YieldsFirst (λ d. d) };

    ghost remaining = { item_count (λ d. d) };

    fn next(&mut self) -> Option<(Root, V)> {
        while let Some(slot) = self.slots.next() {
            if let Slot::Full(root, value) = slot {
                return Some((root, value));
            }
        }
        None
    }
}
