ghost use Rattle.std.specs.Prelude.{◌≡◌, IsSome, Some};

use storm_values::Root;

/// A place for a value of a root.
#[derive(Debug, Drop)]
pub enum Slot<V> {
    Full(Root, V),
    Empty,
}

impl<V> Slot<V> {
    ghost use Rattle.std.specs.Borrow.{Lends, sem};
    ghost use Rattle.rotating_ledger.specs.Slots.{value_in, refilled};
    ghost use Rattle.rotating_ledger.specs.contracts.slot.Slot.{the_row};

    pub fn value_mut(&mut self) -> &mut V
        requires { IsSome (value_in self.old) }
        ensures* lends { sem 𝓛 (Lends (the_row V.row) V.row self.entry result (refilled self.old)) }
        ensures value { value_in self.old ≡ Some result.now }
    {
        match self {
            Slot::Full(_, value) => value,
            Slot::Empty => unreachable!(),
        }
    }
}
