//! The memory of runs that were emptied, for those that begin.
ghost use Rattle.std.specs.Prelude.{◌≡◌, []};

use event_worlds::tree_model::Parcel;
use std::alloc::Global;
use std::mem;

// How many lists are kept at most.
const MOST: usize = 64;

/// Lists whose memory is used again, so that a worker's turns take none beyond what its tasks and
/// ackers make.
#[derive(Drop)]
pub struct Spares {
    alloc: Global,
    lists: Vec<Vec<Parcel>>,
    // what executions write their parcels into
    room: Vec<Parcel>,
}

impl Spares {
    /// None, which takes no memory.
    pub fn new(alloc: Global) -> Self {
        Spares {
            alloc,
            lists: Vec::new(alloc),
            room: Vec::new(alloc),
        }
    }

    /// An empty list, with the memory of one that was put here if there is one.
    pub(crate) fn list(&mut self) -> Vec<Parcel>
        ensures { result.items ≡ [] }
    {
        match self.lists.pop() {
            Some(list) => emptied(list),
            None => Vec::new(self.alloc),
        }
    }

    /// Keeps the memory of a list, or else lets it go.
    pub(crate) fn put(&mut self, list: Vec<Parcel>) {
        if self.lists.len() < MOST {
            let _ = self.lists.push(list);
        }
    }

    /// The memory that an execution writes into.
    pub(crate) fn take_room(&mut self) -> Vec<Parcel> {
        mem::replace(&mut self.room, Vec::new(self.alloc))
    }

    /// It comes back.
    pub(crate) fn give_room(&mut self, room: Vec<Parcel>) {
        self.room = room;
    }
}

fn emptied(mut list: Vec<Parcel>) -> Vec<Parcel>
    ensures { result.items ≡ [] }
{
    list.clear();
    list
}
