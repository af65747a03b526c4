// Where the dones of a list lie in its tuple tree. What is found here is proved nowhere: `follow`
// looks at each place again.
ghost use Rattle.std.specs.Prelude.{◌<◌, IfSome, length};

use message_lists::{LentDone, LentNote, Notes};
use std::alloc::Global;
use tree_model::storm_values::Memory;

// In place of a number that no message or slot has.
const NONE: u32 = u32::MAX;

// A done whose parent's stands behind it in the list is tried again this often at most.
const MOST_PASSES: u32 = 16;

/// What is known of one edge of a tuple tree.
#[derive(Clone, Copy, Drop)]
pub struct Slot {
    /// The place in the list of the done that consumes the edge.
    pub place: u32,
    /// The slot of the first edge that this done produced; the others follow.
    pub first: u32,
}

/// A slot for each of the first edges, and for each edge that a done produced which was found at
/// its path from there. The dones of a list mostly stand behind their parents'; then one pass
/// finds all of them. It takes time in proportion to n for n messages.
pub fn placed_slots(alloc: Global, list: &Notes, firsts: usize) -> Result<Vec<Slot>, Memory> {
    let mut slots = Vec::with_capacity(alloc, list.len())?;
    add_empty(&mut slots, firsts)?;
    let mut waiting = place_in_turn(alloc, &mut slots, list)?;
    for _ in 0..MOST_PASSES {
        if waiting.is_empty() {
            break;
        }
        waiting = place_again(alloc, &mut slots, list, &waiting)?;
    }
    Ok(slots)
}

// The places of the dones whose path has no slot yet.
fn place_in_turn(alloc: Global, slots: &mut Vec<Slot>, list: &Notes) -> Result<Vec<usize>, Memory> {
    let mut waiting = Vec::new(alloc);
    for place in 0..list.len() {
        if !place_note(slots, place, list.get(place))? {
            waiting.push(place)?;
        }
    }
    Ok(waiting)
}

fn place_again(
    alloc: Global,
    slots: &mut Vec<Slot>,
    list: &Notes,
    places: &[usize],
) -> Result<Vec<usize>, Memory> {
    let mut waiting = Vec::new(alloc);
    for place in places {
        if *place < list.len() && !place_note(slots, *place, list.get(*place))? {
            waiting.push(*place)?;
        }
    }
    Ok(waiting)
}

// A done takes the slot at its path and opens slots for what it produced. Whether it need not wait.
fn place_note(slots: &mut Vec<Slot>, place: usize, note: LentNote<'_>) -> Result<bool, Memory> {
    let LentNote::Done(done) = note else {
        return Ok(true);
    };
    let Some(slot) = slot_of(slots, &done) else {
        return Ok(false);
    };
    let first = slots.len();
    if place >= NONE as usize || first >= NONE as usize {
        return Ok(true);
    }
    slots[slot] = Slot {
        place: place as u32,
        first: first as u32,
    };
    add_empty(slots, done.produced.len())?;
    Ok(true)
}

fn add_empty(slots: &mut Vec<Slot>, count: usize) -> Result<(), Memory> {
    for _ in 0..count {
        slots.push(Slot {
            place: NONE,
            first: NONE,
        })?;
    }
    Ok(())
}

// The slot at the path of a done.
fn slot_of(slots: &[Slot], done: &LentDone<'_>) -> Option<usize>
    ensures { IfSome result (λ slot. slot < length slots.now) }
{
    let mut first: u32 = 0;
    for number in done.parent {
        let slot = slots.get(first as usize + *number as usize)?;
        first = slot.first;
    }
    let slot = first as usize + done.number as usize;
    if slot < slots.len() { Some(slot) } else { None }
}
