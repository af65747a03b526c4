ghost use Rattle.std.specs.Prelude.{◌≡◌, ◌<◌, ◌++◌, length, IfOk, OnOk, slice_get};
ghost use Rattle.tuple_account.specs.message_lists.Packed.{HasText, note_lent};
ghost use Rattle.commit_writes.specs.Writes.{AreWritesOf, IsPathOrderOf, done_in, done_of, writes_in};

use std::alloc::Global;
use tuple_account::message_lists::{LentNote, Notes};
use tuple_account::storm_values::{Memory, Seq};
use tuple_account::tree_model::{AckMsg, PackedWrites, Write};

/// The writes of a list's dones, in the order of the paths that they consume, by the places of the
/// dones in this order: one pass over these.
pub(crate) fn writes_in_path_order(
    alloc: Global,
    list: &Notes,
    order: &Seq<usize>,
) -> Result<PackedWrites, Memory>
    requires { IsPathOrderOf list.now order.now }
    ensures { IfOk result (AreWritesOf list.now) }
{
    let mut writes = PackedWrites::with_capacity(alloc, order.len())?;
    for place in order.as_slice() {
        add_writes_at(&mut writes, list, *place)?;
    }
    Ok(writes)
}

// Adds copies of the writes of the done at a place.
fn add_writes_at(into: &mut PackedWrites, list: &Notes, place: usize) -> Result<(), Memory>
    ensures { OnOk result
        (into.new ≡ into.old ++ writes_in (done_of (slice_get list.now place))) }
{
    if place < list.len() {
        add_writes_of(into, list.get(place))?;
    }
    Ok(())
}

// Adds copies of the writes of a message.
fn add_writes_of(into: &mut PackedWrites, note: LentNote<'_>) -> Result<(), Memory>
    requires text { HasText note }
    ensures { OnOk result (into.new ≡ into.old ++ writes_in (done_in (note_lent note.entry))) }
{
    match note {
        LentNote::Whole(AckMsg::Done(done)) => add_copies(into, done.writes.as_slice()),
        LentNote::Whole(_) => Ok(()),
        LentNote::Done(done) => match done.write {
            Some(write) => into.push_lent(write),
            None => Ok(()),
        },
    }
}

fn add_copies(into: &mut PackedWrites, writes: &[Write]) -> Result<(), Memory>
    ensures { OnOk result (into.new ≡ into.old ++ writes.now) }
{
    for write in writes {
        into.push(write)?;
    }
    Ok(())
}
