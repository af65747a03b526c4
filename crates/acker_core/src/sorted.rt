// The path order of a list by a sort.
ghost use Rattle.std.specs.Prelude.{◌≡◌, ◌++◌, IfOk, OnOk, IsPermutation, List, Some, map, slice_get};
ghost use Rattle.std.specs.List.{AllByRecursion};
ghost use Rattle.tree_model.specs.declared.messages.AckMsg.{AckMsg};
ghost use Rattle.commit_writes.specs.Writes.{AreInPathOrder, IsPathOrderOf, done_in, dones_in};
ghost use Rattle.acker_core.specs.Orders.{StandsIn, done_beside, place_of};

use std::alloc::Global;
use tree_model::storm_values::{Memory, Seq};
use tree_model::{AckMsg, Done};

/// The places of a list's dones in the order of the paths that they consume, in time in proportion
/// to n log n for n messages.
pub fn sorted_order(alloc: Global, list: &[AckMsg]) -> Result<Seq<usize>, Memory>
    ensures { IfOk result (IsPathOrderOf list.now) }
{
    let mut dones = dones_of(alloc, list)?;
    sort_dones(&mut dones);
    let places = places_of(alloc, &dones)?;
    Ok(places)
}

// The dones of a list beside their places, in the order of the messages.
fn dones_of<'l>(alloc: Global, list: &'l [AckMsg]) -> Result<Vec<(usize, &'l Done)>, Memory>
    ensures all { IfOk result (λ dones. map done_beside dones.items ≡ dones_in list.now) }
    ensures there { IfOk result (λ dones. AllByRecursion (StandsIn list.now) dones.items) }
{
    let mut dones = Vec::with_capacity(alloc, list.len())?;
    for (place, note) in list.iter().enumerate() {
        add_done(&mut dones, place, note)?;
    }
    Ok(dones)
}

fn add_done<'l>(
    into: &mut Vec<(usize, &'l Done)>,
    place: usize,
    note: &'l AckMsg,
) -> Result<(), Memory>
    ensures all { OnOk result (map done_beside into.new.items
        ≡ map done_beside into.old.items ++ done_in note.now) }
    ensures there { OnOk result ((list : List AckMsg) → slice_get list place ≡ Some note.now
        → AllByRecursion (StandsIn list) into.old.items
        → AllByRecursion (StandsIn list) into.new.items) }
{
    if let AckMsg::Done(done) = note {
        into.push((place, done))?;
    }
    Ok(())
}

fn sort_dones(dones: &mut Vec<(usize, &Done)>)
    ensures same { IsPermutation dones.old.items dones.new.items }
    ensures ordered { AreInPathOrder (map done_beside dones.new.items) }
{
    dones.sort_unstable_by(|a, b| a.1.consumed.path.compare(&b.1.consumed.path));
}

fn places_of(alloc: Global, dones: &[(usize, &Done)]) -> Result<Seq<usize>, Memory>
    ensures { IfOk result (λ places. places ≡ map place_of dones.now) }
{
    let mut places = Vec::with_capacity(alloc, dones.len())?;
    for done in dones {
        places.push(done.0)?;
    }
    Ok(Seq::from_vec(places))
}
