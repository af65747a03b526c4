//! Runs of parcels for one box, from the front of what is left to hand over.
ghost use Rattle.std.specs.Prelude.{◌≡◌, ◌∷◌, ◌++◌, [], IfOk, IfSome, IsTrue, OnOk};
ghost use Rattle.std.specs.List.{AllByRecursion};
ghost use Rattle.std.specs.Option.{IfNone};
ghost use Rattle.worker_stretches.specs.box_rows.Mails.{IsRunFor, box_of};
ghost use Rattle.event_worlds.specs.Orderly.{FitsParcel};
ghost use Rattle.worker_turns.specs.Orders.{IsForBox};

use event_worlds::storm_values::Memory;
use event_worlds::topology_plan::Plan;
use event_worlds::tree_model::{Parcel, Parcels};
use std::alloc::Global;
use std::collections::VecDeque;

// How many parcels a run has at most.
const MOST_IN_RUN: usize = 64;

// The number of the box that a parcel goes to.
pub(crate) fn box_number(plan: &Plan, parcel: &Parcel) -> usize
    ensures { result ≡ box_of plan.now parcel.now }
{
    match parcel {
        Parcel::ToTask(n, _) => *n as usize,
        Parcel::ToAcker(n, _) => plan.tasks() as usize + *n as usize,
    }
}

// Whether the front parcel is there and goes to a box.
fn is_next_for(plan: &Plan, left: &VecDeque<Parcel>, at: usize) -> bool
    ensures { IsTrue result → IsForBox plan.now at left.now.items }
{
    match left.front() {
        Some(parcel) => box_number(plan, parcel) == at,
        None => false,
    }
}

// The front parcel, if it goes to a box.
fn next_for(plan: &Plan, left: &mut VecDeque<Parcel>, at: usize) -> Option<Parcel>
    ensures front { IfSome result (λ parcel. left.old.items ≡ parcel ∷ left.new.items) }
    ensures goes { IfSome result (λ parcel. at ≡ box_of plan.now parcel) }
    ensures same { IfNone result (left.new.items ≡ left.old.items) }
{
    if !is_next_for(plan, left, at) {
        return None;
    }
    left.pop_front()
}

// A run that begins with a parcel.
fn begun(alloc: Global, first: Parcel) -> Result<Parcels, Memory>
    ensures { IfOk result (λ made. made ≡ first ∷ []) }
{
    let mut run = Parcels::new(alloc);
    run.push(first)?;
    Ok(run)
}

// A parcel, and those that stand in front and go to the same box, up to a whole run.
pub(crate) fn run_from(
    alloc: Global,
    plan: &Plan,
    left: &mut VecDeque<Parcel>,
    first: Parcel,
    at: usize,
) -> Result<Parcels, Memory>
    requires goes { at ≡ box_of plan.now first }
    requires fits { AllByRecursion (FitsParcel plan.now) (first ∷ left.old.items) }
    ensures run { IfOk result (IsRunFor plan.now at) }
    ensures fits { OnOk result (AllByRecursion (FitsParcel plan.now) left.new.items) }
    ensures front { IfOk result (λ run. first ∷ left.old.items ≡ run ++ left.new.items) }
{
    let mut made = begun(alloc, first)?;
    while made.len() < MOST_IN_RUN {
        let Some(parcel) = next_for(plan, left, at) else {
            return Ok(made);
        };
        made.push(parcel)?;
    }
    Ok(made)
}
