//! The seats of tasks as desks, and desks as seats.
ghost use Rattle.std.specs.Prelude.{◌≡◌, ◌<◌, length, map, IfOk};
ghost use Rattle.std.specs.List.{AllByRecursion, range_with_len};
ghost use Rattle.event_engine.specs.Seats.{AreSeats, IsSeatOf, task_side};
ghost use Rattle.event_worlds.specs.Orderly.{AreTasksOrderly, IsTaskOrderly};
ghost use Rattle.event_worlds.specs.topology_plan.Topology.{tasks_in_all};
ghost use Rattle.worker_pool.specs.Desks.{IsDesk};
ghost use Rattle.worker_stretches.specs.Places.{IsTaskAt, ZipFrom, desk_number};

use crate::hands::Numbered;
use event_engine::TaskSeat;
use event_worlds::storm_ids::Ids;
use event_worlds::storm_values::Memory;
use event_worlds::topology_plan::Plan;
use event_worlds::tree_model::Parcels;
use std::alloc::Global;
use std::collections::VecDeque;
use worker_pool::{Outbox, Spares, TaskDesk};

impl<'p, I: Ids> Numbered for TaskDesk<'p, I> {
    ghost number_of = { λ d. d.number };

    fn number(&self) -> u32 {
        self.number
    }
}

// The task of a number comes to a desk.
fn desk_of<'p, I: Ids>(
    alloc: Global,
    plan: &Plan,
    number: u32,
    seat: TaskSeat<'p, I>,
) -> Result<TaskDesk<'p, I>, Memory>
    requires there { number < tasks_in_all plan.now }
    requires seat { IsSeatOf plan.now number seat }
    requires orderly { IsTaskOrderly plan.now number (task_side seat) }
    ensures desk { IfOk result (IsDesk plan.now) }
    ensures same { IfOk result (IsTaskAt number seat.entry) }
{
    let TaskSeat {
        task,
        inbox,
        outbox,
    } = seat;
    let mut runs = Outbox::new(alloc);
    let mut spares = Spares::new(alloc);
    runs.add_all(plan, &mut spares, Parcels::from_vec(outbox.into_vec()))?;
    Ok(TaskDesk {
        number,
        task,
        inbox,
        outbox: runs,
    })
}

/// All tasks come to desks, in the order of their numbers.
pub(crate) fn desks_of<'p, I: Ids>(
    alloc: Global,
    plan: &Plan,
    seats: Vec<TaskSeat<'p, I>>,
) -> Result<Vec<TaskDesk<'p, I>>, Memory>
    requires many { length seats.items ≡ tasks_in_all plan.now }
    requires seats { AreSeats plan.now 0 seats.items }
    requires orderly { AreTasksOrderly plan.now 0 (map task_side seats.items) }
    ensures desks { IfOk result (λ desks. AllByRecursion (IsDesk plan.now) desks.items) }
    ensures same { IfOk result (λ desks. ZipFrom IsTaskAt 0 seats.entry.items desks.items) }
{
    let mut desks = Vec::new(alloc);
    let mut rest = VecDeque::from_vec(seats);
    for number in 0..plan.tasks() {
        let seat = rest.pop_front().unwrap();
        let desk = desk_of(alloc, plan, number, seat)?;
        desks.push(desk)?;
    }
    Ok(desks)
}

// The task of a desk comes to its seat.
fn seat_of<'p, I: Ids>(
    alloc: Global,
    plan: &Plan,
    desk: TaskDesk<'p, I>,
) -> Result<TaskSeat<'p, I>, Memory>
    requires { IsDesk plan.now desk }
    ensures seat { IfOk result (IsSeatOf plan.now desk.entry.number) }
    ensures orderly { IfOk result (λ seat.
        IsTaskOrderly plan.now desk.entry.number (task_side seat)) }
    ensures same { IfOk result (λ seat.
        IsTaskAt desk.entry.number seat desk.entry) }
{
    let _ = plan;
    let TaskDesk {
        number: _,
        task,
        inbox,
        outbox,
    } = desk;
    let parcels = outbox.into_parcels(alloc)?;
    Ok(TaskSeat {
        task,
        inbox,
        outbox: parcels,
    })
}

/// All tasks come to their seats.
pub(crate) fn seats_of<'p, I: Ids>(
    alloc: Global,
    plan: &Plan,
    desks: Vec<TaskDesk<'p, I>>,
) -> Result<Vec<TaskSeat<'p, I>>, Memory>
    requires desks { AllByRecursion (IsDesk plan.now) desks.items }
    requires numbered { map desk_number desks.items ≡ range_with_len 0 (length desks.items) }
    ensures seats { IfOk result (λ seats. AreSeats plan.now 0 seats.items) }
    ensures orderly { IfOk result (λ seats.
        AreTasksOrderly plan.now 0 (map task_side seats.items)) }
    ensures same { IfOk result (λ seats. ZipFrom IsTaskAt 0 seats.items desks.entry.items) }
{
    let mut seats = Vec::new(alloc);
    let mut rest = VecDeque::from_vec(desks);
    while let Some(desk) = rest.pop_front() {
        let seat = seat_of(alloc, plan, desk)?;
        seats.push(seat)?;
    }
    Ok(seats)
}
