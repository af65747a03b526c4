//! The seats of ackers as desks, and desks as seats.
ghost use Rattle.std.specs.Prelude.{◌≡◌, length, map, IfOk};
ghost use Rattle.std.specs.List.{AllByRecursion, range_with_len};
ghost use Rattle.event_engine.specs.Seats.{HasBuckets};
ghost use Rattle.worker_pool.specs.Ackers.{IsAcker};
ghost use Rattle.worker_stretches.specs.Places.{IsAckerAt, IsSilent, ZipFrom, office_number};

use crate::hands::Numbered;
use event_engine::AckerSeat;
use event_worlds::storm_values::Memory;
use event_worlds::topology_plan::Plan;
use std::alloc::Global;
use std::collections::VecDeque;
use worker_pool::AckerDesk;

impl Numbered for AckerDesk {
    ghost number_of = { λ d. d.number };

    fn number(&self) -> u32 {
        self.number
    }
}

// The acker of a number comes to a desk.
fn office_of(number: u32, seat: AckerSeat) -> AckerDesk
    ensures { IsAckerAt number seat result }
{
    let AckerSeat {
        acker,
        inbox,
        outbox,
        counted,
    } = seat;
    AckerDesk {
        number,
        acker,
        inbox,
        outbox,
        counted,
    }
}

/// All ackers come to desks, in the order of their numbers.
pub(crate) fn offices_of(
    alloc: Global,
    plan: &Plan,
    seats: Vec<AckerSeat>,
) -> Result<Vec<AckerDesk>, Memory>
    requires many { length seats.items ≡ plan.now.ackers }
    requires seats { AllByRecursion (HasBuckets plan.now.buckets) seats.items }
    ensures desks { IfOk result (λ desks. AllByRecursion (IsAcker plan.now) desks.items) }
    ensures same { IfOk result (λ desks. ZipFrom IsAckerAt 0 seats.items desks.items) }
{
    let mut desks = Vec::new(alloc);
    let mut rest = VecDeque::from_vec(seats);
    for number in 0..plan.ackers() {
        let seat = rest.pop_front().unwrap();
        desks.push(office_of(number, seat))?;
    }
    Ok(desks)
}

// The acker of a desk comes to its seat.
fn back_of(desk: AckerDesk) -> AckerSeat
    ensures same { IsAckerAt desk.number result desk }
    ensures silent { IsSilent result }
{
    let AckerDesk {
        number: _,
        acker,
        inbox,
        outbox,
        counted,
    } = desk;
    acker.tells_nothing();
    AckerSeat {
        acker,
        inbox,
        outbox,
        counted,
    }
}

/// All ackers come to their seats.
pub(crate) fn backs_of(
    alloc: Global,
    plan: &Plan,
    desks: Vec<AckerDesk>,
) -> Result<Vec<AckerSeat>, Memory>
    requires desks { AllByRecursion (IsAcker plan.now) desks.items }
    requires numbered { map office_number desks.items ≡ range_with_len 0 (length desks.items) }
    ensures seats { IfOk result (λ seats.
        AllByRecursion (HasBuckets plan.now.buckets) seats.items) }
    ensures silent { IfOk result (λ seats. AllByRecursion IsSilent seats.items) }
    ensures same { IfOk result (λ seats. ZipFrom IsAckerAt 0 seats.items desks.items) }
{
    let _ = plan;
    let mut seats = Vec::new(alloc);
    let mut rest = VecDeque::from_vec(desks);
    while let Some(desk) = rest.pop_front() {
        seats.push(back_of(desk))?;
    }
    Ok(seats)
}
