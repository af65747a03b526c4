ghost use Rattle.std.specs.Prelude.{◌≡◌, ◌≤◌, ◌+◌, ◌%◌, ◌^◌, IfOk, IfErr};
ghost use Rattle.std.specs.List.{AllByRecursion};
ghost use Rattle.schedule_reader.specs.Events.{FitsEvent};
ghost use Rattle.storm_answers.specs.Outside.{shelf_use};
ghost use Rattle.storm_answers.specs.Schedules.{AreEvents};
ghost use Rattle.storm_answers.specs.steps.Reading.{ScheduleComes};
ghost use Rattle.storm_answers.specs.steps.Stops.{Stops};

use crate::early_end::{EarlyEnd, refused_schedule};
use crate::files::read_file;
use event_worlds::topology_plan::Plan;
use schedule_reader::{
    Events, MOST_SCHEDULE_BYTES, one_byte_past_the_limit_suffices, read_schedule,
};
use std::alloc::Global;
use storm_outside::Shelf;

/// The most bytes of a schedule.
const MOST_SCHEDULE: u64 = MOST_SCHEDULE_BYTES as u64;

/// Reads the schedule over a plan, or refuses it.
pub fn read_events<H: Shelf>(
    alloc: Global,
    name: &str,
    plan: &Plan,
    shelf: &mut H,
) -> Result<Events, EarlyEnd>
    ensures events { IfOk result (AreEvents (H.holds shelf.old) plan.now name.now) }
    ensures fit { IfOk result (AllByRecursion (FitsEvent plan.now)) }
    ensures stop { IfErr result (Stops (ScheduleComes
        (shelf_use H.holds H.ready H.fetches H.faults shelf.old shelf.new) plan.now name.now)) }
    ensures fetches { H.fetches shelf.new ≡ (H.fetches shelf.old + 1) % 2 ^ 64 }
    ensures never_falls { H.faults shelf.old ≤ H.faults shelf.new }
{
    // a law: the first bytes say what the whole says
    one_byte_past_the_limit_suffices();
    let bytes = read_file(alloc, name, MOST_SCHEDULE, "read fault schedule\n", shelf)?;
    match read_schedule(alloc, bytes.as_slice(), plan) {
        Ok(events) => Ok(events),
        Err(fault) => Err(refused_schedule(alloc, &fault)),
    }
}
