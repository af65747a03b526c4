ghost use Rattle.std.specs.Prelude.{◌≡◌, ◌≢◌, ℕ, ◌+◌, ◌<◌, ◌^◌, List, length, take, Some, None, IfOk, IfErr};
ghost use Rattle.std.specs.List.{AllByRecursion};
ghost use Rattle.topology_plan.specs.Topology.{Topology};
ghost use Rattle.schedule_reader.specs.Events.{FitsEvent};
ghost use Rattle.schedule_reader.specs.Limits.{most_schedule_bytes};
ghost use Rattle.schedule_reader.specs.Schedules.{event_of, step_fault, schedule_fault, events_of};

use crate::event::{Event, Events, event_from_line};
use crate::fault::ScheduleFault;
use crate::limits::MOST_SCHEDULE_BYTES;
use std::alloc::Global;
use storm_values::{Seq, split_line};
use topology_plan::Plan;

/// The events of a schedule over a plan, in time linear in its length.
pub fn read_schedule(alloc: Global, bytes: &[u8], plan: &Plan) -> Result<Events, ScheduleFault>
    ensures good { IfOk result (λ events. (schedule_fault bytes.now plan.now ≡ None)
        × (events ≡ events_of bytes.now)) }
    ensures fits { IfOk result (AllByRecursion (FitsEvent plan.now)) }
    ensures few { IfOk result (λ events. length events < 2 ^ 32) }
    ensures fault { IfErr result (λ fault. fault ≢ ScheduleFault.Memory
        → schedule_fault bytes.now plan.now ≡ Some fault) }
{
    if bytes.len() > MOST_SCHEDULE_BYTES {
        return Err(ScheduleFault::TooLong);
    }
    let mut events = Seq::new(alloc);
    let mut rest = bytes;
    while !rest.is_empty() {
        let (line, after) = split_line(rest);
        let event = read_step(line, events.len() as u64 + 1, plan)?;
        events.push(event)?;
        rest = after;
    }
    Ok(events)
}

/// The event of the line with this number.
fn read_step(line: &[u8], number: u64, plan: &Plan) -> Result<Event, ScheduleFault>
    ensures good { IfOk result (λ event. event_of line.now ≡ Some event) }
    ensures fits { IfOk result (FitsEvent plan.now) }
    ensures no_fault { IfOk result
        (λ event. step_fault plan.now number (event_of line.now) ≡ None) }
    ensures fault { IfErr result
        (λ fault. step_fault plan.now number (event_of line.now) ≡ Some fault) }
{
    let Some(event) = event_from_line(line) else {
        return Err(ScheduleFault::Line(number));
    };
    let there = match event {
        Event::Task(task) => task < plan.tasks(),
        Event::Acker(acker) => acker < plan.ackers(),
        Event::Shut(partition) | Event::Open(partition) => partition < plan.partitions(),
        Event::Coord | Event::Tick | Event::Rounds(_) => true,
    };
    if there {
        Ok(event)
    } else {
        Err(ScheduleFault::NoTask(number))
    }
}

/// A law: the first byte past the limit tells as much of a schedule as all that follow it.
pub fn one_byte_past_the_limit_suffices()
    ensures fault { (bytes : List ℕ) (t : Topology)
        → schedule_fault (take (most_schedule_bytes + 1) bytes) t ≡ schedule_fault bytes t }
    ensures events { (bytes : List ℕ) (t : Topology) → schedule_fault bytes t ≡ None
        → events_of (take (most_schedule_bytes + 1) bytes) ≡ events_of bytes }
{}
