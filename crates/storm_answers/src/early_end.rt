ghost use Rattle.std.specs.Prelude.{◌≡◌, ◌≢◌, IfOk, string_bytes};
ghost use Rattle.storm_answers.specs.Texts.{topology_line, input_line, schedule_line};
ghost use Rattle.storm_answers.specs.steps.Stops.{IfTold};

use crate::status::Status;
use event_worlds::storm_values::{InputFault, Memory};
use schedule_reader::ScheduleFault;
use std::alloc::Global;
use topology_reader::TopoFault;

/// Why a command ends before its work is done.
#[derive(Drop)]
pub enum EarlyEnd {
    Memory,
    /// A status with its line.
    Told(Status, String),
}

impl From<Memory> for EarlyEnd {
    ghost use Rattle.std.specs.Prelude.{◌≡◌};
    ghost use Rattle.storm_answers.specs.declared.early_end.EarlyEnd.TheVariants as stop;

    ghost from_gives = { λ _ made. made ≡ stop.Memory };

    fn from(_: Memory) -> Self {
        EarlyEnd::Memory
    }
}

/// A status with its line.
pub fn told(alloc: Global, status: Status, line: &str) -> EarlyEnd
    ensures { IfTold result (λ ending text. (ending ≡ status) × (text ≡ line.now)) }
{
    match String::from_str(alloc, line) {
        Ok(line) => EarlyEnd::Told(status, line),
        Err(_) => EarlyEnd::Memory,
    }
}

/// The refusal of a topology.
pub fn refused_topology(alloc: Global, fault: &TopoFault) -> EarlyEnd
    ensures { IfTold result (λ ending text.
        (fault.now ≢ TopoFault.Memory)
        × (ending ≡ Status.Topology) × (text ≡ topology_line fault.now)) }
{
    if matches!(fault, TopoFault::Memory) {
        return EarlyEnd::Memory;
    }
    match topology_line(alloc, fault) {
        Ok(line) => EarlyEnd::Told(Status::Topology, line),
        Err(_) => EarlyEnd::Memory,
    }
}

fn topology_line(alloc: Global, fault: &TopoFault) -> Result<String, Memory>
    ensures { IfOk result (λ line. string_bytes line ≡ topology_line fault.now) }
{
    let told = fault.text(alloc)?;
    format!(in alloc; "topology: {told}\n")
}

/// The refusal of an input.
pub fn refused_input(alloc: Global, fault: &InputFault) -> EarlyEnd
    ensures { IfTold result (λ ending text.
        (fault.now ≢ InputFault.Memory) × (ending ≡ Status.Input) × (text ≡ input_line fault.now)) }
{
    if matches!(fault, InputFault::Memory) {
        return EarlyEnd::Memory;
    }
    match input_line(alloc, fault) {
        Ok(line) => EarlyEnd::Told(Status::Input, line),
        Err(_) => EarlyEnd::Memory,
    }
}

fn input_line(alloc: Global, fault: &InputFault) -> Result<String, Memory>
    ensures { IfOk result (λ line. string_bytes line ≡ input_line fault.now) }
{
    format!(in alloc; "input: {fault}\n")
}

/// The refusal of a schedule.
pub fn refused_schedule(alloc: Global, fault: &ScheduleFault) -> EarlyEnd
    ensures { IfTold result (λ ending text.
        (fault.now ≢ ScheduleFault.Memory)
        × (ending ≡ Status.Schedule) × (text ≡ schedule_line fault.now)) }
{
    if matches!(fault, ScheduleFault::Memory) {
        return EarlyEnd::Memory;
    }
    match schedule_line(alloc, fault) {
        Ok(line) => EarlyEnd::Told(Status::Schedule, line),
        Err(_) => EarlyEnd::Memory,
    }
}

fn schedule_line(alloc: Global, fault: &ScheduleFault) -> Result<String, Memory>
    ensures { IfOk result (λ line. string_bytes line ≡ schedule_line fault.now) }
{
    format!(in alloc; "schedule: {fault}\n")
}
