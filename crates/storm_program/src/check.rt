ghost use Rattle.std.specs.Prelude.{◌≡◌, ◌≤◌, IfOk, IfErr, string_bytes};
ghost use Rattle.storm_program.specs.Check.{CheckComes, size_line, valid_line};
ghost use Rattle.storm_resume.specs.storm_answers.declared.status.Status.{Status};
ghost use Rattle.storm_resume.specs.storm_answers.Outside.{shelf_use};
ghost use Rattle.storm_resume.specs.storm_answers.steps.Stops.{Stops};

use event_worlds::storm_values::Memory;
use event_worlds::topology_plan::Plan;
use std::alloc::Global;
use std::fmt::Write;
use storm_outside::Shelf;
use storm_resume::storm_answers::{EarlyEnd, read_plan};

/// Reads a topology, and tells the size of its plan.
pub fn check_file<H: Shelf>(
    alloc: Global,
    topology: &str,
    shelf: &mut H,
) -> Result<String, EarlyEnd>
    ensures done { IfOk result (λ text. CheckComes
        (shelf_use H.holds H.ready H.fetches H.faults shelf.old shelf.new) topology.now
        Status.Done (string_bytes text)) }
    ensures stop { IfErr result (Stops (CheckComes
        (shelf_use H.holds H.ready H.fetches H.faults shelf.old shelf.new) topology.now)) }
    ensures never_falls { H.faults shelf.old ≤ H.faults shelf.new }
{
    let plan = read_plan(alloc, topology, shelf)?;
    let line = size_of(alloc, &plan)?;
    Ok(line)
}

/// The line of a valid plan.
fn size_of(alloc: Global, plan: &Plan) -> Result<String, Memory>
    ensures { IfOk result (λ line. string_bytes line ≡ valid_line plan.now) }
{
    size_line(
        alloc,
        plan.components(),
        plan.tasks(),
        plan.weight(),
        plan.depth(),
    )
}

#[tactic(auto, unfolding(crate::specs::Check::size_line))]
fn size_line(
    alloc: Global,
    components: u32,
    tasks: u32,
    weight: u64,
    depth: u32,
) -> Result<String, Memory>
    ensures { IfOk result (λ text. string_bytes text ≡ size_line components tasks weight depth) }
{
    let mut text = String::new(alloc);
    write!(text, "valid components {components} tasks {tasks}")?;
    writeln!(text, " weight {weight} depth {depth}")?;
    Ok(text)
}
