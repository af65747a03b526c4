//! Bolts that can be reached from themselves, and states that an opaque spout does not allow.

ghost use Rattle.std.specs.Prelude.{◌≡◌, ◌≤◌, ◌<◌, ℕ, length, map, slice_index, IfOk};
ghost use Rattle.topology_reader.specs.Prelude.{Checks, list_any, most_bolts};
ghost use Rattle.topology_reader.specs.FirstFault.{cycle_fault, keeps_exact, replay_fault};
ghost use Rattle.topology_reader.specs.Steps.{has, led, AreReached};
ghost use Rattle.topology_reader.specs.Wiring.{is_component, sources_among};

use crate::wiring::Sources;
use std::alloc::Global;
use storm_values::Memory;
use topology_form::{BodyPart, FileParts, Input, TopoFault};
use topology_plan::{Kind, Origin};

pub(crate) fn check_cycles(sources: &Sources<'_>) -> Result<(), TopoFault>
    requires few { length sources.now.bolts ≤ most_bolts }
    ensures { Checks result (cycle_fault sources.now) }
{
    let sets = reach_sets(sources)?;
    for (c, set) in sets.iter().enumerate() {
        if has(*set, c) {
            return Err(TopoFault::Cycle(sources.component(c).name.copy()?));
        }
    }
    Ok(())
}

/// For each bolt the set of the bolts from which it can be reached. After the look-up of each input
/// it takes as many steps as the square of the number of bolts.
fn reach_sets(sources: &Sources<'_>) -> Result<Vec<u64>, Memory>
    requires few { length sources.now.bolts ≤ most_bolts }
    ensures { IfOk result (λ sets. AreReached (length sources.now.bolts) sources.now sets.items) }
{
    let mut sets = direct_sources(sources)?;
    for n in 0..sets.len() {
        sets = led_through(sources.alloc(), sets.as_slice(), n)?;
    }
    Ok(sets)
}

/// The sets, where paths may go through bolt n too.
fn led_through(alloc: Global, sets: &[u64], n: usize) -> Result<Vec<u64>, Memory>
    requires within { n < length sets.now }
    requires few { length sets.now ≤ 64 }
    ensures { IfOk result
        (λ made. made.items ≡ map (led n (slice_index sets.now n)) sets.now) }
{
    let through = sets[n];
    sets.iter()
        .map(|set| if has(*set, n) { *set | through } else { *set })
        .collect(alloc)
}

/// For each bolt the set of the bolts that feed it.
fn direct_sources(sources: &Sources<'_>) -> Result<Vec<u64>, Memory>
    requires few { length sources.now.bolts ≤ most_bolts }
    ensures { IfOk result (λ sets. AreReached 0 sources.now sets.items) }
{
    let bolts = sources.parts().bolts.len();
    let mut sets = Vec::with_capacity(sources.alloc(), bolts)?;
    for c in 0..bolts {
        let inputs = sources.component(c).inputs.as_slice();
        sets.push(bolt_sources(sources, inputs))?;
    }
    Ok(sets)
}

fn bolt_sources(sources: &Sources<'_>, inputs: &[Input]) -> u64
    requires few { length sources.now.bolts ≤ most_bolts }
    ensures { (a : ℕ)
        → has result a ≡ list_any (is_component a) (sources_among sources.now inputs.now) }
{
    let mut set = 0;
    for input in inputs {
        set |= match sources.source_of(&input.from) {
            Some(Origin::Component(a)) => 1 << a,
            Some(Origin::Spout) => 0,
            None => 0,
        };
    }
    set
}

fn has(set: u64, a: usize) -> bool
    requires { a < 64 }
    ensures { result ≡ has set a }
{
    (set >> a) & 1 == 1
}

/// That an opaque spout has no transactional state, which it would not keep exact.
pub(crate) fn check_replays(parts: &FileParts) -> Result<(), TopoFault>
    ensures { Checks result (replay_fault parts.now parts.now.spout.kind) }
{
    match parts.spout.kind {
        Kind::Transactional => Ok(()),
        Kind::Opaque => {
            for state in parts.states.as_slice() {
                if keeps_exact(&state.body) {
                    return Err(TopoFault::NotExactlyOnce(state.name.copy()?));
                }
            }
            Ok(())
        }
    }
}

fn keeps_exact(body: &BodyPart) -> bool
    ensures { result ≡ keeps_exact body.now }
{
    match body {
        BodyPart::State(state) => matches!(state.kind, Kind::Transactional),
        BodyPart::Bolt(_) => false,
    }
}
