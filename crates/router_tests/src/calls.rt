// Calls of the router of a source in a file's plan.
ghost use Rattle.std.specs.Prelude.{◌≡◌, length, IfOk};

use groupings::{Router, Targets};
use std::alloc::Global;
use storm_values::{Row, row_from_line};
use test_kit::Mismatch;
use topology_plan::Origin;
use topology_reader::read_topology;

// A call: the number of the subscription, the row as a line of an input, and where the row goes.
pub type Call = (u32, &'static str, Targets);

// How many values a row has in these tests.
const WIDTH: u32 = 2;

fn case_of(alloc: Global, of: &str) -> Mismatch {
    match String::from_str(alloc, of) {
        Ok(text) => Mismatch::Case(text),
        Err(_) => Mismatch::Memory,
    }
}

pub fn row_of(alloc: Global, line: &str) -> Result<Row, Mismatch> {
    match row_from_line(alloc, line.as_bytes(), WIDTH) {
        Ok(row) => Ok(row),
        Err(_) => Err(case_of(alloc, line)),
    }
}

// The router of a source of a file's plan, which has as many subscriptions as there are start
// words.
pub fn router_of(
    alloc: Global,
    file: &str,
    from: Origin,
    starts: &[u64],
) -> Result<Router, Mismatch>
    ensures { IfOk result (λ router. length router ≡ length starts.now) }
{
    let Ok(plan) = read_topology(alloc, file.as_bytes()) else {
        return Err(case_of(alloc, file));
    };
    if plan.subs(from).len() != starts.len() {
        return Err(case_of(alloc, file));
    }
    Ok(Router::new(alloc, &plan, from, starts)?)
}

fn check_call(alloc: Global, router: &mut Router, call: &Call) -> Result<(), Mismatch> {
    let (sub, line, want) = *call;
    let row = row_of(alloc, line)?;
    if sub as usize >= router.subs_len() {
        return Err(case_of(alloc, line));
    }
    if router.route(sub, &row) == want {
        Ok(())
    } else {
        Err(case_of(alloc, line))
    }
}

// Makes the router of a source, and compares where calls in turn go with where they are to go.
pub fn check_calls(
    alloc: Global,
    file: &str,
    from: Origin,
    starts: &[u64],
    calls: &[Call],
) -> Result<(), Mismatch> {
    let mut router = router_of(alloc, file, from, starts)?;
    for call in calls {
        check_call(alloc, &mut router, call)?;
    }
    Ok(())
}
