//! Executing the tuples of a depth, in several threads.
ghost use Rattle.std.specs.Prelude.{◌≡◌, ◌<◌, All, IfOk};
ghost use Rattle.std.specs.List.{AllZip};
ghost use Rattle.tree_model.specs.declared.messages.Tuple.{Tuple};
ghost use Rattle.window_account.specs.Calls.{IsFit};
ghost use Rattle.track_window.specs.Jobs.{IsFound, IsExecuted};

use crate::job::{Found, Job};
use std::alloc::Global;
use std::thread;
use std::thread::Threads;
use tree_model::bolt_ops::{Outcome, RowOp, exec};
use tree_model::storm_values::Memory;
use tree_model::topology_plan::{Body, Plan};
use tree_model::{Tuple, write_at};

/// Executes each tuple, in so many threads at most.
pub(crate) fn execute_all<R: Threads + Sync, O: RowOp>(
    rt: &R,
    alloc: Global,
    plan: &Plan,
    custom: &O,
    jobs: &mut [Job],
    threads: usize,
)
    requires threads { 0 < threads }
    requires fit { All (λ j. IsFit plan.now j.tuple) jobs.old }
    ensures { AllZip (IsExecuted plan.now (O.meaning custom.now)) jobs.old jobs.new }
{
    thread::for_each_mut(
        rt,
        jobs,
        threads,
        &|_, job|
            requires { IsFit plan.now job.old.tuple }
        { execute(alloc, plan, custom, job) },
    );
}

/// Executes a tuple.
fn execute<O: RowOp>(alloc: Global, plan: &Plan, custom: &O, job: &mut Job)
    requires { IsFit plan.now job.old.tuple }
    ensures { IsExecuted plan.now (O.meaning custom.now) job.old job.new }
{
    job.found = match attempt(alloc, plan, custom, &job.tuple) {
        Ok(found) => found,
        Err(_) => Found::NoMemory,
    };
}

/// What an attempt at a tuple comes to.
fn attempt<O: RowOp>(alloc: Global, plan: &Plan, custom: &O, tuple: &Tuple) -> Result<Found, Memory>
    requires { IsFit plan.now tuple.now }
    ensures { IfOk result (IsFound plan.now (O.meaning custom.now) tuple.now) }
{
    let at = plan.component(tuple.component);
    match &at.body {
        Body::Bolt(op) => {
            match exec(alloc, op, &tuple.row, tuple.root.attempt, custom)? {
                Outcome::Rows(rows) => Ok(Found::Rows(rows)),
                Outcome::Fail => Ok(Found::Failed),
                Outcome::Mute => Ok(Found::Mute),
            }
        }
        Body::State(spec) => {
            let mut room = String::new(alloc);
            let (component, row) = (tuple.component, &tuple.row);
            Ok(Found::Wrote(write_at(alloc, &mut room, component, at.tasks, spec, row)?))
        }
    }
}
