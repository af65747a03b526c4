// What tasks make of the tuples that come to them.
ghost use Rattle.std.specs.Prelude.{◌≡◌, IsTrue, length};
ghost use Rattle.tree_model.specs.topology_plan.Wired.{width_to};

use crate::calls::{Sent, case_of, check_sent, ids_of, plan_of, row_of};
use bolt_task::BoltTask;
use sample_operations::Backwards;
use std::alloc::Global;
use storm_ids::ScriptSource;
use test_kit::Mismatch;
use tree_model::storm_values::{Path, Root};
use tree_model::topology_plan::{Origin, Plan};
use tree_model::{AckMsg, Done, Draw, Edge, FailNote, Parcel, Parcels, Tuple, Write};

// Components 0 to 2 are bolts behind the spout with a task each: `split`, one that fails and one
// that stays mute at the first attempt. Component 3 is a state with the tasks 3 and 4, and
// component 4, which is behind the spout too, one with the task 5.
const TASKS: &str = r#"{"version":1,
 "spout":{"name":"lines","kind":"transactional","fields":["line"],"batch":2},
 "bolts":[
  {"name":"split","tasks":1,"op":{"do":"split","field":"line","as":"word"},
   "inputs":[{"from":"lines","grouping":"shuffle"}]},
  {"name":"later","tasks":1,"op":{"do":"flaky","below":2},
   "inputs":[{"from":"lines","grouping":"shuffle"}]},
  {"name":"still","tasks":1,"op":{"do":"mute","below":2},
   "inputs":[{"from":"lines","grouping":"shuffle"}]}],
 "states":[
  {"name":"words","kind":"transactional","parts":2,"key":["word"],"fold":"count",
   "inputs":["split"]},
  {"name":"seen","kind":"transactional","parts":1,"key":["line"],"fold":"count",
   "inputs":["lines","later","still"]}],
 "ackers":4}"#;

// The acker of the root is 6 % 4.
const ROOT: Root = Root {
    txid: 6,
    attempt: 1,
};

const ACKER: u32 = 2;

const PATH: [u32; 1] = [3];

const ID: u64 = 90;

const LINE: &str = "[\"a a\"]";

// Whether a component takes rows of the spout.
fn takes_records(plan: &Plan, component: u32) -> bool
    ensures { IsTrue result → width_to plan.now component ≡ length plan.now.spout_fields }
{
    for sub in plan.subs(Origin::Spout) {
        if sub.to == component {
            return true;
        }
    }
    false
}

// A parcel that was left behind.
fn left_behind(alloc: Global) -> Result<Vec<Parcel>, Mismatch> {
    let note = FailNote {
        root: ROOT,
        path: Path::new(alloc),
    };
    let mut left = Parcels::new(alloc);
    left.push(Parcel::ToAcker(ACKER, AckMsg::Failed(note)))?;
    Ok(left.into_vec())
}

// Nothing comes of the parcel in the room that is handed in.
fn execute_in(
    alloc: Global,
    plan: &Plan,
    task: u32,
    ids: ScriptSource,
) -> Result<Parcels, Mismatch> {
    if task >= plan.tasks() {
        return Err(case_of(alloc, "task"));
    }
    let component = plan.component_of(task);
    if !takes_records(plan, component) {
        return Err(case_of(alloc, "component"));
    }
    let mut bolt = BoltTask::new(alloc, plan, task, ids)?;
    let tuple = Tuple {
        root: ROOT,
        edge: Edge {
            path: Path::from_slice(alloc, &PATH)?,
            id: ID,
        },
        component,
        row: row_of(alloc, LINE, plan.spout_fields())?,
    };
    Ok(bolt.execute(tuple, &Backwards, left_behind(alloc)?)?)
}

// What comes of a tuple at a task whose source of ids has these words.
fn executed(alloc: Global, task: u32, words: &[u64]) -> Result<Parcels, Mismatch> {
    let plan = plan_of(alloc, TASKS)?;
    let ids = ids_of(alloc, task, words)?;
    execute_in(alloc, &plan, task, ids)
}

// Whether the tuple is told as done, with so many edges and writes, and this draw.
fn is_done(done: &Done, edges: usize, draw: Draw, writes: usize) -> bool {
    let consumed = done.consumed.path.as_slice() == PATH.as_slice();
    let named = (done.consumed.id == ID) & (done.root == ROOT);
    let counted = (done.produced.len() == edges) & (done.writes.len() == writes);
    consumed & named & counted & (done.draw == draw)
}

fn done_in(parcel: &Parcel) -> Option<&Done> {
    match parcel {
        Parcel::ToAcker(acker, AckMsg::Done(done)) if *acker == ACKER => Some(done),
        _ => None,
    }
}

fn failure_in(parcel: &Parcel) -> Option<&FailNote> {
    match parcel {
        Parcel::ToAcker(acker, AckMsg::Failed(note)) if *acker == ACKER => Some(note),
        _ => None,
    }
}

// The word `a` has its key at the first part.
const WORDS: [Sent; 2] = [
    Sent {
        task: 3,
        component: 3,
        path: &[3, 0],
        id: 41,
        first: "[\"a\"]",
    },
    Sent {
        task: 3,
        component: 3,
        path: &[3, 1],
        id: 42,
        first: "[\"a\"]",
    },
];

#[test]
fn children_come_before_the_done_message(rt: HostRuntime) -> Result<(), Mismatch> {
    let alloc = rt.alloc();
    let parcels = executed(alloc, 0, &[7, 41, 42])?;
    let [first, second, last] = parcels.as_slice() else {
        return Err(case_of(alloc, "parcels"));
    };
    check_sent(alloc, first, &WORDS[0])?;
    check_sent(alloc, second, &WORDS[1])?;
    let Some(done) = done_in(last) else {
        return Err(case_of(alloc, "done"));
    };
    let draw = Draw {
        source: 0,
        first: 1,
    };
    assert!(rt; is_done(done, 2, draw, 0));
    Ok(())
}

#[test]
fn a_failure_is_told(rt: HostRuntime) -> Result<(), Mismatch> {
    let alloc = rt.alloc();
    let parcels = executed(alloc, 1, &[7])?;
    let [only] = parcels.as_slice() else {
        return Err(case_of(alloc, "parcels"));
    };
    let Some(note) = failure_in(only) else {
        return Err(case_of(alloc, "failure"));
    };
    let placed = note.path.as_slice() == PATH.as_slice();
    assert!(rt; placed & (note.root == ROOT));
    Ok(())
}

#[test]
fn a_mute_task_sends_nothing(rt: HostRuntime) -> Result<(), Mismatch> {
    let parcels = executed(rt.alloc(), 2, &[7])?;
    assert!(rt; parcels.is_empty());
    Ok(())
}

fn is_write(write: &Write) -> bool {
    let kept = (write.state == 4) & (write.part == 0) & (write.amount == 1);
    let keyed = write.key.as_str() == LINE;
    kept & keyed
}

#[test]
fn a_state_tells_its_write(rt: HostRuntime) -> Result<(), Mismatch> {
    let alloc = rt.alloc();
    let parcels = executed(alloc, 5, &[])?;
    let [only] = parcels.as_slice() else {
        return Err(case_of(alloc, "parcels"));
    };
    let Some(done) = done_in(only) else {
        return Err(case_of(alloc, "done"));
    };
    let draw = Draw {
        source: 5,
        first: 0,
    };
    assert!(rt; is_done(done, 0, draw, 1));
    let Some(write) = done.writes.as_slice().first() else {
        return Err(case_of(alloc, "write"));
    };
    assert!(rt; is_write(write));
    Ok(())
}
