// A plan of three bolts in a row, and the messages that tuples begin with.
ghost use Rattle.std.specs.Prelude.{◌≡◌, ◌<◌, ◌+◌, IfOk};
ghost use Rattle.box_rows.specs.Mails.{IsTrueMail};
ghost use Rattle.event_worlds.specs.Orderly.{IsForTask};
ghost use Rattle.event_worlds.specs.topology_plan.Topology.{tasks_in_all};

use box_rows::Mail;
use event_worlds::storm_values::{Few, Path, Root, row_from_line};
use event_worlds::topology_plan::{Origin, Plan};
use event_worlds::tree_model::{AckMsg, Done, Draw, Init, Parcel, Parcels, Tuple};
use event_worlds::tuple_tickets::{Edge, Edges};
use std::alloc::Global;
use test_kit::Mismatch;
use topology_reader::read_topology;

// The tasks 0 and 1 are the first bolt's, 2 to 4 the second's, 5 and 6 the third's, and 7 and 8 the
// parts of the state. With two ackers and the coordinator there are 12 boxes.
const CHAIN: &str = r#"{"version":1,
 "spout":{"name":"words","kind":"transactional","fields":["word"],"batch":100},
 "bolts":[
  {"name":"one","tasks":2,"op":{"do":"project","fields":["word"]},
   "inputs":[{"from":"words","grouping":"shuffle"}]},
  {"name":"two","tasks":3,"op":{"do":"project","fields":["word"]},
   "inputs":[{"from":"one","grouping":"shuffle"}]},
  {"name":"three","tasks":2,"op":{"do":"project","fields":["word"]},
   "inputs":[{"from":"two","grouping":"shuffle"}]}],
 "states":[{"name":"counts","kind":"transactional","parts":2,"key":["word"],
   "fold":"count","inputs":["three"]}],
 "ackers":2}"#;

/// The number of the first acker's box, and of the coordinator's.
pub const ACKERS_AT: usize = 9;

pub const LAST_BOX: usize = 11;

/// How many tuples come of one: it goes through three bolts to the state.
pub const LEVELS: u32 = 4;

pub fn wrong(alloc: Global, what: &str) -> Mismatch {
    match String::from_str(alloc, what) {
        Ok(text) => Mismatch::Case(text),
        Err(_) => Mismatch::Memory,
    }
}

pub fn chain(alloc: Global) -> Result<Plan, Mismatch> {
    match read_topology(alloc, CHAIN.as_bytes()) {
        Ok(plan) => Ok(plan),
        Err(_) => Err(wrong(alloc, "plan")),
    }
}

/// The root of the first tuple of a number.
pub fn root_of(number: u32) -> Root {
    Root {
        txid: u64::from(number),
        attempt: 1,
    }
}

/// The id of the first tuple of a number.
pub fn id_of(number: u32) -> u64 {
    u64::from(number).wrapping_add(1)
}

/// The first tuple of a number, for a task of the first bolt, at a path of one number.
pub fn first_tuple(
    alloc: Global,
    plan: &Plan,
    task: u32,
    number: u32,
    place: u32,
) -> Result<Tuple, Mismatch>
    requires { task < tasks_in_all plan.now }
    ensures { IfOk result (IsForTask plan.now task) }
{
    plan.facts();
    let component = plan.component_of(task);
    let Some(sub) = plan.subs(Origin::Spout).first() else {
        return Err(wrong(alloc, "subscription"));
    };
    if sub.to != component {
        return Err(wrong(alloc, "task"));
    }
    let Ok(row) = row_from_line(alloc, b"[\"w\"]", plan.spout_fields()) else {
        return Err(wrong(alloc, "row"));
    };
    Ok(Tuple {
        root: root_of(number),
        edge: Edge {
            path: Path::from_slice(alloc, &[place])?,
            id: id_of(number),
        },
        component,
        row,
    })
}

/// A run of one first tuple.
pub fn first_mail(
    alloc: Global,
    plan: &Plan,
    task: u32,
    number: u32,
    place: u32,
) -> Result<Mail, Mismatch>
    requires { task < tasks_in_all plan.now }
    ensures { IfOk result (IsTrueMail plan.now task) }
{
    let tuple = first_tuple(alloc, plan, task, number, place)?;
    let mut parcels = Parcels::new(alloc);
    parcels.push(Parcel::ToTask(task, tuple))?;
    Ok(Mail::Run(parcels))
}

// What the spout's ids are drawn from.
const DRAW: Draw = Draw {
    source: 9,
    first: 0,
};

// The edge of the first tuple of a number.
fn first_edge(alloc: Global, number: u32) -> Result<Edge, Mismatch> {
    Ok(Edge {
        path: Path::from_slice(alloc, &[0])?,
        id: id_of(number),
    })
}

// That the root of a number has begun.
fn init_of(alloc: Global, number: u32) -> Result<AckMsg, Mismatch> {
    let mut edges = Edges::new(alloc);
    edges.push(first_edge(alloc, number)?)?;
    Ok(AckMsg::Init(Init {
        root: root_of(number),
        edges,
        draw: DRAW,
    }))
}

// That the first tuple of a number was executed, and made none.
fn done_of(alloc: Global, number: u32) -> Result<AckMsg, Mismatch> {
    Ok(AckMsg::Done(Done {
        root: root_of(number),
        consumed: first_edge(alloc, number)?,
        produced: Edges::new(alloc),
        draw: DRAW,
        writes: Few::new(alloc),
    }))
}

// A run of one message for an acker.
fn acker_mail(alloc: Global, plan: &Plan, acker: u32, message: AckMsg) -> Result<Mail, Mismatch>
    requires { acker < plan.now.ackers }
    ensures { IfOk result (IsTrueMail plan.now (tasks_in_all plan.now + acker)) }
{
    plan.facts();
    let mut parcels = Parcels::new(alloc);
    parcels.push(Parcel::ToAcker(acker, message))?;
    Ok(Mail::Run(parcels))
}

/// A run that tells an acker that the root of a number has begun.
pub fn init_mail(alloc: Global, plan: &Plan, acker: u32, number: u32) -> Result<Mail, Mismatch>
    requires { acker < plan.now.ackers }
    ensures { IfOk result (IsTrueMail plan.now (tasks_in_all plan.now + acker)) }
{
    acker_mail(alloc, plan, acker, init_of(alloc, number)?)
}

/// A run that tells an acker that the first tuple of a number was executed, and made none.
pub fn done_mail(alloc: Global, plan: &Plan, acker: u32, number: u32) -> Result<Mail, Mismatch>
    requires { acker < plan.now.ackers }
    ensures { IfOk result (IsTrueMail plan.now (tasks_in_all plan.now + acker)) }
{
    acker_mail(alloc, plan, acker, done_of(alloc, number)?)
}
