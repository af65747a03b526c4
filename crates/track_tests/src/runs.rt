// Windows of the records of a text, and what they came to as numbers and texts.
ghost use Rattle.std.specs.Prelude.{◌≤◌, length, IfOk, All};
ghost use Rattle.tree_model.specs.storm_values.Rows.{IsRow};

use message_lists::Notes;
use sample_operations::Backwards;
use shared_ledger::SharedLedger;
use std::alloc::Global;
use std::thread::Threads;
use storm_ids::{IdMaker, Ids, ScriptIds, ScriptSource};
use test_kit::Mismatch;
use topology_reader::read_topology;
use track_window::{Window, track_window};
use tree_model::AckMsg;
use tree_model::storm_values::{Rows, read_input};
use tree_model::topology_plan::Plan;
use tree_model::tuple_tickets::Edge;

/// Each id is 0.
#[derive(Clone, Copy, Drop)]
pub struct Zeros;

impl Ids for Zeros {
    ghost tells = { λ _ _ _. ⊥ };

    fn next(&mut self) -> u64 {
        0
    }
}

/// The words that are counted on from 1, so that those of two edges XOR to that of a third.
pub fn script(alloc: Global) -> Result<ScriptSource, Mismatch> {
    let mut maker = ScriptIds::new(alloc);
    Ok(maker.make(0)?)
}

/// What tells one window from another, and what each came to.
#[derive(Clone, Copy, Drop)]
pub struct Case<'c> {
    pub topology: &'c str,
    pub records: &'c str,
    pub attempt: u32,
}

/// What a window came to: how many are acked, the messages and their edges as one number, and the
/// counts of all keys, in order.
#[derive(Debug, PartialEq, Drop)]
pub struct Came {
    pub acked: u32,
    pub messages: u64,
    pub counts: String,
}

fn case_of(alloc: Global, of: &str) -> Mismatch {
    match String::from_str(alloc, of) {
        Ok(text) => Mismatch::Case(text),
        Err(_) => Mismatch::Memory,
    }
}

fn plan_of(alloc: Global, file: &str) -> Result<Plan, Mismatch> {
    match read_topology(alloc, file.as_bytes()) {
        Ok(plan) => Ok(plan),
        Err(_) => Err(case_of(alloc, file)),
    }
}

/// What a window of the case comes to, with so many workers.
pub fn run_window<R: Threads + Sync, N: Ids>(
    rt: &R,
    alloc: Global,
    case: &Case<'_>,
    workers: u32,
    ids: &mut N,
) -> Result<Came, Mismatch>
    requires least { 1 ≤ workers }
    requires most { workers ≤ 64 }
{
    let plan = plan_of(alloc, case.topology)?;
    let Ok(rows) = read_input(alloc, case.records.as_bytes(), plan.spout_fields()) else {
        return Err(case_of(alloc, case.records));
    };
    let count = rows.len();
    if count < 1 || count > 1024 {
        return Err(case_of(alloc, "from 1 to 1024 records"));
    }
    let (ledger, mut seat) = SharedLedger::new(alloc, count as u32)?;
    let window = track_window(
        rt,
        alloc,
        &plan,
        rows.as_slice(),
        case.attempt,
        workers,
        &ledger,
        &mut seat,
        ids,
        &Backwards,
    )?;
    counted(alloc, window)
}

fn counted(alloc: Global, window: Window) -> Result<Came, Mismatch> {
    let mut acked = 0u32;
    for is_acked in window.acked.as_slice() {
        acked = acked.wrapping_add(u32::from(*is_acked));
    }
    let mut messages = 0u64;
    for list in window.notes.as_slice() {
        messages = with_messages(alloc, messages, list)?;
    }
    let mut counts = String::new(alloc);
    for state in window.tallies.sorted(alloc)?.as_slice() {
        for count in state.as_slice() {
            counts.push_str(count.key.as_str())?;
            counts.push_str(&format!(in alloc; " {}\n", count.count)?)?;
        }
    }
    Ok(Came {
        acked,
        messages,
        counts,
    })
}

fn with_messages(alloc: Global, so_far: u64, list: &Notes) -> Result<u64, Mismatch> {
    let mut sum = mixed(so_far, list.len() as u64);
    for message in list.to_messages(alloc)?.as_slice() {
        sum = with_message(sum, message);
    }
    Ok(sum)
}

fn with_message(so_far: u64, message: &AckMsg) -> u64 {
    match message {
        AckMsg::Init(init) => with_edges(
            mixed(mixed(mixed(so_far, 1), init.root.txid), init.draw.first),
            init.edges.as_slice(),
        ),
        AckMsg::Done(done) => {
            let sum = mixed(mixed(mixed(so_far, 2), done.root.txid), done.draw.first);
            with_edges(with_edge(sum, &done.consumed), done.produced.as_slice())
        }
        AckMsg::Failed(note) => {
            let sum = mixed(mixed(so_far, 3), note.root.txid);
            with_path(sum, note.path.as_slice())
        }
    }
}

fn with_edges(so_far: u64, edges: &[Edge]) -> u64 {
    let mut sum = mixed(so_far, edges.len() as u64);
    for edge in edges {
        sum = with_edge(sum, edge);
    }
    sum
}

fn with_edge(so_far: u64, edge: &Edge) -> u64 {
    with_path(mixed(so_far, edge.id), edge.path.as_slice())
}

fn with_path(so_far: u64, path: &[u32]) -> u64 {
    let mut sum = mixed(so_far, path.len() as u64);
    for number in path {
        sum = mixed(sum, u64::from(*number));
    }
    sum
}

// One number more, in order.
fn mixed(so_far: u64, number: u64) -> u64 {
    so_far
        .wrapping_mul(1_099_511_628_211)
        .wrapping_add(number)
        .rotate_left(7)
}
