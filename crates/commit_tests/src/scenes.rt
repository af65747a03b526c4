// What a coordinator is told, call by call, and what it is to answer.
ghost use Rattle.commit_order.specs.Orders.{StaysOwn};
ghost use Rattle.std.specs.Prelude.{IfOk, All};
ghost use Rattle.commit_order.specs.storm_values.Rows.{IsRow};

use commit_order::acker_core::Verdict;
use commit_order::message_lists::Notes;
use commit_order::record_offers::possible;
use commit_order::record_spans::{Span, Spans};
use commit_order::state_parts::CommitOutcome;
use commit_order::storm_ids::{IdMaker, ScriptIds, ScriptSource};
use commit_order::storm_values::{Few, Path, Root, Rows, Seq, row_from_line};
use commit_order::topology_plan::Plan;
use commit_order::tree_model::{AckMsg, Done, Draw, Init, Parcel, Parcels};
use commit_order::tuple_tickets::{Edge, Edges};
use commit_order::{Attempt, Coordinator, End, Fates, Offers, Orders, Stop};
use std::alloc::Global;
use test_kit::Mismatch;
use topology_reader::read_topology;

/// The verdict of a turn: none, or that of a root, with a list that is closed or that leaves an
/// edge open, or its failure.
#[derive(Clone, Copy)]
pub enum Told {
    Nothing,
    Closed(Root),
    Open(Root),
    Fails(Root),
}

/// A call: a turn with a verdict and ticks, a turn with neither while some partitions are shut, or
/// the outcome of a commit.
#[derive(Clone, Copy)]
pub enum Call {
    Turn(Told, u32),
    Shut(u16),
    Done,
    CommitFails,
}

#[derive(Clone, Copy, Debug, PartialEq, Eq)]
pub enum How {
    Committed,
    Failed,
    TimedOut,
    Coincided,
    CommitFailed,
    Dropped(Root),
}

/// An attempt that ended, with its records and the ticks of its begin and its end.
#[derive(Clone, Copy)]
pub struct Ended {
    pub root: Root,
    pub records: &'static [Span],
    pub start: u64,
    pub finish: u64,
    pub how: How,
}

/// What a coordinator starts with: so many records, in so many partitions or in none, the last
/// transaction of an earlier run, and the records that it committed.
#[derive(Clone, Copy)]
pub struct Start {
    pub records: usize,
    pub partitions: u32,
    pub txid: u64,
    pub gone: &'static [Span],
}

/// A call, and what it is to answer: the roots that begin, the commit that is ordered, the attempts
/// that end, and the transaction at which the coordinator stops.
#[derive(Clone, Copy)]
pub struct Step {
    pub call: Call,
    pub begun: &'static [Root],
    pub commit: Option<Root>,
    pub ended: &'static [Ended],
    pub stop: Option<u64>,
}

fn case_of(alloc: Global, of: &str) -> Mismatch {
    match String::from_str(alloc, of) {
        Ok(text) => Mismatch::Case(text),
        Err(_) => Mismatch::Memory,
    }
}

fn plan_of(alloc: Global, file: &str) -> Result<Plan, Mismatch> {
    match read_topology(alloc, file.as_bytes()) {
        Ok(plan) => Ok(plan),
        Err(_) => Err(case_of(alloc, file)),
    }
}

// So many records of one text.
fn records(alloc: Global, count: usize) -> Result<Rows, Mismatch> {
    let mut rows = Rows::new(alloc);
    for _ in 0..count {
        match row_from_line(alloc, b"[\"x\"]", 1) {
            Ok(row) => rows.push(row)?,
            Err(_) => return Err(case_of(alloc, "record")),
        }
    }
    Ok(rows)
}

fn spans_of(alloc: Global, of: &[Span]) -> Result<Spans, Mismatch> {
    let mut spans = Spans::new(alloc);
    for span in of {
        spans.push(*span)?;
    }
    Ok(spans)
}

// What a plan's spout offers, where an earlier run may have left such a start.
fn offers_of(alloc: Global, plan: &Plan, start: &Start) -> Result<Offers, Mismatch> {
    plan.facts();
    let rows = records(alloc, start.records)?;
    if start.partitions > 16 {
        return Err(case_of(alloc, "partitions"));
    }
    if start.txid == 0 {
        return Ok(Offers::new(rows, plan.batch(), start.partitions)?);
    }
    let gone = spans_of(alloc, start.gone)?;
    if !possible(
        plan.batch(),
        start.partitions,
        rows.len() as u64,
        start.txid,
        gone.as_slice(),
    ) {
        return Err(case_of(alloc, "start"));
    }
    Ok(Offers::after(rows, plan.batch(), start.partitions, start.txid, &gone)?)
}

// ---- verdicts

fn edge_of(alloc: Global) -> Result<Edge, Mismatch> {
    Ok(Edge {
        path: Path::from_slice(alloc, &[0])?,
        id: 7,
    })
}

fn edges_of(alloc: Global) -> Result<Edges, Mismatch> {
    let mut edges = Edges::new(alloc);
    edges.push(edge_of(alloc)?)?;
    Ok(edges)
}

const DRAW: Draw = Draw {
    source: 1,
    first: 1,
};

fn init_of(alloc: Global, root: Root) -> Result<AckMsg, Mismatch> {
    Ok(AckMsg::Init(Init {
        root,
        edges: edges_of(alloc)?,
        draw: DRAW,
    }))
}

fn done_of(alloc: Global, root: Root) -> Result<AckMsg, Mismatch> {
    Ok(AckMsg::Done(Done {
        root,
        consumed: edge_of(alloc)?,
        produced: Edges::new(alloc),
        draw: DRAW,
        writes: Few::new(alloc),
    }))
}

fn open_list(alloc: Global, root: Root) -> Result<Notes, Mismatch> {
    let mut list = Notes::new(alloc);
    list.push(init_of(alloc, root)?)?;
    Ok(list)
}

fn closed_list(alloc: Global, root: Root) -> Result<Notes, Mismatch> {
    let mut list = open_list(alloc, root)?;
    list.push(done_of(alloc, root)?)?;
    Ok(list)
}

fn verdict_of(alloc: Global, told: Told) -> Result<Option<Verdict>, Mismatch> {
    match told {
        Told::Nothing => Ok(None),
        Told::Closed(root) => Ok(Some(Verdict::Complete {
            root,
            list: closed_list(alloc, root)?,
        })),
        Told::Open(root) => Ok(Some(Verdict::Complete {
            root,
            list: open_list(alloc, root)?,
        })),
        Told::Fails(root) => Ok(Some(Verdict::Fails {
            root,
            path: Path::from_slice(alloc, &[0])?,
        })),
    }
}

// ---- answers

fn root_begun(parcel: &Parcel) -> Option<Root> {
    match parcel {
        Parcel::ToAcker(_, AckMsg::Init(init)) => Some(init.root),
        _ => None,
    }
}

// The roots that begin, by their inits.
fn roots_begun(alloc: Global, parcels: &Parcels) -> Result<Seq<Root>, Mismatch> {
    let mut roots = Seq::new(alloc);
    for parcel in parcels.as_slice() {
        if let Some(root) = root_begun(parcel) {
            roots.push(root)?;
        }
    }
    Ok(roots)
}

fn how_of(end: &End) -> How {
    match end {
        End::Committed(_) => How::Committed,
        End::Failed(_) => How::Failed,
        End::TimedOut => How::TimedOut,
        End::Coincided(_) => How::Coincided,
        End::CommitFailed { .. } => How::CommitFailed,
        End::Dropped(by) => How::Dropped(*by),
    }
}

fn is_ended(attempt: &Attempt, want: &Ended) -> bool {
    attempt.root == want.root
        && attempt.spans.as_slice() == want.records
        && attempt.start == want.start
        && attempt.finish == want.finish
        && how_of(&attempt.end) == want.how
}

// The attempts that ended since there were so many.
fn check_ended(
    alloc: Global,
    fates: &Fates,
    before: usize,
    want: &[Ended],
) -> Result<(), Mismatch> {
    let mut left = want.iter();
    for attempt in fates.as_slice().iter().skip(before) {
        match left.next() {
            Some(wanted) if is_ended(attempt, wanted) => {}
            _ => return Err(case_of(alloc, "ended")),
        }
    }
    match left.next() {
        Some(_) => Err(case_of(alloc, "ended")),
        None => Ok(()),
    }
}

fn check_orders(alloc: Global, orders: &Orders, step: &Step) -> Result<(), Mismatch> {
    let begun = roots_begun(alloc, &orders.parcels)?;
    if begun.as_slice() != step.begun {
        return Err(case_of(alloc, "begun"));
    }
    let commit = match &orders.commit {
        Some(commit) => Some(commit.root),
        None => None,
    };
    if commit == step.commit {
        Ok(())
    } else {
        Err(case_of(alloc, "commit"))
    }
}

fn check_stop(alloc: Global, stop: Stop, want: Option<u64>) -> Result<(), Mismatch> {
    match (stop, want) {
        (Stop::Exhausted(txid), Some(wanted)) if txid == wanted => Ok(()),
        _ => Err(case_of(alloc, "stop")),
    }
}

// ---- calls

fn take_turn(
    alloc: Global,
    coordinator: &mut Coordinator<'_, ScriptSource>,
    fates: &mut Fates,
    told: Told,
    ticks: u32,
    shut: u16,
    step: &Step,
) -> Result<(), Mismatch>
    requires { StaysOwn coordinator.old }
    ensures { StaysOwn coordinator.new }
{
    let verdict = verdict_of(alloc, told)?;
    if coordinator.has_commit_out() {
        return Err(case_of(alloc, "a commit is out"));
    }
    match coordinator.turn(fates, verdict, ticks, shut) {
        Ok(orders) => check_orders(alloc, &orders, step),
        Err(stop) => check_stop(alloc, stop, step.stop),
    }
}

fn take_outcome(
    alloc: Global,
    coordinator: &mut Coordinator<'_, ScriptSource>,
    fates: &mut Fates,
    how: CommitOutcome,
    step: &Step,
) -> Result<(), Mismatch>
    requires { StaysOwn coordinator.old }
    ensures { StaysOwn coordinator.new }
{
    if !coordinator.has_commit_out() {
        return Err(case_of(alloc, "no commit is out"));
    }
    match coordinator.committed(fates, how) {
        Ok(()) => Ok(()),
        Err(stop) => check_stop(alloc, stop, step.stop),
    }
}

const FAILED: CommitOutcome = CommitOutcome::Failed {
    component: 0,
    part: 0,
    before: 0,
    after: 1,
};

fn make_call(
    alloc: Global,
    coordinator: &mut Coordinator<'_, ScriptSource>,
    fates: &mut Fates,
    step: &Step,
) -> Result<(), Mismatch>
    requires { StaysOwn coordinator.old }
    ensures { StaysOwn coordinator.new }
{
    match step.call {
        Call::Turn(told, ticks) => take_turn(alloc, coordinator, fates, told, ticks, 0, step),
        Call::Shut(shut) => take_turn(alloc, coordinator, fates, Told::Nothing, 0, shut, step),
        Call::Done => take_outcome(alloc, coordinator, fates, CommitOutcome::Done, step),
        Call::CommitFails => take_outcome(alloc, coordinator, fates, FAILED, step),
    }
}

fn check_step(
    alloc: Global,
    coordinator: &mut Coordinator<'_, ScriptSource>,
    fates: &mut Fates,
    step: &Step,
) -> Result<(), Mismatch>
    requires { StaysOwn coordinator.old }
    ensures { StaysOwn coordinator.new }
{
    let before = fates.len();
    make_call(alloc, coordinator, fates, step)?;
    check_ended(alloc, fates, before, step.ended)
}

/// Makes calls in turn of the coordinator of a file's plan from such a start, and compares what it
/// answers with what it is to answer. At the end this is to be the last transaction committed, and
/// some record is to be left uncommitted or none.
pub fn check_steps(
    alloc: Global,
    file: &str,
    start: Start,
    steps: &[Step],
    committed: u64,
    finished: bool,
) -> Result<(), Mismatch> {
    let plan = plan_of(alloc, file)?;
    let offers = offers_of(alloc, &plan, &start)?;
    let ids = ScriptIds::new(alloc).make(plan.tasks())?;
    let mut coordinator = Coordinator::new(alloc, &plan, offers, ids)?;
    let mut fates = Fates::new(alloc);
    for step in steps {
        check_step(alloc, &mut coordinator, &mut fates, step)?;
    }
    if coordinator.committed_count() != committed {
        return Err(case_of(alloc, "committed"));
    }
    if coordinator.finished() == finished {
        Ok(())
    } else {
        Err(case_of(alloc, "finished"))
    }
}
