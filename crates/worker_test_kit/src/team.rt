// Workers over the boxes of a plan, and their stretches.
ghost use Rattle.std.specs.Prelude.{◌≡◌, ◌<◌, ◌+◌, ◌++◌, ◌∷◌, [], IfOk, OnOk, true, length};
ghost use Rattle.std.specs.List.{AllByRecursion};
ghost use Rattle.box_rows.specs.AllRows.{ArePassesIn};
ghost use Rattle.box_rows.specs.FitRows.{AreWhole, IsFitRow};
ghost use Rattle.box_rows.specs.Mails.{last_box};
ghost use Rattle.box_rows.specs.Rows.{ArePasses};
ghost use Rattle.worker_test_kit.specs.Resting.{Came, Rests};
ghost use Rattle.pulse_board.specs.Seats.{IsSeatOf};
ghost use Rattle.event_worlds.specs.topology_plan.Topology.{tasks_in_all};
ghost use Rattle.worker_pool.specs.Ackers.{IsAcker};
ghost use Rattle.worker_pool.specs.Desks.{IsDesk};
ghost use Rattle.worker_pool.specs.Workers.{IsReady};

use box_rows::{Posts, Row, join_rows, look_row, split_rows};
use box_test_kit::wrong;
use event_worlds::acker_core::Acker;
use event_worlds::bolt_task::BoltTask;
use event_worlds::storm_ids::{ChaChaIds, ChaChaMaker, IdMaker};
use event_worlds::storm_values::Memory;
use event_worlds::topology_plan::Plan;
use pulse_board::{Board, BoardSeat};
use sample_operations::Backwards;
use std::alloc::Global;
use std::collections::VecDeque;
use std::sync::Wait;
use std::thread::Threads;
use storm_gates::Gate;
use test_kit::Mismatch;
use worker_pool::{AckerDesk, Outbox, Spares, TaskDesk, Worker, stretch_all};

pub type TestDesk<'p> = TaskDesk<'p, ChaChaIds>;

pub type TestWorker<'p> = Worker<'p, ChaChaIds>;

// One more item.
fn add<T: Drop>(list: &mut Vec<T>, item: T) -> Result<(), Memory>
    ensures { OnOk result (list.new.items ≡ list.old.items ++ item ∷ []) }
{
    list.push(item)?;
    Ok(())
}

/// The desk of a task, with nothing on it.
pub fn task_desk<'p>(alloc: Global, plan: &'p Plan, number: u32) -> Result<TestDesk<'p>, Mismatch>
    requires { number < tasks_in_all plan.now }
    ensures { IfOk result (IsDesk plan.now) }
{
    let mut ids = ChaChaMaker { key: [7; 32] };
    let source = ids.make(number)?;
    let task = BoltTask::new(alloc, plan, number, source)?;
    task.facts();
    Ok(TaskDesk {
        number,
        task,
        inbox: VecDeque::new(alloc),
        outbox: Outbox::new(alloc),
    })
}

/// The desk of an acker, with nothing on it.
pub fn acker_desk(alloc: Global, plan: &Plan, number: u32) -> Result<AckerDesk, Mismatch>
    requires { number < plan.now.ackers }
    ensures { IfOk result (IsAcker plan.now) }
{
    plan.facts();
    Ok(AckerDesk {
        number,
        acker: Acker::new(alloc, plan.buckets())?,
        inbox: VecDeque::new(alloc),
        outbox: None,
        counted: 0,
    })
}

// Every so manieth desk of the tasks, from a number on.
fn task_desks<'p>(
    alloc: Global,
    plan: &'p Plan,
    from: u32,
    workers: u32,
) -> Result<Vec<TestDesk<'p>>, Mismatch>
    requires { 0 < workers }
    ensures { IfOk result (λ made. AllByRecursion (IsDesk plan.now) made.items) }
{
    let mut desks = Vec::new(alloc);
    for n in 0..plan.tasks() {
        if n % workers == from {
            add(&mut desks, task_desk(alloc, plan, n)?)?;
        }
    }
    Ok(desks)
}

// Every so manieth desk of the ackers, from a number on.
fn acker_desks(
    alloc: Global,
    plan: &Plan,
    from: u32,
    workers: u32,
) -> Result<Vec<AckerDesk>, Mismatch>
    requires { 0 < workers }
    ensures { IfOk result (λ made. AllByRecursion (IsAcker plan.now) made.items) }
{
    let mut desks = Vec::new(alloc);
    for n in 0..plan.ackers() {
        if n % workers == from {
            add(&mut desks, acker_desk(alloc, plan, n)?)?;
        }
    }
    Ok(desks)
}

/// Whether a team has the ackers as well.
#[derive(Clone, Copy)]
pub struct Hiring {
    pub workers: u32,
    pub with_ackers: bool,
}

// A worker with the desks from a number on.
fn hire_one<'p>(
    alloc: Global,
    plan: &'p Plan,
    board: &Board,
    seat: BoardSeat,
    from: u32,
    hiring: Hiring,
) -> Result<TestWorker<'p>, Mismatch>
    requires seat { IsSeatOf board.now seat }
    requires workers { 0 < hiring.workers }
    ensures { IfOk result (Rests plan.now board.now) }
{
    let _ = board;
    let desks = task_desks(alloc, plan, from, hiring.workers)?;
    let ackers = if hiring.with_ackers {
        acker_desks(alloc, plan, from, hiring.workers)?
    } else {
        Vec::new(alloc)
    };
    Ok(Worker {
        desks,
        ackers,
        row: Vec::new(alloc),
        seat,
        spares: Spares::new(alloc),
        turns: 0,
        wants: false,
    })
}

/// Workers with all tasks among them, without rows.
pub fn hire<'p>(
    alloc: Global,
    plan: &'p Plan,
    board: &Board,
    seat: &mut BoardSeat,
    hiring: Hiring,
) -> Result<Vec<TestWorker<'p>>, Mismatch>
    requires seat { IsSeatOf board.now seat.old }
    requires workers { 0 < hiring.workers }
    ensures seat { IsSeatOf board.now seat.new }
    ensures rest { IfOk result (λ made. AllByRecursion (Rests plan.now board.now) made.items) }
{
    let mut workers = Vec::new(alloc);
    for from in 0..hiring.workers {
        let other = board.split(seat);
        let worker = hire_one(alloc, plan, board, other, from, hiring)?;
        add(&mut workers, worker)?;
    }
    Ok(workers)
}

/// The last worker of a team.
pub fn last_worker<'p>(
    alloc: Global,
    posts: &Posts<'_>,
    board: &Board,
    team: &mut Vec<TestWorker<'p>>,
) -> Result<TestWorker<'p>, Mismatch>
    requires { AllByRecursion (Rests posts.now.plan.now board.now) team.old.items }
    ensures worker { IfOk result (Rests posts.now.plan.now board.now) }
    ensures rest { AllByRecursion (Rests posts.now.plan.now board.now) team.new.items }
{
    let _ = posts;
    let _ = board;
    match team.pop() {
        Some(worker) => Ok(worker),
        None => Err(wrong(alloc, "too few workers")),
    }
}

/// A worker gets a row.
pub fn with_row<'p>(
    posts: &Posts<'_>,
    board: &Board,
    worker: TestWorker<'p>,
    row: Row,
) -> TestWorker<'p>
    requires boxes { length posts.now.boxes.items ≡ last_box posts.now.plan.now + 1 }
    requires rests { Rests posts.now.plan.now board.now worker }
    requires row { ArePassesIn posts.now.plan.now posts.now.boxes.items row }
    ensures { IsReady posts.now.plan.now posts.now.boxes.items board.now result }
{
    let _ = posts;
    let _ = board;
    Worker {
        desks: worker.desks,
        ackers: worker.ackers,
        row,
        seat: worker.seat,
        spares: worker.spares,
        turns: worker.turns,
        wants: worker.wants,
    }
}

/// A worker gives its row back.
pub fn without_row<'p>(
    alloc: Global,
    posts: &Posts<'_>,
    board: &Board,
    worker: TestWorker<'p>,
) -> Result<(TestWorker<'p>, Row), Mismatch>
    requires { Came posts.now.plan.now posts.now.boxes.items board.now worker }
    ensures rests { IfOk result (λ back. Rests posts.now.plan.now board.now back.0) }
    ensures row { IfOk result (λ back.
        ArePassesIn posts.now.plan.now posts.now.boxes.items back.1) }
{
    let _ = posts;
    let _ = board;
    if worker.wants {
        return Err(Mismatch::Memory);
    }
    let rested = Worker {
        desks: worker.desks,
        ackers: worker.ackers,
        row: Vec::new(alloc),
        seat: worker.seat,
        spares: worker.spares,
        turns: worker.turns,
        wants: worker.wants,
    };
    Ok((rested, worker.row))
}

// The last of some rows.
fn last_row(alloc: Global, posts: &Posts<'_>, rows: &mut Vec<Row>) -> Result<Row, Mismatch>
    requires { AllByRecursion (ArePassesIn posts.now.plan.now posts.now.boxes.items)
        rows.old.items }
    ensures row { IfOk result (ArePassesIn posts.now.plan.now posts.now.boxes.items) }
    ensures rest { AllByRecursion (ArePassesIn posts.now.plan.now posts.now.boxes.items)
        rows.new.items }
{
    let _ = posts;
    match rows.pop() {
        Some(row) => Ok(row),
        None => Err(wrong(alloc, "too few rows")),
    }
}

// Each worker gets a row.
fn with_rows<'p>(
    alloc: Global,
    posts: &Posts<'_>,
    board: &Board,
    workers: Vec<TestWorker<'p>>,
    rows: Vec<Row>,
) -> Result<Vec<TestWorker<'p>>, Mismatch>
    requires boxes { length posts.now.boxes.items ≡ last_box posts.now.plan.now + 1 }
    requires rest { AllByRecursion (Rests posts.now.plan.now board.now) workers.items }
    requires rows { AllByRecursion (ArePassesIn posts.now.plan.now posts.now.boxes.items)
        rows.items }
    ensures { IfOk result (λ made. AllByRecursion
        (IsReady posts.now.plan.now posts.now.boxes.items board.now) made.items) }
{
    let mut resting = workers;
    let mut left = rows;
    let mut ready = Vec::new(alloc);
    while let Some(worker) = resting.pop() {
        let row = last_row(alloc, posts, &mut left)?;
        add(&mut ready, with_row(posts, board, worker, row))?;
    }
    Ok(ready)
}

// Each worker gives its row back.
fn without_rows<'p>(
    alloc: Global,
    posts: &Posts<'_>,
    board: &Board,
    workers: Vec<TestWorker<'p>>,
) -> Result<(Vec<TestWorker<'p>>, Vec<Row>), Mismatch>
    requires { AllByRecursion (Came posts.now.plan.now posts.now.boxes.items board.now)
        workers.items }
    ensures rest { IfOk result (λ back.
        AllByRecursion (Rests posts.now.plan.now board.now) back.0.items) }
    ensures rows { IfOk result (λ back.
        AllByRecursion (ArePassesIn posts.now.plan.now posts.now.boxes.items) back.1.items) }
{
    let mut left = workers;
    let mut rested = Vec::new(alloc);
    let mut rows = Vec::new(alloc);
    while let Some(worker) = left.pop() {
        let (worker, row) = without_row(alloc, posts, board, worker)?;
        add(&mut rested, worker)?;
        add(&mut rows, row)?;
    }
    Ok((rested, rows))
}

/// Whether each pass of a row is whole.
pub fn is_whole(row: &Row) -> bool
    ensures { result ≡ true → AreWhole row.now.items }
{
    for pass in row {
        if !pass.is_whole() {
            return false;
        }
    }
    true
}

// All rows become one again, which is whole.
fn rejoin(alloc: Global, posts: &Posts<'_>, row: &mut Row, rows: Vec<Row>) -> Result<(), Mismatch>
    requires boxes { length posts.now.boxes.items ≡ last_box posts.now.plan.now + 1 }
    requires row { ArePasses posts.now.plan.now posts.now.boxes.items row.old.items }
    requires rows { AllByRecursion (ArePassesIn posts.now.plan.now posts.now.boxes.items)
        rows.items }
    ensures { OnOk result (IsFitRow posts.now.plan.now posts.now.boxes.items row.new.items) }
{
    join_rows(posts, row, rows);
    if !is_whole(row) {
        return Err(wrong(alloc, "a pass was lost"));
    }
    look_row(posts, row);
    Ok(())
}

// The workers have a stretch, each with its row.
fn stretched<'p, R: Threads + Wait + Sync, G: Gate>(
    rt: &R,
    posts: &Posts<'_>,
    board: &Board,
    workers: Vec<TestWorker<'p>>,
    threads: usize,
    gate: &G,
) -> Vec<TestWorker<'p>>
    requires threads { 0 < threads }
    requires ready { AllByRecursion (IsReady posts.now.plan.now posts.now.boxes.items board.now)
        workers.items }
    ensures { AllByRecursion (Came posts.now.plan.now posts.now.boxes.items board.now)
        result.items }
{
    let mut team = workers;
    stretch_all(
        rt,
        posts,
        board,
        team.as_mut_slice(),
        threads,
        &Backwards,
        gate,
    );
    team
}

/// The workers have a stretch, each with a row of its own, and the rows become one again.
pub fn stretch<'p, R: Threads + Wait + Sync, G: Gate>(
    rt: &R,
    alloc: Global,
    posts: &Posts<'_>,
    board: &Board,
    row: &mut Row,
    workers: Vec<TestWorker<'p>>,
    gate: &G,
) -> Result<Vec<TestWorker<'p>>, Mismatch>
    requires row { IsFitRow posts.now.plan.now posts.now.boxes.items row.old.items }
    requires rest { AllByRecursion (Rests posts.now.plan.now board.now) workers.items }
    ensures row { OnOk result (IsFitRow posts.now.plan.now posts.now.boxes.items row.new.items) }
    ensures rest { IfOk result (λ back.
        AllByRecursion (Rests posts.now.plan.now board.now) back.items) }
{
    let threads = workers.len().max(1);
    let rows = split_rows(alloc, posts, row, workers.len())?;
    let ready = with_rows(alloc, posts, board, workers, rows)?;
    let came = stretched(rt, posts, board, ready, threads, gate);
    let (rested, rows) = without_rows(alloc, posts, board, came)?;
    rejoin(alloc, posts, row, rows)?;
    Ok(rested)
}
