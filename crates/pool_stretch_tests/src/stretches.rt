// Stretches with a halt, with a gate that holds, and with ackers.
ghost use Rattle.std.specs.Prelude.{◌≡◌, ◌<◌, ◌+◌, IfOk, OnOk, length};
ghost use Rattle.std.specs.List.{AllByRecursion};
ghost use Rattle.box_rows.specs.FitRows.{IsFitRow};
ghost use Rattle.box_rows.specs.Mails.{IsTrueMail, last_box};
ghost use Rattle.box_rows.specs.Rows.{ArePasses};
ghost use Rattle.worker_test_kit.specs.Resting.{Rests};
ghost use Rattle.pulse_board.specs.Seats.{IsSeatOf};
ghost use Rattle.worker_pool.specs.Workers.{IsReady};

use box_rows::{Boxes, Posts, Row, send_fit, split_row, take_at, take_fit};
use box_test_kit::{Counting, Verdicts, chain, init_mail, send_first, send_firsts, wrong};
use event_worlds::storm_values::Path;
use pulse_board::Board;
use sample_operations::Backwards;
use std::alloc::Global;
use std::sync::Wait;
use std::thread::{Threads, join};
use storm_gates::{Gate, HoldUntil, OpenGate};
use test_kit::Mismatch;
use worker_test_kit::{Hiring, TestWorker, hire, last_worker, stretch, with_row};

const TWO: Hiring = Hiring {
    workers: 2,
    with_ackers: false,
};

// A stretch of one worker.
fn one_stretch<'p, R: Wait>(
    rt: &R,
    posts: &Posts<'_>,
    board: &Board,
    mut worker: TestWorker<'p>,
    gate: &Counting,
)
    requires { IsReady posts.now.plan.now posts.now.boxes.items board.now worker }
{
    worker.stretch(rt, posts, board, &Backwards, gate);
}

// A worker makes a halt as soon as an execution of another one has come, which goes on only then.
fn halt_soon<'p>(board: &Board, mut worker: TestWorker<'p>, gate: &Counting)
    requires { IsSeatOf board.now worker.seat }
{
    gate.await_first();
    board.halt(&mut worker.seat);
    gate.open();
}

// A worker has a stretch, in which another makes a halt.
fn stretch_and_halt<'p, R: Threads + Wait + Sync>(
    rt: &R,
    posts: &Posts<'_>,
    board: &Board,
    worker: TestWorker<'p>,
    other: TestWorker<'p>,
    gate: &Counting,
)
    requires worker { IsReady posts.now.plan.now posts.now.boxes.items board.now worker }
    requires other { IsSeatOf board.now other.seat }
{
    let ((), ()) = join(
        rt,
        || -> ()
            requires { IsReady posts.now.plan.now posts.now.boxes.items board.now worker }
        { one_stretch(rt, posts, board, worker, gate) },
        || -> ()
            requires { IsSeatOf board.now other.seat }
        { halt_soon(board, other, gate) },
    );
}

// How many messages are taken at a box.
fn count_left<R: Wait>(rt: &R, posts: &Posts<'_>, row: &mut Row, at: usize) -> u64
    requires passes { ArePasses posts.now.plan.now posts.now.boxes.items row.old.items }
    requires there { at < length posts.now.boxes.items }
{
    for count in 0..1000 {
        if take_at(rt, posts, row, at).is_none() {
            return count;
        }
    }
    1000
}

// With 256 tuples in the first box, how many were executed by a worker that was halted at the first
// one, and how many are left.
fn halted<R: Threads + Wait + Sync>(rt: &R, alloc: Global) -> Result<(u64, u64), Mismatch> {
    let plan = chain(alloc)?;
    let mut made = Boxes::new(alloc, &plan)?;
    let boxes = &mut made;
    let (board, mut seat) = Board::new(alloc)?;
    let mut team = hire(alloc, &plan, &board, &mut seat, TWO)?;
    let _ = send_firsts(rt, alloc, &boxes.posts, &mut boxes.row, 0, 512)?;
    let row = split_row(alloc, &boxes.posts, &mut boxes.row)?;
    let other = last_worker(alloc, &boxes.posts, &board, &mut team)?;
    let worker = last_worker(alloc, &boxes.posts, &board, &mut team)?;
    let worker = with_row(&boxes.posts, &board, worker, row);
    let gate = Counting::new(false);
    stretch_and_halt(rt, &boxes.posts, &board, worker, other, &gate);
    let left = count_left(rt, &boxes.posts, &mut boxes.row, 0);
    Ok((gate.firsts(), left))
}

// Each tuple takes four steps: it is taken and executed, and what it makes is handed over as two
// runs. So 64 are executed in the one turn of 256 steps.
#[test]
fn a_halt_ends_the_stretch_of_another(rt: HostRuntime) -> Result<(), Mismatch> {
    let (executed, left) = halted(&rt, rt.alloc())?;
    assert!(rt; executed == 64 && left == 192);
    Ok(())
}

// Sends a first tuple at a place to a task.
fn send_at_place<R: Wait>(
    rt: &R,
    alloc: Global,
    posts: &Posts<'_>,
    row: &mut Row,
    task: u32,
    number: u32,
    place: u32,
) -> Result<(), Mismatch>
    requires { IsFitRow posts.now.plan.now posts.now.boxes.items row.old.items }
    ensures { IsFitRow posts.now.plan.now posts.now.boxes.items row.new.items }
{
    if !send_first(rt, alloc, posts, row, task, number, place)? {
        return Err(wrong(alloc, "full"));
    }
    Ok(())
}

// A stretch of so many workers with a tuple for each of the first two tasks.
fn stretch_two<R: Threads + Wait + Sync, G: Gate>(
    rt: &R,
    alloc: Global,
    workers: u32,
    gate: &G,
) -> Result<(), Mismatch>
    requires { 0 < workers }
{
    let plan = chain(alloc)?;
    let mut made = Boxes::new(alloc, &plan)?;
    let boxes = &mut made;
    let (board, mut seat) = Board::new(alloc)?;
    let hiring = Hiring {
        workers,
        with_ackers: false,
    };
    let team = hire(alloc, &plan, &board, &mut seat, hiring)?;
    send_at_place(rt, alloc, &boxes.posts, &mut boxes.row, 0, 0, 0)?;
    send_at_place(rt, alloc, &boxes.posts, &mut boxes.row, 1, 1, 1)?;
    let _ = stretch(rt, alloc, &boxes.posts, &board, &mut boxes.row, team, gate)?;
    Ok(())
}

// Whether the executions of the two tuples met, each of which waits so long for the other.
fn have_met<R: Threads + Wait + Sync>(
    rt: &R,
    alloc: Global,
    workers: u32,
    turns: u64,
) -> Result<bool, Mismatch>
    requires { 0 < workers }
{
    let first = Path::from_slice(alloc, &[0])?;
    let second = Path::from_slice(alloc, &[1])?;
    let gate = HoldUntil::new(first, second, turns);
    stretch_two(rt, alloc, workers, &gate)?;
    Ok(gate.met())
}

#[test]
fn executions_of_two_workers_meet(rt: HostRuntime) -> Result<(), Mismatch> {
    assert!(rt; have_met(&rt, rt.alloc(), 2, 2_000_000_000)?);
    Ok(())
}

#[test]
fn executions_of_one_worker_do_not_meet(rt: HostRuntime) -> Result<(), Mismatch> {
    assert!(rt; !have_met(&rt, rt.alloc(), 1, 1000)?);
    Ok(())
}

// Sends the init of a root to its acker, and its first tuple.
fn send_root<R: Wait>(
    rt: &R,
    alloc: Global,
    posts: &Posts<'_>,
    row: &mut Row,
    number: u32,
) -> Result<(), Mismatch>
    requires { IsFitRow posts.now.plan.now posts.now.boxes.items row.old.items }
    ensures { IsFitRow posts.now.plan.now posts.now.boxes.items row.new.items }
{
    posts.plan.facts();
    let acker = number % 2;
    if posts.plan.ackers() <= acker {
        return Err(wrong(alloc, "ackers"));
    }
    let mail = init_mail(alloc, posts.plan, acker, number)?;
    let at = posts.plan.tasks() as usize + acker as usize;
    if send_fit(rt, posts, row, at, mail).is_err() {
        return Err(wrong(alloc, "full"));
    }
    send_at_place(rt, alloc, posts, row, acker, number, 0)
}

// The same of the roots with the numbers below one.
fn send_roots<R: Wait>(
    rt: &R,
    alloc: Global,
    posts: &Posts<'_>,
    row: &mut Row,
    count: u32,
) -> Result<(), Mismatch>
    requires { IsFitRow posts.now.plan.now posts.now.boxes.items row.old.items }
    ensures { IsFitRow posts.now.plan.now posts.now.boxes.items row.new.items }
{
    for number in 0..count {
        send_root(rt, alloc, posts, row, number)?;
    }
    Ok(())
}

// Takes the verdicts.
fn take_verdicts<R: Wait>(rt: &R, posts: &Posts<'_>, row: &mut Row, verdicts: &mut Verdicts)
    requires { IsFitRow posts.now.plan.now posts.now.boxes.items row.old.items }
    ensures { IsFitRow posts.now.plan.now posts.now.boxes.items row.new.items }
{
    let last = posts.boxes.len() - 1;
    for _ in 0..1000 {
        match take_fit(rt, posts, row, last) {
            Some(mail) => verdicts.add(&mail),
            None => return,
        }
    }
}

// Stretches, until so many verdicts have come.
fn await_verdicts<'p, R: Threads + Wait + Sync>(
    rt: &R,
    alloc: Global,
    posts: &Posts<'_>,
    board: &Board,
    row: &mut Row,
    team: Vec<TestWorker<'p>>,
    verdicts: &mut Verdicts,
) -> Result<(), Mismatch>
    requires row { IsFitRow posts.now.plan.now posts.now.boxes.items row.old.items }
    requires rest { AllByRecursion (Rests posts.now.plan.now board.now) team.items }
{
    let mut team = team;
    for _ in 0..1000 {
        team = stretch(rt, alloc, posts, board, row, team, &OpenGate {})?;
        take_verdicts(rt, posts, row, verdicts);
        if verdicts.are_all() {
            return Ok(());
        }
    }
    Err(wrong(alloc, "verdicts"))
}

// Whether so many roots end, each once, with its init and the notes of its four tuples.
fn are_closed<R: Threads + Wait + Sync>(
    rt: &R,
    alloc: Global,
    workers: u32,
    count: u32,
) -> Result<bool, Mismatch>
    requires { 0 < workers }
{
    let plan = chain(alloc)?;
    let mut made = Boxes::new(alloc, &plan)?;
    let boxes = &mut made;
    let (board, mut seat) = Board::new(alloc)?;
    let hiring = Hiring {
        workers,
        with_ackers: true,
    };
    let team = hire(alloc, &plan, &board, &mut seat, hiring)?;
    send_roots(rt, alloc, &boxes.posts, &mut boxes.row, count)?;
    let mut verdicts = Verdicts::new(alloc, count, 5)?;
    await_verdicts(
        rt,
        alloc,
        &boxes.posts,
        &board,
        &mut boxes.row,
        team,
        &mut verdicts,
    )?;
    Ok(verdicts.are_right())
}

#[test]
fn ackers_of_two_workers_tell_each_root_once(rt: HostRuntime) -> Result<(), Mismatch> {
    assert!(rt; are_closed(&rt, rt.alloc(), 2, 200)?);
    Ok(())
}

#[test]
fn ackers_of_one_worker_tell_each_root_once(rt: HostRuntime) -> Result<(), Mismatch> {
    assert!(rt; are_closed(&rt, rt.alloc(), 1, 200)?);
    Ok(())
}
