// Rounds: first tuples are sent, workers have a stretch, and what came to the ackers is counted.
ghost use Rattle.std.specs.Prelude.{◌≡◌, ◌<◌, ◌≤◌, IfOk, OnOk, length};
ghost use Rattle.std.specs.List.{AllByRecursion};
ghost use Rattle.box_rows.specs.FitRows.{IsFitRow};
ghost use Rattle.worker_test_kit.specs.Resting.{Rests};

use crate::tally::Tally;
use box_rows::{Boxes, Posts, Row, take_fit};
use box_test_kit::{ACKERS_AT, Counting, LAST_BOX, LEVELS, chain, send_firsts, wrong};
use pulse_board::Board;
use std::alloc::Global;
use std::sync::Wait;
use std::thread::Threads;
use test_kit::Mismatch;
use worker_test_kit::{Hiring, TestWorker, hire, stretch};

// How many rounds there are at most.
const ROUNDS: u32 = 1000;

// Takes all that is in a box.
fn take_all<R: Wait>(rt: &R, posts: &Posts<'_>, row: &mut Row, at: usize, tally: &mut Tally)
    requires row { IsFitRow posts.now.plan.now posts.now.boxes.items row.old.items }
    requires there { at < length posts.now.boxes.items }
    ensures { IsFitRow posts.now.plan.now posts.now.boxes.items row.new.items }
{
    for _ in 0..1000 {
        match take_fit(rt, posts, row, at) {
            Some(mail) => tally.add(at, &mail),
            None => return,
        }
    }
}

// Takes all that is in the boxes of the ackers.
fn take_notes<R: Wait>(rt: &R, posts: &Posts<'_>, row: &mut Row, tally: &mut Tally)
    requires { IsFitRow posts.now.plan.now posts.now.boxes.items row.old.items }
    ensures { IsFitRow posts.now.plan.now posts.now.boxes.items row.new.items }
{
    for at in ACKERS_AT..LAST_BOX.min(posts.boxes.len()) {
        take_all(rt, posts, row, at, tally);
    }
}

// What is to be sent, and what came.
#[derive(Drop)]
struct Course {
    sent: u32,
    count: u32,
    tally: Tally,
    // how many messages came of the first round, and how many rounds there were
    first_mails: u32,
    rounds: u32,
}

// A round. Whether anything was sent or came.
fn round<'p, R: Threads + Wait + Sync>(
    rt: &R,
    alloc: Global,
    posts: &Posts<'_>,
    board: &Board,
    row: &mut Row,
    workers: Vec<TestWorker<'p>>,
    gate: &Counting,
    course: &mut Course,
) -> Result<(Vec<TestWorker<'p>>, bool), Mismatch>
    requires row { IsFitRow posts.now.plan.now posts.now.boxes.items row.old.items }
    requires rest { AllByRecursion (Rests posts.now.plan.now board.now) workers.items }
    ensures row { OnOk result (IsFitRow posts.now.plan.now posts.now.boxes.items row.new.items) }
    ensures rest { IfOk result (λ back.
        AllByRecursion (Rests posts.now.plan.now board.now) back.0.items) }
{
    let before = course.sent;
    let sent = send_firsts(rt, alloc, posts, row, before, course.count)?;
    let rested = stretch(rt, alloc, posts, board, row, workers, gate)?;
    let had = course.tally.mails;
    take_notes(rt, posts, row, &mut course.tally);
    let came = course.tally.mails.wrapping_sub(had);
    course.sent = sent;
    if course.rounds == 0 {
        course.first_mails = came;
    }
    course.rounds = course.rounds.wrapping_add(1);
    Ok((rested, (before < sent) | (0 < came)))
}

// Rounds, until nothing is sent and nothing comes.
fn all_rounds<'p, R: Threads + Wait + Sync>(
    rt: &R,
    alloc: Global,
    posts: &Posts<'_>,
    board: &Board,
    row: &mut Row,
    workers: Vec<TestWorker<'p>>,
    gate: &Counting,
    course: &mut Course,
) -> Result<(), Mismatch>
    requires row { IsFitRow posts.now.plan.now posts.now.boxes.items row.old.items }
    requires rest { AllByRecursion (Rests posts.now.plan.now board.now) workers.items }
{
    let mut team = workers;
    for _ in 0..ROUNDS {
        let (rested, goes_on) = round(rt, alloc, posts, board, row, team, gate, course)?;
        team = rested;
        if !goes_on {
            return Ok(());
        }
    }
    Err(wrong(alloc, "rounds"))
}

// The rounds of so many first tuples and workers without ackers.
fn course_of<R: Threads + Wait + Sync>(
    rt: &R,
    alloc: Global,
    workers: u32,
    count: u32,
    gate: &Counting,
) -> Result<Course, Mismatch>
    requires { 0 < workers }
{
    let plan = chain(alloc)?;
    let mut made = Boxes::new(alloc, &plan)?;
    let boxes = &mut made;
    let (board, mut seat) = Board::new(alloc)?;
    let hiring = Hiring {
        workers,
        with_ackers: false,
    };
    let team = hire(alloc, &plan, &board, &mut seat, hiring)?;
    let mut course = Course {
        sent: 0,
        count,
        tally: Tally::new(alloc, count)?,
        first_mails: 0,
        rounds: 0,
    };
    all_rounds(
        rt,
        alloc,
        &boxes.posts,
        &board,
        &mut boxes.row,
        team,
        gate,
        &mut course,
    )?;
    Ok(course)
}

// Whether each of so many first tuples, and of all that comes of it, is executed once, and each
// note of it comes once to its acker, those of each task in order.
fn check<R: Threads + Wait + Sync>(
    rt: &R,
    alloc: Global,
    workers: u32,
    count: u32,
) -> Result<bool, Mismatch>
    requires { 0 < workers }
{
    let gate = Counting::new(true);
    let course = course_of(rt, alloc, workers, count, &gate)?;
    let want = count.wrapping_mul(LEVELS);
    let executed = gate.all() == u64::from(want);
    let sent = course.sent == count;
    Ok(executed & sent & (course.tally.notes == want) & course.tally.is_all_once())
}

#[test]
fn two_workers_execute_each_of_10000_once(rt: HostRuntime) -> Result<(), Mismatch> {
    assert!(rt; check(&rt, rt.alloc(), 2, 10_000)?);
    Ok(())
}

#[test]
fn one_worker_executes_each_once(rt: HostRuntime) -> Result<(), Mismatch> {
    assert!(rt; check(&rt, rt.alloc(), 1, 1000)?);
    Ok(())
}

#[test]
fn sixty_four_workers_execute_each_once(rt: HostRuntime) -> Result<(), Mismatch> {
    assert!(rt; check(&rt, rt.alloc(), 64, 1000)?);
    Ok(())
}

// With runs of one tuple, 256 in the box of each first task, each of their executions sends a note
// of its own, so that both ackers' boxes are full at the end of the first stretch.
fn check_full<R: Threads + Wait + Sync>(
    rt: &R,
    alloc: Global,
    workers: u32,
) -> Result<bool, Mismatch>
    requires { 0 < workers }
{
    let gate = Counting::new(true);
    let course = course_of(rt, alloc, workers, 512, &gate)?;
    let full = course.first_mails == 512;
    let more = (2 < course.rounds) & (course.tally.notes == 2048);
    Ok(full & more & course.tally.is_all_once())
}

#[test]
fn full_boxes_lose_nothing(rt: HostRuntime) -> Result<(), Mismatch> {
    assert!(rt; check_full(&rt, rt.alloc(), 1)?);
    assert!(rt; check_full(&rt, rt.alloc(), 2)?);
    Ok(())
}
