// Steps of one desk, in one thread.
ghost use Rattle.std.specs.Prelude.{◌≡◌, ◌<◌, ◌+◌, IfOk, OnOk, length};
ghost use Rattle.box_rows.specs.Mails.{IsTrueMail, last_box};
ghost use Rattle.box_rows.specs.Rows.{ArePasses};
ghost use Rattle.event_worlds.specs.topology_plan.Topology.{tasks_in_all};
ghost use Rattle.worker_pool.specs.Ackers.{IsAcker};
ghost use Rattle.worker_pool.specs.Desks.{IsDesk};
ghost use Rattle.worker_pool.specs.Workers.{IsReady};

use box_rows::{Boxes, Mail, Posts, Row, send_at, split_row, take_at};
use box_test_kit::{
    ACKERS_AT, Verdicts, chain, done_mail, first_mail, init_mail, send_firsts, wrong,
};
use pulse_board::Board;
use sample_operations::Backwards;
use std::alloc::Global;
use std::sync::Wait;
use storm_gates::OpenGate;
use test_kit::Mismatch;
use worker_pool::{AckerDesk, Spares};
use worker_test_kit::{
    Hiring, TestDesk, TestWorker, acker_desk, hire, last_worker, task_desk, with_row,
};

const ONE: Hiring = Hiring {
    workers: 1,
    with_ackers: false,
};

// How many steps of a task do something, until one does nothing.
fn task_steps<'p, R: Wait>(
    rt: &R,
    alloc: Global,
    posts: &Posts<'_>,
    row: &mut Row,
    desk: TestDesk<'p>,
) -> Result<u32, Mismatch>
    requires passes { ArePasses posts.now.plan.now posts.now.boxes.items row.old.items }
    requires boxes { length posts.now.boxes.items ≡ last_box posts.now.plan.now + 1 }
    requires desk { IsDesk posts.now.plan.now desk }
    ensures { ArePasses posts.now.plan.now posts.now.boxes.items row.new.items }
{
    let mut at_work = desk;
    let mut spares = Spares::new(alloc);
    for count in 0..1000 {
        let did = at_work.step(rt, posts, row, &mut spares, &Backwards, &OpenGate {})?;
        if !did {
            return Ok(count);
        }
    }
    Ok(1000)
}

// Whether there is a message at a box, and no second one.
fn holds_one<R: Wait>(rt: &R, posts: &Posts<'_>, row: &mut Row, at: usize) -> bool
    requires passes { ArePasses posts.now.plan.now posts.now.boxes.items row.old.items }
    requires there { at < length posts.now.boxes.items }
    ensures { ArePasses posts.now.plan.now posts.now.boxes.items row.new.items }
{
    let first = take_at(rt, posts, row, at).is_some();
    let second = take_at(rt, posts, row, at).is_some();
    first & !second
}

// A task of the first bolt takes a tuple, executes it, and hands over what it makes: a tuple of the
// second bolt and a note. Whether these are four steps, and the note lies in its acker's box.
fn one_tuple<R: Wait>(rt: &R, alloc: Global) -> Result<bool, Mismatch> {
    let plan = chain(alloc)?;
    let mut made = Boxes::new(alloc, &plan)?;
    let boxes = &mut made;
    if plan.tasks() != 9 || plan.ackers() != 2 {
        return Err(wrong(alloc, "plan"));
    }
    let desk = task_desk(alloc, &plan, 1)?;
    let mail = first_mail(alloc, &plan, 1, 5, 0)?;
    let sent = send_at(rt, &boxes.posts, &mut boxes.row, 1, mail).is_ok();
    let steps = task_steps(rt, alloc, &boxes.posts, &mut boxes.row, desk)?;
    let told = holds_one(rt, &boxes.posts, &mut boxes.row, ACKERS_AT + 1);
    Ok(sent & told & (steps == 4))
}

#[test]
fn a_tuple_takes_four_steps(rt: HostRuntime) -> Result<(), Mismatch> {
    assert!(rt; one_tuple(&rt, rt.alloc())?);
    Ok(())
}

// How many rounds of a worker do something, until one does nothing.
fn rounds_of<'p, R: Wait>(
    rt: &R,
    posts: &Posts<'_>,
    board: &Board,
    worker: TestWorker<'p>,
) -> Result<u32, Mismatch>
    requires { IsReady posts.now.plan.now posts.now.boxes.items board.now worker }
{
    let mut at_work = worker;
    for count in 0..1000 {
        let did = at_work.round(rt, posts, board, &Backwards, &OpenGate {})?;
        if !did {
            return Ok(count);
        }
    }
    Ok(1000)
}

// How many rounds one worker with all tasks has for one first tuple.
fn one_worker<R: Wait>(rt: &R, alloc: Global) -> Result<u32, Mismatch> {
    let plan = chain(alloc)?;
    let mut made = Boxes::new(alloc, &plan)?;
    let boxes = &mut made;
    let (board, mut seat) = Board::new(alloc)?;
    let mut team = hire(alloc, &plan, &board, &mut seat, ONE)?;
    let sent = send_firsts(rt, alloc, &boxes.posts, &mut boxes.row, 0, 1)?;
    if sent != 1 {
        return Err(wrong(alloc, "full"));
    }
    let row = split_row(alloc, &boxes.posts, &mut boxes.row)?;
    let worker = last_worker(alloc, &boxes.posts, &board, &mut team)?;
    let worker = with_row(&boxes.posts, &board, worker, row);
    rounds_of(rt, &boxes.posts, &board, worker)
}

// A task is before those that it sends to. So in each second round but the first a tuple is handed
// over and taken at once, and in those between a note is handed over and the tuple executed: two
// rounds for each of four tasks, and one for the last note.
#[test]
fn a_tuple_takes_nine_rounds(rt: HostRuntime) -> Result<(), Mismatch> {
    assert!(rt; one_worker(&rt, rt.alloc())? == 9);
    Ok(())
}

// How many steps of an acker do something, until one does nothing.
fn acker_steps<R: Wait>(
    rt: &R,
    alloc: Global,
    posts: &Posts<'_>,
    row: &mut Row,
    desk: &mut AckerDesk,
) -> Result<u32, Mismatch>
    requires passes { ArePasses posts.now.plan.now posts.now.boxes.items row.old.items }
    requires boxes { length posts.now.boxes.items ≡ last_box posts.now.plan.now + 1 }
    requires desk { IsAcker posts.now.plan.now desk.old }
    ensures row { ArePasses posts.now.plan.now posts.now.boxes.items row.new.items }
    ensures desk { OnOk result (IsAcker posts.now.plan.now desk.new) }
{
    let mut spares = Spares::new(alloc);
    for count in 0..1000 {
        let did = desk.step(rt, posts, row, &mut spares)?;
        if !did {
            return Ok(count);
        }
    }
    Ok(1000)
}

// Whether a verdict lies in the last box, of the first root with a list of two notes.
fn has_verdict<R: Wait>(
    rt: &R,
    alloc: Global,
    posts: &Posts<'_>,
    row: &mut Row,
) -> Result<bool, Mismatch>
    requires passes { ArePasses posts.now.plan.now posts.now.boxes.items row.old.items }
    requires boxes { length posts.now.boxes.items ≡ last_box posts.now.plan.now + 1 }
{
    let last = posts.boxes.len() - 1;
    let mut verdicts = Verdicts::new(alloc, 1, 2)?;
    if let Some(mail) = take_at(rt, posts, row, last) {
        verdicts.add(&mail);
    }
    Ok(verdicts.are_right())
}

// Sends a run to the first acker.
fn send_note<R: Wait>(rt: &R, posts: &Posts<'_>, row: &mut Row, mail: Mail) -> bool
    requires passes { ArePasses posts.now.plan.now posts.now.boxes.items row.old.items }
    requires boxes { length posts.now.boxes.items ≡ last_box posts.now.plan.now + 1 }
    requires is_true { IsTrueMail posts.now.plan.now (tasks_in_all posts.now.plan.now) mail }
    ensures { ArePasses posts.now.plan.now posts.now.boxes.items row.new.items }
{
    posts.plan.facts();
    let at = posts.plan.tasks() as usize;
    send_at(rt, posts, row, at, mail).is_ok()
}

// An acker meets an init, counts up to a tick, and meets the note of the one tuple. How many steps
// it has, and whether a verdict comes.
fn acker_course<R: Wait>(
    rt: &R,
    alloc: Global,
    posts: &Posts<'_>,
    row: &mut Row,
    tick: u64,
) -> Result<(u32, bool), Mismatch>
    requires passes { ArePasses posts.now.plan.now posts.now.boxes.items row.old.items }
    requires boxes { length posts.now.boxes.items ≡ last_box posts.now.plan.now + 1 }
{
    posts.plan.facts();
    let mut desk = acker_desk(alloc, posts.plan, 0)?;
    let init = init_mail(alloc, posts.plan, 0, 0)?;
    let done = done_mail(alloc, posts.plan, 0, 0)?;
    let sent = send_note(rt, posts, row, init);
    let before = acker_steps(rt, alloc, posts, row, &mut desk)?;
    desk.count_up(posts.plan.buckets(), tick);
    let also = send_note(rt, posts, row, done);
    let after = acker_steps(rt, alloc, posts, row, &mut desk)?;
    let told = has_verdict(rt, alloc, posts, row)?;
    Ok((before.wrapping_add(after), told & sent & also))
}

fn acker_case<R: Wait>(rt: &R, alloc: Global, tick: u64) -> Result<(u32, bool), Mismatch> {
    let plan = chain(alloc)?;
    let mut made = Boxes::new(alloc, &plan)?;
    let boxes = &mut made;
    acker_course(rt, alloc, &boxes.posts, &mut boxes.row, tick)
}

// It takes and meets each of the two, and hands over the verdict.
#[test]
fn an_acker_tells_a_root_that_is_two_ticks_old(rt: HostRuntime) -> Result<(), Mismatch> {
    let (steps, told) = acker_case(&rt, rt.alloc(), 2)?;
    assert!(rt; steps == 5 && told);
    Ok(())
}

// A plan has three buckets where it says nothing else.
#[test]
fn an_acker_forgets_a_root_that_is_three_ticks_old(rt: HostRuntime) -> Result<(), Mismatch> {
    let (steps, told) = acker_case(&rt, rt.alloc(), 3)?;
    assert!(rt; steps == 4 && !told);
    Ok(())
}
