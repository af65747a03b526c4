//! Workers made of hands, rows and seats, their stretch, and what they leave.
ghost use Rattle.std.specs.Prelude.{◌≡◌, ◌≤◌, ◌+◌, [], false, length, map, vec_capacity};
ghost use Rattle.std.specs.Prelude.{IfOk, OnOk};
ghost use Rattle.std.specs.List.{AllByRecursion, AllZip};
ghost use Rattle.std.specs.List.Sorted.{IsPermutation};
ghost use Rattle.box_rows.specs.AllRows.{ArePassesIn, HasJoined};
ghost use Rattle.box_rows.specs.FitRows.{AreWhole, IsFitRow};
ghost use Rattle.box_rows.specs.Mails.{last_box};
ghost use Rattle.box_rows.specs.Rows.{ArePasses};
ghost use Rattle.pulse_board.specs.Books.{Tells};
ghost use Rattle.pulse_board.specs.Seats.{IsSeatOf, book_of};
ghost use Rattle.worker_pool.specs.Workers.{IsReady, Stretched};
ghost use Rattle.worker_stretches.specs.Hands.{items_in};
ghost use Rattle.worker_stretches.specs.Parts.{AreHands, AreRooms, HaveNumbers, IsOf, IsWholeSeat};
ghost use Rattle.worker_stretches.specs.Parts.{DrewNone, HasEnough, KnowsOf};
ghost use Rattle.worker_stretches.specs.Parts.{ackers_in, desks_in, row_in};
ghost use Rattle.worker_stretches.specs.Teams.{TakesMore, TeamDid, books_of, boxes_of};

use box_rows::{Posts, Row, join_row, look_row, split_rows};
use event_worlds::bolt_ops::RowOp;
use event_worlds::storm_ids::Ids;
use event_worlds::storm_values::Memory;
use pulse_board::{Board, BoardSeat};
use std::alloc::{AllocError, Global};
use std::collections::VecDeque;
use std::sync::Wait;
use std::thread::Threads;
use storm_gates::Gate;
use worker_pool::{AckerDesk, Spares, TaskDesk, Worker, stretch_all};

// A worker for each row, with a hand of desks and one of ackers, and a seat of its own.
fn crews_of<'p, I: Ids>(
    alloc: Global,
    posts: &Posts<'_>,
    board: &Board,
    seat: &mut BoardSeat,
    rows: Vec<Row>,
    hands: Vec<Vec<TaskDesk<'p, I>>>,
    offices: Vec<Vec<AckerDesk>>,
    room: Vec<Worker<'p, I>>,
) -> Vec<Worker<'p, I>>
    requires boxes { length posts.now.boxes.items ≡ last_box posts.now.plan.now + 1 }
    requires rows { AllByRecursion (ArePassesIn posts.now.plan.now posts.now.boxes.items)
        rows.items }
    requires hands { AreHands posts.now.plan.now hands.items offices.items }
    requires many { length rows.items ≡ length hands.items }
    requires seat { IsWholeSeat board.now seat.old }
    requires empty { room.items ≡ [] }
    requires room { length hands.items ≤ vec_capacity room }
    ensures seat { IsSeatOf board.now seat.new }
    ensures drawn { (book_of seat.new).drawn ≡ (book_of seat.old).drawn }
    ensures none_drawn { AllByRecursion DrewNone result.items }
    ensures numbers { HaveNumbers seat.new result.items }
    ensures ready { AllByRecursion
        (IsReady posts.now.plan.now posts.now.boxes.items board.now) result.items }
    ensures rows { map row_in result.items ≡ rows.items }
    ensures desks { map desks_in result.items ≡ hands.entry.items }
    ensures ackers { map ackers_in result.items ≡ offices.items }
{
    let _ = posts;
    let mut crews = room;
    let mut rest = VecDeque::from_vec(rows);
    let mut left = VecDeque::from_vec(hands);
    let mut more = VecDeque::from_vec(offices);
    while let Some(row) = rest.pop_front() {
        let desks = left.pop_front().unwrap();
        let ackers = more.pop_front().unwrap();
        let own = board.split(seat);
        crews.push_reserved(Worker {
            desks,
            ackers,
            row,
            seat: own,
            spares: Spares::new(alloc),
            turns: 0,
            wants: false,
        });
    }
    crews
}

// All workers have a stretch.
fn work<'p, I: Ids + Send, R: Threads + Wait + Sync, O: RowOp, G: Gate>(
    rt: &R,
    posts: &Posts<'_>,
    board: &Board,
    crews: &mut Vec<Worker<'p, I>>,
    custom: &O,
    gate: &G,
)
    requires ready { AllByRecursion
        (IsReady posts.now.plan.now posts.now.boxes.items board.now) crews.old.items }
    ensures { AllZip (Stretched I.tells posts.now.plan.now posts.now.boxes.items board.now
        (O.meaning custom.now)) crews.old.items crews.new.items }
{
    let threads = crews.len();
    if threads == 0 {
        return;
    }
    stretch_all(
        rt,
        posts,
        board,
        crews.as_mut_slice(),
        threads,
        custom,
        gate,
    );
}

// What workers leave: their hands, and whether one of them wanted memory. Their rows and seats are
// joined.
fn taken_apart<'p, I: Ids>(
    posts: &Posts<'_>,
    board: &Board,
    row: &mut Row,
    seat: &mut BoardSeat,
    crews: Vec<Worker<'p, I>>,
    hands: Vec<Vec<TaskDesk<'p, I>>>,
    offices: Vec<Vec<AckerDesk>>,
) -> (Vec<Vec<TaskDesk<'p, I>>>, Vec<Vec<AckerDesk>>, bool)
    requires passes { ArePasses posts.now.plan.now posts.now.boxes.items row.old.items }
    requires seat { IsSeatOf board.now seat.old }
    requires numbers { HaveNumbers seat.old crews.items }
    requires crews { AllByRecursion (IsOf posts.now.plan.now posts.now.boxes.items board.now)
        crews.items }
    requires hands { hands.items ≡ [] }
    requires offices { offices.items ≡ [] }
    requires hands_room { length crews.items ≤ vec_capacity hands }
    requires offices_room { length crews.items ≤ vec_capacity offices }
    ensures passes { ArePasses posts.now.plan.now posts.now.boxes.items row.new.items }
    ensures joined { HasJoined row.old.items (map row_in crews.entry.items) row.new.items [] }
    ensures seat { IsWholeSeat board.now seat.new }
    ensures drawn { (book_of seat.new).drawn ≡ (book_of seat.old).drawn }
    ensures knows { AllByRecursion (KnowsOf (book_of seat.new)) crews.entry.items }
    ensures desks { IsPermutation (items_in (map desks_in crews.entry.items))
        (items_in result.0.items) }
    ensures ackers { IsPermutation (items_in (map ackers_in crews.entry.items))
        (items_in result.1.items) }
    ensures many { length result.1.items ≡ length result.0.items }
    ensures wants { result.2 ≡ false → AllByRecursion HasEnough crews.entry.items }
{
    let mut wants = false;
    let mut given = hands;
    let mut met = offices;
    let mut rest = crews;
    while let Some(worker) = rest.pop() {
        let Worker {
            desks,
            ackers,
            row: own,
            seat: mine,
            spares: _,
            turns: _,
            wants: short,
        } = worker;
        join_row(posts, row, own);
        board.join(seat, mine);
        given.push_reserved(desks);
        met.push_reserved(ackers);
        wants = wants | short;
    }
    (given, met, wants)
}

// Room for so many workers, and for the hands that they leave.
fn rooms<'p, I: Ids>(
    alloc: Global,
    count: usize,
) -> Result<
    (
        Vec<Worker<'p, I>>,
        Vec<Vec<TaskDesk<'p, I>>>,
        Vec<Vec<AckerDesk>>,
    ),
    Memory,
>
    ensures { IfOk result (λ made. AreRooms count made.0 made.1 made.2) }
{
    let room = Vec::with_capacity(alloc, count)?;
    let given = Vec::with_capacity(alloc, count)?;
    let met = Vec::with_capacity(alloc, count)?;
    Ok((room, given, met))
}

// Workers with these hands have a stretch over a row, which has all numbers again after it, as the
// seat has, whatever comes of it. Then the seat looks how many ticks there were, no fewer than any
// worker has seen.
fn work_rows<'p, I: Ids + Send, R: Threads + Wait + Sync, O: RowOp, G: Gate>(
    rt: &R,
    alloc: Global,
    posts: &Posts<'_>,
    board: &Board,
    row: &mut Row,
    seat: &mut BoardSeat,
    hands: Vec<Vec<TaskDesk<'p, I>>>,
    offices: Vec<Vec<AckerDesk>>,
    custom: &O,
    gate: &G,
) -> Result<(Vec<Vec<TaskDesk<'p, I>>>, Vec<Vec<AckerDesk>>), Memory>
    requires row { IsFitRow posts.now.plan.now posts.now.boxes.items row.old.items }
    requires seat { IsWholeSeat board.now seat.old }
    requires hands { AreHands posts.now.plan.now hands.items offices.items }
    ensures passes { ArePasses posts.now.plan.now posts.now.boxes.items row.new.items }
    ensures whole { AreWhole row.new.items }
    ensures seat { IsWholeSeat board.now seat.new }
    ensures drawn { (book_of seat.new).drawn ≡ (book_of seat.old).drawn }
    ensures tells { OnOk result (Tells (book_of seat.new)) }
    ensures more { OnOk result (TakesMore row.old.items row.new.items) }
    ensures hands { IfOk result (λ left.
        AreHands posts.now.plan.now left.0.items left.1.items) }
    ensures did { IfOk result (λ left. TeamDid I.tells posts.now.plan.now
        (O.meaning custom.now) (book_of seat.new) (items_in hands.entry.items)
        (items_in left.0.items) (items_in offices.items) (items_in left.1.items)
        (books_of row.old.items row.new.items) (books_of row.new.items row.old.items)) }
{
    let count = hands.len();
    let (room, given, met) = rooms(alloc, count)?;
    let rows = split_rows(alloc, posts, row, count)?;
    let mut crews = crews_of(alloc, posts, board, seat, rows, hands, offices, room);
    work(rt, posts, board, &mut crews, custom, gate);
    let (left, more, wants) = taken_apart(posts, board, row, seat, crews, given, met);
    board.ticks(seat);
    if wants {
        return Err(AllocError);
    }
    Ok((left, more))
}

/// The same, and then the row says what all boxes hold.
pub(crate) fn work_hands<'p, I: Ids + Send, R: Threads + Wait + Sync, O: RowOp, G: Gate>(
    rt: &R,
    alloc: Global,
    posts: &Posts<'_>,
    board: &Board,
    row: &mut Row,
    seat: &mut BoardSeat,
    hands: Vec<Vec<TaskDesk<'p, I>>>,
    offices: Vec<Vec<AckerDesk>>,
    custom: &O,
    gate: &G,
) -> Result<(Vec<Vec<TaskDesk<'p, I>>>, Vec<Vec<AckerDesk>>), Memory>
    requires row { IsFitRow posts.now.plan.now posts.now.boxes.items row.old.items }
    requires seat { IsWholeSeat board.now seat.old }
    requires hands { AreHands posts.now.plan.now hands.items offices.items }
    ensures row { IsFitRow posts.now.plan.now posts.now.boxes.items row.new.items }
    ensures seat { IsWholeSeat board.now seat.new }
    ensures drawn { (book_of seat.new).drawn ≡ (book_of seat.old).drawn }
    ensures tells { OnOk result (Tells (book_of seat.new)) }
    ensures more { OnOk result (TakesMore row.old.items row.new.items) }
    ensures hands { IfOk result (λ left.
        AreHands posts.now.plan.now left.0.items left.1.items) }
    ensures did { IfOk result (λ left. TeamDid I.tells posts.now.plan.now
        (O.meaning custom.now) (book_of seat.new) (items_in hands.entry.items)
        (items_in left.0.items) (items_in offices.items) (items_in left.1.items)
        (boxes_of row.old.items) (boxes_of row.new.items)) }
{
    let done = work_rows(
        rt, alloc, posts, board, row, seat, hands, offices, custom, gate,
    );
    look_row(posts, row);
    let (left, more) = done?;
    Ok((left, more))
}
