//! One stretch of all workers over the seats of an engine.
ghost use Rattle.std.specs.Prelude.{◌≡◌, ◌<◌, ◌≤◌, List, IfOk, OnOk};
ghost use Rattle.std.specs.List.{AllByRecursion};
ghost use Rattle.box_rows.specs.FitRows.{IsFitRow, held_in};
ghost use Rattle.event_engine.specs.Engines.{IsReady, IsStill, cut_in};
ghost use Rattle.pulse_board.specs.Books.{Tells};
ghost use Rattle.pulse_board.specs.Seats.{book_of};
ghost use Rattle.event_worlds.specs.tree_model.declared.messages.Parcel.{Parcel};
ghost use Rattle.worker_stretches.specs.Parts.{AreHands, IsWholeSeat};
ghost use Rattle.worker_stretches.specs.Places.{AreAllSeats, AreInHands, HaveAll, IsSilent};
ghost use Rattle.worker_stretches.specs.Leads.{Leads, SeatsDid};
ghost use Rattle.worker_stretches.specs.Standing.{GoesOn, IsInTime};
ghost use Rattle.worker_stretches.specs.Teams.{TakesMore, boxes_of};

use crate::ackers::{backs_of, offices_of};
use crate::crews::work_hands;
use crate::desks::{desks_of, seats_of};
use crate::hands::{deal, gather};
use box_rows::{Posts, Row};
use event_engine::{AckerSeat, Engine, TaskSeat};
use event_worlds::bolt_ops::RowOp;
use event_worlds::storm_ids::Ids;
use event_worlds::storm_values::Memory;
use event_worlds::topology_plan::Plan;
use pulse_board::{Board, BoardSeat};
use std::alloc::Global;
use std::sync::Wait;
use std::thread::Threads;
use storm_gates::Gate;
use stretch_worlds::stretches_lead_on;
use worker_pool::{AckerDesk, TaskDesk};

// All tasks and ackers are dealt out to so many hands, one after another: first the tasks, and then
// the ackers.
fn dealt<'p, I: Ids>(
    alloc: Global,
    plan: &Plan,
    tasks: Vec<TaskSeat<'p, I>>,
    ackers: Vec<AckerSeat>,
    workers: usize,
) -> Result<(Vec<Vec<TaskDesk<'p, I>>>, Vec<Vec<AckerDesk>>), Memory>
    requires workers { 0 < workers }
    requires seats { AreAllSeats plan.now tasks.items ackers.items }
    ensures hands { IfOk result (λ made. AreHands plan.now made.0.items made.1.items) }
    ensures dealt { IfOk result (λ made.
        AreInHands tasks.entry.items ackers.items made.0.items made.1.items) }
{
    let desks = desks_of(alloc, plan, tasks)?;
    let places = offices_of(alloc, plan, ackers)?;
    let first = desks.len() % workers;
    let hands = deal(alloc, desks, 0, workers)?;
    let offices = deal(alloc, places, first, workers)?;
    Ok((hands, offices))
}

// All tasks and ackers come back to their seats, in the order of their numbers.
fn gathered<'p, I: Ids>(
    alloc: Global,
    plan: &Plan,
    hands: Vec<Vec<TaskDesk<'p, I>>>,
    offices: Vec<Vec<AckerDesk>>,
) -> Result<(Vec<TaskSeat<'p, I>>, Vec<AckerSeat>), Memory>
    requires hands { AreHands plan.now hands.items offices.items }
    requires all { HaveAll plan.now hands.items offices.items }
    ensures seats { IfOk result (λ made. AreAllSeats plan.now made.0.items made.1.items) }
    ensures silent { IfOk result (λ made. AllByRecursion IsSilent made.1.items) }
    ensures gathered { IfOk result (λ made.
        AreInHands made.0.items made.1.items hands.entry.items offices.items) }
{
    let desks = gather(alloc, hands)?;
    let places = gather(alloc, offices)?;
    let tasks = seats_of(alloc, plan, desks)?;
    let ackers = backs_of(alloc, plan, places)?;
    Ok((tasks, ackers))
}

// So many workers have a stretch with the seats of all tasks and ackers.
fn stretch_seats<'p, I: Ids + Send, R: Threads + Wait + Sync, O: RowOp, G: Gate>(
    rt: &R,
    alloc: Global,
    posts: &Posts<'_>,
    board: &Board,
    row: &mut Row,
    seat: &mut BoardSeat,
    tasks: Vec<TaskSeat<'p, I>>,
    ackers: Vec<AckerSeat>,
    workers: usize,
    custom: &O,
    gate: &G,
) -> Result<(Vec<TaskSeat<'p, I>>, Vec<AckerSeat>), Memory>
    requires workers { 0 < workers }
    requires seats { AreAllSeats posts.now.plan.now tasks.items ackers.items }
    requires row { IsFitRow posts.now.plan.now posts.now.boxes.items row.old.items }
    requires seat { IsWholeSeat board.now seat.old }
    ensures row { IsFitRow posts.now.plan.now posts.now.boxes.items row.new.items }
    ensures seat { IsWholeSeat board.now seat.new }
    ensures drawn { (book_of seat.new).drawn ≡ (book_of seat.old).drawn }
    ensures tells { OnOk result (Tells (book_of seat.new)) }
    ensures more { OnOk result (TakesMore row.old.items row.new.items) }
    ensures seats { IfOk result (λ left.
        AreAllSeats posts.now.plan.now left.0.items left.1.items) }
    ensures silent { IfOk result (λ left. AllByRecursion IsSilent left.1.items) }
    ensures did { IfOk result (λ left. SeatsDid I.tells posts.now.plan.now
        (O.meaning custom.now) (book_of seat.new) tasks.entry.items left.0.items ackers.items
        left.1.items (boxes_of row.old.items) (boxes_of row.new.items)) }
{
    let (hands, offices) = dealt(alloc, posts.plan, tasks, ackers, workers)?;
    let (left, more) = work_hands(
        rt, alloc, posts, board, row, seat, hands, offices, custom, gate,
    )?;
    let (tasks, ackers) = gathered(alloc, posts.plan, left, more)?;
    Ok((tasks, ackers))
}

/// One stretch of so many workers, over an engine whose seats are lent to them. Whatever is
/// answered, the row and the seat at the board have all numbers again. Without memory the engine
/// may have lost seats. The seat draws all ticks, and the engine counts them.
pub fn stretch_once<'p, I: Ids + Send, R: Threads + Wait + Sync, O: RowOp, G: Gate>(
    rt: &R,
    alloc: Global,
    posts: &Posts<'_>,
    board: &Board,
    row: &mut Row,
    seat: &mut BoardSeat,
    engine: &mut Engine<'p, I>,
    workers: u32,
    custom: &O,
    gate: &G,
) -> Result<(), Memory>
    requires ready { IsReady posts.now.plan.now (cut_in engine.old) engine.old }
    requires row { IsFitRow posts.now.plan.now posts.now.boxes.items row.old.items }
    requires seat { IsWholeSeat board.now seat.old }
    requires in_time { IsInTime engine.old.tick (book_of seat.old) }
    requires some { 1 ≤ workers }
    requires few { workers ≤ 64 }
    ensures row { IsFitRow posts.now.plan.now posts.now.boxes.items row.new.items }
    ensures seat { IsWholeSeat board.now seat.new }
    ensures drawn { (book_of seat.new).drawn ≡ (book_of seat.old).drawn }
    ensures in_time { OnOk result (IsInTime engine.new.tick (book_of seat.new)) }
    ensures still { IsStill engine.old engine.new }
    ensures ready { OnOk result
        (IsReady posts.now.plan.now (cut_in engine.old) engine.new) }
    ensures orders { OnOk result (engine.new.orders.items ≡ engine.old.orders.items) }
    ensures leads { OnOk result (Leads I.tells posts.now.plan.now (O.meaning custom.now)
        (cut_in engine.old) engine.old engine.new (held_in row.old.items)
        (held_in row.new.items)) }

    // What stood at the engine beside the boxes stands again, whatever is still to be handed over.
    ensures goes_on { (left : List Parcel) → OnOk result (GoesOn I.tells posts.now.plan.now
        (O.meaning custom.now) (cut_in engine.old) 0 engine.old engine.new row.old.items
        row.new.items left left) }
{
    // a law: what work moves in a world and beside it leads on
    stretches_lead_on();
    let (tasks, ackers) = engine.lend_seats()?;
    let count = workers as usize;
    let (left, others) = stretch_seats(
        rt, alloc, posts, board, row, seat, tasks, ackers, count, custom, gate,
    )?;
    engine.return_seats(left, others);
    Ok(())
}
