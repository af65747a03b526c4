ghost use Rattle.std.specs.Prelude.{◌≡◌, ◌≤◌, ℕ, List, [], ◌∷◌, All, true, length, map, slice_get, Some, IfOk};
ghost use Rattle.pass_numbers.specs.Numbers.{IsWhole};
ghost use Rattle.shared_ledger.specs.Books.{numbers_in};
ghost use Rattle.shared_ledger.specs.Seats.{IsSeatOf, book_of, roots_of};
ghost use Rattle.state_tallies.specs.Tallies.{capped, count_of};
ghost use Rattle.tree_model.specs.storm_values.Rows.{IsRow};
ghost use Rattle.tree_model.specs.storm_values.declared.value.Value.{Value};
ghost use Rattle.tree_model.specs.topology_plan.Wired.{width_of};
ghost use Rattle.tree_model.specs.declared.messages.AckMsg.{AckMsg};
ghost use Rattle.tree_model.specs.Lists.{Covers};
ghost use Rattle.tracked_trees.specs.Reached.{is_good};
ghost use Rattle.track_window.specs.Noted.{IsNoted, count_in_window};

use crate::depth::{begin_all, go_down};
use crate::judge::judge_all;
use crate::walk::Walk;
use message_lists::Notes;
use shared_ledger::{LedgerSeat, SharedLedger};
use state_tallies::Tallies;
use std::alloc::Global;
use std::thread::Threads;
use storm_ids::Ids;
use tree_model::bolt_ops::RowOp;
use tree_model::storm_values::{Memory, Row};
use tree_model::topology_plan::{Origin, Plan};

/// What an attempt at the records of a window came to.
#[derive(Drop)]
pub struct Window {
    /// Whether each record is acked.
    pub acked: Vec<bool>,
    /// The messages of each record, in the order of their calls at the ledger.
    pub notes: Vec<Notes>,
    /// How many nodes of each state and key were reached.
    pub tallies: Tallies,
}

/// An attempt at the records of a window. The record at the place i, from 0, is the ledger's root
/// i, and its messages are of the root with the txid i + 1. A record is acked where its word is 0,
/// it has not failed, and no edge of its messages is open.
///
/// Ids are drawn in the order of depths, roots and paths, whatever the number of workers; nothing
/// is asked of them. Whether threads are made is shown by no clause. It takes time in proportion to
/// what is reached, and memory for the messages. Without memory the seat is whole again, and its
/// book may have some of the calls.
pub fn track_window<R: Threads + Sync, N: Ids, O: RowOp>(
    rt: &R,
    alloc: Global,
    plan: &Plan,
    rows: &[Row],
    attempt: u32,
    workers: u32,
    ledger: &SharedLedger,
    seat: &mut LedgerSeat,
    ids: &mut N,
    custom: &O,
) -> Result<Window, Memory>
    requires rows { All (IsRow (width_of plan.now Origin.Spout)) rows.now }
    requires roots { length rows.now ≤ roots_of ledger.now }
    requires least { 1 ≤ workers }
    requires most { workers ≤ 64 }
    requires seat { IsSeatOf ledger.now seat.old }
    requires whole { IsWhole (numbers_in (book_of seat.old)) }
    requires no_calls { (book_of seat.old).calls ≡ [] }
    ensures seat { IsSeatOf ledger.now seat.new }
    ensures whole { IsWhole (numbers_in (book_of seat.new)) }
    ensures count { IfOk result (λ w. length w.notes.items ≡ length rows.now) }
    ensures notes { IfOk result (λ w. (number : ℕ) (row : List Value) (list : List AckMsg)
        → slice_get rows.now number ≡ Some row → slice_get w.notes.items number ≡ Some list
        → IsNoted plan.now (O.meaning custom.now) attempt (book_of seat.new) number row list) }
    ensures covers { IfOk result (λ w. (number : ℕ) (row : List Value) (list : List AckMsg)
        → slice_get rows.now number ≡ Some row → slice_get w.notes.items number ≡ Some list
        → slice_get w.acked.items number ≡ Some true
        → Covers plan.now (O.meaning custom.now) (row ∷ []) list) }
    ensures acked { IfOk result
        (λ w. w.acked.items ≡ map (is_good plan.now (O.meaning custom.now) attempt) rows.now) }
    ensures components { IfOk result
        (λ w. length w.tallies ≡ length plan.now.components) }
    ensures tallies { IfOk result (λ w. (state : ℕ) (key : List ℕ) → count_of w.tallies state key
        ≡ capped (count_in_window plan.now (O.meaning custom.now) attempt rows.now state key)) }
{
    plan.facts();
    let mut walk = Walk::new(alloc, plan, rows.len())?;
    begin_all(plan, rows, attempt, ledger, seat, &mut walk, ids)?;
    for _ in 0..plan.components() {
        go_down(rt, plan, workers, ledger, seat, &mut walk, ids, custom)?;
    }
    walk.tallies.facts();
    let acked = judge_all(alloc, ledger, seat, walk.notes.as_slice())?;
    Ok(Window {
        acked,
        notes: walk.notes,
        tallies: walk.tallies,
    })
}
