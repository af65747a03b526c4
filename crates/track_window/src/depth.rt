//! A walk goes one depth down, and what all depths come to.
ghost use Rattle.std.specs.Prelude.{◌≡◌, ◌≤◌, ◌<◌, ◌+◌, ◌∷◌, [], ℕ, List, All, length, replicate, OnOk};
ghost use Rattle.pass_numbers.specs.Numbers.{Numbered};
ghost use Rattle.shared_ledger.specs.declared.rule.Book.{Book};
ghost use Rattle.shared_ledger.specs.Books.{numbers_in};
ghost use Rattle.shared_ledger.specs.Seats.{IsSeatOf, book_of, roots_of};
ghost use Rattle.state_tallies.specs.Tallies.{count_of};
ghost use Rattle.tree_model.specs.storm_values.Rows.{IsRow};
ghost use Rattle.tree_model.specs.storm_values.declared.value.Value.{Value};
ghost use Rattle.tree_model.specs.topology_plan.Wired.{width_of};
ghost use Rattle.track_window.specs.Jobs.{tuples_in};
ghost use Rattle.window_account.specs.Stands.{Opens, Stands};
ghost use Rattle.track_window.specs.Walks.{IsReady};

use crate::acks::act_all;
use crate::execute::execute_all;
use crate::walk::Walk;
use shared_ledger::{LedgerSeat, SharedLedger};
use std::mem::replace;
use std::thread::Threads;
use storm_ids::Ids;
use tree_model::bolt_ops::RowOp;
use tree_model::storm_values::{Memory, Row};
use tree_model::topology_plan::{Origin, Plan};

/// Of fewer tuples than this all are executed by one thread, and no other is made.
const FEWEST: usize = 64;

/// Begins all records, in order.
pub(crate) fn begin_all<N: Ids>(
    plan: &Plan,
    rows: &[Row],
    attempt: u32,
    ledger: &SharedLedger,
    seat: &mut LedgerSeat,
    walk: &mut Walk,
    ids: &mut N,
) -> Result<(), Memory>
    requires rows { All (IsRow (width_of plan.now Origin.Spout)) rows.now }
    requires roots { length rows.now ≤ roots_of ledger.now }
    requires seat { IsSeatOf ledger.now seat.old }
    requires no_calls { (book_of seat.old).calls ≡ [] }
    requires notes { walk.old.notes.items ≡ replicate (length rows.now) [] }
    requires jobs { walk.old.jobs.items ≡ [] }
    ensures seat { IsSeatOf ledger.now seat.new }
    ensures numbers { numbers_in (book_of seat.new) ≡ numbers_in (book_of seat.old) }
    ensures opens { OnOk result (Opens plan.now attempt (length rows.now) rows.now
        (tuples_in walk.new.jobs.items) walk.new.notes.items (book_of seat.new).calls) }
    ensures tallies { OnOk result (walk.new.tallies ≡ walk.old.tallies) }
{
    for number in 0..rows.len() {
        let word = walk.begin(plan, number as u32, attempt, &rows[number], ids)?;
        ledger.init(seat, number as u32, word);
    }
    Ok(())
}

/// Executes the tuples of a depth, makes those of the next one, and acks.
pub(crate) fn go_down<R: Threads + Sync, N: Ids, O: RowOp>(
    rt: &R,
    plan: &Plan,
    workers: u32,
    ledger: &SharedLedger,
    seat: &mut LedgerSeat,
    walk: &mut Walk,
    ids: &mut N,
    custom: &O,
) -> Result<(), Memory>
    requires workers { 1 ≤ workers }
    requires ready { IsReady plan.now (roots_of ledger.now) walk.old }
    requires seat { IsSeatOf ledger.now seat.old }
    ensures seat { IsSeatOf ledger.now seat.new }
    ensures numbered { (others : List Book)
        → Numbered numbers_in (book_of seat.old ∷ others)
        → Numbered numbers_in (book_of seat.new ∷ others) }
    ensures stands { OnOk result ((attempt depth levels : ℕ) (rows : List (List Value))
        → Stands plan.now (O.meaning custom.now) attempt depth (levels + 1) rows
        (tuples_in walk.old.jobs.items) walk.old.notes.items (book_of seat.old).calls
        (count_of walk.old.tallies)
        → Stands plan.now (O.meaning custom.now) attempt (depth + 1) levels rows
        (tuples_in walk.new.jobs.items) walk.new.notes.items (book_of seat.new).calls
        (count_of walk.new.tallies)) }
    ensures components { OnOk result (length walk.new.tallies ≡ length walk.old.tallies) }
{
    let alloc = walk.alloc;
    let count = walk.notes.len();
    let mut jobs = replace(&mut walk.jobs, Vec::new(alloc));
    let threads = if jobs.len() < FEWEST {
        1
    } else {
        workers as usize
    };
    execute_all(rt, alloc, plan, custom, jobs.as_mut_slice(), threads);
    walk.acts.clear();
    walk.settle_all(plan, custom, count, jobs, ids)?;
    act_all(rt, ledger, seat, walk.acts.as_slice(), workers);
    Ok(())
}
