//! Calls at a ledger, by several threads with a seat each.
ghost use Rattle.std.specs.Prelude.{◌≡◌, ◌<◌, ◌++◌, ◌∷◌, [], All, map};
ghost use denote.Param.Send.{IsSync};
ghost use Rattle.shared_ledger.specs.Books.{numbers_in};
ghost use Rattle.shared_ledger.specs.Seats.{IsSeatOf, book_of, roots_of};
ghost use Rattle.track_window.specs.Acts.{Acted, IsActBelow, call_of_act};

use crate::job::Act;
use shared_ledger::{LedgerSeat, SharedLedger};
use std::thread::{Threads, join_mut};

/// Of fewer calls than this all are made by one thread, and no other is made.
const FEWEST: usize = 256;

/// Makes the calls, and leaves them in the seat's book in their order. Long lists are halved, so
/// that each of so many workers has a piece, with a seat of its own.
#[cycle(acts)]
pub(crate) fn act_all<R: Threads + Sync>(
    rt: &R,
    ledger: &SharedLedger,
    seat: &mut LedgerSeat,
    acts: &[Act],
    workers: u32,
)
    requires seat { IsSeatOf ledger.now seat.old }
    requires roots { All (IsActBelow (roots_of ledger.now)) acts.now }
    ensures seat { IsSeatOf ledger.now seat.new }
    ensures acted { Acted acts.now (book_of seat.old) (book_of seat.new) }
{
    if workers < 2 || acts.len() < FEWEST {
        return act_each(ledger, seat, acts);
    }
    let mut other = ledger.split(seat);
    let (first, rest) = acts.split_at(acts.len() / 2);
    let few = workers / 2;
    act_both(
        rt,
        ledger,
        seat,
        first,
        workers - few,
        &mut other,
        rest,
        few,
    );
    ledger.join(seat, other);
}

/// Makes the calls behind in a thread of their own, and those in front in this one.
#[cycle(acts)]
fn act_both<R: Threads + Sync>(
    rt: &R,
    ledger: &SharedLedger,
    seat: &mut LedgerSeat,
    first: &[Act],
    most: u32,
    other: &mut LedgerSeat,
    rest: &[Act],
    few: u32,
)
    requires seat { IsSeatOf ledger.now seat.old }
    requires other { IsSeatOf ledger.now other.old }
    requires first { All (IsActBelow (roots_of ledger.now)) first.now }
    requires rest { All (IsActBelow (roots_of ledger.now)) rest.now }
    requires most { 0 < most }
    requires few { 0 < few }
    ensures seat { IsSeatOf ledger.now seat.new }
    ensures other { IsSeatOf ledger.now other.new }
    ensures first { Acted first.now (book_of seat.old) (book_of seat.new) }
    ensures rest { Acted rest.now (book_of other.old) (book_of other.new) }
{
    let mut behind = ||
        requires { IsSync R.row × IsSeatOf ledger.now other.now
            × All (IsActBelow (roots_of ledger.now)) rest.now }
        ensures { IsSeatOf ledger.entry.now other.exit.now
            × Acted rest.entry.now (book_of other.entry.now) (book_of other.exit.now) }
    { act_all(rt, ledger, other, rest, few) };
    let mut ahead = ||
        requires { IsSync R.row × IsSeatOf ledger.now seat.now
            × All (IsActBelow (roots_of ledger.now)) first.now }
        ensures { IsSeatOf ledger.entry.now seat.exit.now
            × Acted first.entry.now (book_of seat.entry.now) (book_of seat.exit.now) }
    { act_all(rt, ledger, seat, first, most) };
    join_mut(rt, &mut behind, &mut ahead);
}

fn act_each(ledger: &SharedLedger, seat: &mut LedgerSeat, acts: &[Act])
    requires seat { IsSeatOf ledger.now seat.old }
    requires roots { All (IsActBelow (roots_of ledger.now)) acts.now }
    ensures seat { IsSeatOf ledger.now seat.new }
    ensures calls { (book_of seat.new).calls
        ≡ (book_of seat.old).calls ++ map call_of_act acts.now }
    ensures numbers { numbers_in (book_of seat.new) ≡ numbers_in (book_of seat.old) }
{
    for act in acts {
        act_on(ledger, seat, *act);
    }
}

fn act_on(ledger: &SharedLedger, seat: &mut LedgerSeat, act: Act)
    requires seat { IsSeatOf ledger.now seat.old }
    requires root { IsActBelow (roots_of ledger.now) act }
    ensures seat { IsSeatOf ledger.now seat.new }
    ensures calls { (book_of seat.new).calls
        ≡ (book_of seat.old).calls ++ call_of_act act ∷ [] }
    ensures numbers { numbers_in (book_of seat.new) ≡ numbers_in (book_of seat.old) }
{
    match act {
        Act::Ack(root, word) => {
            ledger.ack(seat, root, word);
        }
        Act::Fail(root) => ledger.fail(seat, root),
    }
}
