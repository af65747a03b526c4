//! Two threads at one ledger, each with a seat of its own.
ghost use Rattle.std.specs.Prelude.{◌≡◌, ◌<◌, ◌++◌, ◌∷◌, [], bit_xor};
ghost use Rattle.pass_numbers.specs.Numbers.{IsWhole};
ghost use Rattle.shared_ledger.specs.Books.{acked, ack_of, numbers_in, last_word_in, word_of};
ghost use Rattle.shared_ledger.specs.Seats.{IsSeatOf, book_of, roots_of};

use shared_ledger::{LedgerSeat, SharedLedger};
use std::thread::{Threads, join};

// Acks a root, and gives the seat back.
fn ack_with(ledger: &SharedLedger, mut seat: LedgerSeat, root: u32, word: u64) -> LedgerSeat
    requires seat { IsSeatOf ledger.now seat }
    requires root { root < roots_of ledger.now }
    ensures seat { IsSeatOf ledger.now result }
    ensures book { book_of result ≡
        acked (book_of seat) root word (last_word_in (book_of result)) }
{
    ledger.ack(&mut seat, root, word);
    seat
}

/// Acks a root twice, in two threads. The seat that comes back has both acks, the first one before
/// the second, whichever was made first, and is whole if it was before.
pub fn ack_both<R: Threads + Sync>(
    rt: &R,
    ledger: &SharedLedger,
    mut seat: LedgerSeat,
    root: u32,
    first: u64,
    second: u64,
) -> LedgerSeat
    requires seat { IsSeatOf ledger.now seat }
    requires root { root < roots_of ledger.now }
    ensures seat { IsSeatOf ledger.now result }
    ensures calls { (book_of result).calls ≡
        ((book_of seat).calls ++ ack_of root first ∷ []) ++ ack_of root second ∷ [] }
    ensures whole { IsWhole (numbers_in (book_of seat)) → IsWhole (numbers_in (book_of result)) }
{
    let other = ledger.split(&mut seat);
    let (mut seat, other) = join(
        rt,
        || -> LedgerSeat
            requires seat { IsSeatOf ledger.now seat }
            requires root { root < roots_of ledger.now }
            ensures seat { IsSeatOf ledger.entry.now result }
            ensures book { book_of result ≡
                acked (book_of seat) root first (last_word_in (book_of result)) }
        { ack_with(ledger, seat, root, first) },
        || -> LedgerSeat
            requires seat { IsSeatOf ledger.now other }
            requires root { root < roots_of ledger.now }
            ensures seat { IsSeatOf ledger.entry.now result }
            ensures book { book_of result ≡
                acked (book_of other) root second (last_word_in (book_of result)) }
        { ack_with(ledger, other, root, second) },
    );
    ledger.join(&mut seat, other);
    seat
}

/// The word of a root after two acks in two threads: each is in it, whatever the schedule.
pub fn word_after_both<R: Threads + Sync>(
    rt: &R,
    ledger: &SharedLedger,
    seat: LedgerSeat,
    root: u32,
    first: u64,
    second: u64,
) -> u64
    requires seat { IsSeatOf ledger.now seat }
    requires root { root < roots_of ledger.now }
    requires whole { IsWhole (numbers_in (book_of seat)) }
    ensures { result ≡ bit_xor (bit_xor (word_of root (book_of seat)) first) second }
{
    let mut seat = ack_both(rt, ledger, seat, root, first, second);
    ledger.state(&mut seat, root).word
}
