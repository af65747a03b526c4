//! Which records are acked.
ghost use Rattle.std.specs.Prelude.{◌≡◌, ◌≤◌, ◌<◌, ℕ, List, length, slice_get, Some, IfOk, ◌↔◌, true};
ghost use Rattle.std.specs.List.{AllZip};
ghost use Rattle.ledger_words.specs.Notes.{HoldsNotes};
ghost use Rattle.pass_numbers.specs.Numbers.{IsWhole};
ghost use Rattle.shared_ledger.specs.Books.{numbers_in};
ghost use Rattle.shared_ledger.specs.Seats.{IsSeatOf, book_of, roots_of};
ghost use Rattle.tree_model.specs.declared.messages.AckMsg.{AckMsg};
ghost use Rattle.tree_model.specs.Lists.{IsClosed};
ghost use Rattle.track_window.specs.Noted.{IsJudged};

use acker_core::{Check, check_list};
use ledger_words::words_of_notes;
use message_lists::Notes;
use shared_ledger::{LedgerSeat, SharedLedger};
use std::alloc::Global;
use tree_model::storm_values::Memory;

/// Whether each record is acked.
pub(crate) fn judge_all(
    alloc: Global,
    ledger: &SharedLedger,
    seat: &mut LedgerSeat,
    notes: &[Notes],
) -> Result<Vec<bool>, Memory>
    requires seat { IsSeatOf ledger.now seat.old }
    requires whole { IsWhole (numbers_in (book_of seat.old)) }
    requires roots { length notes.now ≤ roots_of ledger.now }
    requires held { (number : ℕ) (list : List AckMsg) → slice_get notes.now number ≡ Some list
        → HoldsNotes number (book_of seat.old) list }
    ensures seat { IsSeatOf ledger.now seat.new }
    ensures book { book_of seat.new ≡ book_of seat.old }
    ensures judged { IfOk result (λ acked. AllZip IsJudged notes.now acked.items) }
{
    let mut acked = Vec::with_capacity(alloc, notes.len())?;
    for number in 0..notes.len() {
        let is_acked = is_acked(alloc, ledger, seat, number as u32, &notes[number])?;
        acked.push(is_acked)?;
    }
    Ok(acked)
}

/// Whether a record is acked: its word is 0, it has not failed, and no edge of its messages is
/// open.
fn is_acked(
    alloc: Global,
    ledger: &SharedLedger,
    seat: &mut LedgerSeat,
    number: u32,
    list: &Notes,
) -> Result<bool, Memory>
    requires seat { IsSeatOf ledger.now seat.old }
    requires whole { IsWhole (numbers_in (book_of seat.old)) }
    requires root { number < roots_of ledger.now }
    requires held { HoldsNotes number (book_of seat.old) list.now }
    ensures seat { IsSeatOf ledger.now seat.new }
    ensures book { book_of seat.new ≡ book_of seat.old }
    ensures judged { IfOk result (IsJudged list.now) }
{
    words_of_notes();
    let state = ledger.state(seat, number);
    if state.word != 0 {
        return Ok(false);
    }
    if state.failed {
        return Ok(false);
    }
    is_closed(alloc, list)
}

/// Whether no edge of messages is open.
fn is_closed(alloc: Global, list: &Notes) -> Result<bool, Memory>
    ensures { IfOk result (λ closed. closed ≡ true ↔ IsClosed list.now) }
{
    match check_list(alloc, list)? {
        Check::Closed(_) => return Ok(true),
        Check::Left(_) => return Ok(false),
    }
}
