//! The calls of a ledger. Each is one step on one of its words; `state` is two.
ghost use Rattle.std.specs.Prelude.{◌≡◌, ◌<◌, ◌≤◌, ◌∷◌, List, true, IfOk, ◌↔◌};
ghost use Rattle.pass_numbers.specs.Numbers.{Numbered, IsWhole};
ghost use Rattle.shared_ledger.specs.declared.rule.Book.{Book};
ghost use Rattle.shared_ledger.specs.declared.ledger.WordTold.TheVariants.{Zero};
ghost use Rattle.shared_ledger.specs.Books.{first_book, inited, acked, failed};
ghost use Rattle.shared_ledger.specs.Books.{kept_of, cut_of, both_of};
ghost use Rattle.shared_ledger.specs.Books.{numbers_in, last_word_in, has_seen, word_of, fails_of};
ghost use Rattle.shared_ledger.specs.Seats.{IsSeatOf, book_of, roots_of};

use crate::marks::Marks;
use crate::rule::{AckWord, Cut, FailWord, InitWord, Joined, LookAtFail, LookAtWord};
use crate::seat::{LedgerSeat, SharedLedger};
use atomic_table::Table;
use std::alloc::Global;
use storm_values::Memory;

/// What an `ack` tells.
#[derive(Clone, Copy, PartialEq, Debug)]
pub enum WordTold {
    /// The word was 0 after the step, and the seat has seen the root's `init`.
    Zero,
    Open,
}

/// The words of a root.
#[derive(Clone, Copy, PartialEq, Debug)]
pub struct WordState {
    pub word: u64,
    pub failed: bool,
}

impl SharedLedger {
    /// A ledger in which all words are 0, and its one seat.
    pub fn new(alloc: Global, roots: u32) -> Result<(SharedLedger, LedgerSeat), Memory>
        requires least { 1 ≤ roots }
        requires most { roots ≤ 1024 }
        ensures roots { IfOk result (λ made. roots_of made.0 ≡ roots) }
        ensures seat { IfOk result (λ made. IsSeatOf made.0 made.1) }
        ensures book { IfOk result (λ made. book_of made.1 ≡ first_book) }
        ensures whole { IfOk result (λ made. IsWhole (numbers_in (book_of made.1))) }
    {
        let words = Vec::from_elem(alloc, 0u64, 2 * roots as usize)?;
        let (table, inner) = Table::of_words(alloc, words.as_slice(), &roots)?;
        let seat = LedgerSeat {
            inner,
            seen: Marks::none(),
        };
        Ok((SharedLedger { table, roots }, seat))
    }

    /// Toggles the root's word by this one, and notes that the seat has seen the root's `init`. It
    /// answers the word after its step.
    pub fn init(&self, seat: &mut LedgerSeat, root: u32, word: u64) -> u64
        requires seat { IsSeatOf self.now seat.old }
        requires root { root < roots_of self.now }
        ensures seat { IsSeatOf self.now seat.new }
        ensures book { book_of seat.new ≡ inited (book_of seat.old) root word result }
        ensures whole { IsWhole (numbers_in (book_of seat.old)) →
            result ≡ word_of root (book_of seat.new) }
    {
        seat.seen.add(root);
        let shared = &self.table.shared;
        let found = shared.fetch_xor::<InitWord>(&mut seat.inner, 2 * root as usize, word);
        found ^ word
    }

    /// Toggles the root's word by this one.
    pub fn ack(&self, seat: &mut LedgerSeat, root: u32, word: u64) -> WordTold
        requires seat { IsSeatOf self.now seat.old }
        requires root { root < roots_of self.now }
        ensures seat { IsSeatOf self.now seat.new }
        ensures book { book_of seat.new ≡
            acked (book_of seat.old) root word (last_word_in (book_of seat.new)) }

        // It tells of the word after its step, which of a whole seat is that of its own book.
        ensures told { result ≡ Zero ↔ (last_word_in (book_of seat.new) ≡ 0)
            × (has_seen root (book_of seat.old) ≡ true) }
        ensures whole { IsWhole (numbers_in (book_of seat.old)) →
            (result ≡ Zero ↔ (word_of root (book_of seat.new) ≡ 0)
            × (has_seen root (book_of seat.old) ≡ true)) }
    {
        let shared = &self.table.shared;
        let found = shared.fetch_xor::<AckWord>(&mut seat.inner, 2 * root as usize, word);
        if found ^ word == 0 && seat.seen.has(root) {
            WordTold::Zero
        } else {
            WordTold::Open
        }
    }

    /// Marks the root as failed. That is never taken back.
    pub fn fail(&self, seat: &mut LedgerSeat, root: u32)
        requires seat { IsSeatOf self.now seat.old }
        requires root { root < roots_of self.now }
        ensures seat { IsSeatOf self.now seat.new }
        ensures book { book_of seat.new ≡ failed (book_of seat.old) root }
    {
        let shared = &self.table.shared;
        shared.fetch_or::<FailWord>(&mut seat.inner, 2 * root as usize + 1, 1);
    }

    /// The root's word, and then whether it has failed. These are two loads: where the seat is not
    /// whole, others may have calls between them.
    pub fn state(&self, seat: &mut LedgerSeat, root: u32) -> WordState
        requires seat { IsSeatOf self.now seat.old }
        requires root { root < roots_of self.now }
        ensures seat { IsSeatOf self.now seat.new }
        ensures book { book_of seat.new ≡ book_of seat.old }
        ensures own { 1 ≤ fails_of root (book_of seat.old) → result.failed ≡ true }
        ensures word { IsWhole (numbers_in (book_of seat.old)) →
            result.word ≡ word_of root (book_of seat.old) }
        ensures failed { IsWhole (numbers_in (book_of seat.old)) →
            (result.failed ≡ true ↔ 1 ≤ fails_of root (book_of seat.old)) }
    {
        let shared = &self.table.shared;
        let word = shared.load::<LookAtWord>(&mut seat.inner, 2 * root as usize);
        let failed = shared.load::<LookAtFail>(&mut seat.inner, 2 * root as usize + 1) == 1;
        WordState { word, failed }
    }

    /// A second seat with no calls, which has seen what this one has.
    pub fn split(&self, seat: &mut LedgerSeat) -> LedgerSeat
        requires { IsSeatOf self.now seat.old }
        ensures seat { IsSeatOf self.now seat.new }
        ensures new_seat { IsSeatOf self.now result }
        ensures book { book_of seat.new ≡ kept_of (book_of seat.old) }
        ensures new_book { book_of result ≡ cut_of (book_of seat.old) }

        // Seats that had all numbers, each once, have them with the new one.
        ensures numbered { (others : List Book) →
            Numbered numbers_in (book_of seat.old ∷ others) →
            Numbered numbers_in (book_of seat.new ∷ book_of result ∷ others) }
    {
        let inner = self.table.shared.split_seat::<Cut>(&mut seat.inner);
        LedgerSeat {
            inner,
            seen: seat.seen,
        }
    }

    /// Appends the other's calls to the book of `into`, which has then seen what either has.
    pub fn join(&self, into: &mut LedgerSeat, other: LedgerSeat)
        requires seat { IsSeatOf self.now into.old }
        requires other { IsSeatOf self.now other }
        ensures seat { IsSeatOf self.now into.new }
        ensures book { book_of into.new ≡ both_of (book_of into.old) (book_of other) }

        // Seats that had all numbers, each once, have them without the other.
        ensures numbered { (others : List Book) →
            Numbered numbers_in (book_of into.old ∷ book_of other ∷ others) →
            Numbered numbers_in (book_of into.new ∷ others) }
    {
        into.seen.add_all(&other.seen);
        let shared = &self.table.shared;
        shared.join_seat::<Joined>(&mut into.inner, other.inner);
    }
}
