//! The calls of a board. Each is one step on one of its two words; a join is two.
ghost use Rattle.std.specs.Prelude.{◌≡◌, ◌<◌, ◌≤◌, ◌++◌, [], ◌∷◌, List, true, false, IfOk, length};
ghost use Rattle.pass_numbers.specs.Numbers.{Numbered, IsWhole};
ghost use Rattle.pulse_board.specs.declared.rule.Book.{Book};
ghost use Rattle.pulse_board.specs.Books.{first_book, ticked, looked, with_halt, made_halt};
ghost use Rattle.pulse_board.specs.Books.{kept_of, cut_of, both_of, numbers_in, Tells};
ghost use Rattle.pulse_board.specs.Seats.{IsSeatOf, book_of};

use crate::rule::{Cut, Joined, Learn, Look, MakeHalt, SeeHalt, Tick};
use crate::seat::{Board, BoardSeat};
use atomic_table::Table;
use std::alloc::{AllocError, Global};

impl Board {
    /// A board with no tick and no halt, and its one seat.
    pub fn new(alloc: Global) -> Result<(Board, BoardSeat), AllocError>
        ensures seat { IfOk result (λ made. IsSeatOf made.0 made.1) }
        ensures book { IfOk result (λ made. book_of made.1 ≡ first_book) }
        ensures whole { IfOk result (λ made. IsWhole (numbers_in (book_of made.1))) }
    {
        let (table, inner) = Table::of_words(alloc, &[0, 0], &())?;
        Ok((Board { table }, BoardSeat { inner, size: 0 }))
    }

    /// The number of this tick, counted from 1 modulo 2^64. A tick that finds the count at 2^64 -
    /// 1, or below what the seat has seen, marks the seat's book as wrapped and draws no number.
    pub fn tick(&self, seat: &mut BoardSeat) -> u64
        requires { IsSeatOf self.now seat.old }
        ensures seat { IsSeatOf self.now seat.new }
        ensures book { book_of seat.new ≡ ticked (book_of seat.old) result }
        ensures numbers { numbers_in (book_of seat.new) ≡ numbers_in (book_of seat.old) }

        // Where the book is not marked, the number is above all that was seen, and joins the book.
        ensures above { (book_of seat.new).wrapped ≡ false → (book_of seat.old).seen < result }
        ensures drawn { (book_of seat.new).wrapped ≡ false →
            (book_of seat.new).drawn ≡ (book_of seat.old).drawn ++ result ∷ [] }
        ensures whole { IsWhole (numbers_in (book_of seat.old)) → Tells (book_of seat.new) }
    {
        let found = self.table.shared.fetch_add::<Tick>(&mut seat.inner, 0, 1);
        found.wrapping_add(1)
    }

    /// How many ticks there were, modulo 2^64. Where that is below what the seat has seen, its book
    /// is marked as wrapped.
    pub fn ticks(&self, seat: &mut BoardSeat) -> u64
        requires { IsSeatOf self.now seat.old }
        ensures seat { IsSeatOf self.now seat.new }
        ensures book { book_of seat.new ≡ looked (book_of seat.old) result }
        ensures numbers { numbers_in (book_of seat.new) ≡ numbers_in (book_of seat.old) }

        // Where the book is not marked, the answer is what it has seen now, no less than before.
        ensures seen { (book_of seat.new).wrapped ≡ false → result ≡ (book_of seat.new).seen }
        ensures grows { (book_of seat.new).wrapped ≡ false → (book_of seat.old).seen ≤ result }
        ensures whole { IsWhole (numbers_in (book_of seat.old)) → Tells (book_of seat.new) }
        ensures count { IsWhole (numbers_in (book_of seat.old)) →
            (book_of seat.new).wrapped ≡ false → result ≡ length (book_of seat.new).drawn }
    {
        self.table.shared.load::<Look>(&mut seat.inner, 0)
    }

    /// Tells all who look that they are to halt. It is never taken back.
    pub fn halt(&self, seat: &mut BoardSeat)
        requires { IsSeatOf self.now seat.old }
        ensures seat { IsSeatOf self.now seat.new }
        ensures book { book_of seat.new ≡ made_halt (book_of seat.old) }
        ensures numbers { numbers_in (book_of seat.new) ≡ numbers_in (book_of seat.old) }
    {
        self.table.shared.store::<MakeHalt>(&mut seat.inner, 1, 1);
    }

    /// Whether there was a halt.
    pub fn halted(&self, seat: &mut BoardSeat) -> bool
        requires { IsSeatOf self.now seat.old }
        ensures seat { IsSeatOf self.now seat.new }
        ensures book { book_of seat.new ≡ with_halt (book_of seat.old) result }
        ensures numbers { numbers_in (book_of seat.new) ≡ numbers_in (book_of seat.old) }
        ensures stays { (book_of seat.old).halted ≡ true → result ≡ true }
        ensures whole { IsWhole (numbers_in (book_of seat.old)) →
            result ≡ (book_of seat.old).halted }
    {
        self.table.shared.load::<SeeHalt>(&mut seat.inner, 1) == 1
    }

    /// A second seat, which has seen what this one has.
    pub fn split(&self, seat: &mut BoardSeat) -> BoardSeat
        requires { IsSeatOf self.now seat.old }
        ensures seat { IsSeatOf self.now seat.new }
        ensures new_seat { IsSeatOf self.now result }
        ensures book { book_of seat.new ≡ kept_of (book_of seat.old) }
        ensures new_book { book_of result ≡ cut_of (book_of seat.old) }

        // Seats that had all numbers, each once, have them with the new one.
        ensures numbered { (others : List Book) →
            Numbered numbers_in (book_of seat.old ∷ others) →
            Numbered numbers_in (book_of seat.new ∷ book_of result ∷ others) }
    {
        let inner = self.table.shared.split_seat::<Cut>(&mut seat.inner);
        BoardSeat { inner, size: 0 }
    }

    /// Puts both books into that of `into`. The other's is empty after that.
    pub fn join(&self, into: &mut BoardSeat, other: BoardSeat)
        requires seat { IsSeatOf self.now into.old }
        requires other { IsSeatOf self.now other }
        ensures seat { IsSeatOf self.now into.new }
        ensures book { book_of into.new ≡ both_of (book_of into.old) (book_of other) }
        ensures whole { IsWhole (numbers_in (book_of into.new)) → Tells (book_of into.new) }

        // Seats that had all numbers, each once, have them without the other.
        ensures numbered { (others : List Book) →
            Numbered numbers_in (book_of into.old ∷ book_of other ∷ others) →
            Numbered numbers_in (book_of into.new ∷ others) }
    {
        let shared = &self.table.shared;
        shared.join_seat::<Joined>(&mut into.inner, other.inner);
        shared.load::<Learn>(&mut into.inner, 0);
    }
}
