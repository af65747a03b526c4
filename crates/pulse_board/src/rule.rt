//! What each seat knows of a board, and what each kind of step tells it.
use atomic_table::{Join, Play, Split, TableRule};
use pass_numbers::Number;
use std::collections::LinkedList;

/// What a seat knows. No value of it is made: it stands in contracts.
pub struct Book {
    /// The greatest count that it has seen.
    pub seen: u64,
    /// The numbers that it drew, in order.
    pub drawn: LinkedList<u64>,
    /// It has seen or made a halt.
    pub halted: bool,
    /// It has made a halt.
    pub made: bool,
    /// It found that the count had wrapped round at 2^64.
    pub wrapped: bool,
    /// The seat's numbers.
    pub numbers: LinkedList<Number>,
}

/// The rule of the words and of all books.
pub(crate) struct Law;

impl TableRule<(), Book, ()> for Law {
    ghost use Rattle.pulse_board.specs.Books.{first_book};
    ghost use Rattle.pulse_board.specs.Rule.{Kept};

    ghost holds = { λ _ s. Kept s.words s.views };

    ghost first = { λ _. first_book };
}

/// A tick.
pub(crate) struct Tick;

impl Play<(), Book> for Tick {
    ghost use Rattle.pulse_board.specs.Steps.{Ticks};

    ghost then = { Ticks };
}

/// A look at the count.
pub(crate) struct Look;

impl Play<(), Book> for Look {
    ghost use Rattle.pulse_board.specs.Steps.{Looks};

    ghost then = { Looks };
}

/// A load that changes no book.
pub(crate) struct Learn;

impl Play<(), Book> for Learn {
    ghost use Rattle.pulse_board.specs.Steps.{Learns};

    ghost then = { Learns };
}

/// A halt.
pub(crate) struct MakeHalt;

impl Play<(), Book> for MakeHalt {
    ghost use Rattle.pulse_board.specs.Steps.{Halts};

    ghost then = { Halts };
}

/// A look whether there was a halt.
pub(crate) struct SeeHalt;

impl Play<(), Book> for SeeHalt {
    ghost use Rattle.pulse_board.specs.Steps.{SeesHalt};

    ghost then = { SeesHalt };
}

/// A seat is split in two.
pub(crate) struct Cut;

impl Split<Book> for Cut {
    ghost use Rattle.pulse_board.specs.Books.{kept_of, cut_of};

    ghost left = { kept_of };

    ghost right = { cut_of };
}

/// Two seats are made one.
pub(crate) struct Joined;

impl Join<Book> for Joined {
    ghost use Rattle.pulse_board.specs.Books.{both_of, no_book};

    ghost both = { both_of };

    ghost spent = { no_book };
}
