//! What each seat knows of a ledger, and what each kind of step tells it.
use atomic_table::{Join, Play, Split, TableRule};
use pass_numbers::Number;
use std::collections::LinkedList;

/// What a call did to a root's words.
pub enum CallKind {
    Init,
    Ack,
    Fail,
}

/// A call on a root. A fail has the word 0. No value of it is made: it stands in books.
pub struct Call {
    pub kind: CallKind,
    pub root: u32,
    pub word: u64,
}

/// What a seat knows. No value of it is made: it stands in contracts.
pub struct Book {
    /// Its own calls, in order.
    pub calls: LinkedList<Call>,
    /// The roots whose `init` it has seen: its own, those of the seat that it was split from, and
    /// those of the seats that were joined into it.
    pub seen: LinkedList<u32>,
    /// What its last `init` or `ack` made of the root's word, and 0 before the first.
    pub last_word: u64,
    /// The seat's numbers.
    pub numbers: LinkedList<Number>,
}

/// The rule of the words and of all books.
pub(crate) struct Law;

impl TableRule<(), Book, u32> for Law {
    ghost use Rattle.shared_ledger.specs.Books.{first_book};
    ghost use Rattle.shared_ledger.specs.Rule.{Kept};

    ghost holds = { λ roots s. Kept roots s.words s.views };

    ghost first = { λ _. first_book };
}

/// An `init`.
pub(crate) struct InitWord;

impl Play<(), Book> for InitWord {
    ghost use Rattle.shared_ledger.specs.Steps.{Inits};

    ghost then = { Inits };
}

/// An `ack`.
pub(crate) struct AckWord;

impl Play<(), Book> for AckWord {
    ghost use Rattle.shared_ledger.specs.Steps.{Acks};

    ghost then = { Acks };
}

/// A `fail`.
pub(crate) struct FailWord;

impl Play<(), Book> for FailWord {
    ghost use Rattle.shared_ledger.specs.Steps.{Fails};

    ghost then = { Fails };
}

/// A load of an XOR word.
pub(crate) struct LookAtWord;

impl Play<(), Book> for LookAtWord {
    ghost use Rattle.shared_ledger.specs.Steps.{LooksAtWord};

    ghost then = { LooksAtWord };
}

/// A load of a fail word.
pub(crate) struct LookAtFail;

impl Play<(), Book> for LookAtFail {
    ghost use Rattle.shared_ledger.specs.Steps.{LooksAtFail};

    ghost then = { LooksAtFail };
}

/// A seat is split in two.
pub(crate) struct Cut;

impl Split<Book> for Cut {
    ghost use Rattle.shared_ledger.specs.Books.{kept_of, cut_of};

    ghost left = { kept_of };

    ghost right = { cut_of };
}

/// Two seats are made one.
pub(crate) struct Joined;

impl Join<Book> for Joined {
    ghost use Rattle.shared_ledger.specs.Books.{both_of, no_book};

    ghost both = { both_of };

    ghost spent = { no_book };
}
