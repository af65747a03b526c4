//! A board, and a seat at it.
ghost use Rattle.std.specs.Prelude.{◌≡◌, ◌≢◌, []};

use crate::rule::{Book, Law};
use atomic_table::{Seat, Table};
use std::alloc::Global;

/// Two words that threads share: how many ticks there were, modulo 2^64, and whether to halt.
#[derive(Drop)]
pub struct Board {
    pub(crate) table: Table<(), Book, (), Law, Global>,
    ghost two_words: { table.shared.table_id.words ≡ 2 },
}

/// The right to use a board, with the book of what it saw, drew and did there.
#[derive(Drop)]
pub struct BoardSeat {
    pub(crate) inner: Seat<(), Book>,
    // a size, so that a seat in a list of seats can be lent
    pub(crate) size: u8,
    ghost no_slot: { inner.me.1 ≡ [] },
    ghost some_number: { inner.me.0.numbers ≢ [] },
}
