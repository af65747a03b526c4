//! A ledger, and a seat at it.
ghost use Rattle.std.specs.Prelude.{◌≡◌, ◌≢◌, ◌*◌, ◌<◌, ◌≤◌, ℕ, []};
ghost use Rattle.shared_ledger.specs.Books.{has_seen};
ghost use Rattle.shared_ledger.specs.Marking.{is_marked};

use crate::marks::Marks;
use crate::rule::{Book, Law};
use atomic_table::{Seat, Table};
use std::alloc::Global;

/// An XOR word and a fail word for each root, which threads share.
#[derive(Drop)]
pub struct SharedLedger {
    pub(crate) table: Table<(), Book, u32, Law, Global>,
    pub(crate) roots: u32,
    ghost two_words: { table.shared.table_id.words ≡ 2 * roots },
    ghost keyed: { table.shared.key ≡ roots },
    ghost sized: { (0 < roots) × (roots ≤ 1024) },
}

/// The right to use a ledger, with the book of its own calls there.
#[derive(Drop)]
pub struct LedgerSeat {
    pub(crate) inner: Seat<(), Book>,
    // the roots whose `init` the seat has seen
    pub(crate) seen: Marks,
    ghost no_slot: { inner.me.1 ≡ [] },
    ghost some_number: { inner.me.0.numbers ≢ [] },
    ghost marked: { (root : ℕ) → root < 1024 →
        is_marked seen.words root ≡ has_seen root inner.me.0 },
}
