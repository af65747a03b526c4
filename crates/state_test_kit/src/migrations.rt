//! A part over a store with cells of either format: what it answers when it brings them to format 2,
//! and the bytes that are to be there then.
use crate::scenes::Trouble;
use crate::tables::is_bad;
use state_cells::{Part, PartFault};
use std::alloc::Global;
use storm_stores::{CellStore, FailAt, MemStore, StoreFault};
use tree_model::storm_values::{Bytes, Memory};
use tree_model::topology_plan::{Fold, Kind};

/// The format of a cell's bytes.
#[derive(Clone, Copy)]
pub enum Format {
    One,
    /// Format 2, with this attempt.
    Two(u8),
    /// Of format 1, but with another version.
    Damaged,
}

/// A key with the format of its cell, its flags, its transaction and its value. No cell here has a
/// value before.
pub type Stored = (&'static [u8], Format, u8, u8, u8);

/// What a call answers.
#[derive(Clone, Copy)]
pub enum Answer {
    Migrated(u64),
    Refused,
    /// The cell of this key is bad, and the table answers so too.
    Bad(&'static [u8]),
}

/// Calls in turn over these cells, some of the store's calls failing, and the cells that are there
/// then.
#[derive(Clone, Copy)]
pub struct Migration {
    pub kind: Kind,
    pub from: &'static [Stored],
    pub fails: &'static [FailAt],
    pub answers: &'static [Answer],
    pub want: &'static [Stored],
}

fn old_cell(version: u8, flags: u8, txid: u8, value: u8) -> [u8; 42] {
    let mut cell = [0; 42];
    cell[0] = version;
    cell[1] = flags;
    cell[9] = txid;
    cell[25] = value;
    cell
}

fn new_cell(attempt: u8, flags: u8, txid: u8, value: u8) -> [u8; 46] {
    let mut cell = [0; 46];
    cell[0] = 2;
    cell[1] = flags;
    cell[9] = txid;
    cell[13] = attempt;
    cell[29] = value;
    cell
}

fn bytes(alloc: Global, text: &[u8]) -> Result<Bytes, Memory> {
    Ok(Bytes::from_vec(text.to_vec(alloc)?))
}

// The bytes of the cell.
fn cell_of(alloc: Global, stored: &Stored) -> Result<Bytes, Memory> {
    let (_, format, flags, txid, value) = *stored;
    match format {
        Format::One => bytes(alloc, &old_cell(1, flags, txid, value)),
        Format::Two(attempt) => bytes(alloc, &new_cell(attempt, flags, txid, value)),
        Format::Damaged => bytes(alloc, &old_cell(3, flags, txid, value)),
    }
}

fn set_cell(alloc: Global, store: &mut MemStore, stored: &Stored) -> Result<(), Memory> {
    let key = bytes(alloc, stored.0)?;
    store.set(key, cell_of(alloc, stored)?)
}

fn set_cells(alloc: Global, store: &mut MemStore, migration: &Migration) -> Result<(), Memory> {
    for stored in migration.from {
        set_cell(alloc, store, stored)?;
    }
    for at in migration.fails {
        store.fail(*at)?;
    }
    Ok(())
}

fn store_of(alloc: Global, migration: &Migration) -> Result<MemStore, Memory> {
    let mut store = MemStore::new(alloc);
    set_cells(alloc, &mut store, migration)?;
    Ok(store)
}

// Whether a fault is that the cell of this key is bad, and the table has it too.
fn is_bad_twice(part: &mut Part<MemStore>, fault: &PartFault, key: &[u8]) -> bool {
    match part.table() {
        Err(other) => is_bad(fault, key) & is_bad(&other, key),
        Ok(_) => false,
    }
}

fn has_answer(part: &mut Part<MemStore>, answer: Answer) -> bool {
    match (part.migrate(), answer) {
        (Ok(count), Answer::Migrated(wanted)) => count == wanted,
        (Err(PartFault::Store), Answer::Refused) => true,
        (Err(fault), Answer::Bad(key)) => is_bad_twice(part, &fault, key),
        _ => false,
    }
}

fn call(part: &mut Part<MemStore>, answers: &[Answer]) -> Result<(), Trouble> {
    for answer in answers {
        if !has_answer(part, *answer) {
            return Err(Trouble::Migration);
        }
    }
    Ok(())
}

// The store after the calls.
fn play(alloc: Global, migration: &Migration, store: MemStore) -> Result<MemStore, Trouble> {
    let mut part = Part::new(alloc, store, migration.kind, Fold::Count);
    call(&mut part, migration.answers)?;
    Ok(part.into_store())
}

fn has_cell(alloc: Global, store: &mut MemStore, stored: &Stored) -> Result<bool, StoreFault> {
    let want = cell_of(alloc, stored)?;
    let Some(found) = store.get(stored.0)? else {
        return Ok(false);
    };
    Ok(found.as_slice() == want.as_slice())
}

fn compare(alloc: Global, store: &mut MemStore, want: &[Stored]) -> Result<(), Trouble> {
    for stored in want {
        if !has_cell(alloc, store, stored)? {
            return Err(Trouble::Cell(stored.0));
        }
    }
    let count = store.count()?;
    if count == want.len() as u64 {
        Ok(())
    } else {
        Err(Trouble::Count(count))
    }
}

/// Whether the calls have their answers, and the cells are those that are wanted.
pub fn check_migration(alloc: Global, migration: &Migration) -> Result<(), Trouble> {
    let store = store_of(alloc, migration)?;
    let mut store = play(alloc, migration, store)?;
    compare(alloc, &mut store, migration.want)
}
