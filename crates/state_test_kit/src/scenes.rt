//! A part over a store with given cells, of which a call may fail: what it commits, and the cells
//! that this is to make.
use cell_format::{CELL_BYTES, Cell, encode_cell};
use sample_operations::First;
use state_cells::{GroupedWrites, Part, PartFault};
use std::alloc::Global;
use storm_stores::{CallKind, CellStore, FailAt, MemStore, StoreFault};
use tree_model::storm_values::{Bytes, Memory, Root, Txt};
use tree_model::topology_plan::{Fold, Kind};
use tree_model::{Write, Writes};

/// A key with the transaction, the value and the value before of its cell.
pub type Line = (&'static [u8], u64, Option<i128>, Option<i128>);

/// A commit of a transaction with these writes, and how it ends.
pub type Step = (u64, &'static [(&'static str, i64)], End);

#[derive(Clone, Copy, PartialEq, Eq)]
pub enum End {
    Done,
    Refused,
}

#[derive(Clone, Copy)]
pub struct Scene {
    pub kind: Kind,
    pub by: Fold,
    pub from: &'static [Line],
    pub steps: &'static [Step],
    pub faults: u64,
    pub want: &'static [Line],
}

/// Why a test fails.
#[derive(Debug, Drop)]
pub enum Trouble {
    Part(PartFault),
    /// The commit of this transaction came to another end.
    Commit(u64),
    Faults(u64),
    /// The key has another cell.
    Cell(&'static [u8]),
    Count(u64),
    /// The table has other rows, or another fault.
    Rows,
    /// The cells were brought to format 2 with another answer.
    Migration,
}

impl From<PartFault> for Trouble {
    fn from(fault: PartFault) -> Self {
        Trouble::Part(fault)
    }
}

impl From<StoreFault> for Trouble {
    fn from(fault: StoreFault) -> Self {
        Trouble::Part(PartFault::from(fault))
    }
}

impl From<Memory> for Trouble {
    fn from(_: Memory) -> Self {
        Trouble::Part(PartFault::Memory)
    }
}

fn bytes(alloc: Global, text: &[u8]) -> Result<Bytes, Memory> {
    Ok(Bytes::from_vec(text.to_vec(alloc)?))
}

// Each commit is of the first attempt of its transaction, and so are the cells at the start.
const ATTEMPT: u32 = 1;

// The bytes of the line's cell.
fn cell_bytes(kind: Kind, line: &Line) -> [u8; CELL_BYTES] {
    let (_, txid, value, prev) = *line;
    match kind {
        Kind::Transactional => encode_cell(&Cell {
            txid,
            attempt: ATTEMPT,
            value: Some(value.unwrap_or(0)),
            prev: None,
            kind: Kind::Transactional,
        }),
        Kind::Opaque => encode_cell(&Cell {
            txid,
            attempt: ATTEMPT,
            value,
            prev,
            kind: Kind::Opaque,
        }),
    }
}

// Each exit of what owns a store or a part drops all of it, which is dear to prove. So what may fail
// in several places has a reference.
fn set_line(alloc: Global, store: &mut MemStore, kind: Kind, line: &Line) -> Result<(), Memory> {
    let key = bytes(alloc, line.0)?;
    let cell = bytes(alloc, &cell_bytes(kind, line))?;
    store.set(key, cell)
}

fn set_lines(
    alloc: Global,
    store: &mut MemStore,
    kind: Kind,
    lines: &[Line],
) -> Result<(), Memory> {
    for line in lines {
        set_line(alloc, store, kind, line)?;
    }
    Ok(())
}

pub fn store_of(alloc: Global, kind: Kind, lines: &[Line]) -> Result<MemStore, Memory> {
    let mut store = MemStore::new(alloc);
    set_lines(alloc, &mut store, kind, lines)?;
    Ok(store)
}

pub fn writes_of(alloc: Global, list: &[(&str, i64)]) -> Result<Writes, Memory> {
    let mut writes = Writes::new(alloc);
    for (key, amount) in list {
        writes.push(Write {
            state: 0,
            part: 0,
            key: Txt::from_str(alloc, key)?,
            amount: *amount,
        })?;
    }
    Ok(writes)
}

fn group<'w>(grouped: &mut GroupedWrites<'w>, writes: &'w Writes) -> Result<(), Memory> {
    for write in writes.as_slice() {
        grouped.add(write.key.as_bytes(), write.amount)?;
    }
    Ok(())
}

/// Commits writes, which are brought together first.
pub fn commit(
    alloc: Global,
    part: &mut Part<MemStore>,
    txid: u64,
    writes: &Writes,
) -> Result<(), PartFault> {
    let mut grouped = GroupedWrites::with_capacity(alloc, 1)?;
    group(&mut grouped, writes)?;
    let root = Root {
        txid,
        attempt: ATTEMPT,
    };
    part.commit(root, &grouped, &First)
}

fn take_step(alloc: Global, part: &mut Part<MemStore>, step: &Step) -> Result<(), Trouble> {
    let (txid, writes, end) = *step;
    match (commit(alloc, part, txid, &writes_of(alloc, writes)?), end) {
        (Ok(()), End::Done) | (Err(PartFault::Store), End::Refused) => Ok(()),
        _ => Err(Trouble::Commit(txid)),
    }
}

fn take_steps(alloc: Global, part: &mut Part<MemStore>, scene: &Scene) -> Result<(), Trouble> {
    for step in scene.steps {
        take_step(alloc, part, step)?;
    }
    if part.faults() == scene.faults {
        Ok(())
    } else {
        Err(Trouble::Faults(part.faults()))
    }
}

// The store after the steps.
fn play(alloc: Global, scene: &Scene, store: MemStore) -> Result<MemStore, Trouble> {
    let mut part = Part::new(alloc, store, scene.kind, scene.by);
    take_steps(alloc, &mut part, scene)?;
    Ok(part.into_store())
}

// The cell of a key. A call that fails is made again.
fn find(store: &mut MemStore, key: &[u8]) -> Result<Option<Bytes>, StoreFault> {
    match store.get(key) {
        Err(StoreFault::Failed) => store.get(key),
        found => found,
    }
}

fn has_line(store: &mut MemStore, kind: Kind, line: &Line) -> Result<bool, StoreFault> {
    let Some(found) = find(store, line.0)? else {
        return Ok(false);
    };
    Ok(found.as_slice() == cell_bytes(kind, line).as_slice())
}

fn compare(store: &mut MemStore, kind: Kind, want: &[Line]) -> Result<(), Trouble> {
    for line in want {
        if !has_line(store, kind, line)? {
            return Err(Trouble::Cell(line.0));
        }
    }
    Ok(())
}

// The number of keys. A call that fails is made again.
fn count(store: &mut MemStore) -> Result<u64, StoreFault> {
    match store.count() {
        Err(StoreFault::Failed) => store.count(),
        count => count,
    }
}

fn compare_all(store: &mut MemStore, scene: &Scene) -> Result<(), Trouble> {
    compare(store, scene.kind, scene.want)?;
    let count = count(store)?;
    if count == scene.want.len() as u64 {
        Ok(())
    } else {
        Err(Trouble::Count(count))
    }
}

fn check_over(alloc: Global, scene: &Scene, store: MemStore) -> Result<(), Trouble> {
    let mut store = play(alloc, scene, store)?;
    compare_all(&mut store, scene)
}

/// Whether the steps make of the cells what they are to make.
pub fn check(alloc: Global, scene: &Scene) -> Result<(), Trouble> {
    let store = store_of(alloc, scene.kind, scene.from)?;
    check_over(alloc, scene, store)
}

/// The same over a store of which a call fails.
pub fn check_failing(alloc: Global, scene: &Scene, at: FailAt) -> Result<(), Trouble> {
    let mut store = store_of(alloc, scene.kind, scene.from)?;
    store.fail(at)?;
    check_over(alloc, scene, store)
}

/// The same for each of these calls.
pub fn check_calls(alloc: Global, scene: &Scene, calls: &[FailAt]) -> Result<(), Trouble> {
    for at in calls {
        check_failing(alloc, scene, *at)?;
    }
    Ok(())
}

/// The same for each call of a kind, up to a number.
pub fn check_each(
    alloc: Global,
    scene: &Scene,
    kind: CallKind,
    happened: bool,
    calls: u64,
) -> Result<(), Trouble> {
    for i in 0..calls {
        let at = FailAt {
            kind,
            number: i + 1,
            happened,
        };
        check_failing(alloc, scene, at)?;
    }
    Ok(())
}
