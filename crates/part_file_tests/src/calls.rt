// Calls of a store, each with what it is to answer.
use part_files::{Log, PartStore};
use std::alloc::Global;
use std::io;
use storm_outside::Failed;
use storm_stores::{CellStore, StoreFault};
use storm_values::{Bytes, Memory};

#[derive(Clone, Copy)]
pub enum Call {
    Get(&'static [u8]),
    Put(&'static [u8], &'static [u8]),
    Count,
    KeyAt(u64),
    Faults,
}

#[derive(Clone, Copy)]
pub enum Answer {
    Done,
    Failed,
    Nothing,
    Found(&'static [u8]),
    Number(u64),
}

// A call and its answer.
pub type Step = (Call, Answer);

// Why a test fails.
#[derive(Debug, Drop)]
pub enum Trouble {
    // The step of this number, from 0, has another answer.
    Step(usize),
    // A piece, a log or a file has other bytes.
    Bytes,
    // A log or a maker counts so many faults.
    Faults(u64),
    // A log or a file refused a call.
    Refused,
    Memory,
}

impl From<Memory> for Trouble {
    fn from(_: Memory) -> Self {
        Trouble::Memory
    }
}

impl From<Failed> for Trouble {
    fn from(_: Failed) -> Self {
        Trouble::Refused
    }
}

impl From<io::Error> for Trouble {
    fn from(_: io::Error) -> Self {
        Trouble::Refused
    }
}

fn is_found(found: Result<Option<Bytes>, StoreFault>, want: Answer) -> bool {
    match (&found, want) {
        (Ok(Some(found)), Answer::Found(want)) => found.as_slice() == want,
        (Ok(None), Answer::Nothing) | (Err(StoreFault::Failed), Answer::Failed) => true,
        _ => false,
    }
}

fn is_number(number: Result<u64, StoreFault>, want: Answer) -> bool {
    match (number, want) {
        (Ok(number), Answer::Number(want)) => number == want,
        (Err(StoreFault::Failed), Answer::Failed) => true,
        _ => false,
    }
}

fn is_done(done: Result<(), StoreFault>, want: Answer) -> bool {
    matches!(
        (done, want),
        (Ok(()), Answer::Done) | (Err(StoreFault::Failed), Answer::Failed)
    )
}

// Whether the call has this answer.
fn answers<C: CellStore>(store: &mut C, call: Call, want: Answer) -> bool {
    match call {
        Call::Get(key) => is_found(store.get(key), want),
        Call::Put(key, cell) => is_done(store.put(key, cell), want),
        Call::Count => is_number(store.count(), want),
        Call::KeyAt(i) => is_found(store.key_at(i), want),
        Call::Faults => is_number(Ok(store.faults()), want),
    }
}

// Whether the calls, one after another, have these answers.
pub fn check_steps<C: CellStore>(store: &mut C, steps: &[Step]) -> Result<(), Trouble> {
    for i in 0..steps.len() {
        let (call, want) = steps[i];
        if !answers(store, call, want) {
            return Err(Trouble::Step(i));
        }
    }
    Ok(())
}

// The same of the store of a log, which is given back.
pub fn use_log<L: Log>(alloc: Global, log: L, steps: &[Step]) -> Result<L, Trouble> {
    let mut store = PartStore::open(alloc, log)?;
    check_steps(&mut store, steps)?;
    Ok(store.into_log())
}
