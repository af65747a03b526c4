// Calls of a store in memory, each with what it is to answer.
use std::alloc::Global;
use storm_stores::{CellStore, FailAt, MemStore, StoreFault};
use storm_values::{Bytes, Memory};

// A key and its cell.
pub type Line = (&'static [u8], &'static [u8]);

#[derive(Clone, Copy)]
pub enum Call {
    Get(&'static [u8]),
    Put(&'static [u8], &'static [u8]),
    Count,
    KeyAt(u64),
    Faults,
}

#[derive(Clone, Copy)]
pub enum Answer {
    Done,
    Failed,
    Nothing,
    Found(&'static [u8]),
    Number(u64),
}

// A call and its answer.
pub type Step = (Call, Answer);

// Why a test fails.
#[derive(Debug, Drop)]
pub enum Trouble {
    // The step of this number, from 0, has another answer.
    Step(usize),
    // The maker counts so many faults.
    Faults(u64),
    Memory,
}

impl From<Memory> for Trouble {
    fn from(_: Memory) -> Self {
        Trouble::Memory
    }
}

// Of these two keys the second is no UTF-8.
pub const CELLS: [Line; 2] = [(b"b", b"2"), (&[0x80], b"3")];

fn set(alloc: Global, store: &mut MemStore, line: Line) -> Result<(), Memory> {
    let key = Bytes::from_slice(alloc, line.0)?;
    store.set(key, Bytes::from_slice(alloc, line.1)?)
}

fn set_all(alloc: Global, store: &mut MemStore, lines: &[Line]) -> Result<(), Memory> {
    for line in lines {
        set(alloc, store, *line)?;
    }
    Ok(())
}

fn is_found(found: Result<Option<Bytes>, StoreFault>, want: Answer) -> bool {
    match (&found, want) {
        (Ok(Some(found)), Answer::Found(want)) => found.as_slice() == want,
        (Ok(None), Answer::Nothing) | (Err(StoreFault::Failed), Answer::Failed) => true,
        _ => false,
    }
}

fn is_number(number: Result<u64, StoreFault>, want: Answer) -> bool {
    match (number, want) {
        (Ok(number), Answer::Number(want)) => number == want,
        (Err(StoreFault::Failed), Answer::Failed) => true,
        _ => false,
    }
}

fn is_done(done: Result<(), StoreFault>, want: Answer) -> bool {
    matches!(
        (done, want),
        (Ok(()), Answer::Done) | (Err(StoreFault::Failed), Answer::Failed)
    )
}

// Whether the call has this answer.
fn answers(store: &mut MemStore, call: Call, want: Answer) -> bool {
    match call {
        Call::Get(key) => is_found(store.get(key), want),
        Call::Put(key, cell) => is_done(store.put(key, cell), want),
        Call::Count => is_number(store.count(), want),
        Call::KeyAt(i) => is_found(store.key_at(i), want),
        Call::Faults => is_number(Ok(store.faults()), want),
    }
}

// Whether the calls, one after another, have these answers.
pub fn check_steps(store: &mut MemStore, steps: &[Step]) -> Result<(), Trouble> {
    for i in 0..steps.len() {
        let (call, want) = steps[i];
        if !answers(store, call, want) {
            return Err(Trouble::Step(i));
        }
    }
    Ok(())
}

// The same of a store with these cells, of which this call fails.
pub fn check(
    alloc: Global,
    from: &[Line],
    at: Option<FailAt>,
    steps: &[Step],
) -> Result<(), Trouble> {
    let mut store = MemStore::new(alloc);
    set_all(alloc, &mut store, from)?;
    if let Some(at) = at {
        store.fail(at)?;
    }
    check_steps(&mut store, steps)
}

// Whether a call of the store with two keys is told to have another answer.
fn is_refused(alloc: Global, step: Step) -> bool {
    matches!(check(alloc, &CELLS, None, &[step]), Err(Trouble::Step(0)))
}

const WRONG: [Step; 12] = [
    (Call::Get(b"b"), Answer::Found(b"3")),
    (Call::Get(b"b"), Answer::Nothing),
    (Call::Get(b"b"), Answer::Failed),
    (Call::Get(b"c"), Answer::Found(b"2")),
    (Call::Get(b"c"), Answer::Failed),
    (Call::Put(b"b", b"4"), Answer::Failed),
    (Call::Count, Answer::Number(1)),
    (Call::Count, Answer::Failed),
    (Call::KeyAt(0), Answer::Found(b"c")),
    (Call::KeyAt(1), Answer::Nothing),
    (Call::KeyAt(2), Answer::Found(b"b")),
    (Call::Faults, Answer::Number(1)),
];

#[test]
fn wrong_answers_are_refused(rt: HostRuntime) {
    for step in WRONG {
        assert!(rt; is_refused(rt.alloc(), step));
    }
}
