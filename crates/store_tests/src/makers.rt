// A maker, and the stores of its parts.
use crate::calls::Answer::{Done, Failed, Number};
use crate::calls::Call::{Count, Faults, Get, Put};
use crate::calls::{Step, Trouble, check_steps};
use std::alloc::Global;
use storm_stores::{CallKind, FailAt, MemMaker, StoreMaker};
use storm_values::{Bytes, Memory};

const FIRST_GET: FailAt = FailAt {
    kind: CallKind::Get,
    number: 1,
    happened: false,
};

// A maker with one key in part 1 of state 3, whose first get fails.
fn maker(alloc: Global) -> Result<MemMaker, Memory> {
    let mut maker = MemMaker::new(alloc);
    let key = Bytes::from_slice(alloc, b"a")?;
    maker.set(3, 1, key, Bytes::from_slice(alloc, b"1")?)?;
    maker.fail(3, 1, FIRST_GET)?;
    Ok(maker)
}

const USE: [Step; 2] = [(Get(b"a"), Failed), (Put(b"b", b"2"), Done)];

// Makes that part's store, uses it, and gives it back.
fn use_store(maker: &mut MemMaker) -> Result<(), Trouble> {
    let mut store = maker.make(3, 1)?;
    check_steps(&mut store, &USE)?;
    maker.give(3, 1, store);
    Ok(())
}

// Whether the fault is counted then, and calls of a part's store have these answers.
fn check_part(alloc: Global, part: u32, steps: &[Step]) -> Result<(), Trouble> {
    let mut maker = maker(alloc)?;
    use_store(&mut maker)?;
    if maker.faults() != 1 {
        return Err(Trouble::Faults(maker.faults()));
    }
    check_steps(&mut maker.make(3, part)?, steps)
}

const SAME: [Step; 2] = [(Count, Number(2)), (Faults, Number(0))];

#[test]
fn a_store_comes_back_to_its_part(rt: HostRuntime) -> Result<(), Trouble> {
    check_part(rt.alloc(), 1, &SAME)
}

const OTHER: [Step; 1] = [(Count, Number(0))];

#[test]
fn another_part_has_a_store_of_its_own(rt: HostRuntime) -> Result<(), Trouble> {
    check_part(rt.alloc(), 0, &OTHER)
}
