// Files of the system.
use crate::calls::Answer::{Done, Failed, Found, Number};
use crate::calls::Call::{Count, Faults, Get, KeyAt, Put};
use crate::calls::{Step, Trouble, check_steps, use_log};
use part_files::{FileLog, FileMaker, STATE_FOLDER};
use std::alloc::Global;
use std::fs;
use std::rt::Files;
use storm_stores::StoreMaker;

// Whether a file has these bytes.
fn check_bytes(bytes: &[u8], want: &str) -> Result<(), Trouble> {
    if bytes != want.as_bytes() {
        return Err(Trouble::Bytes);
    }
    Ok(())
}

// Whether the calls of the store in a file have these answers.
fn check<R: Files>(rt: &R, alloc: Global, path: &str, steps: &[Step]) -> Result<(), Trouble> {
    use_log(alloc, FileLog::open(rt, path), steps)?;
    Ok(())
}

const FIRST: [Step; 3] = [
    (Count, Number(0)),
    (Put(b"key", &[0]), Done),
    (Get(b"key"), Found(&[0])),
];

const SECOND: [Step; 3] = [
    (Get(b"key"), Found(&[0])),
    (Put(b"key", &[1]), Done),
    (Put(b"l", b""), Done),
];

const THIRD: [Step; 3] = [
    (Get(b"key"), Found(&[1])),
    (Count, Number(2)),
    (Faults, Number(0)),
];

#[test]
fn a_store_lies_in_a_file(rt: HostRuntime) -> Result<(), Trouble> {
    let path = "part_file_tests_store";
    let _gone = fs::remove_file(&rt, path);
    for steps in [&FIRST, &SECOND, &THIRD] {
        check(&rt, rt.alloc(), path, steps)?;
    }
    let bytes = fs::read(&rt, path)?;
    fs::remove_file(&rt, path)?;
    check_bytes(bytes.as_slice(), "\n6b6579 00.\n\n6b6579 01.\n\n6c .\n")
}

const TORN: [Step; 3] = [
    (Get(b"k"), Found(&[1])),
    (Put(b"l", &[3]), Done),
    (Count, Number(2)),
];

// The log of a file was appended to, and is read from its first byte on.
const TORN_TWICE: [Step; 2] = [(Get(b"l"), Found(&[3])), (Count, Number(2))];

fn check_twice<R: Files>(rt: &R, alloc: Global, path: &str) -> Result<(), Trouble> {
    let log = use_log(alloc, FileLog::open(rt, path), &TORN)?;
    use_log(alloc, log, &TORN_TWICE)?;
    Ok(())
}

#[test]
fn a_torn_file_takes_another_put(rt: HostRuntime) -> Result<(), Trouble> {
    let path = "part_file_tests_torn";
    fs::write(&rt, path, "\n6b 01.\n\n6b 02")?;
    check_twice(&rt, rt.alloc(), path)?;
    let bytes = fs::read(&rt, path)?;
    fs::remove_file(&rt, path)?;
    check_bytes(bytes.as_slice(), "\n6b 01.\n\n6b 02\n6c 03.\n")
}

const BROKEN: [Step; 6] = [
    (Faults, Number(0)),
    (Get(b"k"), Failed),
    (Put(b"k", &[2]), Failed),
    (Count, Failed),
    (KeyAt(0), Failed),
    (Faults, Number(4)),
];

#[test]
fn what_is_no_file_breaks_its_store(rt: HostRuntime) -> Result<(), Trouble> {
    let folder = "part_file_tests_folder";
    fs::create_dir(&rt, folder)?;
    let checked = check(&rt, rt.alloc(), folder, &BROKEN);
    fs::remove_dir(&rt, folder)?;
    checked?;
    check(&rt, rt.alloc(), "part_file_tests_none/store", &BROKEN)
}

// Whether the calls of the store of a part have these answers. It is given back.
fn check_part<M: StoreMaker>(
    maker: &mut M,
    component: u32,
    part: u32,
    steps: &[Step],
) -> Result<(), Trouble> {
    let mut store = maker.make(component, part)?;
    check_steps(&mut store, steps)?;
    maker.give(component, part, store);
    Ok(())
}

// A maker makes these stores of two parts, and counts so many faults then.
fn check_parts<R: Files>(
    maker: &mut FileMaker<R>,
    first: &[Step],
    second: &[Step],
    faults: u64,
) -> Result<(), Trouble> {
    check_part(maker, 3, 1, first)?;
    check_part(maker, 31, 10, second)?;
    if maker.faults() != faults {
        return Err(Trouble::Faults(maker.faults()));
    }
    Ok(())
}

#[test]
fn each_part_has_a_file(rt: HostRuntime) -> Result<(), Trouble> {
    let _gone = fs::remove_dir_all(&rt, STATE_FOLDER);
    let mut maker = FileMaker::new(&rt, rt.alloc());
    check_parts(&mut maker, &FIRST, &FIRST, 0)?;
    check_parts(&mut maker, &SECOND, &SECOND, 0)?;

    // a folder in the place of one part's file
    fs::remove_file(&rt, "storm_state/31.10")?;
    fs::create_dir(&rt, "storm_state/31.10")?;
    let mut maker = FileMaker::new(&rt, rt.alloc());
    check_parts(&mut maker, &THIRD, &BROKEN, 4)?;
    let bytes = fs::read(&rt, "storm_state/3.1")?;
    fs::remove_dir_all(&rt, STATE_FOLDER)?;
    check_bytes(bytes.as_slice(), "\n6b6579 00.\n\n6b6579 01.\n\n6c .\n")
}
