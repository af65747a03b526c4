// Logs in memory, whose appends are cut short and whose reads fail.
ghost use Rattle.std.specs.Prelude.{◌≤◌};

use crate::calls::Answer::{Done, Failed, Found, Nothing, Number};
use crate::calls::Call::{Count, Faults, Get, KeyAt, Put};
use crate::calls::{Step, Trouble, use_log};
use part_files::{Log, MemLog};
use std::alloc::Global;
use storm_values::Memory;

// A log with these bytes, and room for 100 at least.
fn log_of(alloc: Global, text: &str) -> Result<MemLog, Memory> {
    MemLog::new(alloc, text.as_bytes(), text.len().max(100))
}

// Whether a log has these bytes, and failed so often.
fn check_log(log: &MemLog, bytes: &[u8], faults: u64) -> Result<(), Trouble> {
    if log.bytes() != bytes {
        return Err(Trouble::Bytes);
    }
    if log.faults() != faults {
        return Err(Trouble::Faults(log.faults()));
    }
    Ok(())
}

// What two puts append.
const BOTH: &str = "\n6b 01.\n\n6b 0203.\n";

// The second put is cut short.
const CUT: [Step; 8] = [
    (Put(b"k", &[1]), Done),
    (Faults, Number(0)),
    (Put(b"k", &[2, 3]), Failed),
    (Get(b"k"), Failed),
    (Put(b"l", &[4]), Failed),
    (Count, Failed),
    (KeyAt(0), Failed),
    (Faults, Number(5)),
];

// What is left is read anew, and takes another put.
const OLD: [Step; 6] = [
    (Get(b"k"), Found(&[1])),
    (Put(b"l", &[4]), Done),
    (Get(b"k"), Found(&[1])),
    (Get(b"l"), Found(&[4])),
    (Count, Number(2)),
    (Faults, Number(0)),
];

const NEW: [Step; 6] = [
    (Get(b"k"), Found(&[2, 3])),
    (Put(b"l", &[4]), Done),
    (Get(b"k"), Found(&[2, 3])),
    (Get(b"l"), Found(&[4])),
    (Count, Number(2)),
    (Faults, Number(0)),
];

// And that is read once more.
const OLD_TWICE: [Step; 2] = [(Get(b"k"), Found(&[1])), (Count, Number(2))];

const NEW_TWICE: [Step; 2] = [(Get(b"k"), Found(&[2, 3])), (Count, Number(2))];

// A log whose second append is cut short.
fn cut_log(alloc: Global, count: usize) -> Result<MemLog, Memory> {
    let mut log = log_of(alloc, "")?;
    log.cut_append(2, count)?;
    Ok(log)
}

// What is left where the second put was cut short after so many bytes.
fn log_after_cut(alloc: Global, count: usize) -> Result<MemLog, Trouble>
    requires { count ≤ 10 }
{
    let log = use_log(alloc, cut_log(alloc, count)?, &CUT)?;
    check_log(&log, &BOTH.as_bytes()[..8 + count], 1)?;
    Ok(log)
}

// Whether what is left is read so, and once more after a put.
fn check_left(alloc: Global, log: MemLog, once: &[Step], twice: &[Step]) -> Result<(), Trouble> {
    let log = use_log(alloc, log, once)?;
    use_log(alloc, log, twice)?;
    Ok(())
}

// A put without its full stop is not done; its last line end is not needed.
fn check_cut(alloc: Global, count: usize) -> Result<(), Trouble>
    requires { count ≤ 10 }
{
    let log = log_after_cut(alloc, count)?;
    if count < 9 {
        check_left(alloc, log, &OLD, &OLD_TWICE)
    } else {
        check_left(alloc, log, &NEW, &NEW_TWICE)
    }
}

#[test]
fn a_put_that_is_cut_anywhere_is_done_or_not(rt: HostRuntime) -> Result<(), Trouble> {
    for count in 0..11 {
        check_cut(rt.alloc(), count)?;
    }
    Ok(())
}

const BROKEN: [Step; 6] = [
    (Faults, Number(0)),
    (Get(b"k"), Failed),
    (Put(b"k", &[2]), Failed),
    (Count, Failed),
    (KeyAt(7), Failed),
    (Faults, Number(4)),
];

// A log whose first read fails.
fn unread_log(alloc: Global) -> Result<MemLog, Memory> {
    let mut log = log_of(alloc, "6b 01.")?;
    log.fail_read(1)?;
    Ok(log)
}

const WHOLE: [Step; 3] = [
    (Get(b"k"), Found(&[1])),
    (Count, Number(1)),
    (Faults, Number(0)),
];

#[test]
fn a_log_that_cannot_be_read_breaks_its_store(rt: HostRuntime) -> Result<(), Trouble> {
    let alloc = rt.alloc();
    let log = use_log(alloc, unread_log(alloc)?, &BROKEN)?;
    check_log(&log, b"6b 01.", 1)?;
    use_log(alloc, log, &WHOLE)?;
    Ok(())
}

// What a line that was cut short leaves, and three puts behind it.
const TORN: [Step; 9] = [
    (Count, Number(1)),
    (Get(b"k"), Nothing),
    (Put(b"", b""), Done),
    (Put(b"k", &[1]), Done),
    (Put(b"l", &[4]), Done),
    (KeyAt(0), Found(b"")),
    (KeyAt(1), Found(b"k")),
    (Get(b"l"), Found(&[4])),
    (Count, Number(3)),
];

#[test]
fn a_torn_line_takes_another_put(rt: HostRuntime) -> Result<(), Trouble> {
    let alloc = rt.alloc();
    let log = use_log(alloc, log_of(alloc, "6c 05.\n6B 01")?, &TORN)?;
    check_log(&log, b"6c 05.\n6B 01\n .\n\n6b 01.\n\n6c 04.\n", 0)
}

#[test]
fn a_log_without_room_takes_what_it_can(rt: HostRuntime) -> Result<(), Trouble> {
    let mut log = MemLog::new(rt.alloc(), b"abc", 8)?;
    log.append(b"de")?;
    if log.append(b"fghi").is_ok() {
        return Err(Trouble::Refused);
    }
    check_log(&log, b"abcdefgh", 1)
}
