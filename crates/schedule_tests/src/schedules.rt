// Events and faults by hand. The plan has the tasks 0 to 3, the ackers 0 and 1 and the partitions 0
// to 2.
use crate::checks::{check_bytes, check_events, check_table, check_without_partitions};
use schedule_reader::Event;
use std::alloc::Global;
use storm_values::Memory;
use test_kit::Mismatch;

const EACH_KIND: [Event; 7] = [
    Event::Task(3),
    Event::Acker(1),
    Event::Coord,
    Event::Tick,
    Event::Shut(2),
    Event::Open(0),
    Event::Rounds(7),
];

#[test]
fn lines_are_events(rt: HostRuntime) -> Result<(), Mismatch> {
    let alloc = rt.alloc();
    check_events(alloc, "", &[])?;
    check_events(
        alloc,
        "task 3\nacker 1\ncoord\ntick\nshut 2\nopen 0\nrounds 7\n",
        &EACH_KIND,
    )?;
    check_events(alloc, "tick\ncoord", &[Event::Tick, Event::Coord])
}

// Zeros may lead, and these are the greatest numbers.
const NUMBERS: [Event; 6] = [
    Event::Rounds(5),
    Event::Rounds(10_000_000),
    Event::Task(0),
    Event::Acker(1),
    Event::Shut(2),
    Event::Open(1),
];

#[test]
fn numbers_have_one_to_eight_digits(rt: HostRuntime) -> Result<(), Mismatch> {
    let schedule =
        "rounds 00000005\nrounds 10000000\ntask 0\nacker 00000001\nshut 00000002\nopen 01";
    check_events(rt.alloc(), schedule, &NUMBERS)
}

#[test]
fn other_events_are_told_apart(rt: HostRuntime) -> Result<(), Mismatch> {
    let alloc = rt.alloc();
    let other = check_events(alloc, "tick", &[Event::Coord]);
    assert!(rt; matches!(other, Err(Mismatch::Case(_))));
    let fewer = check_events(alloc, "tick\ntick", &[Event::Tick]);
    assert!(rt; matches!(fewer, Err(Mismatch::Case(_))));
    Ok(())
}

const STRANGE: &str = "line 1: not a step";

const NO_STEPS: [(&str, &str); 26] = [
    ("jump", STRANGE),
    ("Task 1", STRANGE),
    ("task", STRANGE),
    ("task ", STRANGE),
    ("task1", STRANGE),
    ("task 1 ", STRANGE),
    ("task  1", STRANGE),
    (" task 1", STRANGE),
    ("task\t1", STRANGE),
    ("task +1", STRANGE),
    ("task -1", STRANGE),
    ("task 1a", STRANGE),
    ("tick\r\n", STRANGE),
    ("coord 1", STRANGE),
    ("task 000000001", STRANGE),
    ("rounds 000000005", STRANGE),
    ("rounds 10000001", STRANGE),
    ("shut", STRANGE),
    ("open ", STRANGE),
    ("Shut 0", STRANGE),
    ("close 0", STRANGE),
    ("shut 0 1", STRANGE),
    ("open 0,1", STRANGE),
    ("shut 000000001", STRANGE),
    ("\n", STRANGE),
    ("tick\n\ntick\n", "line 2: not a step"),
];

#[test]
fn other_lines_are_no_steps(rt: HostRuntime) -> Result<(), Mismatch> {
    check_table(rt.alloc(), &NO_STEPS)
}

const NUMBERS_THAT_ARE_NOT_THERE: [(&str, &str); 9] = [
    ("task 4", "line 1: no such number"),
    ("acker 2", "line 1: no such number"),
    ("task 99999999\n", "line 1: no such number"),
    ("tick\ncoord\nacker 2\njump", "line 3: no such number"),
    ("task 4\njump", "line 1: no such number"),
    ("jump\ntask 4", "line 1: not a step"),
    ("shut 3", "line 1: no such number"),
    ("shut 2\nopen 3\ntask 4", "line 2: no such number"),
    ("open 99999999", "line 1: no such number"),
];

#[test]
fn tasks_ackers_and_partitions_have_to_be_there(rt: HostRuntime) -> Result<(), Mismatch> {
    check_table(rt.alloc(), &NUMBERS_THAT_ARE_NOT_THERE)
}

const NO_PARTITIONS: [(&str, &str); 4] = [
    ("task 0\nacker 0\ntick\n", "events 3"),
    ("shut 0", "line 1: no such number"),
    ("tick\nopen 0", "line 2: no such number"),
    ("shut", "line 1: not a step"),
];

#[test]
fn without_partitions_none_is_there(rt: HostRuntime) -> Result<(), Mismatch> {
    check_without_partitions(rt.alloc(), &NO_PARTITIONS)
}

const TOO_LONG: &str = "longer than 1048576 bytes";

// A line of six bytes and 209,714 of five, which are 1,048,576 bytes, and then this.
fn longest_and(alloc: Global, end: &[u8]) -> Result<Vec<u8>, Memory> {
    let mut bytes = Vec::new(alloc);
    bytes.extend_from_slice(b"coord\n")?;
    for _ in 0..209_714 {
        bytes.extend_from_slice(b"tick\n")?;
    }
    bytes.extend_from_slice(end)?;
    Ok(bytes)
}

#[test]
fn the_length_comes_first(rt: HostRuntime) -> Result<(), Mismatch> {
    let alloc = rt.alloc();
    let longest = longest_and(alloc, b"")?;
    check_bytes(alloc, "the longest", longest.as_slice(), "events 209715")?;
    let longer = longest_and(alloc, b"t")?;
    check_bytes(alloc, "one byte more", longer.as_slice(), TOO_LONG)?;
    let strange = vec![in alloc; b'x'; 1_048_577]?;
    check_bytes(alloc, "a strange line", strange.as_slice(), TOO_LONG)
}
