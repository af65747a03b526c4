// One call of one store fails. A commit has one get and one put for each of its keys, and the last
// reading has one count, and one look and one get for each key.
use crate::commands::{Command, KINDS, Keys, by_workers, commands};
use sample_topologies::TABLES_OF_SENTENCES;
use std::alloc::Global;
use std::sync::Wait;
use std::thread::Threads;
use storm_stores::{CallKind, FailAt};
use storm_test_kit::{CALM, Outside, check_faults};
use test_kit::Mismatch;

// What comes of a call that fails.
#[derive(Clone, Copy, PartialEq, Eq)]
enum Comes {
    /// The commit of the first batch fails, and is made again.
    FirstAgain,
    /// That of the second.
    SecondAgain,
    /// The last reading fails.
    NotRead,
    /// There is no such call.
    Nothing,
}

fn in_commits(keys: Keys, number: u64) -> Comes {
    if number <= keys.first {
        Comes::FirstAgain
    } else {
        Comes::SecondAgain
    }
}

fn in_reading(number: u64, calls: u64) -> Comes {
    if number <= calls {
        Comes::NotRead
    } else {
        Comes::Nothing
    }
}

// What comes of the call of a kind with a number from 1.
fn outcome(keys: Keys, kind: CallKind, number: u64) -> Comes {
    let all = keys.first.saturating_add(keys.second);
    match kind {
        CallKind::Get => {
            if number <= all {
                return in_commits(keys, number);
            }
            in_reading(number, all.saturating_mul(2))
        }
        CallKind::Put => {
            if number <= all {
                return in_commits(keys, number);
            }
            Comes::Nothing
        }
        CallKind::Count => in_reading(number, all.min(1)),
        CallKind::KeyAt => in_reading(number, all),
    }
}

// The lines of attempts, where one commit fails in a part.
fn attempts(alloc: Global, comes: Comes, part: u32) -> Result<String, Mismatch> {
    Ok(match comes {
        Comes::FirstAgain => format!(in alloc;
            "attempt 1.1 records 1-2 ticks 0-0 commit failed counts {part}\n\
             attempt 1.2 records 1-2 ticks 0-0 committed\n\
             attempt 2.1 records 3-3 ticks 0-0 committed\n"
        )?,
        _ => format!(in alloc;
            "attempt 1.1 records 1-2 ticks 0-0 committed\n\
             attempt 2.1 records 3-3 ticks 0-0 commit failed counts {part}\n\
             attempt 2.2 records 3-3 ticks 0-0 committed\n"
        )?,
    })
}

// What a command writes whose commit failed once.
fn made_again(
    alloc: Global,
    command: Command,
    comes: Comes,
    part: u32,
) -> Result<String, Mismatch> {
    if !command.tells {
        return Ok(String::from_str(alloc, command.text)?);
    }
    let mut text = attempts(alloc, comes, part)?;
    text.push_str(TABLES_OF_SENTENCES)?;
    Ok(text)
}

// Lets one call of a store fail.
fn fail<R: Threads + Wait + Sync>(
    rt: &R,
    alloc: Global,
    command: Command,
    part: u32,
    at: FailAt,
    comes: Comes,
) -> Result<(), Mismatch> {
    let outside = Outside {
        failing: &[(1, part, at)],
        ..CALM
    };
    let scene = command.scene;
    match comes {
        Comes::Nothing => check_faults(rt, alloc, scene, outside, 0, 0, command.text),
        Comes::NotRead => check_faults(rt, alloc, scene, outside, 1, 10, "store fault\n"),
        Comes::FirstAgain | Comes::SecondAgain => {
            let want = made_again(alloc, command, comes, part)?;
            check_faults(rt, alloc, scene, outside, 1, 0, want.as_str())
        }
    }
}

// Lets each call of a kind fail in turn, and one more than there are.
fn fail_each<R: Threads + Wait + Sync>(
    rt: &R,
    alloc: Global,
    command: Command,
    part: u32,
    kind: CallKind,
    happened: bool,
) -> Result<(), Mismatch> {
    let [zero, one] = command.parts;
    let keys = if part == 0 { zero } else { one };
    for number in 1..100 {
        let comes = outcome(keys, kind, number);
        let at = FailAt {
            kind,
            number,
            happened,
        };
        fail(rt, alloc, command, part, at, comes)?;
        if comes == Comes::Nothing {
            break;
        }
    }
    Ok(())
}

// Lets each call of the stores of a command fail in turn. Whether it happens counts for a put alone.
fn fail_all<R: Threads + Wait + Sync>(
    rt: &R,
    alloc: Global,
    command: Command,
) -> Result<(), Mismatch> {
    for part in [0, 1] {
        fail_each(rt, alloc, command, part, CallKind::Put, true)?;
        for kind in KINDS {
            fail_each(rt, alloc, command, part, kind, false)?;
        }
    }
    Ok(())
}

#[test]
fn each_call_of_a_store_fails(rt: HostRuntime) -> Result<(), Mismatch> {
    for command in commands() {
        fail_all(&rt, rt.alloc(), command)?;
    }
    Ok(())
}

#[test]
fn each_call_of_a_store_fails_by_workers(rt: HostRuntime) -> Result<(), Mismatch> {
    fail_all(&rt, rt.alloc(), by_workers())
}
