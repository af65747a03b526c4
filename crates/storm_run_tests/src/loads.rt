use storm_stores::{CallKind, FailAt};
use storm_test_kit::storm_program::Status;
use storm_test_kit::{CALM, Outside, Scene, call, check_call, check_faults};
use test_kit::{Mismatch, compare};

// A load has no file.
fn load_of<'a>(words: &'a [&'a str]) -> Scene<'a> {
    Scene {
        words,
        topology: None,
        input: None,
        schedule: None,
    }
}

const TWO: &str = "load 2 records 1 batches 11 keys 12 words\n";

#[test]
fn two_records(rt: HostRuntime) -> Result<(), Mismatch> {
    let alloc = rt.alloc();
    check_call(&rt, alloc, load_of(&["load", "2", "1"]), CALM, 0, TWO)?;
    // zeros may lead
    check_call(
        &rt,
        alloc,
        load_of(&["load", "00002", "00001"]),
        CALM,
        0,
        TWO,
    )
}

#[test]
fn ten_thousand_records_twice(rt: HostRuntime) -> Result<(), Mismatch> {
    let alloc = rt.alloc();
    let words = ["load", "10000", "7"];
    let first = call(&rt, alloc, load_of(&words), CALM)?;
    assert!(rt; first.status == Status::Done);
    assert!(rt; first.fates.as_slice().len() == 100);
    let line = first.text.as_str();
    assert!(rt; line.starts_with("load 10000 records 100 batches 50 keys 60000 words\n"));
    let again = call(&rt, alloc, load_of(&words), CALM)?;
    compare(alloc, "a load", again.text.as_str(), line)
}

#[test]
fn a_commit_that_fails_is_made_again(rt: HostRuntime) -> Result<(), Mismatch> {
    let at = FailAt {
        kind: CallKind::Put,
        number: 1,
        happened: true,
    };
    let outside = Outside {
        failing: &[(1, 0, at)],
        ..CALM
    };
    check_faults(
        &rt,
        rt.alloc(),
        load_of(&["load", "2", "1"]),
        outside,
        1,
        0,
        TWO,
    )
}

#[test]
fn a_line_that_is_cut_short(rt: HostRuntime) -> Result<(), Mismatch> {
    let outside = Outside {
        failing_write: 1,
        ..CALM
    };
    let told = call(&rt, rt.alloc(), load_of(&["load", "2", "1"]), outside)?;
    assert!(rt; told.status == Status::WriteFault);
    Ok(())
}
