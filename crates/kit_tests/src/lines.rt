// A check whose line is not met fails.
use test_kit::Mismatch;
use topology_test_kit::{
    check_changes, check_changes_of, check_operations, check_pairs, check_pairs_of, check_told,
    full_file,
};

// Tables with a line that is met.
const CHANGE: &str = r#""batch":5 | "batch":0 | "batch" is 0, not from 1 to 100000"#;

const OPERATION: &str = r#"{"do":"join"} | unknown "join""#;

const PAIR: &str =
    r#""name":"s" | "name":7 | wrong kind "name" | "batch":5 | "batch":null | wrong kind "batch""#;

// Tables with a line that is not met.
const OTHER_CHANGE: &str = r#""batch":5 | "batch":0 | no fault"#;

const OTHER_OPERATION: &str = r#"{"do":"custom"} | unknown "custom""#;

const OTHER_FIRST: &str =
    r#""name":"s" | "name":7 | wrong kind "batch" | "batch":5 | "batch":null | wrong kind "batch""#;

const OTHER_SECOND: &str =
    r#""name":"s" | "name":7 | wrong kind "name" | "batch":5 | "batch":null | no fault"#;

fn is_told(outcome: Result<(), Mismatch>) -> bool {
    matches!(outcome, Err(Mismatch::Told { .. }))
}

fn is_case(outcome: Result<(), Mismatch>) -> bool {
    matches!(outcome, Err(Mismatch::Case(_)))
}

#[test]
fn lines_that_are_met(rt: HostRuntime) -> Result<(), Mismatch> {
    check_changes(rt.alloc(), CHANGE)?;
    check_operations(rt.alloc(), OPERATION)?;
    check_pairs(rt.alloc(), PAIR)
}

#[test]
fn lines_of_the_file_with_the_most_tasks(rt: HostRuntime) -> Result<(), Mismatch> {
    let alloc = rt.alloc();
    let file = full_file(alloc)?;
    check_told(alloc, file.as_str(), "no fault")?;
    check_changes_of(alloc, file.as_str(), CHANGE)?;
    check_pairs_of(alloc, file.as_str(), PAIR)?;
    assert!(rt; is_told(check_changes_of(alloc, file.as_str(), OTHER_CHANGE)));
    assert!(rt; is_told(check_pairs_of(alloc, file.as_str(), OTHER_SECOND)));
    Ok(())
}

#[test]
fn lines_that_are_not_met(rt: HostRuntime) {
    let alloc = rt.alloc();
    assert!(rt; is_told(check_changes(alloc, OTHER_CHANGE)));
    assert!(rt; is_told(check_operations(alloc, OTHER_OPERATION)));
    assert!(rt; is_told(check_pairs(alloc, OTHER_FIRST)));
    assert!(rt; is_told(check_pairs(alloc, OTHER_SECOND)));
}

#[test]
fn lines_of_another_form(rt: HostRuntime) {
    let alloc = rt.alloc();
    assert!(rt; is_case(check_changes(alloc, r#""batch":5 | "batch":0"#)));
    assert!(rt; is_case(check_changes(alloc, r#""batch":6 | "batch":0 | no fault"#)));
    assert!(rt; is_case(check_operations(alloc, "no fault")));
    assert!(rt; is_case(check_pairs(alloc, CHANGE)));
}
