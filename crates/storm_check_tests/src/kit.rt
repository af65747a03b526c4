// A check of a call that answers otherwise fails.
use sample_topologies::{COUNTED_SENTENCES, SENTENCES, TABLES_OF_SENTENCES, WORD_COUNT};
use storm_stores::{CallKind, FailAt};
use storm_test_kit::{
    CALM, Outside, check_call, check_faults, check_refusal, check_tables, replay_of, run_over,
};
use test_kit::Mismatch;

fn is_told(outcome: Result<(), Mismatch>) -> bool {
    matches!(outcome, Err(Mismatch::Told { .. }))
}

fn is_case(outcome: Result<(), Mismatch>) -> bool {
    matches!(outcome, Err(Mismatch::Case(_)))
}

#[test]
fn calls_that_answer_otherwise(rt: HostRuntime) -> Result<(), Mismatch> {
    let alloc = rt.alloc();
    let scene = run_over(SENTENCES);
    check_call(&rt, alloc, scene, CALM, 0, COUNTED_SENTENCES)?;
    assert!(rt; is_told(check_call(&rt, alloc, scene, CALM, 0, "")));
    assert!(rt; is_case(check_call(&rt, alloc, scene, CALM, 3, COUNTED_SENTENCES)));
    assert!(rt; is_case(check_refusal(&rt, alloc, scene, CALM, 0, COUNTED_SENTENCES)));
    Ok(())
}

#[test]
fn tables_that_are_others(rt: HostRuntime) -> Result<(), Mismatch> {
    let alloc = rt.alloc();
    check_tables(&rt, alloc, run_over(SENTENCES), CALM, TABLES_OF_SENTENCES)?;
    assert!(rt; is_told(check_tables(&rt, alloc, run_over(""), CALM, TABLES_OF_SENTENCES)));
    // an empty schedule commits no batch
    let scene = replay_of(WORD_COUNT, SENTENCES, "");
    assert!(rt; is_case(check_tables(&rt, alloc, scene, CALM, "unfinished 0\n")));
    Ok(())
}

// Keys are counted in the last reading.
const FIRST_COUNT: FailAt = FailAt {
    kind: CallKind::Count,
    number: 1,
    happened: false,
};

#[test]
fn faults_of_stores_that_are_others(rt: HostRuntime) -> Result<(), Mismatch> {
    let alloc = rt.alloc();
    let outside = Outside {
        failing: &[(1, 0, FIRST_COUNT)],
        ..CALM
    };
    let scene = run_over(SENTENCES);
    check_faults(&rt, alloc, scene, outside, 1, 10, "store fault\n")?;
    assert!(rt; is_case(check_faults(&rt, alloc, scene, outside, 0, 10, "store fault\n")));
    Ok(())
}
