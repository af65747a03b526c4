ghost use Rattle.bolt_ops.specs.Stored.{Keeps};

use bolt_ops::{RowFn, RowLaw, StoredOp};
use sample_operations::{Nothing, Sixteen, copies};
use std::alloc::Global;
use std::sync::Wait;
use std::test::Fail;
use std::thread::Threads;
use storm_test_kit::{
    CALM, Scene, call_custom, check_answer, plain_of, replay_of, run_alone, run_of,
};
use storm_values::{Row, Rows};
use test_kit::Mismatch;

/// How often each first value comes out of the bolt.
const COUNTED: &str = r#"{"version":1,
 "spout":{"name":"pairs","kind":"transactional","fields":["k","v"],"batch":1},
 "bolts":[{"name":"own","tasks":1,"op":{"do":"custom"},
   "inputs":[{"from":"pairs","grouping":"shuffle"}]}],
 "states":[{"name":"counts","kind":"transactional","parts":1,"key":["k"],
   "fold":"count","inputs":["own"]}]}"#;

const PAIRS: &str = "[\"x\",1]\n[\"y\",2]\n[\"x\",3]\n";

const ATTEMPTS: &str = "attempt 1.1 records 1-1 ticks 0-0 committed\n\
attempt 2.1 records 2-2 ticks 0-0 committed\n\
attempt 3.1 records 3-3 ticks 0-0 committed\n";

/// The whole answer of a call with a closure of this law.
fn check_law<R: Threads + Wait + Sync, L: RowLaw + Sync, F: RowFn + Sync + Drop>(
    rt: &R,
    alloc: Global,
    scene: Scene<'_>,
    make: F,
    attempts: &str,
    cells: &str,
) -> Result<(), Mismatch>
    requires { Keeps L.law (F.may_make make) (F.makes make) }
{
    let op = StoredOp::<L, F>::new(make);
    let told = call_custom(rt, alloc, scene, CALM, &op)?;
    let mut want = String::from_str(alloc, attempts)?;
    want.push_str(cells)?;
    check_answer(alloc, &told, 0, want.as_str())
}

/// The calls of a law of sixteen equal rows.
fn check_sixteen<R: Threads + Wait + Sync>(
    rt: &R,
    alloc: Global,
    scene: Scene<'_>,
    attempts: &str,
) -> Result<(), Mismatch> {
    let make = |alloc: Global, row: &Row| copies(alloc, row, 16);
    let cells = "cell counts [\"x\"] 32\ncell counts [\"y\"] 16\nok 3 records 3 batches\n";
    check_law::<R, Sixteen, _>(rt, alloc, scene, make, attempts, cells)
}

/// The calls of a law of no row.
fn check_none<R: Threads + Wait + Sync>(
    rt: &R,
    alloc: Global,
    scene: Scene<'_>,
    attempts: &str,
) -> Result<(), Mismatch> {
    let make = |alloc: Global, _: &Row| Ok(Rows::new(alloc));
    check_law::<R, Nothing, _>(rt, alloc, scene, make, attempts, "ok 3 records 3 batches\n")
}

#[test]
fn each_row_sixteen_times(rt: HostRuntime) -> Result<(), Fail> {
    let alloc = rt.alloc();
    check_sixteen(
        &rt,
        alloc,
        replay_of(COUNTED, PAIRS, "rounds 400\n"),
        ATTEMPTS,
    )?;
    check_sixteen(&rt, alloc, run_alone(COUNTED, PAIRS), ATTEMPTS)?;
    check_sixteen(&rt, alloc, run_of(COUNTED, PAIRS), ATTEMPTS)?;
    check_sixteen(&rt, alloc, plain_of(COUNTED, PAIRS), "")?;
    Ok(())
}

#[test]
fn no_row_at_all(rt: HostRuntime) -> Result<(), Fail> {
    let alloc = rt.alloc();
    check_none(
        &rt,
        alloc,
        replay_of(COUNTED, PAIRS, "rounds 400\n"),
        ATTEMPTS,
    )?;
    check_none(&rt, alloc, run_alone(COUNTED, PAIRS), ATTEMPTS)?;
    check_none(&rt, alloc, run_of(COUNTED, PAIRS), ATTEMPTS)?;
    check_none(&rt, alloc, plain_of(COUNTED, PAIRS), "")?;
    Ok(())
}
