// What a run and a replay answer and write where one call of one store fails: the tables are the
// plain ones, or the last reading failed.
use sample_topologies::{STEADY, one_bolt};
use std::alloc::Global;
use std::sync::Wait;
use std::thread::Threads;
use storm_stores::{CallKind, FailAt};
use storm_test_kit::{CALM, Outside, Scene, Told, call, check_answer, replay_of, run_of};
use test_kit::{Mismatch, compare, lines_without};

// Two batches that write one key, and one that writes another. The state is the component
// 1, and has one part.
const RECORDS: &str = "[\"a\"]\n[\"a\"]\n[\"b\"]\n";

const TABLES: &str = "cell counts [\"a\"] 2
cell counts [\"b\"] 1
ok 3 records 3 batches
";

const KINDS: [CallKind; 4] = [
    CallKind::Get,
    CallKind::Put,
    CallKind::Count,
    CallKind::KeyAt,
];

// A call that fails is told by the end of an attempt or by the last reading, and changes no table.
fn check_fault(alloc: Global, told: &Told) -> Result<(), Mismatch> {
    if told.status.code() == 10 {
        return check_answer(alloc, told, 10, "store fault\n");
    }
    let lines = lines_without(alloc, told.text.as_str(), "attempt ")?;
    compare(alloc, "tables", lines.as_str(), TABLES)?;
    let failed = told.text.contains(" commit failed counts 0\n");
    if told.status.code() == 0 && failed == (told.store_faults == 1) {
        return Ok(());
    }
    Err(Mismatch::Case(String::from_str(alloc, "another end")?))
}

// Lets one call fail. The answer is whether it was made.
fn fail<R: Threads + Wait + Sync>(
    rt: &R,
    alloc: Global,
    scene: Scene<'_>,
    at: FailAt,
) -> Result<bool, Mismatch> {
    let outside = Outside {
        failing: &[(1, 0, at)],
        ..CALM
    };
    let told = call(rt, alloc, scene, outside)?;
    check_fault(alloc, &told)?;
    Ok(told.store_faults == 1)
}

// Lets each call of a kind fail in turn. The answer is how many were made.
fn fail_each<R: Threads + Wait + Sync>(
    rt: &R,
    alloc: Global,
    scene: Scene<'_>,
    kind: CallKind,
    happened: bool,
) -> Result<u64, Mismatch> {
    for before in 0..100 {
        let at = FailAt {
            kind,
            number: before + 1,
            happened,
        };
        if !fail(rt, alloc, scene, at)? {
            return Ok(before);
        }
    }
    Ok(100)
}

fn fail_all<R: Threads + Wait + Sync>(
    rt: &R,
    alloc: Global,
    scene: Scene<'_>,
) -> Result<(), Mismatch> {
    for kind in KINDS {
        for happened in [false, true] {
            let made = fail_each(rt, alloc, scene, kind, happened)?;
            if made == 0 || made == 100 {
                return Err(Mismatch::Case(String::from_str(alloc, "no calls")?));
            }
        }
    }
    Ok(())
}

// Kinds of the spout and the state.
const SPOUTS: [(&str, &str); 3] = [
    ("transactional", "transactional"),
    ("transactional", "opaque"),
    ("opaque", "opaque"),
];

#[test]
fn each_call_of_a_store_fails(rt: HostRuntime) -> Result<(), Mismatch> {
    let alloc = rt.alloc();
    for (spout, state) in SPOUTS {
        let topology = one_bolt(alloc, spout, state, r#"{"do":"route","field":"word"}"#)?;
        fail_all(&rt, alloc, run_of(topology.as_str(), RECORDS))?;
        let replay = replay_of(topology.as_str(), RECORDS, "rounds 1000");
        fail_all(&rt, alloc, replay)?;
    }
    Ok(())
}

// The fates and the stores are as they are where the text is taken.
fn fail_first_write<R: Threads + Wait + Sync>(
    rt: &R,
    alloc: Global,
    scene: Scene<'_>,
    kind: CallKind,
) -> Result<bool, Mismatch> {
    let at = FailAt {
        kind,
        number: 1,
        happened: false,
    };
    let outside = Outside {
        failing: &[(1, 0, at)],
        ..CALM
    };
    let whole = call(rt, alloc, scene, outside)?;
    let cut = Outside {
        failing_write: 1,
        ..outside
    };
    let told = call(rt, alloc, scene, cut)?;
    check_answer(alloc, &told, 6, "")?;
    let same = told.fates.as_slice() == whole.fates.as_slice();
    Ok(same && whole.store_faults == 1 && told.store_faults == 1)
}

#[test]
fn a_write_fails_after_a_call_of_a_store(rt: HostRuntime) -> Result<(), Mismatch> {
    let alloc = rt.alloc();
    for kind in KINDS {
        let run = run_of(STEADY, RECORDS);
        assert!(rt; fail_first_write(&rt, alloc, run, kind)?);
        let replay = replay_of(STEADY, RECORDS, "rounds 1000");
        assert!(rt; fail_first_write(&rt, alloc, replay, kind)?);
    }
    Ok(())
}
