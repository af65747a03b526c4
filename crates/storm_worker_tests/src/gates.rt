// Runs behind gates.
use sample_topologies::{COUNTED_SENTENCES, SENTENCES, SIDE_BY_SIDE};
use std::alloc::Global;
use std::sync::Wait;
use std::sync::atomic::{AtomicU64, Ordering};
use std::thread::Threads;
use storm_gates::{Gate, HoldUntil};
use storm_test_kit::{CALM, RUN_ALONE, Scene, call_behind, check_answer, run_of, run_over};
use storm_values::{Path, Root};
use test_kit::Mismatch;

// How often an execution looks for the other at most.
const TURNS: u64 = 100_000_000;

const COUNTED: &str = "attempt 1.1 records 1-2 ticks 0-0 committed
cell counts [\"a\"] 1
cell counts [\"b\"] 1
ok 2 records 1 batches
";

// Whether the executions of two records in one batch, by two tasks, met.
fn have_met<R: Threads + Wait + Sync>(
    rt: &R,
    alloc: Global,
    words: &'static [&'static str],
) -> Result<bool, Mismatch> {
    let first = Path::from_slice(alloc, &[0])?;
    let second = Path::from_slice(alloc, &[1])?;
    let gate = HoldUntil::new(first, second, TURNS);
    let scene = Scene {
        words,
        ..run_of(SIDE_BY_SIDE, "[\"a\"]\n[\"b\"]\n")
    };
    let told = call_behind(rt, alloc, scene, CALM, &gate)?;
    check_answer(alloc, &told, 0, COUNTED)?;
    Ok(gate.met())
}

#[test]
fn two_workers_execute_side_by_side(rt: HostRuntime) -> Result<(), Mismatch> {
    assert!(rt; have_met(&rt, rt.alloc(), &["run", "t", "i", "2"])?);
    Ok(())
}

// It goes by rounds, which pass no gate.
#[test]
fn one_worker_executes_one_after_another(rt: HostRuntime) -> Result<(), Mismatch> {
    assert!(rt; !have_met(&rt, rt.alloc(), &RUN_ALONE)?);
    Ok(())
}

/// Counts executions.
#[derive(Drop)]
struct Counting {
    passed: AtomicU64,
}

impl Gate for Counting {
    fn pass<R: Wait>(&self, _rt: &R, _task: u32, _root: Root, _path: &Path) {
        let _ = self.passed.fetch_add(1, Ordering::SeqCst);
    }
}

// Of three sentences with six words each.
#[test]
fn each_sentence_and_each_word_passes_once(rt: HostRuntime) -> Result<(), Mismatch> {
    let alloc = rt.alloc();
    let gate = Counting {
        passed: AtomicU64::new(0),
    };
    let told = call_behind(&rt, alloc, run_over(SENTENCES), CALM, &gate)?;
    check_answer(alloc, &told, 0, COUNTED_SENTENCES)?;
    assert!(rt; gate.passed.load(Ordering::SeqCst) == 21);
    Ok(())
}
