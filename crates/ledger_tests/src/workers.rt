// Workers at one root, each with a seat of its own.
ghost use Rattle.std.specs.Prelude.{◌≡◌, ◌≤◌, ◌<◌, All, IfOk};
ghost use Rattle.shared_ledger.specs.Seats.{IsSeatOf, roots_of};

use crate::both::word_after_both;
use shared_ledger::{LedgerSeat, SharedLedger, WordState, WordTold};
use std::alloc::Global;
use std::test::Fail;
use std::thread;
use std::thread::Threads;
use storm_values::Memory;

// How many acks each worker makes: a million by eight.
const ACKS: u64 = 125_000;

// The root that all ack.
const ROOT: u32 = 1;

// A worker acks a chain of tuples, each of which has one child. Their ids have a bit that those of
// no other worker have, so the root's word is 0 only once all chains are acked.
#[derive(Drop)]
struct Worker {
    seat: LedgerSeat,
    bit: u64,
    zeros: u32,
}

// Acks the chain, and counts how often the word was 0.
fn work(ledger: &SharedLedger, worker: &mut Worker)
    requires seat { IsSeatOf ledger.now worker.old.seat }
    requires roots { roots_of ledger.now ≡ 2 }
    ensures { IsSeatOf ledger.now worker.new.seat }
{
    let mut id = worker.bit;
    for done in 1..=ACKS {
        let child = if done < ACKS { worker.bit | done } else { 0 };
        if ledger.ack(&mut worker.seat, ROOT, id ^ child) == WordTold::Zero {
            worker.zeros = worker.zeros.wrapping_add(1);
        }
        id = child;
    }
}

// All workers, in so many threads.
fn work_all<R: Threads + Sync>(
    rt: &R,
    ledger: &SharedLedger,
    workers: &mut [Worker],
    threads: usize,
)
    requires threads { 0 < threads }
    requires seats { All (λ w. IsSeatOf ledger.now w.seat) workers.old }
    requires roots { roots_of ledger.now ≡ 2 }
    ensures { All (λ w. IsSeatOf ledger.now w.seat) workers.new }
{
    thread::for_each_mut(
        rt,
        workers,
        threads,
        &|_, worker|
            requires seat { IsSeatOf ledger.now worker.old.seat }
            requires roots { roots_of ledger.now ≡ 2 }
            ensures { IsSeatOf ledger.entry.now worker.new.seat }
        { work(ledger, worker) },
    );
}

// So many workers, whose seats are split from this one.
fn new_workers(
    alloc: Global,
    ledger: &SharedLedger,
    seat: &mut LedgerSeat,
    count: u32,
) -> Result<Vec<Worker>, Memory>
    requires seat { IsSeatOf ledger.now seat.old }
    requires count { count ≤ 8 }
    ensures seat { IsSeatOf ledger.now seat.new }
    ensures seats { IfOk result (λ made. All (λ w. IsSeatOf ledger.now w.seat) made.items) }
{
    let mut workers = Vec::new(alloc);
    for number in 0..count {
        workers.push(Worker {
            seat: ledger.split(seat),
            bit: 1 << (40 + number),
            zeros: 0,
        })?;
    }
    Ok(workers)
}

// Joins all seats into one, and adds up how often the word was 0.
fn join_all(ledger: &SharedLedger, seat: &mut LedgerSeat, mut workers: Vec<Worker>) -> u32
    requires seat { IsSeatOf ledger.now seat.old }
    requires seats { All (λ w. IsSeatOf ledger.now w.seat) workers.items }
    ensures { IsSeatOf ledger.now seat.new }
{
    let mut zeros = 0u32;
    while let Some(worker) = workers.pop() {
        zeros = zeros.wrapping_add(worker.zeros);
        ledger.join(seat, worker.seat);
    }
    zeros
}

// How often the word was 0, and the root's words at the end.
fn run<R: Threads + Sync>(
    rt: &R,
    alloc: Global,
    count: u32,
    threads: usize,
) -> Result<(u32, WordState), Memory>
    requires count { count ≤ 8 }
    requires threads { 0 < threads }
{
    let (ledger, mut seat) = SharedLedger::new(alloc, 2)?;
    let mut bits = 0u64;
    for number in 0..count {
        bits |= 1 << (40 + number);
    }
    ledger.init(&mut seat, ROOT, bits);
    let mut workers = new_workers(alloc, &ledger, &mut seat, count)?;
    work_all(rt, &ledger, workers.as_mut_slice(), threads);
    let zeros = join_all(&ledger, &mut seat, workers);
    Ok((zeros, ledger.state(&mut seat, ROOT)))
}

const ACKED: WordState = WordState {
    word: 0,
    failed: false,
};

#[test]
fn one_thread_is_told_zero_once(rt: HostRuntime) -> Result<(), Fail> {
    assert!(rt; run(&rt, rt.alloc(), 1, 1)? == (1, ACKED));
    assert!(rt; run(&rt, rt.alloc(), 8, 1)? == (1, ACKED));
    Ok(())
}

#[test]
fn one_of_eight_threads_is_told_zero_once(rt: HostRuntime) -> Result<(), Fail> {
    assert!(rt; run(&rt, rt.alloc(), 8, 8)? == (1, ACKED));
    Ok(())
}

#[test]
fn two_threads_ack_beside_one_another(rt: HostRuntime) -> Result<(), Fail> {
    let (ledger, mut seat) = SharedLedger::new(rt.alloc(), 1)?;
    ledger.init(&mut seat, 0, 5);
    assert!(rt; word_after_both(&rt, &ledger, seat, 0, 3, 6) == 0);
    Ok(())
}
