// Attempts in flight.
use record_spans::{Span, Spans};
use replay_pending::{BeginFault, Entry, Pending, Tried};
use std::alloc::{AllocError, Global};
use std::test::Fail;
use storm_values::{Memory, Root};

const NONE: Answer = Answer::Told(None, None);

#[derive(Clone, Copy)]
enum Call {
    Begin(Root),
    Settle(Root),
    End(Root),
    Abort(Root),
    EndAbove(u64),
    Tick,
    Tried(u64),
}

#[derive(Clone, Copy, PartialEq, Eq)]
enum Answer {
    Begun,
    AtCap(u32),
    /// The call may not be made.
    NotNext,
    Was(bool),
    /// The roots of the first two attempts that a tick told.
    Told(Option<Root>, Option<Root>),
    /// The root of the attempt that moved out.
    Moved(Option<Root>),
    Tried(Tried),
}

fn try_of(txid: u64, attempt: u32) -> Root {
    Root { txid, attempt }
}

fn tried(begun: u32, aborted: u32) -> Answer {
    Answer::Tried(Tried { begun, aborted })
}

// The span of one record, with the number of the transaction.
fn spans_of(alloc: Global, root: Root) -> Result<Spans, Memory> {
    let mut spans = Spans::new(alloc);
    spans.push(Span {
        first: root.txid,
        last: root.txid,
    })?;
    Ok(spans)
}

fn begin(alloc: Global, pending: &mut Pending<u64>, root: Root) -> Result<Answer, Memory> {
    if !pending.is_next(root) {
        return Ok(Answer::NotNext);
    }
    match pending.begin(root, spans_of(alloc, root)?) {
        Ok(()) => Ok(Answer::Begun),
        Err(BeginFault::AtCap(cap)) => Ok(Answer::AtCap(cap)),
        Err(BeginFault::Memory) => Err(AllocError),
    }
}

fn root_of(entry: Option<Entry<u64>>) -> Option<Root> {
    match entry {
        Some(entry) => Some(entry.root),
        None => None,
    }
}

fn root_at(told: &[Entry<u64>], place: usize) -> Option<Root> {
    match told.get(place) {
        Some(entry) => Some(entry.root),
        None => None,
    }
}

fn tick(pending: &mut Pending<u64>) -> Result<Answer, Memory> {
    if pending.tick_number() == u64::MAX {
        return Ok(NONE);
    }
    let told = pending.tick()?;
    Ok(Answer::Told(root_at(&told, 0), root_at(&told, 1)))
}

// Makes a call.
fn make(alloc: Global, pending: &mut Pending<u64>, call: Call) -> Result<Answer, Memory> {
    match call {
        Call::Begin(root) => begin(alloc, pending, root),
        Call::Settle(root) => Ok(Answer::Was(pending.settle(root, 7))),
        Call::End(root) => Ok(Answer::Was(pending.end(root).is_some())),
        Call::Abort(root) => Ok(Answer::Was(pending.abort(root).is_some())),
        Call::EndAbove(txid) => Ok(Answer::Moved(root_of(pending.end_above(txid)))),
        Call::Tick => tick(pending),
        Call::Tried(txid) => Ok(Answer::Tried(pending.tried(txid))),
    }
}

// Whether each call, one after another, has its answer.
fn answers(
    alloc: Global,
    pending: &mut Pending<u64>,
    table: &[(Call, Answer)],
) -> Result<bool, Memory> {
    for (call, want) in table {
        if make(alloc, pending, *call)? != *want {
            return Ok(false);
        }
    }
    Ok(true)
}

#[test]
fn one_root_at_a_time(rt: HostRuntime) -> Result<(), Fail> {
    let mut pending = Pending::new(rt.alloc(), 1, 3);
    let table = [
        (Call::Begin(try_of(1, 1)), Answer::Begun),
        (Call::Begin(try_of(2, 1)), Answer::AtCap(1)),
        (Call::End(try_of(1, 1)), Answer::Was(true)),
        (Call::End(try_of(1, 1)), Answer::Was(false)),
        (Call::Begin(try_of(2, 1)), Answer::Begun),
        (Call::Tried(1), tried(1, 0)),
        (Call::Tried(3), tried(0, 0)),
    ];
    assert!(rt; answers(rt.alloc(), &mut pending, &table)?);
    Ok(())
}

#[test]
fn a_root_is_told_at_the_third_tick_of_three_buckets(rt: HostRuntime) -> Result<(), Fail> {
    let mut pending = Pending::new(rt.alloc(), 1, 3);
    let table = [
        (Call::Begin(try_of(1, 1)), Answer::Begun),
        (Call::Tick, NONE),
        (Call::Tick, NONE),
        (Call::Tick, Answer::Told(Some(try_of(1, 1)), None)),
        (Call::Tick, NONE),
        (Call::End(try_of(1, 1)), Answer::Was(false)),
    ];
    assert!(rt; answers(rt.alloc(), &mut pending, &table)?);
    Ok(())
}

#[test]
fn roots_are_told_in_the_order_of_their_begins(rt: HostRuntime) -> Result<(), Fail> {
    let mut pending = Pending::new(rt.alloc(), 3, 2);
    let table = [
        (Call::Begin(try_of(7, 1)), Answer::Begun),
        (Call::Begin(try_of(2, 1)), Answer::Begun),
        (Call::Tick, NONE),
        (Call::Begin(try_of(3, 1)), Answer::Begun),
        (
            Call::Tick,
            Answer::Told(Some(try_of(7, 1)), Some(try_of(2, 1))),
        ),
        (Call::Tick, Answer::Told(Some(try_of(3, 1)), None)),
    ];
    assert!(rt; answers(rt.alloc(), &mut pending, &table)?);
    Ok(())
}

#[test]
fn a_settled_root_is_not_told(rt: HostRuntime) -> Result<(), Fail> {
    let mut pending = Pending::new(rt.alloc(), 2, 2);
    let table = [
        (Call::Begin(try_of(1, 1)), Answer::Begun),
        (Call::Begin(try_of(2, 1)), Answer::Begun),
        (Call::Settle(try_of(1, 1)), Answer::Was(true)),
        (Call::Settle(try_of(1, 1)), Answer::Was(false)),
        (Call::Tick, NONE),
        (Call::Tick, Answer::Told(Some(try_of(2, 1)), None)),
        (Call::End(try_of(1, 1)), Answer::Was(true)),
        (Call::End(try_of(2, 1)), Answer::Was(false)),
    ];
    assert!(rt; answers(rt.alloc(), &mut pending, &table)?);
    Ok(())
}

#[test]
fn a_verdict_of_another_attempt_changes_nothing(rt: HostRuntime) -> Result<(), Fail> {
    let mut pending = Pending::new(rt.alloc(), 2, 2);
    let table = [
        (Call::Begin(try_of(1, 1)), Answer::Begun),
        (Call::End(try_of(1, 1)), Answer::Was(true)),
        (Call::Begin(try_of(1, 1)), Answer::NotNext),
        (Call::Begin(try_of(1, 2)), Answer::Begun),
        (Call::Begin(try_of(1, 3)), Answer::NotNext),
        (Call::Tried(1), tried(2, 0)),
        (Call::Settle(try_of(1, 1)), Answer::Was(false)),
        (Call::Settle(try_of(2, 1)), Answer::Was(false)),
        (Call::Tick, NONE),
        (Call::Tick, Answer::Told(Some(try_of(1, 2)), None)),
    ];
    assert!(rt; answers(rt.alloc(), &mut pending, &table)?);
    Ok(())
}

#[test]
fn an_abort_is_counted_and_an_end_is_not(rt: HostRuntime) -> Result<(), Fail> {
    let mut pending = Pending::new(rt.alloc(), 2, 3);
    let table = [
        (Call::Begin(try_of(1, 1)), Answer::Begun),
        (Call::Abort(try_of(1, 1)), Answer::Was(true)),
        (Call::Abort(try_of(1, 1)), Answer::Was(false)),
        (Call::Tried(1), tried(1, 1)),
        (Call::Begin(try_of(1, 2)), Answer::Begun),
        (Call::Tried(1), tried(2, 1)),
        (Call::End(try_of(1, 2)), Answer::Was(true)),
        (Call::Tried(1), tried(2, 1)),
    ];
    assert!(rt; answers(rt.alloc(), &mut pending, &table)?);
    Ok(())
}

#[test]
fn a_tick_counts_those_that_it_tells(rt: HostRuntime) -> Result<(), Fail> {
    let mut pending = Pending::new(rt.alloc(), 3, 2);
    let table = [
        (Call::Begin(try_of(7, 1)), Answer::Begun),
        (Call::Begin(try_of(9, 1)), Answer::Begun),
        (Call::Begin(try_of(2, 1)), Answer::Begun),
        (Call::Settle(try_of(9, 1)), Answer::Was(true)),
        (Call::Tick, NONE),
        (Call::Tried(7), tried(1, 0)),
        (
            Call::Tick,
            Answer::Told(Some(try_of(7, 1)), Some(try_of(2, 1))),
        ),
        (Call::Tried(7), tried(1, 1)),
        (Call::Tried(9), tried(1, 0)),
        (Call::Tried(2), tried(1, 1)),
    ];
    assert!(rt; answers(rt.alloc(), &mut pending, &table)?);
    Ok(())
}

#[test]
fn attempts_above_a_transaction_move_out_in_order(rt: HostRuntime) -> Result<(), Fail> {
    let mut pending = Pending::new(rt.alloc(), 4, 3);
    let table = [
        (Call::Begin(try_of(5, 1)), Answer::Begun),
        (Call::Begin(try_of(3, 1)), Answer::Begun),
        (Call::Begin(try_of(9, 1)), Answer::Begun),
        (Call::Begin(try_of(2, 1)), Answer::Begun),
        (Call::Settle(try_of(9, 1)), Answer::Was(true)),
        (Call::EndAbove(3), Answer::Moved(Some(try_of(5, 1)))),
        (Call::EndAbove(3), Answer::Moved(Some(try_of(9, 1)))),
        (Call::EndAbove(3), Answer::Moved(None)),
        (Call::Tried(5), tried(1, 0)),
        (Call::Tried(9), tried(1, 0)),
        (Call::End(try_of(3, 1)), Answer::Was(true)),
        (Call::End(try_of(2, 1)), Answer::Was(true)),
    ];
    assert!(rt; answers(rt.alloc(), &mut pending, &table)?);
    Ok(())
}

// What an attempt that moved out is: its root, its first record, the tick of its begin and what it
// was settled with.
fn parts_of(entry: Option<Entry<u64>>) -> Option<(Root, Option<u64>, u64, Option<u64>)> {
    match entry {
        Some(entry) => {
            let first = entry.spans.as_slice().first().map(|span| span.first);
            Some((entry.root, first, entry.start, entry.settled))
        }
        None => None,
    }
}

#[test]
fn an_attempt_moves_out_with_what_it_has(rt: HostRuntime) -> Result<(), Fail> {
    let mut pending = Pending::new(rt.alloc(), 2, 3);
    let table = [
        (Call::Tick, NONE),
        (Call::Begin(try_of(5, 1)), Answer::Begun),
        (Call::Settle(try_of(5, 1)), Answer::Was(true)),
    ];
    assert!(rt; answers(rt.alloc(), &mut pending, &table)?);
    assert!(rt; pending.timed(try_of(5, 1)).is_none());
    assert!(rt; pending.settled_after(4).is_some());
    assert!(rt; pending.has_txid(5));
    assert_eq!(rt; pending.len(), 1);
    assert_eq!(rt;
        parts_of(pending.end(try_of(5, 1))),
        Some((try_of(5, 1), Some(5), 1, Some(7)))
    );
    assert_eq!(rt; pending.len(), 0);
    Ok(())
}
