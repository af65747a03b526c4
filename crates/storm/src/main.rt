//! Runs the command that the words after the program's name give. Bolts with the operation `custom`
//! turn a row's values round, and states with the fold `custom` keep the first amount of a key.
//!
//! A run has a tick each 10 seconds, finds all partitions open, keeps the cells of its states in
//! memory, and has its ids from ChaCha20 with a key of 32 zero bytes.
#![tactic(auto)]

ghost use Rattle.std.specs.Prelude.{◌≡◌, map, replicate, string_bytes};
ghost use Rattle.bolt_ops.specs.RowOp.{reversed_rows};
ghost use Rattle.bolt_ops.specs.Stored.{Keeps};
ghost use Rattle.storm.specs.Operation.{first, reversed_and_first, same};
ghost use Rattle.storm_program.specs.storm_answers.Outside.{run_use, shelf_use, sink_use, ticks_use};
ghost use Rattle.storm_program.specs.Storm.{Exits};
ghost use Rattle.storm_program.specs.stored_runs.Makers.{maker_use};
ghost use Rattle.stored_folds.specs.Folds.{Keeps as KeepsFold};

mod arguments;

use crate::arguments::words;
use bolt_ops::{Reverse, RowFn, StoredOp, reversed_row};
use std::alloc::Global;
use std::process::ExitCode;
use std::sync::Wait;
use std::thread::Threads;
use stored_folds::{CombineFn, First, OneFn, StoredFold};
use storm_avail::{AllOpen, Avail};
use storm_gates::OpenGate;
use storm_ids::{ChaChaMaker, IdMaker};
use storm_outside::{FileShelf, OutSink, Shelf, Sink};
use storm_program::{Fates, Status, storm};
use storm_stores::{MemMaker, StoreMaker};
use storm_ticks::{ClockTicks, Ticks};
use storm_values::Row;

/// In bytes. The C library's allocator learns from pieces of up to 32 MiB.
const LARGE: usize = 24 << 20;

/// Carries out the words over some files, an output, ticks, partitions that are shut or open,
/// stores and sources of ids, and gives the exit status.
fn exit_status<
    R: Threads + Wait + Sync,
    H: Shelf,
    K: Sink,
    T: Ticks,
    V: Avail,
    M: StoreMaker,
    N: IdMaker,
>(
    rt: &R,
    alloc: Global,
    words: &[String],
    shelf: &mut H,
    out: &mut K,
    ticks: &mut T,
    avail: &mut V,
    stores: &mut M,
    ids: &mut N,
) -> u8
where
    N::I: Send,
    M::C: Send,
    ensures { Exits reversed_and_first (map string_bytes words.now)
        (shelf_use H.holds H.ready H.fetches H.faults shelf.old shelf.new)
        (sink_use K.taken K.faults out.old out.new)
        (run_use (maker_use M.C.tells M.C.fault_count M.holds M.has_made M.fault_count
        stores.old stores.new)
        (N.tells ids.old))
        (ticks_use T.handed_out T.tells ticks.old ticks.new) (V.tells avail.old) result }
{
    let turn = |alloc: Global, row: &Row| reversed_row(alloc, row);
    let one = |amount: i64| i128::from(amount);
    let first = |earlier: i128, _later: i128| earlier;
    status_over(
        rt, alloc, words, shelf, out, ticks, avail, stores, ids, turn, one, first,
    )
}

// As `exit_status`, by a closure for `custom` bolts and two for `custom` folds.
fn status_over<
    R: Threads + Wait + Sync,
    H: Shelf,
    K: Sink,
    T: Ticks,
    V: Avail,
    M: StoreMaker,
    N: IdMaker,
    F: RowFn + Sync + Drop,
    A: OneFn + Sync + Drop,
    B: CombineFn + Sync + Drop,
>(
    rt: &R,
    alloc: Global,
    words: &[String],
    shelf: &mut H,
    out: &mut K,
    ticks: &mut T,
    avail: &mut V,
    stores: &mut M,
    ids: &mut N,
    turn: F,
    one: A,
    combine: B,
) -> u8
where
    N::I: Send,
    M::C: Send,
    requires rows { Keeps reversed_rows (F.may_make turn) (F.makes turn) }
    requires fold { KeepsFold same first
        (A.may_make one) (A.makes one) (B.may_make combine) (B.makes combine) }
    ensures { Exits reversed_and_first (map string_bytes words.now)
        (shelf_use H.holds H.ready H.fetches H.faults shelf.old shelf.new)
        (sink_use K.taken K.faults out.old out.new)
        (run_use (maker_use M.C.tells M.C.fault_count M.holds M.has_made M.fault_count
        stores.old stores.new)
        (N.tells ids.old))
        (ticks_use T.handed_out T.tells ticks.old ticks.new) (V.tells avail.old) result }
{
    let mut fates = Fates::new(alloc);
    let rows = StoredOp::<Reverse, F>::new(turn);
    let op = StoredFold::<First, StoredOp<Reverse, F>, A, B>::new(rows, one, combine);
    let gate = OpenGate {};
    let status = storm(
        rt, alloc, words, shelf, out, ticks, avail, stores, ids, &op, &gate, &mut fates,
    );
    status.code()
}

/// Takes a large piece of memory and gives it back before any of it is touched. The C library's
/// allocator, which the program stands on, then keeps what later calls free, up to twice as much,
/// in place of giving it to the system and asking for it anew a batch later.
fn keep_what_is_freed(alloc: Global) {
    let _ = Vec::<u8>::with_capacity(alloc, LARGE);
}

/// The sources of ids of the program, by a key of 32 zero bytes.
fn ids_of_key_zero() -> ChaChaMaker
    ensures { result.key ≡ replicate 32 0 }
{
    ChaChaMaker { key: [0; 32] }
}

fn main(rt: HostRuntime) -> ExitCode {
    let alloc = rt.alloc();
    keep_what_is_freed(alloc);
    let Ok(words) = words(&rt, alloc) else {
        return ExitCode::from(Status::Memory.code());
    };
    let mut shelf = FileShelf::new(&rt);
    let mut out = OutSink::new(&rt);
    let mut ticks = ClockTicks::new(&rt);
    let mut stores = MemMaker::new(alloc);
    let mut ids = ids_of_key_zero();
    let code = exit_status(
        &rt,
        alloc,
        words.as_slice(),
        &mut shelf,
        &mut out,
        &mut ticks,
        &mut AllOpen,
        &mut stores,
        &mut ids,
    );
    ExitCode::from(code)
}
