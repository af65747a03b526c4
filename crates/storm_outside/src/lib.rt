//! The world outside, as traits, with objects in memory and real ones: files by name and an output,
//! and passed on the stores, the ids, the ticks and the gates.
#![tactic(auto)]

mod failed;
mod memory_shelf;
mod memory_sink;
mod pieces;
mod shelf;
mod sink;
mod system;

pub use failed::Failed;
pub use memory_shelf::MemShelf;
pub use memory_sink::MemSink;
pub use pieces::{read_piece, write_piece};
pub use shelf::{InFault, Shelf, read_all};
pub use sink::{Sink, write_all};
pub use storm_gates::{Gate, HoldUntil, OpenGate};
pub use storm_ids::{ChaChaIds, ChaChaMaker, IdMaker, Ids, ScriptIds, ScriptSource, Words};
pub use storm_stores::{
    CallKind, CellStore, FailAt, MemMaker, MemStore, StoreFault, StoreMaker, puts_change_one_key,
};
pub use storm_ticks::{ClockTicks, ScriptTicks, Ticks, handed_out_is_the_sum_of_answers, ticks_at};
pub use system::{FileShelf, OutSink};
