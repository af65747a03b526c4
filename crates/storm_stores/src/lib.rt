//! Stores of cells, as traits, and objects in memory whose calls fail where they are told to.
#![tactic(auto)]

mod calls;
mod fault;
mod key;
mod memory_maker;
mod memory_store;
mod store;

pub use calls::{CallKind, FailAt};
pub use fault::StoreFault;
pub use key::KeyBytes;
pub use memory_maker::MemMaker;
pub use memory_store::MemStore;
pub use store::{CellStore, StoreMaker, puts_change_one_key};
