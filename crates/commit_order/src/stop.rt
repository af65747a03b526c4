ghost use Rattle.std.specs.Prelude.{◌≡◌};
ghost use Rattle.commit_order.specs.declared.stop.Stop.TheVariants as stop;

use thiserror::Error;
use tuple_account::storm_values::{Bytes, Memory};

/// Why a run stops before all records are committed.
#[derive(Debug, Drop, Error)]
pub enum Stop {
    /// As many attempts of this transaction as a plan allows have aborted, and none was committed.
    #[error("all attempts of transaction {0} have ended")]
    Exhausted(u64),
    /// A store has a cell at this key that its part does not take.
    #[error("a store has a bad cell at the key {key:?}", key = .0.as_slice())]
    BadCell(Bytes),
    /// A follower failed when it was told the commit of this transaction, which was done.
    #[error("a follower failed after the commit of transaction {0}")]
    Follow(u64),
    #[error("out of memory")]
    Memory,
}

impl From<Memory> for Stop {
    ghost from_gives = { λ _ s. s ≡ stop.Memory };

    fn from(_: Memory) -> Self {
        Stop::Memory
    }
}
