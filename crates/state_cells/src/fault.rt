ghost use Rattle.std.specs.Prelude.{◌≡◌};
ghost use Rattle.state_cells.specs.Faults.{fault_of};
ghost use Rattle.state_cells.specs.declared.fault.PartFault.TheVariants as fault;

use storm_stores::StoreFault;
use thiserror::Error;
use tree_model::storm_values::{Bytes, Memory};

/// Why a part did not do a call.
#[derive(Debug, Drop, Error)]
pub enum PartFault {
    #[error("the store failed")]
    Store,
    /// The store has a cell at this key that the part does not take.
    #[error("the store has a bad cell")]
    BadCell(Bytes),
    #[error("out of memory")]
    Memory,
}

impl From<StoreFault> for PartFault {
    ghost from_gives = { λ from e. e ≡ fault_of from };

    fn from(fault: StoreFault) -> Self {
        match fault {
            StoreFault::Failed => PartFault::Store,
            StoreFault::Memory => PartFault::Memory,
        }
    }
}

impl From<Memory> for PartFault {
    ghost from_gives = { λ _ e. e ≡ fault.Memory };

    fn from(_: Memory) -> Self {
        PartFault::Memory
    }
}
