ghost use Rattle.std.specs.Prelude.{◌≡◌};
ghost use Rattle.storm_stores.specs.declared.fault.StoreFault.TheVariants as fault;

use storm_values::Memory;
use thiserror::Error;

/// Why a store did not do a call.
#[derive(Clone, Copy, Debug, PartialEq, Eq, Error)]
pub enum StoreFault {
    #[error("the store failed")]
    Failed,
    #[error("out of memory")]
    Memory,
}

impl From<Memory> for StoreFault {
    ghost from_gives = { λ _ e. e ≡ fault.Memory };

    fn from(_: Memory) -> Self {
        StoreFault::Memory
    }
}
