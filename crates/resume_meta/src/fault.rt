ghost use Rattle.std.specs.Prelude.{◌≡◌};
ghost use Rattle.resume_meta.specs.Keepers.{fault_by};
ghost use Rattle.resume_meta.specs.declared.fault.MetaFault.TheVariants as fault;

use storm_stores::StoreFault;
use storm_values::Memory;
use thiserror::Error;

/// Why a meta was not loaded or saved.
#[derive(Clone, Copy, Debug, PartialEq, Eq, Error)]
pub enum MetaFault {
    #[error("the keeper failed")]
    Keep,
    #[error("what is kept is no meta text")]
    Bad,
    #[error("out of memory")]
    Memory,
}

impl From<Memory> for MetaFault {
    ghost from_gives = { λ _ e. e ≡ fault.Memory };

    fn from(_: Memory) -> Self {
        MetaFault::Memory
    }
}

impl From<StoreFault> for MetaFault {
    ghost from_gives = { λ store e. e ≡ fault_by store };

    fn from(store: StoreFault) -> Self {
        match store {
            StoreFault::Failed => MetaFault::Keep,
            StoreFault::Memory => MetaFault::Memory,
        }
    }
}
