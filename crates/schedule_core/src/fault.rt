ghost use Rattle.std.specs.Prelude.{◌≡◌};
ghost use Rattle.schedule_core.specs.Faults.{of_commit};
ghost use Rattle.schedule_core.specs.declared.fault.RunFault.TheVariants as fault;

use event_worlds::state_parts::CommitFault;
use event_worlds::storm_values::{Bytes, Memory};

/// What stops a run in the middle of its steps.
#[derive(Debug, Drop)]
pub enum RunFault {
    /// A store has a cell at this key that its part does not take.
    BadCell(Bytes),
    /// A follower failed when it was told the commit of this transaction, which was done.
    Follow(u64),
    Memory,
}

impl From<Memory> for RunFault {
    ghost from_gives = { λ _ e. e ≡ fault.Memory };

    fn from(_: Memory) -> Self {
        RunFault::Memory
    }
}

impl From<CommitFault> for RunFault {
    ghost from_gives = { λ f e. e ≡ of_commit f };

    fn from(why: CommitFault) -> Self {
        match why {
            CommitFault::BadCell(key) => RunFault::BadCell(key),
            CommitFault::Memory => RunFault::Memory,
        }
    }
}
