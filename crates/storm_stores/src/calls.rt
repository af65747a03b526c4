ghost use Rattle.std.specs.Prelude.{◌≡◌, ◌≤◌};
ghost use Rattle.storm_values.specs.Counts.{raised};
ghost use Rattle.storm_stores.specs.MemoryStore.{ended};

use crate::fault::StoreFault;

/// The calls of a store.
#[derive(Clone, Copy, Debug, PartialEq, Eq)]
pub enum CallKind {
    Get,
    Put,
    Count,
    KeyAt,
}

/// A call that is to fail, by its number among the calls of its kind, the first being number 1.
#[derive(Clone, Copy, Debug, PartialEq, Eq)]
pub struct FailAt {
    pub kind: CallKind,
    pub number: u64,
    /// Whether the call does its work all the same, which counts for a put alone.
    pub happened: bool,
}

/// Counts a fault, up to 2^64 - 1.
pub(crate) fn count_fault(faults: &mut u64) -> StoreFault
    ensures raised { faults.new ≡ raised faults.old }
    ensures ended { ended faults.new ≡ raised (ended faults.old) }
    ensures never_falls { ended faults.old ≤ ended faults.new }
    ensures fault { result ≡ StoreFault.Failed }
{
    *faults = faults.saturating_add(1);
    StoreFault::Failed
}
