use resume_meta::MetaFault;
use storm_values::Memory;

// Why a test fails.
#[derive(Debug, Drop)]
pub enum Trouble {
    // The commit of this transaction has another answer, or another text is held after it.
    Step(u64),
    // A keeper counts so many faults.
    Faults(u64),
    // A meta was not loaded.
    Load(MetaFault),
    // A commit was not done.
    NotDone,
    // There is no next transaction.
    Number,
    Memory,
}

impl From<Memory> for Trouble {
    fn from(_: Memory) -> Self {
        Trouble::Memory
    }
}

impl From<MetaFault> for Trouble {
    fn from(fault: MetaFault) -> Self {
        Trouble::Load(fault)
    }
}
