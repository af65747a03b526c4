// Keepers in memory, with calls that fail.
use crate::steps::Answer::{Done, Fault, Kept, Nothing};
use crate::steps::Call::{Load, Save};
use crate::steps::{Step, check_steps};
use crate::trouble::Trouble;
use resume_meta::{MemKeeper, MetaFault};
use std::alloc::Global;
use storm_values::{Bytes, Memory};

pub const FIRST: &str = "meta 1 txid 1 records 5 spans 1-2\n";

pub const SECOND: &str = "meta 1 txid 2 records 5 spans 1-2,4-4\n";

// A call that fails, by its number among those of its kind.
#[derive(Clone, Copy)]
enum Failing {
    No,
    Load(u64),
    // And whether it happens all the same.
    Save(u64, bool),
}

// What a keeper of nothing answers where a call fails, how often it failed, and what it holds then.
#[derive(Clone, Copy)]
struct Case {
    failing: Failing,
    steps: [Step; 5],
    faults: u64,
    held: &'static str,
}

const CASES: [Case; 8] = [
    Case {
        failing: Failing::No,
        steps: [
            (Load, Nothing),
            (Save(FIRST), Done),
            (Load, Kept(FIRST)),
            (Save(SECOND), Done),
            (Load, Kept(SECOND)),
        ],
        faults: 0,
        held: SECOND,
    },
    Case {
        failing: Failing::Load(1),
        steps: [
            (Load, Fault(MetaFault::Keep)),
            (Save(FIRST), Done),
            (Load, Kept(FIRST)),
            (Save(SECOND), Done),
            (Load, Kept(SECOND)),
        ],
        faults: 1,
        held: SECOND,
    },
    Case {
        failing: Failing::Load(2),
        steps: [
            (Load, Nothing),
            (Save(FIRST), Done),
            (Load, Fault(MetaFault::Keep)),
            (Save(SECOND), Done),
            (Load, Kept(SECOND)),
        ],
        faults: 1,
        held: SECOND,
    },
    Case {
        failing: Failing::Load(3),
        steps: [
            (Load, Nothing),
            (Save(FIRST), Done),
            (Load, Kept(FIRST)),
            (Save(SECOND), Done),
            (Load, Fault(MetaFault::Keep)),
        ],
        faults: 1,
        held: SECOND,
    },
    Case {
        failing: Failing::Save(1, false),
        steps: [
            (Load, Nothing),
            (Save(FIRST), Fault(MetaFault::Keep)),
            (Load, Nothing),
            (Save(SECOND), Done),
            (Load, Kept(SECOND)),
        ],
        faults: 1,
        held: SECOND,
    },
    Case {
        failing: Failing::Save(1, true),
        steps: [
            (Load, Nothing),
            (Save(FIRST), Fault(MetaFault::Keep)),
            (Load, Kept(FIRST)),
            (Save(SECOND), Done),
            (Load, Kept(SECOND)),
        ],
        faults: 1,
        held: SECOND,
    },
    Case {
        failing: Failing::Save(2, false),
        steps: [
            (Load, Nothing),
            (Save(FIRST), Done),
            (Load, Kept(FIRST)),
            (Save(SECOND), Fault(MetaFault::Keep)),
            (Load, Kept(FIRST)),
        ],
        faults: 1,
        held: FIRST,
    },
    Case {
        failing: Failing::Save(2, true),
        steps: [
            (Load, Nothing),
            (Save(FIRST), Done),
            (Load, Kept(FIRST)),
            (Save(SECOND), Fault(MetaFault::Keep)),
            (Load, Kept(SECOND)),
        ],
        faults: 1,
        held: SECOND,
    },
];

fn let_fail(keeper: &mut MemKeeper, failing: Failing) -> Result<(), Memory> {
    match failing {
        Failing::No => Ok(()),
        Failing::Load(number) => keeper.fail_load(number),
        Failing::Save(number, happened) => keeper.fail_save(number, happened),
    }
}

// Whether a keeper holds this text, and failed so often.
fn check_held(keeper: &MemKeeper, text: &str, faults: u64) -> Result<(), Trouble> {
    match keeper.held() {
        Some(bytes) if bytes == text.as_bytes() => {}
        _ => return Err(Trouble::Text),
    }
    if keeper.faults() != faults {
        return Err(Trouble::Faults(keeper.faults()));
    }
    Ok(())
}

fn check(alloc: Global, case: Case) -> Result<(), Trouble> {
    let mut keeper = MemKeeper::new(alloc, None);
    let_fail(&mut keeper, case.failing)?;
    check_steps(alloc, &mut keeper, &case.steps)?;
    check_held(&keeper, case.held, case.faults)
}

#[test]
fn each_call_of_a_keeper_fails(rt: HostRuntime) -> Result<(), Trouble> {
    for case in CASES {
        check(rt.alloc(), case)?;
    }
    Ok(())
}

const OTHERS: [&str; 4] = ["", "meta", "meta 1 txid 1 records 5 spans 1-2", "meta 2\n"];

const BAD: [Step; 2] = [(Load, Fault(MetaFault::Bad)), (Load, Fault(MetaFault::Bad))];

// What is no meta text is no fault of the keeper, and is kept until the next save.
const SAVED: [Step; 2] = [(Save(FIRST), Done), (Load, Kept(FIRST))];

fn check_bad(alloc: Global, text: &str) -> Result<(), Trouble> {
    let bytes = Bytes::from_slice(alloc, text.as_bytes())?;
    let mut keeper = MemKeeper::new(alloc, Some(bytes));
    check_steps(alloc, &mut keeper, &BAD)?;
    check_held(&keeper, text, 0)?;
    check_steps(alloc, &mut keeper, &SAVED)?;
    check_held(&keeper, FIRST, 0)
}

#[test]
fn what_is_kept_is_no_meta(rt: HostRuntime) -> Result<(), Trouble> {
    for text in OTHERS {
        check_bad(rt.alloc(), text)?;
    }
    Ok(())
}
