// Runs that go on where others ended, and saves that fail.
use crate::steps::{Answer, Step, check_steps, commit_of, holds, is_done, next_of};
use crate::trouble::Trouble;
use kept_commits::KeptCommits;
use record_spans::Spans;
use resume_meta::{MemKeeper, Meta};
use std::alloc::Global;
use storm_stores::StoreFault;
use storm_values::Bytes;

// The meta that the keeper holds, or the first one of an input of 9 records.
fn start_of(alloc: Global, kept: &mut KeptCommits<MemKeeper>) -> Result<Meta, Trouble> {
    match kept.load()? {
        Some(meta) => Ok(meta),
        None => Ok(Meta {
            txid: 0,
            records: 9,
            spans: Spans::new(alloc),
        }),
    }
}

// A run of these commits from where the keeper's meta says.
fn run(alloc: Global, kept: &mut KeptCommits<MemKeeper>, steps: &[Step]) -> Result<(), Trouble> {
    let start = start_of(alloc, kept)?;
    let first = next_of(start.txid)?;
    kept.start(start);
    check_steps(alloc, kept, first, steps)
}

// Spans that rise, one that fills a gap, none, an empty one, and some in no order.
const FIRST: [Step; 6] = [
    Step {
        spans: &[(1, 2)],
        answer: Answer::Done,
        held: "meta 1 txid 1 records 9 spans 1-2\n",
    },
    Step {
        spans: &[(4, 5)],
        answer: Answer::Done,
        held: "meta 1 txid 2 records 9 spans 1-2,4-5\n",
    },
    Step {
        spans: &[(3, 3)],
        answer: Answer::Done,
        held: "meta 1 txid 3 records 9 spans 1-5\n",
    },
    Step {
        spans: &[],
        answer: Answer::Done,
        held: "meta 1 txid 4 records 9 spans 1-5\n",
    },
    Step {
        spans: &[(8, 7)],
        answer: Answer::Done,
        held: "meta 1 txid 5 records 9 spans 1-5\n",
    },
    Step {
        spans: &[(9, 9), (7, 7), (7, 8), (2, 3)],
        answer: Answer::Done,
        held: "meta 1 txid 6 records 9 spans 1-5,7-9\n",
    },
];

const SECOND: [Step; 1] = [Step {
    spans: &[(6, 6)],
    answer: Answer::Done,
    held: "meta 1 txid 7 records 9 spans 1-9\n",
}];

#[test]
fn a_run_goes_on(rt: HostRuntime) -> Result<(), Trouble> {
    let alloc = rt.alloc();
    let mut first = KeptCommits::new(alloc, MemKeeper::new(alloc, None));
    run(alloc, &mut first, &FIRST)?;
    let mut second = KeptCommits::new(alloc, first.keeper);
    run(alloc, &mut second, &SECOND)
}

const BEFORE: &str = "meta 1 txid 7 records 30 spans 2-4,10-12\n";

const MOST: u64 = u64::MAX;

// Gaps of a start are closed, and spans reach the least number and the greatest.
const LATER: [Step; 5] = [
    Step {
        spans: &[(5, 9)],
        answer: Answer::Done,
        held: "meta 1 txid 8 records 30 spans 2-12\n",
    },
    Step {
        spans: &[(1, 1)],
        answer: Answer::Done,
        held: "meta 1 txid 9 records 30 spans 1-12\n",
    },
    Step {
        spans: &[(0, 3), (13, 20)],
        answer: Answer::Done,
        held: "meta 1 txid 10 records 30 spans 0-20\n",
    },
    Step {
        spans: &[(MOST, MOST)],
        answer: Answer::Done,
        held: "meta 1 txid 11 records 30 spans 0-20,18446744073709551615-18446744073709551615\n",
    },
    Step {
        spans: &[(21, MOST - 1)],
        answer: Answer::Done,
        held: "meta 1 txid 12 records 30 spans 0-18446744073709551615\n",
    },
];

#[test]
fn gaps_are_closed(rt: HostRuntime) -> Result<(), Trouble> {
    let alloc = rt.alloc();
    let held = Bytes::from_slice(alloc, BEFORE.as_bytes())?;
    let mut kept = KeptCommits::new(alloc, MemKeeper::new(alloc, Some(held)));
    run(alloc, &mut kept, &LATER)
}

const ONE: &str = "meta 1 txid 1 records 9 spans 1-2\n";

const TWO: &str = "meta 1 txid 2 records 9 spans 1-4\n";

// The second save fails, and this text is held then. No further commit is taken.
const fn broken(held: &'static str) -> [Step; 4] {
    [
        Step {
            spans: &[(1, 2)],
            answer: Answer::Done,
            held: ONE,
        },
        Step {
            spans: &[(3, 4)],
            answer: Answer::Fault(StoreFault::Failed),
            held,
        },
        Step {
            spans: &[(3, 4)],
            answer: Answer::Fault(StoreFault::Memory),
            held,
        },
        Step {
            spans: &[(3, 4)],
            answer: Answer::Fault(StoreFault::Memory),
            held,
        },
    ]
}

// What a later run keeps.
const THREE: [Step; 1] = [Step {
    spans: &[(5, 9)],
    answer: Answer::Done,
    held: "meta 1 txid 2 records 9 spans 1-2,5-9\n",
}];

const FOUR: [Step; 1] = [Step {
    spans: &[(5, 9)],
    answer: Answer::Done,
    held: "meta 1 txid 3 records 9 spans 1-9\n",
}];

// It is started again after the save that failed.
fn check_broken(
    alloc: Global,
    happened: bool,
    steps: &[Step],
    later: &[Step],
) -> Result<(), Trouble> {
    let mut keeper = MemKeeper::new(alloc, None);
    keeper.fail_save(2, happened)?;
    let mut kept = KeptCommits::new(alloc, keeper);
    run(alloc, &mut kept, steps)?;
    if kept.keeper.faults() != 1 {
        return Err(Trouble::Faults(kept.keeper.faults()));
    }
    run(alloc, &mut kept, later)
}

#[test]
fn a_save_fails(rt: HostRuntime) -> Result<(), Trouble> {
    check_broken(rt.alloc(), false, &broken(ONE), &THREE)?;
    check_broken(rt.alloc(), true, &broken(TWO), &FOUR)
}

#[test]
fn told_as_any_follower(rt: HostRuntime) -> Result<(), Trouble> {
    let alloc = rt.alloc();
    let mut kept = KeptCommits::new(alloc, MemKeeper::new(alloc, None));
    let start = start_of(alloc, &mut kept)?;
    let txid = next_of(start.txid)?;
    let commit = commit_of(alloc, txid, &[(1, 2)])?;
    kept.start(start);
    if !is_done(&mut kept, &commit) || !holds(&kept.keeper, ONE) {
        return Err(Trouble::NotDone);
    }
    Ok(())
}
