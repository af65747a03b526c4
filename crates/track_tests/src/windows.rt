// What windows come to.
use crate::runs::{Came, Case, Zeros, run_window, script};
use sample_topologies::{COPIES_TO_ALL, FAILS_TWICE, MUTE_ONCE, WORD_COUNT};
use std::alloc::Global;
use std::thread::Threads;
use test_kit::Mismatch;

const ONE: &str = "[\"the cow jumped over the moon\"]\n";

const COWS: &str = "[\"cow\"] 1\n[\"jumped\"] 1\n[\"moon\"] 1\n[\"over\"] 1\n[\"the\"] 2\n";

const THRICE: &str = "[\"cow\"] 3\n[\"jumped\"] 3\n[\"moon\"] 3\n[\"over\"] 3\n[\"the\"] 6\n";

const TWO: &str = "[\"a\"]\n[\"b\"]\n";

const BOTH: &str = "[\"a\"] 1\n[\"b\"] 1\n";

// A thousand records, each of four words.
fn many(alloc: Global) -> Result<String, Mismatch> {
    let mut text = String::new(alloc);
    for number in 0..1000u32 {
        text.push_str(&format!(in alloc; "[\"a b{} c a\"]\n", number % 4)?)?;
    }
    Ok(text)
}

const COUNTED: &str =
    "[\"a\"] 2000\n[\"b0\"] 250\n[\"b1\"] 250\n[\"b2\"] 250\n[\"b3\"] 250\n[\"c\"] 1000\n";

// What is met.
#[derive(Clone, Copy)]
struct Want {
    topology: &'static str,
    attempt: u32,
    acked: u32,
    counts: &'static str,
}

fn is_met(came: &Came, want: Want) -> bool {
    (came.acked == want.acked) & (came.counts.as_str() == want.counts)
}

// Whether the window comes to this with 1, 2 and 8 workers, with the same messages.
fn with_workers<R: Threads + Sync>(
    rt: &R,
    alloc: Global,
    records: &str,
    want: Want,
) -> Result<bool, Mismatch> {
    let case = Case {
        topology: want.topology,
        records,
        attempt: want.attempt,
    };
    let one = run_window(rt, alloc, &case, 1, &mut script(alloc)?)?;
    let two = run_window(rt, alloc, &case, 2, &mut script(alloc)?)?;
    let eight = run_window(rt, alloc, &case, 8, &mut script(alloc)?)?;
    Ok(is_met(&one, want) & (one == two) & (one == eight))
}

// Whether the window comes to this where all ids are 0.
fn with_zeros<R: Threads + Sync>(
    rt: &R,
    alloc: Global,
    records: &str,
    want: Want,
) -> Result<bool, Mismatch> {
    let case = Case {
        topology: want.topology,
        records,
        attempt: want.attempt,
    };
    let came = run_window(rt, alloc, &case, 8, &mut Zeros)?;
    Ok(is_met(&came, want))
}

const ONE_ACKED: Want = Want {
    topology: WORD_COUNT,
    attempt: 1,
    acked: 1,
    counts: COWS,
};

const ALL_ACKED: Want = Want {
    topology: WORD_COUNT,
    attempt: 1,
    acked: 1000,
    counts: COUNTED,
};

const COPIES_ACKED: Want = Want {
    topology: COPIES_TO_ALL,
    attempt: 1,
    acked: 1,
    counts: THRICE,
};

const FAILED: Want = Want {
    topology: FAILS_TWICE,
    attempt: 2,
    acked: 0,
    counts: "",
};

const FAILS_NO_MORE: Want = Want {
    topology: FAILS_TWICE,
    attempt: 3,
    acked: 2,
    counts: BOTH,
};

const SILENT: Want = Want {
    topology: MUTE_ONCE,
    attempt: 1,
    acked: 0,
    counts: "",
};

const SPEAKS: Want = Want {
    topology: MUTE_ONCE,
    attempt: 2,
    acked: 2,
    counts: BOTH,
};

#[test]
fn one_record_is_acked(rt: HostRuntime) -> Result<(), Mismatch> {
    assert!(rt; with_workers(&rt, rt.alloc(), ONE, ONE_ACKED)?);
    Ok(())
}

#[test]
fn a_thousand_records_are_acked(rt: HostRuntime) -> Result<(), Mismatch> {
    let records = many(rt.alloc())?;
    assert!(rt; with_workers(&rt, rt.alloc(), records.as_str(), ALL_ACKED)?);
    Ok(())
}

#[test]
fn copies_to_all_tasks_are_reached(rt: HostRuntime) -> Result<(), Mismatch> {
    assert!(rt; with_workers(&rt, rt.alloc(), ONE, COPIES_ACKED)?);
    Ok(())
}

#[test]
fn failed_attempts_are_not_acked(rt: HostRuntime) -> Result<(), Mismatch> {
    assert!(rt; with_workers(&rt, rt.alloc(), TWO, FAILED)?);
    assert!(rt; with_workers(&rt, rt.alloc(), TWO, FAILS_NO_MORE)?);
    Ok(())
}

#[test]
fn mute_attempts_are_not_acked(rt: HostRuntime) -> Result<(), Mismatch> {
    assert!(rt; with_workers(&rt, rt.alloc(), TWO, SILENT)?);
    assert!(rt; with_workers(&rt, rt.alloc(), TWO, SPEAKS)?);
    Ok(())
}

// The words are all 0, and the edges that are open tell what is acked.
#[test]
fn ids_that_coincide_ack_nothing(rt: HostRuntime) -> Result<(), Mismatch> {
    assert!(rt; with_zeros(&rt, rt.alloc(), TWO, SILENT)?);
    assert!(rt; with_zeros(&rt, rt.alloc(), TWO, SPEAKS)?);
    assert!(rt; with_zeros(&rt, rt.alloc(), TWO, FAILED)?);
    assert!(rt; with_zeros(&rt, rt.alloc(), ONE, ONE_ACKED)?);
    Ok(())
}

// A comparison that would never find a difference is found out.
#[test]
fn windows_that_are_not_met(rt: HostRuntime) -> Result<(), Mismatch> {
    let other = Want {
        counts: BOTH,
        ..ONE_ACKED
    };
    assert!(rt; !with_workers(&rt, rt.alloc(), ONE, other)?);
    Ok(())
}

#[test]
fn eight_threads_come_to_the_same_again_and_again(rt: HostRuntime) -> Result<(), Mismatch> {
    let alloc = rt.alloc();
    let records = many(alloc)?;
    let case = Case {
        topology: WORD_COUNT,
        records: records.as_str(),
        attempt: 1,
    };
    let first = run_window(&rt, alloc, &case, 1, &mut script(alloc)?)?;
    for _ in 0..20 {
        let again = run_window(&rt, alloc, &case, 8, &mut script(alloc)?)?;
        assert!(rt; first == again);
    }
    Ok(())
}
