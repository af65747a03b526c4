// The reports of `examples`.
use crate::read::check_reports;
use test_kit::Mismatch;

const END_COINCIDED: &str =
    "attempt 1.1 records 1-1 ticks 0-0 coincided 0.0:0000000000000009 0.1:0000000000000009
attempt 1.2 records 1-1 ticks 0-0 committed
cell counts [\"x\"] 1
cell counts [\"y\"] 1
ok 1 records 1 batches
";

const END_COMMIT_FAILED: &str = "attempt 1.1 records 1-1 ticks 0-0 commit failed counts 0
attempt 1.2 records 1-1 ticks 0-0 committed
cell counts [\"a\"] 1
ok 1 records 1 batches
";

const END_COMMITTED: &str = "attempt 1.1 records 1-2 ticks 0-0 committed
attempt 2.1 records 3-3 ticks 0-0 committed
cell counts [\"cow\"] 2
ok 3 records 2 batches
";

const END_EXHAUSTED: &str = "attempt 1.1 records 1-1 ticks 0-0 failed 0
attempt 1.2 records 1-1 ticks 0-0 failed 0
attempt 1.3 records 1-1 ticks 0-0 failed 0
attempt 1.4 records 1-1 ticks 0-0 failed 0
exhausted 1
";

const END_FAILED: &str = "attempt 1.1 records 1-1 ticks 0-0 failed 0
attempt 1.2 records 1-1 ticks 0-0 failed 0
attempt 1.3 records 1-1 ticks 0-0 committed
cell counts [\"a\"] 1
ok 1 records 1 batches
";

const END_TIMED_OUT: &str = "attempt 1.1 records 1-1 ticks 0-3 timed out
attempt 1.2 records 1-1 ticks 3-3 committed
cell counts [\"a\"] 1
ok 1 records 1 batches
";

const END_UNFINISHED: &str = "attempt 1.1 records 1-1 ticks 0-0 committed
unfinished 1
";

const OPAQUE_COMMIT_FAILED: &str = "attempt 1.1 records 1-2 ticks 0-0 committed
attempt 2.1 records 3-4 ticks 0-0 commit failed sums 0
attempt 2.2 records 3-4 ticks 0-0 committed
cell sums [\"cellar\"] 8
cell sums [\"roof\"] 11
ok 4 records 2 batches
";

const RETRIES: &str = "attempt 1.1 records 1-1 ticks 0-0 failed 0.0
attempt 1.2 records 1-1 ticks 0-0 failed 0.0
attempt 1.3 records 1-1 ticks 0-0 committed
attempt 4.1 records 4-4 ticks 0-0 failed 0.0
attempt 4.2 records 4-4 ticks 0-0 failed 0.0
attempt 2.1 records 2-2 ticks 0-3 timed out
attempt 2.2 records 2-2 ticks 3-3 committed
attempt 3.1 records 3-3 ticks 0-3 committed
attempt 4.3 records 4-4 ticks 0-3 committed
attempt 5.1 records 5-5 ticks 3-3 committed
attempt 6.1 records 6-6 ticks 3-3 committed
cell sold [\"glass\"] 3
cell sold [\"steel\"] 5
cell sold [\"wood\"] 15
ok 6 records 6 batches
";

pub const REPORTS: [&str; 9] = [
    END_COINCIDED,
    END_COMMIT_FAILED,
    END_COMMITTED,
    END_EXHAUSTED,
    END_FAILED,
    END_TIMED_OUT,
    END_UNFINISHED,
    OPAQUE_COMMIT_FAILED,
    RETRIES,
];

#[test]
fn reports_of_the_examples(rt: HostRuntime) -> Result<(), Mismatch> {
    check_reports(rt.alloc(), &REPORTS)
}
