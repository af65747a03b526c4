// A report with lines of every kind, cut off.
use crate::examples::REPORTS;
use crate::read::{check_reports, is_refused_at};
use std::alloc::Global;
use test_kit::Mismatch;

const EVERY_LINE: &str = "attempt 1.1 records 1-2 ticks 0-0 failed 0
attempt 2.1 records 3-4 ticks 0-0 dropped 1.1
attempt 1.2 records 1-2 ticks 0-1 failed 0.12.3
attempt 1.3 records 1-2 ticks 1-4 timed out
attempt 1.4 records 1-2 ticks 4-5 coincided 0.0:0000000000000009 0.1:fedcba9876543210
attempt 1.5 records 1-2 ticks 5-6 commit failed counts 0
attempt 1.6 records 1-1,3-3 ticks 6-8 committed
cell counts [\"cow\"] 2
cell counts [\"moon\",-7] -7
ok 2 records 1 batches
";

#[test]
fn lines_of_every_kind(rt: HostRuntime) -> Result<(), Mismatch> {
    check_reports(rt.alloc(), &[EVERY_LINE])
}

fn check_cut(alloc: Global, bytes: &[u8], line: u64) -> Result<(), Mismatch> {
    if is_refused_at(alloc, bytes, line) {
        Ok(())
    } else {
        Err(Mismatch::Case(format!(in alloc; "cut in line {line}")?))
    }
}

// Refused is the line that was cut, or the one that is missing behind the last.
fn check_cuts(alloc: Global, text: &str) -> Result<(), Mismatch> {
    let bytes = text.as_bytes();
    let mut line: u64 = 1;
    for (length, byte) in bytes.iter().enumerate() {
        check_cut(alloc, &bytes[..length], line)?;
        if *byte == b'\n' {
            line = line.saturating_add(1);
        }
    }
    Ok(())
}

#[test]
fn a_report_that_is_cut_at_any_byte(rt: HostRuntime) -> Result<(), Mismatch> {
    check_cuts(rt.alloc(), EVERY_LINE)
}

#[test]
fn reports_of_the_examples_that_are_cut(rt: HostRuntime) -> Result<(), Mismatch> {
    for text in REPORTS {
        check_cuts(rt.alloc(), text)?;
    }
    Ok(())
}
