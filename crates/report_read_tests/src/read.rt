// What is read of a text.
use report_lines::{ReportFault, print_report, read_report};
use std::alloc::Global;
use storm_values::Memory;
use test_kit::{Mismatch, compare};

// The text that is printed of what was read, or what is printed of the fault.
pub fn told(alloc: Global, bytes: &[u8]) -> Result<String, Memory> {
    match read_report(alloc, bytes) {
        Ok(report) => print_report(alloc, &report),
        Err(fault) => format!(in alloc; "{fault}"),
    }
}

fn check_same(alloc: Global, text: &str) -> Result<(), Mismatch> {
    let told = told(alloc, text.as_bytes())?;
    compare(alloc, text, told.as_str(), text)
}

/// Each of these is read, and printed as it was.
pub fn check_reports(alloc: Global, texts: &[&str]) -> Result<(), Mismatch> {
    for text in texts {
        check_same(alloc, text)?;
    }
    Ok(())
}

/// Whether the line with this number is the first that is refused.
pub fn is_refused_at(alloc: Global, bytes: &[u8], number: u64) -> bool {
    matches!(read_report(alloc, bytes), Err(ReportFault::Line(at)) if at == number)
}

fn check_refusal(alloc: Global, text: &str, number: u64) -> Result<(), Mismatch> {
    if is_refused_at(alloc, text.as_bytes(), number) {
        return Ok(());
    }
    Err(Mismatch::Told {
        of: String::from_str(alloc, text)?,
        told: told(alloc, text.as_bytes())?,
        want: format!(in alloc; "line {number}: not a line of a report")?,
    })
}

/// Each of these is refused, at the line of this number.
pub fn check_refusals(alloc: Global, texts: &[(&str, u64)]) -> Result<(), Mismatch> {
    for (text, number) in texts {
        check_refusal(alloc, text, *number)?;
    }
    Ok(())
}
