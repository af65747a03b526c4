//! Reads a report from standard input, and prints it again: every byte of it, or the line
//! `report: line N: not a line of a report` and status 1, N being the first line that is of none.
#![tactic(auto)]

use report_lines::{print_report, read_report};
use std::io;
use std::io::{Read, Write};
use std::process::ExitCode;

fn main(rt: HostRuntime) -> ExitCode {
    match echo(&rt) {
        Ok(true) => ExitCode::SUCCESS,
        Ok(false) | Err(_) => ExitCode::FAILURE,
    }
}

/// Whether it was a report.
fn echo<R: Input + Print + AllocGlobal>(rt: &R) -> io::Result<bool> {
    let alloc = rt.alloc();
    let mut bytes = Vec::new(alloc);
    rt.reader().read_to_end(&mut bytes)?;
    match read_report(alloc, bytes.as_slice()) {
        Ok(report) => {
            let text = print_report(alloc, &report)?;
            io::writer(rt).write_all(text.as_bytes())?;
            Ok(true)
        }
        Err(fault) => {
            println!(rt; "report: {fault}")?;
            Ok(false)
        }
    }
}
