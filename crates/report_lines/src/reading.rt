ghost use Rattle.std.specs.Prelude.{◌≡◌, ℕ, ◌<◌, ◌∷◌, IfErr, IfNone, IfOk, IfSome, MatchResult, OnOk, length};
ghost use Rattle.report_grammar.specs.Lines.{LineText, Says, lines_in};
ghost use Rattle.report_grammar.specs.Report.{ReportText, report_text};
ghost use Rattle.report_lines.specs.Told.{line_told, told};
ghost use Rattle.report_grammar.specs.WellFormed.{IsWellFormed};
ghost use Rattle.report_grammar.specs.steps.Gathered.{Follows};
ghost use Rattle.report_lines.specs.Faults.{IsFaultOf};
ghost use Rattle.report_lines.specs.steps.Gathered.{gathered_told, IsRefusal};

use crate::checks::is_line;
use crate::fault::ReportFault;
use crate::gathered::Gathered;
use crate::lines::line_from;
use crate::printed::push_line;
use crate::report::{Line, Report};
use std::alloc::Global;
use storm_values::{Memory, find_byte};

/// The report that a text is, in time linear in its length.
pub fn read_report(alloc: Global, bytes: &[u8]) -> Result<Report, ReportFault>
    // What is read is well formed, and prints the same bytes.
    ensures good { IfOk result (λ report. IsWellFormed (told report)
        × (bytes.now ≡ report_text (told report))) }
    // What is printed of a well-formed report is read as that report, unless memory runs out.
    ensures only { (report : ReportText) → IsWellFormed report → bytes.now ≡ report_text report
        → MatchResult result (λ read. told read ≡ report) (λ fault. fault ≡ ReportFault.Memory) }
    ensures fault { IfErr result (IsFaultOf bytes.now) }
{
    report_of_lines(alloc, bytes)
}

/// Reads line after line.
fn report_of_lines(alloc: Global, bytes: &[u8]) -> Result<Report, ReportFault>
    ensures good { IfOk result (λ report. IsWellFormed (told report)
        × (bytes.now ≡ report_text (told report))) }
    ensures fault { IfErr result (IsFaultOf bytes.now) }
{
    let mut gathered = Gathered::new(alloc);
    let mut room = String::new(alloc);
    let mut number = 0;
    let mut rest = bytes;
    while !rest.is_empty() {
        let (line, after) = first_line(rest);
        number += 1;
        take_line(alloc, &mut room, &mut gathered, line, number)?;
        rest = after;
    }
    match gathered.tail {
        Some(tail) => Ok(Report {
            lines: gathered.attempts,
            cells: gathered.cells,
            tail,
        }),
        None => Err(ReportFault::Line(number + 1)),
    }
}

/// Reads the line with this number, and adds it to what was read.
fn take_line(
    alloc: Global,
    room: &mut String,
    gathered: &mut Gathered,
    line: &[u8],
    number: u64,
) -> Result<(), ReportFault>
    ensures added { OnOk result
        (Follows line.now (gathered_told gathered.old) (gathered_told gathered.new)) }
    ensures fault { IfErr result (IsRefusal line.now (gathered_told gathered.old) number) }
{
    let Some(read) = read_line(alloc, room, line)? else {
        return Err(ReportFault::Line(number));
    };
    if gathered.add(read)? {
        Ok(())
    } else {
        Err(ReportFault::Line(number))
    }
}

/// The line that a text is, if it is one. What `room` holds is written over.
fn read_line(alloc: Global, room: &mut String, line: &[u8]) -> Result<Option<Line>, Memory>
    ensures says { IfOk result (λ read. IfSome read (λ l. Says line.now (line_told l))) }
    ensures none { IfOk result (λ read. IfNone read ((l : LineText) → Says line.now l → ⊥)) }
{
    let Some(read) = line_from(alloc, line)? else {
        return Ok(None);
    };
    if !is_line(alloc, &read)? {
        return Ok(None);
    }
    room.clear();
    push_line(alloc, room, &read)?;
    if room.as_bytes() == line {
        Ok(Some(read))
    } else {
        Ok(None)
    }
}

/// The first line with its byte 10, if it has one, and what follows.
fn first_line(bytes: &[u8]) -> (&[u8], &[u8])
    requires { 0 < length bytes.now }
    ensures lines { lines_in bytes.now ≡ result.0.now ∷ lines_in result.1.now }
    ensures shorter { length result.1.now < length bytes.now }
{
    match find_byte(bytes, b'\n') {
        Some(end) => bytes.split_at(end + 1),
        None => (bytes, &[]),
    }
}
