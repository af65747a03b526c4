// The lines of a report, as they are read.
ghost use Rattle.std.specs.Prelude.{◌≡◌, IfNone, IfOk, IfSome, OnOk, Some, option_map};
ghost use Rattle.report_grammar.specs.Lines.{IsLine, LineText, line_text};
ghost use Rattle.report_lines.specs.Told.{attempt_told, line_told, tail_told};
ghost use Rattle.report_lines.specs.steps.Headings.{heading_told};
ghost use Rattle.report_grammar.specs.steps.Parsed.{a_heading, a_root, an_exhausted, an_ok, an_unfinished, attempt_in, body_of, most_u32, read_of, some_spans, tail_in, two_ticks};
ghost use Rattle.report_grammar.specs.steps.Reading.{Takes, a_number};

use crate::cells::read_cell;
use crate::cursor::Cursor;
use crate::ends::read_end;
use crate::lists::spans_of;
use crate::report::{AttemptLine, Line, Tail};
use record_spans::Spans;
use std::alloc::Global;
use storm_values::{Memory, Root};

/// The line that a text may be. Whether it is that line's text is not looked at here.
pub fn line_from(alloc: Global, line: &[u8]) -> Result<Option<Line>, Memory>
    ensures { IfOk result (λ read. (told : LineText) → IsLine told → line.now ≡ line_text told
        → option_map line_told read ≡ Some told) }
{
    let body = body_of(line);
    if let Some(attempt) = read_attempt(alloc, body)? {
        return Ok(Some(Line::Attempt(attempt)));
    }
    if let Some(tail) = read_tail(body) {
        return Ok(Some(Line::Tail(tail)));
    }
    match read_cell(alloc, body)? {
        Some(cell) => Ok(Some(Line::Cell(cell))),
        None => Ok(None),
    }
}

fn body_of(line: &[u8]) -> &[u8]
    ensures { result.now ≡ body_of line.now }
{
    &line[..line.len().saturating_sub(1)]
}

/// The last line of a report.
#[tactic(auto, unfolding(report_grammar::specs::steps::Parsed::tail_in))]
fn read_tail(text: &[u8]) -> Option<Tail>
    ensures { option_map tail_told result ≡ tail_in text.now }
{
    if let Some(tail) = read_ok(text) {
        return Some(tail);
    }
    if let Some(tail) = read_exhausted(text) {
        return Some(tail);
    }
    read_unfinished(text)
}

#[tactic(auto, unfolding(report_grammar::specs::steps::Parsed::an_ok))]
fn read_ok(text: &[u8]) -> Option<Tail>
    ensures { option_map tail_told result ≡ read_of (an_ok text.now) }
{
    let mut cursor = Cursor::new(text);
    cursor.word(b"ok ")?;
    let records = cursor.number(u64::MAX)?;
    cursor.word(b" records ")?;
    let batches = cursor.number(u64::MAX)?;
    cursor.word(b" batches")?;
    if cursor.is_at_end() {
        Some(Tail::Ok { records, batches })
    } else {
        None
    }
}

#[tactic(auto, unfolding(report_grammar::specs::steps::Parsed::an_exhausted))]
fn read_exhausted(text: &[u8]) -> Option<Tail>
    ensures { option_map tail_told result ≡ read_of (an_exhausted text.now) }
{
    let mut cursor = Cursor::new(text);
    cursor.word(b"exhausted ")?;
    let txid = cursor.number(u64::MAX)?;
    if cursor.is_at_end() {
        Some(Tail::Exhausted(txid))
    } else {
        None
    }
}

#[tactic(auto, unfolding(report_grammar::specs::steps::Parsed::an_unfinished))]
fn read_unfinished(text: &[u8]) -> Option<Tail>
    ensures { option_map tail_told result ≡ read_of (an_unfinished text.now) }
{
    let mut cursor = Cursor::new(text);
    cursor.word(b"unfinished ")?;
    let committed = cursor.number(u64::MAX)?;
    if cursor.is_at_end() {
        Some(Tail::Unfinished(committed))
    } else {
        None
    }
}

/// An attempt's line up to how it ended.
#[derive(Drop)]
pub struct Heading {
    root: Root,
    spans: Spans,
    start: u64,
    finish: u64,
}

/// The end of an attempt.
#[tactic(auto, unfolding(report_grammar::specs::steps::Parsed::attempt_in))]
fn read_attempt(alloc: Global, text: &[u8]) -> Result<Option<AttemptLine>, Memory>
    ensures { IfOk result (λ read. option_map attempt_told read ≡ attempt_in text.now) }
{
    let mut cursor = Cursor::new(text);
    let Some(heading) = read_heading(alloc, &mut cursor)? else {
        return Ok(None);
    };
    let Some(end) = read_end(alloc, cursor.rest())? else {
        return Ok(None);
    };
    Ok(Some(AttemptLine {
        root: heading.root,
        spans: heading.spans,
        start: heading.start,
        finish: heading.finish,
        end,
    }))
}

/// The front of an attempt's line, which is taken off.
#[tactic(auto, unfolding(report_grammar::specs::steps::Parsed::a_heading))]
fn read_heading(alloc: Global, cursor: &mut Cursor<'_>) -> Result<Option<Heading>, Memory>
    ensures { IfOk result (λ read. Takes (option_map heading_told read) cursor.new.rest.now
        (a_heading cursor.old.rest.now)) }
{
    let Some(root) = read_root(cursor) else {
        return Ok(None);
    };
    let Some(spans) = read_spans(alloc, cursor)? else {
        return Ok(None);
    };
    let Some((start, finish)) = read_ticks(cursor) else {
        return Ok(None);
    };
    Ok(Some(Heading {
        root,
        spans,
        start,
        finish,
    }))
}

#[tactic(auto, unfolding(report_grammar::specs::steps::Parsed::a_root))]
fn read_root(cursor: &mut Cursor<'_>) -> Option<Root>
    ensures { Takes result cursor.new.rest.now (a_root cursor.old.rest.now) }
{
    cursor.word(b"attempt ")?;
    let txid = cursor.number(u64::MAX)?;
    cursor.word(b".")?;
    let attempt = small_number(cursor)?;
    cursor.word(b" records ")?;
    Some(Root { txid, attempt })
}

/// The spans up to a space.
#[tactic(auto, unfolding(report_grammar::specs::steps::Parsed::some_spans))]
fn read_spans(alloc: Global, cursor: &mut Cursor<'_>) -> Result<Option<Spans>, Memory>
    ensures { IfOk result (λ read. Takes read cursor.new.rest.now
        (some_spans cursor.old.rest.now)) }
{
    let text = cursor.up_to(b' ');
    spans_of(alloc, text)
}

/// The ticks of a begin and of an end.
#[tactic(auto, unfolding(report_grammar::specs::steps::Parsed::two_ticks))]
fn read_ticks(cursor: &mut Cursor<'_>) -> Option<(u64, u64)>
    ensures { Takes result cursor.new.rest.now (two_ticks cursor.old.rest.now) }
{
    cursor.word(b" ticks ")?;
    let start = cursor.number(u64::MAX)?;
    cursor.word(b"-")?;
    let finish = cursor.number(u64::MAX)?;
    cursor.word(b" ")?;
    Some((start, finish))
}

fn small_number(cursor: &mut Cursor<'_>) -> Option<u32>
    ensures { Takes result cursor.new.rest.now (a_number most_u32 cursor.old.rest.now) }
{
    let number = cursor.number(u64::from(u32::MAX))?;
    Some(number as u32)
}
