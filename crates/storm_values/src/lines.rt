ghost use Rattle.std.specs.Prelude.{◌≡◌, ◌≢◌, ℕ, ◌+◌, ◌<◌, ◌==◌, List, [], ◌∷◌, length, take, Some, None, option_map, All, IfOk, IfErr, IfSome};
ghost use Rattle.std.specs.List.{position};
ghost use Rattle.std.specs.Option.{option_or};
ghost use Rattle.serde_json.specs.View.{view, items_view};
ghost use Rattle.storm_values.specs.Faults.{line_fault_text, input_fault_text};
ghost use Rattle.storm_values.specs.Json.{json_of, value_of};
ghost use Rattle.storm_values.specs.Limits.{most_input_bytes};
ghost use Rattle.storm_values.specs.Lines.{lines_of, array_of, not_json, not_array, bad_item, values_of, line_fault, row_of, input_fault, records_of};
ghost use Rattle.storm_values.specs.Rows.{IsRow};
ghost use Rattle.storm_values.specs.steps.Texts.{texts_from, IsRead, unread_fault};

use crate::limits::{MOST_FIELDS, MOST_INPUT_BYTES, MOST_LINE_BYTES, MOST_LINES};
use crate::list::{Memory, Seq};
use crate::text::Txt;
use crate::value::{Row, Rows, Value};
use json::{Reader, Scratch, Token};
use serde_json::Value as Json;
use simdutf8::basic::from_utf8;
use std::alloc::Global;
use std::error::Error;
use std::fmt;

/// Why a line is no record. The first that holds is answered, in the order of the variants.
#[derive(Debug, PartialEq, Eq, Drop)]
pub enum LineFault {
    TooLong,
    NotJson,
    NotArray,
    /// The first item, counted from 0, that is no text and no whole number of 64 bits.
    BadItem(usize),
    /// How many items there are.
    WrongCount(usize),
    Memory,
}

/// Why an input is refused.
#[derive(Debug, PartialEq, Eq, Drop)]
pub enum InputFault {
    TooBig,
    /// The first bad line among the first 1,000,000, counted from 1.
    Line(usize, LineFault),
    TooMany,
    Memory,
}

impl fmt::Display for LineFault {
    ghost output = { λ fault. Some (line_fault_text fault) };

    fn fmt<W: fmt::Write>(&self, f: &mut fmt::Formatter<W>) -> fmt::Result {
        match self {
            LineFault::TooLong => write!(f, "longer than {MOST_LINE_BYTES} bytes"),
            LineFault::NotJson => write!(f, "no JSON"),
            LineFault::NotArray => write!(f, "no array"),
            LineFault::BadItem(i) => write!(f, "item {i} is no text and no whole number"),
            LineFault::WrongCount(found) => write!(f, "{found} items"),
            LineFault::Memory => write!(f, "out of memory"),
        }
    }
}

impl Error for LineFault {}

impl fmt::Display for InputFault {
    ghost output = { λ fault. Some (input_fault_text fault) };

    fn fmt<W: fmt::Write>(&self, f: &mut fmt::Formatter<W>) -> fmt::Result {
        match self {
            InputFault::TooBig => write!(f, "longer than {MOST_INPUT_BYTES} bytes"),
            InputFault::Line(number, fault) => write!(f, "line {number}: {fault}"),
            InputFault::TooMany => write!(f, "more than {MOST_LINES} lines"),
            InputFault::Memory => write!(f, "out of memory"),
        }
    }
}

impl Error for InputFault {}

impl From<Memory> for LineFault {
    ghost use Rattle.std.specs.Prelude.{◌≡◌};
    ghost use Rattle.storm_values.specs.declared.lines.LineFault.TheVariants as line;

    ghost from_gives = { λ _ fault. fault ≡ line.Memory };

    fn from(_: Memory) -> LineFault {
        LineFault::Memory
    }
}

impl From<Memory> for InputFault {
    ghost use Rattle.std.specs.Prelude.{◌≡◌};
    ghost use Rattle.storm_values.specs.declared.lines.InputFault.TheVariants as input;

    ghost from_gives = { λ _ fault. fault ≡ input.Memory };

    fn from(_: Memory) -> InputFault {
        InputFault::Memory
    }
}

/// The record of a line, which comes without its byte 10 and is to have `want` values.
pub fn row_from_line(alloc: Global, line: &[u8], want: u32) -> Result<Row, LineFault>
    ensures good { IfOk result
        (λ row. (line_fault line.now want ≡ None) × (row ≡ row_of line.now)) }
    ensures within { IfOk result (IsRow want) }
    ensures fault { IfErr result
        (λ fault. fault ≢ LineFault.Memory → line_fault line.now want ≡ Some fault) }
{
    read_line(alloc, &mut Scratch::new(alloc), line, want)
}

/// The record of a line, read in memory that serves line after line.
fn read_line(alloc: Global, scratch: &mut Scratch, line: &[u8], want: u32) -> Result<Row, LineFault>
    ensures good { IfOk result
        (λ row. (line_fault line.now want ≡ None) × (row ≡ row_of line.now)) }
    ensures within { IfOk result (IsRow want) }
    ensures fault { IfErr result
        (λ fault. fault ≢ LineFault.Memory → line_fault line.now want ≡ Some fault) }
{
    if line.len() > MOST_LINE_BYTES {
        return Err(LineFault::TooLong);
    }
    let row = values_of_line(alloc, scratch, line, want)?;
    let found = row.len();
    if found != want as usize {
        return Err(LineFault::WrongCount(found));
    }
    Ok(row)
}

/// The values of the array that a line is.
fn values_of_line(
    alloc: Global,
    scratch: &mut Scratch,
    line: &[u8],
    want: u32,
) -> Result<Row, LineFault>
    ensures good { IfOk result (IsRead line.now) }
    ensures fault { IfErr result
        (λ fault. fault ≢ LineFault.Memory → unread_fault line.now ≡ Some fault) }
{
    match texts_of_line(alloc, scratch, line, want)? {
        Some(row) => Ok(row),
        None => {
            let items = array_from_line(alloc, line)?;
            let row = row_from_items(alloc, items)?;
            Ok(row)
        }
    }
}

/// The texts of the array that a line is, where it is one of texts alone. No tree of the JSON is
/// made, and the scratch is not cleared.
fn texts_of_line(
    alloc: Global,
    scratch: &mut Scratch,
    line: &[u8],
    want: u32,
) -> Result<Option<Row>, Memory>
    ensures { IfOk result (λ found. IfSome found (IsRead line.now)) }
{
    let Ok(text) = from_utf8(line) else {
        return Ok(None);
    };
    let mut reader = Reader::new(text, scratch)?;
    let Some(token) = reader.next() else {
        return Ok(None);
    };
    let Token::BeginArray = token else {
        return Ok(None);
    };
    texts_of_array(alloc, &mut reader, want)
}

/// The texts up to the end of an array and of the line.
fn texts_of_array(alloc: Global, reader: &mut Reader<'_>, want: u32) -> Result<Option<Row>, Memory>
    ensures { IfOk result
        (λ found. IfSome found (λ row. texts_from reader.old ≡ Some (row, []))) }
{
    let mut row = Row::with_capacity(alloc, want.min(MOST_FIELDS) as usize)?;
    'texts: while !reader.take_end_array() {
        let Some(token) = reader.next() else {
            return Ok(None);
        };
        let Token::String(text) = token else {
            return Ok(None);
        };
        row.push(Value::Text(Txt::from_str(alloc, text)?))?;
    }
    match reader.next() {
        Some(_) => Ok(None),
        None => Ok(Some(row)),
    }
}

/// The items of the JSON array that a line is.
fn array_from_line(alloc: Global, line: &[u8]) -> Result<Vec<Json>, LineFault>
    ensures good { IfOk result (λ items. array_of line.now ≡ Some (items_view items.items)) }
    ensures fault { IfErr result (λ fault. fault ≢ LineFault.Memory
        → option_or (not_json (json_of line.now)) (not_array (array_of line.now)) ≡ Some fault) }
{
    match Json::from_slice(alloc, line) {
        Ok(json) => match json {
            Json::Array(items) => Ok(items),
            _other => Err(LineFault::NotArray),
        },
        Err(error) if error.is_memory() => Err(LineFault::Memory),
        Err(_) => Err(LineFault::NotJson),
    }
}

/// The values of the items. Their texts are moved.
fn row_from_items(alloc: Global, items: Vec<Json>) -> Result<Row, LineFault>
    ensures good { IfOk result (λ row. (bad_item (Some (items_view items.items)) ≡ None)
        × (row ≡ values_of (items_view items.items))) }
    ensures fault { IfErr result (λ fault. fault ≢ LineFault.Memory
        → bad_item (Some (items_view items.items)) ≡ Some fault) }
{
    let mut row = Row::with_capacity(alloc, items.len())?;
    for item in items {
        let Some(value) = value_from_item(item) else {
            return Err(LineFault::BadItem(row.len()));
        };
        row.push(value)?;
    }
    Ok(row)
}

fn value_from_item(item: Json) -> Option<Value>
    ensures { result ≡ value_of (view item) }
{
    match item {
        Json::Number(number) => number.as_i64().map(Value::Int),
        Json::String(text) => Some(Value::Text(Txt::from_string(text))),
        _ => None,
    }
}

/// The records of an input whose lines are to have `want` values each, in time linear in its
/// length.
pub fn read_input(alloc: Global, bytes: &[u8], want: u32) -> Result<Rows, InputFault>
    ensures good { IfOk result
        (λ rows. (input_fault bytes.now want ≡ None) × (rows ≡ records_of bytes.now)) }
    ensures within { IfOk result (All (IsRow want)) }
    ensures fault { IfErr result
        (λ fault. fault ≢ InputFault.Memory → input_fault bytes.now want ≡ Some fault) }
{
    if bytes.len() > MOST_INPUT_BYTES {
        return Err(InputFault::TooBig);
    }
    let mut scratch = Scratch::new(alloc);
    let mut rows = Seq::new(alloc);
    let mut rest = bytes;
    while !rest.is_empty() {
        let read = rows.len();
        if read == MOST_LINES {
            return Err(InputFault::TooMany);
        }
        let (line, after) = split_line(rest);
        let row = numbered_row(alloc, &mut scratch, line, want, read + 1)?;
        rows.push(row)?;
        rest = after;
    }
    Ok(rows)
}

/// The record of the line with this number.
fn numbered_row(
    alloc: Global,
    scratch: &mut Scratch,
    line: &[u8],
    want: u32,
    number: usize,
) -> Result<Row, InputFault>
    ensures good { IfOk result
        (λ row. (line_fault line.now want ≡ None) × (row ≡ row_of line.now)) }
    ensures within { IfOk result (IsRow want) }
    ensures fault { IfErr result (λ fault. fault ≢ InputFault.Memory
        → option_map (InputFault.Line number) (line_fault line.now want) ≡ Some fault) }
{
    match read_line(alloc, scratch, line, want) {
        Ok(row) => Ok(row),
        Err(LineFault::Memory) => Err(InputFault::Memory),
        Err(fault) => Err(InputFault::Line(number, fault)),
    }
}

/// The first line without its byte 10, and what follows, in time in proportion to the line.
pub fn split_line(bytes: &[u8]) -> (&[u8], &[u8])
    requires { 0 < length bytes.now }
    ensures lines { lines_of bytes.now ≡ result.0.now ∷ lines_of result.1.now }
    ensures shorter { length result.1.now < length bytes.now }
{
    match find_byte(bytes, b'\n') {
        Some(end) => (&bytes[..end], &bytes[end + 1..]),
        None => (bytes, &[]),
    }
}

/// Where a byte stands first.
pub fn find_byte(bytes: &[u8], byte: u8) -> Option<usize>
    ensures { result ≡ position (λ b. b == byte) bytes.now }
{
    bytes.iter().position(|b| *b == byte)
}

/// A law: the first byte past the limit tells as much of an input as all that follow it.
pub fn one_byte_past_the_limit_suffices()
    ensures fault { (bytes : List ℕ) (want : ℕ)
        → input_fault (take (most_input_bytes + 1) bytes) want ≡ input_fault bytes want }
    ensures records { (bytes : List ℕ) (want : ℕ) → input_fault bytes want ≡ None
        → records_of (take (most_input_bytes + 1) bytes) ≡ records_of bytes }
{}
