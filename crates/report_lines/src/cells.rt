// The line of a cell, as it is read.
ghost use Rattle.std.specs.Prelude.{◌≡◌, ℤ, pos, negsuc, ℕ, suc, ◌<◌, ◌^◌, codes, decimal, FitsSigned, IfOk, IfSome, Some, option_map};
ghost use Rattle.std.specs.Fmt.{signed_decimal};
ghost use Rattle.std.specs.Int.{w128};
ghost use Rattle.report_grammar.specs.Report.{CellText, cell_text};
ghost use Rattle.report_lines.specs.Told.{cell_told};
ghost use Rattle.report_grammar.specs.WellFormed.{IsCell};
ghost use Rattle.report_lines.specs.steps.Cells.{parts_told};
ghost use Rattle.report_grammar.specs.steps.Reading.{after_word};
ghost use Rattle.report_grammar.specs.steps.Parsed.{before_space, behind_space, body_of, cell_in};

use crate::ends::text_of;
use crate::lists::{halves, last_piece};
use crate::report::CellLine;
use simdutf8::basic::from_utf8;
use std::alloc::Global;
use storm_values::Memory;

/// The state, the key and the digits of a cell's line.
#[derive(Clone, Copy)]
pub struct CellParts<'a> {
    state: &'a [u8],
    key: &'a [u8],
    digits: &'a [u8],
}

/// The cell of a line, which comes without its byte 10.
pub fn read_cell(alloc: Global, text: &[u8]) -> Result<Option<CellLine>, Memory>
    ensures { IfOk result (λ read. (cell : CellText) → IsCell cell
        → text.now ≡ body_of (cell_text cell) → option_map cell_told read ≡ Some cell) }
{
    let Some(parts) = parts_of(text) else {
        return Ok(None);
    };
    let Some(value) = value_of(parts.digits) else {
        return Ok(None);
    };
    let Some(state) = text_of(alloc, parts.state)? else {
        return Ok(None);
    };
    let Some(key) = text_of(alloc, parts.key)? else {
        return Ok(None);
    };
    Ok(Some(CellLine { state, key, value }))
}

#[tactic(auto, unfolding(report_grammar::specs::steps::Parsed::cell_in))]
fn parts_of(text: &[u8]) -> Option<CellParts<'_>>
    ensures { option_map parts_told result ≡ cell_in text.now }
{
    let (state, others) = halves(text.strip_prefix(b"cell ")?, b' ');
    let others = others?;
    let digits = last_piece(others, b' ');
    let key = before(others, digits);
    Some(CellParts { state, key, digits })
}

/// A text without the byte and the digits at its end.
fn before<'a>(text: &'a [u8], digits: &[u8]) -> &'a [u8]
    ensures { digits.now ≡ behind_space text.now → result.now ≡ before_space text.now }
{
    let past = digits.len() + 1;
    &text[..text.len().saturating_sub(past)]
}

/// The value that a text says, with a sign where it is below 0.
fn value_of(text: &[u8]) -> Option<i128>
    ensures { (value : ℤ) → FitsSigned w128 value → text.now ≡ signed_decimal value
        → result ≡ Some value }
{
    match behind_sign(text) {
        Some(digits) => negative_of(magnitude_of(digits)),
        None => positive_of(magnitude_of(text)),
    }
}

fn behind_sign(text: &[u8]) -> Option<&[u8]>
    ensures { option_map (λ s. s.now) result ≡ after_word (codes "-") text.now }
{
    text.strip_prefix(b"-")
}

fn negative_of(magnitude: Option<u128>) -> Option<i128>
    ensures { (n : ℕ) → magnitude ≡ Some (suc n) → FitsSigned w128 (negsuc n)
        → result ≡ Some (negsuc n) }
{
    0i128.checked_sub_unsigned(magnitude?)
}

fn positive_of(magnitude: Option<u128>) -> Option<i128>
    ensures { (n : ℕ) → magnitude ≡ Some n → FitsSigned w128 (pos n) → result ≡ Some (pos n) }
{
    0i128.checked_add_unsigned(magnitude?)
}

fn magnitude_of(digits: &[u8]) -> Option<u128>
    ensures { (n : ℕ) → n < 2 ^ 128 → digits.now ≡ decimal n → result ≡ Some n }
{
    match from_utf8(digits) {
        Ok(text) => text.parse::<u128>().ok(),
        Err(_) => None,
    }
}
