// How an attempt ended, as it is read.
ghost use Rattle.std.specs.Prelude.{◌≡◌, IfOk, option_map};
ghost use Rattle.report_lines.specs.Told.{end_told};
ghost use Rattle.report_grammar.specs.steps.Parsed.{coincided_in, commit_failed_in, dropped_in, end_in, failed_in, listed_in, text_in};

use crate::lists::{edges_of, halves, number_of, path_of, root_of};
use crate::report::EndLine;
use simdutf8::basic::from_utf8;
use std::alloc::Global;
use storm_values::{Memory, Txt};

#[tactic(auto, unfolding(report_grammar::specs::steps::Parsed::end_in))]
pub fn read_end(alloc: Global, text: &[u8]) -> Result<Option<EndLine>, Memory>
    ensures { IfOk result (λ read. option_map end_told read ≡ end_in text.now) }
{
    if text == b"committed".as_slice() {
        return Ok(Some(EndLine::Committed));
    }
    if text == b"timed out".as_slice() {
        return Ok(Some(EndLine::TimedOut));
    }
    read_listed(alloc, text)
}

/// An end that names something.
#[tactic(auto, unfolding(report_grammar::specs::steps::Parsed::listed_in))]
fn read_listed(alloc: Global, text: &[u8]) -> Result<Option<EndLine>, Memory>
    ensures { IfOk result (λ read. option_map end_told read ≡ listed_in text.now) }
{
    if let Some(path) = text.strip_prefix(b"failed ") {
        return read_failed(alloc, path);
    }
    if let Some(edges) = text.strip_prefix(b"coincided ") {
        return read_coincided(alloc, edges);
    }
    if let Some(part) = text.strip_prefix(b"commit failed ") {
        return read_commit_failed(alloc, part);
    }
    match text.strip_prefix(b"dropped ") {
        Some(root) => Ok(read_dropped(root)),
        None => Ok(None),
    }
}

#[tactic(auto, unfolding(report_grammar::specs::steps::Parsed::failed_in))]
fn read_failed(alloc: Global, text: &[u8]) -> Result<Option<EndLine>, Memory>
    ensures { IfOk result (λ read. option_map end_told read ≡ failed_in text.now) }
{
    match path_of(alloc, text)? {
        Some(path) => Ok(Some(EndLine::Failed(path))),
        None => Ok(None),
    }
}

#[tactic(auto, unfolding(report_grammar::specs::steps::Parsed::coincided_in))]
fn read_coincided(alloc: Global, text: &[u8]) -> Result<Option<EndLine>, Memory>
    ensures { IfOk result (λ read. option_map end_told read ≡ coincided_in text.now) }
{
    match edges_of(alloc, text)? {
        Some(edges) => Ok(Some(EndLine::Coincided(edges))),
        None => Ok(None),
    }
}

#[tactic(auto, unfolding(report_grammar::specs::steps::Parsed::commit_failed_in))]
fn read_commit_failed(alloc: Global, text: &[u8]) -> Result<Option<EndLine>, Memory>
    ensures { IfOk result (λ read. option_map end_told read ≡ commit_failed_in text.now) }
{
    let (state, digits) = halves(text, b' ');
    let Some(digits) = digits else {
        return Ok(None);
    };
    let Some(part) = number_of(digits, u32::MAX) else {
        return Ok(None);
    };
    match text_of(alloc, state)? {
        Some(state) => Ok(Some(EndLine::CommitFailed(state, part))),
        None => Ok(None),
    }
}

#[tactic(auto, unfolding(report_grammar::specs::steps::Parsed::dropped_in))]
fn read_dropped(text: &[u8]) -> Option<EndLine>
    ensures { option_map end_told result ≡ dropped_in text.now }
{
    let by = root_of(text)?;
    Some(EndLine::Dropped(by))
}

/// The text of some bytes, if they are UTF-8.
#[tactic(auto, unfolding(report_grammar::specs::steps::Parsed::text_in))]
pub fn text_of(alloc: Global, bytes: &[u8]) -> Result<Option<Txt>, Memory>
    ensures { IfOk result (λ read. read ≡ text_in bytes.now) }
{
    match from_utf8(bytes) {
        Ok(text) => Ok(Some(Txt::from_str(alloc, text)?)),
        Err(_) => Ok(None),
    }
}
