ghost use Rattle.std.specs.Prelude.{IfOk, string_bytes};
ghost use Rattle.test_kit.specs.Changed.{IsChanged};

use crate::mismatch::Mismatch;
use std::alloc::{AllocError, Global};

/// The text with a part of it changed. The part has to stand in it once.
pub fn changed(alloc: Global, text: &str, part: &str, other: &str) -> Result<String, Mismatch>
    ensures { IfOk result (λ made. IsChanged part.now other.now text.now (string_bytes made)) }
{
    match text.split_once(part) {
        Some((before, after)) if !after.contains(part) => {
            Ok(format!(in alloc; "{before}{other}{after}")?)
        }
        _ => Err(Mismatch::Case(String::from_str(alloc, part)?)),
    }
}

/// The columns of a line of a table, with `|` between them.
pub fn columns(alloc: Global, line: &str) -> Result<Vec<&str>, AllocError> {
    line.split('|').map(|column| column.trim()).collect(alloc)
}

/// The lines of a text that do not begin so, each with its end.
pub fn lines_without(alloc: Global, text: &str, front: &str) -> Result<String, AllocError> {
    let mut left = String::new(alloc);
    for line in text.lines() {
        if !line.starts_with(front) {
            left.push_str(line)?;
            left.push_str("\n")?;
        }
    }
    Ok(left)
}
