// Pieces of texts of one byte a character.
use std::alloc::Global;
use storm_values::Memory;

/// The first bytes of a text.
pub fn front(text: &str, len: usize) -> &str {
    text.get(..len).unwrap_or("")
}

/// A text without its byte at a place.
pub fn without(alloc: Global, text: &str, place: usize) -> Result<String, Memory> {
    let mut left = String::from_str(alloc, front(text, place))?;
    left.push_str(text.get(place.saturating_add(1)..).unwrap_or(""))?;
    Ok(left)
}
