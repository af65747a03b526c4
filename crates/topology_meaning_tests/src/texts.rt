// Faults of a whole text, before what it says.
use std::alloc::Global;
use test_kit::{Mismatch, compare};
use topology_reader::{TopoFault, read_topology};
use topology_test_kit::{FILE, check_told, told};

// Texts, each repeated so many times, without a JSON value.
const NO_JSON: [(&str, usize); 17] = [
    ("", 1),
    (" \n", 1),
    ("{\"version\":1", 1),
    ("{\"version\":7,", 1),
    ("{\"version\":1,}", 1),
    ("{\"version\":1}}", 1),
    ("{\"version\":1}", 2),
    ("{\"version\":01}", 1),
    ("{\"version\":+1}", 1),
    ("{\"version\":1e999}", 1),
    ("{'version':1}", 1),
    ("{version:1}", 1),
    ("{\"version\":\"\n\"}", 1),
    ("{\"version\":\"\\ud800\"}", 1),
    ("[1,2", 1),
    ("nul", 1),
    ("\u{feff}{}", 1),
];

// Texts, with so many bytes when spaces fill them up, and what is printed of the fault.
const LENGTHS: [(&str, usize, &str); 6] = [
    (FILE, 65_536, "no fault"),
    (FILE, 65_537, "longer than 65536 bytes"),
    ("{", 65_536, "no JSON"),
    ("{", 65_537, "longer than 65536 bytes"),
    ("", 65_537, "longer than 65536 bytes"),
    ("[]", 70_000, "longer than 65536 bytes"),
];

#[test]
fn the_valid_file(rt: HostRuntime) -> Result<(), Mismatch> {
    check_told(rt.alloc(), FILE, "no fault")
}

#[test]
fn texts_without_json(rt: HostRuntime) -> Result<(), Mismatch> {
    let alloc = rt.alloc();
    for (piece, times) in NO_JSON {
        check_told(alloc, piece.repeat(alloc, times)?.as_str(), "no JSON")?;
    }
    let told = told(alloc, b"{\"version\":\"\xff\"}")?;
    compare(alloc, "a byte that is no text", told.as_str(), "no JSON")
}

// Of arrays within arrays, 127 are a JSON value for the reader of JSON, and 128 are none.
#[test]
fn nested_texts(rt: HostRuntime) -> Result<(), Mismatch> {
    let alloc = rt.alloc();
    for (times, want) in [(127, "wrong kind \"topology\""), (128, "no JSON")] {
        let mut text = "[".repeat(alloc, times)?;
        text.push_str("]".repeat(alloc, times)?.as_str())?;
        check_told(alloc, text.as_str(), want)?;
    }
    Ok(())
}

// The text with spaces behind it, so many bytes in all.
fn filled_up(alloc: Global, start: &str, bytes: usize) -> Result<String, Mismatch> {
    let mut text = String::from_str(alloc, start)?;
    text.push_str(
        " ".repeat(alloc, bytes.saturating_sub(start.len()))?
            .as_str(),
    )?;
    Ok(text)
}

#[test]
fn long_texts(rt: HostRuntime) -> Result<(), Mismatch> {
    let alloc = rt.alloc();
    for (start, bytes, want) in LENGTHS {
        let text = filled_up(alloc, start, bytes)?;
        assert!(rt; text.len() == bytes);
        check_told(alloc, text.as_str(), want)?;
    }
    Ok(())
}

#[test]
fn the_length_of_a_text_that_is_too_long(rt: HostRuntime) {
    let found = match read_topology(rt.alloc(), &[b' '; 65_540]) {
        Err(TopoFault::TooLong(found)) => found,
        _ => 0,
    };
    assert!(rt; found == 65_540);
}
