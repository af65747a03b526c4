// What a text says, and what a put appends.
use crate::calls::Answer::{Found, Nothing, Number};
use crate::calls::Call::{Count, Get, KeyAt};
use crate::calls::{Step, Trouble, check_steps};
use part_files::{put_piece, read_cells};
use std::alloc::Global;

// Whether the cells of the text have these answers.
fn check(alloc: Global, text: &str, steps: &[Step]) -> Result<(), Trouble> {
    check_steps(&mut read_cells(alloc, text.as_bytes())?, steps)
}

// The same of each of some texts.
fn check_each(alloc: Global, texts: &[&str], steps: &[Step]) -> Result<(), Trouble> {
    for text in texts {
        check(alloc, *text, steps)?;
    }
    Ok(())
}

const NONE: [Step; 2] = [(Count, Number(0)), (KeyAt(0), Nothing)];

const NO_LINES: [&str; 2] = ["", "\n\n\n"];

#[test]
fn no_line_says_nothing(rt: HostRuntime) -> Result<(), Trouble> {
    check_each(rt.alloc(), &NO_LINES, &NONE)
}

// Lines of other forms.
const OTHERS: [&str; 16] = [
    "6b 01",
    "6b01.",
    "6b  01.",
    " 6b 01.",
    "6b 01 .",
    "6b 01..",
    "6b 01. ",
    ".6b 01.",
    "6b 01.\r",
    "6b 0.",
    "6 01.",
    "6g 01.",
    "6b 0x01.",
    "6b\t01.",
    "6b 01.6b 02.",
    ".",
];

#[test]
fn a_line_of_another_form_is_skipped(rt: HostRuntime) -> Result<(), Trouble> {
    check_each(rt.alloc(), &OTHERS, &NONE)
}

const TEN: [Step; 2] = [(Count, Number(1)), (Get(b"k"), Found(&[10]))];

// With digits of either case, with and without line ends, behind lines of other forms, behind one
// that was cut short, and before one; and the last line of the key.
const ONES: [&str; 9] = [
    "6b 0a.",
    "6B 0a.",
    "6b 0A.",
    "6B 0A.\n",
    "\n6b 0a.\n",
    "6b01.\n\n.\n6b 0a.\n6c 02",
    "\n6b 02\n6b 0a.\n",
    "\n6b 0a.\n\n6b 0203",
    "6b 01.\n6b 0203.\n6b 0a.",
];

#[test]
fn the_last_line_of_a_key_counts(rt: HostRuntime) -> Result<(), Trouble> {
    check_each(rt.alloc(), &ONES, &TEN)
}

const EMPTY: [Step; 6] = [
    (Count, Number(3)),
    (KeyAt(0), Found(b"")),
    (Get(b""), Found(&[1])),
    (KeyAt(1), Found(b"k")),
    (Get(b"k"), Found(b"")),
    (KeyAt(2), Found(&[255])),
];

#[test]
fn keys_and_cells_may_be_empty(rt: HostRuntime) -> Result<(), Trouble> {
    check(rt.alloc(), "fF .\n6b 02.\n .\n6b .\n 01.", &EMPTY)
}

// Whether a put appends this.
fn check_piece(alloc: Global, key: &[u8], cell: &[u8], want: &str) -> Result<(), Trouble> {
    let piece = put_piece(alloc, key, cell)?;
    if piece.as_slice() != want.as_bytes() {
        return Err(Trouble::Bytes);
    }
    Ok(())
}

#[test]
fn a_put_appends_a_line_between_line_ends(rt: HostRuntime) -> Result<(), Trouble> {
    check_piece(rt.alloc(), b"key", &[0, 255, 16], "\n6b6579 00ff10.\n")
}

#[test]
fn a_put_of_nothing_appends_a_line(rt: HostRuntime) -> Result<(), Trouble> {
    check_piece(rt.alloc(), b"", b"", "\n .\n")
}

#[test]
fn keys_and_cells_may_have_line_ends(rt: HostRuntime) -> Result<(), Trouble> {
    check_piece(rt.alloc(), b"\n .", b"\n", "\n0a202e 0a.\n")
}
