// Bytes that are the text of no meta.
ghost use Rattle.std.specs.Prelude.{◌<◌, length};

use crate::texts::CASES;
use crate::trouble::Trouble;
use resume_meta::read_meta;
use std::alloc::Global;
use storm_values::{Bytes, Memory};

fn is_bad(alloc: Global, bytes: &[u8]) -> Result<bool, Memory> {
    let read = read_meta(alloc, bytes)?;
    Ok(read.is_none())
}

const BAD: [&[u8]; 51] = [
    b"",
    b"\n",
    b"meta",
    b"meta\n",
    b"none",
    // other words, other spaces, other letters
    b"meta 2 txid 1 records 2 spans 1-1\n",
    b"meta 01 txid 1 records 2 spans 1-1\n",
    b"meta 1 txid 1 spans 1-1 records 2\n",
    b"meta 1 txid 1 records 2\n",
    b"meta 1 records 2 txid 1 spans 1-1\n",
    b" meta 1 txid 1 records 2 spans 1-1\n",
    b"meta 1 txid  1 records 2 spans 1-1\n",
    b"meta 1 txid 1  records 2 spans 1-1\n",
    b"meta 1 txid 1 records 2 spans 1-1 \n",
    b"meta 1 txid 1 records 2 spans  1-1\n",
    b"meta 1\ttxid 1 records 2 spans 1-1\n",
    b"Meta 1 txid 1 records 2 spans 1-1\n",
    b"meta 1 txid 1 records 2 spans None\n",
    // other line ends, two lines, and a byte too many
    b"meta 1 txid 1 records 2 spans 1-1",
    b"meta 1 txid 1 records 2 spans 1-1\r\n",
    b"\nmeta 1 txid 1 records 2 spans 1-1\n",
    b"meta 1 txid 1 records 2 spans 1-1\n\n",
    b"meta 1 txid 1 records 2 spans 1-1\nmeta 1 txid 1 records 2 spans 1-1\n",
    b"meta 1 txid 1 records 2 spans 1-1\nmeta 1 txid 2 records 2 spans 1-2\n",
    b"meta 1 txid 1 records 2 spans 1-1\n\0",
    b"\xef\xbb\xbfmeta 1 txid 1 records 2 spans 1-1\n",
    // numbers of another form
    b"meta 1 txid 01 records 2 spans 1-1\n",
    b"meta 1 txid 00 records 2 spans 1-1\n",
    b"meta 1 txid 1 records 02 spans 1-1\n",
    b"meta 1 txid 1 records 2 spans 01-1\n",
    b"meta 1 txid 1 records 2 spans 1-01\n",
    b"meta 1 txid +1 records 2 spans 1-1\n",
    b"meta 1 txid -1 records 2 spans 1-1\n",
    b"meta 1 txid 1 records 2 spans +1-1\n",
    b"meta 1 txid  records 2 spans 1-1\n",
    b"meta 1 txid 0x1 records 2 spans 1-1\n",
    // numbers above the greatest
    b"meta 1 txid 18446744073709551616 records 2 spans 1-1\n",
    b"meta 1 txid 1 records 18446744073709551616 spans 1-1\n",
    b"meta 1 txid 1 records 2 spans 1-18446744073709551616\n",
    b"meta 1 txid 1 records 2 spans 18446744073709551616-18446744073709551616\n",
    // spans of another form
    b"meta 1 txid 1 records 2 spans \n",
    b"meta 1 txid 1 records 2 spans 1\n",
    b"meta 1 txid 1 records 2 spans 1-\n",
    b"meta 1 txid 1 records 2 spans 1-1,\n",
    b"meta 1 txid 1 records 2 spans ,1-1\n",
    b"meta 1 txid 1 records 2 spans 1-1-1\n",
    b"meta 1 txid 1 records 2 spans none,1-1\n",
    // spans that touch, fall or are empty
    b"meta 1 txid 1 records 9 spans 1-2,3-4\n",
    b"meta 1 txid 1 records 9 spans 1-4,4-6\n",
    b"meta 1 txid 1 records 9 spans 6-7,1-2\n",
    b"meta 1 txid 1 records 9 spans 2-1\n",
];

// The greatest number touches all that follows it.
const AT_THE_END: [&[u8]; 3] = [
    b"meta 1 txid 1 records 9 spans 0-18446744073709551615,1-1\n",
    b"meta 1 txid 1 records 9 spans 5-18446744073709551615,0-1\n",
    b"meta 1 txid 1 records 9 spans 0-18446744073709551614,18446744073709551615-18446744073709551615\n",
];

fn check_bad(alloc: Global, texts: &[&[u8]]) -> Result<(), Trouble> {
    for (number, text) in texts.iter().enumerate() {
        if !is_bad(alloc, *text)? {
            return Err(Trouble::Case(number));
        }
    }
    Ok(())
}

#[test]
fn bytes_of_no_meta(rt: HostRuntime) -> Result<(), Trouble> {
    check_bad(rt.alloc(), &BAD)?;
    check_bad(rt.alloc(), &AT_THE_END)
}

fn check_cuts(alloc: Global, bytes: &[u8]) -> Result<(), Trouble> {
    for (at, byte) in bytes.iter().enumerate() {
        if !is_bad(alloc, &bytes[..at])? {
            return Err(Trouble::Byte(at, *byte));
        }
    }
    Ok(())
}

#[test]
fn texts_that_are_cut_at_any_byte(rt: HostRuntime) -> Result<(), Trouble> {
    for case in CASES {
        check_cuts(rt.alloc(), case.text.as_bytes())?;
    }
    Ok(())
}

// The bytes with another at one place.
fn changed(alloc: Global, bytes: &[u8], at: usize, other: u8) -> Result<Bytes, Memory>
    requires { at < length bytes.now }
{
    let mut made = Vec::with_capacity(alloc, bytes.len())?;
    made.extend_from_slice(&bytes[..at])?;
    made.push(other)?;
    made.extend_from_slice(&bytes[at + 1..])?;
    Ok(Bytes::from_vec(made))
}

const OTHERS: [u8; 16] = *b"\0\n\r +,-./09:n\x7f\x80\xff";

// A digit in the place of another may be a text again.
fn may_stand(byte: u8, other: u8) -> bool {
    byte == other || byte.is_ascii_digit() && other.is_ascii_digit()
}

fn check_place(alloc: Global, bytes: &[u8], at: usize) -> Result<(), Trouble>
    requires { at < length bytes.now }
{
    for other in OTHERS {
        if !may_stand(bytes[at], other) {
            let text = changed(alloc, bytes, at, other)?;
            if !is_bad(alloc, text.as_slice())? {
                return Err(Trouble::Byte(at, other));
            }
        }
    }
    Ok(())
}

#[test]
fn texts_with_any_byte_changed(rt: HostRuntime) -> Result<(), Trouble> {
    for case in CASES {
        let bytes = case.text.as_bytes();
        for at in 0..bytes.len() {
            check_place(rt.alloc(), bytes, at)?;
        }
    }
    Ok(())
}
