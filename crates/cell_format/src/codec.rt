ghost use Rattle.std.specs.Prelude.{◌≡◌, ◌≢◌, ◌≤◌, ◌<◌, ◌+◌, ◌^◌, ◌↔◌, ◌++◌, ℕ, List, length, take, drop, slice_index_or, is_some, Ok, None, IsTrue, IfOk, IfSome, IsErrOf};
ghost use Rattle.cell_format.specs.Layout.{AreBytesOf, HasVersion, IsCell, IsOtherVersion, IsWhole, attempt_bytes, attempt_if, bytes_by, bytes_of, flags_of, has_flag, kind_if, length_if, number_bytes, number_if, number_of, read_by, txid_bytes, value_place, version_if};
ghost use Rattle.cell_format.specs.declared.cell.Cell.{Cell};

use crate::cell::{Cell, CellFault};
use tree_model::topology_plan::Kind;

/// How many bytes a cell has in format 2, which is written.
pub const CELL_BYTES: usize = 46;

/// How many it has in format 1, which has no attempt.
const OLD_CELL_BYTES: usize = 42;

const VERSION: u8 = 2;

const OLD_VERSION: u8 = 1;

/// There is a value.
const VALUE: u8 = 1;

/// There is a value before.
const PREV: u8 = 2;

/// The cell is opaque.
const OPAQUE: u8 = 4;

/// The bytes of a cell in format 2. It takes no memory.
pub fn encode_cell(cell: &Cell) -> [u8; CELL_BYTES]
    requires { IsWhole cell.now.kind cell.now.value cell.now.prev }
    ensures { result ≡ bytes_of cell.now }
{
    let mut bytes = [0; CELL_BYTES];
    bytes[0] = VERSION;
    bytes[1] = flags(cell);
    place(&mut bytes, 2, &txid(cell.txid));
    place(&mut bytes, 10, &attempt(cell.attempt));
    place(&mut bytes, 14, &number(cell.value));
    place(&mut bytes, 30, &number(cell.prev));
    bytes
}

/// Copies a piece to a place.
fn place(bytes: &mut [u8], at: usize, piece: &[u8])
    requires { at + length piece.now ≤ length bytes.old }
    ensures { bytes.new
        ≡ take at bytes.old ++ (piece.now ++ drop (at + length piece.now) bytes.old) }
{
    bytes[at..at + piece.len()].copy_from_slice(piece);
}

fn txid(txid: u64) -> [u8; 8]
    ensures { result ≡ txid_bytes txid }
{
    txid.to_be_bytes()
}

fn attempt(attempt: u32) -> [u8; 4]
    ensures { result ≡ attempt_bytes attempt }
{
    attempt.to_be_bytes()
}

fn flags(cell: &Cell) -> u8
    ensures { result ≡ flags_of cell.now }
{
    let value = if cell.value.is_some() { VALUE } else { 0 };
    let prev = if cell.prev.is_some() { PREV } else { 0 };
    let kind = match cell.kind {
        Kind::Transactional => 0,
        Kind::Opaque => OPAQUE,
    };
    value + prev + kind
}

fn number(number: Option<i128>) -> [u8; 16]
    ensures { result ≡ number_bytes number }
{
    match number {
        Some(number) => number.to_be_bytes(),
        None => [0; 16],
    }
}

/// The cell that the bytes are, of either format. It takes no memory.
pub fn decode_cell(bytes: &[u8]) -> Result<Cell, CellFault>
    ensures cell { IfOk result (λ cell. IsCell cell × AreBytesOf cell bytes.now) }
    ensures read { (cell : Cell) → IsCell cell → AreBytesOf cell bytes.now → result ≡ Ok cell }
    ensures length { IsErrOf result CellFault.Length
        ↔ ((length bytes.now ≢ 42) × (length bytes.now ≢ 46)) }
    ensures version { IsErrOf result CellFault.Version ↔ IsOtherVersion bytes.now }
    ensures flag { IsErrOf result CellFault.Flag → HasVersion bytes.now
        × ((cell : Cell) → IsCell cell → AreBytesOf cell bytes.now → ⊥) }
{
    match format_of(bytes.len()) {
        None => Err(CellFault::Length),
        Some(has_attempt) => decode_format(bytes, has_attempt),
    }
}

/// Whether a cell of so many bytes has an attempt, if any has so many.
fn format_of(length: usize) -> Option<bool>
    ensures none { result ≡ None → (length ≢ 42) × (length ≢ 46) }
    ensures some { IfSome result (λ has_attempt. length ≡ length_if has_attempt) }
{
    match length {
        CELL_BYTES => Some(true),
        OLD_CELL_BYTES => Some(false),
        _ => None,
    }
}

fn decode_format(bytes: &[u8], has_attempt: bool) -> Result<Cell, CellFault>
    requires { length bytes.now ≡ length_if has_attempt }
    ensures cell { IfOk result (λ cell. IsCell cell × AreBytesOf cell bytes.now) }
    ensures read { (cell : Cell) → IsCell cell → AreBytesOf cell bytes.now → result ≡ Ok cell }
    ensures not_length { IsErrOf result CellFault.Length → ⊥ }
    ensures version { IsErrOf result CellFault.Version
        ↔ (slice_index_or bytes.now 0 0 ≢ version_if has_attempt) }
    ensures flag { IsErrOf result CellFault.Flag → HasVersion bytes.now
        × ((cell : Cell) → IsCell cell → AreBytesOf cell bytes.now → ⊥) }
{
    if bytes[0] != version(has_attempt) {
        return Err(CellFault::Version);
    }
    let cell = read_cell(bytes, has_attempt);
    if has_bytes(&cell, bytes, has_attempt) {
        Ok(cell)
    } else {
        Err(CellFault::Flag)
    }
}

fn version(has_attempt: bool) -> u8
    ensures { result ≡ version_if has_attempt }
{
    if has_attempt { VERSION } else { OLD_VERSION }
}

/// The place of the value.
fn value_bytes(bytes: &[u8], has_attempt: bool) -> &[u8]
    requires { length bytes.now ≡ length_if has_attempt }
    ensures value { result.now ≡ take 16 (drop (value_place has_attempt) bytes.now) }
    ensures length { length result.now ≡ 16 }
{
    if has_attempt {
        &bytes[14..30]
    } else {
        &bytes[10..26]
    }
}

/// The place of the value before.
fn prev_bytes(bytes: &[u8], has_attempt: bool) -> &[u8]
    requires { length bytes.now ≡ length_if has_attempt }
    ensures value { result.now ≡ take 16 (drop (value_place has_attempt + 16) bytes.now) }
    ensures length { length result.now ≡ 16 }
{
    if has_attempt {
        &bytes[30..46]
    } else {
        &bytes[26..42]
    }
}

/// Whether the bytes are those of the cell that was read from them. Its numbers were read from
/// their places, so the flags are left to test, and the places of numbers that are not there.
fn has_bytes(cell: &Cell, bytes: &[u8], has_attempt: bool) -> bool
    requires length { length bytes.now ≡ length_if has_attempt }
    requires version { slice_index_or bytes.now 0 0 ≡ version_if has_attempt }
    requires read { cell.now ≡ read_by has_attempt bytes.now }
    ensures { IsTrue result ↔ (IsWhole cell.now.kind cell.now.value cell.now.prev
        × (bytes.now ≡ bytes_by has_attempt cell.now)) }
{
    let is_whole = is_whole(cell);
    let has_flags = bytes[1] == flags(cell);
    let has_value = has_number(cell.value, value_bytes(bytes, has_attempt));
    let has_prev = has_number(cell.prev, prev_bytes(bytes, has_attempt));
    is_whole & has_flags & has_value & has_prev
}

/// Whether the bytes are those of the number that was read from them: all 0 where there is none.
fn has_number(number: Option<i128>, bytes: &[u8]) -> bool
    requires length { length bytes.now ≡ 16 }
    requires read { number ≡ number_if (is_some number) bytes.now }
    ensures { IsTrue result ↔ (bytes.now ≡ number_bytes number) }
{
    match number {
        Some(_) => true,
        None => read_number(bytes) == 0,
    }
}

fn is_whole(cell: &Cell) -> bool
    ensures { IsTrue result ↔ IsWhole cell.now.kind cell.now.value cell.now.prev }
{
    match cell.kind {
        Kind::Transactional => cell.value.is_some() && cell.prev.is_none(),
        Kind::Opaque => true,
    }
}

/// What the places of the bytes say.
fn read_cell(bytes: &[u8], has_attempt: bool) -> Cell
    requires { length bytes.now ≡ length_if has_attempt }
    ensures { result ≡ read_by has_attempt bytes.now }
{
    let flags = bytes[1];
    Cell {
        txid: read_txid(&bytes[2..10]),
        attempt: read_attempt(bytes, has_attempt),
        value: read_if(flags & VALUE != 0, value_bytes(bytes, has_attempt)),
        prev: read_if(flags & PREV != 0, prev_bytes(bytes, has_attempt)),
        kind: read_kind(flags & OPAQUE != 0),
    }
}

fn read_attempt(bytes: &[u8], has_attempt: bool) -> u32
    requires { length bytes.now ≡ length_if has_attempt }
    ensures { result ≡ attempt_if has_attempt bytes.now }
{
    if has_attempt {
        let mut word = [0; 4];
        word.copy_from_slice(&bytes[10..14]);
        u32::from_be_bytes(word)
    } else {
        0
    }
}

fn read_kind(is_opaque: bool) -> Kind
    ensures { result ≡ kind_if is_opaque }
{
    if is_opaque {
        Kind::Opaque
    } else {
        Kind::Transactional
    }
}

fn read_if(is_there: bool, bytes: &[u8]) -> Option<i128>
    requires { length bytes.now ≡ 16 }
    ensures { result ≡ number_if is_there bytes.now }
{
    if is_there {
        Some(read_number(bytes).cast_signed())
    } else {
        None
    }
}

/// The number whose 8 bytes these are, the highest first.
fn read_txid(bytes: &[u8]) -> u64
    requires { length bytes.now ≡ 8 }
    ensures { result ≡ number_of bytes.now }
{
    let mut word = [0; 8];
    word.copy_from_slice(bytes);
    u64::from_be_bytes(word)
}

/// The number whose 16 bytes these are, the highest first.
fn read_number(bytes: &[u8]) -> u128
    requires { length bytes.now ≡ 16 }
    ensures { result ≡ number_of bytes.now }
{
    let mut word = [0; 16];
    word.copy_from_slice(bytes);
    u128::from_be_bytes(word)
}
