ghost use Rattle.std.specs.Prelude.{◌≡◌, ◌<◌, [], ◌∷◌, length, IfSome, IfNone, IfOk, OnOk};
ghost use Rattle.storm_stores.specs.MemoryStore.{store_of};
ghost use Rattle.part_files.specs.PartFiles.{after_put, bytes_in, lines_in, map_of, pair_in, piece_of, put_in};

use hex::FromHexError;
use std::alloc::{AllocError, Global};
use storm_stores::MemStore;
use storm_values::{Bytes, Memory, find_byte};

/// What a put appends: a line of the key and the cell, with a line end before it and after it. It
/// is twice as long as both, and four bytes more.
pub fn put_piece(alloc: Global, key: &[u8], cell: &[u8]) -> Result<Vec<u8>, Memory>
    ensures { IfOk result (λ piece. piece.items ≡ piece_of key.now cell.now) }
{
    let key = hex::encode(alloc, key)?;
    let cell = hex::encode(alloc, cell)?;
    let mut piece = Vec::with_capacity(alloc, 64)?;
    piece.push(b'\n')?;
    piece.extend_from_slice(key.as_bytes())?;
    piece.push(b' ')?;
    piece.extend_from_slice(cell.as_bytes())?;
    piece.push(b'.')?;
    piece.push(b'\n')?;
    Ok(piece)
}

/// The cells of a file, in time in proportion to its length.
pub fn read_cells(alloc: Global, bytes: &[u8]) -> Result<MemStore, Memory>
    ensures { IfOk result (λ store. store ≡ store_of (map_of bytes.now)) }
{
    let mut store = MemStore::new(alloc);
    let mut rest = bytes;
    while let Some((line, after)) = next_line(rest) {
        read_line(alloc, &mut store, line)?;
        rest = after;
    }
    read_line(alloc, &mut store, rest)?;
    Ok(store)
}

/// The first line and what follows its line end, if it has one.
fn next_line(bytes: &[u8]) -> Option<(&[u8], &[u8])>
    ensures some { IfSome result (λ split.
        lines_in bytes.now ≡ split.0.now ∷ lines_in split.1.now) }
    ensures shorter { IfSome result (λ split. length split.1.now < length bytes.now) }
    ensures none { IfNone result (lines_in bytes.now ≡ bytes.now ∷ []) }
{
    match find_byte(bytes, b'\n') {
        Some(end) => Some((&bytes[..end], &bytes[end + 1..])),
        None => None,
    }
}

/// Does the put that a line says, if it says one.
fn read_line(alloc: Global, store: &mut MemStore, line: &[u8]) -> Result<(), Memory>
    ensures { OnOk result (store.new ≡ record store.old {
      cells = after_put store.old.cells (put_in line.now);
    }) }
{
    match line_put(alloc, line)? {
        Some((key, cell)) => store.set(key, cell),
        None => Ok(()),
    }
}

/// The put that a line says.
#[tactic(auto, unfolding(crate::specs::PartFiles::put_in))]
fn line_put(alloc: Global, line: &[u8]) -> Result<Option<(Bytes, Bytes)>, Memory>
    ensures { IfOk result (λ put. put ≡ put_in line.now) }
{
    match find_byte(line, b'.') {
        Some(end) if end + 1 == line.len() => pair_of(alloc, &line[..end]),
        _ => Ok(None),
    }
}

/// The key and the cell before and after the first space.
#[tactic(auto, unfolding(crate::specs::PartFiles::pair_in))]
fn pair_of(alloc: Global, text: &[u8]) -> Result<Option<(Bytes, Bytes)>, Memory>
    ensures { IfOk result (λ put. put ≡ pair_in text.now) }
{
    let Some(at) = find_byte(text, b' ') else {
        return Ok(None);
    };
    let Some(key) = bytes_of(alloc, &text[..at])? else {
        return Ok(None);
    };
    let Some(cell) = bytes_of(alloc, &text[at + 1..])? else {
        return Ok(None);
    };
    Ok(Some((key, cell)))
}

/// The bytes that hexadecimal digits say.
#[tactic(auto, unfolding(crate::specs::PartFiles::bytes_in))]
fn bytes_of(alloc: Global, text: &[u8]) -> Result<Option<Bytes>, Memory>
    ensures { IfOk result (λ bytes. bytes ≡ bytes_in text.now) }
{
    match hex::decode(alloc, text) {
        Ok(bytes) => Ok(Some(Bytes::from_vec(bytes))),
        Err(FromHexError::OutOfMemory) => Err(AllocError),
        Err(_) => Ok(None),
    }
}
