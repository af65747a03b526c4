ghost use Rattle.std.specs.Prelude.{◌≡◌, List, ◌∷◌, ◌++◌, [], fold, map, slice_get, false, option_copied, string_bytes, IfOk, IfSome, OnOk};
ghost use Rattle.json.specs.Print.{escape_byte};
ghost use Rattle.json.specs.Token.{begin_array};
ghost use Rattle.storm_values.specs.declared.value.Value.{Value as SpecValue};
ghost use Rattle.storm_values.specs.Keys.{value_bytes, fnv_step, hash_of, text_of, quoted, token_of};
ghost use Rattle.storm_values.specs.Rows.{values_in};
ghost use Rattle.storm_values.specs.steps.Hashing.{hash_more};

use crate::list::Memory;
use crate::text::Txt;
use crate::value::Value;
use itoa::Buffer;
use json::Writer;
use std::alloc::Global;
use std::mem;

/// Where a hash begins.
const OFFSET: u64 = 14_695_981_039_346_656_037;

/// What each step of a hash multiplies by.
const MULTIPLIER: u64 = 1_099_511_628_211;

/// The byte between two values.
const SEPARATOR: u8 = 0x1F;

/// The room for a key's text that is asked for at once, in bytes.
const KEY_ROOM: usize = 32;

/// FNV-1a of 64 bits over the key's bytes, in their order. It takes no memory.
pub fn key_hash(key: &[Value]) -> u64
    ensures { result ≡ hash_of key.now }
{
    let mut hash = OFFSET;
    for (place, value) in key.iter().enumerate() {
        hash = mix_next(hash, place, value);
    }
    hash
}

/// The hash of the key that some fields of a row are. It takes no memory.
pub fn key_hash_in(row: &[Value], fields: &[u32]) -> u64
    ensures { result ≡ hash_of (values_in row.now fields.now) }
{
    let mut hash = OFFSET;
    let mut place = 0;
    for field in fields {
        if let Some(value) = value_at(row, *field) {
            hash = mix_next(hash, place, value);
            place += 1;
        }
    }
    hash
}

/// The value of a field, if the row has the field.
fn value_at(row: &[Value], field: u32) -> Option<&Value>
    ensures { option_copied result ≡ slice_get row.now field }
{
    row.get(field as usize)
}

/// The hash with the value at a place of the key, which the byte between two values
/// parts from the one before.
fn mix_next(hash: u64, place: usize, value: &Value) -> u64
    ensures { result ≡ hash_more hash place value.now }
{
    if place == 0 {
        mix_value(hash, value)
    } else {
        mix_value(mix(hash, &[SEPARATOR]), value)
    }
}

fn mix_value(hash: u64, value: &Value) -> u64
    ensures { result ≡ fold fnv_step hash (value_bytes value.now) }
{
    match value {
        Value::Int(number) => mix(hash, Buffer::new().format(*number).as_bytes()),
        Value::Text(text) => mix(hash, text.as_bytes()),
    }
}

fn mix(hash: u64, bytes: &[u8]) -> u64
    ensures { result ≡ fold fnv_step hash bytes.now }
{
    let mut mixed = hash;
    for byte in bytes {
        mixed = (mixed ^ u64::from(*byte)).wrapping_mul(MULTIPLIER);
    }
    mixed
}

/// The compact JSON text of the array of the key's values, in time linear in its length.
pub fn key_text(alloc: Global, key: &[Value]) -> Result<Txt, Memory>
    ensures { IfOk result (λ text. text ≡ text_of key.now) }
{
    let mut writer = Writer::new(Vec::with_capacity(alloc, KEY_ROOM)?);
    writer.begin_array()?;
    for value in key {
        put_value(&mut writer, value)?;
    }
    let text = closed_text(writer)?;
    Ok(Txt::from_string(text))
}

/// The text of the key that some fields of a row are. It is written over what `room` holds, so that
/// one buffer serves many keys, and a short key takes no memory. No value is copied on the way.
pub fn key_text_in(
    alloc: Global,
    room: &mut String,
    row: &[Value],
    fields: &[u32],
) -> Result<Txt, Memory>
    ensures { IfOk result (λ text. text ≡ text_of (values_in row.now fields.now)) }
{
    match plain_key(row, fields) {
        Some(text) => put_quoted(room, text)?,
        None => {
            let used = mem::replace(room, String::new(alloc));
            *room = key_string(used.into_bytes(), row, fields)?;
        }
    }
    Txt::from_str(alloc, room.as_str())
}

/// The text that is the whole key, where it is one and nothing in it is escaped, as in most keys.
/// The key's JSON text has it between brackets and quotation marks ([`quoted_key`]).
pub fn plain_key<'r>(row: &'r [Value], fields: &[u32]) -> Option<&'r Txt>
    ensures { IfSome result (λ text. text_of (values_in row.now fields.now) ≡ quoted text.now) }
{
    match only_text(row, fields) {
        Some(text) => plain(text),
        None => None,
    }
}

/// The text that is the whole key, where it is one.
fn only_text<'r>(row: &'r [Value], fields: &[u32]) -> Option<&'r Txt>
    ensures { IfSome result
        (λ text. values_in row.now fields.now ≡ SpecValue.Text text.now ∷ []) }
{
    if fields.len() != 1 {
        return None;
    }
    match value_at(row, fields[0]) {
        Some(Value::Text(text)) => Some(text),
        _ => None,
    }
}

/// A text in which nothing is escaped.
fn plain(text: &Txt) -> Option<&Txt>
    ensures { IfSome result (λ same. text_of (SpecValue.Text text.now ∷ []) ≡ quoted same.now) }
{
    for byte in text.as_bytes() {
        if is_escaped(*byte) {
            return None;
        }
    }
    Some(text)
}

fn is_escaped(byte: u8) -> bool
    ensures { result ≡ false → escape_byte byte ≡ byte ∷ [] }
{
    byte < b' ' || byte == b'"' || byte == b'\\'
}

/// A text between brackets and quotation marks, written over what `room` holds first.
pub fn quoted_key(alloc: Global, room: &mut String, text: &Txt) -> Result<Txt, Memory>
    ensures { IfOk result (λ key. key ≡ quoted text.now) }
{
    put_quoted(room, text)?;
    Txt::from_str(alloc, room.as_str())
}

fn put_quoted(room: &mut String, text: &Txt) -> Result<(), Memory>
    ensures { OnOk result (string_bytes room.new ≡ quoted text.now) }
{
    room.clear();
    room.push_str("[\"")?;
    room.push_str(text.as_str())?;
    room.push_str("\"]")?;
    Ok(())
}

/// The text of the key that some fields of a row are, written over what `room` holds.
fn key_string(mut room: Vec<u8>, row: &[Value], fields: &[u32]) -> Result<String, Memory>
    ensures { IfOk result
        (λ text. string_bytes text ≡ text_of (values_in row.now fields.now)) }
{
    room.clear();
    let mut writer = Writer::new(room);
    writer.begin_array()?;
    for field in fields {
        if let Some(value) = value_at(row, *field) {
            put_value(&mut writer, value)?;
        }
    }
    closed_text(writer)
}

fn put_value(writer: &mut Writer, value: &Value) -> Result<(), Memory>
    ensures before { writer.new.before ≡ writer.old.before }
    ensures tokens { OnOk result
        (writer.new.tokens ≡ writer.old.tokens ++ token_of value.now ∷ []) }
{
    match value {
        Value::Int(number) => writer.i64(*number),
        Value::Text(text) => writer.string(text.as_str()),
    }
}

/// The text of an array whose values were written.
fn closed_text(mut writer: Writer) -> Result<String, Memory>
    requires { writer.before ≡ [] }
    ensures { IfOk result (λ text. (key : List SpecValue)
        → writer.tokens ≡ begin_array ∷ map token_of key → string_bytes text ≡ text_of key) }
{
    writer.end_array()?;
    match String::from_utf8(writer.into_inner()) {
        Ok(text) => Ok(text),
        Err(_) => unreachable!(),
    }
}
