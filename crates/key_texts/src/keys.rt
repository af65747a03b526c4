ghost use Rattle.std.specs.Prelude.{◌≡◌, ◌↔◌, ◌==◌, ℕ, List, IsTrue, true, IfOk, IfSome, not};
ghost use Rattle.std.specs.List.{AllByRecursion, list_all};
ghost use Rattle.serde_json.specs.View.{view, items_view};
ghost use Rattle.storm_values.specs.declared.value.Value.{Value as SpecValue};
ghost use Rattle.storm_values.specs.Json.{value_of};
ghost use Rattle.storm_values.specs.Keys.{text_of};
ghost use Rattle.key_texts.specs.KeyTexts.{AreKeyValues, IsKey, IsKeyText, IsKeyValue, all_values, values_in};

use serde_json::Value as Json;
use std::alloc::{AllocError, Global};
use storm_values::{MOST_FIELDS, Memory, Row, Txt, Value, key_text};

/// Whether some bytes are the text of a key: they are read as JSON, and what was read is written
/// again. It takes time linear in their length.
pub fn is_key_text(alloc: Global, text: &[u8]) -> Result<bool, Memory>
    ensures { IfOk result (λ is. IsTrue is ↔ IsKeyText text.now) }
{
    let Some(key) = values_from(alloc, text)? else {
        return Ok(false);
    };
    let count = key.len();
    if count == 0 || count > MOST_FIELDS as usize {
        return Ok(false);
    }
    is_text_of(alloc, key.as_slice(), text)
}

/// Whether a text is that of these values.
fn is_text_of(alloc: Global, key: &[Value], text: &[u8]) -> Result<bool, Memory>
    ensures { IfOk result (λ is. IsTrue is ↔ (text.now ≡ text_of key.now)) }
{
    let written = key_text(alloc, key)?;
    Ok(text == written.as_bytes())
}

/// The values of the array that a text is.
fn values_from(alloc: Global, text: &[u8]) -> Result<Option<Row>, Memory>
    ensures values { IfOk result (λ read. read ≡ values_in text.now) }
    ensures each { IfOk result (λ read. IfSome read AreKeyValues) }
{
    match Json::from_slice(alloc, text) {
        Ok(json) => match json {
            Json::Array(items) => values_of_items(alloc, items),
            _other => Ok(None),
        },
        Err(error) if error.is_memory() => Err(AllocError),
        Err(_) => Ok(None),
    }
}

/// The values of the items, if all of them are values. Their texts are moved.
fn values_of_items(alloc: Global, items: Vec<Json>) -> Result<Option<Row>, Memory>
    ensures values { IfOk result (λ read. read ≡ all_values (items_view items.items)) }
    ensures each { IfOk result (λ read. IfSome read AreKeyValues) }
{
    let mut row = Row::new(alloc);
    for item in items {
        let Some(value) = value_from_item(item) else {
            return Ok(None);
        };
        row.push(value)?;
    }
    Ok(Some(row))
}

fn value_from_item(item: Json) -> Option<Value>
    ensures value { result ≡ value_of (view item) }
    ensures each { IfSome result IsKeyValue }
{
    match item {
        Json::Number(number) => number.as_i64().map(Value::Int),
        Json::String(text) => Some(Value::Text(Txt::from_string(text))),
        _ => None,
    }
}

/// A law: the text of a key is one line.
pub fn key_texts_are_one_line()
    ensures { (text : List ℕ) → IsKeyText text
        → list_all (λ byte. not (byte == 10)) text ≡ true }
{}

/// A law: keys with one text are one key.
pub fn keys_have_texts_of_their_own()
    ensures { (key other : List SpecValue) → IsKey key → IsKey other
        → text_of key ≡ text_of other → key ≡ other }
{}
