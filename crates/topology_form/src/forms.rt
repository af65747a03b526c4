//! The forms of members: what a value says, if it is of its form. Texts are moved.

ghost use Rattle.std.specs.Prelude.{◌≡◌, ◌≢◌, ℕ, List, pos, Result, Ok};
ghost use Rattle.std.specs.List.{list_all};
ghost use Rattle.topology_form.specs.Prelude.{Data, view, items_view, as_str, is_name, is_name_byte, TopoFault, WrongKind, Memory, items_len};
ghost use Rattle.topology_form.specs.Reading.{Gives, Checks, of_kind, a_number, a_name, a_word, some_names, some_objects, a_constant, each, found_in, range_fault, pairs_of};

use crate::fault::TopoFault;
use serde_json::Value as Json;
use std::alloc::Global;
use storm_values::{MOST_CONSTANT_BYTES, MOST_NAME_BYTES, Names, Seq, Txt, Value};

/// A form of a member's value, and what is read from it.
pub trait Form<T: Drop> {
    ghost form: { Self → List ℕ → Data → Result T TopoFault };

    fn read(&self, alloc: Global, name: &str, value: Json) -> Result<T, TopoFault>
        ensures { Gives result (form self.now name.now (view value)) };
}

pub(crate) fn wrong_kind(alloc: Global, name: &str) -> TopoFault
    ensures { result ≢ Memory → result ≡ WrongKind name.now }
{
    match Txt::from_str(alloc, name) {
        Ok(name) => TopoFault::WrongKind(name),
        Err(_) => TopoFault::Memory,
    }
}

/// Checks that a number or a length is in its range.
pub fn within(alloc: Global, name: &str, found: i64, least: u32, most: u32) -> Result<(), TopoFault>
    ensures { Checks result (range_fault name.now least most found) }
{
    if i64::from(least) <= found && found <= i64::from(most) {
        return Ok(());
    }
    let name = Txt::from_str(alloc, name)?;
    Err(TopoFault::OutOfRange(name, found, least, most))
}

/// A number from the least to the most.
pub struct Number(pub u32, pub u32);

impl Form<u32> for Number {
    ghost form = { λ number. a_number number.0 number.1 };

    fn read(&self, alloc: Global, name: &str, value: Json) -> Result<u32, TopoFault> {
        let Some(found) = value.as_i64() else {
            return Err(wrong_kind(alloc, name));
        };
        within(alloc, name, found, self.0, self.1)?;
        Ok(found as u32)
    }
}

pub struct Name;

impl Form<Txt> for Name {
    ghost form = { λ _. a_name };

    fn read(&self, alloc: Global, name: &str, value: Json) -> Result<Txt, TopoFault> {
        let text = text_from(alloc, name, value)?;
        if is_name(text.as_bytes()) {
            Ok(text)
        } else {
            Err(wrong_kind(alloc, name))
        }
    }
}

fn text_from(alloc: Global, name: &str, value: Json) -> Result<Txt, TopoFault>
    ensures { Gives result (of_kind name.now (as_str (view value)) Ok) }
{
    match value {
        Json::String(text) => Ok(Txt::from_string(text)),
        _ => Err(wrong_kind(alloc, name)),
    }
}

/// Whether it is 1 to 32 bytes of `a` to `z`, `0` to `9`, `_` and `-` that begin with a letter.
fn is_name(bytes: &[u8]) -> bool
    ensures { result ≡ is_name bytes.now }
{
    (1..=MOST_NAME_BYTES).contains(&bytes.len())
        && matches!(bytes.first(), Some(b'a'..=b'z'))
        && all_name_bytes(bytes)
}

fn all_name_bytes(bytes: &[u8]) -> bool
    ensures { result ≡ list_all is_name_byte bytes.now }
{
    bytes.iter().all(|byte| is_name_byte(*byte))
}

fn is_name_byte(byte: u8) -> bool
    ensures { result ≡ is_name_byte byte }
{
    matches!(byte, b'a'..=b'z' | b'0'..=b'9' | b'_' | b'-')
}

/// Names, this many at least and at most.
pub struct SomeNames(pub u32, pub u32);

impl Form<Names> for SomeNames {
    ghost form = { λ names. some_names names.0 names.1 };

    fn read(&self, alloc: Global, name: &str, value: Json) -> Result<Names, TopoFault> {
        let Json::Array(items) = value else {
            return Err(wrong_kind(alloc, name));
        };
        let names = each(alloc, name, &Name, items)?;
        within(alloc, name, names.len() as i64, self.0, self.1)?;
        Ok(names)
    }
}

fn each<T: Drop, F: Form<T>>(
    alloc: Global,
    name: &str,
    form: &F,
    items: Vec<Json>,
) -> Result<Seq<T>, TopoFault>
    ensures { Gives result (each (F.form form.now) name.now (items_view items.items)) }
{
    let mut read = Seq::new(alloc);
    for item in items {
        read.push(form.read(alloc, name, item)?)?;
    }
    Ok(read)
}

/// Objects of a form, this many at least and at most.
pub struct SomeObjects<F>(pub u32, pub u32, pub F);

impl<F> SomeObjects<F> {
    fn check_count(&self, alloc: Global, name: &str, items: &Vec<Json>) -> Result<(), TopoFault>
        ensures { Checks result (range_fault name.now self.now.0 self.now.1
            (pos (items_len (items_view items.now.items)))) }
    {
        within(alloc, name, items.len() as i64, self.0, self.1)
    }
}

impl<T: Drop, F: Form<T>> Form<Seq<T>> for SomeObjects<F> {
    ghost form = { λ objects. some_objects objects.0 objects.1 (F.form objects.2) };

    fn read(&self, alloc: Global, name: &str, value: Json) -> Result<Seq<T>, TopoFault> {
        let Json::Array(items) = value else {
            return Err(wrong_kind(alloc, name));
        };
        self.check_count(alloc, name, &items)?;
        each(alloc, name, &self.2, items)
    }
}

/// A number, or a text that is not too long.
pub struct Constant;

impl Form<Value> for Constant {
    ghost form = { λ _. a_constant };

    fn read(&self, alloc: Global, name: &str, value: Json) -> Result<Value, TopoFault> {
        match value {
            Json::Number(number) => match number.as_i64() {
                Some(found) => Ok(Value::Int(found)),
                None => Err(wrong_kind(alloc, name)),
            },
            Json::String(text) => {
                within(alloc, name, text.len() as i64, 0, MOST_CONSTANT_BYTES)?;
                Ok(Value::Text(Txt::from_string(text)))
            }
            _ => Err(wrong_kind(alloc, name)),
        }
    }
}

/// One of the words of a table.
pub struct Word<'w, T>(pub &'w [(&'w str, T)]);

impl<'w, T: Copy> Form<T> for Word<'w, T> {
    ghost form = { λ word. a_word (pairs_of word.0.now) };

    fn read(&self, alloc: Global, name: &str, value: Json) -> Result<T, TopoFault> {
        found_in(self.0, text_from(alloc, name, value)?)
    }
}

fn found_in<T: Copy>(words: &[(&str, T)], word: Txt) -> Result<T, TopoFault>
    ensures { Gives result (found_in (pairs_of words.now) word) }
{
    for (other, meaning) in words {
        if word.as_str() == *other {
            return Ok(*meaning);
        }
    }
    Err(TopoFault::UnknownName(word))
}
