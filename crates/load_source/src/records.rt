ghost use Rattle.std.specs.Prelude.{◌≡◌, ◌≤◌, ◌<◌, ◌++◌, IfOk, OnOk, string_bytes};
ghost use Rattle.load_source.specs.Records.{more_words, next_number, number_after, records_after, sentence_after, word_of};

use std::alloc::Global;
use std::fmt::Write;
use storm_values::{Memory, Row, Rows, Txt, Value};

/// The words of a record after its first.
const FURTHER: u32 = 5;

/// Records of one text of six words, as many as are asked for, which a seed determines.
#[tactic(auto, using(crate::proofs::Steps::one_record, crate::proofs::Steps::no_record))]
pub fn load_records(alloc: Global, count: u32, seed: u32) -> Result<Rows, Memory>
    requires { seed < 65537 }
    ensures { IfOk result (λ rows. rows ≡ records_after count seed) }
{
    let mut rows = Rows::new(alloc);
    let mut number = seed;
    for _ in 0..count {
        let (text, last) = sentence(alloc, number)?;
        number = last;
        let row = Row::one(alloc, Value::Text(Txt::from_string(text)));
        rows.push(row)?;
    }
    Ok(rows)
}

/// The six words after a number, and the number of the last.
#[tactic(auto, using(crate::proofs::Steps::one_word, crate::proofs::Steps::no_word, crate::proofs::Steps::one_number, crate::proofs::Steps::no_number))]
fn sentence(alloc: Global, number: u32) -> Result<(String, u32), Memory>
    requires { number < 65537 }
    ensures text { IfOk result (λ made. string_bytes made.0 ≡ sentence_after number) }
    ensures last { IfOk result (λ made. made.1 ≡ number_after 6 number) }
    ensures small { IfOk result (λ made. made.1 < 65537) }
{
    let mut text = String::new(alloc);
    let mut last = next(number);
    push_word(&mut text, last)?;
    for _ in 0..FURTHER {
        text.push_str(" ")?;
        last = next(last);
        push_word(&mut text, last)?;
    }
    Ok((text, last))
}

fn push_word(text: &mut String, number: u32) -> Result<(), Memory>
    ensures { OnOk result (string_bytes text.new ≡ string_bytes text.old ++ word_of number) }
{
    let word = number % 50;
    write!(text, "w{word}")?;
    Ok(())
}

fn next(number: u32) -> u32
    requires { number < 65537 }
    ensures value { result ≡ next_number number }
    ensures small { result < 65537 }
{
    (75 * number + 74) % 65537
}
