ghost use Rattle.std.specs.Prelude.{◌≡◌, ◌≤◌, map, string_bytes, option_map, length, true, IfOk, IfSome, Some, option_and_then};
ghost use Rattle.std.specs.List.{list_all};
ghost use Rattle.std.specs.Char.{is_ascii_digit};
ghost use Rattle.clap.specs.Words.{first_of, found_of, rows_of, subcommand_rows_of};
ghost use Rattle.storm_words.specs.Commands.{command_of_words, IsWithin};
ghost use Rattle.storm_values.specs.Limits.{most_workers};
ghost use Rattle.storm_words.specs.Words.{is_word, digits_value, number_word, command, load, run, track, fold_over};
ghost use Rattle.storm_words.specs.steps.Reading.{read_of, text_of, workers_of};

use crate::parser::storm_parser;
use clap::ArgMatches;
use clap::error::ErrorKind;
use std::alloc::{AllocError, Global};
use storm_values::{MOST_WORKERS, Memory};

/// The line that refuses words.
pub const USAGE: &str = "usage: storm check T | plain T I | replay T I S | run T I [W] \
     | load N SEED | track T I [W] | fold T I [W]\n";

/// How many workers there are where the words do not say it.
const WORKERS: u32 = 4;

/// The most records of a load, and its greatest seed.
const MOST_LOAD: u32 = 10_000;

const MOST_SEED: u32 = 65_535;

/// A command, with the names of its files and its numbers.
#[derive(Drop)]
pub enum Command<'a> {
    Check {
        topology: &'a str,
    },
    Plain {
        topology: &'a str,
        input: &'a str,
    },
    Replay {
        topology: &'a str,
        input: &'a str,
        schedule: &'a str,
    },
    Run {
        topology: &'a str,
        input: &'a str,
        workers: u32,
    },
    Load {
        records: u32,
        seed: u32,
    },
    Track {
        topology: &'a str,
        input: &'a str,
        workers: u32,
    },
    Fold {
        topology: &'a str,
        input: &'a str,
        workers: u32,
    },
}

/// The command of some words, or none.
///
/// A parser is made anew for each call. Time is proportional to the words.
pub fn read_words(alloc: Global, words: &[String]) -> Result<Option<Command<'_>>, Memory>
    ensures command { IfOk result
        (λ found. option_map command_of_words found ≡ command (map string_bytes words.now)) }
    ensures range { IfOk result (λ found. IfSome found IsWithin) }
{
    if !are_words(words) {
        return Ok(None);
    }
    match storm_parser(alloc)?.try_get_matches_from(words) {
        Ok(matches) => Ok(command_in(&matches)),
        Err(error) if error.kind() == ErrorKind::OutOfMemory => Err(AllocError),
        Err(_) => Ok(None),
    }
}

/// The command that a parse came to.
fn command_in<'a>(matches: &ArgMatches<'a>) -> Option<Command<'a>>
    ensures command { option_map command_of_words result
        ≡ read_of (subcommand_rows_of matches.now) }
    ensures range { IfSome result IsWithin }
{
    let (name, given) = matches.subcommand()?;
    let topology = text(given, "topology");
    let input = text(given, "input");
    match name {
        "check" => Some(Command::Check { topology }),
        "plain" => Some(Command::Plain { topology, input }),
        "replay" => Some(Command::Replay {
            topology,
            input,
            schedule: text(given, "schedule"),
        }),
        "run" => run_of(topology, input, text_given(given, "workers")),
        "load" => load_of(text(given, "records"), text(given, "seed")),
        "track" => track_of(topology, input, text_given(given, "workers")),
        _ => fold_of(topology, input, text_given(given, "workers")),
    }
}

/// The text of an argument, empty where it has none.
fn text<'a>(given: &ArgMatches<'a>, id: &str) -> &'a str
    ensures { result.now ≡ text_of id.now (rows_of (found_of given.now)) }
{
    match text_given(given, id) {
        Some(text) => text,
        None => "",
    }
}

fn text_given<'a>(given: &ArgMatches<'a>, id: &str) -> Option<&'a str>
    ensures { option_map (λ s. s.now) result ≡ first_of id.now (rows_of (found_of given.now)) }
{
    given.get_str(id)
}

fn run_of<'a>(topology: &'a str, input: &'a str, workers: Option<&str>) -> Option<Command<'a>>
    ensures command { option_map command_of_words result ≡ option_and_then
        (λ w. Some (run topology.now input.now w))
        (workers_of (option_map (λ s. s.now) workers.entry)) }
    ensures range { IfSome result IsWithin }
{
    let workers = workers_of(workers)?;
    Some(Command::Run {
        topology,
        input,
        workers,
    })
}

fn track_of<'a>(topology: &'a str, input: &'a str, workers: Option<&str>) -> Option<Command<'a>>
    ensures command { option_map command_of_words result ≡ option_and_then
        (λ w. Some (track topology.now input.now w))
        (workers_of (option_map (λ s. s.now) workers.entry)) }
    ensures range { IfSome result IsWithin }
{
    let workers = workers_of(workers)?;
    Some(Command::Track {
        topology,
        input,
        workers,
    })
}

fn fold_of<'a>(topology: &'a str, input: &'a str, workers: Option<&str>) -> Option<Command<'a>>
    ensures command { option_map command_of_words result ≡ option_and_then
        (λ w. Some (fold_over topology.now input.now w))
        (workers_of (option_map (λ s. s.now) workers.entry)) }
    ensures range { IfSome result IsWithin }
{
    let workers = workers_of(workers)?;
    Some(Command::Fold {
        topology,
        input,
        workers,
    })
}

/// How many workers some words ask for.
fn workers_of(given: Option<&str>) -> Option<u32>
    ensures number { result ≡ workers_of (option_map (λ s. s.now) given.entry) }
    ensures range { IfSome result (λ workers. (1 ≤ workers) × (workers ≤ most_workers)) }
{
    match given {
        Some(word) => number_word(word, 1, MOST_WORKERS),
        None => Some(WORKERS),
    }
}

fn load_of<'a>(records: &str, seed: &str) -> Option<Command<'a>>
    ensures command { option_map command_of_words result ≡ option_and_then
        (λ n. option_and_then (λ s. Some (load n s)) (number_word 0 65535 seed.now))
        (number_word 1 10000 records.now) }
    ensures range { IfSome result IsWithin }
{
    let records = number_word(records, 1, MOST_LOAD)?;
    let seed = number_word(seed, 0, MOST_SEED)?;
    Some(Command::Load { records, seed })
}

fn are_words(words: &[String]) -> bool
    ensures { result ≡ list_all is_word (map string_bytes words.now) }
{
    for word in words {
        if !is_word(word.as_str()) {
            return false;
        }
    }
    true
}

/// A word is not empty and begins with no `-`, so no word is an option.
fn is_word(word: &str) -> bool
    ensures { result ≡ is_word word.now }
{
    match word.as_bytes().first() {
        Some(first) => *first != b'-',
        None => false,
    }
}

/// A number of one to five digits within its range; zeros may lead.
fn number_word(word: &str, least: u32, most: u32) -> Option<u32>
    ensures number { result ≡ number_word least most word.now }
    ensures range { IfSome result (λ number. (least ≤ number) × (number ≤ most)) }
{
    let digits = word.as_bytes();
    if digits.is_empty() || digits.len() > 5 || !are_digits(digits) {
        return None;
    }
    let number = digits_value(digits);
    if least <= number && number <= most {
        Some(number)
    } else {
        None
    }
}

fn are_digits(bytes: &[u8]) -> bool
    ensures { result ≡ list_all is_ascii_digit bytes.now }
{
    bytes.iter().all(|byte| byte.is_ascii_digit())
}

fn digits_value(digits: &[u8]) -> u32
    requires few { length digits.now ≤ 5 }
    requires digits { list_all is_ascii_digit digits.now ≡ true }
    ensures { result ≡ digits_value digits.now }
{
    let mut value = 0;
    for digit in digits {
        value = 10 * value + u32::from(*digit - b'0');
    }
    value
}
