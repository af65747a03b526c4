ghost use Rattle.std.specs.Prelude.{◌≡◌, ℕ, ◌≤◌, List, Some, IsTrue, length};
ghost use Rattle.std.specs.Char.{is_ascii_digit};
ghost use Rattle.std.specs.List.{list_all};
ghost use Rattle.std.specs.Str.Parse.{digits_value};
ghost use Rattle.schedule_reader.specs.Limits.{most_digits};
ghost use Rattle.schedule_reader.specs.Schedules.{Says, number_after, number_of, event_of};
ghost use Rattle.schedule_reader.specs.declared.event.Event.{Event};

use crate::limits::{MOST_DIGITS, MOST_ROUNDS};
use storm_values::Seq;

/// A step of a schedule: a turn of a task, of an acker or of the coordinator, a tick, a partition
/// that is shut or opened, or so many rounds, in each of which all tasks, all ackers and the
/// coordinator have a turn. Tasks, ackers and partitions are numbered from 0.
#[derive(Clone, Copy, Debug, PartialEq, Eq)]
pub enum Event {
    Task(u32),
    Acker(u32),
    Coord,
    Tick,
    Shut(u32),
    Open(u32),
    Rounds(u32),
}

/// What a schedule lets happen, in order.
pub type Events = Seq<Event>;

/// The event that a line says, which comes without its byte 10.
#[tactic(auto, unfolding(crate::specs::Schedules::event_of))]
pub fn event_from_line(line: &[u8]) -> Option<Event>
    ensures { result ≡ event_of line.now }
{
    if let Some(task) = number_after(line, b"task ") {
        return Some(Event::Task(task));
    }
    if let Some(acker) = number_after(line, b"acker ") {
        return Some(Event::Acker(acker));
    }
    if line == b"coord".as_slice() {
        return Some(Event::Coord);
    }
    if line == b"tick".as_slice() {
        return Some(Event::Tick);
    }
    if let Some(partition) = number_after(line, b"shut ") {
        return Some(Event::Shut(partition));
    }
    if let Some(partition) = number_after(line, b"open ") {
        return Some(Event::Open(partition));
    }
    match number_after(line, b"rounds ") {
        Some(rounds) if rounds <= MOST_ROUNDS => Some(Event::Rounds(rounds)),
        _ => None,
    }
}

/// The number after a word that a line begins with.
fn number_after(line: &[u8], word: &[u8]) -> Option<u32>
    ensures { result ≡ number_after word.now line.now }
{
    number(line.strip_prefix(word)?)
}

/// The number that one to eight digits say; zeros may lead.
fn number(digits: &[u8]) -> Option<u32>
    ensures { result ≡ number_of digits.now }
{
    if digits.is_empty() || digits.len() > MOST_DIGITS || !are_digits(digits) {
        return None;
    }
    Some(digits_value(digits))
}

fn are_digits(bytes: &[u8]) -> bool
    ensures { result ≡ list_all is_ascii_digit bytes.now }
{
    bytes.iter().all(|byte| byte.is_ascii_digit())
}

fn digits_value(digits: &[u8]) -> u32
    requires few { length digits.now ≤ most_digits }
    requires digits { IsTrue (list_all is_ascii_digit digits.now) }
    ensures { result ≡ digits_value 10 digits.now }
{
    let mut value = 0;
    for digit in digits {
        value = 10 * value + u32::from(*digit - b'0');
    }
    value
}

/// A law: what a line says and the event that is read of it are the same.
pub fn lines_say_their_events()
    ensures read { (line : List ℕ) (event : Event) → Says line event
        → event_of line ≡ Some event }
    ensures said { (line : List ℕ) (event : Event) → event_of line ≡ Some event
        → Says line event }
{}
