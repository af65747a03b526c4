ghost use Rattle.std.specs.Prelude.{◌≡◌, ◌≤◌, ◌<◌, slice_get, option_copied, IfOk};
ghost use Rattle.groupings.specs.Allowed.{IsLane};
ghost use Rattle.groupings.specs.Routing.{chosen, moved, targets};

use storm_values::{Duplicate, Memory, Row, Value, key_hash, key_hash_in};
use topology_plan::Grouping;

/// Where a row goes, by numbers of tasks.
#[derive(Clone, Copy, Debug, PartialEq, Eq)]
pub enum Targets {
    One(u32),
    All { first: u32, count: u32 },
}

/// How the rows of one subscription go to the consumer's tasks.
#[derive(Debug, Drop)]
pub struct Lane {
    /// The consumer's first task.
    pub first: u32,
    /// How many tasks it has.
    pub tasks: u32,
    pub by: Grouping,
    /// The task that a shuffle chooses next, counted from the first.
    pub turn: u32,
}

impl Lane {
    /// Where a row goes, whereupon a shuffle goes on to the next task. It takes no memory.
    pub fn route(&mut self, row: &Row) -> Targets
        requires { IsLane self.old }
        ensures target { result ≡ targets self.old row.now }
        ensures moved { self.new ≡ moved self.old }
        ensures lane { IsLane self.new }
    {
        let (first, tasks) = (self.first, self.tasks);
        match &self.by {
            Grouping::Shuffle => {
                let turn = self.turn;
                self.turn = (turn + 1) % tasks;
                Targets::One(first + turn)
            }
            Grouping::Fields(key) => {
                let hash = key_hash_in(row.as_slice(), key.as_slice());
                Targets::One(first + (hash % u64::from(tasks)) as u32)
            }
            Grouping::All => Targets::All {
                first,
                count: tasks,
            },
            Grouping::Global => Targets::One(first),
            Grouping::Direct(field) => Targets::One(first + choice(row, *field, tasks)),
        }
    }
}

/// The task among some that a row's field chooses.
fn choice(row: &Row, field: u32, tasks: u32) -> u32
    requires { 1 ≤ tasks }
    ensures value { result ≡ chosen (slice_get row.now field) tasks }
    ensures within { result < tasks }
{
    match value_at(row, field) {
        Some(Value::Int(number)) => number.rem_euclid(i64::from(tasks)) as u32,
        Some(text) => (key_hash(std::slice::from_ref(text)) % u64::from(tasks)) as u32,
        None => 0,
    }
}

fn value_at(row: &Row, field: u32) -> Option<&Value>
    ensures { option_copied result ≡ slice_get row.now field }
{
    row.as_slice().get(field as usize)
}

/// An equal grouping.
pub(crate) fn copied(grouping: &Grouping) -> Result<Grouping, Memory>
    ensures { IfOk result (λ made. made ≡ grouping.now) }
{
    match grouping {
        Grouping::Shuffle => Ok(Grouping::Shuffle),
        Grouping::Fields(key) => Ok(Grouping::Fields(key.copy()?)),
        Grouping::All => Ok(Grouping::All),
        Grouping::Global => Ok(Grouping::Global),
        Grouping::Direct(field) => Ok(Grouping::Direct(*field)),
    }
}
