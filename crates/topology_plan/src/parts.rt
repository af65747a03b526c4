//! What a topology is made of: bolts and states, and who takes whose rows.

ghost use Rattle.std.specs.Prelude.{◌≡◌};
ghost use Rattle.topology_plan.specs.Functions.{first_field};

use crate::function::Function;
use storm_values::{Indexes, Names, Txt};

/// How a spout replays, or how a state keeps its values.
#[derive(Clone, Copy, Debug, PartialEq, Eq)]
pub enum Kind {
    Transactional,
    Opaque,
}

/// What a state makes of the amounts of a key.
#[derive(Clone, Copy, Debug, PartialEq, Eq)]
pub enum Fold {
    Count,
    Sum,
    Last,
    Max,
    /// What the user-supplied operation combines. No topology file has it yet.
    Custom,
}

/// A source of rows, by its component number where it is a bolt.
#[derive(Clone, Copy, Debug, PartialEq, Eq)]
pub enum Origin {
    Spout,
    Component(u32),
}

/// Which of the consumer's tasks a row goes to. Fields are numbers in the source's row, counted
/// from 0.
#[derive(Debug, Drop)]
pub enum Grouping {
    /// Round the tasks in turn. `none` and `local_or_shuffle` are this too.
    Shuffle,
    Fields(Indexes),
    All,
    Global,
    Direct(u32),
}

/// A subscription: a consumer of a source's rows.
#[derive(Debug, Drop)]
pub struct Sub {
    /// The consumer's component number.
    pub to: u32,
    pub grouping: Grouping,
}

/// What a bolt does to a row.
#[derive(Debug, Drop)]
pub struct Op {
    /// The fields that it reads, by their numbers in its input row, counted from 0.
    pub reads: Indexes,
    pub function: Function,
}

impl Op {
    /// The first field that it reads.
    pub fn field(&self) -> u32
        ensures { result ≡ first_field self.now.reads }
    {
        match self.reads.as_slice().first() {
            Some(field) => *field,
            None => 0,
        }
    }
}

/// What a state keeps: the fold of an amount for each key.
#[derive(Debug, Drop)]
pub struct StateSpec {
    pub kind: Kind,
    pub key: Indexes,
    /// The field of the amount, which `Count` does not have.
    pub amount: Option<u32>,
    pub fold: Fold,
}

#[derive(Debug, Drop)]
pub enum Body {
    Bolt(Op),
    State(StateSpec),
}

/// A bolt or a state. A state's tasks are its parts, and it has no fields.
#[derive(Debug, Drop)]
pub struct Component {
    pub name: Txt,
    /// Tasks are numbered through the components, from 0.
    pub first_task: u32,
    pub tasks: u32,
    pub fields: Names,
    pub body: Body,
}
