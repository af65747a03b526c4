//! What operations do with the fields that they read. An operation is a variant of [`Function`], its
//! shape, and what its constants have to be.

ghost use Rattle.std.specs.Prelude.{◌≡◌};
ghost use Rattle.topology_plan.specs.Functions.{reading, shape, trying};

use storm_values::{Duplicate, MOST_FIELDS, Memory, Value};

#[derive(Clone, Copy, Debug, PartialEq, Eq)]
pub enum Test {
    Eq,
    Ne,
    Lt,
}

/// What an operation does with the fields that it reads.
#[derive(Debug, Drop)]
pub enum Function {
    Split,
    Project,
    Filter { test: Test, value: Value },
    Set { value: Value },
    Len,
    Route,
    Flaky { below: u32 },
    Mute { below: u32 },
    Custom,
}

/// Which fields the rows have that an operation makes.
#[derive(Clone, Copy)]
pub enum Leaves {
    /// Those that came.
    Same,
    /// Those that it reads, in their order.
    Read,
    /// One field that it makes.
    Made,
    /// Those that came, and then one that it makes.
    More,
}

/// What comes of the attempts at a row. They are counted from 1.
#[derive(Clone, Copy)]
pub enum Attempts {
    MakeRows,
    /// Each one below this number fails.
    FailBelow(u32),
    /// Nothing is answered at each one below this number.
    MuteBelow(u32),
}

/// All of an operation that does not depend on the values in its rows.
#[derive(Clone, Copy)]
pub struct Shape {
    /// How many fields it reads at least.
    pub least: u32,
    /// How many fields it reads at most.
    pub most: u32,
    pub leaves: Leaves,
    /// Whether a field that it reads chooses the task of each row.
    pub chooses: bool,
    pub attempts: Attempts,
}

impl Function {
    pub fn shape(&self) -> Shape
        ensures { result ≡ shape self.now }
    {
        match self {
            Function::Split => reading(1, 1, Leaves::Made),
            Function::Project => reading(1, MOST_FIELDS, Leaves::Read),
            Function::Filter { .. } => reading(1, 1, Leaves::Same),
            Function::Set { .. } => reading(1, 1, Leaves::Same),
            Function::Len => reading(1, 1, Leaves::More),
            Function::Route => Shape {
                chooses: true,
                ..reading(1, 1, Leaves::Same)
            },
            Function::Flaky { below } => trying(Attempts::FailBelow(*below)),
            Function::Mute { below } => trying(Attempts::MuteBelow(*below)),
            Function::Custom => reading(0, 0, Leaves::Same),
        }
    }
}

impl Duplicate for Function {
    fn copy(&self) -> Result<Function, Memory> {
        match self {
            Function::Split => Ok(Function::Split),
            Function::Project => Ok(Function::Project),
            Function::Filter { test, value } => Ok(Function::Filter {
                test: *test,
                value: value.copy()?,
            }),
            Function::Set { value } => Ok(Function::Set {
                value: value.copy()?,
            }),
            Function::Len => Ok(Function::Len),
            Function::Route => Ok(Function::Route),
            Function::Flaky { below } => Ok(Function::Flaky { below: *below }),
            Function::Mute { below } => Ok(Function::Mute { below: *below }),
            Function::Custom => Ok(Function::Custom),
        }
    }
}

/// Of an operation that makes rows at each attempt.
fn reading(least: u32, most: u32, leaves: Leaves) -> Shape
    ensures { result ≡ reading least most leaves }
{
    Shape {
        least,
        most,
        leaves,
        chooses: false,
        attempts: Attempts::MakeRows,
    }
}

/// Of an operation that reads no field, and leaves each row as it is.
fn trying(attempts: Attempts) -> Shape
    ensures { result ≡ trying attempts }
{
    Shape {
        attempts,
        ..reading(0, 0, Leaves::Same)
    }
}
