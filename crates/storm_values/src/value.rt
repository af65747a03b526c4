ghost use Rattle.std.specs.Prelude.{◌≡◌};
ghost use Rattle.std.specs.Cmp.{IsTotalOrder};
ghost use Rattle.storm_values.specs.Order.{value_cmp};

use crate::few::Few;
use crate::list::{Duplicate, Memory, Seq};
use crate::text::Txt;
use std::cmp::Ordering;

/// A value of a field. Every number stands before every text.
#[derive(Debug, Drop)]
pub enum Value {
    Int(i64),
    Text(Txt),
}

impl Value {
    /// Which of the two stands first.
    pub fn compare(&self, other: &Value) -> Ordering
        ensures { result ≡ value_cmp self.now other.now }
    {
        match (self, other) {
            (Value::Int(a), Value::Int(b)) => a.cmp(b),
            (Value::Int(_), Value::Text(_)) => Ordering::Less,
            (Value::Text(_), Value::Int(_)) => Ordering::Greater,
            (Value::Text(a), Value::Text(b)) => a.as_bytes().cmp(b.as_bytes()),
        }
    }
}

/// A law: `compare` answers a total order.
pub fn value_order_is_total()
    ensures { IsTotalOrder value_cmp }
{}

/// The values of a record or a tuple.
pub type Row = Few<Value>;

pub type Rows = Seq<Row>;

/// Names of fields.
pub type Names = Seq<Txt>;

/// One attempt of one batch.
#[derive(Clone, Copy, Debug, PartialEq, Eq, Hash)]
pub struct Root {
    pub txid: u64,
    pub attempt: u32,
}

impl Duplicate for Value {
    fn copy(&self) -> Result<Value, Memory> {
        match self {
            Value::Int(number) => Ok(Value::Int(*number)),
            Value::Text(text) => Ok(Value::Text(text.copy()?)),
        }
    }
}
