ghost use Rattle.sample_operations.specs.First.{IsCustom-first, first};

use bolt_ops::{RowOp, reversed_row};
use std::alloc::Global;
use storm_values::{Memory, Row, Rows};

/// Makes one row, of the values in reverse order; a custom fold keeps the first amount. What it
/// combines does not commute, so an order that is turned round shows.
#[derive(Clone, Copy, Debug)]
pub struct First;

impl RowOp for First {
    ghost meaning = { λ _. first };

    ghost keeps = { λ _. IsCustom-first };

    fn rows(&self, alloc: Global, row: &Row) -> Result<Rows, Memory> {
        reversed_row(alloc, row)
    }

    fn one(&self, amount: i64) -> i128 {
        i128::from(amount)
    }

    fn combine(&self, earlier: i128, _later: i128) -> i128 {
        earlier
    }
}
