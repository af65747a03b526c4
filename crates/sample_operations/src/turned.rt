ghost use Rattle.bolt_ops.specs.RowOp.{IsCustom-reversed, reversed};

use bolt_ops::{RowOp, reversed_row};
use std::alloc::Global;
use storm_values::{Memory, Row, Rows};

/// Makes one row, of the values in reverse order, without a closure.
#[derive(Clone, Copy, Debug)]
pub struct Backwards;

impl RowOp for Backwards {
    ghost meaning = { λ _. reversed };

    ghost keeps = { λ _. IsCustom-reversed };

    fn rows(&self, alloc: Global, row: &Row) -> Result<Rows, Memory> {
        reversed_row(alloc, row)
    }

    fn one(&self, amount: i64) -> i128 {
        i128::from(amount)
    }

    fn combine(&self, _earlier: i128, later: i128) -> i128 {
        later
    }
}
