ghost use Rattle.std.specs.Prelude.{◌≡◌, ◌∷◌, [], reverse, IfOk};
ghost use Rattle.bolt_ops.specs.RowOp.{IsCustom-reversed, reversed_rows};

use crate::stored::RowLaw;
use std::alloc::Global;
use storm_values::{Duplicate, Memory, Row, Rows};

/// A law: one row, of the values in reverse order.
pub struct Reverse;

impl RowLaw for Reverse {
    ghost law = { reversed_rows };

    ghost keeps = { IsCustom-reversed };
}

/// One row, of the values of a row in reverse order.
pub fn reversed_row(alloc: Global, row: &Row) -> Result<Rows, Memory>
    ensures { IfOk result (λ rows. rows ≡ reverse row.now ∷ []) }
{
    let mut made = Row::new(alloc);
    for value in row.as_slice().iter().rev() {
        made.push(value.copy()?)?;
    }
    let mut rows = Rows::new(alloc);
    rows.push(made)?;
    Ok(rows)
}
