ghost use Rattle.std.specs.Prelude.{◌≡◌, All, IfOk};
ghost use Rattle.storm_values.specs.Rows.{IsShort};
ghost use Rattle.bolt_ops.specs.RowOp.{Custom, IsCustom};

use std::alloc::Global;
use storm_values::{Memory, Row, Rows};

/// An operation of the user's own: what it makes of rows within limits, and how a custom fold
/// combines amounts. Each answer depends on the operation and the arguments alone.
pub trait RowOp: Sync {
    ghost meaning: { Self → Custom };

    ghost keeps: { (op : Self) → IsCustom (meaning op) };

    /// At most 16 rows, each within limits and with as many values as the row.
    fn rows(&self, alloc: Global, row: &Row) -> Result<Rows, Memory>
        requires { All IsShort row.now }
        ensures { IfOk result (λ rows. rows ≡ (meaning self.now).rows row.now) };

    /// The value that a custom fold makes of one amount.
    fn one(&self, amount: i64) -> i128
        ensures { result ≡ (meaning self.now).one amount };

    /// The value that a custom fold makes of two, of which the first comes from earlier amounts.
    fn combine(&self, earlier: i128, later: i128) -> i128
        ensures { result ≡ (meaning self.now).combine earlier later };
}
