ghost use Rattle.std.specs.Prelude.{◌≡◌, replicate, IfOk};
ghost use Rattle.sample_operations.specs.Copies.{IsCustom-none, IsCustom-sixteen};

use bolt_ops::RowLaw;
use std::alloc::Global;
use storm_values::{Duplicate, Memory, Row, Rows};

/// A law: the row sixteen times.
pub struct Sixteen;

impl RowLaw for Sixteen {
    ghost law = { replicate 16 };

    ghost keeps = { IsCustom-sixteen };
}

/// A law: no row.
pub struct Nothing;

impl RowLaw for Nothing {
    ghost law = { replicate 0 };

    ghost keeps = { IsCustom-none };
}

/// A row so many times.
#[tactic(auto, using(crate::proofs::OneMore::one_more))]
pub fn copies(alloc: Global, row: &Row, count: usize) -> Result<Rows, Memory>
    ensures { IfOk result (λ rows. rows ≡ replicate count row.now) }
{
    let mut rows = Rows::new(alloc);
    for _ in 0..count {
        rows.push(row.copy()?)?;
    }
    Ok(rows)
}
