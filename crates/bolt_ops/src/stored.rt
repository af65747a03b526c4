ghost use Rattle.std.specs.Prelude.{◌≡◌, List, IfOk, Ok};
ghost use Rattle.std.specs.Borrow.{Bor};
ghost use Rattle.storm_values.specs.declared.value.Value.{Value};
ghost use Rattle.bolt_ops.specs.RowOp.{IsCustom, custom_of};
ghost use Rattle.bolt_ops.specs.Stored.{Keeps};

use crate::custom::RowOp;
use std::alloc::Global;
use std::marker::PhantomData;
use storm_values::{Memory, Row, Rows};

/// What makes rows of a row. Each closure of this shape does.
pub trait RowFn {
    ghost may_make: { Self → List Value → Type 0 };

    ghost makes: { Self → List Value → List (List Value) → Type 0 };

    fn make(&self, alloc: Global, row: &Row) -> Result<Rows, Memory>
        requires { may_make self.now row.now }
        ensures { IfOk result (makes self.now row.now) };
}

impl<F: Fn(Global, &Row) -> Result<Rows, Memory>> RowFn for F {
    ghost may_make = { λ f row. (alloc : _) (lent : Bor (List Value))
        → lent.now ≡ row → F.pre f alloc lent };

    ghost makes = { λ f row made. (alloc : _) × (lent : Bor (List Value))
        × (lent.now ≡ row) × F.post f alloc lent (Ok made) };

    fn make(&self, alloc: Global, row: &Row) -> Result<Rows, Memory> {
        self(alloc, row)
    }
}

/// The rows that a stored operation is to answer.
pub trait RowLaw {
    ghost law: { List Value → List (List Value) };

    ghost keeps: { IsCustom (custom_of law) };
}

/// A closure beside the fact that on each row within limits it may be called, and answers the
/// rows of a law or want of memory. A custom fold takes the last amount.
#[derive(Drop)]
pub struct StoredOp<L: RowLaw, F: RowFn> {
    make: F,
    law: PhantomData<L>,
    ghost fact: { ∥ Keeps L.law (F.may_make make) (F.makes make) ∥₁ },
}

impl<L: RowLaw, F: RowFn> StoredOp<L, F> {
    pub fn new(make: F) -> Self
        requires { Keeps L.law (F.may_make make) (F.makes make) }
    {
        StoredOp {
            make,
            law: PhantomData,
        }
    }

    // The fact that is kept, in the open.
    fn known(&self)
        ensures { Keeps L.law (F.may_make self.now.make) (F.makes self.now.make) }
    {}
}

impl<L: RowLaw + Sync, F: RowFn + Sync> RowOp for StoredOp<L, F> {
    ghost meaning = { λ _. custom_of L.law };

    ghost keeps = { λ _. L.keeps };

    fn rows(&self, alloc: Global, row: &Row) -> Result<Rows, Memory> {
        self.known();
        self.make.make(alloc, row)
    }

    fn one(&self, amount: i64) -> i128 {
        i128::from(amount)
    }

    fn combine(&self, _earlier: i128, later: i128) -> i128 {
        later
    }
}
