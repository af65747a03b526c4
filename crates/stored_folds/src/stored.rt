ghost use Rattle.std.specs.Prelude.{◌≡◌, ℤ};
ghost use Rattle.bolt_ops.specs.RowOp.{Custom};
ghost use Rattle.stored_folds.specs.Folds.{Keeps, IsAssociative, with_fold, IsCustom-with_fold};

use bolt_ops::RowOp;
use std::alloc::Global;
use std::marker::PhantomData;
use storm_values::{Memory, Row, Rows};

/// What makes a value of an amount. Each closure of this shape does.
pub trait OneFn {
    ghost may_make: { Self → ℤ → Type 0 };

    ghost makes: { Self → ℤ → ℤ → Type 0 };

    fn make(&self, amount: i64) -> i128
        requires { may_make self.now amount }
        ensures { makes self.now amount result };
}

impl<F: Fn(i64) -> i128> OneFn for F {
    ghost may_make = { λ f amount. F.pre f amount };

    ghost makes = { λ f amount made. F.post f amount made };

    fn make(&self, amount: i64) -> i128 {
        self(amount)
    }
}

/// What makes a value of two. Each closure of this shape does.
pub trait CombineFn {
    ghost may_make: { Self → ℤ → ℤ → Type 0 };

    ghost makes: { Self → ℤ → ℤ → ℤ → Type 0 };

    fn make(&self, earlier: i128, later: i128) -> i128
        requires { may_make self.now earlier later }
        ensures { makes self.now earlier later result };
}

impl<G: Fn(i128, i128) -> i128> CombineFn for G {
    ghost may_make = { λ g earlier later. G.pre g earlier later };

    ghost makes = { λ g earlier later made. G.post g earlier later made };

    fn make(&self, earlier: i128, later: i128) -> i128 {
        self(earlier, later)
    }
}

/// The values that a stored fold is to answer.
pub trait FoldLaw {
    ghost one: { ℤ → ℤ };

    ghost combine: { ℤ → ℤ → ℤ };

    ghost associative: { IsAssociative combine };
}

/// Two closures for custom folds, beside the fact that the first may be called on every amount and
/// the second on every two values, and that both answer a law's values.
#[derive(Drop)]
struct Closures<L: FoldLaw, F: OneFn, G: CombineFn> {
    one: F,
    combine: G,
    law: PhantomData<L>,
    ghost fact: { ∥ Keeps L.one L.combine (F.may_make one) (F.makes one)
        (G.may_make combine) (G.makes combine) ∥₁ },
}

impl<L: FoldLaw, F: OneFn, G: CombineFn> Closures<L, F, G> {
    // The fact that is kept, in the open.
    fn known(&self)
        ensures { Keeps L.one L.combine (F.may_make self.now.one) (F.makes self.now.one)
            (G.may_make self.now.combine) (G.makes self.now.combine) }
    {}

    fn one(&self, amount: i64) -> i128
        ensures { result ≡ L.one amount }
    {
        self.known();
        self.one.make(amount)
    }

    fn combine(&self, earlier: i128, later: i128) -> i128
        ensures { result ≡ L.combine earlier later }
    {
        self.known();
        self.combine.make(earlier, later)
    }
}

/// An operation of rows with two stored closures, which fold by a law.
#[derive(Drop)]
pub struct StoredFold<L: FoldLaw, O: RowOp, F: OneFn, G: CombineFn> {
    inner: O,
    closures: Closures<L, F, G>,
}

impl<L: FoldLaw, O: RowOp, F: OneFn, G: CombineFn> StoredFold<L, O, F, G> {
    pub fn new(inner: O, one: F, combine: G) -> Self
        requires { Keeps L.one L.combine (F.may_make one) (F.makes one)
            (G.may_make combine) (G.makes combine) }
    {
        let closures = Closures {
            one,
            combine,
            law: PhantomData,
        };
        StoredFold { inner, closures }
    }
}

impl<L: FoldLaw + Sync, O: RowOp, F: OneFn + Sync, G: CombineFn + Sync> RowOp
    for StoredFold<L, O, F, G> {
    ghost meaning = { λ op. with_fold L.one L.combine (O.meaning op.inner) };

    ghost keeps = { λ op.
        IsCustom-with_fold L.one L.combine L.associative (O.meaning op.inner) (O.keeps op.inner) };

    fn rows(&self, alloc: Global, row: &Row) -> Result<Rows, Memory> {
        self.inner.rows(alloc, row)
    }

    fn one(&self, amount: i64) -> i128 {
        self.closures.one(amount)
    }

    fn combine(&self, earlier: i128, later: i128) -> i128 {
        self.closures.combine(earlier, later)
    }
}
