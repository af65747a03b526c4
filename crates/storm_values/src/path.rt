ghost use Rattle.std.specs.Prelude.{◌≡◌, ◌<◌, ◌↔◌, IsTrue, [], ◌∷◌, ◌++◌, length, slice_get, Some, IfOk, OnOk, OnErr};
ghost use Rattle.std.specs.Cmp.{IsTotalOrder};
ghost use Rattle.storm_values.specs.Order.{path_cmp};

use crate::inside::Inside;
use crate::list::{Duplicate, Memory};
use std::alloc::Global;
use std::cmp::Ordering;
use std::marker::Model;

/// The most numbers of a path that takes no memory.
const MOST_INSIDE: usize = 4;

/// The place of a node in a tuple tree: at each level the number of the child, from 0. Contracts
/// see the list of these numbers. Up to four of them lie in the value itself and take no memory.
#[derive(Debug, Drop)]
pub struct Path {
    numbers: Numbers,
    alloc: Global,
}

/// Where the numbers of a path lie.
#[derive(Debug, Drop)]
enum Numbers {
    Inside(Inside<u32, MOST_INSIDE>),
    Apart(Box<Vec<u32>>),
}

impl Model for Path {
    ghost use Rattle.std.specs.Prelude.{ℕ, List};
    ghost use Rattle.storm_values.specs.Paths.{numbers_in};

    ghost Value = { List ℕ };

    ghost view = { λ path. numbers_in path.numbers };
}

impl Path {
    /// The empty path, which takes no memory.
    pub fn new(alloc: Global) -> Self
        ensures { result ≡ [] }
    {
        Path {
            numbers: Numbers::Inside(Inside::new(0)),
            alloc,
        }
    }

    /// The path of some numbers.
    pub fn from_slice(alloc: Global, numbers: &[u32]) -> Result<Self, Memory>
        ensures { IfOk result (λ path. path ≡ numbers.now) }
    {
        match Inside::from_slice(0, numbers) {
            Some(short) => Ok(Path {
                numbers: Numbers::Inside(short),
                alloc,
            }),
            None => apart(alloc, numbers.to_vec(alloc)?),
        }
    }

    pub fn as_slice(&self) -> &[u32]
        ensures { result.now ≡ self.now }
    {
        match &self.numbers {
            Numbers::Inside(short) => short.as_slice(),
            Numbers::Apart(long) => long.as_slice(),
        }
    }

    pub fn len(&self) -> usize
        ensures { result ≡ length self.now }
    {
        self.as_slice().len()
    }

    pub fn is_empty(&self) -> bool
        ensures { IsTrue result ↔ (self.now ≡ []) }
    {
        self.as_slice().is_empty()
    }

    pub fn at(&self, i: usize) -> &u32
        requires { i < length self.now }
        ensures { slice_get self.now i ≡ Some result.now }
    {
        &self.as_slice()[i]
    }

    /// Adds a number at the end.
    pub fn push(&mut self, number: u32) -> Result<(), Memory>
        ensures ok { OnOk result (self.new ≡ self.old ++ number ∷ []) }
        ensures err { OnErr result (self.new ≡ self.old) }
    {
        match &mut self.numbers {
            Numbers::Apart(long) => {
                long.push(number)?;
                return Ok(());
            }
            Numbers::Inside(short) => {
                if short.has_room() {
                    short.push(number);
                    return Ok(());
                }
            }
        }
        let long = longer_by(self.alloc, self.as_slice(), number)?;
        self.numbers = Numbers::Apart(Box::new(self.alloc, long)?);
        Ok(())
    }

    /// The path of a child.
    pub fn child(&self, number: u32) -> Result<Self, Memory>
        ensures { IfOk result (λ path. path ≡ self.now ++ number ∷ []) }
    {
        if let Numbers::Inside(short) = &self.numbers
            && short.has_room()
        {
            let mut child = short.copy();
            child.push(number);
            return Ok(Path {
                numbers: Numbers::Inside(child),
                alloc: self.alloc,
            });
        }
        apart(self.alloc, longer_by(self.alloc, self.as_slice(), number)?)
    }

    /// An equal path, on the same allocator.
    pub fn copy(&self) -> Result<Self, Memory>
        ensures { IfOk result (λ path. path ≡ self.now) }
    {
        match &self.numbers {
            Numbers::Inside(short) => Ok(Path {
                numbers: Numbers::Inside(short.copy()),
                alloc: self.alloc,
            }),
            Numbers::Apart(long) => apart(self.alloc, (**long).clone()?),
        }
    }

    /// Which of the two stands first: a path before those that it begins, and else by the
    /// first numbers that differ. It looks at their first numbers before all others.
    pub fn compare(&self, other: &Path) -> Ordering
        ensures { result ≡ path_cmp self.now other.now }
    {
        let mine = self.as_slice();
        let others = other.as_slice();
        match (mine.first(), others.first()) {
            (Some(a), Some(b)) if a != b => a.cmp(b),
            _ => mine.cmp(&others),
        }
    }
}

/// A path whose numbers lie in a vector.
fn apart(alloc: Global, numbers: Vec<u32>) -> Result<Path, Memory>
    ensures { IfOk result (λ path. path ≡ numbers.items) }
{
    Ok(Path {
        numbers: Numbers::Apart(Box::new(alloc, numbers)?),
        alloc,
    })
}

/// Some numbers and then one more, in a vector.
fn longer_by(alloc: Global, numbers: &[u32], number: u32) -> Result<Vec<u32>, Memory>
    ensures { IfOk result (λ made. made.items ≡ numbers.now ++ number ∷ []) }
{
    let mut made = Vec::with_capacity(alloc, numbers.len().saturating_add(1))?;
    made.extend_from_slice(numbers)?;
    made.push(number)?;
    Ok(made)
}

/// A law: `compare` answers a total order.
pub fn path_order_is_total()
    ensures { IsTotalOrder path_cmp }
{}

impl Duplicate for Path {
    fn copy(&self) -> Result<Path, Memory> {
        Path::copy(self)
    }
}
