ghost use Rattle.std.specs.Prelude.{◌≡◌, ◌<◌, ◌↔◌, IsTrue, [], ◌∷◌, ◌++◌, length, slice_get, Some, IfOk, OnOk, OnErr};

use crate::list::{Duplicate, Memory};
use std::alloc::{AllocError, Global};
use std::marker::Model;
use std::mem;

/// A list of mostly one item, which contracts see as the list of its items. A first item lies in
/// the list itself and takes no memory.
#[derive(Debug, Drop)]
pub struct Few<E> {
    items: Places<E>,
    alloc: Global,
}

/// Where the items of a list lie.
#[derive(Debug, Drop)]
enum Places<E> {
    Empty,
    One([E; 1]),
    Many(Vec<E>),
}

impl<E> Model for Few<E> {
    ghost use Rattle.std.specs.Prelude.{List};
    ghost use Rattle.storm_values.specs.Fews.{items_in};

    ghost Value = { List E };

    ghost view = { λ few. items_in few.items };
}

impl<E> Few<E> {
    /// An empty list, which takes no memory.
    pub fn new(alloc: Global) -> Self
        ensures { result ≡ [] }
    {
        Few {
            items: Places::Empty,
            alloc,
        }
    }

    /// A list of one item, which takes no memory.
    pub fn one(alloc: Global, item: E) -> Self
        ensures { result ≡ item ∷ [] }
    {
        Few {
            items: Places::One([item]),
            alloc,
        }
    }

    /// An empty list with room for so many items.
    pub fn with_capacity(alloc: Global, count: usize) -> Result<Self, Memory>
        ensures { IfOk result (λ made. made ≡ []) }
    {
        if count < 2 {
            return Ok(Few::new(alloc));
        }
        Ok(Few {
            items: Places::Many(Vec::with_capacity(alloc, count)?),
            alloc,
        })
    }

    pub fn as_slice(&self) -> &[E]
        ensures { result.now ≡ self.now }
    {
        match &self.items {
            Places::Empty => &[],
            Places::One(item) => item.as_slice(),
            Places::Many(items) => items.as_slice(),
        }
    }

    pub fn len(&self) -> usize
        ensures { result ≡ length self.now }
    {
        self.as_slice().len()
    }

    pub fn is_empty(&self) -> bool
        ensures { IsTrue result ↔ (self.now ≡ []) }
    {
        self.as_slice().is_empty()
    }

    pub fn at(&self, i: usize) -> &E
        requires { i < length self.now }
        ensures { slice_get self.now i ≡ Some result.now }
    {
        &self.as_slice()[i]
    }
}

impl<E: Drop> Few<E> {
    /// Adds an item at the end. Without memory the item is dropped.
    pub fn push(&mut self, item: E) -> Result<(), Memory>
        ensures ok { OnOk result (self.new ≡ self.old ++ item ∷ []) }
        ensures err { OnErr result (self.new ≡ self.old) }
    {
        if let Places::Many(items) = &mut self.items {
            items.push(item)?;
            return Ok(());
        }
        if let Places::Empty = &self.items {
            self.items = Places::One([item]);
            return Ok(());
        }
        match mem::replace(&mut self.items, Places::Empty) {
            Places::One(one) => match Vec::from_array(self.alloc, one) {
                Ok(mut items) => {
                    let pushed = items.push(item);
                    self.items = Places::Many(items);
                    pushed?;
                    Ok(())
                }
                Err(failed) => {
                    self.items = Places::One(failed.value);
                    Err(AllocError)
                }
            },
            Places::Empty => unreachable!(),
            Places::Many(_items) => unreachable!(),
        }
    }

    /// The vector of the items. One item takes memory there.
    pub fn into_vec(self) -> Result<Vec<E>, Memory>
        ensures { IfOk result (λ made. made.items ≡ self) }
    {
        let alloc = self.alloc;
        let Few { items, .. } = self;
        match items {
            Places::Empty => Ok(Vec::new(alloc)),
            Places::One(one) => Ok(Vec::from_array(alloc, one)?),
            Places::Many(made) => Ok(made),
        }
    }

    /// The list of a vector's items, which takes no memory.
    pub fn from_vec(alloc: Global, items: Vec<E>) -> Self
        ensures { result ≡ items.items }
    {
        Few {
            items: Places::Many(items),
            alloc,
        }
    }
}

impl<E: Duplicate> Few<E> {
    /// An equal list, on the same allocator.
    pub fn copy(&self) -> Result<Self, Memory>
        ensures { IfOk result (λ made. made ≡ self.now) }
    {
        match &self.items {
            Places::Empty => Ok(Few::new(self.alloc)),
            Places::One([item]) => Ok(Few::one(self.alloc, item.copy()?)),
            Places::Many(items) => Ok(Few {
                items: Places::Many(copied(self.alloc, items.as_slice())?),
                alloc: self.alloc,
            }),
        }
    }
}

fn copied<E: Duplicate>(alloc: Global, items: &[E]) -> Result<Vec<E>, Memory>
    ensures { IfOk result (λ made. made.items ≡ items.now) }
{
    let mut made = Vec::with_capacity(alloc, items.len())?;
    for item in items {
        made.push(item.copy()?)?;
    }
    Ok(made)
}

impl<E: Duplicate> Duplicate for Few<E> {
    fn copy(&self) -> Result<Few<E>, Memory> {
        Few::copy(self)
    }
}
