ghost use Rattle.std.specs.Prelude.{◌≡◌, ◌<◌, ◌↔◌, IsTrue, List, [], ◌∷◌, ◌++◌, length, slice_get, Some, IfOk, OnOk, OnErr};

use std::alloc::{AllocError, Global};
use std::marker::Model;

/// Want of memory.
pub type Memory = AllocError;

/// A value of which an equal one can be made.
pub trait Duplicate: Drop {
    fn copy(&self) -> Result<Self, Memory>
        ensures { IfOk result (λ made. made ≡ self.now) };
}

impl Duplicate for u8 {
    fn copy(&self) -> Result<u8, Memory> {
        Ok(*self)
    }
}

impl Duplicate for u32 {
    fn copy(&self) -> Result<u32, Memory> {
        Ok(*self)
    }
}

/// A list that contracts see as the list of its items.
#[derive(Debug, Drop)]
pub struct Seq<E> {
    items: Vec<E>,
}

/// A list of field or component numbers.
pub type Indexes = Seq<u32>;

impl<E> Model for Seq<E> {
    ghost Value = { List E };

    ghost view = { λ s. s.items.items };
}

impl<E> Seq<E> {
    /// An empty list, which takes no memory.
    pub fn new(alloc: Global) -> Self
        ensures { result ≡ [] }
    {
        Seq {
            items: Vec::new(alloc),
        }
    }

    /// The list of a vector's items, which takes no memory.
    pub fn from_vec(items: Vec<E>) -> Self
        ensures { result ≡ items.items }
    {
        Seq { items }
    }

    /// The vector of the items, which takes no memory.
    pub fn into_vec(self) -> Vec<E>
        ensures { result.items ≡ self }
    {
        self.items
    }

    pub fn as_slice(&self) -> &[E]
        ensures { result.now ≡ self.now }
    {
        self.items.as_slice()
    }

    pub fn len(&self) -> usize
        ensures { result ≡ length self.now }
    {
        self.items.len()
    }

    pub fn is_empty(&self) -> bool
        ensures { IsTrue result ↔ (self.now ≡ []) }
    {
        self.items.is_empty()
    }

    pub fn at(&self, i: usize) -> &E
        requires { i < length self.now }
        ensures { slice_get self.now i ≡ Some result.now }
    {
        &self.items[i]
    }

    /// Gives back the memory behind the items, where the list has room for more.
    pub fn trim(&mut self)
        ensures { self.new ≡ self.old }
    {
        self.items.shrink_to_fit();
    }
}

impl<E: Drop> Seq<E> {
    /// Adds an item at the end. Without memory the item is dropped.
    pub fn push(&mut self, item: E) -> Result<(), Memory>
        ensures ok { OnOk result (self.new ≡ self.old ++ item ∷ []) }
        ensures err { OnErr result (self.new ≡ self.old) }
    {
        self.items.push(item)?;
        Ok(())
    }
}

impl<E: Duplicate> Seq<E> {
    /// An equal list, on the same allocator.
    pub fn copy(&self) -> Result<Self, Memory>
        ensures { IfOk result (λ made. made ≡ self.now) }
    {
        let mut made = Vec::with_capacity(*self.items.allocator(), self.items.len())?;
        for item in &self.items {
            made.push(item.copy()?)?;
        }
        Ok(Seq { items: made })
    }
}

impl<E: Duplicate> Duplicate for Seq<E> {
    fn copy(&self) -> Result<Seq<E>, Memory> {
        Seq::copy(self)
    }
}
