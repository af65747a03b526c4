ghost use Rattle.std.specs.Prelude.{◌≡◌, ◌<◌, ◌↔◌, IsTrue, [], ◌∷◌, ◌++◌, length, slice_get, Some, IfOk, OnOk, OnErr};

use crate::inside::Inside;
use crate::list::{Duplicate, Memory};
use std::alloc::Global;
use std::marker::Model;

/// The most bytes that take no memory.
const MOST_INSIDE: usize = 46;

/// Bytes. Contracts see the list of them. Up to 46 of them lie in the value itself, of 48 bytes,
/// and take no memory.
#[derive(Debug, Drop)]
pub struct Bytes {
    bytes: Place,
    alloc: Global,
}

/// Where bytes lie.
#[derive(Debug, Drop)]
enum Place {
    Inside(Inside<u8, MOST_INSIDE>),
    Apart(Vec<u8>),
}

impl Model for Bytes {
    ghost use Rattle.std.specs.Prelude.{ℕ, List};
    ghost use Rattle.storm_values.specs.Places.{bytes_at};

    ghost Value = { List ℕ };

    ghost view = { λ bytes. bytes_at bytes.bytes };
}

impl Bytes {
    /// No bytes, which take no memory.
    pub fn new(alloc: Global) -> Self
        ensures { result ≡ [] }
    {
        Bytes {
            bytes: Place::Inside(Inside::new(0)),
            alloc,
        }
    }

    /// The bytes of a vector, which takes no memory.
    pub fn from_vec(bytes: Vec<u8>) -> Self
        ensures { result ≡ bytes.items }
    {
        let alloc = *bytes.allocator();
        Bytes {
            bytes: Place::Apart(bytes),
            alloc,
        }
    }

    /// A copy of some bytes.
    pub fn from_slice(alloc: Global, bytes: &[u8]) -> Result<Self, Memory>
        ensures { IfOk result (λ made. made ≡ bytes.now) }
    {
        let bytes = match Inside::from_slice(0, bytes) {
            Some(few) => Place::Inside(few),
            None => Place::Apart(bytes.to_vec(alloc)?),
        };
        Ok(Bytes { bytes, alloc })
    }

    pub fn as_slice(&self) -> &[u8]
        ensures { result.now ≡ self.now }
    {
        match &self.bytes {
            Place::Inside(few) => few.as_slice(),
            Place::Apart(many) => many.as_slice(),
        }
    }

    pub fn len(&self) -> usize
        ensures { result ≡ length self.now }
    {
        self.as_slice().len()
    }

    pub fn is_empty(&self) -> bool
        ensures { IsTrue result ↔ (self.now ≡ []) }
    {
        self.as_slice().is_empty()
    }

    pub fn at(&self, i: usize) -> &u8
        requires { i < length self.now }
        ensures { slice_get self.now i ≡ Some result.now }
    {
        &self.as_slice()[i]
    }

    /// Adds a byte at the end.
    pub fn push(&mut self, byte: u8) -> Result<(), Memory>
        ensures ok { OnOk result (self.new ≡ self.old ++ byte ∷ []) }
        ensures err { OnErr result (self.new ≡ self.old) }
    {
        match &mut self.bytes {
            Place::Apart(many) => {
                many.push(byte)?;
                return Ok(());
            }
            Place::Inside(few) => {
                if few.has_room() {
                    few.push(byte);
                    return Ok(());
                }
            }
        }
        let mut many = self.as_slice().to_vec(self.alloc)?;
        many.push(byte)?;
        self.bytes = Place::Apart(many);
        Ok(())
    }

    /// Equal bytes, on the same allocator.
    pub fn copy(&self) -> Result<Self, Memory>
        ensures { IfOk result (λ made. made ≡ self.now) }
    {
        Bytes::from_slice(self.alloc, self.as_slice())
    }
}

impl Duplicate for Bytes {
    fn copy(&self) -> Result<Bytes, Memory> {
        Bytes::copy(self)
    }
}
