//! Few items in the value itself.
ghost use Rattle.std.specs.Prelude.{◌≡◌, ◌<◌, ◌≤◌, ◌↔◌, IsTrue, [], ◌∷◌, ◌++◌, length, IfSome};

use std::marker::Model;

/// At most N items, which lie in the value itself. Contracts see the list of them.
#[derive(Debug, Drop)]
pub(crate) struct Inside<T, const N: usize> {
    len: u8,
    places: [T; N],
}

impl<T, const N: usize> Model for Inside<T, N> {
    ghost use Rattle.std.specs.Prelude.{◌≡◌, ◌≤◌, List, length, take};

    ghost Value = { List T };

    ghost view = { λ s. take s.len s.places };

    ghost invariant = { λ s. (s.len ≤ N) × (length s.places ≡ N) × (N ≤ 255) };
}

impl<T: Copy + Drop, const N: usize> Inside<T, N> {
    /// No items. A place without an item has the blank.
    pub fn new(blank: T) -> Self
        requires { N ≤ 255 }
        ensures { result ≡ [] }
    {
        Inside {
            len: 0,
            places: [blank; N],
        }
    }

    /// The items of a slice, where they are few.
    pub fn from_slice(blank: T, items: &[T]) -> Option<Self>
        requires { N ≤ 255 }
        ensures { IfSome result (λ made. made ≡ items.now) }
    {
        if items.len() > N {
            return None;
        }
        let mut places = [blank; N];
        places[..items.len()].copy_from_slice(items);
        Some(Inside {
            len: items.len() as u8,
            places,
        })
    }

    pub fn as_slice(&self) -> &[T]
        ensures { result.now ≡ self.now }
    {
        &self.places[..self.len as usize]
    }

    /// Whether there is room for one more.
    pub fn has_room(&self) -> bool
        ensures { IsTrue result ↔ (length self.now < N) }
    {
        (self.len as usize) < N
    }

    /// Adds an item at the end.
    pub fn push(&mut self, item: T)
        requires { length self.old < N }
        ensures { self.new ≡ self.old ++ item ∷ [] }
    {
        self.places[self.len as usize] = item;
        self.len += 1;
    }

    /// The same items.
    pub fn copy(&self) -> Self
        ensures { result ≡ self.now }
    {
        Inside {
            len: self.len,
            places: self.places,
        }
    }
}
