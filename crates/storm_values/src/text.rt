ghost use Rattle.std.specs.Prelude.{◌≡◌, ◌<◌, slice_get, Some, [], ◌∷◌, length, string_bytes, refl, IfOk, IfSome};
ghost use Rattle.std.specs.Cmp.{partial_equiv_from_equiv};
ghost use Rattle.std.specs.Cmp.Lexicographic.{bytes_decides, nat_list_cmp_total, nat_list_eq_equiv, slice_cmp, texts_po, texts_ties};
ghost use Rattle.std.specs.Ordering.{nat_cmp};
ghost use Rattle.std.specs.Str.{bytes_eq};
ghost use Rattle.std.proofs.Common.{ap};

use crate::inside::Inside;
use crate::list::{Duplicate, Memory};
use std::alloc::Global;
use std::cmp::Ordering;
use std::hash::{Hash, Hasher};
use std::marker::Model;

/// The most bytes of a text that takes no memory.
const MOST_INSIDE: usize = 30;

/// A text, which contracts see as the list of its UTF-8 bytes. Up to 30 of them lie in the value
/// itself, of 32 bytes, and take no memory.
#[derive(Debug, Drop)]
pub struct Txt {
    text: Place,
}

/// Where the bytes of a text lie.
#[derive(Debug, Drop)]
enum Place {
    Inside(Short),
    Apart(String),
}

/// The bytes of a short text.
#[derive(Debug, Drop)]
struct Short {
    bytes: Inside<u8, MOST_INSIDE>,
}

impl Model for Txt {
    ghost use Rattle.std.specs.Prelude.{List, ℕ};
    ghost use Rattle.storm_values.specs.Texts.{bytes_in};

    ghost Value = { List ℕ };

    ghost view = { λ t. bytes_in t.text };
}

impl Model for Short {
    ghost use Rattle.std.specs.Prelude.{ℕ, List, IsUtf8};

    ghost Value = { List ℕ };

    ghost view = { λ s. s.bytes };

    ghost invariant = { λ s. ∥ IsUtf8 s.bytes ∥₁ };
}

impl Short {
    /// No bytes.
    fn new() -> Self
        ensures { result ≡ [] }
    {
        Short {
            bytes: Inside::new(0),
        }
    }

    /// The bytes of a text, where they are few.
    fn from_str(text: &str) -> Option<Self>
        ensures { IfSome result (λ short. short ≡ text.now) }
    {
        match Inside::from_slice(0, text.as_bytes()) {
            Some(bytes) => Some(Short { bytes }),
            None => None,
        }
    }

    fn as_str(&self) -> &str
        ensures { result.now ≡ self.now }
    {
        unsafe { str::from_utf8_unchecked(self.bytes.as_slice()) }
    }

    fn as_bytes(&self) -> &[u8]
        ensures { result.now ≡ self.now }
    {
        self.bytes.as_slice()
    }

    /// The same bytes.
    fn copy(&self) -> Self
        ensures { result ≡ self.now }
    {
        Short {
            bytes: self.bytes.copy(),
        }
    }
}

impl Txt {
    /// The empty text, which takes no memory.
    pub fn new() -> Self
        ensures { result ≡ [] }
    {
        Txt {
            text: Place::Inside(Short::new()),
        }
    }

    pub fn from_str(alloc: Global, text: &str) -> Result<Self, Memory>
        ensures { IfOk result (λ made. made ≡ text.now) }
    {
        match Short::from_str(text) {
            Some(short) => Ok(Txt {
                text: Place::Inside(short),
            }),
            None => Ok(Txt {
                text: Place::Apart(String::from_str(alloc, text)?),
            }),
        }
    }

    /// The text of a string, which takes no memory.
    pub fn from_string(text: String) -> Self
        ensures { result ≡ string_bytes text }
    {
        match Short::from_str(text.as_str()) {
            Some(short) => Txt {
                text: Place::Inside(short),
            },
            None => Txt {
                text: Place::Apart(text),
            },
        }
    }

    /// The number of bytes.
    pub fn len(&self) -> usize
        ensures { result ≡ length self.now }
    {
        self.as_bytes().len()
    }

    /// The byte at a place.
    pub fn at(&self, i: usize) -> &u8
        requires { i < length self.now }
        ensures { slice_get self.now i ≡ Some result.now }
    {
        &self.as_bytes()[i]
    }

    pub fn as_str(&self) -> &str
        ensures { result.now ≡ self.now }
    {
        match &self.text {
            Place::Inside(short) => short.as_str(),
            Place::Apart(text) => text.as_str(),
        }
    }

    pub fn as_bytes(&self) -> &[u8]
        ensures { result.now ≡ self.now }
    {
        match &self.text {
            Place::Inside(short) => short.as_bytes(),
            Place::Apart(text) => text.as_bytes(),
        }
    }

    /// An equal text, on the same allocator where it takes memory.
    pub fn copy(&self) -> Result<Self, Memory>
        ensures { IfOk result (λ made. made ≡ self.now) }
    {
        match &self.text {
            Place::Inside(short) => Ok(Txt {
                text: Place::Inside(short.copy()),
            }),
            Place::Apart(text) => Ok(Txt {
                text: Place::Apart(text.clone()?),
            }),
        }
    }
}

impl PartialEq for Txt {
    ghost eq = { bytes_eq };

    ghost laws = { partial_equiv_from_equiv nat_list_eq_equiv };

    fn eq(&self, other: &Txt) -> bool {
        self.as_bytes() == other.as_bytes()
    }
}

impl Eq for Txt {
    ghost laws = { nat_list_eq_equiv };
}

impl PartialOrd for Txt {
    ghost partial_cmp = { λ a b. Some (slice_cmp nat_cmp a b) };

    ghost laws = { texts_po };

    fn partial_cmp(&self, other: &Txt) -> Option<Ordering> {
        Some(self.cmp(other))
    }
}

/// Texts stand in the order of their bytes.
impl Ord for Txt {
    ghost cmp = { slice_cmp nat_cmp };

    ghost total = { nat_list_cmp_total };

    ghost matches_partial_cmp = { λ a b. refl };

    ghost matches_eq = { texts_ties };

    fn cmp(&self, other: &Txt) -> Ordering {
        self.as_bytes().cmp(other.as_bytes())
    }
}

/// The bytes are hashed in one piece.
impl Hash for Txt {
    ghost hash_input = { λ text. text ∷ [] };

    ghost respects_eq = { λ a b is. ap (λ text. text ∷ []) ((bytes_decides a b).0 is) };

    fn hash<H: Hasher>(&self, state: &mut H) {
        state.write(self.as_bytes());
    }
}

impl Duplicate for Txt {
    fn copy(&self) -> Result<Txt, Memory> {
        Txt::copy(self)
    }
}
