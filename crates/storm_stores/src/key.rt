ghost use Rattle.std.specs.Prelude.{◌≡◌, ◌≤◌, length, take, [], ◌∷◌, IfOk};
ghost use Rattle.std.specs.Cmp.{partial_equiv_from_equiv, on_per, on_equiv};
ghost use Rattle.std.specs.Cmp.Lexicographic.{bytes_decides, nat_list_eq_equiv};
ghost use Rattle.std.specs.Str.{bytes_eq};
ghost use Rattle.std.proofs.Common.{ap};

use indexmap::Equivalent;
use std::alloc::Global;
use std::hash::{Hash, Hasher};
use std::marker::Model;
use storm_values::Memory;

/// How many bytes of a key lie in place. A key takes 32 bytes then, as one that is a vector does.
const PLACES: usize = 30;

/// A key of a table, which owns its bytes. Contracts see the list of them. Up to 30 of them take
/// no memory, and lie where a look-up finds the key.
#[derive(Debug, Drop)]
pub(crate) struct Key {
    place: Place,
}

/// Where the bytes of a key lie.
#[derive(Debug, Drop)]
enum Place {
    Here { len: u8, bytes: [u8; PLACES] },
    Away(Vec<u8>),
}

impl Model for Key {
    ghost use Rattle.std.specs.Prelude.{ℕ, List};
    ghost use Rattle.storm_stores.specs.Keys.{IsSound, bytes_in};

    ghost Value = { List ℕ };

    ghost view = { λ key. bytes_in key.place };

    ghost invariant = { λ key. IsSound key.place };
}

impl Key {
    /// A copy of some bytes.
    pub fn from_slice(alloc: Global, bytes: &[u8]) -> Result<Self, Memory>
        ensures { IfOk result (λ key. key ≡ bytes.now) }
    {
        if bytes.len() <= PLACES {
            return Ok(Key {
                place: Place::Here {
                    len: bytes.len() as u8,
                    bytes: placed(bytes),
                },
            });
        }
        Ok(Key {
            place: Place::Away(bytes.to_vec(alloc)?),
        })
    }

    pub fn as_slice(&self) -> &[u8]
        ensures { result.now ≡ self.now }
    {
        match &self.place {
            Place::Here { len, bytes } => &bytes[..*len as usize],
            Place::Away(bytes) => bytes.as_slice(),
        }
    }
}

/// Bytes, and zeros behind them.
fn placed(bytes: &[u8]) -> [u8; PLACES]
    requires { length bytes.now ≤ 30 }
    ensures front { take (length bytes.now) result ≡ bytes.now }
    ensures len { length result ≡ 30 }
{
    let mut places = [0; PLACES];
    places[..bytes.len()].copy_from_slice(bytes);
    places
}

impl PartialEq for Key {
    ghost eq = { bytes_eq };

    ghost laws = { partial_equiv_from_equiv nat_list_eq_equiv };

    fn eq(&self, other: &Key) -> bool {
        self.as_slice() == other.as_slice()
    }
}

impl Eq for Key {
    ghost laws = { nat_list_eq_equiv };
}

impl Hash for Key {
    ghost hash_input = { λ key. key ∷ [] };

    ghost respects_eq = { λ a b is. ap (λ key. key ∷ []) ((bytes_decides a b).0 is) };

    fn hash<H: Hasher>(&self, state: &mut H) {
        state.write(self.as_slice());
    }
}

/// A key that is looked up, or one whose bytes belong to another. Its bytes are hashed in one
/// piece, and those of a slice one by one.
#[derive(Clone, Copy, Debug)]
pub struct KeyBytes<'k> {
    pub bytes: &'k [u8],
}

impl<'k> PartialEq for KeyBytes<'k> {
    ghost eq = { λ a b. bytes_eq a.bytes.now b.bytes.now };

    ghost laws = { on_per (λ key. key.bytes.now) (partial_equiv_from_equiv nat_list_eq_equiv) };

    fn eq(&self, other: &Self) -> bool {
        self.bytes == other.bytes
    }
}

impl<'k> Eq for KeyBytes<'k> {
    ghost laws = { on_equiv (λ key. key.bytes.now) nat_list_eq_equiv };
}

impl<'k> Hash for KeyBytes<'k> {
    ghost hash_input = { λ key. key.bytes.now ∷ [] };

    ghost respects_eq = { λ a b is.
        ap (λ bytes. bytes ∷ []) ((bytes_decides a.bytes.now b.bytes.now).0 is) };

    fn hash<H: Hasher>(&self, state: &mut H) {
        state.write(self.bytes);
    }
}

impl Equivalent<Key> for KeyBytes<'_> {
    ghost equivalent = { λ asked key. bytes_eq asked.bytes.now key };

    ghost respects_hash = { λ asked key is.
        ap (λ bytes. bytes ∷ []) ((bytes_decides asked.bytes.now key).0 is) };

    ghost respects_eq = { λ asked a b. nat_list_eq_equiv.congr asked.bytes.now a b };

    fn equivalent(&self, key: &Key) -> bool {
        self.bytes == key.as_slice()
    }
}

impl<'b> Equivalent<KeyBytes<'b>> for KeyBytes<'_> {
    ghost equivalent = { λ asked key. bytes_eq asked.bytes.now key.bytes.now };

    ghost respects_hash = { λ asked key is.
        ap (λ bytes. bytes ∷ []) ((bytes_decides asked.bytes.now key.bytes.now).0 is) };

    ghost respects_eq = { λ asked a b.
        nat_list_eq_equiv.congr asked.bytes.now a.bytes.now b.bytes.now };

    fn equivalent(&self, key: &KeyBytes<'b>) -> bool {
        self.bytes == key.bytes
    }
}
