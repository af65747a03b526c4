//! The text of a key that is looked up.
ghost use Rattle.std.specs.Prelude.{[], ◌∷◌};
ghost use Rattle.std.specs.Cmp.{on_equiv, on_per, partial_equiv_from_equiv};
ghost use Rattle.std.specs.Cmp.Lexicographic.{bytes_decides, nat_list_eq_equiv};
ghost use Rattle.std.specs.Str.{bytes_eq};
ghost use Rattle.std.proofs.Common.{ap};

use indexmap::Equivalent;
use std::hash::{Hash, Hasher};
use tree_model::storm_values::Txt;

/// A text in the place of a key. Its bytes are hashed in one piece, as those of the key are.
#[derive(Clone, Copy, Debug)]
pub struct KeyText<'k> {
    pub text: &'k str,
}

impl<'k> PartialEq for KeyText<'k> {
    ghost eq = { λ a b. bytes_eq a.text.now b.text.now };

    ghost laws = { on_per (λ key. key.text.now) (partial_equiv_from_equiv nat_list_eq_equiv) };

    fn eq(&self, other: &Self) -> bool {
        self.text == other.text
    }
}

impl<'k> Eq for KeyText<'k> {
    ghost laws = { on_equiv (λ key. key.text.now) nat_list_eq_equiv };
}

impl<'k> Hash for KeyText<'k> {
    ghost hash_input = { λ key. key.text.now ∷ [] };

    ghost respects_eq = { λ a b is.
        ap (λ bytes. bytes ∷ []) ((bytes_decides a.text.now b.text.now).0 is) };

    fn hash<H: Hasher>(&self, state: &mut H) {
        state.write(self.text.as_bytes());
    }
}

impl Equivalent<Txt> for KeyText<'_> {
    ghost equivalent = { λ asked key. bytes_eq asked.text.now key };

    ghost respects_hash = { λ asked key is.
        ap (λ bytes. bytes ∷ []) ((bytes_decides asked.text.now key).0 is) };

    ghost respects_eq = { λ asked a b. nat_list_eq_equiv.congr asked.text.now a b };

    fn equivalent(&self, key: &Txt) -> bool {
        self.text == key.as_str()
    }
}
