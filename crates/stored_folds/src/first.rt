ghost use Rattle.std.specs.Prelude.{refl};

use crate::stored::FoldLaw;

/// A law: the first amount of each key.
pub struct First;

impl FoldLaw for First {
    ghost one = { λ amount. amount };

    ghost combine = { λ earlier later. earlier };

    ghost associative = { λ a b c. refl };
}
