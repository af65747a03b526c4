//! What a publisher has of each pair.
ghost use Rattle.std.specs.Prelude.{◌≡◌, false, IsSome};
ghost use Rattle.state_reader.specs.Pairs.{AreReady, AreShown};

use crate::rule::StoreWriter;

/// Shows commits to one reader. It is not `Drop`: end it by `end`.
pub struct Pair {
    pub(crate) writer: Option<StoreWriter>,
    // Without memory a commit may lie there in part, and nothing is published after it.
    pub(crate) failed: bool,
    ghost has: { IsSome writer },
    ghost shown: { AreShown writer },
    ghost ready: { failed ≡ false → AreReady writer },
}
