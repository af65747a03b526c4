//! What callers hold.
ghost use Rattle.std.specs.Prelude.{◌≡◌, false, length, All, IsSome};
ghost use Rattle.state_reader.specs.Lists.{shown_by, shown_by_each};
ghost use Rattle.state_reader.specs.Pairs.{told_by, told_by_each};
ghost use Rattle.state_reader.specs.Prefix.{StartsWith};

use crate::folds::Folds;
use crate::rule::StoreReader;
use crate::sides::Pair;

/// Shows the commits of a run to some readers, by a pair of copies for each. It is not `Drop`: end
/// it by `end`.
pub struct Publisher {
    pub(crate) folds: Folds,
    // A commit comes here last, so that no other pair shows less.
    pub(crate) first: Pair,
    pub(crate) others: Vec<Pair>,
    // the transaction id that was published last, 0 at first
    pub(crate) txid: u64,
    pub(crate) failed: bool,
    ghost counted: { txid ≡ length (shown_by first) },
    ghost later: { All (λ list. StartsWith list (shown_by first)) (shown_by_each others.items) },
    ghost alike: { failed ≡ false
        → All (λ list. list ≡ shown_by first) (shown_by_each others.items) },
}

/// Reads values beside a run.
#[derive(Drop)]
pub struct Reader {
    // its pair's place among all pairs, from 0
    pub(crate) number: usize,
    pub(crate) folds: Folds,
    pub(crate) eye: Option<StoreReader>,
    // a reader that was told, which takes the place of the other at the next `get`
    pub(crate) note: Option<StoreReader>,
    ghost has: { IsSome eye },
}

/// The readers of a publisher that are not handed out.
#[derive(Drop)]
pub struct Readers {
    pub(crate) list: Vec<Reader>,
}

/// The commits that a publisher published to all readers, for one of them to learn.
#[derive(Drop)]
pub struct ToldCommits {
    // for each pair, a reader of it that was told
    pub(crate) first: StoreReader,
    pub(crate) others: Vec<StoreReader>,
    ghost later: { All (λ list. StartsWith list (told_by first)) (told_by_each others.items) },
}
