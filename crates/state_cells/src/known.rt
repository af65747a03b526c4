ghost use Rattle.std.specs.Prelude.{◌≡◌, IfSome, IfOk};
ghost use Rattle.state_cells.specs.Groups.{jobs_of};
ghost use Rattle.state_cells.specs.Known.{Follows, FollowsFrom, IsAfter, keys_in};

use crate::commit::Batch;
use crate::group::Groups;
use crate::plan::Work;
use std::alloc::Global;
use tree_model::storm_values::{Bytes, Memory};
use tree_model::topology_plan::Kind;

/// What an opaque part knows of its store's cells, so that it does not look at each key again.
#[derive(Debug, Drop)]
pub(crate) struct Known {
    pub txid: u64,
    /// The keys whose cells are of the transaction, and perhaps others: a put that failed may have
    /// happened.
    pub keys: Vec<Bytes>,
    /// Whether no cell is of a later transaction.
    pub is_newest: bool,
}

/// What is known of a transaction, if that follows.
pub(crate) fn known_of(alloc: Global, known: Option<Known>, txid: u64) -> Option<Known>
    ensures txid { IfSome result (λ now. now.txid ≡ txid) }
    ensures known { IfSome result (FollowsFrom known) }
{
    match known {
        Some(known) => move_on(alloc, known, txid),
        None => None,
    }
}

fn move_on(alloc: Global, known: Known, txid: u64) -> Option<Known>
    ensures txid { IfSome result (λ now. now.txid ≡ txid) }
    ensures known { IfSome result (Follows known) }
{
    if known.txid == txid {
        Some(known)
    } else if known.is_newest && known.txid < txid {
        Some(Known {
            txid,
            keys: Vec::new(alloc),
            is_newest: true,
        })
    } else {
        None
    }
}

/// What is known after a commit, whether it was broken off or not. Nothing is where there is no
/// memory. The keys of an opaque part's writes are copied here, once.
pub(crate) fn known_after(
    alloc: Global,
    batch: Batch,
    groups: &Groups<'_>,
    work: Work,
) -> Option<Known>
    ensures { IfSome result
        (IsAfter batch.kind batch.root.txid work.is_newest
        (jobs_of groups.now work.restores.items)) }
{
    let Work {
        restores,
        is_newest,
    } = work;
    match batch.kind {
        Kind::Transactional => None,
        Kind::Opaque => match keys_of(alloc, groups, restores) {
            Ok(keys) => Some(Known {
                txid: batch.root.txid,
                keys,
                is_newest,
            }),
            Err(_) => None,
        },
    }
}

/// The keys that are written, and then the others.
fn keys_of(
    alloc: Global,
    groups: &Groups<'_>,
    mut restores: Vec<Bytes>,
) -> Result<Vec<Bytes>, Memory>
    ensures { IfOk result (λ keys. keys.items ≡ keys_in (jobs_of groups.now restores.items)) }
{
    let mut keys = Vec::with_capacity(alloc, groups.len())?;
    for key in groups.keys() {
        keys.push(Bytes::from_slice(alloc, key.bytes)?)?;
    }
    keys.append(&mut restores)?;
    Ok(keys)
}
