ghost use Rattle.std.specs.Prelude.{◌≡◌, ◌≤◌, ℕ, List, IfOk, IfSome, IsErrOf};
ghost use Rattle.tree_model.specs.storm_values.Counts.{raised};
ghost use Rattle.storm_stores.specs.CellMaps.{CellMap, cell_at};
ghost use Rattle.state_cells.specs.Groups.{amounts_in, jobs_in, jobs_of};
ghost use Rattle.state_cells.specs.Known.{AreKnown, Knows, keys_in};
ghost use Rattle.state_cells.specs.Plans.{IsPlan};
ghost use Rattle.state_cells.specs.Turns.{AreApart, IsBad};

use crate::commit::Batch;
use crate::fault::PartFault;
use crate::group::{Groups, restores_of};
use crate::known::{Known, known_of};
use crate::scan::scan;
use std::alloc::Global;
use storm_stores::CellStore;
use tree_model::storm_values::Bytes;
use tree_model::topology_plan::Kind;

/// What a commit does beside the keys that are written.
#[derive(Drop)]
pub(crate) struct Work {
    /// The keys that get their value before back.
    pub restores: Vec<Bytes>,
    /// Whether no cell of an opaque part is of a later transaction.
    pub is_newest: bool,
}

/// The jobs of a commit, of which those of the keys that are written are known. A transactional one
/// has no others, and makes no call here.
pub(crate) fn plan<C: CellStore>(
    alloc: Global,
    store: &mut C,
    known: Option<Known>,
    batch: Batch,
    groups: &Groups<'_>,
) -> Result<Work, PartFault>
    requires known { IfSome known (Knows C.tells store.old) }
    requires apart { AreApart (jobs_in groups.now) }
    ensures plan { IfOk result (λ work. (cells : CellMap) → C.tells store.old cells →
        IsPlan batch.kind batch.root.txid (amounts_in groups.now) cells
        (jobs_of groups.now work.restores.items)) }
    ensures known { IfOk result (λ work. batch.kind ≡ Kind.Opaque →
        (cells : CellMap) → C.tells store.old cells →
        AreKnown batch.root.txid work.is_newest (keys_in (jobs_of groups.now work.restores.items))
        cells) }
    ensures same { (cells : CellMap) → C.tells store.old cells → C.tells store.new cells }
    ensures told_before { (cells : CellMap) → C.tells store.new cells → C.tells store.old cells }
    ensures failed { IsErrOf result PartFault.Store →
        C.fault_count store.new ≡ raised (C.fault_count store.old) }
    ensures quiet { (IsErrOf result PartFault.Store → ⊥) →
        C.fault_count store.new ≡ C.fault_count store.old }
    ensures bad { (k : List ℕ) → IsErrOf result (PartFault.BadCell k) →
        (cells : CellMap) → C.tells store.old cells → IsBad batch.kind (cell_at cells k) }
    ensures never_falls { C.fault_count store.old ≤ C.fault_count store.new }
{
    match batch.kind {
        Kind::Transactional => Ok(Work {
            restores: Vec::new(alloc),
            is_newest: false,
        }),
        Kind::Opaque => plan_opaque(alloc, store, known, batch.root.txid, groups),
    }
}

/// A job for each key that is written, or whose cell is of the transaction.
fn plan_opaque<C: CellStore>(
    alloc: Global,
    store: &mut C,
    known: Option<Known>,
    txid: u64,
    groups: &Groups<'_>,
) -> Result<Work, PartFault>
    requires known { IfSome known (Knows C.tells store.old) }
    requires apart { AreApart (jobs_in groups.now) }
    ensures plan { IfOk result (λ work. (cells : CellMap) → C.tells store.old cells →
        IsPlan Kind.Opaque txid (amounts_in groups.now) cells
        (jobs_of groups.now work.restores.items)) }
    ensures known { IfOk result (λ work. (cells : CellMap) → C.tells store.old cells →
        AreKnown txid work.is_newest (keys_in (jobs_of groups.now work.restores.items)) cells) }
    ensures same { (cells : CellMap) → C.tells store.old cells → C.tells store.new cells }
    ensures told_before { (cells : CellMap) → C.tells store.new cells → C.tells store.old cells }
    ensures failed { IsErrOf result PartFault.Store →
        C.fault_count store.new ≡ raised (C.fault_count store.old) }
    ensures quiet { (IsErrOf result PartFault.Store → ⊥) →
        C.fault_count store.new ≡ C.fault_count store.old }
    ensures bad { (k : List ℕ) → IsErrOf result (PartFault.BadCell k) →
        (cells : CellMap) → C.tells store.old cells → IsBad Kind.Opaque (cell_at cells k) }
    ensures never_falls { C.fault_count store.old ≤ C.fault_count store.new }
{
    let found = match find_known(alloc, store, known, txid) {
        Ok(found) => found,
        Err(fault) => return Err(fault),
    };
    let Known {
        keys,
        is_newest,
        ..
    } = found;
    let restores = restores_of(alloc, groups, keys)?;
    Ok(Work {
        restores,
        is_newest,
    })
}

/// What is known of a transaction, with one look at each key only where that has to be found out.
fn find_known<C: CellStore>(
    alloc: Global,
    store: &mut C,
    known: Option<Known>,
    txid: u64,
) -> Result<Known, PartFault>
    requires { IfSome known (Knows C.tells store.old) }
    ensures txid { IfOk result (λ found. found.txid ≡ txid) }
    ensures knows { IfOk result (λ found. Knows C.tells store.old found) }
    ensures same { (cells : CellMap) → C.tells store.old cells → C.tells store.new cells }
    ensures told_before { (cells : CellMap) → C.tells store.new cells → C.tells store.old cells }
    ensures failed { IsErrOf result PartFault.Store →
        C.fault_count store.new ≡ raised (C.fault_count store.old) }
    ensures quiet { (IsErrOf result PartFault.Store → ⊥) →
        C.fault_count store.new ≡ C.fault_count store.old }
    ensures bad { (k : List ℕ) → IsErrOf result (PartFault.BadCell k) →
        (cells : CellMap) → C.tells store.old cells → IsBad Kind.Opaque (cell_at cells k) }
    ensures never_falls { C.fault_count store.old ≤ C.fault_count store.new }
{
    match known_of(alloc, known, txid) {
        Some(known) => Ok(known),
        None => scan(alloc, store, txid),
    }
}
