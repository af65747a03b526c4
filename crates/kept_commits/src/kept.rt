ghost use Rattle.std.specs.Prelude.{◌≡◌, ◌+◌, ◌^◌, ◌<◌, ◌≤◌, ◌⊎◌, ◌++◌, ◌∷◌, [], List, None, Some, IfOk, IfSome, IfNone, OnOk, OnErr, IsErrOf, IsSomeAnd, IsTrue};
ghost use Rattle.resume_meta.specs.Keepers.{Held};
ghost use Rattle.resume_meta.specs.Meta.{IsNoText, IsTextOf};
ghost use Rattle.storm_values.specs.Counts.{raised};
ghost use Rattle.state_parts.specs.declared.answer.Commit.{Commit};
ghost use Rattle.kept_commits.specs.Kept.{IsTold, WasKept, first_meta, start_of};
ghost use Rattle.kept_commits.specs.Steps.{IsNext, is_broken_by};

use crate::joining::joined;
use commit_order::Follow;
use record_spans::{Span, Spans};
use resume_meta::{Keeper, Meta, MetaFault};
use state_parts::Commit;
use std::alloc::Global;
use storm_stores::StoreFault;
use storm_values::Memory;

/// Keeps the meta of a run. After each commit it joins the spans of its records to those that are
/// gone and lets a keeper hold the meta of them.
///
/// What the keeper holds is loaded first, and then a start is set. After a save that failed the
/// keeper holds the old meta or the new one, so that no further commit is taken before another
/// start.
#[derive(Drop)]
pub struct KeptCommits<P: Keeper> {
    pub keeper: P,
    meta: Meta,
    broken: bool,
    alloc: Global,
}

impl<P: Keeper> KeptCommits<P> {
    /// A follower that has a keeper and no start.
    pub fn new(alloc: Global, keeper: P) -> Self
        ensures keeper { result.keeper ≡ keeper }
        ensures meta { result.meta ≡ first_meta 0 }
    {
        KeptCommits {
            keeper,
            meta: Meta {
                txid: 0,
                records: 0,
                spans: Spans::new(alloc),
            },
            broken: false,
            alloc,
        }
    }

    /// The meta that the keeper holds, or `None` where it holds nothing.
    pub fn load(&mut self) -> Result<Option<Meta>, MetaFault>
        ensures none { IfOk result (λ kept. IfNone kept
            ((held : Held) → P.holds self.old.keeper held → held ≡ None)) }
        ensures some { IfOk result (λ kept. IfSome kept (λ meta. (held : Held) →
            P.holds self.old.keeper held → IsSomeAnd held (λ bytes. IsTextOf bytes meta))) }
        ensures bad { IsErrOf result MetaFault.Bad → (held : Held) →
            P.holds self.old.keeper held → IsSomeAnd held IsNoText }
        ensures same { (held : Held) →
            P.holds self.old.keeper held → P.holds self.new.keeper held }
        ensures told_before { (held : Held) →
            P.holds self.new.keeper held → P.holds self.old.keeper held }
        ensures failed { IsErrOf result MetaFault.Keep →
            P.fault_count self.new.keeper ≡ raised (P.fault_count self.old.keeper) }
        ensures quiet { (IsErrOf result MetaFault.Keep → ⊥) →
            P.fault_count self.new.keeper ≡ P.fault_count self.old.keeper }
        ensures never_falls { P.fault_count self.old.keeper ≤ P.fault_count self.new.keeper }
    {
        Meta::load(self.alloc, &mut self.keeper)
    }

    /// Sets the meta from which a run goes on: what the keeper holds, or the first one of an input
    /// where it holds nothing.
    pub fn start(&mut self, meta: Meta)
        ensures keeper { self.new.keeper ≡ self.old.keeper }
        ensures told { (held : Held) → P.holds self.old.keeper held → WasKept held meta
            → ⟦<KeptCommits<P> as Follow>⟧.tells self.new (start_of meta ∷ []) }
        ensures takes { ⟦<KeptCommits<P> as Follow>⟧.takes self.new ≡ Some (meta.txid + 1) }
    {
        self.meta = meta;
        self.broken = false;
    }
}

/// The meta after one commit more.
fn next_meta(alloc: Global, meta: &Meta, commit: &Commit) -> Result<Meta, Memory>
    ensures { IfOk result (IsNext meta.now commit.now) }
{
    let spans = joined(alloc, meta.spans.as_slice(), commit.spans.as_slice())?;
    Ok(meta_of(commit.root.txid, meta.records, spans))
}

fn meta_of(txid: u64, records: u64, spans: Vec<Span>) -> Meta
    ensures txid { result.txid ≡ txid }
    ensures records { result.records ≡ records }
    ensures spans { result.spans ≡ spans.items }
    ensures txid_fits { result.txid < 2 ^ 64 }
    ensures records_fit { result.records < 2 ^ 64 }
{
    Meta {
        txid,
        records,
        spans: Spans::from_vec(spans),
    }
}

impl<P: Keeper> Follow for KeptCommits<P> {
    ghost tells = { λ s commits. IsTold P.holds s.keeper s.meta s.broken commits };

    ghost takes = { λ s. Some (s.meta.txid + 1) };

    ghost fault_count = { λ s. P.fault_count s.keeper };

    fn told(&mut self, commit: &Commit) -> Result<(), StoreFault>
        ensures done { OnOk result ((commits : List Commit) →
            ⟦<KeptCommits<P> as Follow>⟧.tells self.old commits →
            ⟦<KeptCommits<P> as Follow>⟧.tells self.new (commits ++ commit.now ∷ [])) }
        ensures perhaps_done { IsErrOf result StoreFault.Failed → (commits : List Commit) →
            ⟦<KeptCommits<P> as Follow>⟧.tells self.old commits →
            ⟦<KeptCommits<P> as Follow>⟧.tells self.new commits
            ⊎ ⟦<KeptCommits<P> as Follow>⟧.tells self.new (commits ++ commit.now ∷ []) }
        ensures txid { OnOk result (self.new.meta.txid ≡ commit.now.root.txid) }
        ensures records { self.new.meta.records ≡ self.old.meta.records }
        ensures not_taken { OnErr result (self.new.meta ≡ self.old.meta) }
        ensures breaks { self.new.broken ≡ is_broken_by result self.old.broken }
        ensures broken { IsTrue self.old.broken →
            (result ≡ Err StoreFault.Memory) × (self.new ≡ self.old) }
        ensures failed { IsErrOf result StoreFault.Failed →
            P.fault_count self.new.keeper ≡ raised (P.fault_count self.old.keeper) }
        ensures quiet { (IsErrOf result StoreFault.Failed → ⊥) →
            P.fault_count self.new.keeper ≡ P.fault_count self.old.keeper }
        ensures never_falls { P.fault_count self.old.keeper ≤ P.fault_count self.new.keeper }
    {
        if self.broken {
            return Err(StoreFault::Memory);
        }
        let next = next_meta(self.alloc, &self.meta, commit)?;
        match next.save(self.alloc, &mut self.keeper) {
            Ok(()) => {
                self.meta = next;
                Ok(())
            }
            Err(MetaFault::Keep) => {
                self.broken = true;
                Err(StoreFault::Failed)
            }
            Err(_) => Err(StoreFault::Memory),
        }
    }
}
