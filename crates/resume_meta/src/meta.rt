ghost use Rattle.std.specs.Prelude.{◌≡◌, ◌≤◌, ◌⊎◌, None, Some, IfOk, IfSome, IfNone, IsErrOf, IsSomeAnd, OnOk};
ghost use Rattle.storm_values.specs.Counts.{raised};
ghost use Rattle.resume_meta.specs.Keepers.{Held};

use crate::fault::MetaFault;
use crate::keeper::Keeper;
use crate::text::{meta_text, read_meta};
use record_spans::Spans;
use std::alloc::Global;

/// What is kept of a run: the last transaction that was committed, the number of records of the
/// input, and the spans of those that are gone.
#[derive(Debug, Drop)]
pub struct Meta {
    pub txid: u64,
    pub records: u64,
    pub spans: Spans,
}

impl Meta {
    ghost use Rattle.resume_meta.specs.Meta.{AreSeparate, IsNoText, IsTextOf, meta_text};

    /// The meta that a keeper holds, or `None` where it holds nothing.
    pub fn load<P: Keeper>(alloc: Global, keeper: &mut P) -> Result<Option<Meta>, MetaFault>
        ensures none { IfOk result (λ kept. IfNone kept
            ((held : Held) → P.holds keeper.old held → held ≡ None)) }
        ensures some { IfOk result (λ kept. IfSome kept (λ meta. (held : Held) →
            P.holds keeper.old held → IsSomeAnd held (λ bytes. IsTextOf bytes meta))) }
        ensures bad { IsErrOf result MetaFault.Bad → (held : Held) →
            P.holds keeper.old held → IsSomeAnd held IsNoText }
        ensures same { (held : Held) → P.holds keeper.old held → P.holds keeper.new held }
        ensures told_before { (held : Held) → P.holds keeper.new held → P.holds keeper.old held }
        ensures failed { IsErrOf result MetaFault.Keep →
            P.fault_count keeper.new ≡ raised (P.fault_count keeper.old) }
        ensures quiet { (IsErrOf result MetaFault.Keep → ⊥) →
            P.fault_count keeper.new ≡ P.fault_count keeper.old }
        ensures never_falls { P.fault_count keeper.old ≤ P.fault_count keeper.new }
    {
        let Some(bytes) = keeper.load()? else {
            return Ok(None);
        };
        match read_meta(alloc, bytes.as_slice())? {
            Some(meta) => Ok(Some(meta)),
            None => Err(MetaFault::Bad),
        }
    }

    /// Lets a keeper hold the text of this meta.
    pub fn save<P: Keeper>(&self, alloc: Global, keeper: &mut P) -> Result<(), MetaFault>
        requires separate { AreSeparate self.now.spans }
        ensures done { OnOk result ((held : Held) → P.holds keeper.old held →
            P.holds keeper.new (Some (meta_text self.now))) }
        ensures perhaps_done { IsErrOf result MetaFault.Keep → (held : Held) →
            P.holds keeper.old held →
            P.holds keeper.new held ⊎ P.holds keeper.new (Some (meta_text self.now)) }
        ensures not_done { IsErrOf result MetaFault.Memory → (held : Held) →
            P.holds keeper.old held → P.holds keeper.new held }
        ensures never_bad { IsErrOf result MetaFault.Bad → ⊥ }
        ensures told_before { (held : Held) →
            P.holds keeper.new held → (before : Held) × P.holds keeper.old before }
        ensures failed { IsErrOf result MetaFault.Keep →
            P.fault_count keeper.new ≡ raised (P.fault_count keeper.old) }
        ensures quiet { (IsErrOf result MetaFault.Keep → ⊥) →
            P.fault_count keeper.new ≡ P.fault_count keeper.old }
        ensures never_falls { P.fault_count keeper.old ≤ P.fault_count keeper.new }
    {
        let text = meta_text(alloc, self)?;
        keeper.save(text.as_bytes())?;
        Ok(())
    }
}
