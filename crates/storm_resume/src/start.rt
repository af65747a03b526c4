//! Where a run goes on.
ghost use Rattle.std.specs.Prelude.{◌≡◌, ◌≤◌, List, All, IfOk, IfErr, IsTrue, false, length, string_bytes};
ghost use Rattle.event_worlds.specs.Accounted.{IsInput};
ghost use Rattle.event_worlds.specs.storm_values.Limits.{most_lines};
ghost use Rattle.event_worlds.specs.storm_values.Rows.{IsRow};
ghost use Rattle.event_worlds.specs.storm_values.declared.value.Value.{Value};
ghost use Rattle.kept_commits.specs.Kept.{WasKept, first_meta};
ghost use Rattle.resume_meta.specs.Keepers.{Held};
ghost use Rattle.storm_answers.specs.steps.Stops.{Stops};
ghost use Rattle.storm_resume.specs.Keeping.{IsUnchanged, keeper_use};
ghost use Rattle.storm_resume.specs.Resume.{IsOfInput, cut_after, keep_fault_line};
ghost use Rattle.storm_resume.specs.steps.Going.{StartComes};

use event_worlds::record_offers::{Offers, possible};
use event_worlds::record_spans::Spans;
use event_worlds::storm_values::{Memory, Rows};
use event_worlds::taken_records::possible_starts_are_starts;
use event_worlds::topology_plan::Plan;
use kept_commits::KeptCommits;
use resume_meta::{Keeper, Meta, MetaFault};
use std::alloc::Global;
use storm_answers::{EarlyEnd, Status, told};

/// The meta at which a run over these records goes on: what the keeper holds, or the first one
/// where it holds nothing. What is no meta of a run over them is refused. The line of a fault of the
/// keeper comes back where it was not needed.
pub fn start_of<P: Keeper>(
    alloc: Global,
    plan: &Plan,
    rows: &Rows,
    keeper: &mut KeptCommits<P>,
    fault: String,
) -> Result<(Meta, String), EarlyEnd>
    requires { string_bytes fault ≡ keep_fault_line }
    ensures kept { IfOk result (λ start. (held : Held) →
        P.holds keeper.old.keeper held → WasKept held start.0) }
    ensures kept_still { IfOk result (λ start. (held : Held) →
        P.holds keeper.new.keeper held → WasKept held start.0) }
    ensures of_input { IfOk result (λ start. IsOfInput plan.now rows.now start.0) }
    ensures same { IfOk result (λ start. IsUnchanged
        (keeper_use P.holds P.fault_count keeper.old.keeper keeper.new.keeper)) }
    ensures line { IfOk result (λ start. string_bytes start.1 ≡ keep_fault_line) }
    ensures stop { IfErr result (Stops (StartComes plan.now rows.now
        (keeper_use P.holds P.fault_count keeper.old.keeper keeper.new.keeper))) }
    ensures never_falls { P.fault_count keeper.old.keeper ≤ P.fault_count keeper.new.keeper }
{
    let records = rows.len() as u64;
    match keeper.load() {
        Ok(None) => Ok((first_meta(alloc, records), fault)),
        Ok(Some(meta)) => {
            if is_of_input(plan, records, &meta) {
                return Ok((meta, fault));
            }
            Err(told(alloc, Status::Kept, "kept: other input\n"))
        }
        Err(MetaFault::Keep) => Err(EarlyEnd::Told(Status::KeepFault, fault)),
        Err(MetaFault::Bad) => Err(told(alloc, Status::Kept, "kept: not a meta\n")),
        Err(MetaFault::Memory) => Err(EarlyEnd::Memory),
    }
}

/// The meta of an input of which nothing was committed.
fn first_meta(alloc: Global, records: u64) -> Meta
    ensures { result ≡ first_meta records }
{
    Meta {
        txid: 0,
        records,
        spans: Spans::new(alloc),
    }
}

/// Whether a meta may be that of a run over so many records.
fn is_of_input(plan: &Plan, records: u64, meta: &Meta) -> bool
    ensures yes { IsTrue result → (rows : List (List Value)) → length rows ≡ records
        → IsOfInput plan.now rows meta.now }
    ensures no { result ≡ false → (rows : List (List Value)) → length rows ≡ records
        → IsOfInput plan.now rows meta.now → ⊥ }
{
    plan.facts();
    meta.records == records
        && possible(
            plan.batch(),
            plan.partitions(),
            records,
            meta.txid,
            meta.spans.as_slice(),
        )
}

/// The records of an input, offered as a plan says, where those of a start are gone.
pub fn offers_after(plan: &Plan, rows: Rows, start: &Meta) -> Result<Offers, Memory>
    requires rows { All (IsRow (length plan.now.spout_fields)) rows }
    requires few { length rows ≤ most_lines }
    requires of_input { IsOfInput plan.now rows start.now }
    ensures cut { IfOk result (λ offers. offers ≡ cut_after plan.now rows start.now) }
    ensures input { IfOk result (IsInput plan.now) }
{
    // a law: a possible start is a start
    possible_starts_are_starts();
    plan.facts();
    Offers::after(
        rows,
        plan.batch(),
        plan.partitions(),
        start.txid,
        &start.spans,
    )
}
