ghost use Rattle.std.specs.Prelude.{◌≡◌, ◌++◌, map, filter, not, length, OnOk, OnErr};
ghost use Rattle.std.specs.List.{AllByRecursion};
ghost use Rattle.attempt_fates.specs.declared.fates.End.TheVariants as end;
ghost use Rattle.commit_order.specs.Offices.{AddsSome, AreWithin, entry_ended, entry_spans};
ghost use Rattle.record_offers.specs.Offers.{with_gone};
ghost use Rattle.replay_pending.specs.InFlight.{is_above};
ghost use Rattle.replay_pending.specs.declared.entry.Entry.{Entry};
ghost use Rattle.taken_records.specs.Taken.{put_back};

use crate::ends::{ended, into_wait};
use crate::settled::Settled;
use attempt_fates::{End, Fates};
use record_offers::Offers;
use replay_pending::Pending;
use taken_records::marks_are_set;
use tuple_account::storm_values::{Memory, Root};

/// The pending attempts of transactions above that of a root end with it, in the order of their
/// begins, and their records come back.
pub(crate) fn drop_above(
    flight: &mut Pending<Settled>,
    offers: &mut Offers,
    first: Root,
    fates: &mut Fates,
) -> Result<(), Memory>
    requires { AllByRecursion (λ (e : Entry Settled).
        AreWithin (length offers.old.records) e.spans) flight.old.pending }
    ensures within { AllByRecursion (λ (e : Entry Settled).
        AreWithin (length offers.old.records) e.spans) flight.new.pending }
    ensures rest { flight.new ≡ record flight.old { pending = flight.new.pending } }
    ensures same { offers.new ≡ with_gone offers.old offers.new.gone }
    ensures flight { OnOk result (flight.new ≡ record flight.old {
      pending = filter (λ (e : Entry Settled). not (is_above first.txid e)) flight.old.pending;
    }) }
    ensures offers { OnOk result (offers.new ≡ with_gone offers.old (put_back
        (map entry_spans (filter (is_above first.txid) flight.old.pending)) offers.old.gone)) }
    ensures ok { OnOk result (fates.new ≡ fates.old
        ++ map (entry_ended flight.old.tick (end.Dropped first))
        (filter (is_above first.txid) flight.old.pending)) }
    ensures err { OnErr result (AddsSome (map (entry_ended flight.old.tick (end.Dropped first))
        (filter (is_above first.txid) flight.old.pending)) fates.old fates.new) }
{
    marks_are_set();
    while let Some(entry) = flight.end_above(first.txid) {
        offers.put_back(&entry.spans);
        let tick = flight.tick_number();
        fates.push(ended(into_wait(entry), tick, End::Dropped(first)))?;
    }
    Ok(())
}
