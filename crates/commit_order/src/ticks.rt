ghost use Rattle.std.specs.Prelude.{◌≡◌, ◌++◌, false, length, map, slice_get, OnOk, OnErr};
ghost use Rattle.std.specs.List.{AllByRecursion};
ghost use Rattle.std.specs.Option.{option_map};
ghost use Rattle.attempt_fates.specs.declared.fates.End.TheVariants as end;
ghost use Rattle.commit_turns.specs.Turns.{has_no_tick, heard, one_tick, passed, ticked};
ghost use Rattle.commit_order.specs.Offices.{AddsSome, AreWithin, GoesOn, entry_ended, entry_spans, try_at};
ghost use Rattle.record_offers.specs.Offers.{with_gone};
ghost use Rattle.replay_pending.specs.declared.entry.Entry.{Entry};
ghost use Rattle.taken_records.specs.Taken.{put_back};
ghost use Rattle.tuple_account.specs.storm_values.Lines.{first_some};

use crate::ends::{ended, into_wait};
use crate::office::Office;
use crate::settled::Settled;
use attempt_fates::{End, Fates};
use record_offers::Offers;
use replay_pending::Entry;
use taken_records::marks_are_set;
use tuple_account::acker_core::Verdict;
use tuple_account::storm_values::{Memory, Root};

impl<'p> Office<'p> {
    /// A verdict is heard, if there is one, and then the ticks pass.
    pub fn listen(
        &mut self,
        verdict: Option<Verdict>,
        ticks: u32,
        fates: &mut Fates,
    ) -> Result<(), Memory>
        ensures ok { OnOk result (GoesOn
            (passed self.old.topology self.old.cut ticks
            (heard self.old.topology self.old.cut verdict self.old.desk))
            self.old self.new fates.old fates.new) }
        ensures err { OnErr result (AddsSome
            (passed self.old.topology self.old.cut ticks
            (heard self.old.topology self.old.cut verdict self.old.desk)).ended
            fates.old fates.new) }
    {
        if let Some(told) = verdict {
            self.hear(told, fates)?;
        }
        self.pass(ticks, fates)
    }

    /// So many ticks pass, up to one after which the coordinator stops.
    pub fn pass(&mut self, ticks: u32, fates: &mut Fates) -> Result<(), Memory>
        ensures ok { OnOk result (GoesOn
            (ticked self.old.topology self.old.cut ticks self.old.desk)
            self.old self.new fates.old fates.new) }
        ensures err { OnErr result (AddsSome
            (ticked self.old.topology self.old.cut ticks self.old.desk).ended
            fates.old fates.new) }
    {
        for _ in 0..ticks {
            if self.has_no_tick() {
                return Ok(());
            }
            self.pass_one(fates)?;
        }
        Ok(())
    }

    // Whether a tick changes nothing.
    fn has_no_tick(&self) -> bool
        ensures { result ≡ has_no_tick self.now.topology self.now.cut self.now.desk }
    {
        self.exhausted.is_some() || self.flight.tick_number() == u64::MAX
    }

    // One tick passes: the attempts that are late end, in the order of their begins, and others with
    // the first of them.
    fn pass_one(&mut self, fates: &mut Fates) -> Result<(), Memory>
        requires { has_no_tick self.old.topology self.old.cut self.old.desk ≡ false }
        ensures ok { OnOk result (GoesOn
            (one_tick self.old.topology self.old.cut self.old.desk)
            self.old self.new fates.old fates.new) }
        ensures err { OnErr result (AddsSome
            (one_tick self.old.topology self.old.cut self.old.desk).ended
            fates.old fates.new) }
    {
        let late = self.flight.tick()?;
        let Some(first) = first_root(&late) else {
            return Ok(());
        };
        self.exhausted = self.first_last_try(&late);
        time_out(&mut self.offers, late, self.flight.tick_number(), fates)?;
        self.drop_with(first, fates)
    }

    // The transaction of the first attempt with which as many aborted as the plan allows.
    fn first_last_try(&self, late: &[Entry<Settled>]) -> Option<u64>
        ensures { result ≡ first_some
            (map (try_at self.now.topology self.now.desk.tries) late.now) }
    {
        for entry in late {
            let last = self.last_try(entry.root.txid);
            if last.is_some() {
                return last;
            }
        }
        None
    }
}

// The root of the first of some attempts.
fn first_root(late: &[Entry<Settled>]) -> Option<Root>
    ensures { result ≡ option_map (λ (e : Entry Settled). e.root) (slice_get late.now 0) }
{
    match late.first() {
        Some(entry) => Some(entry.root),
        None => None,
    }
}

// The attempts end at a tick, in order, and their records come back.
fn time_out(
    offers: &mut Offers,
    late: Vec<Entry<Settled>>,
    tick: u64,
    fates: &mut Fates,
) -> Result<(), Memory>
    requires { AllByRecursion (λ (e : Entry Settled).
        AreWithin (length offers.old.records) e.spans) late.items }
    ensures same { offers.new ≡ with_gone offers.old offers.new.gone }
    ensures offers { OnOk result (offers.new
        ≡ with_gone offers.old (put_back (map entry_spans late.items) offers.old.gone)) }
    ensures ok { OnOk result (fates.new
        ≡ fates.old ++ map (entry_ended tick end.TimedOut) late.items) }
    ensures err { OnErr result (AddsSome
        (map (entry_ended tick end.TimedOut) late.items) fates.old fates.new) }
{
    marks_are_set();
    for entry in late {
        offers.put_back(&entry.spans);
        fates.push(ended(into_wait(entry), tick, End::TimedOut))?;
    }
    Ok(())
}
