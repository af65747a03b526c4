ghost use Rattle.std.specs.Prelude.{◌≡◌, Bool, [], ◌∷◌, Some, OnOk, OnErr};
ghost use Rattle.std.specs.List.{find};
ghost use Rattle.commit_order.specs.Offices.{AddsSome, DropsAll, GoesOn, try_of, wait_of};
ghost use Rattle.commit_turns.specs.declared.wait.Wait.{Wait};
ghost use Rattle.commit_turns.specs.Desks.{ended_at, without};
ghost use Rattle.commit_turns.specs.Turns.{aborted, drops};

use crate::drops::drop_above;
use crate::office::Office;
use crate::settled::Settled;
use attempt_fates::{Attempt, End, Fates};
use commit_turns::Wait;
use replay_pending::Entry;
use tuple_account::storm_values::{Memory, Root};

/// An attempt without what its commit would have needed.
pub(crate) fn into_wait(entry: Entry<Settled>) -> Wait
    ensures { result ≡ wait_of entry }
{
    let Entry {
        root,
        spans,
        start,
        settled,
    } = entry;
    Wait {
        root,
        spans,
        start,
        settled: match settled {
            Some(settled) => Some(settled.into_list()),
            None => None,
        },
    }
}

/// An attempt that ended at a tick.
pub(crate) fn ended(wait: Wait, finish: u64, end: End) -> Attempt
    ensures { result ≡ ended_at finish end wait }
{
    let Wait {
        root,
        spans,
        start,
        ..
    } = wait;
    Attempt {
        root,
        spans,
        start,
        finish,
        end,
    }
}

impl<'p> Office<'p> {
    /// The pending attempt of a root aborts at the present tick, and others end with it.
    pub fn end_aborted(&mut self, root: Root, end: End, fates: &mut Fates) -> Result<(), Memory>
        ensures ok { (like : Wait → Bool) (w : Wait)
            → find like self.old.desk.pending ≡ Some w → w.root ≡ root
            → OnOk result (GoesOn (aborted self.old.topology self.old.cut
            (ended_at self.old.desk.tick end w ∷ [])
            (record self.old.desk { pending = without root self.old.desk.pending }))
            self.old self.new fates.old fates.new) }
        ensures err { (like : Wait → Bool) (w : Wait)
            → find like self.old.desk.pending ≡ Some w → w.root ≡ root
            → OnErr result (AddsSome (aborted self.old.topology self.old.cut
            (ended_at self.old.desk.tick end w ∷ [])
            (record self.old.desk { pending = without root self.old.desk.pending })).ended
            fates.old fates.new) }
    {
        let Some(wait) = self.abort(root) else {
            return Ok(());
        };
        self.exhausted = self.last_try(root.txid);
        fates.push(ended(wait, self.flight.tick_number(), end))?;
        self.drop_with(root, fates)
    }

    /// With partitions, the pending attempts of transactions above that of a root are dropped.
    pub fn drop_with(&mut self, first: Root, fates: &mut Fates) -> Result<(), Memory>
        ensures ok { OnOk result (DropsAll first self.old self.new fates.old fates.new) }
        ensures err { OnErr result (AddsSome
            (drops self.old.topology self.old.cut self.old.desk.tick first self.old.desk.pending)
            fates.old fates.new) }
    {
        if self.offers.partitions() == 0 {
            return Ok(());
        }
        drop_above(&mut self.flight, &mut self.offers, first, fates)
    }

    /// The transaction, where as many of its attempts aborted as the plan allows.
    pub fn last_try(&self, txid: u64) -> Option<u64>
        ensures { result ≡ try_of self.now.topology self.now.desk.tries txid }
    {
        if self.flight.tried(txid).aborted < self.plan.attempts() {
            None
        } else {
            Some(txid)
        }
    }
}
