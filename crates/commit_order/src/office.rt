ghost use Rattle.std.specs.Prelude.{◌≡◌, Bool, false, Some, IfOk};
ghost use Rattle.std.specs.List.{find};
ghost use Rattle.commit_turns.specs.Desks.{first_desk, without};
ghost use Rattle.commit_turns.specs.declared.wait.Wait.{Wait};
ghost use Rattle.commit_turns.specs.Turns.{is_finished};
ghost use Rattle.replay_pending.specs.InFlight.{with_aborted};
ghost use Rattle.taken_records.specs.Taken.{marked};
ghost use Rattle.tuple_account.specs.Histories.{acker_of};

use crate::ends::into_wait;
use crate::settled::Settled;
use commit_turns::Wait;
use record_offers::Offers;
use record_spans::Spans;
use replay_pending::Pending;
use std::alloc::Global;
use std::marker::Model;
use taken_records::marks_are_set;
use tuple_account::storm_values::{Memory, Root};
use tuple_account::topology_plan::Plan;

/// What the coordinator knows of the batches of a plan, apart from ids and targets.
#[derive(Drop)]
pub(crate) struct Office<'p> {
    pub alloc: Global,
    pub plan: &'p Plan,
    pub offers: Offers,
    // the records that were gone at the start
    pub began: Spans,
    pub committed: u64,
    pub flight: Pending<Settled>,
    pub out: bool,
    pub exhausted: Option<u64>,
}

impl<'p> Model for Office<'p> {
    ghost use Rattle.commit_order.specs.Offices.{IsInFlight, Office, cut_by, waits};

    ghost Value = { Office };

    ghost use Rattle.std.specs.Prelude.{length};
    ghost use Rattle.std.specs.Coded.{codes, coded_ℕ};
    ghost use Rattle.std.specs.FinMap as fin_map;
    ghost use Rattle.std.specs.Ordering.{nat_cmp};
    ghost use Rattle.replay_pending.specs.InFlight.{tried_code};

    ghost coded = { Prim.hlevel (codes, fin_map.code {R = nat_cmp} coded_ℕ tried_code) };

    ghost view = { λ o. record {
      topology = o.plan.now;
      cut = cut_by o.offers o.began;
      desk = record {
        tick = o.flight.tick;
        committed = o.committed;
        tries = o.flight.tries;
        gone = o.offers.gone;
        pending = waits o.flight.pending;
        out = o.out;
        exhausted = o.exhausted;
      };
    } };

    ghost invariant = { λ o. IsInFlight o.plan.now (length o.offers.records) o.flight };
}

impl<'p> Office<'p> {
    /// Nothing is pending, and the offers are as they are now.
    pub fn new(alloc: Global, plan: &'p Plan, offers: Offers) -> Result<Self, Memory>
        ensures { IfOk result (λ office. office
            ≡ record { topology = plan.now; cut = offers; desk = first_desk offers }) }
    {
        plan.facts();
        let _left = offers.left();
        let began = offers.gone_spans()?;
        marks_are_set();
        Ok(Office {
            alloc,
            plan,
            began,
            committed: offers.start(),
            flight: Pending::new(alloc, plan.pending(), plan.buckets()),
            offers,
            out: false,
            exhausted: None,
        })
    }

    pub fn exhausted(&self) -> Option<u64>
        ensures { result ≡ self.now.desk.exhausted }
    {
        self.exhausted
    }

    pub fn committed(&self) -> u64
        ensures { result ≡ self.now.desk.committed }
    {
        self.committed
    }

    pub fn is_finished(&self) -> bool
        ensures { result ≡ is_finished self.now.topology self.now.cut self.now.desk }
    {
        self.offers.left() == 0 && self.flight.len() == 0
    }

    /// Whether a commit was ordered whose outcome was not told yet.
    pub fn is_out(&self) -> bool
        ensures { result ≡ self.now.desk.out }
    {
        self.out
    }

    /// How many attempts may be pending.
    pub fn most_pending(&self) -> u32
        ensures { result ≡ self.now.topology.pending }
    {
        self.plan.pending()
    }

    /// The acker of a root.
    pub fn acker_of(&self, root: Root) -> u32
        ensures { result ≡ acker_of self.now.topology root }
    {
        self.plan.facts();
        (root.txid % u64::from(self.plan.ackers())) as u32
    }

    /// The pending attempt of a root, which is pending no longer.
    pub fn take(&mut self, root: Root) -> Option<Wait>
        ensures taken { (like : Wait → Bool) (w : Wait)
            → find like self.old.desk.pending ≡ Some w → w.root ≡ root → result ≡ Some w }
        ensures left { self.new ≡ record self.old {
          desk = record self.old.desk { pending = without root self.old.desk.pending };
        } }
    {
        self.flight.pending_are_few();
        match self.flight.end(root) {
            Some(entry) => Some(into_wait(entry)),
            None => None,
        }
    }

    /// The pending attempt of a root aborts: it is pending no longer, it is counted, and its records
    /// come back.
    pub fn abort(&mut self, root: Root) -> Option<Wait>
        ensures taken { (like : Wait → Bool) (w : Wait)
            → find like self.old.desk.pending ≡ Some w → w.root ≡ root → result ≡ Some w }
        ensures left { (w : Wait) → result ≡ Some w → self.new ≡ record self.old {
          desk = record self.old.desk {
            tries = with_aborted root.txid self.old.desk.tries;
            gone = marked false w.spans self.old.desk.gone;
            pending = without root self.old.desk.pending;
          };
        } }
    {
        self.flight.pending_are_few();
        match self.flight.abort(root) {
            Some(entry) => {
                marks_are_set();
                self.offers.put_back(&entry.spans);
                Some(into_wait(entry))
            }
            None => None,
        }
    }
}
