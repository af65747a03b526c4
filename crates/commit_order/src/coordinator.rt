ghost use Rattle.std.specs.Prelude.{◌≡◌, ◌++◌, ℕ, List, length, true, false, None, Some, Err, IfOk, OnOk};
ghost use Rattle.commit_order.specs.Offices.{IsCommitOf};
ghost use Rattle.commit_order.specs.Orders.{AddsOpening, Begins, DecidesTo, IsFirst, IsOwn, MayDecide, MayTurn, RunsShort, StaysOwn, StopsAt, TurnsTo, collector_of, comes_to, cut_of, desk_of, office_of, plan_of, stop_of, wanted_memory};
ghost use Rattle.commit_order.specs.declared.stop.Stop.{Stop};
ghost use Rattle.commit_order.specs.declared.stop.Stop.TheVariants as stop;
ghost use Rattle.commit_turns.specs.Account.{rows_at};
ghost use Rattle.commit_turns.specs.declared.wait.Wait.{Wait};
ghost use Rattle.commit_turns.specs.Turns.{decided, filled, is_finished, next_to_commit, ordered, turned};

use crate::begins::Begun;
use crate::office::Office;
use crate::stop::Stop;
use attempt_fates::Fates;
use output_collector::Collector;
use record_offers::Offers;
use state_parts::{Commit, CommitOutcome};
use std::alloc::Global;
use storm_ids::Ids;
use tuple_account::acker_core::Verdict;
use tuple_account::storm_values::{Memory, Path};
use tuple_account::topology_plan::{Origin, Plan};
use tuple_account::tree_model::{AckMsg, Init, Parcel, Parcels};

/// What a turn orders: parcels in the order of the roots that begin, of each the first tuples in
/// path order and then the init, and a commit.
#[derive(Debug, Drop)]
pub struct Orders {
    pub parcels: Parcels,
    pub commit: Option<Commit>,
}

/// Begins the attempts of batches, hears what came of them, and orders their commits in the order
/// of their transactions.
#[derive(Drop)]
pub struct Coordinator<'p, I: Ids> {
    alloc: Global,
    office: Office<'p>,
    collector: Collector<'p, I>,
    wanted_memory: bool,
}

impl<'p, I: Ids> Coordinator<'p, I> {
    /// The coordinator of a plan, which starts where its offers do. It draws one start word for each
    /// subscription of the spout first.
    pub fn new(alloc: Global, plan: &'p Plan, offers: Offers, ids: I) -> Result<Self, Memory>
        ensures first { IfOk result (IsFirst I.tells plan.now offers ids) }
        ensures own { IfOk result IsOwn }
    {
        let office = Office::new(alloc, plan, offers)?;
        let collector = Collector::new(alloc, plan, Origin::Spout, plan.tasks(), ids)?;
        Ok(Coordinator {
            alloc,
            office,
            collector,
            wanted_memory: false,
        })
    }

    /// Whether no record is left uncommitted.
    pub fn finished(&self) -> bool
        ensures { result ≡ is_finished (plan_of self.now) (cut_of self.now) (desk_of self.now) }
    {
        self.office.is_finished()
    }

    /// The last transaction that is committed: that of the start, and then of one batch after another.
    pub fn committed_count(&self) -> u64
        ensures { result ≡ (desk_of self.now).committed }
    {
        self.office.committed()
    }

    /// The transaction whose attempts have run out, where the coordinator stopped at one.
    pub fn exhausted(&self) -> Option<u64>
        ensures { result ≡ (desk_of self.now).exhausted }
    {
        self.office.exhausted()
    }

    /// Whether a commit was ordered whose outcome was not told yet.
    pub fn has_commit_out(&self) -> bool
        ensures { result ≡ (desk_of self.now).out }
    {
        self.office.is_out()
    }

    /// A turn: a verdict is heard, the ticks since the last turn pass, the commit of the lowest
    /// transaction that was not committed is ordered where it is settled, and attempts begin while
    /// fewer are pending than may be and something is offered: bit q of `shut` says that partition q
    /// is shut. Attempts that end are added to the fates. Where as many attempts of a transaction
    /// have aborted as the plan allows, the turn makes no further tick and no further step. A
    /// coordinator that stopped answers the same again.
    pub fn turn(
        &mut self,
        fates: &mut Fates,
        verdict: Option<Verdict>,
        ticks: u32,
        shut: u16,
    ) -> Result<Orders, Stop>
        requires none_out { MayTurn self.old }
        requires own { StaysOwn self.old }
        ensures own { StaysOwn self.new }
        ensures turned { stop_of self.old ≡ None → IfOk result (TurnsTo I.tells
            (plan_of self.old) (cut_of self.old)
            (turned (plan_of self.old) (cut_of self.old) verdict ticks shut (desk_of self.old))
            self.old self.new) }
        ensures fates { stop_of self.old ≡ None → OnOk result (fates.new ≡ fates.old ++ (turned
            (plan_of self.old) (cut_of self.old) verdict ticks shut (desk_of self.old)).ended) }
        ensures stops { stop_of self.old ≡ None → (txid : ℕ)
            → result ≡ Err (stop.Exhausted txid) → StopsAt txid
            (turned (plan_of self.old) (cut_of self.old) verdict ticks shut
            (desk_of self.old)).desk
            (turned (plan_of self.old) (cut_of self.old) verdict ticks shut
            (desk_of self.old)).ended
            self.old self.new fates.old fates.new }
        ensures short { stop_of self.old ≡ None → result ≡ Err stop.Memory → RunsShort
            (turned (plan_of self.old) (cut_of self.old) verdict ticks shut (desk_of self.old)).ended
            self.new fates.old fates.new }
        ensures again { (stop : Stop) → stop_of self.old ≡ Some stop
            → (result ≡ Err stop) × (self.new ≡ self.old) × (fates.new ≡ fates.old) }
        ensures no_cell { (key : List ℕ) → result ≡ Err (stop.BadCell key) → ⊥ }
        ensures no_follower { (txid : ℕ) → result ≡ Err (stop.Follow txid) → ⊥ }
    {
        if let Some(stop) = self.stopped() {
            return Err(stop);
        }
        if self.office.listen(verdict, ticks, fates).is_err() {
            return Err(self.stop_short());
        }
        if let Some(txid) = self.office.exhausted() {
            return Err(Stop::Exhausted(txid));
        }
        match self.order_and_fill(shut) {
            Ok(orders) => Ok(orders),
            Err(_) => Err(self.stop_short()),
        }
    }

    /// The outcome of the commit that was ordered: its attempt ends. A coordinator that stopped
    /// answers the same again.
    pub fn committed(&mut self, fates: &mut Fates, how: CommitOutcome) -> Result<(), Stop>
        requires one_out { MayDecide self.old }
        requires own { StaysOwn self.old }
        ensures own { StaysOwn self.new }
        ensures ends { stop_of self.old ≡ None → OnOk result (DecidesTo
            (decided (plan_of self.old) (cut_of self.old) how (desk_of self.old))
            self.old self.new fates.old fates.new) }
        ensures stops { stop_of self.old ≡ None → (txid : ℕ)
            → result ≡ Err (stop.Exhausted txid) → StopsAt txid
            (decided (plan_of self.old) (cut_of self.old) how (desk_of self.old)).desk
            (decided (plan_of self.old) (cut_of self.old) how (desk_of self.old)).ended
            self.old self.new fates.old fates.new }
        ensures short { stop_of self.old ≡ None → result ≡ Err stop.Memory → RunsShort
            (decided (plan_of self.old) (cut_of self.old) how (desk_of self.old)).ended
            self.new fates.old fates.new }
        ensures again { (stop : Stop) → stop_of self.old ≡ Some stop
            → (result ≡ Err stop) × (self.new ≡ self.old) × (fates.new ≡ fates.old) }
        ensures no_cell { (key : List ℕ) → result ≡ Err (stop.BadCell key) → ⊥ }
        ensures no_follower { (txid : ℕ) → result ≡ Err (stop.Follow txid) → ⊥ }
    {
        if let Some(stop) = self.stopped() {
            return Err(stop);
        }
        if self.office.decide(how, fates).is_err() {
            return Err(self.stop_short());
        }
        match self.office.exhausted() {
            Some(txid) => Err(Stop::Exhausted(txid)),
            None => Ok(()),
        }
    }

    // Why the coordinator stopped, if it did.
    fn stopped(&self) -> Option<Stop>
        ensures { result ≡ stop_of self.now }
    {
        if self.wanted_memory {
            return Some(Stop::Memory);
        }
        match self.office.exhausted() {
            Some(txid) => Some(Stop::Exhausted(txid)),
            None => None,
        }
    }

    // Memory was wanted.
    fn stop_short(&mut self) -> Stop
        ensures stop { result ≡ stop.Memory }
        ensures stopped { wanted_memory self.new ≡ true }
    {
        self.wanted_memory = true;
        Stop::Memory
    }

    // A commit is ordered, and attempts begin.
    fn order_and_fill(&mut self, shut: u16) -> Result<Orders, Memory>
        requires { IsOwn self.old }
        ensures own { OnOk result (IsOwn self.new) }
        ensures office { OnOk result (office_of self.new ≡ comes_to
            (filled (plan_of self.old) (cut_of self.old) shut (plan_of self.old).pending
            (ordered (plan_of self.old) (cut_of self.old) (desk_of self.old))).desk self.old) }
        ensures commit { IfOk result (λ orders. IsCommitOf
            (next_to_commit (plan_of self.old) (cut_of self.old) (desk_of self.old))
            orders.commit) }
        ensures begun { IfOk result (λ orders. Begins I.tells (cut_of self.old)
            (collector_of self.old) (collector_of self.new)
            (filled (plan_of self.old) (cut_of self.old) shut (plan_of self.old).pending
            (ordered (plan_of self.old) (cut_of self.old) (desk_of self.old))).begun
            orders.parcels) }
        ensures has_memory { OnOk result (wanted_memory self.new ≡ wanted_memory self.old) }
    {
        let commit = self.office.order()?;
        let parcels = self.fill(shut)?;
        Ok(Orders { parcels, commit })
    }

    // Attempts begin until as many are pending as may be, or nothing is offered.
    fn fill(&mut self, shut: u16) -> Result<Parcels, Memory>
        requires { IsOwn self.old }
        ensures own { OnOk result (IsOwn self.new) }
        ensures office { OnOk result (office_of self.new ≡ comes_to
            (filled (plan_of self.old) (cut_of self.old) shut (plan_of self.old).pending
            (desk_of self.old)).desk self.old) }
        ensures begun { IfOk result (Begins I.tells (cut_of self.old)
            (collector_of self.old) (collector_of self.new)
            (filled (plan_of self.old) (cut_of self.old) shut (plan_of self.old).pending
            (desk_of self.old)).begun) }
        ensures has_memory { OnOk result (wanted_memory self.new ≡ wanted_memory self.old) }
    {
        let mut parcels = Parcels::new(self.alloc);
        for _ in 0..self.office.most_pending() {
            match self.office.begin_next(shut)? {
                Some(begun) => self.open(begun, &mut parcels)?,
                None => break,
            }
        }
        Ok(parcels)
    }

    // The first tuples of an attempt that begins, and then its init.
    fn open(&mut self, begun: Begun, into: &mut Parcels) -> Result<(), Memory>
        requires { IsOwn self.old }
        ensures own { OnOk result (IsOwn self.new) }
        ensures office { office_of self.new ≡ office_of self.old }
        ensures has_memory { OnOk result (wanted_memory self.new ≡ wanted_memory self.old) }
        ensures begun { OnOk result ((w : Wait) → w.root ≡ begun.root
            → rows_at (cut_of self.old) w.spans ≡ begun.rows
            → AddsOpening I.tells (cut_of self.old) w
            (collector_of self.old) (collector_of self.new) into.old into.new) }
    {
        let Begun { root, rows } = begun;
        let path = Path::new(self.alloc);
        let emitted = self.collector.emit(root, &path, rows, into)?;
        into.push(Parcel::ToAcker(
            self.office.acker_of(root),
            AckMsg::Init(Init {
                root,
                edges: emitted.edges,
                draw: emitted.draw,
            }),
        ))
    }
}
