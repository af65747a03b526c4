//! What a driver of threads does with an engine: it lends the seats out, tells verdicts, and takes
//! out what is to be handed over.
ghost use Rattle.std.specs.Prelude.{◌≡◌, [], IfOk, OnOk};
ghost use Rattle.std.specs.List.{AllByRecursion};
ghost use Rattle.event_engine.specs.Engines.{IsReady, IsStill, cut_in, shape, topology_in};
ghost use Rattle.event_engine.specs.Lending.{GivesOrders, Hears, IsLent, Lends, Returns};
ghost use Rattle.event_engine.specs.Seats.{AreSeats, HasBuckets};
ghost use Rattle.event_worlds.specs.Orderly.{IsOrderly};

use crate::acker::AckerSeat;
use crate::engine::Engine;
use crate::task::TaskSeat;
use event_worlds::acker_core::Verdict;
use event_worlds::storm_ids::Ids;
use event_worlds::storm_values::Memory;
use event_worlds::tree_model::Parcel;
use std::collections::VecDeque;
use std::mem;

impl<'p, I: Ids> Engine<'p, I> {
    /// A verdict comes to the back of the coordinator's box.
    pub fn hear(&mut self, verdict: Verdict) -> Result<(), Memory>
        requires { IsReady (topology_in self.old) (cut_in self.old) self.old }
        ensures ready { OnOk result
            (IsReady (topology_in self.old) (cut_in self.old) self.new) }
        ensures hears { OnOk result (Hears verdict self.old self.new) }
        ensures still { IsStill self.old self.new }
    {
        self.verdicts.push_back(verdict)?;
        Ok(())
    }

    /// The parcels that the coordinator has still to hand over.
    pub fn take_orders(&mut self) -> Result<VecDeque<Parcel>, Memory>
        requires { IsReady (topology_in self.old) (cut_in self.old) self.old }
        ensures ready { OnOk result
            (IsReady (topology_in self.old) (cut_in self.old) self.new) }
        ensures gives { IfOk result (λ orders. GivesOrders orders.items self.old self.new) }
        ensures still { IsStill self.old self.new }
    {
        let orders = mem::try_take(&mut self.orders)?;
        Ok(orders)
    }

    /// The seats of all tasks and ackers, for others. No event may come until they are back.
    pub fn lend_seats(&mut self) -> Result<(Vec<TaskSeat<'p, I>>, Vec<AckerSeat>), Memory>
        requires { IsReady (topology_in self.old) (cut_in self.old) self.old }
        ensures lends { IfOk result (λ seats.
            Lends seats.0.items seats.1.items self.old self.new) }
        ensures lent { OnOk result (IsLent (topology_in self.old) (cut_in self.old) self.new) }
        ensures still { IsStill self.old self.new }
    {
        let tasks = mem::try_take(&mut self.tasks)?;
        let ackers = mem::try_take(&mut self.ackers)?;
        Ok((tasks, ackers))
    }

    /// The seats are back. An event may come where each is that of its number and takes what waits
    /// at it.
    pub fn return_seats(&mut self, tasks: Vec<TaskSeat<'p, I>>, ackers: Vec<AckerSeat>)
        ensures returns { Returns tasks.entry.items ackers.items self.old self.new }
        ensures ready { IsLent (topology_in self.old) (cut_in self.old) self.old
            → AreSeats (topology_in self.old) 0 tasks.entry.items
            → AllByRecursion (HasBuckets (topology_in self.old).buckets) ackers.items
            → IsOrderly (topology_in self.old) (shape self.new)
            → IsReady (topology_in self.old) (cut_in self.old) self.new }
        ensures still { IsStill self.old self.new }
    {
        self.tasks = tasks;
        self.ackers = ackers;
    }
}
