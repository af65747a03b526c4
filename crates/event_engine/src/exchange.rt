//! What comes into boxes and goes out of outboxes between events, for a caller with boxes of its
//! own.
ghost use Rattle.std.specs.Prelude.{◌≡◌, ◌<◌, true, false, [], length, IfOk, OnOk};
ghost use Rattle.std.specs.List.{AllByRecursion};
ghost use Rattle.std.specs.Option.{option_copied};
ghost use Rattle.event_engine.specs.Engines.{IsReady, IsStill, cut_in, shape, topology_in};
ghost use Rattle.event_engine.specs.Exchanges.{GivesParcels, GivesVerdicts, Receives, next_tuple_at};
ghost use Rattle.event_worlds.specs.Orderly.{FitsParcel};
ghost use Rattle.event_worlds.specs.topology_plan.Topology.{tasks_in_all};

use crate::acker::give_all_verdicts;
use crate::engine::Engine;
use crate::task::give_all_parcels;
use event_worlds::acker_core::Verdict;
use event_worlds::storm_ids::Ids;
use event_worlds::storm_values::Memory;
use event_worlds::tree_model::{Parcel, Parcels, Tuple};
use std::collections::VecDeque;

impl<'p, I: Ids> Engine<'p, I> {
    /// Each parcel comes to the back of the box that it names, in their order.
    pub fn receive(&mut self, parcels: Parcels) -> Result<(), Memory>
        requires ready { IsReady (topology_in self.old) (cut_in self.old) self.old }
        requires fit { AllByRecursion (FitsParcel (topology_in self.old)) parcels }
        ensures ready { OnOk result
            (IsReady (topology_in self.old) (cut_in self.old) self.new) }
        ensures receives { OnOk result (Receives parcels self.old self.new) }
        ensures still { IsStill self.old self.new }
    {
        let mut rest = VecDeque::from_vec(parcels.into_vec());
        while let Some(parcel) = rest.pop_front() {
            self.deliver(parcel)?;
        }
        Ok(())
    }

    /// What all tasks have to hand over, in the order of the tasks, each in its order.
    pub fn give_parcels(&mut self) -> Result<VecDeque<Parcel>, Memory>
        requires { IsReady (topology_in self.old) (cut_in self.old) self.old }
        ensures ready { OnOk result
            (IsReady (topology_in self.old) (cut_in self.old) self.new) }
        ensures gives { IfOk result (λ parcels. GivesParcels parcels.items self.old self.new) }
        ensures still { IsStill self.old self.new }
    {
        let alloc = *self.orders.allocator();
        let given = give_all_parcels(alloc, &mut self.tasks)?;
        Ok(given)
    }

    /// What all ackers have to hand over, in the order of the ackers.
    pub fn give_verdicts(&mut self) -> Result<VecDeque<Verdict>, Memory>
        requires { IsReady (topology_in self.old) (cut_in self.old) self.old }
        ensures ready { OnOk result
            (IsReady (topology_in self.old) (cut_in self.old) self.new) }
        ensures gives { IfOk result (λ verdicts. GivesVerdicts verdicts.items self.old self.new) }
        ensures still { IsStill self.old self.new }
    {
        let alloc = *self.orders.allocator();
        let given = give_all_verdicts(alloc, &mut self.ackers)?;
        Ok(given)
    }

    /// Whether a verdict waits in the coordinator's box.
    pub fn has_verdict(&self) -> bool
        ensures some { result ≡ true → 0 < length (shape self.now).verdicts }
        ensures none { result ≡ false → (shape self.now).verdicts ≡ [] }
    {
        !self.verdicts.is_empty()
    }

    /// The tuple that task n executes at its next event: none where it has a parcel to hand over or
    /// nothing in its box.
    pub fn next_tuple(&self, n: u32) -> Option<&Tuple>
        requires there { n < tasks_in_all (topology_in self.now) }
        requires ready { IsReady (topology_in self.now) (cut_in self.now) self.now }
        ensures { option_copied result
            ≡ next_tuple_at (topology_in self.now) n (shape self.now) }
    {
        self.tasks[n as usize].next_tuple()
    }
}
