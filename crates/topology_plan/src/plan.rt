ghost use Rattle.std.specs.Prelude.{◌≡◌, ◌+◌, ◌<◌, ◌≤◌, All, length, slice_get, Some, sum_by, ◌^◌};
ghost use Rattle.storm_values.specs.Limits.{most_tasks_in_all};
ghost use Rattle.topology_plan.specs.Inside.{topology_of, IsSound};
ghost use Rattle.topology_plan.specs.Limits.{most_partitions};
ghost use Rattle.topology_plan.specs.Topology.{component_from, component_of, subs_of, tasks_in_all, depth_of, weight_of};
ghost use Rattle.topology_plan.specs.Valid.{IsTarget, IsValid};
ghost use Rattle.topology_plan.specs.Wired.{IsAsWide, IsComponent, IsWired};

use crate::parts::{Component, Kind, Origin, Sub};
use std::marker::Model;
use storm_values::Names;

/// What a plan is made of. Components are the bolts and then the states, each in file order.
#[derive(Debug, Drop)]
pub struct Made {
    pub spout_fields: Names,
    pub spout_kind: Kind,
    /// The most records of a batch.
    pub batch: u32,
    /// The partitions of the records, 0 where the spout has none.
    pub partitions: u32,
    pub components: Vec<Component>,
    /// The subscriptions to the spout's rows.
    pub spout_subs: Vec<Sub>,
    /// The subscriptions to the rows of each component, in the order of the consumers.
    pub component_subs: Vec<Vec<Sub>>,
    pub ackers: u32,
    pub pending: u32,
    pub buckets: u32,
    pub attempts: u32,
    /// The tasks of all components together.
    pub tasks: u32,
    pub depth: u32,
    pub weight: u64,
}

/// A valid topology.
#[derive(Debug, Drop)]
pub struct Plan {
    made: Made,
}

impl Model for Plan {
    ghost use Rattle.topology_plan.specs.Topology.{Topology};

    ghost Value = { Topology };

    ghost use Rattle.topology_plan.specs.Inside.{topology_of, IsSound};

    ghost view = { λ plan. topology_of plan.made };

    ghost invariant = { λ plan. IsSound plan.made };
}

impl Plan {
    /// The plan of what it is made of.
    pub fn of(made: Made) -> Plan
        requires { IsSound made }
        ensures { result ≡ topology_of made }
    {
        Plan { made }
    }

    /// What every plan keeps. It does nothing.
    pub fn facts(&self)
        ensures valid { IsValid self.now }
        ensures wired { IsWired self.now }
    {
        // brings in the invariant
        let _ = &self.made.tasks;
    }

    /// How many bolts and states there are.
    pub fn components(&self) -> u32
        ensures { result ≡ length self.now.components }
    {
        self.made.components.len() as u32
    }

    /// The component of a number.
    pub fn component(&self, c: u32) -> &Component
        requires { c < length self.now.components }
        ensures value { slice_get self.now.components c ≡ Some result.now }
        ensures fits { IsComponent self.now c result.now }
        ensures last { result.now.first_task + result.now.tasks ≤ tasks_in_all self.now }
        ensures few { tasks_in_all self.now ≤ most_tasks_in_all }
    {
        &self.made.components[c as usize]
    }

    /// How many tasks all components have together.
    pub fn tasks(&self) -> u32
        ensures { result ≡ tasks_in_all self.now }
    {
        self.made.tasks
    }

    /// The component that a task belongs to, in time linear in the components.
    pub fn component_of(&self, task: u32) -> u32
        requires { task < tasks_in_all self.now }
        ensures value { result ≡ component_of self.now task }
        ensures there { result < length self.now.components }
    {
        component_from(self.made.components.as_slice(), task)
    }

    /// The subscriptions to a source's rows, in the order of the consumers.
    pub fn subs(&self, from: Origin) -> &[Sub]
        ensures value { result.now ≡ subs_of self.now from }
        ensures targets { All (IsTarget self.now) result.now }
        ensures widths { All (IsAsWide self.now from) result.now }
    {
        // brings in the invariant, which the clauses on targets and widths need
        let _ = &self.made.spout_subs;
        self.subs_from(from)
    }

    fn subs_from(&self, from: Origin) -> &[Sub]
        ensures { result.now ≡ subs_of self.now from }
    {
        match from {
            Origin::Spout => self.made.spout_subs.as_slice(),
            Origin::Component(c) => match self.made.component_subs.get(c as usize) {
                Some(subs) => subs.as_slice(),
                None => &[],
            },
        }
    }

    /// How the spout replays a batch.
    pub fn spout_kind(&self) -> Kind
        ensures { result ≡ self.now.spout_kind }
    {
        self.made.spout_kind
    }

    /// How many fields a record has.
    pub fn spout_fields(&self) -> u32
        ensures { result ≡ length self.now.spout_fields }
    {
        self.made.spout_fields.len() as u32
    }

    /// The most records of a batch.
    pub fn batch(&self) -> u32
        ensures value { result ≡ self.now.batch }
        ensures some { 1 ≤ result }
    {
        self.made.batch
    }

    /// How many partitions the spout has, 0 where it has none.
    pub fn partitions(&self) -> u32
        ensures value { result ≡ self.now.partitions }
        ensures few { result ≤ most_partitions }
    {
        self.made.partitions
    }

    pub fn ackers(&self) -> u32
        ensures { result ≡ self.now.ackers }
    {
        self.made.ackers
    }

    pub fn pending(&self) -> u32
        ensures { result ≡ self.now.pending }
    {
        self.made.pending
    }

    pub fn buckets(&self) -> u32
        ensures { result ≡ self.now.buckets }
    {
        self.made.buckets
    }

    pub fn attempts(&self) -> u32
        ensures { result ≡ self.now.attempts }
    {
        self.made.attempts
    }

    /// The most subscriptions one after another between the spout and a component.
    pub fn depth(&self) -> u32
        ensures { result ≡ depth_of self.now }
    {
        self.made.depth
    }

    /// How many nodes a record's tree has at most where each bolt emits one row for a row.
    pub fn weight(&self) -> u64
        ensures { result ≡ weight_of self.now }
    {
        self.made.weight
    }
}

/// The place of the component that has a task, where tasks are numbered through the components.
fn component_from(components: &[Component], task: u32) -> u32
    requires there { task < sum_by (λ component. component.tasks) components.now }
    requires few { length components.now < 2 ^ 32 }
    ensures value { result ≡ component_from 0 task components.now }
    ensures within { result < length components.now }
{
    let mut left = task;
    let mut place = 0;
    for component in components {
        if left < component.tasks {
            return place;
        }
        left -= component.tasks;
        place += 1;
    }
    unreachable!()
}
