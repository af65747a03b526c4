ghost use Rattle.std.specs.Prelude.{◌≡◌, ◌<◌, All, length, slice_get, slice_set, Some, IfOk};
ghost use Rattle.topology_plan.specs.Topology.{subs_of};
ghost use Rattle.topology_plan.specs.Valid.{IsTarget};
ghost use Rattle.groupings.specs.declared.lane.Lane.{Lane};
ghost use Rattle.groupings.specs.Routing.{lane_of, lanes_of, moved, targets};
ghost use Rattle.groupings.specs.Allowed.{IsLane};

use crate::lane::{Lane, Targets, copied};
use std::alloc::Global;
use std::marker::Model;
use storm_values::{Memory, Row};
use topology_plan::{Origin, Plan, Sub};

/// The router of one source's rows, which contracts see as the lanes of its
/// subscriptions, in their order.
#[derive(Debug, Drop)]
pub struct Router {
    lanes: Vec<Lane>,
}

impl Model for Router {
    ghost use Rattle.std.specs.Prelude.{List, All};
    ghost use Rattle.groupings.specs.declared.lane.Lane.{Lane};
    ghost use Rattle.groupings.specs.Allowed.{IsLane};

    ghost Value = { List Lane };

    ghost view = { λ router. router.lanes.items };

    ghost invariant = { λ router. All IsLane router.lanes.items };
}

impl Router {
    /// A router with a start word for each subscription.
    pub fn new(alloc: Global, plan: &Plan, from: Origin, starts: &[u64]) -> Result<Self, Memory>
        requires { length starts.now ≡ length (subs_of plan.now from) }
        ensures value { IfOk result (λ router. router
            ≡ lanes_of plan.now (subs_of plan.now from) starts.now) }
        ensures counted { IfOk result (λ router. length router ≡ length (subs_of plan.now from)) }
    {
        let subs = plan.subs(from);
        let mut lanes = Vec::with_capacity(alloc, subs.len())?;
        for (i, sub) in subs.iter().enumerate() {
            lanes.push(lane(plan, sub, starts[i])?)?;
        }
        Ok(Router { lanes })
    }

    /// What every router keeps. It does nothing.
    pub fn facts(&self)
        ensures { All IsLane self.now }
    {
        // brings in the invariant
        let _ = &self.lanes;
    }

    /// How many subscriptions the source has.
    pub fn subs_len(&self) -> usize
        ensures { result ≡ length self.now }
    {
        self.lanes.len()
    }

    /// Where a row goes along the subscription of a number. It takes no memory, and searches
    /// nothing.
    pub fn route(&mut self, sub: u32, row: &Row) -> Targets
        requires { sub < length self.old }
        ensures target { (lane : Lane) → slice_get self.old sub ≡ Some lane
            → result ≡ targets lane row.now }
        ensures moved { (lane : Lane) → slice_get self.old sub ≡ Some lane
            → self.new ≡ slice_set self.old sub (moved lane) }
        ensures kept { length self.new ≡ length self.old }
    {
        self.lanes[sub as usize].route(row)
    }
}

fn lane(plan: &Plan, sub: &Sub, start: u64) -> Result<Lane, Memory>
    requires { IsTarget plan.now sub.now }
    ensures value { IfOk result (λ lane. lane ≡ lane_of plan.now sub.now start) }
    ensures lane { IfOk result IsLane }
{
    let component = plan.component(sub.to);
    Ok(Lane {
        first: component.first_task,
        tasks: component.tasks,
        by: copied(&sub.grouping)?,
        turn: (start % u64::from(component.tasks)) as u32,
    })
}
