ghost use Rattle.std.specs.Prelude.{◌≡◌, ◌<◌, All, length, slice_get, slice_set, Some, IfOk};
ghost use Rattle.groupings.specs.Allowed.{IsLane};
ghost use Rattle.groupings.specs.Routing.{lanes_of, moved};
ghost use Rattle.groupings.specs.declared.lane.Lane.{Lane};
ghost use Rattle.tuple_account.specs.topology_plan.declared.parts.Sub.{Sub};
ghost use Rattle.tuple_account.specs.topology_plan.Topology.{subs_of};
ghost use Rattle.tuple_account.specs.topology_plan.Valid.{IsValid};
ghost use Rattle.tuple_account.specs.topology_plan.Wired.{IsWired};
ghost use Rattle.output_collector.specs.Outlets.{HasItsLanes, IsSameSource};
ghost use Rattle.output_collector.specs.Sending.{AreFew, route_along};

use groupings::{Router, Targets};
use std::alloc::Global;
use std::marker::Model;
use tuple_account::storm_values::{Memory, Row};
use tuple_account::topology_plan::{Origin, Plan};

/// Where the rows of one source go.
#[derive(Drop)]
pub(crate) struct Outlet<'p> {
    plan: &'p Plan,
    from: Origin,
    router: Router,
}

impl<'p> Model for Outlet<'p> {
    ghost use Rattle.output_collector.specs.Outlets.{Outlet, AreLanesOf};

    ghost Value = { Outlet };

    ghost view = { λ o. record { topology = o.plan.now; from = o.from; lanes = o.router } };

    ghost invariant = { λ o. AreLanesOf o.plan.now o.from o.router };
}

/// Where a row goes along one subscription.
#[derive(Clone, Copy)]
pub(crate) struct Route {
    /// The consumer's component number.
    pub component: u32,
    pub targets: Targets,
}

impl<'p> Outlet<'p> {
    /// The outlet of a source, with a start word for each of its subscriptions.
    pub fn new(alloc: Global, plan: &'p Plan, from: Origin, starts: &[u64]) -> Result<Self, Memory>
        requires { length starts.now ≡ length (subs_of plan.now from) }
        ensures topology { IfOk result (λ o. o.topology ≡ plan.now) }
        ensures from { IfOk result (λ o. o.from ≡ from) }
        ensures lanes { IfOk result
            (λ o. o.lanes ≡ lanes_of plan.now (subs_of plan.now from) starts.now) }
    {
        Ok(Outlet {
            plan,
            from,
            router: Router::new(alloc, plan, from, starts)?,
        })
    }

    /// How many subscriptions the source has.
    pub fn subs_len(&self) -> u32
        ensures { result ≡ length self.now.lanes }
    {
        self.plan.facts();
        self.router.subs_len() as u32
    }

    /// Where a row goes along the subscription of a number. It takes no memory, and searches
    /// nothing.
    pub fn route(&mut self, sub: u32, row: &Row) -> Route
        requires { sub < length self.old.lanes }
        ensures along { (s : Sub) (lane : Lane)
            → slice_get (subs_of self.old.topology self.old.from) sub ≡ Some s
            → slice_get self.old.lanes sub ≡ Some lane → result ≡ route_along s lane row.now }
        ensures few { AreFew result.targets }
        ensures moved { (lane : Lane) → slice_get self.old.lanes sub ≡ Some lane
            → self.new
            ≡ record self.old { lanes = slice_set self.old.lanes sub (moved lane) } }
        ensures same_source { IsSameSource self.new self.old }
    {
        self.router.facts();
        let component = self.plan.subs(self.from)[sub as usize].to;
        Route {
            component,
            targets: self.router.route(sub, row),
        }
    }

    /// What every outlet keeps. It does nothing.
    pub fn facts(&self)
        ensures valid { IsValid self.now.topology }
        ensures wired { IsWired self.now.topology }
        ensures lanes { HasItsLanes self.now }
        ensures sound { All IsLane self.now.lanes }
    {
        self.plan.facts();
        self.router.facts();
    }
}
