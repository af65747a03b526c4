//! What each component has by what its sources have.

ghost use Rattle.std.specs.Prelude.{◌≡◌, ◌<◌, ◌^◌, length, map, Some, IfOk, OnOk, replicate, None};
ghost use Rattle.topology_graph.specs.Graph.{Rule, values_of, IsThere, IsClosed, IsSettled, AreRight, IsFound, fed_by};

use std::alloc::Global;
use storm_values::{Memory, Seq};
use topology_plan::Origin;

/// A subscription of a component.
#[derive(Debug, Drop)]
pub struct Feed {
    pub from: Origin,
    /// How many copies of a tuple the component gets.
    pub copies: u64,
}

/// Of each component its subscriptions.
pub type Graph = Seq<Seq<Feed>>;

/// What a component has by what its sources have.
pub trait Along<V: Drop> {
    ghost rule: { Self → Rule V };

    fn over(&self, c: usize, feeds: &[Feed], known: &[Option<V>]) -> Result<V, Memory>
        ensures { IfOk result
            (λ value.
            value ≡ (rule self.now).over c (fed_by (rule self.now) known.now feeds.now)) };
}

/// What each component has.
pub fn values_along<V: Drop, R: Along<V>>(
    alloc: Global,
    rule: &R,
    graph: &Graph,
) -> Result<Vec<Option<V>>, Memory>
    requires small { length graph.now < 2 ^ 32 }
    requires closed { IsClosed graph.now }
    requires settled { IsSettled graph.now }
    ensures { IfOk result
        (λ values. values.items ≡ map Some (values_of (R.rule rule.now) graph.now)) }
{
    let mut known = unknown(alloc, graph.len())?;
    for c in 0..graph.len() {
        let from = Origin::Component(c as u32);
        find(rule, graph, from, known.as_mut_slice())?;
    }
    Ok(known)
}

fn unknown<V: Drop>(alloc: Global, count: usize) -> Result<Vec<Option<V>>, Memory>
    ensures { IfOk result (λ known. known.items ≡ replicate count None) }
{
    let mut known = Vec::with_capacity(alloc, count)?;
    for _c in 0..count {
        known.push(None)?;
    }
    Ok(known)
}

/// Finds what a source has, which is known from then on.
fn find<V: Drop, R: Along<V>>(
    rule: &R,
    graph: &Graph,
    from: Origin,
    known: &mut [Option<V>],
) -> Result<(), Memory>
    requires small { length graph.now < 2 ^ 32 }
    requires closed { IsClosed graph.now }
    requires settled { IsSettled graph.now }
    requires there { IsThere (length graph.now) from }
    requires right { AreRight (R.rule rule.now) graph.now known.old }
    ensures { OnOk result (IsFound (R.rule rule.now) graph.now known.old known.new from) }
{
    let c = match from {
        Origin::Spout => return Ok(()),
        Origin::Component(c) => c as usize,
    };
    if known[c].is_some() {
        return Ok(());
    }
    for feed in graph.at(c).as_slice() {
        find(rule, graph, feed.from, known)?;
    }
    let value = rule.over(c, graph.at(c).as_slice(), known)?;
    known[c] = Some(value);
    Ok(())
}
