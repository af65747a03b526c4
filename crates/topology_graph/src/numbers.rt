//! Depths and weights.

ghost use Rattle.std.specs.Prelude.{◌≡◌, ℕ, ◌+◌, ◌<◌, ◌^◌, ◌++◌, List, length, unwrap_or, IfOk, OnOk};
ghost use Rattle.topology_plan.specs.Topology.{greatest, ended_sum};
ghost use Rattle.topology_graph.specs.declared.values.Feed.{Feed};
ghost use Rattle.topology_graph.specs.Graph.{IsClosed, IsRanked, read, depth_rule, tuples_rule, values_of, at_depth, by_depth, IsSettled};

use crate::values::{Along, Feed, Graph, values_along};
use std::alloc::Global;
use storm_values::Memory;
use topology_plan::Origin;

/// How far from the spout.
pub struct DepthRule;

impl Along<u64> for DepthRule {
    ghost rule = { λ _. depth_rule };

    fn over(&self, _c: usize, feeds: &[Feed], known: &[Option<u64>]) -> Result<u64, Memory> {
        let mut greatest = 0;
        for feed in feeds {
            greatest = greatest.max(number_at(known, feed.from, 0));
        }
        Ok(greatest.saturating_add(1))
    }
}

/// How many tuples one tuple of the spout can make at most.
pub struct TuplesRule;

impl Along<u64> for TuplesRule {
    ghost rule = { λ _. tuples_rule };

    fn over(&self, _c: usize, feeds: &[Feed], known: &[Option<u64>]) -> Result<u64, Memory> {
        let mut total = 0u64;
        for feed in feeds {
            let over = number_at(known, feed.from, 1).saturating_mul(feed.copies);
            total = total.saturating_add(over);
        }
        Ok(total)
    }
}

fn number_at(known: &[Option<u64>], from: Origin, of_spout: u64) -> u64
    ensures { result ≡ read of_spout 0 known.now from }
{
    match from {
        Origin::Spout => of_spout,
        Origin::Component(c) => known.get(c as usize).copied().flatten().unwrap_or(0),
    }
}

/// The number of each component by a rule.
#[tactic(auto, using(crate::proofs::NumberLemmas::numbers_read))]
pub fn numbers_by<R: Along<u64>>(alloc: Global, rule: &R, graph: &Graph) -> Result<Vec<u64>, Memory>
    requires small { length graph.now < 2 ^ 32 }
    requires closed { IsClosed graph.now }
    requires settled { IsSettled graph.now }
    ensures { IfOk result (λ numbers. numbers.items ≡ values_of (R.rule rule.now) graph.now) }
{
    let known = values_along(alloc, rule, graph)?;
    known
        .iter()
        .map(|number| number.unwrap_or(0))
        .collect(alloc)
}

/// The greatest number, or 0 where there is none. Of the depths it is the most subscriptions from
/// the spout to a component.
pub fn greatest(numbers: &[u64]) -> u64
    ensures { result ≡ greatest numbers.now }
{
    let mut greatest = 0;
    for number in numbers {
        greatest = greatest.max(*number);
    }
    greatest
}

/// The sum, or 2^64 - 1 where it is more.
pub fn total(numbers: &[u64]) -> u64
    ensures { result ≡ ended_sum numbers.now }
{
    let mut total = 0u64;
    for number in numbers {
        total = total.saturating_add(*number);
    }
    total
}

/// The components in the order of their depths, and in the order of their numbers among equal
/// depth.
pub fn by_depth(alloc: Global, graph: &Graph) -> Result<Vec<usize>, Memory>
    requires small { length graph.now < 2 ^ 32 }
    requires closed { IsClosed graph.now }
    requires settled { IsSettled graph.now }
    ensures { IfOk result (λ order. order.items ≡ by_depth graph.now) }
{
    let depths = numbers_by(alloc, &DepthRule, graph)?;
    let mut order = Vec::with_capacity(alloc, depths.len())?;
    for below in 0..depths.len() {
        add_depth(&mut order, &depths, below as u64 + 1)?;
    }
    Ok(order)
}

fn add_depth(order: &mut Vec<usize>, depths: &[u64], depth: u64) -> Result<(), Memory>
    ensures { OnOk result (order.new.items ≡ order.old.items ++ at_depth depths.now depth) }
{
    for c in 0..depths.len() {
        if depths[c] == depth {
            order.push(c)?;
        }
    }
    Ok(())
}

/// A law: a graph is settled where components have ranks.
pub fn ranks_settle_depths()
    ensures { (graph : List (List Feed)) (rank : ℕ → ℕ) → length graph < 2 ^ 32
        → IsRanked graph rank → IsSettled graph }
{}
