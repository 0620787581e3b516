ghost use Rattle.dmf_solver.specs.Greatest.{IsGreatest};

use crate::tests::{network, solve};
use dmf_solver::is_greatest;
use dmf_state::State;
use dmf_vital::{
    ValuingWatch, arc_losses, arc_losses_watched, node_losses, node_losses_watched, worst_pairs,
    worst_pairs_watched,
};
use std::alloc::Global;
use std::test::Fail;

/// A watch that ends a call once it has been asked so often.
#[derive(Drop)]
struct Reports {
    asked: usize,
    most: usize,
    /// Whether each report was the next of this count.
    count: usize,
    is_in_order: bool,
}

impl Reports {
    /// A watch that has heard nothing.
    fn new(count: usize, most: usize) -> Reports {
        Reports {
            asked: 0,
            most,
            count,
            is_in_order: true,
        }
    }

    /// Whether it has heard each of the count, in order.
    fn is_whole(&self) -> bool {
        self.is_in_order && self.asked == self.count
    }
}

impl ValuingWatch for Reports {
    fn valued(&mut self, done: usize, count: usize) -> bool {
        self.is_in_order = self.is_in_order && done == self.asked && count == self.count;
        self.asked = self.asked.saturating_add(1);
        self.asked <= self.most
    }
}

/// Whether a watch hears of each arc, changes no loss, and ends the call at each.
fn hears_arcs(alloc: Global, state: &State) -> Result<bool, Fail>
    requires { IsGreatest state.now.network state.now.flows }
{
    let count = state.arcs().len();
    let mut all = Reports::new(count, usize::MAX);
    let losses = arc_losses_watched(alloc, state, &mut all)?;
    if !all.is_whole() || losses != arc_losses(alloc, state)? {
        return Ok(false);
    }
    for most in 0..count {
        let mut some = Reports::new(count, most);
        if arc_losses_watched(alloc, state, &mut some).is_ok() || !some.is_in_order {
            return Ok(false);
        }
    }
    Ok(true)
}

/// The same of nodes.
fn hears_nodes(alloc: Global, state: &State) -> Result<bool, Fail>
    requires { IsGreatest state.now.network state.now.flows }
{
    let count = state.nodes() as usize;
    let mut all = Reports::new(count, usize::MAX);
    let losses = node_losses_watched(alloc, state, &mut all)?;
    let mut none = Reports::new(count, 0);
    let is_ended = node_losses_watched(alloc, state, &mut none).is_err();
    Ok(all.is_whole() && is_ended && losses == node_losses(alloc, state)?)
}

/// Whether a watch changes none of the worst pairs, and ends the call wherever it is asked.
fn ends_pairs(alloc: Global, state: &State) -> Result<bool, Fail>
    requires { IsGreatest state.now.network state.now.flows }
{
    let mut all = Reports::new(0, usize::MAX);
    let worst = worst_pairs_watched(alloc, state, 3, &mut all)?;
    if worst != worst_pairs(alloc, state, 3)? {
        return Ok(false);
    }
    for most in 0..all.asked {
        let mut some = Reports::new(0, most);
        if worst_pairs_watched(alloc, state, 3, &mut some).is_ok() {
            return Ok(false);
        }
    }
    Ok(true)
}

/// Whether a watch of each of these calls does as it should.
fn agree(alloc: Global, state: &State) -> Result<bool, Fail> {
    if !is_greatest(alloc, state)? {
        return Err(Fail::from("the solved flow is not greatest"));
    }
    Ok(hears_arcs(alloc, state)? && hears_nodes(alloc, state)? && ends_pairs(alloc, state)?)
}

#[test]
fn a_watch_hears_and_ends(rt: HostRuntime) -> Result<(), Fail> {
    for seed in 0..32 {
        let mut state = network(rt.alloc(), seed)?;
        solve(rt.alloc(), &mut state)?;
        assert!(rt; agree(rt.alloc(), &state)?);
    }
    Ok(())
}
