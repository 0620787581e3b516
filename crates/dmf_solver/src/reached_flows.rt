//! The flows after a solve.
ghost use Rattle.std.specs.Prelude.{◌≡◌, IfOk};
ghost use Rattle.dmf_state.specs.Edit.{differences};
ghost use Rattle.dmf_state.specs.NetworkState.{IsState};
ghost use Rattle.dmf_solver.specs.Pairs.{reached_flows, HasSolved};

use crate::moves::{Flows, list_all_moves};
use crate::solve::SolvedSearch;
use dmf_state::{Move, State};
use std::alloc::{AllocError, Global};
use std::marker::Model;

/// The moves of a solve. If they take more memory than the flows do, reads the flows and drops the search first.
pub fn into_moves(
    alloc: Global,
    state: &State,
    solved: SolvedSearch,
) -> Result<Vec<Move>, AllocError>
    requires state { IsState state.now }
    requires solved { HasSolved state.now solved }
    ensures { IfOk result (λ moves. moves.items ≡ differences 1 state.now.flows (reached_flows state.now solved.search)) }
{
    if are_few_moved(state, &solved) {
        let reached = ReachedFlows {
            state,
            solved: &solved,
        };
        return list_all_moves(alloc, state, &reached);
    }
    let flows = into_flows(alloc, state, solved)?;
    list_all_moves(alloc, state, &flows)
}

/// Whether the solve changed the flow on at most a third of the arcs. A move takes as much memory as three flows.
fn are_few_moved(state: &State, solved: &SolvedSearch) -> bool
    requires { HasSolved state.now solved.now }
{
    let before = state.flows();
    let reached = ReachedFlows { state, solved };
    let mut left = before.len() / 3;
    for k in 0..before.len() {
        if reached.flow(k) != before[k] {
            if left == 0 {
                return false;
            }
            left -= 1;
        }
    }
    true
}

/// The flows of a state after a solve. Drops the search, which takes more memory than they do.
fn into_flows(alloc: Global, state: &State, solved: SolvedSearch) -> Result<Vec<u64>, AllocError>
    requires { HasSolved state.now solved }
    ensures { IfOk result (λ flows. flows.items ≡ reached_flows state.now solved.search) }
{
    let reached = ReachedFlows {
        state,
        solved: &solved,
    };
    let count = state.flows().len();
    let mut flows = Vec::with_capacity(alloc, count)?;
    for k in 0..count {
        flows.push(reached.flow(k))?;
    }
    Ok(flows)
}

/// The flows of a state after a solve.
#[derive(Drop)]
pub struct ReachedFlows<'a> {
    pub state: &'a State,
    pub solved: &'a SolvedSearch,
}

impl<'a> Model for ReachedFlows<'a> {
    ghost use Rattle.std.specs.Prelude.{ℕ, List};
    ghost use Rattle.dmf_solver.specs.Pairs.{reached_flows, HasSolved};

    ghost Value = { List ℕ };

    ghost view = { λ a. reached_flows a.state.now a.solved.now.search };

    ghost invariant = { λ a. HasSolved a.state.now a.solved.now };
}

impl Flows for ReachedFlows<'_> {
    ghost flows = { λ flows. flows };

    fn flow(&self, k: usize) -> u64 {
        let before = self.state.flows()[k];
        self.solved.search.against(k).unwrap_or(before)
    }
}

impl Flows for Vec<u64> {
    ghost flows = { λ flows. flows.items };

    fn flow(&self, k: usize) -> u64 {
        self[k]
    }
}
