//! The moves from a state's flows to later flows, however these are kept.
ghost use Rattle.std.specs.Prelude.{◌≡◌, ◌<◌, length, IfOk, MatchOption};
ghost use Rattle.dmf_path.specs.Search.{indices_of};
ghost use Rattle.dmf_state.specs.Edit.{differences};
ghost use Rattle.dmf_state.specs.NetworkState.{IsState};
ghost use Rattle.dmf_solver.specs.Moves.{CoverDifferences, Stays, IsMoveAt};

use dmf_path::Indices;
use dmf_state::{Move, State};
use std::alloc::{AllocError, Global};

/// Flows, one for each arc.
pub trait Flows {
    ghost use Rattle.std.specs.Prelude.{◌≡◌, ◌<◌, ℕ, List, length, slice_index};

    // The flows in the order of the arcs' numbers.
    ghost flows: { Self → List ℕ };

    /// The flow on the arc at index `k`.
    fn flow(&self, k: usize) -> u64
        requires { k < length (flows self.now) }
        ensures { result ≡ slice_index (flows self.now) k };
}

/// The moves of all arcs whose flow differs from the state's flow, in the order of their numbers.
pub fn list_all_moves<F: Flows>(
    alloc: Global,
    state: &State,
    after: &F,
) -> Result<Vec<Move>, AllocError>
    requires { length (F.flows after.now) ≡ length state.now.flows }
    ensures { IfOk result (λ moves. moves.items ≡ differences 1 state.now.flows (F.flows after.now)) }
{
    list_moves(alloc, state, after, Indices::Within(0..state.flows().len()))
}

/// The moves of the arcs at these indices whose flow differs. No other arc's flow may differ, and the call looks at none.
pub fn list_moves<F: Flows>(
    alloc: Global,
    state: &State,
    after: &F,
    indices: Indices<'_>,
) -> Result<Vec<Move>, AllocError>
    requires one_each { length (F.flows after.now) ≡ length state.now.flows }
    requires others_stay { CoverDifferences state.now.flows (F.flows after.now) (indices_of indices) }
    ensures { IfOk result (λ moves. moves.items ≡ differences 1 state.now.flows (F.flows after.now)) }
{
    let mut moves = Vec::new(alloc);
    for k in indices {
        if let Some(m) = move_at(state, after, k) {
            moves.push(m)?;
        }
    }
    Ok(moves)
}

/// So many touched pairs are listed at most: to sort a list of more takes as long as a look at all arcs.
pub fn most_touched(state: &State) -> usize
    ensures { IsState state.now }
{
    let nodes = state.nodes() as usize;
    (nodes / 8).max(state.arcs().len() / 32)
}

/// The move of the arc at index `k`. `None` if there is no such arc, or if its flow does not differ.
fn move_at<F: Flows>(state: &State, after: &F, k: usize) -> Option<Move>
    requires { length (F.flows after.now) ≡ length state.now.flows }
    ensures { MatchOption result
        (Stays state.now.flows (F.flows after.now) k)
        (IsMoveAt state.now.flows (F.flows after.now) k) }
{
    let before = state.flows();
    if k >= before.len() {
        return None;
    }
    let from = before[k];
    let to = after.flow(k);
    if from == to {
        return None;
    }
    let arc = k as u32 + 1;
    Some(Move { arc, from, to })
}
