ghost use Rattle.std.specs.Prelude.{◌≤◌, length, MatchOption};
ghost use Rattle.dmf_state.specs.NetworkState.{IsState};
ghost use Rattle.dmf_solver.specs.Pairs.{IsArcAt};

use dmf_state::{Arc, State};

/// The arc at index `k` with its flow, or `None` past the last arc.
pub fn arc_at(state: &State, k: usize) -> Option<(Arc, u64)>
    ensures at { MatchOption result (length state.now.network.arcs ≤ k) (IsArcAt state.now k) }
    ensures state { IsState state.now }
{
    let arc = *state.arcs().get(k)?;
    Some((arc, state.flows()[k]))
}
