//! The searches of a kept network follow an edit that is applied or reverted: the links of the arcs that the edit names get new rooms.
ghost use Rattle.std.specs.Prelude.{◌≡◌, ◌+◌, ◌-◌, ◌<◌, ◌≤◌, ℕ, List, length, IfSome};
ghost use Rattle.dmf_path.specs.Search.{with_pairs};
ghost use Rattle.dmf_state.specs.Direction.{along, edited_along, FitsAlong};
ghost use Rattle.dmf_state.specs.Edit.{moved, AddsArc, MovesFit};
ghost use Rattle.dmf_state.specs.NetworkState.{IsState, with_flows};
ghost use Rattle.dmf_solver.specs.CarryingNetwork.{MayCarry};
ghost use Rattle.dmf_solver.specs.Pairs.{with_capacity};
ghost use Rattle.dmf_solver.specs.ResidualNetwork.{residual_search, IsResidualOf};

use crate::closed_side::SidedSearch;
use dmf_path::Search;
use dmf_state::{Direction, Edit, Move, State};

/// Gives the links of each arc that the moves name the rooms for its flow after the moves are made, or reverted.
pub fn put_flows(search: &mut SidedSearch, state: &State, moves: &[Move], direction: Direction)
    requires residual { IsResidualOf state.now search.old }
    requires fit { MovesFit 0 (along direction moves.now) state.now.flows }
    ensures flows { search.new ≡ residual_search state.now.network (moved (along direction moves.now) state.now.flows) }
    ensures one_each { length search.new.pairs ≡ length state.now.network.arcs + 1 }
    ensures state { IsState state.now }
{
    let arcs = state.arcs();
    for m in moves {
        let step = direction.step(m);
        let k = step.arc as usize - 1;
        search.set_rooms(k, arcs[k].cap.saturating_sub(step.to), step.to);
    }
}

/// The carrying search after the moves, or before them if they are reverted: the link along each arc that they name gets the arc's flow
/// as its room. The return link keeps its room.
pub fn carry_flows(
    carrying: Option<Search>,
    state: &State,
    moves: &[Move],
    direction: Direction,
) -> Option<Search>
    requires state { IsState state.now }
    requires carrying { IfSome carrying (MayCarry state.now) }
    requires fit { MovesFit 0 (along direction moves.now) state.now.flows }
    ensures { IfSome result (MayCarry (with_flows state.now (moved (along direction moves.now) state.now.flows))) }
{
    let mut search = carrying?;
    for m in moves {
        let step = direction.step(m);
        search.set_rooms(step.arc as usize - 1, step.to, 0);
    }
    Some(search)
}

/// Gives the link along each arc whose capacity the edit changes the room for its new capacity, or for its old one if the edit is
/// reverted.
pub fn put_capacities(search: &mut SidedSearch, state: &State, edit: &Edit, direction: Direction)
    requires fits { FitsAlong direction edit.now state.now }
    requires adds_none { ¬ AddsArc edit.now }
    requires one_each { length search.old.pairs ≡ length state.now.network.arcs + 1 }
    ensures { (flows : List ℕ) → search.old ≡ residual_search state.now.network flows
        → search.new ≡ residual_search (edited_along direction edit.now state.now).network flows }
{
    match *edit {
        Edit::Cap { arc, old, new, .. } => put_capacity(search, arc, direction.cap(old, new)),
        Edit::Close { arc, old, .. } => put_capacity(search, arc, direction.cap(old, 0)),
        Edit::Shut { ref arcs, .. } => {
            for shutting in arcs {
                put_capacity(search, shutting.arc, direction.cap(shutting.old, 0));
            }
        }
        Edit::Add { .. } | Edit::Solve { .. } => {}
    }
}

/// Gives the link along the pair of arc number `j` the room for this capacity, if there is a pair.
fn put_capacity(search: &mut SidedSearch, j: u32, cap: u64)
    requires from_one { 1 ≤ j }
    requires within { j - 1 < length search.old.pairs }
    ensures { search.new ≡ with_pairs search.old (with_capacity search.old.pairs (j - 1) cap) }
{
    let k = j as usize - 1;
    if let Some(flow) = search.as_search().against(k) {
        // No clause of the search says that the flow is within the new capacity, so the room is 0 where it would not be.
        search.set_rooms(k, cap.saturating_sub(flow), flow);
    }
}
