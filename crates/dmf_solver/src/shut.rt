//! Closing every open arc at a node.
ghost use Rattle.std.specs.Prelude.{◌≡◌, ◌≤◌, ℕ, true, List, [], IfOk, MatchOption};
ghost use Rattle.dmf_node.specs.Node.{IsNode};
ghost use Rattle.dmf_state.specs.Arc.{open_arcs_at};
ghost use Rattle.dmf_solver.specs.CarryingNetwork.{IsCarryingOf};
ghost use Rattle.dmf_solver.specs.KeptNetwork.{KeepsNetwork};
ghost use Rattle.dmf_state.specs.Edit.{AreOpenWith, numbers};
ghost use Rattle.dmf_state.specs.Flow.{flow_on, flow_on_all};
ghost use Rattle.dmf_path.specs.Search.{indices_of};
ghost use Rattle.dmf_path.specs.Touched.{Touches};
ghost use Rattle.dmf_solver.specs.Moves.{AreShuttingMoves, CarriesMoved, CoverOpen, DrainsNext, IsNotOpenAt, IsShuttingAt};
ghost use Rattle.dmf_state.specs.Network.{has_arc};
ghost use Rattle.dmf_state.specs.NetworkState.{IsState};
ghost use Rattle.dmf_solver.specs.Pairs.{IsCarryingSearch};

use crate::drain::{Drained, drain_along, list_drained, take_carrying};
use crate::moves::most_touched;
use crate::residual_network::ResidualNetwork;
use crate::watch::{Turn, Watch};
use dmf_path::{Indices, Search, Touched};
use dmf_state::{Shutting, State};
use std::alloc::{AllocError, Global};

/// If no more arcs than these are drained, making a second set of labels takes longer than it saves.
const FEW: usize = 16;

/// The open arcs at node `v`, in the order of their numbers. If a network is kept whose links are numbered, looks at the arcs at the node
/// alone, unless some arc is a self loop; else at all arcs.
pub fn open_arcs_at(
    alloc: Global,
    state: &State,
    v: u32,
    kept: &Option<ResidualNetwork>,
) -> Result<Vec<Shutting>, AllocError>
    requires node { IsNode state.now.network.nodes v }
    requires kept { KeepsNetwork state.now kept.now }
    ensures are_open { IfOk result (λ arcs. AreOpenWith 0 arcs.items state.now.network) }
    ensures numbers { IfOk result (λ arcs. numbers arcs.items ≡ open_arcs_at v 1 state.now.network.arcs) }
{
    let mut open = Vec::new(alloc);
    let indices = indices_at(state, v, kept);
    for k in indices {
        if let Some(shutting) = open_at(state, v, k) {
            open.push(shutting)?;
        }
    }
    Ok(open)
}

/// The indices of the open arcs at node `v`, in ascending order, among others.
fn indices_at<'a>(state: &State, v: u32, kept: &'a Option<ResidualNetwork>) -> Indices<'a>
    requires node { IsNode state.now.network.nodes v }
    requires kept { KeepsNetwork state.now kept.now }
    ensures { CoverOpen state.now.network.arcs v (indices_of result) }
{
    let count = state.arcs().len();
    match kept {
        Some(network) => network.indices_at(v),
        None => Indices::Within(0..count),
    }
}

/// The arc at index `k`, if it is open and at node `v`.
fn open_at(state: &State, v: u32, k: usize) -> Option<Shutting>
    requires { 1 ≤ v }
    ensures { MatchOption result (IsNotOpenAt state.now.network.arcs v k) (IsShuttingAt state.now.network.arcs v k) }
{
    let arcs = state.arcs();
    if k >= arcs.len() || !arcs[k].is_open_at(v) {
        return None;
    }
    Some(Shutting {
        arc: k as u32 + 1,
        old: arcs[k].cap,
    })
}

/// Drains these arcs in turn, and reports each path to the watch. If none of them carries flow, there are no moves, and the call looks
/// at no other arc. Else it takes the carrying search out of the kept network; if none is kept, it makes a network and keeps it.
pub fn drain_all<W: Watch>(
    alloc: Global,
    state: &State,
    arcs: &[Shutting],
    kept: &mut Option<ResidualNetwork>,
    watch: &mut W,
) -> Result<Drained, AllocError>
    requires state { IsState state.now }
    requires arcs { AreOpenWith 0 arcs.now state.now.network }
    requires kept { KeepsNetwork state.now kept.old }
    ensures moves { IfOk result (λ drained. AreShuttingMoves state.now (numbers arcs.now) drained.moves.items) }
    ensures carrying { IfOk result (CarriesMoved state.now) }
    ensures kept { KeepsNetwork state.now kept.new }
{
    if are_without_flow(state, arcs) {
        return Ok(Drained {
            moves: Vec::new(alloc),
            carrying: None,
        });
    }
    let carrying = take_carrying(alloc, state, kept)?;
    let carrying = with_labels(alloc, carrying, arcs.len())?;
    drain_all_by(alloc, state, arcs, carrying, watch)
}

/// The search, which keeps two sets of labels if it drains many arcs: those that leave a node share the goal, and those that enter it
/// share the start.
fn with_labels(alloc: Global, mut search: Search, arcs: usize) -> Result<Search, AllocError>
    ensures { IfOk result (λ same. same ≡ search) }
{
    if arcs > FEW {
        search.keep_two(alloc)?;
    }
    Ok(search)
}

/// Drains these arcs in turn, by this carrying search.
fn drain_all_by<W: Watch>(
    alloc: Global,
    state: &State,
    arcs: &[Shutting],
    mut search: Search,
    watch: &mut W,
) -> Result<Drained, AllocError>
    requires arcs { AreOpenWith 0 arcs.now state.now.network }
    requires carrying { IsCarryingOf state.now search }
    ensures moves { IfOk result (λ drained. AreShuttingMoves state.now (numbers arcs.now) drained.moves.items) }
    ensures carrying { IfOk result (CarriesMoved state.now) }
{
    let mut touched = search.none_touched(alloc, most_touched(state))?;
    for (i, shutting) in arcs.iter().enumerate() {
        let turn = Turn {
            arc: shutting.arc,
            limit: 0,
            place: i + 1,
            count: arcs.len(),
        };
        drain_in_turn(state, turn, &mut search, &mut touched, watch);
    }
    list_drained(alloc, state, arcs, search, touched)
}

/// Whether none of these arcs carries flow.
fn are_without_flow(state: &State, arcs: &[Shutting]) -> bool
    requires { AreOpenWith 0 arcs.now state.now.network }
    ensures { result ≡ true → flow_on_all state.now.flows (numbers arcs.now) ≡ 0 }
{
    for shutting in arcs {
        if state.flow(shutting.arc) != 0 {
            return false;
        }
    }
    true
}

/// Drains the arc whose turn it is to 0. The search drains an arc that is no self loop. A self loop has no pair, and its own flow comes
/// off: it counts as touched.
fn drain_in_turn<W: Watch>(
    state: &State,
    turn: Turn,
    search: &mut Search,
    touched: &mut Touched,
    watch: &mut W,
)
    requires is_there { has_arc state.now.network turn.arc ≡ true }
    requires to_zero { turn.limit ≡ 0 }
    requires carrying { (unpaired : List ℕ) × IsCarryingSearch state.now unpaired search.old }
    ensures touched { Touches touched.old touched.new search.old.pairs search.new.pairs }
    ensures drains { (unpaired : List ℕ) → IsCarryingSearch state.now unpaired search.old → flow_on unpaired turn.arc ≡ flow_on state.now.flows turn.arc →
        DrainsNext state.now turn.arc unpaired touched.new search.old search.new }
{
    let arc = state.arc(turn.arc);
    if arc.tail == arc.head {
        let flow = state.flow(turn.arc);
        if flow > 0 {
            touched.add(turn.arc - 1);
            watch.lowered(turn, flow);
        }
    } else {
        drain_along(state, turn, search, touched, watch);
    }
}
