ghost use Rattle.std.specs.Prelude.{◌≡◌, ◌≢◌, ◌+◌, ◌≤◌, ℕ, true, length, List, [], ◌∷◌, IfOk, IsOk};
ghost use Rattle.dmf_state.specs.Network.{arc_number, has_arc};
ghost use Rattle.dmf_state.specs.Flow.{flow_on};
ghost use Rattle.dmf_state.specs.NetworkState.{IsState};
ghost use Rattle.dmf_state.specs.Edit.{differences, AreOpenWith};
ghost use Rattle.dmf_path.specs.Touched.{AreBelow, Touches};
ghost use Rattle.dmf_solver.specs.CarryingNetwork.{IsCarryingOf};
ghost use Rattle.dmf_solver.specs.Drain.{Drains};
ghost use Rattle.dmf_solver.specs.KeptNetwork.{KeepsNetwork};
ghost use Rattle.dmf_solver.specs.Moves.{AreDrainingMoves, CarriesMoved, UntouchedStay};
ghost use Rattle.dmf_solver.specs.Pairs.{Along, IsCarryingSearch, drained_flows, flows_without, flows_read};

use crate::drained_flows::DrainedFlows;
use crate::moves::{list_moves, most_touched};
use crate::residual_network::{ResidualNetwork, new_network};
use crate::watch::{Turn, Watch};
use dmf_path::{Search, Touched};
use dmf_state::{Move, Shutting, State};
use std::alloc::{AllocError, Global};

/// The result of draining.
#[derive(Drop)]
pub struct Drained {
    /// The moves.
    pub moves: Vec<Move>,
    /// The carrying search of the flow after them, if one was needed.
    pub carrying: Option<Search>,
}

/// Drains the arc whose turn it is to the limit, and reports each path to the watch. If no more than the limit flows on the arc, there
/// are no moves, and the call looks at no other arc. Else it takes the carrying search out of the kept network; if none is kept, it
/// makes a network and keeps it.
pub fn drain<W: Watch>(
    alloc: Global,
    state: &State,
    turn: Turn,
    kept: &mut Option<ResidualNetwork>,
    watch: &mut W,
) -> Result<Drained, AllocError>
    requires is_there { has_arc state.now.network turn.arc ≡ true }
    requires kept { KeepsNetwork state.now kept.old }
    ensures at_once { flow_on state.now.flows turn.arc ≤ turn.limit → IsOk result }
    ensures moves { IfOk result (λ drained. AreDrainingMoves state.now turn.arc turn.limit drained.moves.items) }
    ensures carrying { IfOk result (CarriesMoved state.now) }
    ensures kept { KeepsNetwork state.now kept.new }
{
    let Turn { arc: j, limit, .. } = turn;
    let flow = state.flows()[j as usize - 1];
    if flow <= limit {
        return Ok(Drained {
            moves: Vec::new(alloc),
            carrying: None,
        });
    }
    let arc = state.arc(j);
    if arc.tail == arc.head {
        let moves = loop_moves(alloc, j, flow, limit)?;
        watch.lowered(turn, flow - limit);
        return Ok(Drained {
            moves,
            carrying: None,
        });
    }
    let carrying = take_carrying(alloc, state, kept)?;
    drain_by(alloc, state, turn, carrying, watch)
}

/// Takes the carrying search of the state's flow out of the kept network. If none is kept, makes a network and keeps it first.
pub fn take_carrying(
    alloc: Global,
    state: &State,
    kept: &mut Option<ResidualNetwork>,
) -> Result<Search, AllocError>
    requires state { IsState state.now }
    requires kept { KeepsNetwork state.now kept.old }
    ensures kept { KeepsNetwork state.now kept.new }
    ensures carrying { IfOk result (IsCarryingOf state.now) }
{
    if kept.is_none() {
        *kept = Some(new_network(alloc, state)?);
    }
    match kept {
        Some(network) => network.take_carrying(alloc, state),
        None => unreachable!(),
    }
}

/// The move that drains arc number `j`, a self loop: no other arc carries its flow.
fn loop_moves(alloc: Global, j: u32, flow: u64, limit: u64) -> Result<Vec<Move>, AllocError>
    ensures { IfOk result (λ moves. moves.items ≡ record { arc = j; from = flow; to = limit } ∷ []) }
{
    let mut moves = Vec::new(alloc);
    moves.push(Move {
        arc: j,
        from: flow,
        to: limit,
    })?;
    Ok(moves)
}

/// Drains the arc whose turn it is, which is no self loop, to the limit, by this carrying search.
fn drain_by<W: Watch>(
    alloc: Global,
    state: &State,
    turn: Turn,
    mut carrying: Search,
    watch: &mut W,
) -> Result<Drained, AllocError>
    requires is_there { has_arc state.now.network turn.arc ≡ true }
    requires no_loop { (arc_number state.now.network turn.arc).tail ≢ (arc_number state.now.network turn.arc).head }
    requires carrying { IsCarryingOf state.now carrying }
    ensures moves { IfOk result (λ drained. AreDrainingMoves state.now turn.arc turn.limit drained.moves.items) }
    ensures carrying { IfOk result (CarriesMoved state.now) }
{
    let mut touched = carrying.none_touched(alloc, most_touched(state))?;
    drain_along(state, turn, &mut carrying, &mut touched, watch);
    list_drained(alloc, state, &[], carrying, touched)
}

/// What draining comes to: the moves, listed from the touched pairs, and the carrying search. A self loop has no pair: it is drained if
/// it is one of the arcs of `shut`. No flow on an arc that does not count as touched may differ.
pub fn list_drained(
    alloc: Global,
    state: &State,
    shut: &[Shutting],
    carrying: Search,
    mut touched: Touched,
) -> Result<Drained, AllocError>
    requires shut { AreOpenWith 0 shut.now state.now.network }
    requires carrying { IsCarryingSearch state.now (flows_without shut.now state.now.flows) carrying }
    requires below { AreBelow (length state.now.flows + 1) touched }
    requires others_stay { UntouchedStay touched state.now.flows (drained_flows state.now shut.now carrying) }
    ensures moves { IfOk result (λ drained. drained.moves.items ≡ differences 1 state.now.flows (drained_flows state.now shut.now carrying)) }
    ensures carrying { IfOk result (CarriesMoved state.now) }
{
    touched.sort();
    let indices = touched.indices(state.flows().len() + 1);
    let drained = DrainedFlows {
        state,
        shut,
        search: &carrying,
    };
    let moves = list_moves(alloc, state, &drained, indices)?;
    Ok(Drained {
        moves,
        carrying: Some(carrying),
    })
}

/// Drains the arc whose turn it is, which is no self loop, to the limit: takes flow off along the paths of carrying steps that the
/// search finds, and reports each to the watch. If no more than the limit flows on the arc, does nothing. The pairs that it changes
/// count as touched.
pub fn drain_along<W: Watch>(
    state: &State,
    turn: Turn,
    search: &mut Search,
    touched: &mut Touched,
    watch: &mut W,
)
    requires is_there { has_arc state.now.network turn.arc ≡ true }
    requires no_loop { (arc_number state.now.network turn.arc).tail ≢ (arc_number state.now.network turn.arc).head }
    requires carrying { (unpaired : List ℕ) × IsCarryingSearch state.now unpaired search.old }
    ensures touched { Touches touched.old touched.new search.old.pairs search.new.pairs }
    ensures drains { (unpaired : List ℕ) → IsCarryingSearch state.now unpaired search.old →
        IsCarryingSearch state.now unpaired search.new
        × Drains state.now.network turn.arc turn.limit (flows_read Along unpaired search.old.pairs) (flows_read Along unpaired search.new.pairs) }
{
    let i = turn.arc as usize - 1;
    let mut left = search.along(i).unwrap_or(0).saturating_sub(turn.limit);
    if left == 0 {
        return;
    }
    let arc = state.arc(turn.arc);
    search.aim(arc.head, arc.tail);
    touched.add(turn.arc - 1);
    while 0 < left {
        match search.augment(left, touched) {
            Some(found) => {
                let amount = found.amount;
                search.lower(i, amount);
                watch.lowered(turn, amount);
                left -= amount;
            }
            None => unreachable!(),
        }
    }
    search.settle();
}
