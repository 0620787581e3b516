ghost use Rattle.std.specs.Prelude.{◌≡◌, ◌≢◌, ◌-◌, ◌≤◌, [], Err, IfOk, IfErr, IfSome, IsOkUnless, MatchResult, OnErr, pos};
ghost use Rattle.std.specs.Result.{result_err};
ghost use Rattle.dmf_solver.specs.Change.{Cap, Close, Add, Shut, arc_refusal, change_fault};
ghost use Rattle.dmf_state.specs.Arc.{open_arcs_at};
ghost use Rattle.dmf_state.specs.Edit.{applied, moved, moves_of, shut_arcs, AddsArc, Fits, IsOpenWith};
ghost use Rattle.dmf_state.specs.Flow.{flow_on, flow_on_all, flow_value};
ghost use Rattle.dmf_state.specs.NetworkState.{with_flows};
ghost use Rattle.dmf_solver.specs.CarryingNetwork.{MayCarry};
ghost use Rattle.dmf_solver.specs.KeptNetwork.{KeepsNetwork};
ghost use Rattle.dmf_solver.specs.Planning.{EditTakesOff, IsRefusedFor, IsSideWanted, Plans, PlansSolve};

use crate::drain::drain;
use crate::fault::PlanFault;
use crate::reached_flows::into_moves;
use crate::residual::residual_search;
use crate::residual_network::ResidualNetwork;
use crate::shut::{drain_all, open_arcs_at};
use crate::side::wanted_side;
use crate::solve::solve;
use crate::watch::{Turn, Unwatched, Watch};
use dmf_path::{Search, Touched};
use dmf_state::{Direction, Edit, Side, State};
use std::alloc::Global;

/// A new capacity for an arc.
#[derive(Clone, Copy, Debug)]
pub struct NewCap {
    /// The number of the arc.
    pub arc: u64,
    /// Its new capacity.
    pub cap: u64,
}

/// Plans the capacity `cap` for arc number `j`. The state does not change. If more than `cap` flows on the arc, the plan drains the arc
/// first.
///
/// Fails with the first of these faults, before it drains anything: [`PlanFault::NoSuchArc`], [`PlanFault::Closed`],
/// [`PlanFault::SumTooLarge`]. Only draining takes memory: for the links of the residual network, for the flows on them and for some
/// numbers a node. If that is refused, fails with [`PlanFault::NoMemory`]. A plan that drains nothing looks at no other arc.
pub fn plan_cap(alloc: Global, state: &State, j: u64, cap: u64) -> Result<Edit, PlanFault>
    ensures refused { IsRefusedFor state.now (Cap j cap) result }
    ensures at_once { flow_on state.now.flows j ≤ cap → result ≢ Err PlanFault.NoMemory }
    ensures plan { IfOk result (Plans state.now (Cap j cap)) }
    ensures takes_off { IfOk result (EditTakesOff state.now (flow_on state.now.flows j - cap)) }
{
    let wanted = NewCap { arc: j, cap };
    plan_cap_watched(alloc, state, wanted, &mut None, &mut Unwatched)
}

/// Plans the same capacity, makes the kept network that of the state that the edit makes, and tells the watch what each path of a
/// drain takes off.
///
/// A plan that drains takes the kept network for it; where none is kept, one is made and kept. A plan that is refused leaves the
/// network as it is, but for want of memory: then it may be a new one, or lose the search that drains use.
pub fn plan_cap_watched<W: Watch>(
    alloc: Global,
    state: &State,
    wanted: NewCap,
    kept: &mut Option<ResidualNetwork>,
    watch: &mut W,
) -> Result<Edit, PlanFault>
    requires { KeepsNetwork state.now kept.old }
    ensures refused { IsRefusedFor state.now (Cap wanted.arc wanted.cap) result }
    ensures at_once { flow_on state.now.flows wanted.arc ≤ wanted.cap → result ≢ Err PlanFault.NoMemory }
    ensures plan { IfOk result (Plans state.now (Cap wanted.arc wanted.cap)) }
    ensures takes_off { IfOk result (EditTakesOff state.now (flow_on state.now.flows wanted.arc - wanted.cap)) }
    ensures kept { IfOk result (λ edit. KeepsNetwork (applied edit state.now) kept.new) }
    ensures kept_if_refused { OnErr result (KeepsNetwork state.now kept.new) }
    ensures same_if_refused { IfErr result (λ fault. fault ≢ PlanFault.NoMemory → kept.new ≡ kept.old) }
{
    let (arc, old) = open_arc(state, wanted.arc)?;
    let cap = wanted.cap;
    if cap > state.largest_cap(old) {
        return Err(PlanFault::SumTooLarge);
    }
    let drained = drain(alloc, state, Turn::only(arc, cap), kept, watch)?;
    let edit = Edit::Cap {
        arc,
        old,
        new: cap,
        moves: drained.moves,
    };
    follow_drained(alloc, state, &edit, drained.carrying, kept);
    Ok(edit)
}

/// Plans to close arc number `j`. The state does not change. If the arc carries flow, the plan drains it first.
///
/// Fails with the first of these faults, before it drains anything: [`PlanFault::NoSuchArc`], [`PlanFault::Closed`]. Only draining
/// takes memory: for the links of the residual network, for the flows on them and for some numbers a node. If that is refused, fails
/// with [`PlanFault::NoMemory`]. A plan that drains nothing looks at no other arc.
pub fn plan_close(alloc: Global, state: &State, j: u64) -> Result<Edit, PlanFault>
    ensures refused { IsRefusedFor state.now (Close j) result }
    ensures at_once { flow_on state.now.flows j ≡ 0 → result ≢ Err PlanFault.NoMemory }
    ensures plan { IfOk result (Plans state.now (Close j)) }
    ensures takes_off { IfOk result (EditTakesOff state.now (flow_on state.now.flows j)) }
{
    plan_close_watched(alloc, state, j, &mut None, &mut Unwatched)
}

/// Plans to close the same arc; does with the kept network and with the watch as [`plan_cap_watched`] does.
pub fn plan_close_watched<W: Watch>(
    alloc: Global,
    state: &State,
    j: u64,
    kept: &mut Option<ResidualNetwork>,
    watch: &mut W,
) -> Result<Edit, PlanFault>
    requires { KeepsNetwork state.now kept.old }
    ensures refused { IsRefusedFor state.now (Close j) result }
    ensures at_once { flow_on state.now.flows j ≡ 0 → result ≢ Err PlanFault.NoMemory }
    ensures plan { IfOk result (Plans state.now (Close j)) }
    ensures takes_off { IfOk result (EditTakesOff state.now (flow_on state.now.flows j)) }
    ensures kept { IfOk result (λ edit. KeepsNetwork (applied edit state.now) kept.new) }
    ensures kept_if_refused { OnErr result (KeepsNetwork state.now kept.new) }
    ensures same_if_refused { IfErr result (λ fault. fault ≢ PlanFault.NoMemory → kept.new ≡ kept.old) }
{
    let (arc, old) = open_arc(state, j)?;
    let drained = drain(alloc, state, Turn::only(arc, 0), kept, watch)?;
    let edit = Edit::Close {
        arc,
        old,
        moves: drained.moves,
    };
    follow_drained(alloc, state, &edit, drained.carrying, kept);
    Ok(edit)
}

/// Plans to close every open arc that leaves node `v` or enters it, one after the other in the order of their numbers. The state does
/// not change. If an arc carries flow when its turn comes, the plan drains it first. The source and the sink may be shut, and so may a
/// node without open arcs.
///
/// Fails with [`PlanFault::NoSuchNode`] before it drains anything. Takes memory for the arcs and, if one of them carries flow, for the
/// links of the residual network, for the flows on them and for some numbers a node. If that is refused, fails with
/// [`PlanFault::NoMemory`].
pub fn plan_shut(alloc: Global, state: &State, v: u64) -> Result<Edit, PlanFault>
    ensures refused { IsRefusedFor state.now (Shut v) result }
    ensures plan { IfOk result (Plans state.now (Shut v)) }
    ensures arcs { IfOk result (λ edit. shut_arcs edit ≡ open_arcs_at v 1 state.now.network.arcs) }
    ensures takes_off { IfOk result (EditTakesOff state.now (flow_on_all state.now.flows (open_arcs_at v 1 state.now.network.arcs))) }
{
    plan_shut_watched(alloc, state, v, &mut None, &mut Unwatched)
}

/// Plans to close the same arcs; does with the kept network and with the watch as [`plan_cap_watched`] does.
pub fn plan_shut_watched<W: Watch>(
    alloc: Global,
    state: &State,
    v: u64,
    kept: &mut Option<ResidualNetwork>,
    watch: &mut W,
) -> Result<Edit, PlanFault>
    requires { KeepsNetwork state.now kept.old }
    ensures refused { IsRefusedFor state.now (Shut v) result }
    ensures plan { IfOk result (Plans state.now (Shut v)) }
    ensures arcs { IfOk result (λ edit. shut_arcs edit ≡ open_arcs_at v 1 state.now.network.arcs) }
    ensures takes_off { IfOk result (EditTakesOff state.now (flow_on_all state.now.flows (open_arcs_at v 1 state.now.network.arcs))) }
    ensures kept { IfOk result (λ edit. KeepsNetwork (applied edit state.now) kept.new) }
    ensures kept_if_refused { OnErr result (KeepsNetwork state.now kept.new) }
    ensures same_if_refused { IfErr result (λ fault. fault ≢ PlanFault.NoMemory → kept.new ≡ kept.old) }
{
    if v < 1 || v > u64::from(state.nodes()) {
        return Err(PlanFault::NoSuchNode);
    }
    let arcs = open_arcs_at(alloc, state, v as u32, kept)?;
    let drained = drain_all(alloc, state, &arcs, kept, watch)?;
    let edit = Edit::Shut {
        arcs,
        moves: drained.moves,
    };
    follow_drained(alloc, state, &edit, drained.carrying, kept);
    Ok(edit)
}

/// Makes the kept network the network of the state after an edit that adds no arc. The carrying search is the one of the flow after the edit's moves.
fn follow_drained(
    alloc: Global,
    state: &State,
    edit: &Edit,
    carrying: Option<Search>,
    kept: &mut Option<ResidualNetwork>,
)
    requires fits { Fits edit.now state.now }
    requires adds_none { ¬ AddsArc edit.now }
    requires carrying { IfSome carrying (MayCarry (with_flows state.now (moved (moves_of edit.now) state.now.flows))) }
    requires kept { KeepsNetwork state.now kept.old }
    ensures { KeepsNetwork (applied edit.now state.now) kept.new }
{
    if let Some(network) = kept {
        network.follow_along(state, edit, Direction::Forward);
        network.keep_carrying(alloc, carrying);
    }
}

/// Plans a new last arc from `tail` to `head` with capacity `cap`. The state does not change.
///
/// Takes no memory. Fails with the first of these faults: [`PlanFault::NoSuchNode`], [`PlanFault::TooManyArcs`],
/// [`PlanFault::SumTooLarge`].
pub fn plan_add(state: &State, tail: u64, head: u64, cap: u64) -> Result<Edit, PlanFault>
    ensures refused { result_err result ≡ change_fault state.now (Add tail head cap) }
    ensures plan { IfOk result (Plans state.now (Add tail head cap)) }
{
    let arc = state.new_arc(tail, head, cap).map_err(PlanFault::from)?;
    Ok(Edit::Add {
        tail: arc.tail,
        head: arc.head,
        cap: arc.cap,
    })
}

/// Plans the maximum flow that augmenting along shortest paths reaches from the present flow. The state does not change.
///
/// No flow of the network has a larger value, and some cut has that value as its capacity.
///
/// Takes memory for two links an arc and some numbers a node, then for the moves, and for the flows if there are many moves. If that is
/// refused, fails with [`PlanFault::NoMemory`].
pub fn plan_solve(alloc: Global, state: &State) -> Result<Edit, PlanFault>
    ensures refused { IsOkUnless result PlanFault.NoMemory }
    ensures edit { IfOk result (PlansSolve state.now) }
{
    let (edit, _) = plan_solve_watched(alloc, state, false, &mut Unwatched)?;
    Ok(edit)
}

/// Plans the same maximum flow, with the smallest side if `want_side` asks for it, and reports each path to the watch on the way.
///
/// Takes memory for the side too, if it is wanted. If memory is refused, fails with [`PlanFault::NoMemory`].
pub fn plan_solve_watched<W: Watch>(
    alloc: Global,
    state: &State,
    want_side: bool,
    watch: &mut W,
) -> Result<(Edit, Option<Side>), PlanFault>
    ensures refused { IsOkUnless result PlanFault.NoMemory }
    ensures edit { IfOk result (λ planned. PlansSolve state.now planned.0) }
    ensures side { IfOk result (λ planned. IsSideWanted want_side state.now.network planned.1) }
    ensures value { IfOk result (λ planned. IfSome planned.1 (λ side. pos side.capacity ≡ flow_value state.now.network (applied planned.0 state.now).flows)) }
{
    let search = residual_search(alloc, state)?;
    let solved = solve(alloc, search, state, Touched::all(), &mut [], None, watch)?;
    let side = wanted_side(alloc, state, &solved.search, solved.value, want_side)?;
    let moves = into_moves(alloc, state, solved)?;
    Ok((Edit::Solve { moves }, side))
}

/// The number and the capacity of arc number `j`, or why the arc cannot be changed.
fn open_arc(state: &State, j: u64) -> Result<(u32, u64), PlanFault>
    ensures refused { result_err result ≡ arc_refusal state.now.network j }
    ensures arc { IfOk result (λ found. (found.0 ≡ j) × IsOpenWith state.now.network j found.1) }
{
    let arcs = state.arcs();
    if j < 1 || j > arcs.len() as u64 {
        return Err(PlanFault::NoSuchArc);
    }
    let arc = arcs[j as usize - 1];
    if arc.closed {
        return Err(PlanFault::Closed);
    }
    Ok((j as u32, arc.cap))
}
