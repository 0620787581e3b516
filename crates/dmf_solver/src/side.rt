ghost use Rattle.std.specs.Prelude.{◌≡◌, ◌-◌, ◌≤◌, ◌↔◌, ℕ, false, length, pos, IfOk, IfSome, IsTrue, ◌^◌};
ghost use Rattle.std.specs.List.{slice_index_or};
ghost use Rattle.std.specs.List.Sorted.{IsStrictlyIncreasing};
ghost use Rattle.dmf_node.specs.Node.{IsNode};
ghost use Rattle.dmf_state.specs.Edit.{applied, Fits};
ghost use Rattle.dmf_state.specs.Flow.{flow_value};
ghost use Rattle.dmf_state.specs.Side.{has_node};
ghost use Rattle.dmf_solver.specs.Pairs.{IsAtEnd, IsReachedSide, reached_flows};
ghost use Rattle.dmf_solver.specs.Planning.{IsSideWanted};
ghost use Rattle.dmf_solver.specs.ResidualNetwork.{IsResidualOf};
ghost use Rattle.dmf_solver.specs.SmallestSide.{TellsSide};

use crate::fault::CutFault;
use crate::residual::residual_search;
use dmf_path::Search;
use dmf_state::{Edit, Side, State};
use std::alloc::{AllocError, Global};

/// The smallest side of the state's network: the nodes that every minimum cut has. The state's flow must be greatest.
///
/// Fails with [`CutFault::NotGreatest`] if some flow has a larger value. Takes memory for two links an arc and some numbers a node; if
/// that is refused, fails with [`CutFault::NoMemory`].
pub fn smallest_side(alloc: Global, state: &State) -> Result<Side, CutFault>
    ensures { TellsSide state.now result }
{
    let search = residual_search(alloc, state)?;
    side_along(alloc, &search, state)
}

/// The smallest side that [`smallest_side`] finds, by a search that is over the residual network already.
pub fn side_along(alloc: Global, search: &Search, state: &State) -> Result<Side, CutFault>
    requires { IsResidualOf state.now search.now }
    ensures { TellsSide state.now result }
{
    let side = reached_side(alloc, search, state.value())?;
    if side.contains(state.sink()) {
        return Err(CutFault::NotGreatest);
    }
    Ok(side)
}

/// The smallest side of the network of the state after an edit. The edit has to fit the state, as one that was planned on it does. The
/// state does not change.
///
/// The flow after the edit must be greatest; else the call fails as [`smallest_side`] does. Takes memory for a copy of the state too.
pub fn side_after(alloc: Global, state: &State, edit: &Edit) -> Result<Side, CutFault>
    requires { Fits edit.now state.now }
    ensures { TellsSide (applied edit.now state.now) result }
{
    let mut after = state.copy(alloc)?;
    after.apply(edit)?;
    smallest_side(alloc, &after)
}

/// The smallest side of the network of a solved state, by the search that solved it to this value, or `None` if it is not wanted.
pub fn wanted_side(
    alloc: Global,
    state: &State,
    search: &Search,
    value: u64,
    want_side: bool,
) -> Result<Option<Side>, AllocError>
    requires { IsAtEnd state.now search.now value }
    ensures side { IfOk result (λ side. IsSideWanted want_side state.now.network side) }
    ensures value { IfOk result (λ side. IfSome side (λ side. pos side.capacity ≡ flow_value state.now.network (reached_flows state.now search.now))) }
{
    if want_side {
        let side = reached_side(alloc, search, value)?;
        return Ok(Some(side));
    }
    Ok(None)
}

/// The nodes that a search reaches from its start, with this capacity.
fn reached_side(alloc: Global, search: &Search, capacity: u64) -> Result<Side, AllocError>
    requires { search.now.nodes ≤ 2 ^ 24 }
    ensures { IfOk result (IsReachedSide search.now capacity) }
{
    let marks = search.reached(alloc)?;
    let ids = marked_nodes(alloc, &marks)?;
    Ok(Side::new(ids, capacity))
}

/// The numbers of the marked nodes, ascending. The first mark belongs to node 1.
fn marked_nodes(alloc: Global, marks: &[bool]) -> Result<Vec<u32>, AllocError>
    requires { length marks.now ≤ 2 ^ 24 }
    ensures ascending { IfOk result (λ ids. IsStrictlyIncreasing ids.items) }
    ensures marked { IfOk result (λ ids. (v : ℕ) →
        IsTrue (has_node ids.items v) ↔ (IsNode (length marks.now) v × IsTrue (slice_index_or marks.now (v - 1) false))) }
{
    let mut ids = Vec::new(alloc);
    for (k, &mark) in marks.iter().enumerate() {
        if mark {
            ids.push(k as u32 + 1)?;
        }
    }
    Ok(ids)
}
