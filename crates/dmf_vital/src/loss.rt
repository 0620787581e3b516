ghost use Rattle.std.specs.Prelude.{◌≡◌, ℕ, ◌+◌, ◌<◌, true, length, slice_index, All, IfOk};
ghost use Rattle.dmf_node.specs.Node.{is_node};
ghost use Rattle.dmf_state.specs.Flow.{IsInnerNode};
ghost use Rattle.dmf_state.specs.Network.{has_arc};
ghost use Rattle.dmf_solver.specs.Greatest.{IsGreatest};
ghost use Rattle.dmf_vital.specs.GreatestValue.{IsGreatestValue};
ghost use Rattle.dmf_vital.specs.Loss.{IsLossOfArc, IsLossAt};
ghost use Rattle.dmf_vital.specs.Without.{without_arc, without_node};

use crate::rerouting::{find_ranks, loss_at, loss_of_arc, loss_of_node, make_rerouting};
use crate::watch::{ValuingWatch, report};
use dmf_solver::Unwatched;
use dmf_state::{NoMemory, State};
use std::alloc::{AllocError, Global};

/// The greatest value that is left without arc number `j`, which is there, of a state whose flow is greatest. The state stays as it is.
/// Fails only if memory is refused.
pub fn value_without_arc(alloc: Global, state: &State, j: u32) -> Result<u64, NoMemory>
    requires is_there { has_arc state.now.network j ≡ true }
    requires greatest { IsGreatest state.now.network state.now.flows }
    ensures { IfOk result (IsGreatestValue (without_arc state.now.network j)) }
{
    let mut rerouting = make_rerouting(alloc, state)?;
    let ranks = find_ranks(alloc, state, &rerouting)?;
    let loss = loss_of_arc(state, &ranks, &mut rerouting, j)?;
    Ok(state.value() - loss)
}

/// What is lost without each arc, in order, of a state whose flow is greatest. The state stays as it is. Fails only if memory is refused.
pub fn arc_losses(alloc: Global, state: &State) -> Result<Vec<u64>, NoMemory>
    requires { IsGreatest state.now.network state.now.flows }
    ensures one_each { IfOk result (λ losses. length losses.items ≡ length state.now.network.arcs) }
    ensures losses { IfOk result (λ losses. (k : ℕ) → k < length losses.items
        → IsLossOfArc state.now.network (k + 1) (slice_index losses.items k)) }
{
    arc_losses_watched(alloc, state, &mut Unwatched)
}

/// Finds the same, and reports each arc to the watch.
pub fn arc_losses_watched<W: ValuingWatch>(
    alloc: Global,
    state: &State,
    watch: &mut W,
) -> Result<Vec<u64>, NoMemory>
    requires { IsGreatest state.now.network state.now.flows }
    ensures one_each { IfOk result (λ losses. length losses.items ≡ length state.now.network.arcs) }
    ensures losses { IfOk result (λ losses. (k : ℕ) → k < length losses.items
        → IsLossOfArc state.now.network (k + 1) (slice_index losses.items k)) }
{
    let all = numbers_to(alloc, state.arcs().len() as u32)?;
    arc_losses_of_watched(alloc, state, &all, watch)
}

/// What is lost without each of these arcs alone, in order, of a state whose flow is greatest. The state stays as it is. Fails only if
/// memory is refused.
pub fn arc_losses_of(alloc: Global, state: &State, arcs: &[u32]) -> Result<Vec<u64>, NoMemory>
    requires there { All (λ j. has_arc state.now.network j ≡ true) arcs.now }
    requires greatest { IsGreatest state.now.network state.now.flows }
    ensures one_each { IfOk result (λ losses. length losses.items ≡ length arcs.now) }
    ensures losses { IfOk result (λ losses. (k : ℕ) → k < length losses.items
        → IsLossOfArc state.now.network (slice_index arcs.now k) (slice_index losses.items k)) }
{
    arc_losses_of_watched(alloc, state, arcs, &mut Unwatched)
}

/// Finds the same, and reports each arc to the watch.
pub fn arc_losses_of_watched<W: ValuingWatch>(
    alloc: Global,
    state: &State,
    arcs: &[u32],
    watch: &mut W,
) -> Result<Vec<u64>, NoMemory>
    requires there { All (λ j. has_arc state.now.network j ≡ true) arcs.now }
    requires greatest { IsGreatest state.now.network state.now.flows }
    ensures one_each { IfOk result (λ losses. length losses.items ≡ length arcs.now) }
    ensures losses { IfOk result (λ losses. (k : ℕ) → k < length losses.items
        → IsLossOfArc state.now.network (slice_index arcs.now k) (slice_index losses.items k)) }
{
    let mut rerouting = make_rerouting(alloc, state)?;
    let ranks = find_ranks(alloc, state, &rerouting)?;
    let mut losses = vec![in alloc; 0u64; arcs.len()]?;
    for k in 0..arcs.len() {
        report(watch, k, arcs.len())?;
        losses[k] = loss_of_arc(state, &ranks, &mut rerouting, arcs[k])?;
    }
    Ok(losses)
}

/// The greatest value that is left without node `v`, which is neither the source nor the sink, of a state whose flow is greatest. The state
/// stays as it is. Fails only if memory is refused.
pub fn value_without_node(alloc: Global, state: &State, v: u32) -> Result<u64, NoMemory>
    requires inner { IsInnerNode state.now.network v }
    requires greatest { IsGreatest state.now.network state.now.flows }
    ensures { IfOk result (IsGreatestValue (without_node state.now.network v)) }
{
    let mut rerouting = make_rerouting(alloc, state)?;
    let ranks = find_ranks(alloc, state, &rerouting)?;
    let loss = loss_of_node(state, &ranks, &mut rerouting, v)?;
    Ok(state.value() - loss)
}

/// What is lost without each node, in order, of a state whose flow is greatest, and 0 for the source and the sink. The state stays as it is.
/// Fails only if memory is refused.
pub fn node_losses(alloc: Global, state: &State) -> Result<Vec<u64>, NoMemory>
    requires { IsGreatest state.now.network state.now.flows }
    ensures one_each { IfOk result (λ losses. length losses.items ≡ state.now.network.nodes) }
    ensures losses { IfOk result (λ losses. (k : ℕ) → k < length losses.items
        → IsLossAt state.now.network (k + 1) (slice_index losses.items k)) }
{
    node_losses_watched(alloc, state, &mut Unwatched)
}

/// Finds the same, and reports each node to the watch.
pub fn node_losses_watched<W: ValuingWatch>(
    alloc: Global,
    state: &State,
    watch: &mut W,
) -> Result<Vec<u64>, NoMemory>
    requires { IsGreatest state.now.network state.now.flows }
    ensures one_each { IfOk result (λ losses. length losses.items ≡ state.now.network.nodes) }
    ensures losses { IfOk result (λ losses. (k : ℕ) → k < length losses.items
        → IsLossAt state.now.network (k + 1) (slice_index losses.items k)) }
{
    let all = numbers_to(alloc, state.nodes())?;
    node_losses_of_watched(alloc, state, &all, watch)
}

/// What is lost without each of these nodes alone, in order, of a state whose flow is greatest, and 0 for the source and the sink. The state
/// stays as it is. Fails only if memory is refused.
pub fn node_losses_of(alloc: Global, state: &State, nodes: &[u32]) -> Result<Vec<u64>, NoMemory>
    requires there { All (λ v. is_node state.now.network.nodes v ≡ true) nodes.now }
    requires greatest { IsGreatest state.now.network state.now.flows }
    ensures one_each { IfOk result (λ losses. length losses.items ≡ length nodes.now) }
    ensures losses { IfOk result (λ losses. (k : ℕ) → k < length losses.items
        → IsLossAt state.now.network (slice_index nodes.now k) (slice_index losses.items k)) }
{
    node_losses_of_watched(alloc, state, nodes, &mut Unwatched)
}

/// Finds the same, and reports each node to the watch.
pub fn node_losses_of_watched<W: ValuingWatch>(
    alloc: Global,
    state: &State,
    nodes: &[u32],
    watch: &mut W,
) -> Result<Vec<u64>, NoMemory>
    requires there { All (λ v. is_node state.now.network.nodes v ≡ true) nodes.now }
    requires greatest { IsGreatest state.now.network state.now.flows }
    ensures one_each { IfOk result (λ losses. length losses.items ≡ length nodes.now) }
    ensures losses { IfOk result (λ losses. (k : ℕ) → k < length losses.items
        → IsLossAt state.now.network (slice_index nodes.now k) (slice_index losses.items k)) }
{
    let mut rerouting = make_rerouting(alloc, state)?;
    let ranks = find_ranks(alloc, state, &rerouting)?;
    let mut losses = vec![in alloc; 0u64; nodes.len()]?;
    for k in 0..nodes.len() {
        report(watch, k, nodes.len())?;
        losses[k] = loss_at(state, &ranks, &mut rerouting, nodes[k])?;
    }
    Ok(losses)
}

/// The numbers from 1 to `last`.
fn numbers_to(alloc: Global, last: u32) -> Result<Vec<u32>, AllocError>
    ensures count { IfOk result (λ numbers. length numbers.items ≡ last) }
    ensures each { IfOk result (λ numbers. (k : ℕ) → k < last → slice_index numbers.items k ≡ k + 1) }
{
    let mut numbers = vec![in alloc; 0u32; last as usize]?;
    for k in 0..last {
        numbers[k as usize] = k + 1;
    }
    Ok(numbers)
}
