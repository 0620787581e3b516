//! The parts of a network that a run leaves out in turn, and what is lost without them.
ghost use Rattle.std.specs.Prelude.{ℕ, ◌≡◌, ◌+◌, ◌<◌, IfOk, length, slice_index};
ghost use Rattle.std.specs.List.{range_with_len};
ghost use Rattle.dmf_solver.specs.Greatest.{IsGreatest};
ghost use Rattle.dmf_vital.specs.Loss.{IsLossAt, IsLossOfArc};
ghost use Rattle.dmf_vital.specs.Worst.{IsArcLoss, IsNodeLoss};
ghost use Rattle.dmf_valuing.specs.PartRows.{AreLossesOf, AreLossesOfParts, single};
ghost use Rattle.dmf_valuing.specs.Rows.{inner_nodes, is_inner};

use dmf_state::{NoMemory, State};
use dmf_vital::{
    NumberedLoss, ValuingWatch, arc_losses_watched, node_losses_watched, worst_arcs_watched,
    worst_nodes_watched, worst_pairs_watched,
};
use std::alloc::{AllocError, Global};

/// Which parts have rows.
#[derive(Clone, Copy)]
pub enum Parts {
    /// All arcs.
    Arcs,
    /// All arcs, each with a second one beside it.
    Seconds,
    /// All nodes but the source and the sink.
    Nodes,
    /// The given number of arcs, the worst first.
    WorstArcs(u32),
    /// The given number of nodes, the worst first.
    WorstNodes(u32),
    /// The given number of pairs of arcs, the worst first.
    WorstPairs(u32),
}

/// What is lost without each of the parts, in the order of their rows, of a state whose flow is greatest. Reports to the watch how many
/// are valued. Fails only if memory is refused, or if the watch ends it.
pub fn find_losses<V: ValuingWatch>(
    alloc: Global,
    parts: Parts,
    state: &State,
    watch: &mut V,
) -> Result<Vec<NumberedLoss>, NoMemory>
    requires { IsGreatest state.now.network state.now.flows }
    ensures { IfOk result (λ losses. AreLossesOfParts parts state.now.network losses.items) }
{
    match parts {
        Parts::Arcs => {
            let losses = arc_losses_watched(alloc, state, watch)?;
            Ok(losses_of_arcs(alloc, state, &losses)?)
        }
        Parts::Seconds => {
            let all = arc_losses_watched(alloc, state, watch)?;
            Ok(losses_of_arcs(alloc, state, &all)?)
        }
        Parts::Nodes => {
            let losses = node_losses_watched(alloc, state, watch)?;
            Ok(losses_of_nodes(alloc, state, &losses)?)
        }
        Parts::WorstArcs(most) => worst_arcs_watched(alloc, state, most as usize, watch),
        Parts::WorstNodes(most) => worst_nodes_watched(alloc, state, most as usize, watch),
        Parts::WorstPairs(most) => worst_pairs_watched(alloc, state, most as usize, watch),
    }
}

/// What is lost without each arc, each loss with its number.
fn losses_of_arcs(
    alloc: Global,
    state: &State,
    losses: &[u64],
) -> Result<Vec<NumberedLoss>, AllocError>
    requires one_each { length losses.now ≡ length state.now.network.arcs }
    requires losses { (k : ℕ) → k < length losses.now
        → IsLossOfArc state.now.network (k + 1) (slice_index losses.now k) }
    ensures { IfOk result (λ numbered. AreLossesOf (IsArcLoss state.now.network)
        (range_with_len 1 (length state.now.network.arcs)) numbered.items) }
{
    let mut numbered = Vec::with_capacity(alloc, losses.len())?;
    for k in 0..state.arcs().len() {
        numbered.push(single(k as u32 + 1, losses[k]))?;
    }
    Ok(numbered)
}

/// What is lost without each node but the source and the sink, each loss with its number.
fn losses_of_nodes(
    alloc: Global,
    state: &State,
    losses: &[u64],
) -> Result<Vec<NumberedLoss>, AllocError>
    requires one_each { length losses.now ≡ state.now.network.nodes }
    requires losses { (k : ℕ) → k < length losses.now
        → IsLossAt state.now.network (k + 1) (slice_index losses.now k) }
    ensures { IfOk result (λ numbered. AreLossesOf (IsNodeLoss state.now.network)
        (inner_nodes state.now.network) numbered.items) }
{
    let mut numbered = Vec::with_capacity(alloc, losses.len())?;
    for k in 0..state.nodes() {
        if is_inner(state, k + 1) {
            numbered.push(single(k + 1, losses[k as usize]))?;
        }
    }
    Ok(numbered)
}

/// The loss without the one arc or node of this number.
fn single(number: u32, loss: u64) -> NumberedLoss
    ensures { result ≡ single number loss }
{
    NumberedLoss {
        number,
        second: 0,
        loss,
    }
}

/// Whether the node of this number is neither the source nor the sink.
fn is_inner(state: &State, number: u32) -> bool
    ensures { result ≡ is_inner state.now.network number }
{
    number != state.source() && number != state.sink()
}
