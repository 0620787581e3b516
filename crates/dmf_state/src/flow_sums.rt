ghost use Rattle.std.specs.Prelude.{◌≡◌, ℕ, ◌-◌, ◌^◌, ◌<◌, ◌≤◌, length, slice_index, sum_by, All, IfOk, MatchOption};
ghost use Rattle.std.specs.List.{zip};
ghost use Rattle.dmf_state.specs.Arc.{IsArc, capacity_sum};
ghost use Rattle.dmf_state.specs.Flow.{AreWithinCapacities};
ghost use Rattle.dmf_state.specs.FlowSums.{AreFlowSums, IsNodeFlow, IsLeast, IsOverCapacity, IsInnerUpTo, AreSameAt, DifferAt};

use crate::arc::Arc;
use std::alloc::{AllocError, Global};

/// The outflow and the inflow of a node.
#[derive(Clone, Copy, Debug)]
pub struct NodeFlow {
    /// The outflow: the sum of the flows on the arcs that leave the node.
    pub leaving: u64,
    /// The inflow: the sum of the flows on the arcs that enter the node.
    pub entering: u64,
}

/// The outflow and the inflow of each node, beginning with node 1.
#[derive(Drop)]
pub struct FlowSums {
    pub leaving: Vec<u64>,
    pub entering: Vec<u64>,
}

/// Sums the flows at each node in one pass over the arcs.
pub fn flow_sums(
    alloc: Global,
    nodes: u32,
    arcs: &[Arc],
    flows: &[u64],
) -> Result<FlowSums, AllocError>
    requires arcs { All (IsArc nodes) arcs.now }
    requires within { AreWithinCapacities arcs.now flows.now }
    requires capacities { capacity_sum arcs.now < 2 ^ 64 }
    ensures leaving { IfOk result (λ sums. AreFlowSums (λ arc. arc.tail) nodes arcs.now flows.now sums.leaving.items) }
    ensures entering { IfOk result (λ sums. AreFlowSums (λ arc. arc.head) nodes arcs.now flows.now sums.entering.items) }
{
    let mut leaving = vec![in alloc; 0u64; nodes as usize]?;
    let mut entering = vec![in alloc; 0u64; nodes as usize]?;
    for (i, arc) in arcs.iter().enumerate() {
        let flow = flows[i];
        leaving[arc.tail as usize - 1] += flow;
        entering[arc.head as usize - 1] += flow;
    }
    Ok(FlowSums { leaving, entering })
}

impl FlowSums {
    /// The least node, other than source and sink, that does not conserve flow.
    pub fn first_unbalanced(&self, source: u32, sink: u32) -> Option<u32>
        requires one_each { length self.now.leaving.items ≡ length self.now.entering.items }
        requires at_most_nodes { length self.now.leaving.items ≤ 2 ^ 24 }
        ensures { MatchOption result
            ((v : ℕ) → IsInnerUpTo (length self.now.leaving.items) source sink v → AreSameAt self.now.leaving.items self.now.entering.items v)
            (IsLeast (DifferAt source sink self.now.leaving.items self.now.entering.items)) }
    {
        for k in 0..self.leaving.len() {
            let node = k as u32 + 1;
            if node != source && node != sink && self.leaving[k] != self.entering[k] {
                return Some(node);
            }
        }
        None
    }

    /// The outflow and the inflow of a node.
    pub fn at(&self, node: u32) -> NodeFlow
        requires from_one { 1 ≤ node }
        requires in_leaving { node ≤ length self.now.leaving.items }
        requires in_entering { node ≤ length self.now.entering.items }
        ensures leaving { result.leaving ≡ slice_index self.now.leaving.items (node - 1) }
        ensures entering { result.entering ≡ slice_index self.now.entering.items (node - 1) }
    {
        let k = node as usize - 1;
        NodeFlow {
            leaving: self.leaving[k],
            entering: self.entering[k],
        }
    }
}

/// The number of the first arc whose flow exceeds its capacity, counted from 1.
pub fn first_over_capacity(arcs: &[Arc], flows: &[u64]) -> Option<u32>
    requires one_flow_each { length flows.now ≡ length arcs.now }
    requires at_most_arcs { length arcs.now ≤ 2 ^ 27 }
    ensures { MatchOption result (AreWithinCapacities arcs.now flows.now) (IsLeast (IsOverCapacity arcs.now flows.now)) }
{
    for (i, arc) in arcs.iter().enumerate() {
        if arc.cap < flows[i] {
            return Some(i as u32 + 1);
        }
    }
    None
}
