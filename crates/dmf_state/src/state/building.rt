//! Building a state: appending arcs, and putting a flow on them.
ghost use Rattle.std.specs.Prelude.{◌≡◌, false, ◌+◌, ◌-◌, ◌<◌, ◌⊎◌, length, vec_len, vec_capacity, Some, Ok, Err};
ghost use Rattle.std.specs.Prelude.{IfOk, OnOk, OnErr, IsErrOf, IsOkUnless, MatchOption};
ghost use Rattle.std.specs.Result.{result_err};
ghost use Rattle.dmf_node.specs.Node.{is_node};
ghost use Rattle.dmf_state.specs.Arc.{open_arc};
ghost use Rattle.dmf_state.specs.ArcFault.{arc_fault, net_fault};
ghost use Rattle.dmf_state.specs.FlowFault.{flow_fault};
ghost use Rattle.dmf_state.specs.FlowSums.{IsNodeFlow};
ghost use Rattle.dmf_state.specs.NetworkState.{IsState, with_flows, with_idle_arc};

use crate::arc::Arc;
use crate::fault::{ArcFault, FlowFault, NetFault, NoMemory};
use crate::flow_sums::{NodeFlow, first_over_capacity, flow_sums};
use crate::limits::MAX_ARCS;
use crate::state::State;
use std::alloc::Global;

impl State {
    /// Makes a state of the same network with these flows, one for each arc in the order of their numbers. The new state keeps the
    /// vector. If there is a fault, the vector is dropped.
    ///
    /// Fails with the first of these faults that the flows have: [`FlowFault::OverCapacity`], [`FlowFault::NotConserved`],
    /// [`FlowFault::Negative`]. Takes memory for a copy of the arcs and, during the call, for two numbers a node. If that is refused,
    /// fails with [`FlowFault::NoMemory`].
    pub fn with_flows(&self, alloc: Global, flows: Vec<u64>) -> Result<State, FlowFault>
        requires { length flows.items ≡ length self.now.network.arcs }
        ensures refused { IsErrOf result FlowFault.NoMemory ⊎ (result_err result ≡ flow_fault self.now.network flows.items) }
        ensures ok { IfOk result (λ state. state ≡ with_flows self.now flows.items) }
        ensures state { OnOk result (IsState (with_flows self.now flows.items)) }
    {
        let at_source = self.judge(alloc, &flows)?;
        let arcs = Vec::from_slice(alloc, &self.arcs)?;
        Ok(State {
            arcs,
            flows,
            at_source,
            ..*self
        })
    }

    /// The outflow and the inflow of the source, or the first fault of these flows.
    fn judge(&self, alloc: Global, flows: &[u64]) -> Result<NodeFlow, FlowFault>
        requires { length flows.now ≡ length self.now.network.arcs }
        ensures refused { IsErrOf result FlowFault.NoMemory ⊎ (result_err result ≡ flow_fault self.now.network flows.now) }
        ensures state { OnOk result (IsState (with_flows self.now flows.now)) }
        ensures source { IfOk result (IsNodeFlow self.now.network.arcs flows.now self.now.network.source) }
    {
        if let Some(arc) = first_over_capacity(&self.arcs, flows) {
            return Err(FlowFault::OverCapacity(arc));
        }
        let sums = flow_sums(alloc, self.nodes, &self.arcs, flows)?;
        if let Some(node) = sums.first_unbalanced(self.source, self.sink) {
            return Err(FlowFault::NotConserved(node));
        }
        let at_source = sums.at(self.source);
        if at_source.leaving < at_source.entering {
            return Err(FlowFault::Negative);
        }
        Ok(at_source)
    }

    /// Appends an open arc without flow.
    ///
    /// Fails with the first of these faults that holds, and then leaves the state unchanged: [`NetFault::NoSuchNode`],
    /// [`NetFault::TooManyArcs`], [`NetFault::SumTooLarge`], [`NetFault::NoMemory`].
    pub fn push_arc(&mut self, tail: u64, head: u64, cap: u64) -> Result<(), NetFault>
        ensures refused { MatchOption (arc_fault self.old.network tail head cap)
            (IsOkUnless result NetFault.NoMemory)
            (λ fault. result ≡ Err (net_fault fault)) }
        ensures ok { OnOk result (self.new ≡ with_idle_arc self.old (open_arc tail head cap)) }
        ensures err { OnErr result (self.new ≡ self.old) }
    {
        let arc = self.new_arc(tail, head, cap)?;
        self.append(arc)?;
        Ok(())
    }

    /// The open arc from `tail` to `head`, or the first reason why the network cannot take it. Takes no memory.
    pub fn new_arc(&self, tail: u64, head: u64, cap: u64) -> Result<Arc, ArcFault>
        ensures fault { result_err result ≡ arc_fault self.now.network tail head cap }
        ensures arc { IfOk result (λ arc. arc ≡ open_arc tail head cap) }
        ensures fits { IfOk result (λ arc. IsState (with_idle_arc self.now arc)) }
    {
        if !self.has_node(tail) || !self.has_node(head) {
            return Err(ArcFault::NoSuchNode);
        }
        if self.arcs.len() >= MAX_ARCS as usize {
            return Err(ArcFault::TooManyArcs);
        }
        if cap > u64::MAX - self.capacities {
            return Err(ArcFault::SumTooLarge);
        }
        Ok(Arc::open(tail as u32, head as u32, cap))
    }

    fn has_node(&self, v: u64) -> bool
        ensures { result ≡ is_node self.now.network.nodes v }
    {
        1 <= v && v <= u64::from(self.nodes)
    }

    /// Appends an open arc without flow. Both vectors reserve room before either gets an element, so a refused request changes nothing.
    pub(super) fn append(&mut self, arc: Arc) -> Result<(), NoMemory>
        requires open { arc.closed ≡ false }
        requires fits { IsState (with_idle_arc self.old arc) }
        ensures ok { OnOk result (self.new ≡ with_idle_arc self.old arc) }
        ensures err { OnErr result (self.new ≡ self.old) }
    {
        reserve_one(&mut self.arcs, &mut self.flows)?;
        self.capacities += arc.cap;
        self.open_arcs += 1;
        self.arcs.push_reserved(arc);
        self.flows.push_reserved(0);
        Ok(())
    }
}

/// Reserves room for one more element in both vectors. A refused request changes neither.
fn reserve_one(arcs: &mut Vec<Arc>, flows: &mut Vec<u64>) -> Result<(), NoMemory>
    ensures arcs { arcs.new.items ≡ arcs.old.items }
    ensures flows { flows.new.items ≡ flows.old.items }
    ensures room { OnOk result ((vec_len arcs.new < vec_capacity arcs.new) × (vec_len flows.new < vec_capacity flows.new)) }
{
    arcs.reserve(1)?;
    flows.reserve(1)?;
    Ok(())
}
