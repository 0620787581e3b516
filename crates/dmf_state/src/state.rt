ghost use Rattle.std.specs.Prelude.{◌≡◌, ◌≢◌, true, ◌-◌, ◌^◌, ◌<◌, ◌≤◌, pos, length, slice_get, Some, Ok, Err, IfOk};
ghost use Rattle.std.specs.Result.{result_err};
ghost use Rattle.dmf_node.specs.Node.{IsNode};
ghost use Rattle.dmf_state.specs.Arc.{open_arc, open_count};
ghost use Rattle.dmf_state.specs.Network.{arc_number, has_arc};
ghost use Rattle.dmf_state.specs.Flow.{flow_value};
ghost use Rattle.dmf_state.specs.NetworkState.{IsState, without_arcs};

use crate::arc::Arc;
use crate::fault::NoMemory;
use crate::flow_sums::NodeFlow;
use crate::limits::MAX_NODES;
use std::alloc::Global;
use std::marker::Model;

mod building;
mod editing;
mod equality;

/// A network with a flow on it.
///
/// Nodes are numbered from 1, and so are arcs, in the order in which they were added. The flow respects the capacities, is conserved
/// at each node but the source and the sink, and has a value of 0 or more. The state keeps the sum of the capacities, the value and
/// the number of open arcs, so reading one of them looks at no arc.
#[derive(Debug, Drop)]
pub struct State {
    nodes: u32,
    source: u32,
    sink: u32,
    arcs: Vec<Arc>,
    flows: Vec<u64>,
    capacities: u64,
    at_source: NodeFlow,
    open_arcs: u32,
}

impl Model for State {
    ghost use Rattle.dmf_state.specs.NetworkState.{NetworkState};
    ghost use Rattle.dmf_state.specs.Totals.{KeepsTotals};

    ghost Value = { NetworkState };

    ghost view = { λ a. record {
      network = record { nodes = a.nodes; source = a.source; sink = a.sink; arcs = a.arcs.items };
      flows = a.flows.items;
    } };

    ghost invariant = { λ a. KeepsTotals
        (record {
          network = record { nodes = a.nodes; source = a.source; sink = a.sink; arcs = a.arcs.items };
          flows = a.flows.items;
        })
        a.capacities a.at_source a.open_arcs };
}

impl State {
    /// Makes a state without arcs, of 2 to [`crate::MAX_NODES`] nodes. The source and the sink are two of them. Takes no memory.
    pub fn new(alloc: Global, nodes: u32, source: u32, sink: u32) -> Self
        requires at_least_two_nodes { 2 ≤ nodes }
        requires at_most_nodes { nodes ≤ 2 ^ 24 }
        requires source { IsNode nodes source }
        requires sink { IsNode nodes sink }
        requires two_terminals { source ≢ sink }
        ensures { result ≡ without_arcs nodes source sink }
    {
        // The invariant `at_most_nodes` names this bound.
        prove!(MAX_NODES == 16_777_216);
        State {
            nodes,
            source,
            sink,
            arcs: Vec::new(alloc),
            flows: Vec::new(alloc),
            capacities: 0,
            at_source: NodeFlow {
                leaving: 0,
                entering: 0,
            },
            open_arcs: 0,
        }
    }

    /// The number of nodes.
    pub fn nodes(&self) -> u32
        ensures value { result ≡ self.now.network.nodes }
        ensures state { IsState self.now }
    {
        self.nodes
    }

    /// The source's number.
    pub fn source(&self) -> u32
        ensures value { result ≡ self.now.network.source }
        ensures state { IsState self.now }
    {
        self.source
    }

    /// The sink's number.
    pub fn sink(&self) -> u32
        ensures value { result ≡ self.now.network.sink }
        ensures state { IsState self.now }
    {
        self.sink
    }

    /// The arcs in the order of their numbers, closed ones too: arc number `j` is at index `j - 1`.
    pub fn arcs(&self) -> &[Arc]
        ensures value { result.now ≡ self.now.network.arcs }
        ensures state { IsState self.now }
    {
        &self.arcs
    }

    /// The flow on arc number `j`, which is from 1 to the number of arcs.
    pub fn flow(&self, j: u32) -> u64
        requires from_one { 1 ≤ j }
        requires to_last { j ≤ length self.now.network.arcs }
        ensures { slice_get self.now.flows (j - 1) ≡ Some result }
    {
        self.flows[j as usize - 1]
    }

    /// The flows in the order of the arcs' numbers: the flow on arc number `j` is at index `j - 1`.
    pub fn flows(&self) -> &[u64]
        ensures value { result.now ≡ self.now.flows }
        ensures state { IsState self.now }
    {
        &self.flows
    }

    /// The value of the flow: the outflow of the source minus its inflow. Looks at no arc.
    pub fn value(&self) -> u64
        ensures value { pos result ≡ flow_value self.now.network self.now.flows }
        ensures state { IsState self.now }
    {
        self.at_source.leaving - self.at_source.entering
    }

    /// The number of arcs that are not closed. Looks at no arc.
    pub fn open_count(&self) -> u32
        ensures value { result ≡ open_count self.now.network.arcs }
        ensures state { IsState self.now }
    {
        self.open_arcs
    }

    /// Copies the state. Fails only if memory is refused.
    pub fn copy(&self, alloc: Global) -> Result<State, NoMemory>
        ensures { IfOk result (λ state. state ≡ self.now) }
    {
        Ok(State {
            arcs: Vec::from_slice(alloc, &self.arcs)?,
            flows: Vec::from_slice(alloc, &self.flows)?,
            ..*self
        })
    }

    /// Arc number `j`, which is from 1 to the number of arcs.
    pub fn arc(&self, j: u32) -> Arc
        requires { has_arc self.now.network j ≡ true }
        ensures value { result ≡ arc_number self.now.network j }
        ensures state { IsState self.now }
    {
        self.arcs[j as usize - 1]
    }
}
