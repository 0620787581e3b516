//! The networks of the tests of plans, some with a flow.
ghost use Rattle.std.specs.Prelude.{◌≢◌, ◌^◌, ◌≤◌};
ghost use Rattle.dmf_node.specs.Node.{IsNode};

use dmf_state::State;
use std::alloc::Global;
use std::test::Fail;

/// A network of open arcs, each given by its tail, its head and its capacity.
fn network(
    alloc: Global,
    nodes: u32,
    source: u32,
    sink: u32,
    arcs: &[(u64, u64, u64)],
) -> Result<State, Fail>
    requires at_least_two_nodes { 2 ≤ nodes }
    requires at_most_nodes { nodes ≤ 2 ^ 24 }
    requires source { IsNode nodes source }
    requires sink { IsNode nodes sink }
    requires two_terminals { source ≢ sink }
{
    let mut state = State::new(alloc, nodes, source, sink);
    for &(tail, head, cap) in arcs {
        state.push_arc(tail, head, cap)?;
    }
    Ok(state)
}

/// The network of this state, with these flows, one for each arc.
fn flowing(alloc: Global, state: &State, flows: &[u64]) -> Result<State, Fail> {
    if flows.len() != state.arcs().len() {
        return Err(Fail::from("there is not one flow for each arc"));
    }
    Ok(state.with_flows(alloc, Vec::from_slice(alloc, flows)?)?)
}

const EXAMPLE: &[(u64, u64, u64)] = &[(1, 2, 3), (1, 3, 2), (2, 3, 5), (2, 4, 2), (3, 4, 3)];

/// The network of four nodes and five arcs, source 1 and sink 4, that the examples of the documentation use.
pub fn example(alloc: Global) -> Result<State, Fail> {
    network(alloc, 4, 1, 4, EXAMPLE)
}

const SELF_LOOP: &[(u64, u64, u64)] = &[(1, 1, 5)];

const SELF_LOOP_FLOWS: &[u64] = &[3];

/// Two nodes, source 1 and sink 2. A self loop at the source, of capacity 5, carries 3.
pub fn self_loop(alloc: Global) -> Result<State, Fail> {
    let empty = network(alloc, 2, 1, 2, SELF_LOOP)?;
    flowing(alloc, &empty, SELF_LOOP_FLOWS)
}

const GOING_ROUND: &[(u64, u64, u64)] = &[(3, 4, 5), (4, 3, 5)];

const GOING_ROUND_FLOWS: &[u64] = &[4, 4];

/// Four nodes, source 1 and sink 2: 4 circulate between nodes 3 and 4.
pub fn going_round(alloc: Global) -> Result<State, Fail> {
    let empty = network(alloc, 4, 1, 2, GOING_ROUND)?;
    flowing(alloc, &empty, GOING_ROUND_FLOWS)
}

const COMING_BACK: &[(u64, u64, u64)] = &[(1, 3, 5), (3, 2, 5), (2, 1, 5)];

const COMING_BACK_FLOWS: &[u64] = &[3, 3, 1];

/// Three nodes, source 1 and sink 2: 3 flow from 1 over 3 to 2, and 1 of them back from 2 to 1.
pub fn coming_back(alloc: Global) -> Result<State, Fail> {
    let empty = network(alloc, 3, 1, 2, COMING_BACK)?;
    flowing(alloc, &empty, COMING_BACK_FLOWS)
}

#[rattlefmt::skip]
const TANGLE: &[(u64, u64, u64)] = &[(1, 2, 4), (2, 2, 9), (1, 2, 7), (2, 3, 9), (3, 4, 5), (4, 2, 5), (4, 4, 1)];

const TANGLE_FLOWS: &[u64] = &[4, 5, 2, 8, 2, 2, 1];

/// Four nodes, source 1 and sink 3. Parallel arcs carry 4 and 2 from 1 to 2, and the flow goes on to 3. 2 more circulate from 2 over 3
/// and 4. Self loops at nodes 2 and 4 carry 5 and 1.
pub fn tangle(alloc: Global) -> Result<State, Fail> {
    let empty = network(alloc, 4, 1, 3, TANGLE)?;
    flowing(alloc, &empty, TANGLE_FLOWS)
}
