//! Networks and flows: how a state is made, read and copied, and how flows are put on it.
use dmf_net::{Arc, FlowFault, NetFault, NoMemory, State};
use std::alloc::Global;
use std::test::Fail;

/// Three nodes, source 1 and sink 3, and two arcs.
pub fn two_arcs(alloc: Global) -> Result<State, NetFault> {
    let mut state: State = State::new(alloc, 3, 1, 3);
    state.push_arc(1, 2, 4)?;
    state.push_arc(2, 3, 3)?;
    Ok(state)
}

#[test]
fn a_state_is_made_and_read(rt: HostRuntime) -> Result<(), Fail> {
    let state = two_arcs(rt.alloc())?;
    let terminals: (u32, u32, u32) = (state.nodes(), state.source(), state.sink());
    assert!(rt; terminals == (3, 1, 3));
    let arcs: &[Arc] = state.arcs();
    let first = Arc {
        tail: 1,
        head: 2,
        cap: 4,
        closed: false,
    };
    assert!(rt; arcs.len() == 2 && arcs[0] == first);
    let told: (u64, u64, u32) = (state.flow(1), state.value(), state.open_count());
    assert!(rt; told == (0, 0, 2));
    Ok(())
}

/// Puts the same flow on each arc of a copy of a state.
fn flowing(alloc: Global, state: &State, flow: u64) -> Result<State, FlowFault> {
    let copied: Result<State, NoMemory> = state.copy(alloc);
    let Ok(copy) = copied else {
        return Err(FlowFault::NoMemory);
    };
    let Ok(flows) = vec![in alloc; flow; copy.arcs().len()] else {
        return Err(FlowFault::NoMemory);
    };
    copy.with_flows(alloc, flows)
}

#[test]
fn flows_are_put_on_a_copy(rt: HostRuntime) -> Result<(), Fail> {
    let state = flowing(rt.alloc(), &two_arcs(rt.alloc())?, 3)?;
    assert!(rt; state.value() == 3);
    Ok(())
}

/// The number that the documents give to this fault of an arc.
fn arc_fault_number(fault: NetFault) -> u32 {
    match fault {
        NetFault::NoSuchNode => 1,
        NetFault::TooManyArcs => 2,
        NetFault::SumTooLarge => 3,
        NetFault::NoMemory => 4,
    }
}

/// The number that the documents give to this fault of flows, and the arc or the node that the fault names.
fn flow_fault_number(fault: FlowFault) -> (u32, Option<u32>) {
    match fault {
        FlowFault::OverCapacity(arc) => (1, Some(arc)),
        FlowFault::NotConserved(node) => (2, Some(node)),
        FlowFault::Negative => (3, None),
        FlowFault::NoMemory => (4, None),
    }
}

#[test]
fn faults_are_told(rt: HostRuntime) -> Result<(), Fail> {
    let mut state = two_arcs(rt.alloc())?;
    assert!(rt; state.push_arc(1, 4, 1).map_err(arc_fault_number) == Err(1));
    let refused = flowing(rt.alloc(), &state, 4).err();
    assert!(rt; refused.map(flow_fault_number) == Some((1, Some(2))));
    Ok(())
}
