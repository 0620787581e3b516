//! How much can be sent once an arc is closed, and where the bottleneck is then.
use dmf_net::{State, plan_close, plan_solve, smallest_side};
use std::test::Fail;

#[test]
fn an_arc_is_closed(rt: HostRuntime) -> Result<(), Fail> {
    let alloc = rt.alloc();
    // Nodes 1 to 4, the source 1 and the sink 4; arcs with their capacities, numbered from 1.
    let mut state = State::new(alloc, 4, 1, 4);
    for (tail, head, cap) in [(1, 2, 3), (1, 3, 2), (2, 3, 5), (2, 4, 2), (3, 4, 3)] {
        state.push_arc(tail, head, cap)?;
    }
    // A change is planned on a state, which does not change, and then applied.
    let solve = plan_solve(alloc, &state)?;
    state.apply(&solve)?;
    assert!(rt; state.value() == 5);
    let close = plan_close(alloc, &state, 1)?;
    state.apply(&close)?;
    // The plan takes off just the flow that arc 1 carried: the flow is a maximum flow here too.
    assert!(rt; state.value() == 2);
    let side = smallest_side(alloc, &state)?;
    assert!(rt; side.capacity() == 2);
    assert!(rt; side.contains(1) && !side.contains(3));
    Ok(())
}
