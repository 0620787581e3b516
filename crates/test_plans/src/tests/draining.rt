//! Tests of draining: the flows that changes leave of flows that no solve finds.
use crate::tests::networks::{coming_back, going_round, self_loop, tangle};
use dmf_solver::{plan_cap, plan_shut};
use dmf_state::State;
use std::alloc::Global;
use std::process::Abort;
use std::test::Fail;

/// A change that drains: an arc gets a new capacity, or a node is shut.
#[derive(Clone, Copy)]
enum Change {
    Cap(u64, u64),
    Shut(u64),
}

/// The state after the change.
fn changed(alloc: Global, state: &State, change: Change) -> Result<State, Fail> {
    let edit = match change {
        Change::Cap(arc, cap) => plan_cap(alloc, state, arc, cap)?,
        Change::Shut(node) => plan_shut(alloc, state, node)?,
    };
    let mut changed = state.copy(alloc)?;
    changed.apply(&edit)?;
    Ok(changed)
}

/// A change, the flows after it, and their value.
type Drained = (Change, &'static [u64], u64);

/// Makes each change alone, and compares the flows after it.
fn drain_each(
    rt: &impl Abort,
    alloc: Global,
    state: &State,
    changes: &[Drained],
) -> Result<(), Fail> {
    for &(change, flows, value) in changes {
        let changed = changed(alloc, state, change)?;
        assert!(rt; changed.flows() == flows && changed.value() == value);
    }
    Ok(())
}

const LOWERED_SELF_LOOP: &[Drained] = &[(Change::Cap(1, 2), &[2], 0)];

#[test]
fn a_self_loop_is_drained(rt: HostRuntime) -> Result<(), Fail> {
    let state = self_loop(rt.alloc())?;
    drain_each(&rt, rt.alloc(), &state, LOWERED_SELF_LOOP)
}

const LOWERED_ROUND: &[Drained] = &[(Change::Cap(1, 1), &[1, 1], 0)];

#[test]
fn a_flow_that_goes_round_is_drained(rt: HostRuntime) -> Result<(), Fail> {
    let state = going_round(rt.alloc())?;
    drain_each(&rt, rt.alloc(), &state, LOWERED_ROUND)
}

const LOWERED_BACK: &[Drained] = &[
    (Change::Cap(2, 1), &[1, 1, 0], 1),
    (Change::Cap(1, 2), &[2, 2, 0], 2),
    (Change::Cap(3, 0), &[2, 2, 0], 2),
];

/// From node 2, the head of arc number 2, two paths of two steps lead back to its tail, node 3: over arc number 3 or over the return
/// link, and on along arc number 1. The arc ranks before the link, so the drain lowers its path first, by the 1 that flows on it. It
/// lowers the path over the link by the 1 that is then left above the limit. If the link came first, it would take off both, and arc
/// number 3 would keep its flow. It would also keep its flow if 1 is taken off arc number 1, whose path goes on over arc number 2 and
/// then over the arc or the link.
#[test]
fn the_return_link_ranks_after_the_arcs(rt: HostRuntime) -> Result<(), Fail> {
    let state = coming_back(rt.alloc())?;
    drain_each(&rt, rt.alloc(), &state, LOWERED_BACK)
}

/// Arc number 4 has 5 above the limit. From its head, node 3, two steps lead to its tail over node 4, by arcs 5 and 6, which rank
/// first: that takes 2 off. The other 3 go over the link, and along the first of the parallel arcs. What is taken off arc 3 goes over
/// arc 4 and the link. Of the flow on arcs 5 and 6, 1 circulates, so the value does not change. An arc that returns to its tail is
/// lowered alone.
///
/// Shutting node 1 leaves the circulation. At node 2 the arcs from node 1 take 6 off arc 4, which then takes off the circulation. At
/// node 3 arc 4 takes off the circulation first, and then both arcs from node 1 follow, over the link. Node 4 leaves the value.
const DRAINED_TANGLE: &[Drained] = &[
    (Change::Cap(4, 3), &[1, 5, 2, 3, 0, 0, 1], 3),
    (Change::Cap(3, 1), &[4, 5, 1, 7, 2, 2, 1], 5),
    (Change::Cap(5, 0), &[4, 5, 2, 6, 0, 0, 1], 6),
    (Change::Cap(6, 1), &[4, 5, 2, 7, 1, 1, 1], 6),
    (Change::Cap(2, 2), &[4, 2, 2, 8, 2, 2, 1], 6),
    (Change::Shut(1), &[0, 5, 0, 2, 2, 2, 1], 0),
    (Change::Shut(2), &[0, 0, 0, 0, 0, 0, 1], 0),
    (Change::Shut(3), &[0, 5, 0, 0, 0, 0, 1], 0),
    (Change::Shut(4), &[4, 5, 2, 6, 0, 0, 0], 6),
];

/// Parallel arcs, self loops, and a flow that circulates through the sink.
#[test]
fn a_tangle_is_drained(rt: HostRuntime) -> Result<(), Fail> {
    let state = tangle(rt.alloc())?;
    drain_each(&rt, rt.alloc(), &state, DRAINED_TANGLE)
}
