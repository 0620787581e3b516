//! Changes that are planned on a state, applied and taken back, and the smallest minimum cut.
use crate::tests::networks::two_arcs;
use dmf_net::{
    CutFault, Edit, Move, PlanFault, Shutting, Side, SideIds, plan_add, plan_cap, plan_close,
    plan_shut, plan_solve, side_after, smallest_side,
};
use std::test::Fail;

/// The contents of an edit: its kind, the numbers beside its moves, and how many arcs it moves.
fn told(edit: &Edit) -> (u32, [u64; 3], usize) {
    match edit {
        Edit::Cap {
            arc,
            old,
            new,
            moves,
        } => (1, [u64::from(*arc), *old, *new], moves.len()),
        Edit::Add { tail, head, cap } => (2, [u64::from(*tail), u64::from(*head), *cap], 0),
        Edit::Close { arc, old, moves } => (3, [u64::from(*arc), *old, 0], moves.len()),
        Edit::Solve { moves } => (4, [0, 0, 0], moves.len()),
        Edit::Shut { arcs, moves } => (5, [arcs.len() as u64, 0, 0], moves.len()),
    }
}

#[test]
fn each_change_is_planned(rt: HostRuntime) -> Result<(), Fail> {
    let alloc = rt.alloc();
    let state = two_arcs(alloc)?;
    let cap: Result<Edit, PlanFault> = plan_cap(alloc, &state, 1, 9);
    assert!(rt; told(&cap?) == (1, [1, 4, 9], 0));
    let close: Result<Edit, PlanFault> = plan_close(alloc, &state, 2);
    assert!(rt; told(&close?) == (3, [2, 3, 0], 0));
    let add: Result<Edit, PlanFault> = plan_add(&state, 1, 3, 5);
    assert!(rt; told(&add?) == (2, [1, 3, 5], 0));
    Ok(())
}

/// The first move of an edit that solves.
fn first_move(edit: &Edit) -> Option<Move> {
    match edit {
        Edit::Solve { moves } => moves.first().copied(),
        _ => None,
    }
}

/// The first arc that an edit shuts.
fn first_shut(edit: &Edit) -> Option<Shutting> {
    match edit {
        Edit::Shut { arcs, .. } => arcs.first().copied(),
        _ => None,
    }
}

#[test]
fn a_node_is_shut(rt: HostRuntime) -> Result<(), Fail> {
    let alloc = rt.alloc();
    let shut: Result<Edit, PlanFault> = plan_shut(alloc, &two_arcs(alloc)?, 2);
    assert!(rt; first_shut(&shut?) == Some(Shutting { arc: 1, old: 4 }));
    Ok(())
}

#[test]
fn a_solve_is_applied_and_taken_back(rt: HostRuntime) -> Result<(), Fail> {
    let alloc = rt.alloc();
    let mut state = two_arcs(alloc)?;
    let solve: Edit = plan_solve(alloc, &state)?;
    let moved = Move {
        arc: 1,
        from: 0,
        to: 3,
    };
    assert!(rt; first_move(&solve) == Some(moved));
    state.apply(&solve)?;
    let solved = state.value();
    state.revert(&solve);
    assert!(rt; (solved, state.value()) == (3, 0));
    Ok(())
}

#[test]
fn the_smallest_side_is_told(rt: HostRuntime) -> Result<(), Fail> {
    let alloc = rt.alloc();
    let state = two_arcs(alloc)?;
    let early: Result<Side, CutFault> = smallest_side(alloc, &state);
    assert!(rt; early == Err(CutFault::NotGreatest));
    let solve = plan_solve(alloc, &state)?;
    let side: Side = side_after(alloc, &state, &solve)?;
    let limit: (bool, u64) = (side.contains(3), side.capacity());
    assert!(rt; limit == (false, 3));
    let mut ids: SideIds<'_> = side.ids();
    let first: Option<u32> = ids.next();
    assert!(rt; first == Some(1) && ids.eq([2]));
    Ok(())
}

/// The number that the documents give to this refusal of a change.
fn refusal_number(fault: PlanFault) -> u32 {
    match fault {
        PlanFault::NoSuchArc => 1,
        PlanFault::Closed => 2,
        PlanFault::NoSuchNode => 3,
        PlanFault::TooManyArcs => 4,
        PlanFault::SumTooLarge => 5,
        PlanFault::NoMemory => 6,
    }
}

#[test]
fn refusals_are_told(rt: HostRuntime) -> Result<(), Fail> {
    let alloc = rt.alloc();
    let state = two_arcs(alloc)?;
    let refused = plan_close(alloc, &state, 3).err();
    assert!(rt; refused.map(refusal_number) == Some(1));
    Ok(())
}
