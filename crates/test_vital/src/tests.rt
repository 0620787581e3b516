ghost use Rattle.std.specs.Prelude.{◌≡◌, ◌<◌, OnOk};
ghost use Rattle.dmf_solver.specs.Greatest.{IsGreatest};

use dmf_solver::{is_greatest, plan_close, plan_shut, plan_solve};
use dmf_state::State;
use dmf_vital::{
    NumberedLoss, arc_losses, node_losses, value_without_arc, value_without_node, worst_arcs,
    worst_nodes,
};
use std::alloc::Global;
use std::test::Fail;

/// The next number below a bound, by a linear congruential generator.
fn draw(chance: &mut u64, bound: u64) -> u64
    requires { 0 < bound }
    ensures { result < bound }
{
    *chance = chance
        .wrapping_mul(6_364_136_223_846_793_005)
        .wrapping_add(1_442_695_040_888_963_407);
    (*chance >> 33) % bound
}

/// A network of 2 to 7 nodes and up to 15 arcs: some parallel, self loops, without capacity or closed, and some capacities near 2^62.
pub fn network(alloc: Global, seed: u64) -> Result<State, Fail> {
    let mut chance = seed;
    let nodes = 2 + (seed % 6) as u32;
    let mut state = State::new(alloc, nodes, 1, nodes);
    for _ in 0..seed % 16 {
        let tail = draw(&mut chance, u64::from(nodes)) + 1;
        let head = draw(&mut chance, u64::from(nodes)) + 1;
        let cap = draw(&mut chance, 8);
        let many = if seed % 5 == 0 { cap << 57 } else { cap };
        state.push_arc(tail, head, many)?;
    }
    if seed % 3 == 0 && !state.arcs().is_empty() {
        let edit = plan_close(alloc, &state, 1)?;
        state.apply(&edit)?;
    }
    Ok(state)
}

/// Solves the state.
pub fn solve(alloc: Global, state: &mut State) -> Result<(), Fail> {
    let edit = plan_solve(alloc, state)?;
    state.apply(&edit)?;
    Ok(())
}

/// The greatest value after an arc is closed in a copy.
fn closed_value(alloc: Global, state: &State, j: u64) -> Result<u64, Fail> {
    let mut copy = state.copy(alloc)?;
    let edit = plan_close(alloc, &copy, j)?;
    copy.apply(&edit)?;
    solve(alloc, &mut copy)?;
    Ok(copy.value())
}

/// Whether the losses are what closing and solving tells, for each open arc, and 0 for each closed one.
fn agree(alloc: Global, state: &State) -> Result<bool, Fail> {
    if !is_greatest(alloc, state)? {
        return Err(Fail::from("the solved flow is not greatest"));
    }
    let losses = arc_losses(alloc, state)?;
    for (k, loss) in losses.iter().enumerate() {
        let left = if state.arcs()[k].closed {
            state.value()
        } else {
            closed_value(alloc, state, k as u64 + 1)?
        };
        if left.checked_add(*loss) != Some(state.value()) {
            return Ok(false);
        }
    }
    Ok(true)
}

/// The greatest value after a node is shut in a copy.
fn shut_value(alloc: Global, state: &State, v: u64) -> Result<u64, Fail> {
    let mut copy = state.copy(alloc)?;
    let edit = plan_shut(alloc, &copy, v)?;
    copy.apply(&edit)?;
    solve(alloc, &mut copy)?;
    Ok(copy.value())
}

/// Whether the losses are what shutting and solving tells, for each node but the source and the sink, and 0 for these two.
fn nodes_agree(alloc: Global, state: &State) -> Result<bool, Fail> {
    if !is_greatest(alloc, state)? {
        return Err(Fail::from("the solved flow is not greatest"));
    }
    let losses = node_losses(alloc, state)?;
    for (k, loss) in losses.iter().enumerate() {
        let v = k as u64 + 1;
        let left = if v == u64::from(state.source()) || v == u64::from(state.sink()) {
            state.value()
        } else {
            shut_value(alloc, state, v)?
        };
        if left.checked_add(*loss) != Some(state.value()) {
            return Ok(false);
        }
    }
    Ok(true)
}

#[test]
fn losses_of_nodes_are_what_shutting_tells(rt: HostRuntime) -> Result<(), Fail> {
    for seed in 0..1_000 {
        let mut state = network(rt.alloc(), seed)?;
        solve(rt.alloc(), &mut state)?;
        assert!(rt; nodes_agree(rt.alloc(), &state)?);
    }
    Ok(())
}

/// How many of the losses, which are numbered from 1, are worse than this one. Those of two nodes are left out.
fn rank(losses: &[u64], out: [u64; 2], one: NumberedLoss) -> usize {
    let mut worse: usize = 0;
    for (k, loss) in losses.iter().enumerate() {
        let number = k as u64 + 1;
        let is_worse = *loss > one.loss || (*loss == one.loss && number < u64::from(one.number));
        if is_worse && number != out[0] && number != out[1] {
            worse = worse.saturating_add(1);
        }
    }
    worse
}

/// Whether the worst are the first of `count` losses in order.
fn are_first(losses: &[u64], out: [u64; 2], worst: &[NumberedLoss], count: usize) -> bool {
    if worst.len() != count {
        return false;
    }
    for (k, one) in worst.iter().enumerate() {
        let number = u64::from(one.number);
        let is_out = number == out[0] || number == out[1];
        let has_loss = number > 0 && losses.get((number - 1) as usize).copied() == Some(one.loss);
        if is_out || !has_loss || rank(losses, out, *one) != k {
            return false;
        }
    }
    true
}

#[test]
fn the_worst_are_the_first_of_all(rt: HostRuntime) -> Result<(), Fail> {
    for seed in 0..1_000 {
        let mut state = network(rt.alloc(), seed)?;
        solve(rt.alloc(), &mut state)?;
        if !is_greatest(rt.alloc(), &state)? {
            return Err(Fail::from("the solved flow is not greatest"));
        }
        let most = (seed % 9) as usize;
        let losses = arc_losses(rt.alloc(), &state)?;
        let worst = worst_arcs(rt.alloc(), &state, most)?;
        assert!(rt; are_first(&losses, [0, 0], &worst, most.min(losses.len())));
        let ends = [u64::from(state.source()), u64::from(state.sink())];
        let losses = node_losses(rt.alloc(), &state)?;
        let worst = worst_nodes(rt.alloc(), &state, most)?;
        assert!(rt;
            are_first(
                &losses,
                ends,
                &worst,
                most.min(losses.len().saturating_sub(2))
            )
        );
    }
    Ok(())
}

#[test]
fn losses_are_what_closing_tells(rt: HostRuntime) -> Result<(), Fail> {
    for seed in 0..1_000 {
        let mut state = network(rt.alloc(), seed)?;
        solve(rt.alloc(), &mut state)?;
        assert!(rt; agree(rt.alloc(), &state)?);
    }
    Ok(())
}

/// The network of four nodes and five arcs that the examples of the documentation use, solved. Worked by hand: 5 flow; without the arcs
/// in turn 2, 3, 4, 3 and 2 do. Without node 2 there is the way over node 3 alone, on which 2 flow, and without node 3 that over node 2, on
/// which 2 do.
#[test]
fn the_example(rt: HostRuntime) -> Result<(), Fail> {
    let mut state = State::new(rt.alloc(), 4, 1, 4);
    for (tail, head, cap) in [(1, 2, 3), (1, 3, 2), (2, 3, 5), (2, 4, 2), (3, 4, 3)] {
        state.push_arc(tail, head, cap)?;
    }
    solve(rt.alloc(), &mut state)?;
    if !is_greatest(rt.alloc(), &state)? {
        return Err(Fail::from("the solved flow is not greatest"));
    }
    let losses = arc_losses(rt.alloc(), &state)?;
    assert!(rt; losses.as_slice() == [3, 2, 1, 2, 3].as_slice());
    let worst = worst_arcs(rt.alloc(), &state, 3)?;
    let one = NumberedLoss {
        number: 1,
        second: 0,
        loss: 3,
    };
    let two = NumberedLoss {
        number: 5,
        second: 0,
        loss: 3,
    };
    let three = NumberedLoss {
        number: 2,
        second: 0,
        loss: 2,
    };
    assert!(rt; worst.as_slice() == [one, two, three].as_slice());
    if state.arcs().len() == 5 {
        assert!(rt; value_without_arc(rt.alloc(), &state, 3)? == 4);
    }
    let node_losses = node_losses(rt.alloc(), &state)?;
    assert!(rt; node_losses.as_slice() == [0, 3, 3, 0].as_slice());
    if state.nodes() == 4 && state.source() == 1 && state.sink() == 4 {
        assert!(rt; value_without_node(rt.alloc(), &state, 2)? == 2);
    }
    Ok(())
}
