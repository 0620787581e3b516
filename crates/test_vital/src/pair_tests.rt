ghost use Rattle.std.specs.Prelude.{◌≡◌, true};
ghost use Rattle.dmf_state.specs.Network.{has_arc};
ghost use Rattle.dmf_solver.specs.Greatest.{IsGreatest};

use crate::tests::{network, solve};
use dmf_solver::{is_greatest, plan_close};
use dmf_state::State;
use dmf_vital::{NumberedLoss, pair_losses, worst_pairs};
use std::alloc::Global;
use std::test::Fail;

/// The greatest value after two arcs are closed in a copy, one after the other.
fn closed_value(alloc: Global, state: &State, pair: [u64; 2]) -> Result<u64, Fail> {
    let mut copy = state.copy(alloc)?;
    for j in pair {
        let is_open = copy
            .arcs()
            .get((j.saturating_sub(1)) as usize)
            .is_some_and(|arc| !arc.closed);
        if is_open {
            let edit = plan_close(alloc, &copy, j)?;
            copy.apply(&edit)?;
        }
    }
    solve(alloc, &mut copy)?;
    Ok(copy.value())
}

/// What is lost without each pair of arcs, the worst first, by closing and solving.
fn all_pairs(alloc: Global, state: &State) -> Result<Vec<NumberedLoss>, Fail> {
    let count = state.arcs().len() as u32;
    let mut pairs = Vec::new(alloc);
    for i in 0..count {
        for j in i..count {
            let (number, second) = (i.saturating_add(1), j.saturating_add(1));
            let left = closed_value(alloc, state, [u64::from(number), u64::from(second)])?;
            let loss = state.value().saturating_sub(left);
            if number < second {
                put(
                    &mut pairs,
                    NumberedLoss {
                        number,
                        second,
                        loss,
                    },
                )?;
            }
        }
    }
    Ok(pairs)
}

/// Puts a loss before those that are smaller. Those of smaller numbers are there.
fn put(pairs: &mut Vec<NumberedLoss>, one: NumberedLoss) -> Result<(), Fail> {
    let mut place: usize = 0;
    for pair in pairs.iter() {
        if pair.loss >= one.loss {
            place = place.saturating_add(1);
        }
    }
    pairs.insert(place.min(pairs.len()), one)?;
    Ok(())
}

#[test]
fn worst_pairs_are_what_closing_both_tells(rt: HostRuntime) -> Result<(), Fail> {
    for seed in 0..400 {
        let mut state = network(rt.alloc(), seed)?;
        solve(rt.alloc(), &mut state)?;
        if !is_greatest(rt.alloc(), &state)? {
            return Err(Fail::from("the solved flow is not greatest"));
        }
        let pairs = all_pairs(rt.alloc(), &state)?;
        for most in [0, 1, 4, 20, 1_000] {
            let worst = worst_pairs(rt.alloc(), &state, most)?;
            let count = most.min(pairs.len());
            assert!(rt; worst.len() == count && pairs.starts_with(&worst));
        }
    }
    Ok(())
}

/// Whether the losses of two arcs, of each twice, and of both again are what closing tells.
fn agree(alloc: Global, state: &State, i: u32, j: u32) -> Result<bool, Fail>
    requires first { has_arc state.now.network i ≡ true }
    requires second { has_arc state.now.network j ≡ true }
    requires greatest { IsGreatest state.now.network state.now.flows }
{
    let losses = pair_losses(alloc, state, &[i, i, j], &[j, i, i])?;
    let (i, j) = (u64::from(i), u64::from(j));
    let both = state
        .value()
        .saturating_sub(closed_value(alloc, state, [i, j])?);
    let one = state
        .value()
        .saturating_sub(closed_value(alloc, state, [i, i])?);
    Ok(losses.as_slice() == [both, one, both].as_slice())
}

#[test]
fn losses_of_pairs_are_what_closing_both_tells(rt: HostRuntime) -> Result<(), Fail> {
    for seed in 0..300 {
        let mut state = network(rt.alloc(), seed)?;
        solve(rt.alloc(), &mut state)?;
        if !is_greatest(rt.alloc(), &state)? {
            return Err(Fail::from("the solved flow is not greatest"));
        }
        for i in 0..state.arcs().len() {
            for j in 0..state.arcs().len() {
                assert!(rt; agree(rt.alloc(), &state, i as u32 + 1, j as u32 + 1)?);
            }
        }
    }
    Ok(())
}
