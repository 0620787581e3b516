ghost use Rattle.std.specs.Prelude.{◌≡◌, ◌≢◌, ℕ, ◌<◌, ◌≤◌, true, length, slice_index, IfOk, OnOk};
ghost use Rattle.dmf_state.specs.Network.{has_arc};
ghost use Rattle.dmf_solver.specs.Greatest.{IsGreatest};
ghost use Rattle.dmf_vital.specs.Loss.{IsLossOfPair};
ghost use Rattle.dmf_vital.specs.Rest.{IsRest, IsWhole};
ghost use Rattle.dmf_vital.specs.Without.{without_arc};

use crate::rerouting::{Rerouting, find_ranks, loss_of_arc, make_rerouting};
use dmf_solver::{plan_close, plan_solve};
use dmf_state::{NoMemory, State};
use std::alloc::{AllocError, Global};

/// A greatest flow of a state's network, which may be moved from one arc to others.
#[derive(Drop)]
pub struct Whole {
    /// What moves the flow.
    pub rerouting: Rerouting,
    /// Ranks for it.
    pub ranks: Vec<u32>,
    /// No arc carries more than this.
    pub largest: u64,
}

/// A copy of a state in which one arc is closed and the flow is greatest, and what losses of other arcs need.
#[derive(Drop)]
pub struct Rest {
    /// The number of the closed arc.
    pub without: u32,
    /// The copy.
    pub state: State,
    /// What moves its flow.
    pub rerouting: Rerouting,
    /// Ranks for it.
    pub ranks: Vec<u32>,
}

/// Begins with the state's flow.
pub fn make_whole(alloc: Global, state: &State) -> Result<Whole, NoMemory>
    requires { IsGreatest state.now.network state.now.flows }
    ensures { IfOk result (IsWhole state.now) }
{
    let rerouting = make_rerouting(alloc, state)?;
    let ranks = find_ranks(alloc, state, &rerouting)?;
    let largest = largest_flow(&rerouting.flows);
    Ok(Whole {
        rerouting,
        ranks,
        largest,
    })
}

/// The largest of these flows; 0 if there is none.
pub fn largest_flow(flows: &[u64]) -> u64
    ensures { (k : ℕ) → k < length flows.now → slice_index flows.now k ≤ result }
{
    let mut largest = 0u64;
    for k in 0..flows.len() {
        if flows[k] > largest {
            largest = flows[k];
        }
    }
    largest
}

/// Moves what it can off arc number `i`.
pub fn move_off_arc(state: &State, whole: &mut Whole, i: u32) -> Result<(), AllocError>
    requires is_there { has_arc state.now.network i ≡ true }
    requires whole { IsWhole state.now whole.old }
    ensures { OnOk result (IsWhole state.now whole.new) }
{
    loss_of_arc(state, &whole.ranks, &mut whole.rerouting, i)?;
    whole.largest = largest_flow(&whole.rerouting.flows);
    Ok(())
}

/// No more than this is lost without arc number `i` and any other.
pub fn largest_beside(state: &State, whole: &Whole, i: u32) -> u64
    requires is_there { has_arc state.now.network i ≡ true }
    requires greatest { IsGreatest state.now.network state.now.flows }
    requires whole { IsWhole state.now whole.now }
    ensures { (j loss : ℕ) → i ≢ j → IsLossOfPair state.now.network i j loss → loss ≤ result }
{
    let bound = whole.rerouting.flows[i as usize - 1].saturating_add(whole.largest);
    bound.min(state.value())
}

/// No more than this is lost without both arcs, the closed one and arc number `j`.
pub fn largest_with(state: &State, rest: &Rest, j: u32) -> u64
    requires is_there { has_arc state.now.network j ≡ true }
    requires greatest { IsGreatest state.now.network state.now.flows }
    requires rest { IsRest state.now.network rest.now }
    ensures { (loss : ℕ) → IsLossOfPair state.now.network rest.now.without j loss → loss ≤ result }
{
    let lost = state.value() - rest.state.value();
    let bound = lost.saturating_add(rest.rerouting.flows[j as usize - 1]);
    bound.min(state.value())
}

/// What is lost without both arcs, the closed one and arc number `j`.
pub fn loss_with(state: &State, rest: &mut Rest, j: u32) -> Result<u64, NoMemory>
    requires is_there { has_arc state.now.network j ≡ true }
    requires greatest { IsGreatest state.now.network state.now.flows }
    requires rest { IsRest state.now.network rest.old }
    ensures loss { IfOk result (IsLossOfPair state.now.network rest.old.without j) }
    ensures rest { IsRest state.now.network rest.new }
    ensures same { rest.new.without ≡ rest.old.without }
{
    let lost = state.value() - rest.state.value();
    let loss = loss_of_arc(&rest.state, &rest.ranks, &mut rest.rerouting, j)?;
    Ok(lost + loss)
}

/// The same rest if arc number `i` is closed in it, else the rest without that arc.
pub fn rest_without(
    alloc: Global,
    state: &State,
    whole: &mut Whole,
    rest: Rest,
    i: u32,
) -> Result<Rest, NoMemory>
    requires is_there { has_arc state.now.network i ≡ true }
    requires whole { IsWhole state.now whole.old }
    requires rest { IsRest state.now.network rest }
    ensures rest { IfOk result (IsRest state.now.network) }
    ensures same { IfOk result (λ other. other.without ≡ i) }
    ensures whole { OnOk result (IsWhole state.now whole.new) }
{
    if rest.without == i {
        return Ok(rest);
    }
    leave_out(alloc, state, whole, i)
}

/// Moves what it can off arc number `i`, and closes it in a copy of the state.
pub fn leave_out(alloc: Global, state: &State, whole: &mut Whole, i: u32) -> Result<Rest, NoMemory>
    requires is_there { has_arc state.now.network i ≡ true }
    requires whole { IsWhole state.now whole.old }
    ensures rest { IfOk result (IsRest state.now.network) }
    ensures same { IfOk result (λ rest. rest.without ≡ i) }
    ensures whole { OnOk result (IsWhole state.now whole.new) }
{
    move_off_arc(state, whole, i)?;
    close_arc(alloc, state, &whole.rerouting.flows, i)
}

/// Closes arc number `i` in a copy of the state with these flows, and solves.
pub fn close_arc(alloc: Global, state: &State, flows: &[u64], i: u32) -> Result<Rest, NoMemory>
    requires is_there { has_arc state.now.network i ≡ true }
    requires greatest { IsGreatest state.now.network flows.now }
    ensures rest { IfOk result (IsRest state.now.network) }
    ensures same { IfOk result (λ rest. rest.without ≡ i) }
{
    let state = solved_without(alloc, state, flows, i)?;
    let rerouting = make_rerouting(alloc, &state)?;
    let ranks = find_ranks(alloc, &state, &rerouting)?;
    Ok(Rest {
        without: i,
        state,
        rerouting,
        ranks,
    })
}

/// A copy of the state, with a flow of its network, in which arc number `i` is closed and the flow is greatest.
fn solved_without(alloc: Global, state: &State, flows: &[u64], i: u32) -> Result<State, NoMemory>
    requires is_there { has_arc state.now.network i ≡ true }
    requires greatest { IsGreatest state.now.network flows.now }
    ensures network { IfOk result (λ rest. rest.network ≡ without_arc state.now.network i) }
    ensures greatest { IfOk result (λ rest. IsGreatest rest.network rest.flows) }
{
    let flows = Vec::from_slice(alloc, flows)?;
    let Ok(mut rest) = state.with_flows(alloc, flows) else {
        return Err(NoMemory);
    };
    close(alloc, &mut rest, i)?;
    solve(alloc, &mut rest)?;
    Ok(rest)
}

/// Solves, from the state's flow.
pub fn solve(alloc: Global, state: &mut State) -> Result<(), NoMemory>
    ensures network { OnOk result (state.new.network ≡ state.old.network) }
    ensures greatest { OnOk result (IsGreatest state.new.network state.new.flows) }
{
    let Ok(edit) = plan_solve(alloc, state) else {
        return Err(NoMemory);
    };
    Ok(state.apply(&edit)?)
}

/// Closes arc number `i`, if it is open.
fn close(alloc: Global, state: &mut State, i: u32) -> Result<(), NoMemory>
    requires { has_arc state.old.network i ≡ true }
    ensures { OnOk result (state.new.network ≡ without_arc state.old.network i) }
{
    if state.arc(i).closed {
        return Ok(());
    }
    let Ok(edit) = plan_close(alloc, state, u64::from(i)) else {
        return Err(NoMemory);
    };
    Ok(state.apply(&edit)?)
}
