//! Some maximum flow of the present network, which an engine finds sooner than a solve does.
ghost use Rattle.std.specs.Prelude.{◌≡◌, ◌≢◌, ◌^◌, ◌<◌, ◌==◌, length, IfOk, IsTrue, MatchBool};
ghost use Rattle.dmf_solver.specs.Greatest.{IsGreatest};
ghost use Rattle.dmf_solver.specs.Planning.{IsSideWanted};
ghost use Rattle.dmf_c.specs.Codes.{OfPresent};
ghost use Rattle.dmf_c.specs.Status.{DMF_OK};
ghost use Rattle.dmf_c.specs.MaximumFlow.{AnswersMaximumFlow, IsOptimalValue, HasFlowsWanted, MarksSideWanted, MarksIfSome};
ghost use Rattle.dmf_c.specs.Ranges.{is_column};

use crate::arrays::mark;
use crate::handle::Handle;
use crate::ranges::is_column;
use dmf_solver::{Unwatched, greatest_is_optimal};
use dmf_solving::{Solved, solve_any};
use dmf_state::{NoMemory, Side, State};
use std::alloc::Global;

/// The greatest value, a flow that has it, and the side of the smallest minimum cut.
#[unsafe(no_mangle)]
pub extern "C" fn dmf_session_maximum_flow(
    alloc: Global,
    session: &mut Handle,
    value: &mut u64,
    flows: &mut [u64],
    side: &mut [u8],
) -> u32
    ensures answer { OfPresent session.old.timeline (λ s. AnswersMaximumFlow s.network (length flows.old) (length side.old) result) }
    ensures value { OfPresent session.old.timeline (λ s. result ≡ DMF_OK → IsOptimalValue s.network value.new) }
    ensures filled { OfPresent session.old.timeline (λ s. result ≡ DMF_OK → HasFlowsWanted s.network value.new flows.old flows.new) }
    ensures marked { OfPresent session.old.timeline (λ s. result ≡ DMF_OK → MarksSideWanted s.network side.old side.new) }
    ensures refused { result ≢ DMF_OK → (value.new ≡ value.old) × (flows.new ≡ flows.old) × (side.new ≡ side.old) }
    ensures unchanged { session.new.timeline ≡ session.old.timeline }
{
    let present = session.plan().present();
    put_maximum_flow(alloc, present, value, flows, side)
}

fn put_maximum_flow(
    alloc: Global,
    state: &State,
    value: &mut u64,
    flows: &mut [u64],
    side: &mut [u8],
) -> u32
    ensures answer { AnswersMaximumFlow state.now.network (length flows.old) (length side.old) result }
    ensures value { result ≡ DMF_OK → IsOptimalValue state.now.network value.new }
    ensures filled { result ≡ DMF_OK → HasFlowsWanted state.now.network value.new flows.old flows.new }
    ensures marked { result ≡ DMF_OK → MarksSideWanted state.now.network side.old side.new }
    ensures refused { result ≢ DMF_OK → (value.new ≡ value.old) × (flows.new ≡ flows.old) × (side.new ≡ side.old) }
{
    if !(is_column(state.arcs().len(), flows.len())
        && is_column(state.nodes() as usize, side.len()))
    {
        return 10;
    }
    let Ok(solved) = solve_copy(alloc, state, side.len() > 0) else {
        return 1;
    };
    greatest_is_optimal();
    *value = solved.state.value();
    put_flows(&solved.state, flows);
    put_side(&solved.side, side);
    0
}

/// A state of the same network whose flow is greatest, and the smallest side if this is wanted.
fn solve_copy(alloc: Global, state: &State, want_side: bool) -> Result<Solved, NoMemory>
    ensures network { IfOk result (λ solved. solved.state.network ≡ state.now.network) }
    ensures greatest { IfOk result (λ solved. IsGreatest solved.state.network solved.state.flows) }
    ensures side { IfOk result (λ solved. IsSideWanted want_side state.now.network solved.side) }
{
    let copy = state.copy(alloc)?;
    solve_any(alloc, copy, want_side, &mut Unwatched)
}

/// Writes the flows of the state, if the array has a place at all.
fn put_flows(state: &State, flows: &mut [u64])
    requires { IsTrue (is_column (length state.now.network.arcs) (length flows.old)) }
    ensures { MatchBool (length flows.old == 0) (flows.new ≡ flows.old) (flows.new ≡ state.now.flows) }
{
    if flows.len() > 0 {
        flows.copy_from_slice(state.flows());
    }
}

/// Marks the nodes of the side, if there is one.
fn put_side(side: &Option<Side>, marks: &mut [u8])
    requires { length marks.old < 2 ^ 32 }
    ensures { MarksIfSome side.now marks.old marks.new }
{
    if let Some(found) = side {
        mark(found, marks);
    }
}
