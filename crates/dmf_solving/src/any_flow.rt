//! Solving by any greatest flow: for the value and the cut alone, which all greatest flows share, or for a solution that may be any of them.
//!
//! An engine finds a flow that is likely greatest, sooner than the search of a plan does, and a cut that likely shows this. Nothing is known of
//! either. So both are judged. Where the flow is one of the network, a solve begins at it, and finds no augmenting path if it is greatest. Where
//! it also saturates the cut, it is greatest, and a solve would change nothing. Where it is none, or where the engine gave none, the solve begins
//! at the state's own flow.
ghost use Rattle.std.specs.Prelude.{◌≡◌, length, IfOk, IfSome};
ghost use Rattle.dmf_solver.specs.Greatest.{IsGreatest};
ghost use Rattle.dmf_solver.specs.Planning.{IsSideWanted};
ghost use Rattle.dmf_solving.specs.Laws.{AnyIsOptimal, ValueIsOptimal};
ghost use Rattle.dmf_solving.specs.SolveRun.{RunsAny, RunsBrief};

use crate::laws::any_is_optimal;
use crate::solve::{Solved, solve};
use crate::solved::{write_brief, write_solved};
use dmf_engine::{Likely, likely_greatest};
use dmf_solver::{Watch, is_saturated_cut};
use dmf_state::{NoMemory, State};
use dmf_streams::{EngineFault, Status, flush, read_state};
use dmf_text::{Sink, Source, accepted_is_state};
use std::alloc::Global;

/// Reads a problem and finds the greatest value. Writes it, as `c solve value V`, with `want_cut` the smallest minimum cut after it, and
/// flushes. Value and cut are those of [`run_solve`](crate::run_solve). Reports to the watch what [`solve_from`] reports.
///
/// Fails as `run_solve` does.
pub fn run_solve_brief<P: Source, W: Sink, V: Watch>(
    alloc: Global,
    problem: &mut P,
    out: &mut W,
    want_cut: bool,
    watch: &mut V,
) -> Result<Status, EngineFault>
    ensures run { RunsBrief want_cut (P.left problem.old) (P.left problem.new) (W.written out.old) (W.written out.new)
        result }
    ensures optimal { ValueIsOptimal }
{
    accepted_is_state();
    any_is_optimal();
    let state = read_state(alloc, problem)?;
    let solved = solve_any(alloc, state, want_cut, watch)?;
    write_brief(&solved.state, &solved.side, out)?;
    flush(out)?;
    Ok(Status::Well)
}

/// Reads a problem and finds some greatest flow. Writes it as a solution, with `want_cut` the smallest minimum cut after it, and flushes.
/// Another version may write another greatest flow. Reports to the watch what [`solve_from`] reports.
///
/// Fails as [`run_solve`](crate::run_solve) does.
pub fn run_solve_any<P: Source, W: Sink, V: Watch>(
    alloc: Global,
    problem: &mut P,
    out: &mut W,
    want_cut: bool,
    watch: &mut V,
) -> Result<Status, EngineFault>
    ensures run { RunsAny want_cut (P.left problem.old) (P.left problem.new) (W.written out.old) (W.written out.new)
        result }
    ensures optimal { AnyIsOptimal }
{
    any_is_optimal();
    let state = read_state(alloc, problem)?;
    let solved = solve_any(alloc, state, want_cut, watch)?;
    write_solved(&solved.state, &solved.side, out)?;
    flush(out)?;
    Ok(Status::Well)
}

/// Finds some greatest flow of a state's network, and its smallest side if this is wanted, by a flow that the engine finds, or by an ordinary
/// solve where it finds none. Drops the state if memory is refused. Reports to the watch what [`solve_from`] reports.
pub fn solve_any<V: Watch>(
    alloc: Global,
    state: State,
    want_cut: bool,
    watch: &mut V,
) -> Result<Solved, NoMemory>
    ensures network { IfOk result (λ solved. solved.state.network ≡ state.network) }
    ensures greatest { IfOk result (λ solved. IsGreatest solved.state.network solved.state.flows) }
    ensures side { IfOk result (λ solved. IsSideWanted want_cut solved.state.network solved.side) }
{
    let likely = likely_flow(alloc, &state);
    solve_from(alloc, state, likely, want_cut, watch)
}

/// The flow and the cut that the engine finds. `None` if it gives up or memory is refused.
fn likely_flow(alloc: Global, state: &State) -> Option<Likely>
    ensures { IfSome result (λ likely. length likely.flows.items ≡ length state.now.network.arcs) }
{
    let arcs = state.arcs();
    let Ok(found) = likely_greatest(alloc, state.nodes(), state.source(), state.sink(), arcs) else {
        return None;
    };
    found
}

/// Finds some greatest flow of a state's network, and the smallest side of this if it is wanted. Begins at the likely flow where this is a flow of
/// the network, else at the state's own. Drops the state if memory is refused.
///
/// Reports to the watch the state from which the solve begins, and each augmenting path: none if the flow of this state is greatest. Without a
/// side it makes no links where the flow saturates the likely cut.
pub fn solve_from<V: Watch>(
    alloc: Global,
    state: State,
    likely: Option<Likely>,
    want_cut: bool,
    watch: &mut V,
) -> Result<Solved, NoMemory>
    requires { IfSome likely (λ likely. length likely.flows.items ≡ length state.network.arcs) }
    ensures network { IfOk result (λ solved. solved.state.network ≡ state.network) }
    ensures greatest { IfOk result (λ solved. IsGreatest solved.state.network solved.state.flows) }
    ensures side { IfOk result (λ solved. IsSideWanted want_cut solved.state.network solved.side) }
{
    let Some(Likely { flows, marks }) = likely else {
        return solve(alloc, state, want_cut, watch);
    };
    let begun = begun_with(alloc, state, flows);
    if !want_cut && is_saturated_cut(&begun, &marks) {
        watch.begun(&begun);
        return Ok(Solved {
            state: begun,
            side: None,
        });
    }
    solve(alloc, begun, want_cut, watch)
}

/// The state with these flows in place of its own. The state itself where they are no flow of the network, or where memory is refused.
fn begun_with(alloc: Global, state: State, flows: Vec<u64>) -> State
    requires { length flows.items ≡ length state.network.arcs }
    ensures { result.network ≡ state.network }
{
    match state.with_flows(alloc, flows) {
        Ok(begun) => begun,
        Err(_) => state,
    }
}
