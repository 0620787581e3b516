//! Solving a problem, from bytes to bytes.
ghost use Rattle.std.specs.Prelude.{IfOk};
ghost use Rattle.dmf_solver.specs.Change.{Solve, Becomes};
ghost use Rattle.dmf_solver.specs.Greatest.{IsGreatest};
ghost use Rattle.dmf_solver.specs.Planning.{IsSideWanted};
ghost use Rattle.dmf_solving.specs.SolveRun.{RunsSolve};
ghost use Rattle.dmf_solving.specs.Laws.{WrittenIsOptimal};

use crate::laws::written_is_optimal;
use crate::solved::write_solved;
use dmf_solver::{Unwatched, Watch, plan_solve_watched};
use dmf_state::{NoMemory, Side, State};
use dmf_streams::{EngineFault, Status, flush, read_state};
use dmf_text::{Sink, Source};
use std::alloc::Global;

/// Reads a problem and solves it. Writes the solution, with `want_cut` the smallest minimum cut after it, and flushes. No flow has a
/// larger value than the solution, and its value is the capacity of that cut.
///
/// Fails before it writes anything with [`EngineFault::Problem`] if the problem text has a fault, and with [`EngineFault::Read`],
/// [`EngineFault::TooMuchInput`] or [`EngineFault::NoMemory`]. Fails with [`EngineFault::Write`] if a write or the flush fails.
pub fn run_solve<P: Source, W: Sink>(
    alloc: Global,
    problem: &mut P,
    out: &mut W,
    want_cut: bool,
) -> Result<Status, EngineFault>
    ensures run { RunsSolve want_cut (P.left problem.old) (P.left problem.new) (W.written out.old) (W.written out.new)
        result }
    ensures optimal { WrittenIsOptimal }
{
    run_solve_watched(alloc, problem, out, want_cut, &mut Unwatched)
}

/// Solves a problem as [`run_solve`] does, and reports to the watch the state that it solves, and each augmenting path.
pub fn run_solve_watched<P: Source, W: Sink, V: Watch>(
    alloc: Global,
    problem: &mut P,
    out: &mut W,
    want_cut: bool,
    watch: &mut V,
) -> Result<Status, EngineFault>
    ensures run { RunsSolve want_cut (P.left problem.old) (P.left problem.new) (W.written out.old) (W.written out.new)
        result }
    ensures optimal { WrittenIsOptimal }
{
    written_is_optimal();
    let state = read_state(alloc, problem)?;
    let solved = solve(alloc, state, want_cut, watch)?;
    write_solved(&solved.state, &solved.side, out)?;
    flush(out)?;
    Ok(Status::Well)
}

/// A state with a maximum flow, and a cut if one is wanted.
#[derive(Drop)]
pub struct Solved {
    pub state: State,
    pub side: Option<Side>,
}

/// Augments the state's flow to a maximum flow, and finds the smallest side of its network if that is wanted. Drops the state if memory
/// is refused.
pub fn solve<V: Watch>(
    alloc: Global,
    mut state: State,
    want_cut: bool,
    watch: &mut V,
) -> Result<Solved, NoMemory>
    ensures becomes { IfOk result (λ solved. Becomes state Solve solved.state) }
    ensures greatest { IfOk result (λ solved. IsGreatest solved.state.network solved.state.flows) }
    ensures side { IfOk result (λ solved. IsSideWanted want_cut solved.state.network solved.side) }
{
    watch.begun(&state);
    let Ok((edit, side)) = plan_solve_watched(alloc, &state, want_cut, watch) else {
        return Err(NoMemory);
    };
    state.apply(&edit)?;
    Ok(Solved { state, side })
}
