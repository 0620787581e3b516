//! The run that the arguments ask for.
ghost use Rattle.std.specs.Prelude.{◌≡◌};
ghost use Rattle.dmf_arguments.specs.Words.{HasBound, task_of};
ghost use Rattle.dmf_runs.specs.Streams.{streams_of};
ghost use Rattle.dmf_program.specs.Program.{RunsSolving, RunsTask, RunsValuing, ended};

use crate::files::Files;
use dmf_arguments::{Arguments, Mode, Parts};
use dmf_host::Fault;
use dmf_runs::{SessionWatch, SolveReply, run_session_watched};
use dmf_solver::Watch;
use dmf_solving::{run_check, run_solve_any, run_solve_brief, run_solve_watched};
use dmf_streams::{EngineFault, Status};
use dmf_text::{Sink, Source};
use dmf_valuing::{
    run_vital, run_vital_nodes, run_vital_second, run_vital_worst, run_vital_worst_nodes,
    run_vital_worst_pairs,
};
use dmf_vital::ValuingWatch;
use std::alloc::Global;

/// What a solve is to write.
#[derive(Clone, Copy)]
pub struct SolveAnswer {
    /// Whether the smallest minimum cut follows the solution or the value.
    pub cut: bool,
    /// Whether the value is written instead of the solution.
    pub brief: bool,
    /// Whether the solution may be that of any greatest flow.
    pub any: bool,
}

/// Runs what the arguments ask for. A solve reads its problem from standard input, and so does a run that leaves out parts in turn. A
/// session and a check read it from the file at the path of the arguments, and the commands or the solution from standard input.
///
/// Fails with the fault of the opening if the file cannot be opened. Then nothing is read and nothing is written. Else fails as the
/// run does.
pub fn run_program<
    P: Source + Drop,
    F: Files<P>,
    C: Source,
    W: Sink,
    V: SessionWatch + ValuingWatch,
>(
    alloc: Global,
    asked: &Arguments,
    files: &F,
    input: &mut C,
    out: &mut W,
    watch: &mut V,
) -> Result<Status, Fault>
    requires { HasBound asked.now.mode }
    ensures { RunsTask (F.opens files.now) (task_of asked.now)
        (streams_of (C.left input.old) (W.written out.old)) (streams_of (C.left input.new) (W.written out.new)) result }
{
    match &asked.mode {
        Mode::Solve { cut, any } => {
            let wanted = SolveAnswer {
                cut: *cut,
                brief: asked.brief,
                any: *any,
            };
            ended(run_solving(alloc, wanted, input, out, watch))
        }
        Mode::Session {
            cut,
            history,
            problem,
        } => {
            let mut file = files.open(problem.as_str())?;
            let wanted = SolveReply {
                cut: *cut,
                brief: asked.brief,
            };
            ended(run_session_watched(alloc, &mut file, input, out, wanted, *history, watch))
        }
        Mode::Check { problem: path } => {
            let mut problem = files.open(path.as_str())?;
            ended(run_check(alloc, &mut problem, input, out))
        }
        Mode::Vital { parts } => ended(run_valuing(alloc, *parts, input, out, watch)),
    }
}

/// Solves a problem, and writes what is wanted: with `brief` the value, else with `any` the solution of any greatest flow, else the
/// solution.
///
/// Fails as [`run_solve_watched`] does.
#[inline(never)]
pub fn run_solving<P: Source, W: Sink, V: Watch>(
    alloc: Global,
    wanted: SolveAnswer,
    problem: &mut P,
    out: &mut W,
    watch: &mut V,
) -> Result<Status, EngineFault>
    ensures { RunsSolving wanted.cut wanted.brief wanted.any (P.left problem.old) (P.left problem.new)
        (W.written out.old) (W.written out.new) result }
{
    if wanted.brief {
        run_solve_brief(alloc, problem, out, wanted.cut, watch)
    } else if wanted.any {
        run_solve_any(alloc, problem, out, wanted.cut, watch)
    } else {
        run_solve_watched(alloc, problem, out, wanted.cut, watch)
    }
}

/// Writes the greatest value of a problem, and that without each of these parts, or also with second arcs.
///
/// Fails as [`run_vital`] does, and with second arcs as [`run_vital_second`] does.
#[inline(never)]
fn run_valuing<P: Source, W: Sink, V: Watch + ValuingWatch>(
    alloc: Global,
    parts: Parts,
    problem: &mut P,
    out: &mut W,
    watch: &mut V,
) -> Result<Status, EngineFault>
    ensures { RunsValuing parts (P.left problem.old) (P.left problem.new) (W.written out.old) (W.written out.new) result }
{
    match parts {
        Parts::Arcs => run_vital(alloc, problem, out, watch),
        Parts::Seconds => run_vital_second(alloc, problem, out, watch),
        Parts::Nodes => run_vital_nodes(alloc, problem, out, watch),
        Parts::WorstArcs(most) => run_vital_worst(alloc, most, problem, out, watch),
        Parts::WorstNodes(most) => run_vital_worst_nodes(alloc, most, problem, out, watch),
        Parts::WorstPairs(most) => run_vital_worst_pairs(alloc, most, problem, out, watch),
    }
}

/// How the program ends whose run ended so.
fn ended(outcome: Result<Status, EngineFault>) -> Result<Status, Fault>
    ensures { result ≡ ended outcome }
{
    match outcome {
        Ok(status) => Ok(status),
        Err(fault) => Err(Fault::Run(fault)),
    }
}
