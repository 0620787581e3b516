//! Checking a solution, from bytes to bytes.
ghost use Rattle.std.specs.Prelude.{◌≡◌, ◌≤◌, length, codes, if◌then◌else◌, IfOk, IsOkUnless};
ghost use Rattle.dmf_streams.specs.Reading.{HasGiven};
ghost use Rattle.dmf_streams.specs.declared.fault.EngineFault.TheVariants as fault;
ghost use Rattle.dmf_solving.specs.CheckRun.{IsVerdict, TellsVerdict, verdict_line, verdict_status, ReadsSolution, RunsCheck};

use dmf_solver::is_greatest;
use dmf_state::{NoMemory, State};
use dmf_streams::{EngineFault, Status, put_line, read_all, read_state};
use dmf_text::LineField::{Number, Text};
use dmf_text::{LineBuffer, Sink, SolutionFaultKind, Source, line_of, read_solution};
use std::alloc::Global;

/// Reads a problem and a solution of it. Writes `c greatest V` if no flow has a larger value than the solution, else `c flow V`, and
/// flushes. The status says the same.
///
/// Fails before it writes anything with [`EngineFault::Problem`] or [`EngineFault::Solution`] if a text has a fault, with
/// [`EngineFault::Read`], [`EngineFault::TooMuchInput`] or [`EngineFault::NoMemory`]. Fails with [`EngineFault::Write`] if a write
/// or the flush fails. After a fault of the problem it has read no byte of the solution.
pub fn run_check<P: Source, C: Source, W: Sink>(
    alloc: Global,
    problem: &mut P,
    solution: &mut C,
    out: &mut W,
) -> Result<Status, EngineFault>
    ensures { RunsCheck
        (P.left problem.old) (P.left problem.new) (C.left solution.old) (C.left solution.new)
        (W.written out.old) (W.written out.new) result }
{
    let state = read_state(alloc, problem)?;
    let solved = read_solved(alloc, state, solution)?;
    let greatest = verdict_of(alloc, &solved)?;
    tell_verdict(&solved, greatest, out)
}

/// Reads a solution text of a state's network, and judges it. Drops the state.
fn read_solved<C: Source>(alloc: Global, state: State, source: &mut C) -> Result<State, EngineFault>
    ensures { HasGiven (C.left source.old) (C.left source.new)
        (λ text. ReadsSolution state (C.left source.old) (C.left source.new) text result) }
{
    let text = read_all(alloc, source)?;
    match read_solution(alloc, &text, &state) {
        Ok(solved) => Ok(solved),
        Err(fault) => match fault.kind {
            SolutionFaultKind::NoMemory => Err(EngineFault::NoMemory),
            _ => Err(EngineFault::Solution(fault)),
        },
    }
}

/// Whether no flow of the network has a larger value than the flow of the state.
fn verdict_of(alloc: Global, state: &State) -> Result<bool, NoMemory>
    ensures { IfOk result (IsVerdict state.now) }
{
    is_greatest(alloc, state)
}

/// Writes whether the state's flow is greatest, and flushes. The status says the same.
fn tell_verdict<W: Sink>(state: &State, greatest: bool, out: &mut W) -> Result<Status, EngineFault>
    requires { IsVerdict state.now greatest }
    ensures told { TellsVerdict state.now (W.written out.old) (W.written out.new) result }
    ensures write { IsOkUnless result fault.Write }
{
    put_line(&verdict_line(greatest, state.value()), out)?;
    Ok(status_of_verdict(greatest))
}

fn verdict_line(greatest: bool, value: u64) -> LineBuffer
    ensures { result ≡ verdict_line greatest value }
{
    line_of(&[Text(b"c"), Text(verdict_word(greatest)), Number(value)])
}

fn verdict_word(greatest: bool) -> &'static [u8]
    ensures word { result.now ≡ (if greatest then codes "greatest" else codes "flow") }
    ensures short { length result.now ≤ 8 }
{
    if greatest { b"greatest" } else { b"flow" }
}

fn status_of_verdict(greatest: bool) -> Status
    ensures { result ≡ verdict_status greatest }
{
    if greatest {
        Status::Well
    } else {
        Status::NotGreatest
    }
}
