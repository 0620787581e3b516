//! The problem of a run.
ghost use Rattle.dmf_streams.specs.Reading.{HasGiven, ReadsProblem};

use crate::fault::EngineFault;
use crate::whole_text::read_all;
use dmf_state::State;
use dmf_text::{ProblemFaultKind, Source, read_problem};
use std::alloc::Global;

/// Reads a problem text, and judges it.
pub fn read_state<P: Source>(alloc: Global, source: &mut P) -> Result<State, EngineFault>
    ensures { HasGiven (P.left source.old) (P.left source.new)
        (λ text. ReadsProblem (P.left source.old) (P.left source.new) text result) }
{
    let text = read_all(alloc, source)?;
    match read_problem(alloc, &text) {
        Ok(state) => Ok(state),
        Err(fault) => match fault.kind {
            ProblemFaultKind::NoMemory => Err(EngineFault::NoMemory),
            _ => Err(EngineFault::Problem(fault)),
        },
    }
}
