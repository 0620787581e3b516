//! Solution texts.
ghost use Rattle.std.specs.Prelude.{◌≡◌, ◌⊎◌, IsErrOf};
ghost use Rattle.dmf_text.specs.Solution.{solution_of};
ghost use Rattle.dmf_text.specs.Solution.{solution_out_of_memory};

use crate::fault::{SolutionFault, SolutionFaultKind};
use crate::line::Lines;
use crate::solution_reading::SolutionReading;
use dmf_state::State;
use std::alloc::Global;

/// Reads a solution text for a state's network, in the format of the First DIMACS Implementation Challenge (1990), maximum flow.
/// Ignores the flow of the state.
///
/// Adds up the flows of all lines with the same tail and head, and fills the arcs from this tail to this head with the sum, one after
/// the other. Fails with the first fault of the text, or with [`SolutionFaultKind::NoMemory`] at line 0 if memory is refused.
pub fn read_solution(alloc: Global, text: &[u8], state: &State) -> Result<State, SolutionFault>
    ensures { IsErrOf result solution_out_of_memory ⊎ (result ≡ solution_of state.now text.now) }
{
    let Ok(mut reading) = SolutionReading::new(alloc, state) else {
        return Err(SolutionFault::at(0, SolutionFaultKind::NoMemory));
    };
    let mut last = 0;
    for (number, line) in Lines::new(text) {
        if let Err(kind) = reading.take_line(line) {
            return Err(SolutionFault::at(number, kind));
        }
        last = number;
    }
    match reading.finish(alloc, state) {
        Ok(state) => Ok(state),
        Err(kind) => Err(SolutionFault::at(last + 1, kind)),
    }
}
