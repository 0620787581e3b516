//! Problem texts.
ghost use Rattle.std.specs.Prelude.{◌≡◌, ◌⊎◌, IsErrOf};
ghost use Rattle.dmf_text.specs.Problem.{problem_of};
ghost use Rattle.dmf_text.specs.Problem.{out_of_memory};

use crate::fault::ProblemFault;
use crate::line::Lines;
use crate::reading::Reading;
use dmf_state::State;
use std::alloc::Global;

/// Reads a problem text, in the format of the First DIMACS Implementation Challenge (1990), maximum flow.
///
/// The arcs are those of the arc lines, in order, without flow. Fails with the first fault of the text, or with
/// [`crate::ProblemFaultKind::NoMemory`] at line 0 if memory is refused.
pub fn read_problem(alloc: Global, text: &[u8]) -> Result<State, ProblemFault>
    ensures { IsErrOf result out_of_memory ⊎ (result ≡ problem_of text.now) }
{
    let mut reading = Reading::Start;
    let mut lines = Lines::new(text);
    let mut last = 0;
    while let Some((number, line)) = lines.next_of_problem() {
        if let Err(kind) = reading.take_line(alloc, line) {
            return Err(ProblemFault::at(number, kind));
        }
        last = number;
    }
    match reading.finish() {
        Ok(state) => Ok(state),
        Err(kind) => Err(ProblemFault::at(last + 1, kind)),
    }
}
