//! Problem texts that C reads.
ghost use Rattle.std.specs.Prelude.{◌≡◌, ◌≢◌};
ghost use Rattle.dmf_text.specs.Problem.{problem_of};
ghost use Rattle.dmf_c.specs.Status.{DMF_OK, DMF_BAD_TEXT};
ghost use Rattle.dmf_c.specs.Texts.{Reads, IsFault};

use crate::opening::open;
use crate::slot::Slot;
use dmf_session::MAX_BOUND;
use dmf_text::{ProblemFaultKind, read_problem};
use std::alloc::Global;

/// Opens a session on a problem text.
#[unsafe(no_mangle)]
pub extern "C" fn dmf_session_read(
    alloc: Global,
    text: &[u8],
    past: u32,
    session: &mut Slot,
    line: &mut u64,
    fault: &mut u32,
) -> u32
    ensures answer { Reads past (problem_of text.now) result session.new.session line.new fault.new }
    ensures numbered { result ≡ DMF_BAD_TEXT → IsFault fault.new }
    ensures no_fault { result ≢ DMF_BAD_TEXT → (line.new ≡ 0) × (fault.new ≡ 0) }
    ensures refused { result ≢ DMF_OK → session.new ≡ session.old }
{
    *line = 0;
    *fault = 0;
    if past > MAX_BOUND {
        return 11;
    }
    match read_problem(alloc, text) {
        Ok(state) => open(alloc, state, past, session),
        Err(found) if found.kind == ProblemFaultKind::NoMemory => 1,
        Err(found) => {
            *line = found.line;
            *fault = found.kind as u32;
            12
        }
    }
}
