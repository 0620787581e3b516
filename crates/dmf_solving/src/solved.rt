//! Writing the solution of a solved state, and a cut after it.
ghost use Rattle.std.specs.Prelude.{◌≡◌};
ghost use Rattle.dmf_text.specs.Writing.{Writes};
ghost use Rattle.dmf_solving.specs.Solved.{brief_text, side_text, solve_value_line, solved_text};

use dmf_state::{Side, State};
use dmf_streams::write_line;
use dmf_text::LineField::{Number, Text};
use dmf_text::{LineBuffer, Sink, WriteFault, line_of, write_cut, write_solution};

/// Writes the solution of a state, and after it this cut, if there is one.
pub fn write_solved<W: Sink>(
    state: &State,
    side: &Option<Side>,
    out: &mut W,
) -> Result<(), WriteFault>
    ensures { Writes (W.written out.old) (W.written out.new) result (solved_text state.now side.now) }
{
    write_solution(state, out)?;
    write_side(side, out)
}

/// Writes the value of a state, as `c solve value V`, and after it this cut, if there is one.
pub fn write_brief<W: Sink>(
    state: &State,
    side: &Option<Side>,
    out: &mut W,
) -> Result<(), WriteFault>
    ensures { Writes (W.written out.old) (W.written out.new) result (brief_text state.now side.now) }
{
    write_line(&solved_value_line(state.value()), out)?;
    write_side(side, out)
}

/// `c solve value V`
fn solved_value_line(value: u64) -> LineBuffer
    ensures { result ≡ solve_value_line value }
{
    line_of(&[Text(b"c"), Text(b"solve"), Text(b"value"), Number(value)])
}

/// Writes this cut, if there is one.
pub fn write_side<W: Sink>(side: &Option<Side>, out: &mut W) -> Result<(), WriteFault>
    ensures { Writes (W.written out.old) (W.written out.new) result (side_text side.now) }
{
    match side {
        None => Ok(()),
        Some(side) => write_cut(side, out),
    }
}
