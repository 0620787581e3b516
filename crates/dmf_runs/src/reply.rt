//! Replies to command lines.
ghost use Rattle.std.specs.Prelude.{◌≡◌, true, IfOk};
ghost use Rattle.dmf_text.specs.Writing.{Writes};
ghost use Rattle.dmf_session.specs.Step.{IsReplyTo};
ghost use Rattle.dmf_runs.specs.Run as run;
ghost use Rattle.dmf_runs.specs.WrittenLine.{is_refusal};

use crate::command_text::{CommandLine, word_of};
use crate::refusal::refusal_text;
use crate::watch::SessionWatch;
use dmf_session::{Command, Refusal, Reply};
use dmf_solving::{write_side, write_solved};
use dmf_state::{Side, State};
use dmf_streams::{put_line, write_line};
use dmf_text::LineField::{Number, Text};
use dmf_text::{LineBuffer, Sink, WriteFault, line_of, write_cut, write_problem, write_solution};

/// What is wanted of the reply to a solve.
#[derive(Clone, Copy)]
pub struct SolveReply {
    /// Whether the smallest minimum cut follows the solution or the value.
    pub cut: bool,
    /// Whether the reply is the value, as `c solve value V`, instead of the solution.
    pub brief: bool,
}

/// The outcome of a line.
#[derive(Clone, Copy)]
pub enum Answer {
    /// The session carried it out.
    Accepted,
    /// The session refused it.
    Refused,
}

impl Answer {
    /// Whether the line was refused.
    pub fn is_refusal(self) -> bool
        ensures { result ≡ is_refusal self }
    {
        match self {
            Answer::Accepted => false,
            Answer::Refused => true,
        }
    }
}

/// Writes that the session refused a line, flushes, and reports it to the watch.
pub fn refuse<W: Sink, V: SessionWatch>(
    line: CommandLine<'_>,
    refusal: Refusal,
    out: &mut W,
    watch: &mut V,
) -> Result<Answer, WriteFault>
    ensures text { Writes (W.written out.old) (W.written out.new) result (run.refused_text line.entry.number refusal) }
    ensures refused { IfOk result (λ answer. is_refusal answer ≡ true) }
{
    put_line(&refused_line(line.number, refusal), out)?;
    watch.refused(line.text, refusal);
    Ok(Answer::Refused)
}

/// Writes the reply to a command. With `brief` the reply to a solve has its value alone.
pub fn write_reply<W: Sink>(
    command: Command,
    reply: &Reply,
    present: &State,
    brief: bool,
    out: &mut W,
) -> Result<(), WriteFault>
    requires { IsReplyTo command reply.now }
    ensures { Writes (W.written out.old) (W.written out.new) result
        (run.reply_text brief command reply.now present.now) }
{
    match reply {
        Reply::Value(value) => write_line(&value_line(command, *value), out),
        Reply::Added(arc, value) => write_line(&added_line(command, *arc, *value), out),
        Reply::Solution(side) => write_solve(present, side, brief, out),
        Reply::Problem => write_problem(present, out),
        Reply::Flow => write_solution(present, out),
        Reply::Cut(side) => write_cut(side, out),
    }
}

/// Writes the reply to a solve: the solution of the present state, or with `brief` its value.
fn write_solve<W: Sink>(
    state: &State,
    side: &Option<Side>,
    brief: bool,
    out: &mut W,
) -> Result<(), WriteFault>
    ensures { Writes (W.written out.old) (W.written out.new) result (run.solve_text brief state.now side.now) }
{
    if brief {
        write_brief_reply(state, side, out)
    } else {
        write_solved(state, side, out)
    }
}

/// Writes the value of a solve, then this cut, if there is one.
fn write_brief_reply<W: Sink>(
    state: &State,
    side: &Option<Side>,
    out: &mut W,
) -> Result<(), WriteFault>
    ensures { Writes (W.written out.old) (W.written out.new) result (run.solve_text true state.now side.now) }
{
    write_line(&value_line(Command::Solve, state.value()), out)?;
    write_side(side, out)
}

fn refused_line(number: u32, refusal: Refusal) -> LineBuffer
    ensures { result ≡ run.refused_text number refusal }
{
    line_of(&[
        Text(b"c"),
        Text(b"refused"),
        Number(u64::from(number)),
        Text(refusal_text(&refusal)),
    ])
}

/// `c WORD value V`
pub fn value_line(command: Command, value: u64) -> LineBuffer
    ensures { result ≡ run.value_text command value }
{
    line_of(&[
        Text(b"c"),
        Text(word_of(command)),
        Text(b"value"),
        Number(value),
    ])
}

fn added_line(command: Command, arc: u32, value: u64) -> LineBuffer
    ensures { result ≡ run.added_text command arc value }
{
    line_of(&[
        Text(b"c"),
        Text(word_of(command)),
        Number(u64::from(arc)),
        Text(b"value"),
        Number(value),
    ])
}
