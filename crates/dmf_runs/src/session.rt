//! Sessions, from bytes to bytes.
ghost use Rattle.std.specs.Prelude.{◌≡◌, ◌≤◌, IsOk, None, Ok, length};
ghost use Rattle.dmf_runs.specs.Streams.{streams_of};
ghost use Rattle.dmf_runs.specs.Outcome.{RunsCommands, RunsCommandsWith, solutions, status_if};
ghost use Rattle.dmf_runs.specs.Session.{RunsSession, RunsSessionWith};
ghost use Rattle.dmf_runs.specs.WrittenLine.{WritesLine};

use crate::command_text::{CommandLine, line_text, meaning_of};
use crate::reply::{Answer, SolveReply, refuse, write_reply};
use crate::watch::SessionWatch;
use dmf_history::{DeltaHistory, History, MAX_BOUND};
use dmf_session::{Command, Session};
use dmf_solver::{Unwatched, Watch};
use dmf_streams::{EngineFault, Input, KeptLine, Next, Status, flush, read_state};
use dmf_text::{Sink, Source, WriteFault};
use std::alloc::Global;

/// The largest number of command lines of a session.
pub const MAX_LINES: u32 = 1_000_000;

/// Carries out command lines, one after the other, on a session that stands at its start.
///
/// Writes and flushes the reply to a line before it asks for the next. A line without a reply flushes nothing. With `want_cut` the
/// smallest minimum cut follows each solution.
///
/// Fails with [`EngineFault::Read`] or [`EngineFault::Write`] if a read, a write or a flush fails, and with
/// [`EngineFault::TooMuchInput`] past [`MAX_LINES`] lines or [`crate::MAX_BYTES`] bytes. Only commands take memory. If a command is
/// refused memory, the reply says so, and the run goes on.
pub fn run_commands<H: History + Drop, C: Source, W: Sink>(
    alloc: Global,
    session: Session<H>,
    commands: &mut C,
    out: &mut W,
    want_cut: bool,
) -> Result<Status, EngineFault>
    requires at_first { (H.timeline session).place ≡ 0 }
    requires one_state { length (H.timeline session).states ≡ 1 }
    ensures { RunsCommands want_cut (H.timeline session)
        (streams_of (C.left commands.old) (W.written out.old)) (streams_of (C.left commands.new) (W.written out.new)) result }
{
    run_commands_watched(
        alloc,
        session,
        commands,
        out,
        solutions(want_cut),
        &mut Unwatched,
    )
}

/// Carries out command lines as [`run_commands`] does, with these replies to solves, and reports to the watch each state that it solves,
/// each augmenting path, what each path of a drain takes off, and each answer.
pub fn run_commands_watched<H: History + Drop, C: Source, W: Sink, V: SessionWatch>(
    alloc: Global,
    session: Session<H>,
    commands: &mut C,
    out: &mut W,
    wanted: SolveReply,
    watch: &mut V,
) -> Result<Status, EngineFault>
    requires at_first { (H.timeline session).place ≡ 0 }
    requires one_state { length (H.timeline session).states ≡ 1 }
    ensures { RunsCommandsWith wanted (H.timeline session)
        (streams_of (C.left commands.old) (W.written out.old)) (streams_of (C.left commands.new) (W.written out.new)) result }
{
    let mut session = session;
    SessionRun { alloc, wanted }.run_lines(&mut session, commands, out, watch)
}

/// The context in which a run carries out its command lines.
#[derive(Clone, Copy)]
struct SessionRun {
    alloc: Global,
    wanted: SolveReply,
}

impl SessionRun {
    /// Carries out the command lines on the caller's session.
    fn run_lines<H: History, C: Source, W: Sink, V: SessionWatch>(
        self,
        session: &mut Session<H>,
        commands: &mut C,
        out: &mut W,
        watch: &mut V,
    ) -> Result<Status, EngineFault>
        requires at_first { (H.timeline session.old).place ≡ 0 }
        requires one_state { length (H.timeline session.old).states ≡ 1 }
        ensures { RunsCommandsWith self.wanted (H.timeline session.old)
            (streams_of (C.left commands.old) (W.written out.old)) (streams_of (C.left commands.new) (W.written out.new)) result }
    {
        let mut input = Input::new();
        let mut kept = KeptLine::new();
        let mut is_refused = false;
        for number in 1..MAX_LINES + 1 {
            let Next::Line { ended } = input.next_line(commands, &mut kept)? else {
                return Ok(status(is_refused));
            };
            let meaning = meaning_of(&kept, ended);
            let line = CommandLine {
                number,
                text: line_text(&kept, ended),
                meaning,
            };
            let answer = self.answer(session, line, out, watch)?;
            is_refused |= answer.is_refusal();
            if !ended {
                return Ok(status(is_refused));
            }
        }
        input.expect_end(commands)?;
        Ok(status(is_refused))
    }

    /// Carries out a line, writes its reply and flushes. For a line without a reply it does not call the writer.
    fn answer<H: History, W: Sink, V: SessionWatch>(
        self,
        session: &mut Session<H>,
        line: CommandLine<'_>,
        out: &mut W,
        watch: &mut V,
    ) -> Result<Answer, WriteFault>
        ensures line { WritesLine self.wanted (W.written out.old) (W.written out.new) line.entry.number
            (H.timeline session.old) line.entry.meaning (H.timeline session.new) result }
        ensures silent { line.entry.meaning ≡ Ok None → (out.new ≡ out.old) × IsOk result }
    {
        let command = match line.meaning {
            Ok(None) => return Ok(Answer::Accepted),
            Ok(Some(command)) => command,
            Err(refusal) => return refuse(line, refusal, out, watch),
        };
        tell_solve(session, command, watch);
        match session.step_watched(self.alloc, command, self.wanted.cut, watch) {
            Ok(reply) => {
                write_reply(command, &reply, session.present(), self.wanted.brief, out)?;
                flush(out)?;
                watch.carried_out(&reply);
                Ok(Answer::Accepted)
            }
            Err(refusal) => refuse(line, refusal, out, watch),
        }
    }
}

/// Holds a session as [`run_session_bounded`] does, with the largest bound, [`MAX_BOUND`]. A session has no more lines than that, so it
/// never forgets a state.
pub fn run_session<P: Source, C: Source, W: Sink>(
    alloc: Global,
    problem: &mut P,
    commands: &mut C,
    out: &mut W,
    want_cut: bool,
) -> Result<Status, EngineFault>
    ensures { RunsSession want_cut 1000000 (P.left problem.old) (P.left problem.new)
        (streams_of (C.left commands.old) (W.written out.old)) (streams_of (C.left commands.new) (W.written out.new)) result }
{
    run_session_bounded(alloc, problem, commands, out, want_cut, MAX_BOUND)
}

/// Reads the problem, and then carries out command lines on it as [`run_commands`] does. The session keeps at most `bound` states
/// before the present one. The bound is at most [`MAX_BOUND`].
///
/// Fails before it reads a command or writes anything with [`EngineFault::Problem`] if the problem text has a fault, and with
/// [`EngineFault::Read`], [`EngineFault::TooMuchInput`] or [`EngineFault::NoMemory`] if it cannot read that text.
pub fn run_session_bounded<P: Source, C: Source, W: Sink>(
    alloc: Global,
    problem: &mut P,
    commands: &mut C,
    out: &mut W,
    want_cut: bool,
    bound: u32,
) -> Result<Status, EngineFault>
    requires { bound ≤ 1000000 }
    ensures { RunsSession want_cut bound (P.left problem.old) (P.left problem.new)
        (streams_of (C.left commands.old) (W.written out.old)) (streams_of (C.left commands.new) (W.written out.new)) result }
{
    run_session_watched(
        alloc,
        problem,
        commands,
        out,
        solutions(want_cut),
        bound,
        &mut Unwatched,
    )
}

/// Holds a session as [`run_session_bounded`] does, with these replies to solves, and reports to the watch each state that it solves, each
/// augmenting path, what each path of a drain takes off, and each answer.
pub fn run_session_watched<P: Source, C: Source, W: Sink, V: SessionWatch>(
    alloc: Global,
    problem: &mut P,
    commands: &mut C,
    out: &mut W,
    wanted: SolveReply,
    bound: u32,
    watch: &mut V,
) -> Result<Status, EngineFault>
    requires { bound ≤ 1000000 }
    ensures { RunsSessionWith wanted bound (P.left problem.old) (P.left problem.new)
        (streams_of (C.left commands.old) (W.written out.old)) (streams_of (C.left commands.new) (W.written out.new)) result }
{
    let state = read_state(alloc, problem)?;
    let history = DeltaHistory::with_bound(alloc, state, bound);
    run_commands_watched(alloc, Session::new(history), commands, out, wanted, watch)
}

/// Replies that have whole solutions, and with `want_cut` a cut after each.
fn solutions(want_cut: bool) -> SolveReply
    ensures { result ≡ solutions want_cut }
{
    SolveReply {
        cut: want_cut,
        brief: false,
    }
}

fn status(is_refused: bool) -> Status
    ensures { result ≡ status_if is_refused }
{
    if is_refused {
        Status::SomeRefused
    } else {
        Status::Well
    }
}

/// Reports the present state to the watch if the command is a solve.
fn tell_solve<H: History, V: Watch>(session: &Session<H>, command: Command, watch: &mut V) {
    if let Command::Solve = command {
        watch.begun(session.present());
    }
}
