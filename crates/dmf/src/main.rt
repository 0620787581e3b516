//! The program `dmf`: opens what its words and a run need, calls what does what they ask for, and exits with its status.
#![tactic(auto)]

ghost use Rattle.std.specs.Prelude.{IfErr};
ghost use Rattle.dmf_arguments.specs.Words.{HasBound, task_of};
ghost use Rattle.dmf_host.specs.Ending.{IsUnopened};
ghost use Rattle.dmf_program.specs.Program.{MayRun};

use dmf_arguments::{Arguments, MAX_HISTORY, Mode};
use dmf_explain::{help_without_page, invite};
use dmf_host::{Fault, explain, open_problem, output, tell, words};
use dmf_program::{Files, Host, Runner, run_program, run_words};
use dmf_progress::{Progress, WatchedSink, WatchedSolve, WatchedSource};
use dmf_session::MAX_BOUND;
use dmf_streams::Status;
use dmf_terminal::Dialogue;
use dmf_text::{StdSink, StdSource};
use std::fs::File;
use std::io;
use std::io::Write;
use std::process::ExitCode;
use std::rt::{HostRuntime, Stdin};

// The arguments can ask for each history that a session can keep, and for no other.
const _: () = prove!(MAX_HISTORY == MAX_BOUND);

fn main(rt: HostRuntime) -> ExitCode {
    let mut out = StdSink::new(WholeWrites {
        writer: rt.stdout(),
    });
    let mut err = StdSink::new(WholeWrites {
        writer: rt.stderr(),
    });
    let runner = SystemRunner { rt: &rt };
    let system = System { rt: &rt };
    let status = run_words(rt.alloc(), words(&rt), runner, &system, &mut out, &mut err);
    ExitCode::from(status)
}

/// A writer whose writes take all bytes, and go on where a signal interrupts them.
#[derive(Drop)]
struct WholeWrites<W> {
    writer: W,
}

impl<W: Write> Write for WholeWrites<W> {
    fn write(&mut self, bytes: &[u8]) -> io::Result<usize> {
        self.writer.write_all(bytes)?;
        Ok(bytes.len())
    }

    fn flush(&mut self) -> io::Result<()> {
        self.writer.flush()
    }
}

/// What runs a task over the program's files and streams.
#[derive(Drop)]
struct SystemRunner<'a> {
    rt: &'a HostRuntime,
}

impl<'a> Runner for SystemRunner<'a> {
    ghost runs = { λ _. MayRun };

    fn run(self, asked: &Arguments) -> Result<Status, Fault> {
        run_asked(self.rt, asked)
    }
}

/// The system on which the program runs.
#[derive(Drop)]
struct System<'a> {
    rt: &'a HostRuntime,
}

impl<'a> Host for System<'a> {
    fn lacks_page(&self, help: &str) -> bool {
        lacks_page(self.rt, help)
    }

    fn tell(&self, fault: &Fault) {
        tell_fault(self.rt, fault);
    }
}

/// Whether the help is for a terminal, and names a manual page that is not found. It has a frame of its own, of some kilobytes, so that a
/// run does not have it on its stack.
#[inline(never)]
fn lacks_page(rt: &HostRuntime, help: &str) -> bool {
    help_without_page(rt, help).is_some()
}

/// Tells why the program gives no answer, and explains it on a terminal.
fn tell_fault(rt: &HostRuntime, fault: &Fault) {
    // If this cannot be written, the exit status still says it.
    let _ = tell(rt, fault);
    explain(rt, fault);
}

/// Runs what the arguments ask for, over the files of the program.
#[inline(never)]
fn run_asked(rt: &HostRuntime, asked: &Arguments) -> Result<Status, Fault>
    requires { HasBound asked.now.mode }
    ensures { MayRun (task_of asked.now) result }
{
    let out = output(rt)?;
    if let Mode::Solve { .. } | Mode::Vital { .. } = asked.mode {
        invite(rt);
    }
    let progress = Progress::new(rt, asked.progress);
    let files = ProblemFiles {
        rt,
        progress: &progress,
    };
    let mut input = input_for(&asked.mode, rt, &progress);
    let mut out = WatchedSink::new(out, &progress);
    let mut watch = Dialogue::new(rt, path_in(&asked.mode), WatchedSolve::new(&progress));
    let outcome = run_program(rt.alloc(), asked, &files, &mut input, &mut out, &mut watch);
    progress.end();
    outcome
}

/// The files of problems, whose reading is reported.
#[derive(Drop)]
struct ProblemFiles<'a> {
    rt: &'a HostRuntime,
    progress: &'a Progress<'a>,
}

impl<'a> Files<WatchedSource<'a, StdSource<File>>> for ProblemFiles<'a> {
    ghost use Rattle.dmf_program.specs.Program.{AnyFile};

    ghost opens = { λ _. AnyFile };

    fn open(&self, path: &str) -> Result<WatchedSource<'a, StdSource<File>>, Fault> {
        open_watched(self.rt, path, self.progress)
    }
}

/// Opens the problem's file.
fn open_watched<'a>(
    rt: &HostRuntime,
    path: &str,
    progress: &'a Progress<'a>,
) -> Result<WatchedSource<'a, StdSource<File>>, Fault>
    ensures { IfErr result IsUnopened }
{
    let file = StdSource::new(open_problem(rt, path)?);
    Ok(WatchedSource::of_file(file, path, progress))
}

/// Standard input, from which a session reads commands, and any other run a text.
fn input_for<'a>(
    mode: &Mode,
    rt: &HostRuntime,
    progress: &'a Progress<'a>,
) -> WatchedSource<'a, StdSource<Stdin>> {
    let input = StdSource::new(rt.stdin());
    match mode {
        Mode::Session { .. } => WatchedSource::of_commands(input, progress),
        _ => WatchedSource::of_input(input, progress),
    }
}

/// The path of the problem's file. A run that reads its problem from standard input has none.
fn path_in(mode: &Mode) -> &str {
    match mode {
        Mode::Session { problem, .. } | Mode::Check { problem } => problem.as_str(),
        Mode::Solve { .. } | Mode::Vital { .. } => "",
    }
}
