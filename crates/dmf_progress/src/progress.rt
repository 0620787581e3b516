//! Reports on standard error how far a run is. On a terminal that is one line: each report replaces the one before it, and the program
//! erases the line before it answers or asks for more. Elsewhere each report is a line of its own. If a report cannot be written, the
//! run goes on.
ghost use Rattle.std.specs.Prelude.{◌≡◌};

use crate::limit::value_limit;
use crate::word::Word;
use dmf_solver::{Turn, Watch};
use dmf_state::State;
use dmf_text::{Failed, Sink, Source};
use dmf_vital::ValuingWatch;
use std::cell::Cell;
use std::fs;
use std::io::IsTerminal;
use std::rt::HostRuntime;
use std::time::{Duration, Instant};

/// How long a task is silent at first if nobody asked for progress, in milliseconds.
const PATIENCE: u64 = 500;

/// The least time between two reports, in milliseconds.
const PAUSE: u64 = 250;

/// One call in this many looks at the clock.
const CALLS: u64 = 64;

/// The path of the file on standard input.
const INPUT: &str = "/proc/self/fd/0";

/// The line on standard error. It says how far a task is: reading a text, solving, draining, valuing, or writing an answer.
#[derive(Drop)]
pub struct Progress<'a> {
    rt: &'a HostRuntime,
    /// Whether standard error is a terminal, on which a report can be replaced.
    is_terminal: bool,
    /// How many milliseconds a task goes on before its first report. `None` if there are no reports at all.
    patience: Option<u64>,
    /// When the next report may come.
    due: Cell<Option<Instant>>,
    is_shown: Cell<bool>,
    /// Whether a task has begun that has not ended.
    is_busy: Cell<bool>,
}

impl<'a> Progress<'a> {
    /// An empty line. If progress was asked for, a task's first report comes at once. Otherwise it comes after half a second, and only
    /// on a terminal.
    pub fn new(rt: &'a HostRuntime, is_asked_for: bool) -> Self {
        let is_terminal = rt.stderr().is_terminal();
        let patience = if is_asked_for {
            Some(0)
        } else if is_terminal {
            Some(PATIENCE)
        } else {
            None
        };
        Progress {
            rt,
            is_terminal,
            patience,
            due: Cell::new(None),
            is_shown: Cell::new(false),
            is_busy: Cell::new(false),
        }
    }

    /// The size of the file at this path in bytes, if there are reports and the file is a regular one.
    fn size_of(&self, path: &str) -> Option<u64> {
        self.patience?;
        match fs::metadata(self.rt, path) {
            Ok(told) if told.is_file() => Some(told.len()),
            _ => None,
        }
    }

    /// An upper bound of the value of this network's flows, if there are reports.
    fn most_of(&self, state: &State) -> Option<u64> {
        self.patience?;
        Some(value_limit(state))
    }

    /// Begins a task, unless one goes on.
    fn begin(&self) {
        if self.is_busy.get() {
            return;
        }
        self.is_busy.set(true);
        if let Some(patience) = self.patience {
            self.due.set(after(self.rt, patience));
        }
    }

    /// Ends the task, and erases the line, if there is one.
    pub fn end(&self) {
        self.is_busy.set(false);
        if self.is_shown.get() {
            self.is_shown.set(false);
            let _ = eprint!(self.rt; "\r\x1b[K");
        }
    }

    /// Writes a report.
    fn tell(&self, word: Word) {
        if self.is_terminal {
            self.is_shown.set(true);
            let _ = eprint!(self.rt; "\r\x1b[K{word}");
        } else {
            let _ = eprintln!(self.rt; "{word}");
        }
    }

    /// Whether it is time for a report. If it is, the next one has to wait for a pause.
    fn is_due(&self) -> bool {
        let Some(due) = self.due.get() else {
            return false;
        };
        let Ok(now) = Instant::now(self.rt) else {
            return false;
        };
        if now < due {
            return false;
        }
        self.due.set(after(self.rt, PAUSE));
        true
    }
}

/// The time this many milliseconds from now, if the clock can be read.
fn after(rt: &HostRuntime, wait: u64) -> Option<Instant> {
    Instant::now(rt)
        .ok()?
        .checked_add(Duration::from_millis(wait))
}

/// A source that reports how much of a text is read, unless somebody types it. A source of commands erases the line before it reads more
/// of them instead.
#[derive(Drop)]
pub struct WatchedSource<'a, S> {
    source: S,
    progress: &'a Progress<'a>,
    is_told: bool,
    /// Whether a read ends the task, since the program then waits for a command.
    ends_task: bool,
    bytes: u64,
    /// The size of the text in bytes, if it is known.
    size: Option<u64>,
}

impl<'a, S: Source> WatchedSource<'a, S> {
    /// The source of a text that is in the file at this path.
    pub fn of_file(source: S, path: &str, progress: &'a Progress<'a>) -> Self {
        WatchedSource {
            source,
            progress,
            is_told: true,
            ends_task: false,
            bytes: 0,
            size: progress.size_of(path),
        }
    }

    /// The source of a text on standard input. At a terminal there are no reports between the lines that somebody types.
    pub fn of_input(source: S, progress: &'a Progress<'a>) -> Self {
        WatchedSource {
            source,
            progress,
            is_told: !progress.rt.stdin().is_terminal(),
            ends_task: false,
            bytes: 0,
            size: progress.size_of(INPUT),
        }
    }

    /// The source of commands.
    pub fn of_commands(source: S, progress: &'a Progress<'a>) -> Self {
        WatchedSource {
            source,
            progress,
            is_told: false,
            ends_task: true,
            bytes: 0,
            size: None,
        }
    }
}

impl<S: Source> Source for WatchedSource<'_, S> {
    ghost left = { λ s. S.left s.source };

    fn read(&mut self, buffer: &mut [u8]) -> Result<usize, Failed> {
        if self.ends_task {
            self.progress.end();
        }
        if !self.is_told {
            return self.source.read(buffer);
        }
        self.progress.begin();
        let given = self.source.read(buffer)?;
        self.bytes = self.bytes.saturating_add(given as u64);
        if given > 0 && self.progress.is_due() {
            self.progress.tell(Word::Reading {
                bytes: self.bytes,
                size: self.size,
            });
        }
        Ok(given)
    }
}

/// A watch that reports how far a solve or a drain is, or how many parts are valued.
#[derive(Drop)]
pub struct WatchedSolve<'a> {
    progress: &'a Progress<'a>,
    /// An upper bound of the value, if it is known.
    most: Option<u64>,
    paths: u64,
    phases: u32,
    /// The number of links of the last path of a solve.
    links: u32,
    /// The arc whose flow the last path of a drain lowered.
    place: usize,
    /// How much flow the drain has taken off.
    taken: u64,
    /// How many times a call that values parts has asked whether it may go on.
    asked: u64,
}

impl<'a> WatchedSolve<'a> {
    /// A watch before the first path.
    pub fn new(progress: &'a Progress<'a>) -> Self {
        WatchedSolve {
            progress,
            most: None,
            paths: 0,
            phases: 0,
            links: 0,
            place: 0,
            taken: 0,
            asked: 0,
        }
    }
}

impl Watch for WatchedSolve<'_> {
    fn begun(&mut self, state: &State) {
        self.progress.begin();
        *self = WatchedSolve::new(self.progress);
        self.most = self.progress.most_of(state);
    }

    fn augmented(&mut self, value: u64, links: u32) {
        let is_new_phase = links != self.links;
        self.paths = self.paths.saturating_add(1);
        self.phases = self.phases.saturating_add(u32::from(is_new_phase));
        self.links = links;
        if (is_new_phase || self.paths % CALLS == 1) && self.progress.is_due() {
            self.progress.tell(Word::Solving {
                value,
                most: self.most,
                phases: self.phases,
                paths: self.paths,
            });
        }
    }

    fn lowered(&mut self, turn: Turn, amount: u64) {
        if !self.progress.is_busy.get() {
            self.progress.begin();
            *self = WatchedSolve::new(self.progress);
        }
        let is_next_arc = turn.place != self.place;
        self.paths = self.paths.saturating_add(1);
        self.place = turn.place;
        self.taken = self.taken.saturating_add(amount);
        if (is_next_arc || self.paths % CALLS == 1) && self.progress.is_due() {
            self.progress.tell(Word::Draining {
                place: turn.place,
                count: turn.count,
                taken: self.taken,
            });
        }
    }
}

impl ValuingWatch for WatchedSolve<'_> {
    fn valued(&mut self, done: usize, count: usize) -> bool {
        self.progress.begin();
        self.asked = self.asked.saturating_add(1);
        if self.asked % CALLS == 1 && self.progress.is_due() {
            self.progress.tell(Word::Valuing { done, count });
        }
        true
    }
}

/// A sink that erases the line before the first byte of an answer. Then it reports how much of the answer is written, unless that goes
/// to the terminal.
#[derive(Drop)]
pub struct WatchedSink<'a, W> {
    sink: W,
    progress: &'a Progress<'a>,
    is_told: bool,
    bytes: u64,
    puts: u64,
}

impl<'a, W: Sink> WatchedSink<'a, W> {
    /// A sink into this one.
    pub fn new(sink: W, progress: &'a Progress<'a>) -> Self {
        WatchedSink {
            sink,
            progress,
            is_told: !progress.rt.stdout().is_terminal(),
            bytes: 0,
            puts: 0,
        }
    }
}

impl<W: Sink> Sink for WatchedSink<'_, W> {
    ghost written = { λ s. W.written s.sink };

    fn put(&mut self, bytes: &[u8]) -> Result<usize, Failed> {
        if self.puts == 0 {
            self.progress.end();
            self.progress.begin();
        }
        self.puts = self.puts.saturating_add(1);
        let taken = self.sink.put(bytes)?;
        self.bytes = self.bytes.saturating_add(taken as u64);
        if self.is_told && self.puts % CALLS == 0 && self.progress.is_due() {
            self.progress.tell(Word::Writing { bytes: self.bytes });
        }
        Ok(taken)
    }

    fn flush(&mut self) -> Result<(), Failed> {
        self.progress.end();
        self.bytes = 0;
        self.puts = 0;
        self.sink.flush()
    }
}
