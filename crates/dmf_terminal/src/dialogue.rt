//! A session at a terminal: on standard error an explanation after each refusal.
use crate::refusal::{Known, is_about_problem, refusal_advice};
use dmf_explain::{Origin, Said, text_of};
use dmf_runs::SessionWatch;
use dmf_session::{Refusal, Reply};
use dmf_solver::{Turn, Watch};
use dmf_state::State;
use dmf_vital::ValuingWatch;
use std::fs;
use std::io::IsTerminal;
use std::rt::HostRuntime;
use std::time::SystemTime;

/// A problem of at most this many bytes is read again to explain a refusal.
const MOST_READ: u64 = 67_108_864;

/// A watch of a session that explains each refusal. It passes the reports of solves, drains and valued parts on to another watch. If
/// standard error is no terminal, it writes nothing.
#[derive(Drop)]
pub struct Dialogue<'a, V> {
    rt: &'a HostRuntime,
    is_told: bool,
    /// The path of the problem, and the size and time of its file as the session began.
    path: &'a str,
    stamp: Option<(u64, SystemTime)>,
    has_added: bool,
    watch: V,
}

impl<'a, V: Watch> Dialogue<'a, V> {
    /// The dialogue of a session on the problem in the file at this path, before its first command.
    pub fn new(rt: &'a HostRuntime, path: &'a str, watch: V) -> Self {
        let is_told = rt.stderr().is_terminal();
        Dialogue {
            rt,
            is_told,
            path,
            stamp: if is_told { stamp_of(rt, path) } else { None },
            has_added: false,
            watch,
        }
    }

    fn explain(&self, refusal: Refusal, line: &[u8]) {
        let text = self.problem_for(refusal);
        let known = Known {
            text: text.as_ref().map(|text| text.as_slice()),
            has_added: self.has_added,
        };
        tell_refusal(self.rt, refusal, line, known);
    }

    /// The problem's text, if it helps and the file has not changed.
    fn problem_for(&self, refusal: Refusal) -> Option<Vec<u8>> {
        let stamp = self.stamp?;
        if is_about_problem(refusal) && stamp_of(self.rt, self.path) == Some(stamp) {
            text_of(self.rt, Origin::File(self.path), MOST_READ)
        } else {
            None
        }
    }
}

impl<V: Watch> Watch for Dialogue<'_, V> {
    fn begun(&mut self, state: &State) {
        self.watch.begun(state);
    }

    fn augmented(&mut self, value: u64, links: u32) {
        self.watch.augmented(value, links);
    }

    fn goes_on(&mut self) -> bool {
        self.watch.goes_on()
    }

    fn lowered(&mut self, turn: Turn, amount: u64) {
        self.watch.lowered(turn, amount);
    }
}

impl<V: ValuingWatch> ValuingWatch for Dialogue<'_, V> {
    fn valued(&mut self, done: usize, count: usize) -> bool {
        self.watch.valued(done, count)
    }
}

impl<V: Watch> SessionWatch for Dialogue<'_, V> {
    fn carried_out(&mut self, reply: &Reply) {
        if let Reply::Added(..) = reply {
            self.has_added = true;
        }
    }

    fn refused(&mut self, line: &[u8], refusal: Refusal) {
        if self.is_told {
            self.explain(refusal, line);
        }
    }
}

/// The size of a file, and when it was changed last.
fn stamp_of(rt: &HostRuntime, path: &str) -> Option<(u64, SystemTime)> {
    let told = fs::metadata(rt, path).ok()?;
    let modified = told.modified().ok()?;
    Some((told.len(), modified))
}

/// Writes why the session refused this command line.
fn tell_refusal(rt: &HostRuntime, reason: Refusal, line: &[u8], known: Known<'_>) {
    let said = Said(refusal_advice(reason, line, known));
    let _ = eprintln!(rt; "dmf: {said}");
}
