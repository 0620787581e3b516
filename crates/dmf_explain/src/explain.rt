//! Explains on standard error, if that is a terminal, why a run failed or the program refuses its words. What cannot be written is left
//! out.
ghost use Rattle.std.specs.Prelude.{◌≡◌, ◌≢◌, Err, IsTrue};
ghost use Rattle.dmf_text.specs.Problem.{problem_of, out_of_memory};

use crate::part::Shown;
use crate::place::Place;
use crate::problem::problem_advice;
use crate::solution::solution_advice;
use crate::usage::{Meant, meant_by};
use dmf_text::{ProblemFault, SolutionFault, read_problem, read_solution};
use std::fs;
use std::fs::File;
use std::io::IsTerminal;
use std::path::PathBuf;
use std::rt::HostRuntime;

/// The path of the file on standard input.
const INPUT: &str = "/proc/self/fd/0";

/// A text of at most so many bytes is read again to explain its fault.
const MOST_READ: u64 = 1_073_741_824;

/// What is told where a network has no room for second arcs.
const ROOM: &str = "Each gain is found with four more arcs like the arc. They fit where the network
has at most 26843545 arcs, with capacities of at most 3689348814741910323 in
all. Try single arcs in a session: add FROM TO CAP, then solve.";

/// Where a text came from.
#[derive(Clone, Copy)]
pub enum Origin<'a> {
    /// The file at this path.
    File(&'a str),
    /// Standard input.
    Input,
}

/// Explains a fault of a problem text. The words `before` stand before the name of the text. Looks at its lines only if the text can be
/// read again and still has the fault.
pub fn explain_problem(
    rt: &HostRuntime,
    before: &'static str,
    origin: Origin<'_>,
    fault: ProblemFault,
) {
    let read = text_of(rt, origin, MOST_READ);
    let text = match &read {
        Some(text) if has_fault(rt, text, fault) => Some(text.as_slice()),
        _ => None,
    };
    let input = input_name(rt, origin, text.is_some());
    let place = Place {
        before,
        name: name_of(origin, &input),
        line: fault.line,
    };
    let advice = problem_advice(fault, text);
    let _ = eprintln!(rt; "{place}{advice}");
}

/// Explains a fault of a solution on standard input. `problem` says where its problem comes from.
pub fn explain_solution(rt: &HostRuntime, problem: Origin<'_>, fault: SolutionFault) {
    let read = text_of(rt, Origin::Input, MOST_READ);
    let text = match &read {
        Some(text) if has_solution_fault(rt, problem, text, fault) => Some(text.as_slice()),
        _ => None,
    };
    let input = input_name(rt, Origin::Input, text.is_some());
    let place = Place {
        before: if input.is_some() {
            "in the solution "
        } else {
            "in the solution, "
        },
        name: name_of(Origin::Input, &input),
        line: fault.line,
    };
    let advice = solution_advice(fault, text);
    let _ = eprintln!(rt; "{place}{advice}");
}

/// Explains why the file of a problem cannot be opened.
pub fn explain_open(rt: &HostRuntime, origin: Origin<'_>) {
    let path = origin_path(origin);
    let shown = Shown(path.as_bytes());
    if let Err(error) = File::open(rt, path) {
        let _ = eprintln!(rt; "{shown}: {error}");
    }
}

/// Explains what second arcs need, and what can be done without them.
pub fn explain_room(rt: &HostRuntime) {
    let _ = eprintln!(rt; "{ROOM}");
}

/// Explains why a read failed, if what was read is a folder.
pub fn explain_read(rt: &HostRuntime, origin: Origin<'_>) {
    let path = origin_path(origin);
    let is_folder = matches!(fs::metadata(rt, path), Ok(told) if told.is_dir());
    if !is_folder {
        return;
    }
    let input = input_name(rt, origin, true);
    let shown = Shown(
        name_of(origin, &input)
            .unwrap_or("standard input")
            .as_bytes(),
    );
    let _ = eprintln!(rt; "{shown} is a folder");
}

/// Explains words that the program refuses, by what they may mean. A file named where no file belongs has to exist, unless it stands
/// after `solve`. The numbers are the largest of `--history` and of `--worst`.
pub fn explain_words(rt: &HostRuntime, words: &[String], history: u32, worst: u32) {
    if let Some(meant) = meant_by(words, history, worst) {
        if is_likely(rt, words, meant) {
            let _ = eprintln!(rt; "{meant}");
        }
    }
}

/// Whether the words have this meaning. If there is one word only, it has to be a file that exists.
fn is_likely(rt: &HostRuntime, words: &[String], meant: Meant<'_>) -> bool {
    match meant {
        Meant::Solve { file, .. } if words.len() == 2 => {
            matches!(fs::metadata(rt, file), Ok(told) if told.is_file())
        }
        _ => true,
    }
}

/// Says that the program reads a problem from the terminal, if it does.
pub fn invite(rt: &HostRuntime) {
    if rt.stdin().is_terminal() && rt.stderr().is_terminal() {
        let _ = eprintln!(rt;
            "dmf: reads a problem from the terminal; Ctrl-D ends it (dmf --help says more)"
        );
    }
}

fn origin_path<'a>(origin: Origin<'a>) -> &'a str {
    match origin {
        Origin::File(path) => path,
        Origin::Input => INPUT,
    }
}

/// The size of a regular file, in bytes.
fn file_size(rt: &HostRuntime, origin: Origin<'_>) -> Option<u64> {
    match fs::metadata(rt, origin_path(origin)) {
        Ok(told) if told.is_file() => Some(told.len()),
        _ => None,
    }
}

/// The text of a regular file of at most so many bytes.
pub fn text_of(rt: &HostRuntime, origin: Origin<'_>, most: u64) -> Option<Vec<u8>> {
    if file_size(rt, origin)? > most {
        return None;
    }
    fs::read(rt, origin_path(origin)).ok()
}

/// Whether this is the first fault of the problem text.
fn has_fault(rt: &HostRuntime, text: &[u8], fault: ProblemFault) -> bool
    ensures { IsTrue result → fault ≢ out_of_memory → problem_of text.now ≡ Err fault }
{
    match read_problem(rt.alloc(), text) {
        Ok(_) => false,
        Err(found) => found == fault,
    }
}

/// Whether this is the first fault of the solution text, for the problem that comes from there.
fn has_solution_fault(
    rt: &HostRuntime,
    problem: Origin<'_>,
    text: &[u8],
    fault: SolutionFault,
) -> bool {
    let Some(problem) = text_of(rt, problem, MOST_READ) else {
        return false;
    };
    match read_problem(rt.alloc(), &problem) {
        Ok(state) => match read_solution(rt.alloc(), text, &state) {
            Ok(_) => false,
            Err(found) => found == fault,
        },
        Err(_) => false,
    }
}

/// The name of the file on standard input, if the text is the content of a file.
fn input_name(rt: &HostRuntime, origin: Origin<'_>, is_file: bool) -> Option<PathBuf> {
    match origin {
        Origin::Input if is_file => fs::read_link(rt, INPUT).ok(),
        _ => None,
    }
}

/// The name of a text in an explanation: its path, or the last part of the path of the file on standard input.
fn name_of<'a>(origin: Origin<'a>, input: &'a Option<PathBuf>) -> Option<&'a str> {
    match (origin, input) {
        (Origin::File(path), _) => Some(path),
        (Origin::Input, Some(path)) => Some(last_part(path.as_str())),
        (Origin::Input, None) => None,
    }
}

/// The part of a path after its last slash.
fn last_part(path: &str) -> &str {
    match path.rsplit_once('/') {
        Some((_, last)) => last,
        None => path,
    }
}
