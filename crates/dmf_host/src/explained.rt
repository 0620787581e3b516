//! What is told on a terminal after a fault. By its words it is known from where the program reads.
use crate::arguments::words;
use crate::fault::Fault;
use dmf_arguments::{MAX_HISTORY, MAX_WORST, Mode, read_words};
use dmf_explain::{
    Origin, explain_open, explain_problem, explain_read, explain_room, explain_solution,
    explain_words,
};
use dmf_streams::EngineFault;
use std::io::IsTerminal;

/// Explains a fault on standard error, where that is a terminal.
#[inline(never)]
pub fn explain(rt: &HostRuntime, fault: &Fault) {
    if !rt.stderr().is_terminal() {
        return;
    }
    let Ok(words) = words(rt) else {
        return;
    };
    if let Fault::Usage = fault {
        explain_words(rt, &words, MAX_HISTORY, MAX_WORST);
    } else if let Ok(mode) = read_words(rt.alloc(), words) {
        explain_run(rt, &mode, fault);
    }
}

fn explain_run(rt: &HostRuntime, mode: &Mode, fault: &Fault) {
    let origin = origin_of(mode);
    match fault {
        Fault::Open => explain_open(rt, origin),
        Fault::Run(EngineFault::Problem(fault)) => {
            explain_problem(rt, before_problem(mode), origin, *fault)
        }
        Fault::Run(EngineFault::Solution(fault)) => explain_solution(rt, origin, *fault),
        Fault::Run(EngineFault::Read) => explain_read(rt, origin),
        Fault::Run(EngineFault::NoRoom) => explain_room(rt),
        _ => {}
    }
}

/// Where the problem comes from.
fn origin_of<'a>(mode: &'a Mode) -> Origin<'a> {
    match mode {
        Mode::Solve { .. } | Mode::Vital { .. } => Origin::Input,
        Mode::Session { problem, .. } | Mode::Check { problem } => Origin::File(problem.as_str()),
    }
}

/// The words before the problem's name: a check reads two texts.
fn before_problem(mode: &Mode) -> &'static str {
    match mode {
        Mode::Check { .. } => "in the problem ",
        _ => "",
    }
}
