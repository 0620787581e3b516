//! The runs of `dmf` over any reader and writer: from the bytes that come in to the bytes that go out.
#![tactic(auto)]

pub use command_text::read_command;
pub use dmf_solving::{run_check, run_solve, run_solve_watched, written_is_optimal};
pub use dmf_streams::{EngineFault, MAX_BYTES, MAX_LINE, Status, status_of};
pub use laws::{
    command_text_has_one_run, command_text_has_run, million_is_never_forgotten, solves_are_optimal,
    steps_are_answers,
};
pub use refusal::refusal_text;
pub use reply::SolveReply;
pub use session::{
    MAX_LINES, run_commands, run_commands_watched, run_session, run_session_bounded,
    run_session_watched,
};
pub use watch::SessionWatch;

mod command_text;
mod laws;
mod refusal;
mod reply;
mod session;
mod watch;
