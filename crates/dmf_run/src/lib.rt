//! A front for callers: the runs of `dmf` over any reader and writer, and the program's arguments that ask for them.
#![tactic(auto)]

pub use dmf_arguments::{
    Arguments, MAX_HISTORY, MAX_WORST, Mode, Parts, WordsFault, read_arguments, read_words,
};
pub use dmf_runs::{
    EngineFault, MAX_BYTES, MAX_LINE, MAX_LINES, SessionWatch, SolveReply, Status, read_command,
    refusal_text, run_check, run_commands, run_commands_watched, run_session, run_session_bounded,
    run_session_watched, run_solve, run_solve_watched, status_of,
};
pub use dmf_solving::{run_solve_any, run_solve_brief};
pub use dmf_valuing::{
    ValuingWatch, run_vital, run_vital_nodes, run_vital_second, run_vital_worst,
    run_vital_worst_nodes, run_vital_worst_pairs,
};
