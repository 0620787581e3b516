//! Sessions on networks: commands, and their replies on a history.
#![tactic(auto)]

pub use command::{Command, Refusal, Reply};
pub use dmf_history::{DeltaHistory, History, MAX_BOUND, NothingToUndo, RedoFault, WholeHistory};
pub use dmf_solver::greatest_is_optimal;
pub use laws::{change_is_undone, command_has_answer, command_has_one_answer, solved_is_optimal};
pub use session::Session;

mod command;
mod kept;
mod laws;
mod session;
