//! What a run reads and writes, whatever it does: whole texts, lines, the end of each reply, and how the run ends.
#![tactic(auto)]

pub use fault::{EngineFault, Status, status_of};
pub use input::{Input, MAX_BYTES, Next};
pub use kept_line::{KeptLine, MAX_LINE};
pub use problem::read_state;
pub use whole_text::read_all;
pub use writing::{flush, put_line, write_line};

mod fault;
mod input;
mod kept_line;
mod problem;
mod whole_text;
mod writing;
