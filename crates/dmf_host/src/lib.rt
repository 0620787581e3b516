//! What the program does with its host beside its runs: words, files, help, faults, and its exit status.
#![tactic(auto)]

pub use arguments::words;
pub use explained::explain;
pub use fault::Fault;
pub use files::{open_problem, output};
pub use told::{exit_status, tell};

mod arguments;
mod explained;
mod fault;
mod files;
mod told;
