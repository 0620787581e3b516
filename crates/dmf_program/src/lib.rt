//! What the program's arguments ask for: the run, over any files, standard input and standard output, or a text on one of two streams.
#![tactic(auto)]

pub use files::Files;
pub use host::Host;
pub use run::{SolveAnswer, run_program, run_solving};
pub use runner::Runner;
pub use words::run_words;

mod files;
mod host;
mod run;
mod runner;
mod words;
