//! Texts of networks: lines, fields and numbers; sources and sinks of bytes; and problem, solution and cut texts.
#![tactic(auto)]

mod arc_line;
mod digits;
mod exact_fields;
mod fault;
mod field;
mod laws;
mod line;
mod line_buffer;
mod numbers;
mod pairs;
mod problem;
mod reader;
mod reading;
mod solution;
mod solution_reading;
mod terminal;
mod writer;
mod written;

pub use digits::{NumberFault, number};
pub use fault::{ProblemFault, ProblemFaultKind, SolutionFault, SolutionFaultKind};
pub use field::Fields;
pub use laws::accepted_is_state;
pub use line::Lines;
pub use line_buffer::{LineBuffer, LineField, line_of};
pub use problem::read_problem;
pub use reader::{Failed, Source, StdSource};
pub use solution::read_solution;
pub use writer::{Sink, StdSink, WriteFault, put_all};
pub use written::{write_cut, write_problem, write_solution};
