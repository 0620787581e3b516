//! Runs that solve a problem, or check a solution of it, from bytes to bytes.
#![tactic(auto)]

pub use any_flow::{run_solve_any, run_solve_brief, solve_any, solve_from};
pub use check::run_check;
pub use laws::{any_is_optimal, written_is_optimal};
pub use solve::{Solved, run_solve, run_solve_watched};
pub use solved::{write_brief, write_side, write_solved};

mod any_flow;
mod check;
mod laws;
mod solve;
mod solved;
