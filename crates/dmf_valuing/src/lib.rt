//! Runs that tell what a network can carry without each of its parts, from bytes to bytes.
#![tactic(auto)]

pub use dmf_vital::ValuingWatch;
pub use laws::{
    arcs_have_one_text, nodes_have_one_text, seconds_have_one_text, worst_arcs_have_one_text,
    worst_nodes_have_one_text, worst_pairs_have_one_text,
};
pub use vital::{
    run_vital, run_vital_nodes, run_vital_second, run_vital_worst, run_vital_worst_nodes,
    run_vital_worst_pairs,
};

mod finding;
mod laws;
mod parts;
mod rows;
mod vital;
