//! Plans of changes of a network with a flow, solving among them: the solver of `dmf`.
#![tactic(auto)]

pub use enclosed::is_saturated_cut;
pub use fault::{CutFault, PlanFault};
pub use laws::{
    change_has_one_outcome, change_has_outcome, flow_is_greatest_or_surpassed, greatest_is_optimal,
    max_flow_min_cut, network_has_one_smallest_side, network_has_smallest_side, solved_is_greatest,
};
pub use plan::{
    NewCap, plan_add, plan_cap, plan_cap_watched, plan_close, plan_close_watched, plan_shut,
    plan_shut_watched, plan_solve, plan_solve_watched,
};
pub use residual_network::ResidualNetwork;
pub use side::{side_after, smallest_side};
pub use solve::is_greatest;
pub use watch::{Turn, Unwatched, Watch};

mod arc_flow;
mod carrying_pairs;
mod closed_side;
mod drain;
mod drained_flows;
mod enclosed;
mod fault;
mod following;
mod laws;
mod moves;
mod plan;
mod reached_flows;
mod residual;
mod residual_network;
mod shut;
mod side;
mod solve;
mod watch;
