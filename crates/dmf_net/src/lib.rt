//! Networks with flows, changes of them, solving and cuts: the base of the maximum-flow solver `dmf`, in one crate.
#![tactic(auto)]

pub use dmf_solver::{
    CutFault, PlanFault, ResidualNetwork, Turn, Unwatched, Watch, is_greatest, plan_add, plan_cap,
    plan_close, plan_shut, plan_solve, plan_solve_watched, side_after, smallest_side,
};
pub use dmf_state::{
    Arc, Direction, Edit, FlowFault, MAX_ARCS, MAX_NODES, Move, NetFault, NoMemory, Shutting, Side,
    SideIds, State,
};
