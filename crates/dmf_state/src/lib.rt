//! Networks with flows, sets of nodes that are cuts, and edits: the base of the maximum-flow solver `dmf`.
#![tactic(auto)]

pub use arc::Arc;
pub use edit::{Edit, Move, Shutting};
pub use fault::{ArcFault, FlowFault, NetFault, NoMemory};
pub use laws::{edit_has_one_state_before, reverting_gives_back};
pub use limits::{MAX_ARCS, MAX_NODES};
pub use moves::Direction;
pub use side::Side;
pub use side_ids::SideIds;
pub use state::State;

mod arc;
mod edit;
mod fault;
mod flow_sums;
mod laws;
mod limits;
mod moves;
mod revert;
mod side;
mod side_ids;
mod state;
