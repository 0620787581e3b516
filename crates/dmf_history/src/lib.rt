//! Histories of network states: a what-if session steps back and forth in one.
#![tactic(auto)]

pub use delta::DeltaHistory;
pub use history::{History, MAX_BOUND, NothingToUndo, RedoFault};
pub use whole::WholeHistory;

mod delta;
mod history;
mod whole;
