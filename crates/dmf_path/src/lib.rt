//! Least paths over pairs of opposite links between nodes: the search of the maximum-flow solver `dmf`.
#![tactic(auto)]

pub use aside::Ends;
pub use search::through::Passage;
pub use search::{AugmentingPath, Search};
pub use through::WaysOut;
pub use touched::{Indices, Touched};

mod aside;
mod ball;
mod course;
mod frontier;
mod label;
mod levels;
mod look;
mod lower;
mod mark;
mod meet;
mod noted;
mod open;
mod phase;
mod raise;
mod reach;
mod redirect;
mod relabel;
mod release;
mod residual;
mod room;
mod search;
mod through;
mod touched;
mod trail;
mod walk;
mod windows;
