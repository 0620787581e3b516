//! Sources, a sink and a watch that report on standard error how far a run is.
#![tactic(auto)]

mod limit;
mod progress;
mod word;

pub use progress::{Progress, WatchedSink, WatchedSolve, WatchedSource};
