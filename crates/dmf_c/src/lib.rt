//! Sessions for C: `include/dmf.h` declares these functions, and docs/LIBRARY.md explains them.
#![tactic(auto)]

mod arrays;
mod building;
mod checking;
mod code;
mod commands;
mod flag;
mod freeing;
mod gains;
mod handle;
mod losses;
mod maximum_flow;
mod moves;
mod opening;
mod pairs;
mod plan;
mod ranges;
mod reading;
mod running;
mod slot;
mod stop;
mod stopping;
mod texts;
mod version;
mod worst;
mod writing;
