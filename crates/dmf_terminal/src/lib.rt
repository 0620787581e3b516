//! A session at a terminal: an explanation after each refusal.
#![tactic(auto)]

mod commands;
mod dialogue;
mod refusal;

pub use dialogue::Dialogue;
