//! Tests of the engine, and of solves that begin at its flows or at wrong ones.
#![tactic(auto)]

#[cfg(test)]
mod tests;
