//! Tests of plans: of draining by worked values, and of what no run calls.
#![tactic(auto)]

#[cfg(test)]
mod tests;
