//! Tests of what no contract says of runs from bytes to bytes: which replies flush, what a watch is told, that neither history refuses
//! what the other accepts, and that a text goes in one call. What runs write is tested on the built program.
#![tactic(auto)]

#[cfg(test)]
mod tests;
