//! Tests of what arcs are worth: losses by worked values, and on random networks beside closing and solving. And of what a watch of them hears.
#![tactic(auto)]

#[cfg(test)]
mod pair_tests;
#[cfg(test)]
mod tests;
#[cfg(test)]
mod watch_tests;
