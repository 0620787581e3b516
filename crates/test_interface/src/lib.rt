//! Tests that use each call and each type of the four libraries `dmf_net`, `dmf_text`, `dmf_session` and `dmf_run`, as a user would: by
//! its name in these libraries, and by no other library of the repository.
#![tactic(auto)]

#[cfg(test)]
mod tests;
