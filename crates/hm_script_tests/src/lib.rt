//! Tests of `hm_script`: lines and the commands that they give, and scripts with their blocks or their
//! faults.
//!
//! They stand in a crate of their own, so that the proofs of the grammar are not done once more with
//! them.
#![tactic(auto)]

#[cfg(test)]
mod command_tests;
#[cfg(test)]
mod script_tests;
