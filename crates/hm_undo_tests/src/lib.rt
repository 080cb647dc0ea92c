//! Tests of `hm_undo`: entries that were laid out by hand, and where they stand.
//!
//! They stand in a crate of their own, so that the proofs of the log are not done once more with them.
#![tactic(auto)]

#[cfg(test)]
mod entry_tests;
#[cfg(test)]
mod log_tests;
