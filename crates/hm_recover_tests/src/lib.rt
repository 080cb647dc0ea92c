//! Tests of `hm_recover`: volumes laid out by hand, whose header names a range of entries of the UNDO log.
//!
//! They stand in a crate of their own, so that the proofs of recovery are not done once more with them.
#![tactic(auto)]

#[cfg(test)]
mod tests;
