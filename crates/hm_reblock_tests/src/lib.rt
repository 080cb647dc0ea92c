//! Tests of `hm_reblock`, over a store in memory and over a tree.
//!
//! They stand in a crate of their own, so that the proofs of the reblock are not done once more
//! with them.
#![tactic(auto)]

#[cfg(test)]
mod loose_store;
#[cfg(test)]
mod loose_tests;
#[cfg(test)]
mod roomy;
#[cfg(test)]
mod tests;
