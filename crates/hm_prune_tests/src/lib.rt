//! Tests of `hm_prune`, over a store in memory and over a tree.
//!
//! They stand in a crate of their own, so that the proofs of the prune are not done once more with
//! them.
#![tactic(auto)]

#[cfg(test)]
mod spans;
#[cfg(test)]
mod tests;
#[cfg(test)]
mod tree_store;
#[cfg(test)]
mod tree_tests;
