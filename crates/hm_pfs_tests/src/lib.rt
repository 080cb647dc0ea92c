//! Tests of `hm_pfs`, over a tree, and over a store of many records.
//!
//! They stand in a crate of their own, so that the proofs of hm_pfs are not done once more with
//! them.
#![tactic(auto)]

#[cfg(test)]
mod numbers;
#[cfg(test)]
mod tests;
#[cfg(test)]
mod tree_store;
