//! Tests of `hm_search`: searches in a tree of three levels that is written by hand, and what each
//! damage in it is told as.
//!
//! They stand in a crate of their own, so that the proofs of the search are not done once more with them.
#![tactic(auto)]

#[cfg(test)]
mod damage_tests;
#[cfg(test)]
mod search_tests;
#[cfg(test)]
mod tree;
