//! Tests of `hm_header`, `hm_newfs` and `hm_load`, on disks in memory.
//!
//! They stand in a crate of their own, so that the proofs of those crates are not done once more
//! with them.
#![tactic(auto)]

#[cfg(test)]
mod change_tests;
#[cfg(test)]
mod header_tests;
#[cfg(test)]
mod load_tests;
#[cfg(test)]
mod newfs_tests;
