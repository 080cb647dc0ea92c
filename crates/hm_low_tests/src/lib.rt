//! Tests of the lowest crates: `hm_types`, `hm_path`, `hm_retain`, `hm_records` and `hm_node`.
//!
//! They stand in a crate of their own, so that the proofs of those crates are not done once more
//! with them.
#![tactic(auto)]

#[cfg(test)]
mod edit_tests;
#[cfg(test)]
mod node_tests;
#[cfg(test)]
mod path_tests;
#[cfg(test)]
mod plain_tests;
#[cfg(test)]
mod records_tests;
#[cfg(test)]
mod retain_tests;
#[cfg(test)]
mod types_tests;
