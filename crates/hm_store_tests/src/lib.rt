//! Tests of what is read and written over a store of elements, on stores in memory: `hm_cursor`,
//! `hm_objects`, `hm_dirs`, `hm_files` and `hm_view`.
//!
//! They stand in a crate of their own, so that the proofs of those crates are not done once more
//! with them.
#![tactic(auto)]

#[cfg(test)]
mod append_tests;
#[cfg(test)]
mod cursor_tests;
#[cfg(test)]
mod cut_tests;
#[cfg(test)]
mod dirs_tests;
#[cfg(test)]
mod find_tests;
#[cfg(test)]
mod metered;
#[cfg(test)]
mod names_tests;
#[cfg(test)]
mod objects_tests;
#[cfg(test)]
mod random_tests;
#[cfg(test)]
mod read_tests;
#[cfg(test)]
mod stores;
#[cfg(test)]
mod view_tests;
#[cfg(test)]
mod walk_tests;
