//! Tests of `hm_disk` and of its forms in `hm_disk_forms`: a disk in memory, and one over a file.
//!
//! They stand in a crate of their own, so that the proofs of the forms are not done once more with them.
#![tactic(auto)]

#[cfg(test)]
mod file_disk_tests;
#[cfg(test)]
mod tests;
