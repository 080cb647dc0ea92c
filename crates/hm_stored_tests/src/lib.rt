//! Tests of `hm_stored`: a store over a volume as it is made, in memory and in a file, and its flush.
//!
//! They stand in a crate of their own, so that the proofs of the store are not done once more with
//! them.
#![tactic(auto)]

#[cfg(test)]
mod flush_tests;
#[cfg(test)]
mod moving_tests;
#[cfg(test)]
mod quiet_disk;
#[cfg(test)]
mod tests;
