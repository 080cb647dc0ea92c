//! Tests of `hm_model`: its plain program by rows of replies, and the lines that its generator
//! makes.
//!
//! They stand in a crate of their own, so that the proofs of the model are not done once more with
//! them.
#![tactic(auto)]

#[cfg(test)]
mod generator_tests;
#[cfg(test)]
mod plain_tests;
