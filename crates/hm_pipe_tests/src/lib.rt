//! Tests of `hm_pipe`: each source and sink, and a copy of what is left of any source into any sink.
//!
//! They stand in a crate of their own, so that the proofs of the forms are not done once more with them.
#![tactic(auto)]

#[cfg(test)]
mod copy_tests;
#[cfg(test)]
mod file_tests;
#[cfg(test)]
mod mem_tests;
#[cfg(test)]
mod std_tests;
