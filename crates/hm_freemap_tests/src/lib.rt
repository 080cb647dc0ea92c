//! Tests of `hm_freemap`: entries, places and calls on small volumes, and what calls read and change on
//! volumes of any size.
//!
//! They stand in a crate of their own, so that the proofs of the freemap are not done once more with
//! them.
#![tactic(auto)]

#[cfg(test)]
mod made;
#[cfg(test)]
mod one_page;
#[cfg(test)]
mod tests;
