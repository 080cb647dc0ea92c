//! Tests of `hm_btree`: the tree beside an ordered map, what its calls read and write, walks, the last
//! element up to each key, and bad pages.
//!
//! They stand in a crate of their own, so that the proofs of the tree are not done once more with
//! them.
#![tactic(auto)]

#[cfg(test)]
mod choice_tests;
#[cfg(test)]
mod damage_tests;
#[cfg(test)]
mod deep_tests;
#[cfg(test)]
mod last_tests;
#[cfg(test)]
mod split_tests;
#[cfg(test)]
mod tests;
#[cfg(test)]
mod walk_tests;
