//! Tests of `hm_calls`: the rows of the manual, refusals in their order, scripts at random beside
//! the plain program, and what calls cost.
//!
//! They stand in a crate of their own, so that the proofs of the calls are not done once more with
//! them.
#![tactic(auto)]

#[cfg(test)]
mod byte_script_tests;
#[cfg(test)]
mod byte_tests;
#[cfg(test)]
mod count_tests;
#[cfg(test)]
mod fault_tests;
#[cfg(test)]
mod hash_tests;
#[cfg(test)]
mod lines;
#[cfg(test)]
mod metered;
#[cfg(test)]
mod new_system_tests;
#[cfg(test)]
mod past_trees;
#[cfg(test)]
mod prune_tests;
#[cfg(test)]
mod random_tests;
#[cfg(test)]
mod refusal_tests;
#[cfg(test)]
mod slave_tests;
#[cfg(test)]
mod status_tests;
#[cfg(test)]
mod system_tests;
#[cfg(test)]
mod testing;
#[cfg(test)]
mod tests;
