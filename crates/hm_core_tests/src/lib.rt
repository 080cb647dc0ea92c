//! Tests of `hm_core`: volumes that are made, mounted, used, flushed, cut off and recovered, on disks in memory.
//!
//! They stand in a crate of their own, so that the proofs of the core are not done once more with
//! them.
#![tactic(auto)]

#[cfg(test)]
mod asks;
#[cfg(test)]
mod between;
#[cfg(test)]
mod count;
#[cfg(test)]
mod count_tests;
#[cfg(test)]
mod crash_tests;
#[cfg(test)]
mod crashes;
#[cfg(test)]
mod elements;
#[cfg(test)]
mod flush_tests;
#[cfg(test)]
mod lines;
#[cfg(test)]
mod many_tests;
#[cfg(test)]
mod memory_tests;
#[cfg(test)]
mod page_tests;
#[cfg(test)]
mod prune_crash_tests;
#[cfg(test)]
mod prune_end_tests;
#[cfg(test)]
mod prune_tests;
#[cfg(test)]
mod reblock_crash_tests;
#[cfg(test)]
mod reblock_end_tests;
#[cfg(test)]
mod reblock_tests;
#[cfg(test)]
mod run;
#[cfg(test)]
mod shared_tests;
#[cfg(test)]
mod shown;
#[cfg(test)]
mod sync_tests;
#[cfg(test)]
mod test_disk;
#[cfg(test)]
mod tests;
#[cfg(test)]
mod volume;
