//! Tests of `hm_flush`: flushes over a disk in memory that counts its calls, with each of them failing in turn, and
//! with a crash after each change, which is recovered from.
//!
//! They stand in a crate of their own, so that the proofs of the flush are not done once more with them.
#![tactic(auto)]

#[cfg(test)]
mod crash_tests;
#[cfg(test)]
mod flush_tests;
#[cfg(test)]
mod plain;
#[cfg(test)]
mod start;
#[cfg(test)]
mod test_disk;
#[cfg(test)]
mod volume;
