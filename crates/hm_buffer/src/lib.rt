//! A disk with a buffer of the pages that were read from it, so that a short read of what was read lately
//! makes no call.
#![tactic(auto)]

mod buffered_disk;
mod held_page;
#[cfg(test)]
mod tests;

pub use buffered_disk::BufferedDisk;
