//! The forms of a disk: one in memory, with failures and crashes at chosen calls, and one over a file.
#![tactic(auto)]

mod change;
mod crash;
mod file_disk;
mod mem_disk;
mod pages;

pub use crash::Crash;
pub use file_disk::{FileDisk, LockFile};
pub use mem_disk::MemDisk;
