//! The UNDO log of a volume: its entries, where they stand, and what an image recovers to by them.
#![tactic(auto)]

mod entry;
pub mod laws;
mod log;

pub use entry::{decode, encode};
pub use log::{entry_at, entry_place};
