//! The bytes of files, and the holes between them, as elements of a store.
#![tactic(auto)]

mod block;
mod close;
mod cut;
mod put;
mod read;
mod search;
mod source;
mod write;

pub use close::remove_bytes;
pub use cut::resize_bytes;
pub use read::read_bytes;
pub use write::{fill_bytes, write_bytes};
