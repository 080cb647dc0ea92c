//! Making a volume: the bytes of an empty one are written on any disk.
#![tactic(auto)]

mod header;
mod layer;
mod tree;
mod volume;

pub use volume::write_volume;
