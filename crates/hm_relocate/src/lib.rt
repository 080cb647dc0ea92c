//! The units of a reblock over the store of a volume in use: payloads and nodes of the tree move out of
//! big-blocks that are sparsely filled, so that these become free.
#![tactic(auto)]

mod choosing;
mod ending;
mod moving;
mod relocation;

pub use choosing::choose;
pub use relocation::Relocation;
