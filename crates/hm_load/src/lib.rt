//! Mounting's reading of a volume: both layers of the freemap, every node of the tree and each
//! payload are checked, and the pages come into a store of pages.
#![tactic(auto)]

mod laws;
mod layer1;
mod layer2;
mod payload;
mod put;
mod reading;
mod tree;
mod volume;

pub use laws::{a_whole_volume_has_no_damage, the_first_damage_is_one};
pub use reading::load;
