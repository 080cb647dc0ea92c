//! The objects of a pseudo file system: their inodes and the targets of softlinks, as elements of a
//! store.
#![tactic(auto)]

mod add;
mod links;
mod remove;
mod sizes;

pub use add::{add_directory, add_file, add_pfs_link, add_softlink};
pub use links::set_links;
pub use remove::remove_object;
pub use sizes::set_size;
