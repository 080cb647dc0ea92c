//! The elements of the B-tree, their order, and what a store of elements and extents promises.
#![tactic(auto)]

mod base;
#[cfg(test)]
mod callers;
mod element;
mod element_list;
mod extent_list;
mod extents;
mod held;
mod job;
mod laws;
#[cfg(test)]
mod log_owner;
#[cfg(test)]
mod log_store;
mod mark_list;
mod memory;
mod rec_type;
mod room;
mod rooms;
mod store;
#[cfg(test)]
mod sweep;
#[cfg(test)]
mod tests;
#[cfg(test)]
mod toy_disk;

pub use base::{BOUNDARY, Base, ELEMENT};
pub use element::{Element, is_element};
pub use extents::Extents;
pub use job::{Job, Progress};
pub use laws::{
    keys_are_between_the_boundaries, keys_are_in_total_order, moved_elements_leave_balance,
};
pub use memory::MemStore;
pub use rec_type::{
    DIRECTORY_ENTRY, FILE_BYTES, INODE, INODE_PART, OTHER_PART, PFS_RECORD, SNAPSHOT,
    SOFTLINK_TARGET,
};
pub use room::HasRoom;
pub use store::{ElementStore, HasElements};
