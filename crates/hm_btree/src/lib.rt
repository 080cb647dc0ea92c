//! The B-tree of the elements, over any space of pages that hold its nodes.
#![tactic(auto)]

mod change;
mod empty;
mod inner_edit;
mod insert;
mod join;
mod leaf_edit;
mod mem_space;
mod move_node;
mod near;
mod node_edit;
mod node_in;
mod node_table;
mod places;
mod remove;
mod root;
mod space;
mod store;
mod top;
mod tree;
mod uncounted;
mod upper;

pub use change::{Change, change_element};
pub use mem_space::MemSpace;
pub use node_table::NodeTable;
pub use root::insert_from;
pub use space::{NODE_BYTES, NodeSpace};
pub use top::remove_from;
pub use tree::BTree;
