//! The nodes of the B-tree, as pages of 4,096 bytes.
//!
//! `encode` writes a node into a page, and `decode` reads it and tells the first rule that a page
//! breaks. Neither takes memory.
#![tactic(auto)]

mod base;
mod edit;
mod head;
mod inner;
mod laws;
mod leaf;
mod node;
mod node_pages;
mod places;
mod rule;

pub use base::read_base;
pub use edit::{insert_element, put_delete, put_payload, remove_element, set_mirror};
pub use head::{Head, INNER, LEAF, LEAF_LEVEL};
pub use inner::{Child, Inner, is_node_offset, read_child};
pub use laws::{
    node_has_one_page, one_kind_is_the_lowest, page_spells_one_node, sound_page_holds_its_node,
    sound_page_spells_its_node, spelled_node_is_sound,
};
pub use leaf::{Leaf, read_element};
pub use node::{Node, broken_rule, decode, encode, node_of};
pub use node_pages::NodePages;
pub use places::{is_before, order_at, place};
pub use rule::Rule;
