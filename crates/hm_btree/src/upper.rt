// What an insertion makes of a node, which may become two.

use hm_key::Base;
use hm_node::Node;

/// The upper part of a node that became two, which is not written yet.
#[derive(Drop)]
pub struct Upper {
    /// The boundary between the two parts.
    pub left: Base,
    pub node: Node,
}

/// What an insertion made of the node in a page.
#[derive(Clone, Copy)]
pub struct Grown {
    /// Whether the node is another than it was.
    pub changed: bool,
    /// The boundary between it and its upper part, where it became two.
    pub left: Option<Base>,
}
