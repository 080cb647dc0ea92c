// Neighbours that become one node, or share their places out.
ghost use Rattle.std.specs.Prelude.{◌≡◌, ◌<◌, ◌↔◌, IsTrue};
ghost use Rattle.hm_types.specs.declared.limits.TheConstants.{LEAST_PLACES};
ghost use Rattle.hm_node.specs.Node.{HasLevel, count_of, level_of, node_in};
ghost use Rattle.hm_btree.specs.Shrink.{Joins, JoinsLeaves, JoinsInners};

use crate::inner_edit::{merge_inners, share_inners};
use crate::leaf_edit::{merge_leaves, share_leaves};
use crate::upper::Upper;
use hm_fields::Page;
use hm_node::{Head, Inner, Leaf, Node};
use hm_types::{LEAST_PLACES, MOST_INNER_CHILDREN, MOST_LEAF_ELEMENTS};

/// Whether the node in a page has fewer places than it should have below the root.
pub fn is_small_in(page: &Page) -> bool
    ensures { IsTrue result ↔ (count_of (node_in page.now) < LEAST_PLACES) }
{
    usize::from(Head::read(page).count) < LEAST_PLACES
}

/// Puts two neighbours of one level into one node where they fit, and shares their places out evenly
/// else. Then the upper one is given.
pub fn join(left: &mut Node, right: Node) -> Option<Upper>
    requires left { HasLevel left.old }
    requires right { HasLevel right }
    requires level { level_of left.old ≡ level_of right }
    ensures { Joins left.old right left.new result }
{
    match (left, right) {
        (Node::Leaf(left), Node::Leaf(right)) => join_leaves(left, right),
        (Node::Inner(left), Node::Inner(right)) => join_inners(left, right),
        _ => unreachable!(),
    }
}

// Joins two leaves.
fn join_leaves(left: &mut Leaf, mut right: Leaf) -> Option<Upper>
    ensures { JoinsLeaves left.old right left.new result }
{
    if left.places.len() + right.places.len() <= MOST_LEAF_ELEMENTS {
        merge_leaves(left, &right);
        return None;
    }
    share_leaves(left, &mut right);
    Some(Upper {
        left: right.places[0].base.boundary(),
        node: Node::Leaf(right),
    })
}

// Joins two inner nodes.
fn join_inners(left: &mut Inner, mut right: Inner) -> Option<Upper>
    ensures { JoinsInners left.old right left.new result }
{
    if left.places.len() + right.places.len() <= MOST_INNER_CHILDREN {
        merge_inners(left, &right);
        return None;
    }
    share_inners(left, &mut right);
    Some(Upper {
        left: left.right,
        node: Node::Inner(right),
    })
}
