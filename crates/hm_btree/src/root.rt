// Insertion of an element into a tree.
ghost use Rattle.std.specs.Prelude.{◌≡◌, ◌⊎◌, ◌+◌, ◌*◌, ◌^◌, ◌<◌, ◌≤◌, IfOk, OnErr};
ghost use Rattle.hm_types.specs.Faults.{HasStoreCause};
ghost use Rattle.hm_types.specs.Space.{in_zone};
ghost use Rattle.hm_node.specs.Inner.{IsNodeOffset};
ghost use Rattle.hm_node.specs.Leaf.{IsPlaced};
ghost use Rattle.hm_node.specs.Node.{level_of, node_in};
ghost use Rattle.hm_node.specs.Shape.{HoldsNode};
ghost use Rattle.hm_search.specs.Descent.{HasSearchCause};
ghost use Rattle.hm_search.specs.Tree.{root_place};
ghost use Rattle.hm_btree.specs.Calls.Insert.{CanTop, InsertsFrom};
ghost use Rattle.hm_btree.specs.Calls.Space.{StaysWithin};
ghost use Rattle.hm_btree.specs.Grow.{AddsTop, top_of, upper_at};

use crate::insert::{insert_into, upper_page};
use crate::node_edit::{add_node, add_page, level_in, mirror_in, update_page};
use crate::space::{NODE_BYTES, NodeSpace};
use crate::upper::Grown;
use arrayvec::ArrayVec;
use hm_fields::Page;
use hm_key::{Base, Element};
use hm_node::{Child, Inner, Node};
use hm_search::{Steps, Subtree, step_into};
use hm_types::{Counted, Fault, HOff, INSERT_ROOM, MOST_LEVELS, TREE_ZONE};
use std::sync::ledger::Ledger;

/// Inserts an element into the tree from a root on, and answers the root that it then has. Takes ten
/// nodes of room at most, and asks for one node a level, nine at most.
pub fn insert_from<S: NodeSpace, L: Ledger>(
    space: &mut S,
    root: HOff,
    element: &Element,
    steps: &mut Steps<L>,
) -> Result<HOff, Fault>
    requires root { IsNodeOffset root }
    requires element { IsPlaced element.now }
    requires room { INSERT_ROOM ≤ S.room space.old TREE_ZONE }
    ensures done { IfOk result (InsertsFrom S.pages S.extents element.now
        space.old space.new root) }
    ensures steps { steps.new ≤ steps.old + 9 }
    ensures spent { StaysWithin S.HasRoom (in_zone TREE_ZONE INSERT_ROOM) space.old space.new }
    ensures cause { HasSearchCause (S.pages space.old) (root_place root)
        (S.faults space.old) (S.faults space.new) result }
{
    known_range(element);
    let place = Subtree::root(root);
    let mut page = Page::zero();
    let mut upper = None;
    step_into(space, &place, &mut page, steps)?;
    let Grown { changed, left } = insert_into(space, &mut page, &mut upper, element, steps)?;
    update_page(space, root, &page, changed)?;
    match left {
        None => Ok(root),
        Some(left) => add_root(space, &place, &page, left, &upper_page(&upper)),
    }
}

// Adds a root above the node in a page, which stands where the root stood, and one that is not written
// yet and begins at a boundary. It answers `NoMemory` where the space refuses a node, or the tree has
// nine levels already, for which no volume has enough nodes.
fn add_root<S: NodeSpace>(
    space: &mut S,
    place: &Subtree,
    lower: &Page,
    left: Base,
    upper: &Page,
) -> Result<HOff, Fault>
    requires top { CanTop place.now lower.now left upper.now }
    requires room { NODE_BYTES * 2 ≤ S.room space.old TREE_ZONE }
    ensures ok { IfOk result (AddsTop S.pages S.extents place.now (node_in lower.now)
        (upper_at left upper.now) space.old space.new) }
    ensures refused { OnErr result (S.Refusal ⊎ (MOST_LEVELS ≤ level_of (node_in lower.now))) }
    ensures spent { StaysWithin S.HasRoom (in_zone TREE_ZONE (NODE_BYTES * 2))
        space.old space.new }
    ensures cause { HasStoreCause (S.pages space.old)
        (S.faults space.old) (S.faults space.new) result }
{
    if level_in(lower) >= MOST_LEVELS {
        return Err(Fault::NoMemory);
    }
    let at = add_page(space, upper)?;
    let top = top_over(place, lower, left, upper, at);
    add_node(space, &top)
}

// The root above two nodes.
fn top_over(place: &Subtree, lower: &Page, left: Base, upper: &Page, at: HOff) -> Node
    requires lower { HoldsNode lower.now }
    requires low { level_of (node_in lower.now) ≤ 8 }
    ensures { result ≡ top_of place.now (node_in lower.now) (upper_at left upper.now) at }
{
    let mut places = ArrayVec::new();
    places.push(Child {
        left: place.left,
        child: place.at,
        mirror: mirror_in(lower),
    });
    places.push(Child {
        left,
        child: at,
        mirror: mirror_in(upper),
    });
    Node::Inner(Inner {
        level: level_in(lower) + 1,
        mirror: mirror_in(lower).max(mirror_in(upper)),
        places,
        right: place.right,
    })
}

// Does nothing, and says how wide an element's localization is.
#[inline]
fn known_range(element: &Element)
    ensures { element.now.base.localization < 2 ^ 32 }
{
    let _localization = element.base.localization;
}
