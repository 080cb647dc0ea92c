// What leaves and inner nodes have in common.
ghost use Rattle.std.specs.Prelude.{◌≡◌, ◌≤◌, IfOk, OnOk, OnErr};
ghost use Rattle.hm_types.specs.Told.{BothTell};
ghost use Rattle.hm_types.specs.Faults.{HasStoreCause};
ghost use Rattle.hm_node.specs.Inner.{IsNodeOffset};
ghost use Rattle.hm_node.specs.Node.{level_of, node_in};
ghost use Rattle.hm_node.specs.Shape.{HoldsNode};
ghost use Rattle.hm_search.specs.Place.{mirror_of};
ghost use Rattle.hm_types.specs.Space.{in_zone};
ghost use Rattle.hm_btree.specs.Calls.Space.{Stays, StaysWithin};
ghost use Rattle.hm_btree.specs.Shape.{IsShaped};
ghost use Rattle.hm_btree.specs.Space.{AddsNode, HasWritten, IsUpdated};

use crate::space::{NODE_BYTES, NodeSpace};
use hm_fields::Page;
use hm_node::{Head, Node, encode};
use hm_types::{Fault, HOff, TREE_ZONE};

/// The `mirror` of a node.
pub fn mirror(node: &Node) -> u64
    ensures { result ≡ mirror_of node.now }
{
    match node {
        Node::Leaf(leaf) => leaf.mirror,
        Node::Inner(inner) => inner.mirror,
    }
}

/// Writes a node to its page.
pub fn write_node<S: NodeSpace>(space: &mut S, at: HOff, node: &Node) -> Result<(), Fault>
    requires at { IsNodeOffset at }
    requires node { IsShaped node.now }
    ensures ok { OnOk result
        (BothTell (S.pages space.old) (S.pages space.new) (HasWritten at node.now)) }
    ensures rest { S.rest space.new ≡ S.rest space.old }
    ensures stays { Stays S.Counted space.old space.new }
    ensures cause { HasStoreCause (S.pages space.old)
        (S.faults space.old) (S.faults space.new) result }
{
    let mut page = Page::zero();
    encode(node, &mut page);
    space.change(at, &page)
}

/// The `mirror` of the node in a page.
pub fn mirror_in(page: &Page) -> u64
    ensures { result ≡ mirror_of (node_in page.now) }
{
    Head::read(page).mirror
}

/// The level of the node in a page.
pub fn level_in(page: &Page) -> u8
    requires { HoldsNode page.now }
    ensures { result ≡ level_of (node_in page.now) }
{
    Head::read(page).level
}

/// Puts the page of a node where it changed. One whose node is as it was read stays there.
pub fn update_page<S: NodeSpace>(
    space: &mut S,
    at: HOff,
    page: &Page,
    changed: bool,
) -> Result<(), Fault>
    requires at { IsNodeOffset at }
    requires node { HoldsNode page.now }
    ensures ok { OnOk result (BothTell (S.pages space.old) (S.pages space.new)
        (IsUpdated changed at (node_in page.now))) }
    ensures rest { S.rest space.new ≡ S.rest space.old }
    ensures stays { Stays S.Counted space.old space.new }
    ensures cause { HasStoreCause (S.pages space.old)
        (S.faults space.old) (S.faults space.new) result }
{
    if changed {
        space.change(at, page)
    } else {
        Ok(())
    }
}

/// Gives the node in a page a place of its own.
pub fn add_page<S: NodeSpace>(space: &mut S, page: &Page) -> Result<HOff, Fault>
    requires node { HoldsNode page.now }
    requires room { NODE_BYTES ≤ S.room space.old TREE_ZONE }
    ensures ok { IfOk result (AddsNode S.pages S.extents (node_in page.now) space.old space.new) }
    ensures refused { OnErr result S.Refusal }
    ensures spent { StaysWithin S.HasRoom (in_zone TREE_ZONE NODE_BYTES) space.old space.new }
    ensures cause { HasStoreCause (S.pages space.old)
        (S.faults space.old) (S.faults space.new) result }
{
    space.new_node(page)
}

/// Writes a node to a page of its own.
pub fn add_node<S: NodeSpace>(space: &mut S, node: &Node) -> Result<HOff, Fault>
    requires node { IsShaped node.now }
    requires room { NODE_BYTES ≤ S.room space.old TREE_ZONE }
    ensures ok { IfOk result (AddsNode S.pages S.extents node.now space.old space.new) }
    ensures refused { OnErr result S.Refusal }
    ensures spent { StaysWithin S.HasRoom (in_zone TREE_ZONE NODE_BYTES) space.old space.new }
    ensures cause { HasStoreCause (S.pages space.old)
        (S.faults space.old) (S.faults space.new) result }
{
    let mut page = Page::zero();
    encode(node, &mut page);
    space.new_node(&page)
}
