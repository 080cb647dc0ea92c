// Removal of an element from the leaf to which a walk came.
ghost use Rattle.std.specs.Prelude.{◌≡◌, ◌+◌, ◌≤◌, IfSome, IsSome, IsTrue, IfOk};
ghost use Rattle.hm_types.specs.Faults.{HasStoreCause};
ghost use Rattle.hm_types.specs.Space.{nothing};
ghost use Rattle.hm_key.specs.Elements.{element_at};
ghost use Rattle.hm_key.specs.Key.{key_of};
ghost use Rattle.hm_node.specs.Inner.{IsNodeOffset};
ghost use Rattle.hm_node.specs.Shape.{HoldsNode};
ghost use Rattle.hm_search.specs.Tree.{elements_of};
ghost use Rattle.hm_btree.specs.Calls.Near.{IsLargeLeaf, RemovesNear};
ghost use Rattle.hm_btree.specs.Calls.Remove.{RemovesFrom};
ghost use Rattle.hm_btree.specs.Calls.Space.{StaysWithin};
ghost use Rattle.hm_btree.specs.Tree.{IsTreeSpace};

use crate::node_edit::update_page;
use crate::remove::remove_in_leaf;
use crate::space::NodeSpace;
use crate::top::remove_from;
use hm_fields::Page;
use hm_key::Base;
use hm_node::{Head, LEAF, is_node_offset};
use hm_search::Steps;
use hm_types::{Counted, Fault, HOff, LEAST_PLACES};
use std::sync::ledger::Ledger;

/// Removes the element at the key of `at` from the tree from a root on, and answers the root that it
/// then has. Where the pages are told, they must be that tree, and have the element.
///
/// The leaf at `near` is looked at first: where it has the element, and enough without it, it alone
/// changes, and no other node is asked for. It doesn't matter where `near` comes from. Else a node a level
/// is asked for, nine at most, and a neighbour of each of the eight below the root at most.
pub fn remove_by<S: NodeSpace, L: Ledger>(
    space: &mut S,
    root: HOff,
    near: HOff,
    at: &Base,
    steps: &mut Steps<L>,
) -> Result<HOff, Fault>
    requires root { IsNodeOffset root }
    requires tree { IfSome (S.pages space.old) (λ was. IsTreeSpace was root) }
    requires there { IfSome (S.pages space.old) (λ was.
        IsSome (element_at (key_of at.now) (elements_of was root))) }
    ensures done { IfOk result (RemovesFrom S.pages S.extents (key_of at.now)
        space.old space.new root) }
    ensures steps { steps.new ≤ steps.old + 18 }
    ensures spent { StaysWithin S.HasRoom nothing space.old space.new }
    ensures cause { HasStoreCause (S.pages space.old)
        (S.faults space.old) (S.faults space.new) result }
{
    steps.tick();
    if remove_near(space, near, at)? {
        return Ok(root);
    }
    remove_from(space, root, at, steps)
}

// Removes the element at the key of `at` from the leaf at `near`, where that leaf stands in memory, has
// the element and has more than the fewest places. Answers whether it did; else nothing changed.
fn remove_near<S: NodeSpace>(space: &mut S, near: HOff, at: &Base) -> Result<bool, Fault>
    ensures done { IfOk result (RemovesNear S.pages S.extents (key_of at.now)
        space.old space.new) }
    ensures spent { StaysWithin S.HasRoom nothing space.old space.new }
    ensures cause { HasStoreCause (S.pages space.old)
        (S.faults space.old) (S.faults space.new) result }
{
    if !is_node_offset(near) {
        return Ok(false);
    }
    let Some(page) = space.look(near) else {
        return Ok(false);
    };
    if !is_large_leaf(page) {
        return Ok(false);
    }
    let mut page = *page;
    if !remove_in_leaf(&mut page, at) {
        return Ok(false);
    }
    update_page(space, near, &page, true)?;
    Ok(true)
}

// Whether the node in a page is a leaf with more than the fewest places.
fn is_large_leaf(page: &Page) -> bool
    requires { HoldsNode page.now }
    ensures { IsTrue result → IsLargeLeaf page.now }
{
    let head = Head::read(page);
    head.kind == LEAF && usize::from(head.count) > LEAST_PLACES
}
