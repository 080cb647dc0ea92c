// Removal of an element from a tree.
ghost use Rattle.std.specs.Prelude.{◌+◌, ◌≤◌, IfSome, IsSome, IfOk, IfNone, OnOk};
ghost use Rattle.hm_types.specs.Faults.{HasStoreCause};
ghost use Rattle.hm_key.specs.Elements.{element_at};
ghost use Rattle.hm_key.specs.Key.{key_of};
ghost use Rattle.hm_types.specs.Space.{nothing};
ghost use Rattle.hm_node.specs.Inner.{IsNodeOffset};
ghost use Rattle.hm_node.specs.Node.{level_of, node_in};
ghost use Rattle.hm_node.specs.Shape.{HoldsNode};
ghost use Rattle.hm_search.specs.Tree.{elements_of};
ghost use Rattle.hm_btree.specs.Calls.Remove.{FindsLowest, IsOnlyBelow, IsRoot, RemovesFrom};
ghost use Rattle.hm_btree.specs.Calls.Space.{StaysWithin};
ghost use Rattle.hm_btree.specs.Shrink.{HasNeighbours};
ghost use Rattle.hm_btree.specs.Tree.{IsTreeSpace};

use crate::node_edit::update_page;
use crate::remove::remove_below;
use crate::space::NodeSpace;
use hm_fields::Page;
use hm_key::Base;
use hm_node::{Head, LEAF};
use hm_search::{Steps, Subtree, child_below, step_into};
use hm_types::{Counted, Fault, HOff};
use std::sync::ledger::Ledger;

/// Removes the element at the key of `at` from the tree from a root on, and answers the root that it
/// then has. Where the pages are told, they must be that tree, and have the element. Asks for one node a
/// level, nine at most, and for a neighbour of each of the eight below the root at most.
pub fn remove_from<S: NodeSpace, L: Ledger>(
    space: &mut S,
    root: HOff,
    at: &Base,
    steps: &mut Steps<L>,
) -> Result<HOff, Fault>
    requires root { IsNodeOffset root }
    requires tree { IfSome (S.pages space.old) (λ was. IsTreeSpace was root) }
    requires there { IfSome (S.pages space.old) (λ was.
        IsSome (element_at (key_of at.now) (elements_of was root))) }
    ensures done { IfOk result (RemovesFrom S.pages S.extents (key_of at.now)
        space.old space.new root) }
    ensures steps { steps.new ≤ steps.old + 17 }
    ensures spent { StaysWithin S.HasRoom nothing space.old space.new }
    ensures cause { HasStoreCause (S.pages space.old)
        (S.faults space.old) (S.faults space.new) result }
{
    let mut page = Page::zero();
    step_into(space, &Subtree::root(root), &mut page, steps)?;
    let root = lowest(space, root, &mut page, steps)?;
    let changed = remove_below(space, &mut page, at, steps)?;
    match only_child(&page) {
        Some(below) => {
            space.drop_node(root)?;
            Ok(below.at)
        }
        None => {
            update_page(space, root, &page, changed)?;
            Ok(root)
        }
    }
}

// The lowest root of the same tree, whose page is read: a root with one child alone is not needed, and
// its page goes.
fn lowest<S: NodeSpace, L: Ledger>(
    space: &mut S,
    root: HOff,
    page: &mut Page,
    steps: &mut Steps<L>,
) -> Result<HOff, Fault>
    requires { IsRoot (S.pages space.old) root page.old }
    ensures done { IfOk result (FindsLowest S.pages S.extents root page.new space.old space.new) }
    ensures steps { steps.new + 1 ≤ steps.old + level_of (node_in page.old) }
    ensures lower { OnOk result
        (steps.new + level_of (node_in page.new) ≤ steps.old + level_of (node_in page.old)) }
    ensures spent { StaysWithin S.HasRoom nothing space.old space.new }
    ensures cause { HasStoreCause (S.pages space.old)
        (S.faults space.old) (S.faults space.new) result }
{
    match only_child(page) {
        Some(below) => {
            step_into(space, &below, page, steps)?;
            space.drop_node(root)?;
            lowest(space, below.at, page, steps)
        }
        None => Ok(root),
    }
}

// What is below the child of an inner node that has no other.
fn only_child(page: &Page) -> Option<Subtree>
    requires { HoldsNode page.now }
    ensures one { IfSome result (IsOnlyBelow page.now) }
    ensures none { IfNone result (HasNeighbours (node_in page.now)) }
{
    let head = Head::read(page);
    if head.kind == LEAF {
        return None;
    }
    if head.count == 1 {
        Some(child_below(page, 0))
    } else {
        None
    }
}
