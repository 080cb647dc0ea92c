// Changes of an element that stays where it is.
ghost use Rattle.std.specs.Prelude.{◌≡◌, ◌+◌, ◌≤◌, ◌<◌, max, IfOk, OnOk, IsTrue, is_some};
ghost use Rattle.hm_key.specs.Elements.{element_at, element_key};
ghost use Rattle.hm_key.specs.Key.{key_of};
ghost use Rattle.hm_key.specs.Places.{leading};
ghost use Rattle.hm_node.specs.Edits.{ChangesPlace, IsLeafPage};
ghost use Rattle.hm_node.specs.Head.{head_in};
ghost use Rattle.hm_node.specs.Inner.{IsNodeOffset};
ghost use Rattle.hm_node.specs.Leaf.{element_in, leaf_in, HasLeafOrder, IsPlaced};
ghost use Rattle.hm_node.specs.Node.{level_of, node_in};
ghost use Rattle.hm_node.specs.Places.{place as place_at};
ghost use Rattle.hm_node.specs.Shape.{HoldsNode};
ghost use Rattle.hm_search.specs.Descent.{HasSearchCause};
ghost use Rattle.hm_search.specs.Tree.{root_place};
ghost use Rattle.hm_btree.specs.Calls.Change.{ChangesBelow, ChangesElement, ChangesInLeaf};
ghost use Rattle.hm_btree.specs.Calls.Space.{Stays};
ghost use Rattle.hm_btree.specs.Below.{HasPassCause};
ghost use Rattle.hm_btree.specs.Change.{change_of, id_of, MayChange};

use crate::node_edit::{mirror_in, update_page};
use crate::space::NodeSpace;
use hm_fields::Page;
use hm_key::Base;
use hm_node::{Head, LEAF, place, put_delete, put_payload, read_base, set_mirror};
use hm_search::{Steps, Subtree, child_below, holder_place_in, leaf_place_in, step_into};
use hm_types::{Fault, HOff};
use std::sync::ledger::Ledger;

/// What becomes of an element.
#[derive(Clone, Copy, Debug)]
pub enum Change {
    /// It is closed at this id, or opened where that is 0.
    Close(u64),
    /// Its payload stands here.
    Move(HOff),
}

/// Changes the element at the key of `at` in the tree from a root on. A node a level is asked for, nine at
/// most.
pub fn change_element<S: NodeSpace, L: Ledger>(
    space: &mut S,
    root: HOff,
    at: &Base,
    change: Change,
    steps: &mut Steps<L>,
) -> Result<(), Fault>
    requires root { IsNodeOffset root }
    requires may { MayChange (key_of at.now) change }
    ensures done { OnOk result (ChangesElement (key_of at.now) change root
        (S.pages space.old) (S.pages space.new)) }
    ensures steps { steps.new ≤ steps.old + 9 }
    ensures rest { S.rest space.new ≡ S.rest space.old }
    ensures stays { Stays S.Counted space.old space.new }
    ensures cause { HasSearchCause (S.pages space.old) (root_place root)
        (S.faults space.old) (S.faults space.new) result }
{
    let place = Subtree::root(root);
    let mut page = Page::zero();
    step_into(space, &place, &mut page, steps)?;
    let changed = change_in(space, &mut page, at, change, steps)?;
    update_page(space, root, &page, changed)
}

// Changes the element at the key of `at` below the node in a page, which is not written, and answers
// whether the page changed.
fn change_in<S: NodeSpace, L: Ledger>(
    space: &mut S,
    page: &mut Page,
    at: &Base,
    change: Change,
    steps: &mut Steps<L>,
) -> Result<bool, Fault>
    requires node { HoldsNode page.old }
    requires may { MayChange (key_of at.now) change }
    ensures done { IfOk result (ChangesBelow (key_of at.now) change
        (S.pages space.old) (S.pages space.new) page.old page.new) }
    ensures steps { steps.new + 1 ≤ steps.old + level_of (node_in page.old) }
    ensures rest { S.rest space.new ≡ S.rest space.old }
    ensures stays { Stays S.Counted space.old space.new }
    ensures cause { HasPassCause (S.pages space.old) (node_in page.old)
        (S.faults space.old) (S.faults space.new) result }
{
    if Head::read(page).kind == LEAF {
        return Ok(change_in_leaf(page, at, change));
    }
    let i = holder_place_in(page, at);
    let place = child_below(page, i);
    let mut child = Page::zero();
    step_into(space, &place, &mut child, steps)?;
    let changed = change_in(space, &mut child, at, change, steps)?;
    update_page(space, place.at, &child, changed)?;
    Ok(set_mirror(page, i, mirror_in(&child)))
}

// Changes the element at the key of `at` in a leaf, and answers whether one stands there.
fn change_in_leaf(page: &mut Page, at: &Base, change: Change) -> bool
    requires leaf { IsLeafPage page.old }
    requires may { MayChange (key_of at.now) change }
    ensures { ChangesInLeaf (key_of at.now) change page.old page.new result }
{
    let place = leaf_place_in(page, at);
    if !has_element_in(page, place, at) {
        return false;
    }
    change_at(page, place, change);
    true
}

// Changes the element at a place of a leaf.
fn change_at(page: &mut Page, at: usize, change: Change)
    requires leaf { IsLeafPage page.old }
    requires at { at < (head_in page.old).count }
    requires element { IsPlaced (change_of change (element_in page.old (place_at at))) }
    ensures { ChangesPlace (change_of change) at (max (leaf_in page.old).mirror (id_of change))
        page.old page.new }
{
    match change {
        Change::Close(delete) => put_delete(page, at, delete),
        Change::Move(to) => put_payload(page, at, to),
    }
}

/// Whether the element at a place of a leaf stands at the key of `at`. In a leaf in order, in which so
/// many stand before that key, it is the one that may.
pub fn has_element_in(page: &Page, i: usize, at: &Base) -> bool
    requires leaf { IsLeafPage page.now }
    ensures within { IsTrue result → i < (head_in page.now).count }
    ensures here { IsTrue result →
        element_key (element_in page.now (place_at i)) ≡ key_of at.now }
    ensures value { HasLeafOrder (leaf_in page.now) →
        i ≡ leading (key_of at.now) (leaf_in page.now).places.items →
        result ≡ is_some (element_at (key_of at.now) (leaf_in page.now).places.items) }
{
    if usize::from(Head::read(page).count) <= i {
        return false;
    }
    read_base(page, place(i)).order(at).is_eq()
}
