// Removal of an element below a node.
ghost use Rattle.std.specs.Prelude.{◌≡◌, ◌+◌, ◌*◌, ◌≤◌, ◌<◌, IfSome, IsSome, IfOk, IfErr, OnOk, Some, slice_get};
ghost use Rattle.hm_types.specs.Faults.{HasFaultCause, HasStoreCause};
ghost use Rattle.hm_key.specs.Key.{key_of};
ghost use Rattle.hm_types.specs.Space.{nothing};
ghost use Rattle.hm_node.specs.Edits.{IsLeafPage};
ghost use Rattle.hm_node.specs.Inner.{inner_in, IsNodeOffset};
ghost use Rattle.hm_node.specs.Node.{level_of, node_in};
ghost use Rattle.hm_node.specs.Shape.{HoldsNode};
ghost use Rattle.hm_node.specs.declared.inner.Child.{Child as ChildOf};
ghost use Rattle.hm_search.specs.Descent.{Reads};
ghost use Rattle.hm_search.specs.Place.{TellsUnmet};
ghost use Rattle.hm_btree.specs.Calls.Remove.{HasPair, IsPair, IsVisited, JoinsChild, JoinsPair, MayRejoin};
ghost use Rattle.hm_btree.specs.Calls.Remove.{RejoinsIn, RemovesBelow, RemovesInLeaf};
ghost use Rattle.hm_btree.specs.Calls.Space.{StaysWithin};
ghost use Rattle.hm_btree.specs.Shrink.{HoldsElement, HasNeighbours, IsLevelBelow, IsShrunk};

use crate::change::has_element_in;
use crate::inner_edit::{give_mirror, remove_child, set_left};
use crate::join::{is_small_in, join};
use crate::node_edit::{mirror, mirror_in, update_page, write_node};
use crate::space::NodeSpace;
use hm_fields::Page;
use hm_key::Base;
use hm_node::{Head, Inner, LEAF, Node, node_of, remove_element, set_mirror};
use hm_search::{Steps, Subtree, child_below, holder_place_in, leaf_place_in, step_into};
use hm_types::{Counted, Fault};
use std::sync::ledger::Ledger;

/// Removes the element at the key of `at` below the node in a page, which is not written and may be left
/// with too few places, and answers whether the page changed. Where the pages are told, they must be
/// sound and have the element. An inner node must have two children. Asks for a node a level, and for a
/// neighbour of each at most.
pub fn remove_below<S: NodeSpace, L: Ledger>(
    space: &mut S,
    page: &mut Page,
    at: &Base,
    steps: &mut Steps<L>,
) -> Result<bool, Fault>
    requires node { HoldsNode page.old }
    requires many { HasNeighbours (node_in page.old) }
    requires told { IfSome (S.pages space.old) (HoldsElement (key_of at.now) (node_in page.old)) }
    ensures done { IfOk result (RemovesBelow S.pages S.extents (key_of at.now)
        space.old space.new page.old page.new) }
    ensures steps { steps.new + 2 ≤ steps.old + level_of (node_in page.old) * 2 }
    ensures spent { StaysWithin S.HasRoom nothing space.old space.new }
    ensures cause { HasStoreCause (S.pages space.old)
        (S.faults space.old) (S.faults space.new) result }
{
    if Head::read(page).kind == LEAF {
        return Ok(remove_in_leaf(page, at));
    }
    let i = holder_place_in(page, at);
    let place = child_below(page, i);
    let mut child = Page::zero();
    step_into(space, &place, &mut child, steps)?;
    let changed = remove_below(space, &mut child, at, steps)?;
    if is_small_in(&child) {
        rejoin_in(space, page, i, &child, steps)?;
        return Ok(true);
    }
    update_page(space, place.at, &child, changed)?;
    Ok(set_mirror(page, i, mirror_in(&child)))
}

/// Removes the element at the key of `at` from a leaf, and answers whether one stands there.
pub fn remove_in_leaf(page: &mut Page, at: &Base) -> bool
    requires { IsLeafPage page.old }
    ensures { RemovesInLeaf (key_of at.now) page.old page.new result }
{
    let place = leaf_place_in(page, at);
    if !has_element_in(page, place, at) {
        return false;
    }
    remove_element(page, place);
    true
}

// Joins the child at a place, whose page has too few places and is not put, with a neighbour. For that
// the nodes are built.
fn rejoin_in<S: NodeSpace, L: Ledger>(
    space: &mut S,
    page: &mut Page,
    i: usize,
    child: &Page,
    steps: &mut Steps<L>,
) -> Result<(), Fault>
    requires may { MayRejoin page.old i child.now }
    requires told { IfSome (S.pages space.old) (IsShrunk (inner_in page.old) i (node_in child.now)) }
    ensures done { OnOk result (RejoinsIn S.pages S.extents i child.now
        space.old space.new page.old page.new) }
    ensures step { steps.new ≡ steps.old + 1 }
    ensures spent { StaysWithin S.HasRoom nothing space.old space.new }
    ensures cause { HasStoreCause (S.pages space.old)
        (S.faults space.old) (S.faults space.new) result }
{
    let mut inner = Inner::of(page);
    rejoin(space, &mut inner, i, node_of(child), steps)?;
    inner.write(page);
    Ok(())
}

// Joins the child at a place, which has too few places and is not written, with a neighbour.
fn rejoin<S: NodeSpace, L: Ledger>(
    space: &mut S,
    inner: &mut Inner,
    i: usize,
    child: Node,
    steps: &mut Steps<L>,
) -> Result<(), Fault>
    requires inner { HasPair inner.old i }
    requires child { IsLevelBelow inner.old.level child }
    requires told { IfSome (S.pages space.old) (IsShrunk inner.old i child) }
    ensures done { OnOk result (JoinsChild S.pages S.extents i child
        space.old space.new inner.old inner.new) }
    ensures step { steps.new ≡ steps.old + 1 }
    ensures spent { StaysWithin S.HasRoom nothing space.old space.new }
    ensures cause { HasStoreCause (S.pages space.old)
        (S.faults space.old) (S.faults space.new) result }
{
    let count = inner.places.len();
    if i + 1 < count {
        let right = visited_node(space, &Subtree::child(inner, i + 1), steps)?;
        join_at(space, inner, i, child, right)
    } else {
        let left = visited_node(space, &Subtree::child(inner, i - 1), steps)?;
        join_at(space, inner, i - 1, left, child)
    }
}

// The node at a place. That its page holds one is believed, as by a search, and the rules of the place
// alone are checked.
fn visited_node<S: NodeSpace, L: Ledger>(
    space: &mut S,
    place: &Subtree,
    steps: &mut Steps<L>,
) -> Result<Node, Fault>
    requires { IsNodeOffset place.now.at }
    ensures ok { IfOk result (IsVisited place.now (S.pages space.old)) }
    ensures step { steps.new ≡ steps.old + 1 }
    ensures damage { IfSome (S.pages space.old) (λ map.
        IfErr result (TellsUnmet place.now (map place.now.at))) }
    ensures same { Reads S.name S.frame S.rest S.pages space.old space.new }
    ensures cause { HasFaultCause (S.faults space.old) (S.faults space.new) result }
{
    let mut page = Page::zero();
    step_into(space, place, &mut page, steps)?;
    Ok(node_of(&page))
}

// Joins the child at a place with the one after it, of both of which the node is handed in.
fn join_at<S: NodeSpace>(
    space: &mut S,
    inner: &mut Inner,
    i: usize,
    mut left: Node,
    right: Node,
) -> Result<(), Fault>
    requires pair { IsPair inner.old i left right }
    requires told { IfSome (S.pages space.old) (λ map. (c : ChildOf) →
        slice_get inner.old.places.items (i + 1) ≡ Some c → IsSome (map c.child)) }
    ensures done { OnOk result (JoinsPair S.pages S.extents i left right
        space.old space.new inner.old inner.new) }
    ensures spent { StaysWithin S.HasRoom nothing space.old space.new }
    ensures cause { HasStoreCause (S.pages space.old)
        (S.faults space.old) (S.faults space.new) result }
{
    let upper = join(&mut left, right);
    write_node(space, inner.places[i].child, &left)?;
    give_mirror(inner, i, mirror(&left));
    let next = inner.places[i + 1].child;
    match upper {
        None => {
            space.drop_node(next)?;
            remove_child(inner, i + 1);
        }
        Some(upper) => {
            write_node(space, next, &upper.node)?;
            give_mirror(inner, i + 1, mirror(&upper.node));
            set_left(inner, i + 1, upper.left);
        }
    }
    Ok(())
}
