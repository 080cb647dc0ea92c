// Insertion of an element below a node.
ghost use Rattle.std.specs.Prelude.{◌≡◌, ◌≢◌, ◌↔◌, ◌+◌, ◌*◌, ◌-◌, ◌≤◌, Some, length, max, insert, slice_get, IfOk, IsTrue};
ghost use Rattle.hm_types.specs.Faults.{HasStoreCause};
ghost use Rattle.hm_key.specs.Elements.{last_id};
ghost use Rattle.hm_key.specs.declared.element.Element.{Element as Elem};
ghost use Rattle.hm_types.specs.Space.{in_zone};
ghost use Rattle.hm_fields.specs.Pages.{page_in};
ghost use Rattle.hm_node.specs.Edits.{IsLeafPage, IsInnerPage};
ghost use Rattle.hm_node.specs.Head.{head_in};
ghost use Rattle.hm_node.specs.Inner.{inner_in, IsChild};
ghost use Rattle.hm_node.specs.Leaf.{leaf_in, IsPlaced};
ghost use Rattle.hm_node.specs.Node.{level_of, node_in};
ghost use Rattle.hm_node.specs.Shape.{HoldsNode};
ghost use Rattle.hm_btree.specs.Calls.Insert.{AddsBeside, InsertsBelow, InsertsInLeaf, IsUpperPage};
ghost use Rattle.hm_btree.specs.Calls.Insert.{SplitsLeaf, SplitsInner};
ghost use Rattle.hm_btree.specs.Calls.Space.{StaysWithin};
ghost use Rattle.hm_btree.specs.Below.{HasPassCause};

use crate::inner_edit::insert_child;
use crate::leaf_edit::insert_and_cut;
use crate::node_edit::{add_page, mirror_in, update_page};
use crate::space::{NODE_BYTES, NodeSpace};
use crate::upper::Grown;
use hm_fields::Page;
use hm_key::{Base, Element};
use hm_node::{Child, Head, Inner, LEAF, Leaf, insert_element, set_mirror};
use hm_search::{Steps, child_below, holder_place_in, leaf_place_in, step_into};
use hm_types::{Counted, Fault, MOST_LEAF_ELEMENTS, TREE_ZONE};
use std::sync::ledger::Ledger;

/// Inserts an element below the node in a page, which is not written. Where the node becomes two, the
/// upper one gets the other page, which is not written either. Takes one node less of room than the
/// node has levels, and asks for so many at most.
pub fn insert_into<S: NodeSpace, L: Ledger>(
    space: &mut S,
    page: &mut Page,
    upper: &mut Option<Page>,
    element: &Element,
    steps: &mut Steps<L>,
) -> Result<Grown, Fault>
    requires node { HoldsNode page.old }
    requires element { IsPlaced element.now }
    requires room { NODE_BYTES * (level_of (node_in page.old) - 1) ≤ S.room space.old TREE_ZONE }
    ensures done { IfOk result (InsertsBelow S.pages S.extents element.now
        space.old space.new page.old page.new (page_in upper.new)) }
    ensures steps { steps.new + 1 ≤ steps.old + level_of (node_in page.old) }
    ensures spent { StaysWithin S.HasRoom
        (in_zone TREE_ZONE (NODE_BYTES * (level_of (node_in page.old) - 1))) space.old space.new }
    ensures cause { HasPassCause (S.pages space.old) (node_in page.old)
        (S.faults space.old) (S.faults space.new) result }
{
    if Head::read(page).kind == LEAF {
        let left = insert_in_leaf(page, upper, element);
        return Ok(Grown {
            changed: true,
            left,
        });
    }
    let i = holder_place_in(page, &element.base);
    let place = child_below(page, i);
    let mut child = Page::zero();
    step_into(space, &place, &mut child, steps)?;
    let Grown { changed, left } = insert_into(space, &mut child, upper, element, steps)?;
    update_page(space, place.at, &child, changed)?;
    let changed = set_mirror(page, i, mirror_in(&child));
    match left {
        None => Ok(Grown {
            changed,
            left: None,
        }),
        Some(left) => add_beside(space, page, upper, i + 1, left),
    }
}

// Gives the upper part of a child that became two a page of its own, and puts it in before a place of
// the inner node in a page, which may become two for that.
fn add_beside<S: NodeSpace>(
    space: &mut S,
    page: &mut Page,
    upper: &mut Option<Page>,
    at: usize,
    left: Base,
) -> Result<Grown, Fault>
    requires inner { IsInnerPage page.old }
    requires at { at ≤ (head_in page.old).count }
    requires above { IsUpperPage (page_in upper.old) left }
    requires room { NODE_BYTES ≤ S.room space.old TREE_ZONE }
    ensures done { IfOk result (AddsBeside S.pages S.extents at left
        space.old space.new page.old page.new (page_in upper.old) (page_in upper.new)) }
    ensures spent { StaysWithin S.HasRoom (in_zone TREE_ZONE NODE_BYTES) space.old space.new }
    ensures cause { HasStoreCause (S.pages space.old)
        (S.faults space.old) (S.faults space.new) result }
{
    let above = upper_page(upper);
    let child = add_page(space, &above)?;
    let next = Child {
        left,
        child,
        mirror: mirror_in(&above),
    };
    Ok(Grown {
        changed: true,
        left: insert_beside(page, upper, at, next),
    })
}

/// The page of the upper part, where a node became two. It has none before: an insertion by which no node
/// becomes two fills none.
pub fn upper_page(upper: &Option<Page>) -> Page
    ensures { result ≡ page_in upper.now }
{
    match upper {
        Some(page) => *page,
        None => Page::zero(),
    }
}

// Inserts an element into a leaf.
fn insert_in_leaf(page: &mut Page, upper: &mut Option<Page>, element: &Element) -> Option<Base>
    requires leaf { IsLeafPage page.old }
    requires element { IsPlaced element.now }
    ensures { InsertsInLeaf element.now page.old page.new (page_in upper.new) result }
{
    let at = leaf_place_in(page, &element.base);
    if usize::from(Head::read(page).count) < MOST_LEAF_ELEMENTS {
        insert_element(page, at, element);
        None
    } else {
        split_leaf(page, upper, at, element)
    }
}

// Puts an element in before a place of a leaf, which is built for that and becomes two where it is full.
fn split_leaf(
    page: &mut Page,
    upper: &mut Option<Page>,
    at: usize,
    element: &Element,
) -> Option<Base>
    requires leaf { IsLeafPage page.old }
    requires at { at ≤ (head_in page.old).count }
    requires element { IsPlaced element.now }
    ensures { SplitsLeaf (max (leaf_in page.old).mirror (last_id element.now))
        (insert (leaf_in page.old).places.items at element.now) page.new (page_in upper.new) result }
{
    let mut leaf = Leaf::of(page);
    let ends = ends_kind(leaf.places.as_slice(), at, element);
    let more = insert_and_cut(&mut leaf, at, element, ends);
    leaf.write(page);
    match more {
        None => None,
        Some(more) => {
            let mut above = Page::zero();
            more.write(&mut above);
            *upper = Some(above);
            Some(more.places[0].base.boundary())
        }
    }
}

// Whether an element that comes in before a place is the last one of its localization there. The numbers
// of objects rise, so an inode that is new comes behind all others, and before what else its pseudo file
// system has.
fn ends_kind(elements: &[Element], at: usize, element: &Element) -> bool
    ensures last { length elements.now ≤ at → IsTrue result }
    ensures next { (next : Elem) → slice_get elements.now at ≡ Some next →
        IsTrue result ↔ (next.base.localization ≢ element.now.base.localization) }
{
    match elements.get(at) {
        Some(next) => next.base.localization != element.base.localization,
        None => true,
    }
}

// Puts a child in before a place of an inner node, which is built for that and becomes two where it is
// full.
fn insert_beside(page: &mut Page, upper: &mut Option<Page>, at: usize, child: Child) -> Option<Base>
    requires inner { IsInnerPage page.old }
    requires at { at ≤ (head_in page.old).count }
    requires child { IsChild child }
    ensures { SplitsInner (inner_in page.old).level (max (inner_in page.old).mirror child.mirror)
        (insert (inner_in page.old).places.items at child) (inner_in page.old).right
        page.new (page_in upper.new) result }
{
    let mut inner = Inner::of(page);
    let more = insert_child(&mut inner, at, child);
    inner.write(page);
    match more {
        None => None,
        Some(more) => {
            let mut above = Page::zero();
            more.write(&mut above);
            *upper = Some(above);
            Some(inner.right)
        }
    }
}
