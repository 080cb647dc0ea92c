// What a search for the last element up to a key sees in the node of a place.
ghost use Rattle.std.specs.Prelude.{◌≡◌, ◌≤◌, ◌<◌};
ghost use Rattle.hm_key.specs.Key.{key_of};
ghost use Rattle.hm_node.specs.Head.{head_in};
ghost use Rattle.hm_node.specs.Inner.{inner_in, AreChildPlaces};
ghost use Rattle.hm_node.specs.Leaf.{leaf_in, first_elements, ArePlaces};
ghost use Rattle.hm_search.specs.LookTo.{ShowsTo, ShowsInnerTo, ShowsLeafTo, before_place};
ghost use Rattle.hm_search.specs.Tree.{children_of};

use crate::look::{Look, child_at, rank};
use crate::subtree::Subtree;
use hm_fields::Page;
use hm_key::{Base, Element};
use hm_node::{Head, LEAF, place, read_element};

/// What a search for the last element up to a key sees in an inner node.
#[derive(Clone, Copy)]
pub(crate) struct SeenInnerTo {
    /// What is below the child whose boundaries hold the key.
    pub child: Subtree,
    /// What is below the next child to the left.
    pub before: Option<Subtree>,
}

/// What a search for the last element up to a key sees in a node.
#[derive(Clone, Copy)]
pub(crate) enum SeenTo {
    /// The leaf's last element at the key or before it.
    Leaf(Option<Element>),
    Inner(SeenInnerTo),
}

impl Look for SeenTo {
    ghost shows = { ShowsTo };

    fn see(page: &Page, at: &Base) -> SeenTo {
        let head = Head::read(page);
        if head.kind == LEAF {
            SeenTo::Leaf(see_leaf(page, &head, at))
        } else {
            SeenTo::Inner(see_inner(page, &head, at))
        }
    }
}

// What is seen in the page of a leaf.
fn see_leaf(page: &Page, head: &Head, at: &Base) -> Option<Element>
    requires head { head.now ≡ head_in page.now }
    requires few { head.now.count ≤ 63 }
    requires places { ArePlaces page.now head.now.count }
    ensures { ShowsLeafTo (key_of at.now) (leaf_in page.now) result }
{
    let count = usize::from(head.count);
    element_before(page, count, rank(page, count, at, true))
}

// What is seen in the page of an inner node.
fn see_inner(page: &Page, head: &Head, at: &Base) -> SeenInnerTo
    requires head { head.now ≡ head_in page.now }
    requires some { 1 ≤ head.now.count }
    requires few { head.now.count ≤ 62 }
    requires places { AreChildPlaces page.now head.now.count }
    ensures { ShowsInnerTo (key_of at.now) (inner_in page.now) result }
{
    let count = usize::from(head.count);
    let holder = rank(page, count, at, true).saturating_sub(1);
    SeenInnerTo {
        child: child_at(page, head, holder),
        before: child_before(page, head, holder),
    }
}

// The element before a place of a leaf, if there is one.
fn element_before(page: &Page, count: usize, i: usize) -> Option<Element>
    requires few { count ≤ 63 }
    requires within { i ≤ count }
    requires places { ArePlaces page.now count }
    ensures { before_place (first_elements page.now count) i ≡ result }
{
    if i == 0 {
        None
    } else {
        Some(read_element(page, place(i - 1)))
    }
}

// What is below the child before a place of an inner node, if there is one.
fn child_before(page: &Page, head: &Head, i: usize) -> Option<Subtree>
    requires head { head.now ≡ head_in page.now }
    requires within { i < head.now.count }
    requires few { head.now.count ≤ 62 }
    requires places { AreChildPlaces page.now head.now.count }
    ensures { before_place (children_of (inner_in page.now)) i ≡ result }
{
    if i == 0 {
        None
    } else {
        Some(child_at(page, head, i - 1))
    }
}
