// What a search for a key sees in the node of a place, read from its page: no node is built.
ghost use Rattle.std.specs.Prelude.{◌≡◌, ◌≤◌, ◌<◌, ◌+◌, ℕ, Some, IfSome, IfOk, IfErr, slice_get};
ghost use Rattle.hm_types.specs.Faults.{HasFaultCause};
ghost use Rattle.hm_types.specs.Elements.{Key};
ghost use Rattle.hm_types.specs.declared.limits.TheConstants.{PAGE_BYTES};
ghost use Rattle.hm_key.specs.Key.{key_of};
ghost use Rattle.hm_node.specs.Base.{base_in};
ghost use Rattle.hm_node.specs.Head.{head_in};
ghost use Rattle.hm_node.specs.Inner.{inner_in, AreChildPlaces, IsNodeOffset};
ghost use Rattle.hm_node.specs.Leaf.{leaf_in, first_elements, ArePlaces};
ghost use Rattle.hm_node.specs.Node.{node_in};
ghost use Rattle.hm_node.specs.Places.{place as place_at};
ghost use Rattle.hm_node.specs.Shape.{HoldsNode};
ghost use Rattle.hm_node.specs.declared.node.Node.{Node};
ghost use Rattle.hm_search.specs.Descent.{Reads};
ghost use Rattle.hm_search.specs.Look.{is_by, Glances, IsTurn, Shows, ShowsInner, ShowsLeaf};
ghost use Rattle.hm_search.specs.Place.{IsUnmet, MeetsBy, TellsUnmet};
ghost use Rattle.hm_search.specs.Tree.{children_of};
ghost use Rattle.hm_search.specs.declared.place_rule.PlaceRule.{PlaceRule};

use crate::read::damage;
use crate::steps::Steps;
use crate::subtree::{Parent, Subtree};
use hm_fields::Page;
use hm_key::{Base, Element};
use hm_node::{Head, LEAF, NodePages, order_at, place, read_base, read_child, read_element};
use hm_types::{Counted, Fault};
use std::sync::ledger::Ledger;

/// What a search for a key sees in a leaf.
#[derive(Clone, Copy)]
pub(crate) struct SeenLeaf {
    /// The leaf's `mirror`.
    pub mirror: u64,
    /// How many of its elements stand before the key.
    pub place: u8,
    /// Its first element at the key or after it.
    pub first: Option<Element>,
}

/// What a search for a key sees in an inner node.
#[derive(Clone, Copy)]
pub(crate) struct SeenInner {
    /// The node's `mirror`.
    pub mirror: u64,
    /// What is below the child whose boundaries hold the key.
    pub child: Subtree,
    /// What is below the next child to the right.
    pub next: Option<Subtree>,
}

/// What a search for a key sees in a node.
#[derive(Clone, Copy)]
pub(crate) enum Seen {
    Leaf(SeenLeaf),
    Inner(SeenInner),
}

/// What a search for a key takes from the page of a node, of which it believes the shape.
pub(crate) trait Look {
    /// What it then is of the node, whose order is not known.
    ghost shows: { Key → Node → Self → Type 0 };

    /// Takes it from the page of a node.
    fn see(page: &Page, at: &Base) -> Self
        requires { HoldsNode page.now }
        ensures { Self.shows (key_of at.now) (node_in page.now) result };
}

// What a search for the key of `at` sees in the node at a place: the page is looked at where it stands, and
// read only where the space doesn't lend it. The shape of a page is believed, and the rules of the place
// alone are checked: none of them at a cost that grows with the node.
pub(crate) fn glance_at<P: NodePages, V: Look>(
    pages: &mut P,
    subtree: &Subtree,
    at: &Base,
) -> Result<V, Fault>
    requires { IsNodeOffset subtree.now.at }
    ensures sees { IfOk result (Glances V.shows subtree.now (P.pages pages.old) (key_of at.now)) }
    ensures damage { IfSome (P.pages pages.old) (λ map.
        IfErr result (TellsUnmet subtree.now (map subtree.now.at))) }
    ensures same { Reads P.name P.frame P.rest P.pages pages.old pages.new }
    ensures cause { HasFaultCause (P.faults pages.old) (P.faults pages.new) result }
{
    match pages.look(subtree.at) {
        Some(page) => glance(subtree, page, at),
        None => read_and_glance(pages, subtree, at),
    }
}

// The same, with a step for the page.
pub(crate) fn step_to<P: NodePages, V: Look, L: Ledger>(
    pages: &mut P,
    subtree: &Subtree,
    at: &Base,
    steps: &mut Steps<L>,
) -> Result<V, Fault>
    requires { IsNodeOffset subtree.now.at }
    ensures sees { IfOk result (Glances V.shows subtree.now (P.pages pages.old) (key_of at.now)) }
    ensures step { steps.new ≡ steps.old + 1 }
    ensures damage { IfSome (P.pages pages.old) (λ map.
        IfErr result (TellsUnmet subtree.now (map subtree.now.at))) }
    ensures same { Reads P.name P.frame P.rest P.pages pages.old pages.new }
    ensures cause { HasFaultCause (P.faults pages.old) (P.faults pages.new) result }
{
    steps.tick();
    glance_at::<P, V>(pages, subtree, at)
}

// The same of a page that has to be read. A search that reads none has no buffer on its stack.
#[inline(never)]
fn read_and_glance<P: NodePages, V: Look>(
    pages: &mut P,
    subtree: &Subtree,
    at: &Base,
) -> Result<V, Fault>
    requires { IsNodeOffset subtree.now.at }
    ensures sees { IfOk result (Glances V.shows subtree.now (P.pages pages.old) (key_of at.now)) }
    ensures damage { IfSome (P.pages pages.old) (λ map.
        IfErr result (TellsUnmet subtree.now (map subtree.now.at))) }
    ensures same { Reads P.name P.frame P.rest P.pages pages.old pages.new }
    ensures cause { HasFaultCause (P.faults pages.old) (P.faults pages.new) result }
{
    let mut page = Page::zero();
    pages.page(subtree.at, &mut page)?;
    glance(subtree, &page, at)
}

// The same of the page in hand.
fn glance<V: Look>(subtree: &Subtree, page: &Page, at: &Base) -> Result<V, Fault>
    requires { HoldsNode page.now }
    ensures meets { IfOk result (λ _. (rule : PlaceRule) →
        MeetsBy subtree.now (node_in page.now) rule) }
    ensures shows { IfOk result (V.shows (key_of at.now) (node_in page.now)) }
    ensures damage { IfErr result (IsUnmet subtree.now page.now) }
{
    match subtree.first_unmet(page) {
        None => Ok(V::see(page, at)),
        Some(rule) => Err(damage(subtree, rule.kind())),
    }
}

impl Look for Seen {
    ghost shows = { Shows };

    fn see(page: &Page, at: &Base) -> Seen {
        let head = Head::read(page);
        if head.kind == LEAF {
            Seen::Leaf(see_leaf(page, &head, at))
        } else {
            Seen::Inner(see_inner(page, &head, at))
        }
    }
}

// What is seen in the page of a leaf.
pub(crate) fn see_leaf(page: &Page, head: &Head, at: &Base) -> SeenLeaf
    requires head { head.now ≡ head_in page.now }
    requires few { head.now.count ≤ 63 }
    requires places { ArePlaces page.now head.now.count }
    ensures { ShowsLeaf (key_of at.now) (leaf_in page.now) result }
{
    let count = usize::from(head.count);
    let before = rank(page, count, at, false);
    SeenLeaf {
        mirror: head.mirror,
        place: before as u8,
        first: element_at(page, count, before),
    }
}

// What is seen in the page of an inner node.
fn see_inner(page: &Page, head: &Head, at: &Base) -> SeenInner
    requires head { head.now ≡ head_in page.now }
    requires some { 1 ≤ head.now.count }
    requires few { head.now.count ≤ 62 }
    requires places { AreChildPlaces page.now head.now.count }
    ensures { ShowsInner (key_of at.now) (inner_in page.now) result }
{
    let count = usize::from(head.count);
    let holder = rank(page, count, at, true).saturating_sub(1);
    SeenInner {
        mirror: head.mirror,
        child: child_at(page, head, holder),
        next: next_at(page, head, holder + 1),
    }
}

// The element in a place of a leaf, if it has so many.
fn element_at(page: &Page, count: usize, i: usize) -> Option<Element>
    requires few { count ≤ 63 }
    requires places { ArePlaces page.now count }
    ensures { slice_get (first_elements page.now count) i ≡ result }
{
    if i < count {
        Some(read_element(page, place(i)))
    } else {
        None
    }
}

// What is below the child in a place of an inner node, if it has so many.
fn next_at(page: &Page, head: &Head, i: usize) -> Option<Subtree>
    requires head { head.now ≡ head_in page.now }
    requires few { head.now.count ≤ 62 }
    requires places { AreChildPlaces page.now head.now.count }
    ensures { slice_get (children_of (inner_in page.now)) i ≡ result }
{
    if i < usize::from(head.count) {
        Some(child_at(page, head, i))
    } else {
        None
    }
}

// What is below the child in a place of an inner node.
pub(crate) fn child_at(page: &Page, head: &Head, i: usize) -> Subtree
    requires head { head.now ≡ head_in page.now }
    requires low { i < head.now.count }
    requires few { head.now.count ≤ 62 }
    requires places { AreChildPlaces page.now head.now.count }
    ensures { slice_get (children_of (inner_in page.now)) i ≡ Some result }
{
    let child = read_child(page, place(i));
    Subtree {
        at: child.child,
        left: child.left,
        right: read_base(page, place(i + 1)),
        parent: Some(Parent {
            level: head.level,
            mirror: child.mirror,
        }),
    }
}

// How many of so many bases stand before the key of `at`, or also at it, by halving. Where they are not in
// order, it is a place where the one before does, and the one there does not.
pub(crate) fn rank(page: &Page, count: usize, at: &Base, also_at: bool) -> usize
    requires few { count ≤ 63 }
    ensures { IsTurn (λ i. is_by also_at (key_of at.now) (base_in page.now (place_at i))) count result }
{
    let mut low = 0;
    let mut high = count;
    while low < high {
        let middle = low + (high - low) / 2;
        if is_by(page, place(middle), at, also_at) {
            low = middle + 1;
        } else {
            high = middle;
        }
    }
    low
}

// Whether the base from `place` on stands before the key of `at`, or also whether it stands at it.
fn is_by(page: &Page, place: usize, at: &Base, also_at: bool) -> bool
    requires { place + 40 ≤ PAGE_BYTES }
    ensures { result ≡ is_by also_at (key_of at.now) (base_in page.now place) }
{
    let order = order_at(page, place, at);
    if also_at {
        order.is_le()
    } else {
        order.is_lt()
    }
}
