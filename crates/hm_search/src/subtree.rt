// Where a node stands in the tree, and what that asks of its page.
ghost use Rattle.std.specs.Prelude.{◌≡◌, ◌≤◌, ◌<◌, ◌+◌, ◌-◌, ◌↔◌, ℕ, All, IfSome, IfNone, IsTrue, slice_get, drop, Some};
ghost use Rattle.std.specs.List.Sorted.{IsStrictlySortedBy};
ghost use Rattle.arrayvec.specs.ArrayVec.{array_vec_len};
ghost use Rattle.hm_types.specs.declared.limits.TheConstants.{PAGE_BYTES};
ghost use Rattle.hm_key.specs.Key.{key_of};
ghost use Rattle.hm_key.specs.Elements.{element_key, element_cmp};
ghost use Rattle.hm_node.specs.Base.{base_in};
ghost use Rattle.hm_node.specs.Damage.{Keeps, number_of};
ghost use Rattle.hm_node.specs.Head.{head_in};
ghost use Rattle.hm_node.specs.Leaf.{first_elements};
ghost use Rattle.hm_node.specs.Node.{node_in, SaysLevel, HasCount, HasOrder};
ghost use Rattle.hm_node.specs.Places.{place as place_at};
ghost use Rattle.hm_node.specs.Shape.{HoldsNode};
ghost use Rattle.hm_node.specs.declared.rule.Rule.{Rule as NodeRule};
ghost use Rattle.hm_search.specs.Place.{FitsBy, FitsLevel, FitsCount, FitsBounds, FitsMirror, IsInside, IsInsideAt};
ghost use Rattle.hm_search.specs.Place.{MeetsBounds, MeetsBy, place_number};
ghost use Rattle.hm_search.specs.Tree.{root_place, children_of, next_left};

use crate::place_rule::PlaceRule;
use hm_fields::Page;
use hm_key::Base;
use hm_node::{Head, Inner, LEAF, order_at, place};
use hm_types::{BAD_BOUNDS, BAD_COUNT, BAD_LEVEL, BAD_MIRROR, HOff, LEAST_PLACES};

/// What a node's parent says of it.
#[derive(Clone, Copy, Debug, PartialEq, Eq)]
pub struct Parent {
    /// The parent's level: one more than the node's.
    pub level: u8,
    /// The `mirror` that the parent has for the node.
    pub mirror: u64,
}

/// A node as its parent names it: where its page stands, and what it has to be there.
#[derive(Clone, Copy, Debug, PartialEq, Eq)]
pub struct Subtree {
    /// Where its page stands.
    pub at: HOff,
    /// The left boundary: nothing below the node is before it.
    pub left: Base,
    /// The right boundary: everything below the node is before it.
    pub right: Base,
    /// None for the root.
    pub parent: Option<Parent>,
}

impl Subtree {
    /// The whole tree, from its root on.
    pub fn root(at: HOff) -> Subtree
        ensures { result ≡ root_place at }
    {
        Subtree {
            at,
            left: Base::least(),
            right: Base::greatest(),
            parent: None,
        }
    }

    /// What is below the child in a place of an inner node.
    pub fn child(inner: &Inner, i: usize) -> Subtree
        requires { i < array_vec_len inner.now.places }
        ensures { slice_get (children_of inner.now) i ≡ Some result }
    {
        let child = &inner.places[i];
        Subtree {
            at: child.child,
            left: child.left,
            right: right_of(inner, i),
            parent: Some(Parent {
                level: inner.level,
                mirror: child.mirror,
            }),
        }
    }

    // The first rule of this place that the node in a page breaks, of those with a number below
    // `limit`, where the page keeps its own rules up to there.
    pub(crate) fn first_broken(&self, page: &Page, limit: u8) -> Option<PlaceRule>
        requires { (rule : NodeRule) → number_of rule < limit → Keeps page.now rule }
        ensures low { IfSome result (λ rule. place_number rule < limit) }
        ensures broken { IfSome result (λ rule. FitsBy self.now (node_in page.now) rule → ⊥) }
        ensures kept { IfSome result (λ rule. (other : PlaceRule) →
            place_number other < place_number rule → FitsBy self.now (node_in page.now) other) }
        ensures none { IfNone result ((rule : PlaceRule) →
            place_number rule < limit → FitsBy self.now (node_in page.now) rule) }
    {
        let head = Head::read(page);
        if limit <= BAD_LEVEL {
            return None;
        }
        if !self.fits_level(page, &head) {
            return Some(PlaceRule::Level);
        }
        if limit <= BAD_COUNT {
            return None;
        }
        if !self.fits_count(page, &head) {
            return Some(PlaceRule::Count);
        }
        if limit <= BAD_BOUNDS {
            return None;
        }
        if !self.fits_bounds(page, &head) {
            return Some(PlaceRule::Bounds);
        }
        if limit <= BAD_MIRROR {
            return None;
        }
        if !self.fits_mirror(page, &head) {
            return Some(PlaceRule::Mirror);
        }
        None
    }

    // The first rule of this place that the node in a page breaks, as a search checks them.
    pub(crate) fn first_unmet(&self, page: &Page) -> Option<PlaceRule>
        requires { HoldsNode page.now }
        ensures broken { IfSome result (λ rule. MeetsBy self.now (node_in page.now) rule → ⊥) }
        ensures kept { IfSome result (λ rule. (other : PlaceRule) →
            place_number other < place_number rule → MeetsBy self.now (node_in page.now) other) }
        ensures none { IfNone result ((rule : PlaceRule) → MeetsBy self.now (node_in page.now) rule) }
    {
        let head = Head::read(page);
        if !self.fits_level(page, &head) {
            return Some(PlaceRule::Level);
        }
        if !self.fits_count(page, &head) {
            return Some(PlaceRule::Count);
        }
        if !self.meets_bounds(page, &head) {
            return Some(PlaceRule::Bounds);
        }
        if !self.fits_mirror(page, &head) {
            return Some(PlaceRule::Mirror);
        }
        None
    }

    // Whether the node's level is the parent's less 1.
    fn fits_level(&self, page: &Page, head: &Head) -> bool
        requires head { head.now ≡ head_in page.now }
        requires says { SaysLevel page.now (node_in page.now) }
        ensures { IsTrue result ↔ FitsLevel self.now.parent (node_in page.now) }
    {
        match self.parent {
            None => true,
            Some(parent) => u16::from(head.level) + 1 == u16::from(parent.level),
        }
    }

    // Whether it has as many elements or children as its place asks for.
    fn fits_count(&self, page: &Page, head: &Head) -> bool
        requires { head.now ≡ head_in page.now }
        ensures { IsTrue result ↔ FitsCount self.now.parent (node_in page.now) }
    {
        match self.parent {
            None => true,
            Some(_) if head.kind == LEAF => 1 <= head.count,
            Some(_) => LEAST_PLACES <= usize::from(head.count),
        }
    }

    // Whether it lies inside the boundaries.
    fn fits_bounds(&self, page: &Page, head: &Head) -> bool
        requires head { head.now ≡ head_in page.now }
        requires count { HasCount (node_in page.now) }
        requires order { HasOrder (node_in page.now) }
        ensures { IsTrue result ↔ FitsBounds self.now.left self.now.right (node_in page.now) }
    {
        let count = usize::from(head.count);
        if head.kind == LEAF {
            self.holds_all(page, count)
        } else {
            self.bounds_all(page, count)
        }
    }

    // Whether it lies inside the boundaries, as its ends tell.
    fn meets_bounds(&self, page: &Page, head: &Head) -> bool
        requires head { head.now ≡ head_in page.now }
        requires count { HasCount (node_in page.now) }
        ensures { IsTrue result ↔ MeetsBounds self.now.left self.now.right (node_in page.now) }
    {
        let count = usize::from(head.count);
        if head.kind == LEAF {
            self.holds_ends(page, count)
        } else {
            self.bounds_all(page, count)
        }
    }

    // Whether the first and the last of so many elements lie inside the boundaries.
    fn holds_ends(&self, page: &Page, count: usize) -> bool
        requires { count ≤ 63 }
        ensures { IsTrue result ↔ (
            IsInsideAt self.now.left self.now.right (first_elements page.now count) 0
            × IsInsideAt self.now.left self.now.right (first_elements page.now count) (count - 1)) }
    {
        if count == 0 {
            return true;
        }
        if !self.holds(page, place(0)) {
            return false;
        }
        self.holds(page, place(count - 1))
    }

    // Whether the bases of so many elements in order lie inside the boundaries: the first and the
    // last do.
    fn holds_all(&self, page: &Page, count: usize) -> bool
        requires few { count ≤ 63 }
        requires order { IsStrictlySortedBy element_cmp (first_elements page.now count) }
        ensures { IsTrue result ↔ All (λ e. IsInside self.now.left self.now.right (element_key e))
            (first_elements page.now count) }
    {
        self.holds_ends(page, count)
    }

    // Whether the base from `at` on lies inside the boundaries.
    fn holds(&self, page: &Page, at: usize) -> bool
        requires { at + 40 ≤ PAGE_BYTES }
        ensures { IsTrue result ↔ IsInside self.now.left self.now.right (key_of (base_in page.now at)) }
    {
        !order_at(page, at, &self.left).is_lt() && order_at(page, at, &self.right).is_lt()
    }

    // Whether the first and the last boundary of so many children are these ones.
    fn bounds_all(&self, page: &Page, count: usize) -> bool
        requires { count ≤ 62 }
        ensures { IsTrue result ↔ ((key_of (base_in page.now (place_at 0)) ≡ key_of self.now.left)
            × (key_of (base_in page.now (place_at count)) ≡ key_of self.now.right)) }
    {
        is_at(page, place(0), &self.left) && is_at(page, place(count), &self.right)
    }

    // Whether its `mirror` is the one that the parent has for it.
    fn fits_mirror(&self, page: &Page, head: &Head) -> bool
        requires { head.now ≡ head_in page.now }
        ensures { IsTrue result ↔ FitsMirror self.now.parent (node_in page.now) }
    {
        match self.parent {
            None => true,
            Some(parent) => head.mirror == parent.mirror,
        }
    }
}

// The right boundary of a child: the left one of the next child, if there is one.
fn right_of(inner: &Inner, i: usize) -> Base
    requires { i < array_vec_len inner.now.places }
    ensures { result ≡ next_left inner.now.right (drop (i + 1) inner.now.places.items) }
{
    match inner.places.get(i + 1) {
        Some(next) => next.left,
        None => inner.right,
    }
}

// Whether the base from `at` on has the key of another one.
fn is_at(page: &Page, at: usize, other: &Base) -> bool
    requires { at + 40 ≤ PAGE_BYTES }
    ensures { IsTrue result ↔ (key_of (base_in page.now at) ≡ key_of other.now) }
{
    order_at(page, at, other).is_eq()
}
