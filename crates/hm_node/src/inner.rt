// Inner nodes, and their children in a page.
ghost use Rattle.std.specs.Prelude.{◌≡◌, ◌≤◌, ◌+◌, ◌↔◌, [], ℕ, List, length, All};
ghost use Rattle.std.specs.Prelude.{IsTrue, IfSome, IfNone};
ghost use Rattle.hm_types.specs.Offset.{IsOffset};
ghost use Rattle.hm_types.specs.declared.limits.TheConstants.{PAGE_BYTES, MOST_INNER_CHILDREN, MOST_LEVELS};
ghost use Rattle.hm_fields.specs.Fields.{Apart, get};
ghost use Rattle.hm_key.specs.declared.base.Base.{Base};
ghost use Rattle.hm_node.specs.Base.{base_in};
ghost use Rattle.hm_node.specs.Edits.{IsInnerPage};
ghost use Rattle.hm_node.specs.Head.{head_in};
ghost use Rattle.hm_node.specs.Places.{place, IsZero, IsWritten};
ghost use Rattle.hm_node.specs.Inner.{child_in, first_children, inner_in};
ghost use Rattle.hm_node.specs.Inner.{IsBound, IsNodeOffset, IsChild, IsChildPlace, AreChildPlaces, AreInnerPlaces};
ghost use Rattle.hm_node.specs.Node.{Spells, SaysLevel, HasLevel, node_in};
ghost use Rattle.hm_node.specs.Damage.{Keeps, IsFirstBroken};
ghost use Rattle.hm_node.specs.declared.head.TheConstants.{INNER};
ghost use Rattle.hm_node.specs.declared.node.Node.TheVariants.{Inner as inner_node};

use crate::base::{read_base, read_offset, write_base};
use crate::head::{Head, INNER};
use crate::places::{are_rising, are_zero, is_before, is_zero_outside, place};
use crate::rule::Rule;
use arrayvec::ArrayVec;
use hm_fields::{Page, get_u64, put_u64};
use hm_key::{BOUNDARY, Base};
use hm_types::{HOff, MOST_INNER_CHILDREN, MOST_LEVELS, PAGE_BYTES, TREE_ZONE};

/// A child of an inner node.
#[derive(Clone, Copy, Debug, Default, PartialEq, Eq)]
pub struct Child {
    /// The left boundary of what is below it.
    pub left: Base,
    /// Where its page stands.
    pub child: HOff,
    /// The `mirror` of its page.
    pub mirror: u64,
}

/// An inner node of the tree.
#[derive(Debug, Drop, PartialEq, Eq)]
pub struct Inner {
    /// 2 to 9: one more than the level of its children.
    pub level: u8,
    /// No `mirror` of its children is above this one.
    pub mirror: u64,
    /// Its children, in the order of their left boundaries.
    pub places: ArrayVec<Child, 62>,
    /// The right boundary of its last child.
    pub right: Base,
}

impl Inner {
    // The first rule that a page breaks that says that it holds an inner node.
    pub(crate) fn broken_rule(page: &Page, head: &Head) -> Option<Rule>
        requires head { head.now ≡ head_in page.now }
        requires kind { head.now.kind ≡ INNER }
        ensures none { IfNone result ((rule : Rule) → Keeps page.now rule) }
        ensures some { IfSome result (λ rule. IsFirstBroken page.now rule) }
    {
        let count = usize::from(head.count);
        if !is_inner_level(head.level) {
            return Some(Rule::Level);
        }
        if !is_inner_count(count) {
            return Some(Rule::Count);
        }
        match look_over(page, count, head.mirror) {
            Some(true) => None,
            Some(false) => Some(Rule::Mirror),
            None if are_rising(page, count + 1) => Some(Rule::Fields),
            None => Some(Rule::Order),
        }
    }

    /// The inner node in a page that holds one. Nothing is checked.
    pub fn of(page: &Page) -> Inner
        requires { IsInnerPage page.now }
        ensures { result ≡ inner_in page.now }
    {
        let head = Head::read(page);
        let count = usize::from(head.count);
        let mut places = ArrayVec::new();
        read_children(page, count, &mut places);
        Inner {
            level: head.level,
            mirror: head.mirror,
            places,
            right: read_base(page, place(count)),
        }
    }

    /// Writes the inner node as the whole page.
    pub fn write(&self, page: &mut Page)
        ensures { Spells page.new (inner_node self.now) }
    {
        page.clear();
        let count = self.places.len();
        let head = Head {
            kind: INNER,
            level: self.level,
            count: count as u16,
            mirror: self.mirror,
        };
        head.write(page);
        write_children(self.places.as_slice(), page);
        write_base(&self.right, page, place(count));
    }
}

// Whether an inner node may have this level.
fn is_inner_level(level: u8) -> bool
    ensures { IsTrue result ↔ ((2 ≤ level) × (level ≤ MOST_LEVELS)) }
{
    2 <= level && level <= MOST_LEVELS
}

// Whether an inner node may have so many children.
fn is_inner_count(count: usize) -> bool
    ensures { IsTrue result ↔ ((1 ≤ count) × (count ≤ MOST_INNER_CHILDREN)) }
{
    1 <= count && count <= MOST_INNER_CHILDREN
}

// Goes once over so many places and the right boundary behind them: each boundary is looked at with the
// next one. None where their order or a field is broken, and else whether no child has a `mirror` above
// this one.
fn look_over(page: &Page, count: usize, mirror: u64) -> Option<bool>
    requires { count ≤ 62 }
    ensures none { IfNone result (AreInnerPlaces page.now count → ⊥) }
    ensures some { IfSome result (λ within. AreInnerPlaces page.now count ×
        (IsTrue within ↔ All (λ c. c.mirror ≤ mirror) (first_children page.now count))) }
{
    if !is_zero_outside(page, place(count) + 40) {
        return None;
    }
    let mut within = true;
    let mut left = read_base(page, place(0));
    for i in 0..count {
        let at = place(i);
        let right = read_base(page, place(i + 1));
        if !is_before(&left, &right) {
            return None;
        }
        if !is_child_place(&left, page, at) {
            return None;
        }
        within &= get_u64(page, at + 48) <= mirror;
        left = right;
    }
    if !is_bound(&left) {
        return None;
    }
    Some(within)
}

// Whether a base may stand as a boundary.
fn is_bound(base: &Base) -> bool
    ensures { IsTrue result ↔ IsBound base.now }
{
    base.delete == 0 && base.obj_type == 0 && base.btype == BOUNDARY
}

/// Whether a node may stand at an offset: a multiple of 4,096 in the zone of the B-tree.
pub fn is_node_offset(at: HOff) -> bool
    ensures { IsTrue result ↔ IsNodeOffset at }
{
    at.zone() == TREE_ZONE && at.byte() % PAGE_BYTES as u64 == 0
}

// Whether a place with this base has a child that may stand in an inner node, and 0 after it.
fn is_child_place(left: &Base, page: &Page, at: usize) -> bool
    requires within { at + 64 ≤ PAGE_BYTES }
    requires left { left.now ≡ base_in page.now at }
    ensures { IsTrue result ↔ IsChildPlace page.now at }
{
    match HOff::from_raw(get_u64(page, at + 40)) {
        Some(child) => {
            let child = Child {
                left: *left,
                child,
                mirror: get_u64(page, at + 48),
            };
            may_stand(&child, page, at)
        }
        None => false,
    }
}

// Reads the children of so many places into an empty vector.
fn read_children(page: &Page, count: usize, into: &mut ArrayVec<Child, 62>)
    requires count { count ≤ 62 }
    requires places { AreChildPlaces page.now count }
    requires empty { into.old.items ≡ [] }
    ensures { into.new.items ≡ first_children page.now count }
{
    for i in 0..count {
        into.push(read_child(page, place(i)));
    }
}

/// The child in the place that begins at `at`, in bytes from the start of the page. It has to have
/// an offset.
pub fn read_child(page: &Page, at: usize) -> Child
    requires within { at + 64 ≤ PAGE_BYTES }
    requires offset { IsOffset (get page.now (at + 40) 8) }
    ensures { result ≡ child_in page.now at }
{
    Child {
        left: read_base(page, at),
        child: read_offset(page, at + 40),
        mirror: get_u64(page, at + 48),
    }
}

// Whether a child that was read from a place may stand in an inner node, and the rest of the place is 0.
fn may_stand(child: &Child, page: &Page, at: usize) -> bool
    requires { at + 64 ≤ PAGE_BYTES }
    ensures { IsTrue result ↔ (IsChild child.now × IsZero page.now (at + 56) (at + 64)) }
{
    is_bound(&child.left) && is_node_offset(child.child) && are_zero(page, at + 56, 1)
}

// Writes children into the first places of a page whose places are 0.
fn write_children(children: &[Child], page: &mut Page)
    requires few { length children.now ≤ 62 }
    requires zero { IsZero page.old 64 PAGE_BYTES }
    requires sized { length page.old ≡ PAGE_BYTES }
    ensures { IsWritten child_in 56 children.now page.old page.new }
{
    for i in 0..children.len() {
        write_child(&children[i], page, place(i));
    }
}

// Writes a child into the first 56 bytes of a place.
fn write_child(child: &Child, page: &mut Page, at: usize)
    requires { at + 56 ≤ PAGE_BYTES }
    ensures value { child_in page.new at ≡ child.now }
    ensures others { (other width : ℕ) → Apart at 56 other width →
        get page.new other width ≡ get page.old other width }
    ensures sized { length page.new ≡ PAGE_BYTES }
{
    write_base(&child.left, page, at);
    put_u64(page, at + 40, child.child.raw());
    put_u64(page, at + 48, child.mirror);
}
