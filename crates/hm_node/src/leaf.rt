// Leaves, and their elements in a page.
ghost use Rattle.std.specs.Prelude.{◌≡◌, ◌≤◌, ◌+◌, ◌↔◌, [], ℕ, List, length, IsTrue, IfSome, IfNone, All};
ghost use Rattle.hm_types.specs.Offset.{IsOffset};
ghost use Rattle.hm_types.specs.declared.limits.TheConstants.{PAGE_BYTES};
ghost use Rattle.hm_fields.specs.Fields.{Apart, get};
ghost use Rattle.hm_key.specs.Element.{IsElement};
ghost use Rattle.hm_node.specs.Base.{base_in};
ghost use Rattle.hm_node.specs.Edits.{IsLeafPage};
ghost use Rattle.hm_node.specs.Head.{head_in};
ghost use Rattle.hm_node.specs.Places.{IsZero, IsWritten};
ghost use Rattle.hm_node.specs.Leaf.{element_in, first_elements, leaf_in, IsElementPlace, ArePlaces, AreLeafPlaces, IsUpTo};
ghost use Rattle.hm_node.specs.Node.{Spells};
ghost use Rattle.hm_node.specs.Damage.{Keeps, IsFirstBroken};
ghost use Rattle.hm_node.specs.declared.head.TheConstants.{LEAF, LEAF_LEVEL};
ghost use Rattle.hm_node.specs.declared.node.Node.TheVariants.{Leaf as leaf_node};

use crate::base::{read_base, read_offset, write_base};
use crate::head::{Head, LEAF, LEAF_LEVEL};
use crate::places::{are_rising, are_zero, is_next, is_zero_outside, is_zero_u32, place};
use crate::rule::Rule;
use arrayvec::ArrayVec;
use hm_fields::{Page, get_u32, get_u64, put_u32, put_u64};
use hm_key::{Base, Element, is_element};
use hm_types::{HOff, MOST_LEAF_ELEMENTS};

/// A leaf of the tree.
#[derive(Debug, Drop, PartialEq, Eq)]
pub struct Leaf {
    /// No id that made or closed one of its elements is above this one.
    pub mirror: u64,
    /// Its elements, in the order of their keys.
    pub places: ArrayVec<Element, 63>,
}

impl Leaf {
    // The first rule that a page breaks that says that it holds a leaf.
    pub(crate) fn broken_rule(page: &Page, head: &Head) -> Option<Rule>
        requires head { head.now ≡ head_in page.now }
        requires kind { head.now.kind ≡ LEAF }
        requires level { head.now.level ≡ LEAF_LEVEL }
        ensures none { IfNone result ((rule : Rule) → Keeps page.now rule) }
        ensures some { IfSome result (λ rule. IsFirstBroken page.now rule) }
    {
        let count = usize::from(head.count);
        if MOST_LEAF_ELEMENTS < count {
            return Some(Rule::Count);
        }
        match look_over(page, count, head.mirror) {
            Some(true) => None,
            Some(false) => Some(Rule::Mirror),
            None if are_rising(page, count) => Some(Rule::Fields),
            None => Some(Rule::Order),
        }
    }

    /// The leaf in a page that holds one. Nothing is checked.
    pub fn of(page: &Page) -> Leaf
        requires { IsLeafPage page.now }
        ensures { result ≡ leaf_in page.now }
    {
        let head = Head::read(page);
        let mut places = ArrayVec::new();
        read_elements(page, usize::from(head.count), &mut places);
        Leaf {
            mirror: head.mirror,
            places,
        }
    }

    /// Writes the leaf as the whole page.
    pub fn write(&self, page: &mut Page)
        ensures { Spells page.new (leaf_node self.now) }
    {
        page.clear();
        let head = Head {
            kind: LEAF,
            level: LEAF_LEVEL,
            count: self.places.len() as u16,
            mirror: self.mirror,
        };
        head.write(page);
        write_elements(self.places.as_slice(), page);
    }
}

// Goes once over so many places. None where their order or a field is broken, and else whether none has
// an id above `mirror`.
fn look_over(page: &Page, count: usize, mirror: u64) -> Option<bool>
    requires { count ≤ 63 }
    ensures none { IfNone result (AreLeafPlaces page.now count → ⊥) }
    ensures some { IfSome result (λ within. AreLeafPlaces page.now count ×
        (IsTrue within ↔ All (IsUpTo mirror) (first_elements page.now count))) }
{
    if !is_zero_outside(page, place(count)) {
        return None;
    }
    let mut within = true;
    let mut before = read_base(page, place(0));
    for i in 0..count {
        let at = place(i);
        let base = read_base(page, at);
        if !is_next(i, &before, &base) {
            return None;
        }
        if !is_element_place(&base, page, at) {
            return None;
        }
        within &= is_up_to(&base, mirror);
        before = base;
    }
    Some(within)
}

// Whether a base has no id above `mirror`.
fn is_up_to(base: &Base, mirror: u64) -> bool
    ensures { IsTrue result ↔ ((base.now.create ≤ mirror) × (base.now.delete ≤ mirror)) }
{
    base.create <= mirror && base.delete <= mirror
}

// Whether a place with this base has an element that may stand in a leaf, and 0 after it.
fn is_element_place(base: &Base, page: &Page, at: usize) -> bool
    requires within { at + 64 ≤ PAGE_BYTES }
    requires base { base.now ≡ base_in page.now at }
    ensures { IsTrue result ↔ IsElementPlace page.now at }
{
    match HOff::from_raw(get_u64(page, at + 40)) {
        Some(payload) => {
            let element = Element {
                base: *base,
                payload,
                len: get_u32(page, at + 48),
            };
            may_stand(&element, page, at)
        }
        None => false,
    }
}

// Reads the elements of so many places into an empty vector.
fn read_elements(page: &Page, count: usize, into: &mut ArrayVec<Element, 63>)
    requires count { count ≤ 63 }
    requires places { ArePlaces page.now count }
    requires empty { into.old.items ≡ [] }
    ensures { into.new.items ≡ first_elements page.now count }
{
    for i in 0..count {
        into.push(read_element(page, place(i)));
    }
}

/// The element in the place that begins at `at`, in bytes from the start of the page. Its payload
/// has to have an offset.
pub fn read_element(page: &Page, at: usize) -> Element
    requires within { at + 64 ≤ PAGE_BYTES }
    requires offset { IsOffset (get page.now (at + 40) 8) }
    ensures { result ≡ element_in page.now at }
{
    Element {
        base: read_base(page, at),
        payload: read_offset(page, at + 40),
        len: get_u32(page, at + 48),
    }
}

// Whether an element that was read from a place may stand in a leaf, and the rest of the place is 0.
fn may_stand(element: &Element, page: &Page, at: usize) -> bool
    requires { at + 64 ≤ PAGE_BYTES }
    ensures { IsTrue result ↔ (IsElement element.now × IsZero page.now (at + 52) (at + 64)) }
{
    is_element(element) && is_zero_u32(page, at + 52) && are_zero(page, at + 56, 1)
}

// Writes elements into the first places of a page whose places are 0.
fn write_elements(elements: &[Element], page: &mut Page)
    requires few { length elements.now ≤ 63 }
    requires zero { IsZero page.old 64 PAGE_BYTES }
    requires sized { length page.old ≡ PAGE_BYTES }
    ensures { IsWritten element_in 52 elements.now page.old page.new }
{
    for i in 0..elements.len() {
        write_element(&elements[i], page, place(i));
    }
}

// Writes an element into the first 52 bytes of a place.
pub(crate) fn write_element(element: &Element, page: &mut Page, at: usize)
    requires { at + 52 ≤ PAGE_BYTES }
    ensures value { element_in page.new at ≡ element.now }
    ensures others { (other width : ℕ) → Apart at 52 other width →
        get page.new other width ≡ get page.old other width }
    ensures sized { length page.new ≡ PAGE_BYTES }
{
    write_base(&element.base, page, at);
    put_u64(page, at + 40, element.payload.raw());
    put_u32(page, at + 48, element.len);
}
