// The places of a page, and the bytes of it that are 0.
ghost use Rattle.std.specs.Prelude.{◌≡◌, ◌≤◌, ◌<◌, ◌+◌, ◌*◌, ◌%◌, ◌↔◌, IsTrue};
ghost use Rattle.std.specs.List.Sorted.{IsStrictlySortedBy};
ghost use Rattle.std.specs.declared.cmp.Ordering.TheVariants.{Less};
ghost use Rattle.hm_types.specs.declared.limits.TheConstants.{PAGE_BYTES};
ghost use Rattle.hm_node.specs.Base.{base_cmp, base_in};
ghost use Rattle.hm_node.specs.Places.{place, bases_in, IsZero, IsZeroOutside};

use crate::base::read_base;
use hm_fields::{Page, get_u16, get_u32, get_u64};
use hm_key::Base;
use hm_types::PAGE_BYTES;
use std::cmp::Ordering;

// The size of a place, and that of the head before the first one, in bytes.
pub(crate) const PLACE_BYTES: usize = 64;

/// Where a place begins, in bytes from the start of the page.
pub fn place(number: usize) -> usize
    requires { number ≤ 63 }
    ensures { result ≡ place number }
{
    PLACE_BYTES + PLACE_BYTES * number
}

// Whether the 4 bytes from `at` on are 0.
pub(crate) fn is_zero_u32(page: &Page, at: usize) -> bool
    requires { at + 4 ≤ PAGE_BYTES }
    ensures { IsTrue result ↔ IsZero page.now at (at + 4) }
{
    get_u32(page, at) == 0
}

// Whether so many times 8 bytes are 0.
pub(crate) fn are_zero(page: &Page, from: usize, words: usize) -> bool
    requires { from + 8 * words ≤ PAGE_BYTES }
    ensures { IsTrue result ↔ IsZero page.now from (from + 8 * words) }
{
    for i in 0..words {
        if get_u64(page, from + 8 * i) != 0 {
            return false;
        }
    }
    true
}

// Whether the bytes of the head that have no meaning, and all bytes from `end` on, are 0.
pub(crate) fn is_zero_outside(page: &Page, end: usize) -> bool
    requires within { end ≤ PAGE_BYTES }
    requires aligned { end % 8 ≡ 0 }
    ensures { IsTrue result ↔ IsZeroOutside page.now end }
{
    is_zero_u32(page, 4) && are_zero(page, 16, 6) && are_zero(page, end, (PAGE_BYTES - end) / 8)
}

/// Whether one base stands before another in the tree, by their keys. Unlike `order`, it ends at the first
/// field in which they differ.
pub fn is_before(first: &Base, second: &Base) -> bool
    ensures { IsTrue result ↔ (base_cmp first.now second.now ≡ Less) }
{
    if first.localization != second.localization {
        return first.localization < second.localization;
    }
    if first.obj.0 != second.obj.0 {
        return first.obj.0 < second.obj.0;
    }
    if first.rec_type != second.rec_type {
        return first.rec_type < second.rec_type;
    }
    if first.key != second.key {
        return first.key < second.key;
    }
    first.create < second.create
}

/// How the base in the 40 bytes from `at` on stands to another one in the tree, by their keys. It reads no
/// field behind the first in which they differ.
#[tactic(auto, unfolding(crate::specs::Base::base_in))]
pub fn order_at(page: &Page, at: usize, other: &Base) -> Ordering
    requires { at + 40 ≤ PAGE_BYTES }
    ensures { result ≡ base_cmp (base_in page.now at) other.now }
{
    let localization = get_u32(page, at + 36);
    if localization != other.localization {
        return localization.cmp(&other.localization);
    }
    let obj = get_u64(page, at);
    if obj != other.obj.0 {
        return obj.cmp(&other.obj.0);
    }
    let rec_type = get_u16(page, at + 32);
    if rec_type != other.rec_type {
        return rec_type.cmp(&other.rec_type);
    }
    let key = get_u64(page, at + 8);
    if key != other.key {
        return key.cmp(&other.key);
    }
    get_u64(page, at + 16).cmp(&other.create)
}

// Whether the base in this place stands after the one before it, if it is not the first.
pub(crate) fn is_next(number: usize, before: &Base, base: &Base) -> bool
    ensures { IsTrue result ↔ (0 < number → base_cmp before.now base.now ≡ Less) }
{
    number == 0 || is_before(before, base)
}

// Whether the bases of so many places are in strictly rising order.
pub(crate) fn are_rising(page: &Page, count: usize) -> bool
    requires { count ≤ 63 }
    ensures { IsTrue result ↔ IsStrictlySortedBy base_cmp (bases_in page.now count) }
{
    let mut before = read_base(page, place(0));
    for i in 0..count {
        let base = read_base(page, place(i));
        if !is_next(i, &before, &base) {
            return false;
        }
        before = base;
    }
    true
}
