// Edits of a node in its page.
ghost use Rattle.std.specs.Prelude.{◌≤◌, ◌<◌, max, insert, remove};
ghost use Rattle.hm_types.specs.Offset.{IsOffset};
ghost use Rattle.hm_types.specs.declared.limits.TheConstants.{MOST_LEAF_ELEMENTS};
ghost use Rattle.hm_key.specs.Elements.{closed_at, last_id, moved_to};
ghost use Rattle.hm_node.specs.Edits.{ChangesPlace, IsLeafPage, IsInnerPage, HoldsLeaf, SetsMirror};
ghost use Rattle.hm_node.specs.Head.{head_in};
ghost use Rattle.hm_node.specs.Leaf.{IsPlaced, element_in, leaf_in};
ghost use Rattle.hm_node.specs.Places.{place};

use crate::head::Head;
use crate::leaf::write_element;
use crate::places::{PLACE_BYTES, place};
use hm_fields::{Page, clear_bytes, get_u64, move_bytes, put_u16, put_u64};
use hm_key::Element;
use hm_types::HOff;

// Where the count and the `mirror` of a node stand in its page, and a child's `mirror` in its place.
const COUNT: usize = 2;

const MIRROR: usize = 8;

const CHILD_MIRROR: usize = 48;

// Where an element's delete id and its payload stand in its place.
const DELETE: usize = 24;

const PAYLOAD: usize = 40;

/// Puts an element in before the place `at` of a leaf that has room for one more, and raises the
/// leaf's `mirror` to its ids.
pub fn insert_element(page: &mut Page, at: usize, element: &Element)
    requires leaf { IsLeafPage page.old }
    requires at { at ≤ (head_in page.old).count }
    requires room { (head_in page.old).count < MOST_LEAF_ELEMENTS }
    requires element { IsPlaced element.now }
    ensures { HoldsLeaf page.new (max (leaf_in page.old).mirror (last_id element.now))
        (insert (leaf_in page.old).places.items at element.now) }
{
    let head = Head::read(page);
    let last = element.base.create.max(element.base.delete);
    move_bytes(
        page,
        place(at),
        place(usize::from(head.count)),
        place(at + 1),
    );
    write_element(element, page, place(at));
    put_u16(page, COUNT, head.count + 1);
    put_u64(page, MIRROR, head.mirror.max(last));
}

/// Takes the element at a place of a leaf out.
#[tactic(auto, using(crate::proofs::EditLemmas::leaf_few))]
pub fn remove_element(page: &mut Page, at: usize)
    requires leaf { IsLeafPage page.old }
    requires at { at < (head_in page.old).count }
    ensures { HoldsLeaf page.new (leaf_in page.old).mirror
        (remove (leaf_in page.old).places.items at) }
{
    let count = Head::read(page).count;
    let end = place(usize::from(count));
    move_bytes(page, place(at + 1), end, place(at));
    clear_bytes(page, end - PLACE_BYTES, end);
    put_u16(page, COUNT, count - 1);
}

/// Gives the element at a place of a leaf another delete id, to which the leaf's `mirror` is raised.
#[tactic(auto, using(crate::proofs::EditLemmas::leaf_few))]
pub fn put_delete(page: &mut Page, at: usize, delete: u64)
    requires leaf { IsLeafPage page.old }
    requires at { at < (head_in page.old).count }
    requires element { IsPlaced (closed_at delete (element_in page.old (place at))) }
    ensures { ChangesPlace (closed_at delete) at (max (leaf_in page.old).mirror delete)
        page.old page.new }
{
    let mirror = Head::read(page).mirror;
    put_u64(page, place(at) + DELETE, delete);
    put_u64(page, MIRROR, mirror.max(delete));
}

/// Lets the payload of the element at a place of a leaf stand elsewhere.
#[tactic(auto, using(crate::proofs::EditLemmas::leaf_few))]
pub fn put_payload(page: &mut Page, at: usize, to: HOff)
    requires leaf { IsLeafPage page.old }
    requires at { at < (head_in page.old).count }
    requires to { IsOffset to }
    ensures { ChangesPlace (moved_to to) at (leaf_in page.old).mirror page.old page.new }
{
    put_u64(page, place(at) + PAYLOAD, to.raw());
}

/// Gives the child at a place of an inner node this `mirror`, to which the node's own is raised.
/// Answers whether that changed the page.
pub fn set_mirror(page: &mut Page, at: usize, mirror: u64) -> bool
    requires inner { IsInnerPage page.old }
    requires at { at < (head_in page.old).count }
    ensures { SetsMirror at mirror page.old page.new result }
{
    let head = Head::read(page);
    if mirror <= head.mirror && get_u64(page, place(at) + CHILD_MIRROR) == mirror {
        return false;
    }
    put_u64(page, place(at) + CHILD_MIRROR, mirror);
    put_u64(page, MIRROR, head.mirror.max(mirror));
    true
}
