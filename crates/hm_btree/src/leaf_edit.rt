// Edits of leaves.
ghost use Rattle.std.specs.Prelude.{◌≡◌, ◌+◌, ◌/◌, ◌≤◌, ◌++◌, if◌then◌else◌, max, take, drop, insert, nat_lt};
ghost use Rattle.arrayvec.specs.ArrayVec.{array_vec_len};
ghost use Rattle.hm_key.specs.Elements.{last_id};
ghost use Rattle.hm_btree.specs.Edits.{leaf_of, lower_count, LeafGrown};

use crate::places::{append, insert_and_split, share_out};
use hm_key::Element;
use hm_node::Leaf;

/// Puts an element in before the place `at`, and raises the leaf's `mirror` to its ids. A leaf that
/// is full becomes two: it keeps the lower part, and gives a new one with the others. It is said whether
/// the element ends a range whose keys rise.
pub fn insert_and_cut(leaf: &mut Leaf, at: usize, element: &Element, ends: bool) -> Option<Leaf>
    requires { at ≤ array_vec_len leaf.old.places }
    ensures { LeafGrown (lower_count 63 at ends) (max leaf.old.mirror (last_id element.now))
        (insert leaf.old.places.items at element.now) leaf.new result }
{
    leaf.mirror = leaf
        .mirror
        .max(element.base.create.max(element.base.delete));
    if leaf.places.is_full() {
        Some(Leaf {
            mirror: leaf.mirror,
            places: insert_and_split(&mut leaf.places, at, *element, ends),
        })
    } else {
        leaf.places.insert(at, *element);
        None
    }
}

/// Puts the elements of the right one of two neighbours into the left one, which takes its range
/// over.
pub fn merge_leaves(left: &mut Leaf, right: &Leaf)
    requires { array_vec_len left.old.places + array_vec_len right.now.places ≤ 63 }
    ensures { left.new ≡ leaf_of (max left.old.mirror right.now.mirror)
        (left.old.places.items ++ right.now.places.items) }
{
    left.mirror = left.mirror.max(right.mirror);
    append(&mut left.places, right.places.as_slice());
}

/// Shares the elements of two neighbours out evenly. The one that gets some of the other takes its
/// range over, and so its `mirror` where that is greater.
pub fn share_leaves(left: &mut Leaf, right: &mut Leaf)
    ensures { let count = (array_vec_len left.old.places + array_vec_len right.old.places) / 2 in
        let gains = nat_lt (array_vec_len left.old.places) count in
        let most = max left.old.mirror right.old.mirror in
        let all = left.old.places.items ++ right.old.places.items in
        (left.new ≡ leaf_of (if gains then most else left.old.mirror) (take count all))
        × (right.new ≡ leaf_of (if gains then right.old.mirror else most) (drop count all)) }
{
    let count = (left.places.len() + right.places.len()) / 2;
    let most = left.mirror.max(right.mirror);
    if left.places.len() < count {
        left.mirror = most;
    } else {
        right.mirror = most;
    }
    share_out(&mut left.places, &mut right.places, count);
}
