// Edits of inner nodes.
ghost use Rattle.std.specs.Prelude.{◌≡◌, ◌+◌, ◌/◌, ◌≤◌, ◌<◌, ◌++◌, if◌then◌else◌, false, max};
ghost use Rattle.std.specs.Prelude.{take, drop, insert, remove, nat_eq, nat_lt};
ghost use Rattle.arrayvec.specs.ArrayVec.{array_vec_len};
ghost use Rattle.hm_btree.specs.Edits.{ChildChange, InnerGrown, inner_of, left_of, lower_count};
ghost use Rattle.hm_btree.specs.Edits.{with_child, with_left, with_mirror};
ghost use Rattle.hm_node.specs.Edits.{IsInnerPage};
ghost use Rattle.hm_node.specs.Head.{head_in};
ghost use Rattle.hm_node.specs.Inner.{IsNodeOffset};
ghost use Rattle.hm_btree.specs.Calls.Move.{SetsChild};

use crate::places::{append, insert_and_split, share_out};
use hm_fields::Page;
use hm_key::Base;
use hm_node::{Child, Inner};
use hm_types::HOff;

/// Gives the child at a place this `mirror`, to which the node's own is raised. Answers whether that
/// changed the node.
pub fn give_mirror(inner: &mut Inner, at: usize, mirror: u64) -> bool
    requires { at < array_vec_len inner.old.places }
    ensures level { inner.new.level ≡ inner.old.level }
    ensures mirror { inner.new.mirror ≡ max inner.old.mirror mirror }
    ensures items { ChildChange (with_mirror mirror)
        inner.old.places.items at inner.new.places.items }
    ensures right { inner.new.right ≡ inner.old.right }
    ensures same { result ≡ false → inner.new ≡ inner.old }
{
    if mirror <= inner.mirror && inner.places[at].mirror == mirror {
        return false;
    }
    inner.mirror = inner.mirror.max(mirror);
    if let Some(child) = inner.places.get_mut(at) {
        child.mirror = mirror;
    }
    true
}

/// Gives the child at a place another left boundary.
pub fn set_left(inner: &mut Inner, at: usize, left: Base)
    requires { at < array_vec_len inner.old.places }
    ensures level { inner.new.level ≡ inner.old.level }
    ensures mirror { inner.new.mirror ≡ inner.old.mirror }
    ensures items { ChildChange (with_left left)
        inner.old.places.items at inner.new.places.items }
    ensures right { inner.new.right ≡ inner.old.right }
{
    if let Some(child) = inner.places.get_mut(at) {
        child.left = left;
    }
}

/// Lets the child at a place stand elsewhere.
pub fn set_child(inner: &mut Inner, at: usize, to: HOff)
    requires { at < array_vec_len inner.old.places }
    ensures level { inner.new.level ≡ inner.old.level }
    ensures mirror { inner.new.mirror ≡ inner.old.mirror }
    ensures items { ChildChange (with_child to)
        inner.old.places.items at inner.new.places.items }
    ensures right { inner.new.right ≡ inner.old.right }
{
    if let Some(child) = inner.places.get_mut(at) {
        child.child = to;
    }
}

/// Lets the child at a place of the inner node in a page stand elsewhere.
pub fn set_child_in(page: &mut Page, at: usize, to: HOff)
    requires inner { IsInnerPage page.old }
    requires within { at < (head_in page.old).count }
    requires to { IsNodeOffset to }
    ensures { SetsChild at to page.old page.new }
{
    let mut inner = Inner::of(page);
    set_child(&mut inner, at, to);
    inner.write(page);
}

/// Puts a child in before the place `at`, and raises the node's `mirror` to the child's. A node
/// that is full becomes two: it keeps the lower part, and gives a new one with the others.
pub fn insert_child(inner: &mut Inner, at: usize, child: Child) -> Option<Inner>
    requires { at ≤ array_vec_len inner.old.places }
    ensures { InnerGrown (lower_count 62 at (nat_eq at 62)) inner.old.level (max inner.old.mirror child.mirror)
        (insert inner.old.places.items at child) inner.old.right inner.new result }
{
    inner.mirror = inner.mirror.max(child.mirror);
    if inner.places.is_full() {
        let ends = at == inner.places.len();
        let places = insert_and_split(&mut inner.places, at, child, ends);
        let right = inner.right;
        inner.right = first_left(places.as_slice(), right);
        Some(Inner {
            level: inner.level,
            mirror: inner.mirror,
            places,
            right,
        })
    } else {
        inner.places.insert(at, child);
        None
    }
}

/// Takes the child at a place out.
pub fn remove_child(inner: &mut Inner, at: usize)
    requires { at < array_vec_len inner.old.places }
    ensures { inner.new ≡ inner_of inner.old.level inner.old.mirror
        (remove inner.old.places.items at) inner.old.right }
{
    inner.places.remove(at);
}

/// Puts the children of the right one of two neighbours into the left one, which takes its range
/// over.
pub fn merge_inners(left: &mut Inner, right: &Inner)
    requires { array_vec_len left.old.places + array_vec_len right.now.places ≤ 62 }
    ensures { left.new ≡ inner_of left.old.level (max left.old.mirror right.now.mirror)
        (left.old.places.items ++ right.now.places.items) right.now.right }
{
    left.mirror = left.mirror.max(right.mirror);
    left.right = right.right;
    append(&mut left.places, right.places.as_slice());
}

/// Shares the children of two neighbours out evenly. The one that gets some of the other takes its
/// range over, and so its `mirror` where that is greater.
pub fn share_inners(left: &mut Inner, right: &mut Inner)
    ensures { let count = (array_vec_len left.old.places + array_vec_len right.old.places) / 2 in
        let gains = nat_lt (array_vec_len left.old.places) count in
        let most = max left.old.mirror right.old.mirror in
        let all = left.old.places.items ++ right.old.places.items in
        (left.new ≡ inner_of left.old.level (if gains then most else left.old.mirror)
        (take count all) (left_of (drop count all) left.old.right))
        × (right.new ≡ inner_of right.old.level (if gains then right.old.mirror else most)
        (drop count all) right.old.right) }
{
    let count = (left.places.len() + right.places.len()) / 2;
    let most = left.mirror.max(right.mirror);
    if left.places.len() < count {
        left.mirror = most;
    } else {
        right.mirror = most;
    }
    share_out(&mut left.places, &mut right.places, count);
    left.right = first_left(right.places.as_slice(), left.right);
}

/// The left boundary of some children, or what comes after them where there are none.
fn first_left(children: &[Child], after: Base) -> Base
    ensures { result ≡ left_of children.now after }
{
    match children {
        [first, ..] => first.left,
        [] => after,
    }
}
