// One call of a tree over a lent space.
ghost use Rattle.std.specs.Prelude.{◌≡◌, ◌⊎◌, ◌<◌, ◌≤◌, IfOk, IfSome, IsNone, IsSome};
ghost use Rattle.hm_types.specs.Faults.{HasStoreCause};
ghost use Rattle.hm_types.specs.Space.{in_zone, nothing};
ghost use Rattle.std.specs.List.Sorted.{IsNonDecreasing};
ghost use Rattle.hm_btree.specs.Calls.Choice.{FindsFrom};
ghost use Rattle.hm_btree.specs.Tree.{HoldsTree};
ghost use Rattle.hm_key.specs.Element.{IsElement};
ghost use Rattle.hm_key.specs.Elements.{element_at, first_from, inserted, last_id, last_to, removed, with_delete, with_payload};
ghost use Rattle.hm_key.specs.Key.{IsBefore, greatest_key, key_of};
ghost use Rattle.hm_key.specs.Marks.{IsQuiet, Marks, MarksJoin, MarksStay};
ghost use Rattle.hm_key.specs.Stores.{IsEnd, IsFound, IsFoundTo};
ghost use Rattle.hm_stored.specs.Heap.{pages_of, room_of};
ghost use Rattle.hm_stored.specs.Moving.{MovesNodeTo, StandsIn, outcome};
ghost use Rattle.hm_stored.specs.Space.{heap};
ghost use Rattle.hm_stored.specs.Told.{ReadsTree, WritesTree, elements_told, mark_told};

use crate::space::Space;
use hm_btree::{BTree, NODE_BYTES};
use hm_disk::Disk;
use hm_key::{Base, Element, ElementStore};
use hm_search::Subtree;
use hm_types::{Fault, HOff, INSERT_ROOM, Id, TREE_ZONE};

/// Adds an element, at whose key there is none. Answers where the root stands then.
pub(crate) fn insert<D: Disk>(
    space: &mut Space<D>,
    root: HOff,
    e: &Element,
) -> (HOff, Result<(), Fault>)
    requires tree { HoldsTree (pages_of (heap space.old)) root }
    requires new { IfSome (elements_told (heap space.old) root)
        (λ es. IsNone (element_at (key_of e.now.base) es)) }
    requires element { IsElement e.now }
    requires room { INSERT_ROOM ≤ room_of (heap space.old) TREE_ZONE }
    ensures writes { WritesTree (in_zone TREE_ZONE INSERT_ROOM) (inserted e.now) (Marks (key_of e.now.base) (last_id e.now))
        (heap space.old) (heap space.new) root result.0 result.1 }
    ensures cause { HasStoreCause (elements_told (heap space.old) root)
        (D.faults space.old.disk) (D.faults space.new.disk) result.1 }
    ensures past { D.past space.new.disk ≡ D.past space.old.disk }
{
    let mut tree = BTree::over(space, root);
    let answer = tree.insert(e);
    let (space, root) = tree.into_parts();
    space.end_change(answer.is_ok());
    (root, answer)
}

/// Closes the element at the key of `at` at the id `delete`, or opens it where that is 0.
pub(crate) fn set_delete<D: Disk>(
    space: &mut Space<D>,
    root: HOff,
    at: &Base,
    delete: u64,
) -> (HOff, Result<(), Fault>)
    requires tree { HoldsTree (pages_of (heap space.old)) root }
    requires there { IfSome (elements_told (heap space.old) root)
        (λ es. IsSome (element_at (key_of at.now) es)) }
    requires later { (delete ≡ 0) ⊎ (at.now.create < delete) }
    ensures writes { WritesTree nothing (with_delete (key_of at.now) delete) (Marks (key_of at.now) delete)
        (heap space.old) (heap space.new) root result.0 result.1 }
    ensures cause { HasStoreCause (elements_told (heap space.old) root)
        (D.faults space.old.disk) (D.faults space.new.disk) result.1 }
    ensures past { D.past space.new.disk ≡ D.past space.old.disk }
{
    let mut tree = BTree::over(space, root);
    let answer = tree.set_delete(at, delete);
    let (space, root) = tree.into_parts();
    space.end_change(answer.is_ok());
    (root, answer)
}

/// Takes the element at the key of `at` out, by a look at the leaf `near` first.
pub(crate) fn remove<D: Disk>(
    space: &mut Space<D>,
    root: HOff,
    near: HOff,
    at: &Base,
) -> (HOff, Result<(), Fault>)
    requires tree { HoldsTree (pages_of (heap space.old)) root }
    requires there { IfSome (elements_told (heap space.old) root)
        (λ es. IsSome (element_at (key_of at.now) es)) }
    ensures writes { WritesTree nothing (removed (key_of at.now)) (MarksJoin (key_of at.now))
        (heap space.old) (heap space.new) root result.0 result.1 }
    ensures cause { HasStoreCause (elements_told (heap space.old) root)
        (D.faults space.old.disk) (D.faults space.new.disk) result.1 }
    ensures past { D.past space.new.disk ≡ D.past space.old.disk }
{
    let mut tree = BTree::over_near(space, root, near);
    let answer = tree.remove(at);
    let (space, root) = tree.into_parts();
    space.end_change(answer.is_ok());
    (root, answer)
}

/// Lets the payload of the element at the key of `at` stand at `to`.
pub(crate) fn readdress<D: Disk>(
    space: &mut Space<D>,
    root: HOff,
    at: &Base,
    to: HOff,
) -> (HOff, Result<(), Fault>)
    requires tree { HoldsTree (pages_of (heap space.old)) root }
    requires there { IfSome (elements_told (heap space.old) root)
        (λ es. IsSome (element_at (key_of at.now) es)) }
    ensures writes { WritesTree nothing (with_payload (key_of at.now) to) MarksStay (heap space.old)
        (heap space.new) root result.0 result.1 }
    ensures cause { HasStoreCause (elements_told (heap space.old) root)
        (D.faults space.old.disk) (D.faults space.new.disk) result.1 }
    ensures past { D.past space.new.disk ≡ D.past space.old.disk }
{
    let mut tree = BTree::over(space, root);
    let answer = tree.readdress(at, to);
    let (space, root) = tree.into_parts();
    space.end_change(answer.is_ok());
    (root, answer)
}

/// The first element at the key of `at` or after it, by a look at the leaf `near` first. `near` is then
/// the leaf to which the search came.
pub(crate) fn first_at_or_after<D: Disk>(
    space: &mut Space<D>,
    root: HOff,
    near: &mut HOff,
    at: &Base,
) -> (HOff, Result<Option<Element>, Fault>)
    requires tree { HoldsTree (pages_of (heap space.old)) root }
    ensures ok { IfSome (elements_told (heap space.old) root)
        (λ es. IfOk result.1 (λ found. found ≡ first_from (key_of at.now) es)) }
    ensures found { IfOk result.1 (λ found. IfSome found (IsFound (key_of at.now))) }
    ensures reads { ReadsTree (heap space.old) (heap space.new) root result.0 }
    ensures cause { HasStoreCause (elements_told (heap space.old) root)
        (D.faults space.old.disk) (D.faults space.new.disk) result.1 }
    ensures past { D.past space.new.disk ≡ D.past space.old.disk }
{
    let mut tree = BTree::over_near(space, root, *near);
    let answer = tree.first_at_or_after(at);
    *near = tree.near();
    let (space, root) = tree.into_parts();
    let _there = space;
    (root, answer)
}

/// The last element at the key of `at` or before it.
pub(crate) fn last_at_or_before<D: Disk>(
    space: &mut Space<D>,
    root: HOff,
    at: &Base,
) -> (HOff, Result<Option<Element>, Fault>)
    requires tree { HoldsTree (pages_of (heap space.old)) root }
    ensures ok { IfSome (elements_told (heap space.old) root)
        (λ es. IfOk result.1 (λ found. found ≡ last_to (key_of at.now) es)) }
    ensures found { IfOk result.1 (λ found. IfSome found (IsFoundTo (key_of at.now))) }
    ensures reads { ReadsTree (heap space.old) (heap space.new) root result.0 }
    ensures cause { HasStoreCause (elements_told (heap space.old) root)
        (D.faults space.old.disk) (D.faults space.new.disk) result.1 }
    ensures past { D.past space.new.disk ≡ D.past space.old.disk }
{
    let mut tree = BTree::over(space, root);
    let answer = tree.last_at_or_before(at);
    let (space, root) = tree.into_parts();
    let _there = space;
    (root, answer)
}

/// How far from the key of `at` on nothing was written after `since`.
pub(crate) fn unchanged_until<D: Disk>(
    space: &mut Space<D>,
    root: HOff,
    at: &Base,
    since: Id,
) -> (HOff, Result<Option<Base>, Fault>)
    requires tree { HoldsTree (pages_of (heap space.old)) root }
    requires before { IsBefore (key_of at.now) greatest_key }
    ensures ok { IfSome (elements_told (heap space.old) root) (λ _. IfOk result.1 (IsQuiet (mark_told
        (heap space.old) root) (key_of at.now) since.0)) }
    ensures found { IfOk result.1 (λ end. IfSome end (IsEnd (key_of at.now))) }
    ensures reads { ReadsTree (heap space.old) (heap space.new) root result.0 }
    ensures cause { HasStoreCause (elements_told (heap space.old) root)
        (D.faults space.old.disk) (D.faults space.new.disk) result.1 }
    ensures past { D.past space.new.disk ≡ D.past space.old.disk }
{
    let mut tree = BTree::over(space, root);
    let answer = tree.unchanged_until(at, since);
    let (space, root) = tree.into_parts();
    let _there = space;
    (root, answer)
}

/// Lets the node at `at` stand elsewhere, and answers where.
pub(crate) fn move_node<D: Disk>(
    space: &mut Space<D>,
    root: HOff,
    at: HOff,
) -> (HOff, Result<HOff, Fault>)
    requires tree { HoldsTree (pages_of (heap space.old)) root }
    requires there { IfSome (pages_of (heap space.old)) (λ map. IsSome (map at)) }
    requires room { NODE_BYTES ≤ room_of (heap space.old) TREE_ZONE }
    ensures writes { WritesTree (in_zone TREE_ZONE NODE_BYTES) (λ es. es) MarksStay
        (heap space.old) (heap space.new) root result.0 (outcome result.1) }
    ensures moves { IfOk result.1 (MovesNodeTo at (heap space.old) (heap space.new)) }
    ensures cause { HasStoreCause (elements_told (heap space.old) root)
        (D.faults space.old.disk) (D.faults space.new.disk) result.1 }
    ensures past { D.past space.new.disk ≡ D.past space.old.disk }
{
    let mut tree = BTree::over(space, root);
    let answer = tree.move_node(at);
    let (space, root) = tree.into_parts();
    space.end_change(answer.is_ok());
    (root, answer)
}

/// The first of the nodes that end after the key of `from` and lie in one of some big-blocks.
pub(crate) fn node_from<D: Disk>(
    space: &mut Space<D>,
    root: HOff,
    chosen: &[u32],
    from: &Base,
) -> (HOff, Result<Option<Subtree>, Fault>)
    requires tree { HoldsTree (pages_of (heap space.old)) root }
    requires rising { IsNonDecreasing chosen.now }
    requires before { IsBefore (key_of from.now) greatest_key }
    ensures ok { IfSome (pages_of (heap space.old)) (λ map. IfOk result.1
        (FindsFrom chosen.now (key_of from.now) map root)) }
    ensures there { IfOk result.1 (λ found. IfSome found (StandsIn chosen.now (heap space.new))) }
    ensures nodes { pages_of (heap space.new) ≡ pages_of (heap space.old) }
    ensures reads { ReadsTree (heap space.old) (heap space.new) root result.0 }
    ensures cause { HasStoreCause (elements_told (heap space.old) root)
        (D.faults space.old.disk) (D.faults space.new.disk) result.1 }
    ensures past { D.past space.new.disk ≡ D.past space.old.disk }
{
    let mut tree = BTree::over(space, root);
    let answer = tree.node_from(chosen, from);
    let (space, root) = tree.into_parts();
    let _there = space;
    (root, answer)
}
