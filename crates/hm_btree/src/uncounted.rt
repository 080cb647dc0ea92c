// The searches and changes of the tree from a root on, by calls that count no steps.
ghost use Rattle.std.specs.Prelude.{◌≡◌, ◌≤◌, ◌<◌, IfOk, IfSome, IsSome, OnOk};
ghost use Rattle.hm_types.specs.Faults.{HasStoreCause};
ghost use Rattle.hm_types.specs.Space.{in_zone, nothing};
ghost use Rattle.hm_key.specs.Elements.{element_at, first_from, last_to};
ghost use Rattle.hm_key.specs.Key.{key_of, greatest_key, IsBefore};
ghost use Rattle.hm_key.specs.Marks.{IsQuiet};
ghost use Rattle.hm_key.specs.Stores.{IsEnd, IsFound, IsFoundTo};
ghost use Rattle.hm_node.specs.Inner.{IsNodeOffset};
ghost use Rattle.hm_node.specs.Leaf.{IsPlaced};
ghost use Rattle.hm_search.specs.Descent.{HasSearchCause, Reads};
ghost use Rattle.hm_search.specs.Tree.{elements_of, mark_of, root_place, IsSoundTree, IsWhole};
ghost use Rattle.hm_btree.specs.Calls.Change.{ChangesElement};
ghost use Rattle.hm_btree.specs.Calls.Insert.{InsertsFrom};
ghost use Rattle.hm_btree.specs.Calls.Remove.{RemovesFrom};
ghost use Rattle.hm_btree.specs.Calls.Space.{Stays, StaysWithin};
ghost use Rattle.hm_btree.specs.Change.{MayChange};
ghost use Rattle.hm_btree.specs.Steps.{Opens};
ghost use Rattle.hm_btree.specs.Tree.{IsTreeSpace};

use crate::change::{Change, change_element};
use crate::near::remove_by;
use crate::root::insert_from;
use crate::space::NodeSpace;
use hm_key::{Base, Element};
use hm_search::{Steps, first_near, last_at_or_before, unchanged_until};
use hm_types::{Counted, Fault, HOff, INSERT_ROOM, Id, TREE_ZONE};
use std::sync::ledger::{Blank, Ledger};

/// The first element at the key of `at` or after it, by a look at `near` first.
pub fn first_uncounted<S: NodeSpace, L: Ledger>(
    space: &mut S,
    root: HOff,
    at: &Base,
    near: &mut HOff,
    blank: Blank,
) -> Result<Option<Element>, Fault>
    requires root { IsNodeOffset root }
    requires opens { Opens L.name L.parts blank.name blank.parts }
    ensures ok { IfSome (S.pages space.old) (λ map. IsSoundTree map root → IsWhole map root →
        IfOk result (λ found. found ≡ first_from (key_of at.now) (elements_of map root))) }
    ensures found { IfOk result (λ found. IfSome found (IsFound (key_of at.now))) }
    ensures same { Reads S.name S.frame S.rest S.pages space.old space.new }
    ensures cause { HasSearchCause (S.pages space.old) (root_place root)
        (S.faults space.old) (S.faults space.new) result }
{
    let mut steps = Steps::<L>::begin(blank);
    first_near(space, root, at, near, &mut steps)
}

/// The last element at the key of `at` or before it.
pub fn last_uncounted<S: NodeSpace, L: Ledger>(
    space: &mut S,
    root: HOff,
    at: &Base,
    blank: Blank,
) -> Result<Option<Element>, Fault>
    requires root { IsNodeOffset root }
    requires opens { Opens L.name L.parts blank.name blank.parts }
    ensures ok { IfSome (S.pages space.old) (λ map. IsSoundTree map root →
        IfOk result (λ found. found ≡ last_to (key_of at.now) (elements_of map root))) }
    ensures found { IfOk result (λ found. IfSome found (IsFoundTo (key_of at.now))) }
    ensures same { Reads S.name S.frame S.rest S.pages space.old space.new }
    ensures cause { HasSearchCause (S.pages space.old) (root_place root)
        (S.faults space.old) (S.faults space.new) result }
{
    let mut steps = Steps::<L>::begin(blank);
    last_at_or_before(space, root, at, &mut steps)
}

/// How far nothing was written from a key on.
pub fn quiet_uncounted<S: NodeSpace, L: Ledger>(
    space: &mut S,
    root: HOff,
    at: &Base,
    since: Id,
    blank: Blank,
) -> Result<Option<Base>, Fault>
    requires root { IsNodeOffset root }
    requires before { IsBefore (key_of at.now) greatest_key }
    requires opens { Opens L.name L.parts blank.name blank.parts }
    ensures ok { IfSome (S.pages space.old) (λ map. IsSoundTree map root →
        IfOk result (IsQuiet (mark_of map root) (key_of at.now) since.0)) }
    ensures found { IfOk result (λ end. IfSome end (IsEnd (key_of at.now))) }
    ensures same { Reads S.name S.frame S.rest S.pages space.old space.new }
    ensures cause { HasSearchCause (S.pages space.old) (root_place root)
        (S.faults space.old) (S.faults space.new) result }
{
    let mut steps = Steps::<L>::begin(blank);
    unchanged_until(space, root, at, since, &mut steps)
}

/// Inserts an element, and answers the root that the tree then has.
pub fn insert_uncounted<S: NodeSpace, L: Ledger>(
    space: &mut S,
    root: HOff,
    element: &Element,
    blank: Blank,
) -> Result<HOff, Fault>
    requires root { IsNodeOffset root }
    requires element { IsPlaced element.now }
    requires room { INSERT_ROOM ≤ S.room space.old TREE_ZONE }
    requires opens { Opens L.name L.parts blank.name blank.parts }
    ensures done { IfOk result (InsertsFrom S.pages S.extents element.now
        space.old space.new root) }
    ensures spent { StaysWithin S.HasRoom (in_zone TREE_ZONE INSERT_ROOM) space.old space.new }
    ensures cause { HasSearchCause (S.pages space.old) (root_place root)
        (S.faults space.old) (S.faults space.new) result }
{
    let mut steps = Steps::<L>::begin(blank);
    insert_from(space, root, element, &mut steps)
}

/// Changes the element at the key of `at`.
pub fn change_uncounted<S: NodeSpace, L: Ledger>(
    space: &mut S,
    root: HOff,
    at: &Base,
    change: Change,
    blank: Blank,
) -> Result<(), Fault>
    requires root { IsNodeOffset root }
    requires may { MayChange (key_of at.now) change }
    requires opens { Opens L.name L.parts blank.name blank.parts }
    ensures done { OnOk result (ChangesElement (key_of at.now) change root
        (S.pages space.old) (S.pages space.new)) }
    ensures rest { S.rest space.new ≡ S.rest space.old }
    ensures stays { Stays S.Counted space.old space.new }
    ensures cause { HasSearchCause (S.pages space.old) (root_place root)
        (S.faults space.old) (S.faults space.new) result }
{
    let mut steps = Steps::<L>::begin(blank);
    change_element(space, root, at, change, &mut steps)
}

/// Removes the element at the key of `at`, by a look at the leaf `near` first, and answers the root that
/// the tree then has.
pub fn remove_uncounted<S: NodeSpace, L: Ledger>(
    space: &mut S,
    root: HOff,
    near: HOff,
    at: &Base,
    blank: Blank,
) -> Result<HOff, Fault>
    requires root { IsNodeOffset root }
    requires tree { IfSome (S.pages space.old) (λ was. IsTreeSpace was root) }
    requires there { IfSome (S.pages space.old) (λ was.
        IsSome (element_at (key_of at.now) (elements_of was root))) }
    requires opens { Opens L.name L.parts blank.name blank.parts }
    ensures done { IfOk result (RemovesFrom S.pages S.extents (key_of at.now)
        space.old space.new root) }
    ensures spent { StaysWithin S.HasRoom nothing space.old space.new }
    ensures cause { HasStoreCause (S.pages space.old)
        (S.faults space.old) (S.faults space.new) result }
{
    let mut steps = Steps::<L>::begin(blank);
    remove_by(space, root, near, at, &mut steps)
}
