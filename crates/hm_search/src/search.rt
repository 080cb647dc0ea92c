// Searches from the root of the tree down.
ghost use Rattle.std.specs.Prelude.{◌≡◌, ◌+◌, ◌*◌, ◌≤◌, ℕ, IfSome, IfOk};
ghost use Rattle.hm_key.specs.Elements.{first_from, last_to};
ghost use Rattle.hm_key.specs.Key.{key_of, greatest_key, IsBefore};
ghost use Rattle.hm_key.specs.Marks.{IsQuiet};
ghost use Rattle.hm_key.specs.Stores.{IsFound, IsFoundTo, IsEnd};
ghost use Rattle.hm_node.specs.Inner.{IsNodeOffset};
ghost use Rattle.hm_search.specs.Descent.{HasSearchCause, Reads, levels_below};
ghost use Rattle.hm_search.specs.Look.{seen_mirror};
ghost use Rattle.hm_search.specs.Near.{EndsBy, IsReached, StartsFrom, element_of};
ghost use Rattle.hm_search.specs.Search.{IsAsked, IsPlaceOf, IsQuietBy};
ghost use Rattle.hm_search.specs.Tree.{node_at, elements_in, elements_of, mark_in, mark_of};
ghost use Rattle.hm_search.specs.Tree.{height_of, root_place, IsStoredTree, IsSoundTree};
ghost use Rattle.hm_search.specs.declared.reached.Reached.TheVariants.{Missed};

use crate::look::{Seen, step_to};
use crate::look_to::SeenTo;
use crate::reached::Reached;
use crate::steps::Steps;
use crate::subtree::Subtree;
use hm_key::{Base, Element};
use hm_node::NodePages;
use hm_types::{Counted, Fault, HOff, Id};
use std::sync::ledger::Ledger;

/// The place of a key: its leaf, and how many elements of the leaf stand before it.
#[derive(Clone, Copy, Debug, PartialEq, Eq)]
pub struct Found {
    pub leaf: HOff,
    pub place: u8,
}

/// The leaf whose boundaries hold the key of `at`, and how many of its elements stand before the
/// key. One node a level is read, and nothing changes.
pub fn find<P: NodePages, L: Ledger>(
    pages: &mut P,
    root: HOff,
    at: &Base,
    steps: &mut Steps<L>,
) -> Result<Found, Fault>
    requires { IsNodeOffset root }
    ensures ok { IfSome (P.pages pages.old) (λ map. IsSoundTree map root →
        IfOk result (IsPlaceOf map (height_of (node_at map root)) (root_place root)
        (key_of at.now))) }
    ensures steps { steps.new ≤ steps.old + 9 }
    ensures same { Reads P.name P.frame P.rest P.pages pages.old pages.new }
    ensures cause { HasSearchCause (P.pages pages.old) (root_place root)
        (P.faults pages.old) (P.faults pages.new) result }
{
    find_below(pages, &Subtree::root(root), at, steps)
}

/// The last element at the key of `at` or before it, and None where no element is there. A node a
/// level is read, nine at most, and where the leaf of the key has nothing up to it, the rightmost
/// nodes of the next subtree to the left, eight at most. No node is read twice, and nothing changes.
pub fn last_at_or_before<P: NodePages, L: Ledger>(
    pages: &mut P,
    root: HOff,
    at: &Base,
    steps: &mut Steps<L>,
) -> Result<Option<Element>, Fault>
    requires { IsNodeOffset root }
    ensures ok { IfSome (P.pages pages.old) (λ map. IsSoundTree map root →
        IfOk result (λ found. found ≡ last_to (key_of at.now) (elements_of map root))) }
    ensures found { IfOk result (λ found. IfSome found (IsFoundTo (key_of at.now))) }
    ensures steps { steps.new ≤ steps.old + 17 }
    ensures same { Reads P.name P.frame P.rest P.pages pages.old pages.new }
    ensures cause { HasSearchCause (P.pages pages.old) (root_place root)
        (P.faults pages.old) (P.faults pages.new) result }
{
    let reached = last_below(pages, &Subtree::root(root), at, steps)?;
    Ok(reached.element())
}

/// How far from the key of `at` on the marks are at most `since`: a boundary after that key,
/// before which they all are, or None exactly where the key's own mark is above `since`. The search
/// ends at the first node whose `mirror` is at most `since`, and nothing changes.
pub fn unchanged_until<P: NodePages, L: Ledger>(
    pages: &mut P,
    root: HOff,
    at: &Base,
    since: Id,
    steps: &mut Steps<L>,
) -> Result<Option<Base>, Fault>
    requires root { IsNodeOffset root }
    requires before { IsBefore (key_of at.now) greatest_key }
    ensures ok { IfSome (P.pages pages.old) (λ map. IsSoundTree map root →
        IfOk result (IsQuiet (mark_of map root) (key_of at.now) since.0)) }
    ensures found { IfOk result (λ end. IfSome end (IsEnd (key_of at.now))) }
    ensures steps { steps.new ≤ steps.old + 9 }
    ensures same { Reads P.name P.frame P.rest P.pages pages.old pages.new }
    ensures cause { HasSearchCause (P.pages pages.old) (root_place root)
        (P.faults pages.old) (P.faults pages.new) result }
{
    quiet_below(pages, &Subtree::root(root), at, since, steps)
}

// The place of a key in the tree below a place.
fn find_below<P: NodePages, L: Ledger>(
    pages: &mut P,
    subtree: &Subtree,
    at: &Base,
    steps: &mut Steps<L>,
) -> Result<Found, Fault>
    requires spot { IsNodeOffset subtree.now.at }
    requires levels { 2 ≤ levels_below subtree.now }
    ensures ok { IfSome (P.pages pages.old) (λ map. (height : ℕ) →
        IsStoredTree map height subtree.now →
        IfOk result (IsPlaceOf map height subtree.now (key_of at.now))) }
    ensures steps { steps.new + 1 ≤ steps.old + levels_below subtree.now }
    ensures same { Reads P.name P.frame P.rest P.pages pages.old pages.new }
    ensures cause { HasSearchCause (P.pages pages.old) subtree.now
        (P.faults pages.old) (P.faults pages.new) result }
{
    match step_to::<P, Seen, L>(pages, subtree, at, steps)? {
        Seen::Leaf(leaf) => Ok(Found {
            leaf: subtree.at,
            place: leaf.place,
        }),
        Seen::Inner(inner) => find_below(pages, &inner.child, at, steps),
    }
}

// The first element from a key on below a place, and where none is there, beside the way down to
// the key. `leaf` is then the last leaf to which it came.
pub(crate) fn first_below<P: NodePages, L: Ledger>(
    pages: &mut P,
    subtree: &Subtree,
    at: &Base,
    leaf: &mut HOff,
    steps: &mut Steps<L>,
) -> Result<Reached, Fault>
    requires spot { IsNodeOffset subtree.now.at }
    requires levels { 2 ≤ levels_below subtree.now }
    ensures ok { IfSome (P.pages pages.old) (λ map. (height : ℕ) →
        IsStoredTree map height subtree.now → IfOk result (IsReached
        (first_from (key_of at.now) (elements_in map height (node_at map subtree.now.at))))) }
    ensures found { IfOk result (λ reached. IfSome (element_of reached) (IsFound (key_of at.now))) }
    ensures missed { IfOk result (λ reached. reached ≡ Missed →
        steps.new + 1 ≤ steps.old + levels_below subtree.now) }
    ensures steps { steps.new + 3 ≤ steps.old + levels_below subtree.now * 2 }
    ensures same { Reads P.name P.frame P.rest P.pages pages.old pages.new }
    ensures cause { HasSearchCause (P.pages pages.old) subtree.now
        (P.faults pages.old) (P.faults pages.new) result }
{
    match step_to::<P, Seen, L>(pages, subtree, at, steps)? {
        Seen::Leaf(seen) => {
            *leaf = subtree.at;
            Ok(Reached::here(seen.first))
        }
        Seen::Inner(inner) => match first_below(pages, &inner.child, at, leaf, steps)? {
            Reached::Found(found) => Ok(Reached::Found(found)),
            Reached::Missed => match inner.next {
                Some(next) => Ok(Reached::beside(first_beside(pages, &next, at, leaf, steps)?)),
                None => Ok(Reached::Missed),
            },
            Reached::Nothing => Ok(Reached::Nothing),
        },
    }
}

// The first element from a key on below a place of which nothing is before the key: one node a level
// is asked for. `leaf` is then the leaf to which it came.
fn first_beside<P: NodePages, L: Ledger>(
    pages: &mut P,
    subtree: &Subtree,
    at: &Base,
    leaf: &mut HOff,
    steps: &mut Steps<L>,
) -> Result<Option<Element>, Fault>
    requires spot { IsNodeOffset subtree.now.at }
    requires levels { 2 ≤ levels_below subtree.now }
    ensures ok { IfSome (P.pages pages.old) (λ map. (height : ℕ) →
        IsStoredTree map height subtree.now → StartsFrom (key_of at.now) subtree.now → IfOk result (λ found.
        found ≡ first_from (key_of at.now) (elements_in map height (node_at map subtree.now.at)))) }
    ensures found { IfOk result (λ found. IfSome found (IsFound (key_of at.now))) }
    ensures steps { steps.new + 1 ≤ steps.old + levels_below subtree.now }
    ensures same { Reads P.name P.frame P.rest P.pages pages.old pages.new }
    ensures cause { HasSearchCause (P.pages pages.old) subtree.now
        (P.faults pages.old) (P.faults pages.new) result }
{
    match step_to::<P, Seen, L>(pages, subtree, at, steps)? {
        Seen::Leaf(seen) => {
            *leaf = subtree.at;
            Ok(seen.first)
        }
        Seen::Inner(inner) => first_beside(pages, &inner.child, at, leaf, steps),
    }
}

// The last element up to a key below a place, and where none is there, beside the way down to
// the key.
fn last_below<P: NodePages, L: Ledger>(
    pages: &mut P,
    subtree: &Subtree,
    at: &Base,
    steps: &mut Steps<L>,
) -> Result<Reached, Fault>
    requires spot { IsNodeOffset subtree.now.at }
    requires levels { 2 ≤ levels_below subtree.now }
    ensures ok { IfSome (P.pages pages.old) (λ map. (height : ℕ) →
        IsStoredTree map height subtree.now → IfOk result (IsReached
        (last_to (key_of at.now) (elements_in map height (node_at map subtree.now.at))))) }
    ensures found { IfOk result (λ reached. IfSome (element_of reached) (IsFoundTo (key_of at.now))) }
    ensures missed { IfOk result (λ reached. reached ≡ Missed →
        steps.new + 1 ≤ steps.old + levels_below subtree.now) }
    ensures steps { steps.new + 3 ≤ steps.old + levels_below subtree.now * 2 }
    ensures same { Reads P.name P.frame P.rest P.pages pages.old pages.new }
    ensures cause { HasSearchCause (P.pages pages.old) subtree.now
        (P.faults pages.old) (P.faults pages.new) result }
{
    match step_to::<P, SeenTo, L>(pages, subtree, at, steps)? {
        SeenTo::Leaf(last) => Ok(Reached::here(last)),
        SeenTo::Inner(inner) => match last_below(pages, &inner.child, at, steps)? {
            Reached::Found(found) => Ok(Reached::Found(found)),
            Reached::Missed => match inner.before {
                Some(before) => Ok(Reached::beside(last_beside(pages, &before, at, steps)?)),
                None => Ok(Reached::Missed),
            },
            Reached::Nothing => Ok(Reached::Nothing),
        },
    }
}

// The last element up to a key below a place of which nothing is after the key: one node a level is
// asked for.
fn last_beside<P: NodePages, L: Ledger>(
    pages: &mut P,
    subtree: &Subtree,
    at: &Base,
    steps: &mut Steps<L>,
) -> Result<Option<Element>, Fault>
    requires spot { IsNodeOffset subtree.now.at }
    requires levels { 2 ≤ levels_below subtree.now }
    ensures ok { IfSome (P.pages pages.old) (λ map. (height : ℕ) →
        IsStoredTree map height subtree.now → EndsBy (key_of at.now) subtree.now → IfOk result (λ found.
        found ≡ last_to (key_of at.now) (elements_in map height (node_at map subtree.now.at)))) }
    ensures found { IfOk result (λ found. IfSome found (IsFoundTo (key_of at.now))) }
    ensures steps { steps.new + 1 ≤ steps.old + levels_below subtree.now }
    ensures same { Reads P.name P.frame P.rest P.pages pages.old pages.new }
    ensures cause { HasSearchCause (P.pages pages.old) subtree.now
        (P.faults pages.old) (P.faults pages.new) result }
{
    match step_to::<P, SeenTo, L>(pages, subtree, at, steps)? {
        SeenTo::Leaf(last) => Ok(last),
        SeenTo::Inner(inner) => last_beside(pages, &inner.child, at, steps),
    }
}

// How far from a key on the marks below a place are at most `since`.
fn quiet_below<P: NodePages, L: Ledger>(
    pages: &mut P,
    subtree: &Subtree,
    at: &Base,
    since: Id,
    steps: &mut Steps<L>,
) -> Result<Option<Base>, Fault>
    requires asked { IsAsked (key_of at.now) subtree.now }
    requires levels { 2 ≤ levels_below subtree.now }
    ensures ok { IfSome (P.pages pages.old) (λ map. (height : ℕ) →
        IsStoredTree map height subtree.now → IfOk result
        (IsQuietBy (mark_in map height (node_at map subtree.now.at)) (key_of at.now) since.0
        subtree.now.right)) }
    ensures found { IfOk result (λ end. IfSome end (IsEnd (key_of at.now))) }
    ensures steps { steps.new + 1 ≤ steps.old + levels_below subtree.now }
    ensures same { Reads P.name P.frame P.rest P.pages pages.old pages.new }
    ensures cause { HasSearchCause (P.pages pages.old) subtree.now
        (P.faults pages.old) (P.faults pages.new) result }
{
    let seen = step_to::<P, Seen, L>(pages, subtree, at, steps)?;
    if mirror(&seen) <= since.0 {
        return Ok(Some(subtree.right));
    }
    match seen {
        Seen::Leaf(_) => Ok(None),
        Seen::Inner(inner) => quiet_below(pages, &inner.child, at, since, steps),
    }
}

// The `mirror` of the node that was looked at.
fn mirror(seen: &Seen) -> u64
    ensures { result ≡ seen_mirror seen.now }
{
    match seen {
        Seen::Leaf(leaf) => leaf.mirror,
        Seen::Inner(inner) => inner.mirror,
    }
}
