// A search that begins at the leaf to which an earlier one came.
ghost use Rattle.std.specs.Prelude.{◌≡◌, ◌+◌, ◌≤◌, ℕ, Some, IfSome, IfOk};
ghost use Rattle.hm_key.specs.Elements.{first_from};
ghost use Rattle.hm_key.specs.Key.{key_of};
ghost use Rattle.hm_key.specs.Stores.{IsFound};
ghost use Rattle.hm_node.specs.Inner.{IsNodeOffset};
ghost use Rattle.hm_node.specs.Node.{node_in};
ghost use Rattle.hm_node.specs.Shape.{HoldsNode};
ghost use Rattle.hm_search.specs.Descent.{HasSearchCause, Reads};
ghost use Rattle.hm_search.specs.Look.{ShowsWithin};
ghost use Rattle.hm_search.specs.Tree.{elements_of, root_place, IsSoundTree, IsWhole};

use crate::look::see_leaf;
use crate::search::first_below;
use crate::steps::Steps;
use crate::subtree::Subtree;
use hm_fields::Page;
use hm_key::{Base, Element};
use hm_node::{Head, LEAF, NodePages, is_node_offset};
use hm_types::{Counted, Fault, HOff};
use std::sync::ledger::Ledger;

/// The first element at the key of `at` or after it, and None where no element is there.
///
/// A walk finds its next element mostly in the leaf of the one before. So the page at `near` is looked
/// at first, where it stands in memory: a leaf that has an element before the key and one from it on has
/// the first such one, since no page stands beside the tree. It doesn't matter where `near` comes from.
///
/// Where no such leaf is there, a search from the root is made: a node a level is read, nine at most,
/// and where the leaf of the key has nothing from there on, the leftmost nodes of the next subtree to
/// the right, eight at most. `near` is then the leaf to which it came. No other node is read twice, and
/// nothing changes.
pub fn first_near<P: NodePages, L: Ledger>(
    pages: &mut P,
    root: HOff,
    at: &Base,
    near: &mut HOff,
    steps: &mut Steps<L>,
) -> Result<Option<Element>, Fault>
    requires { IsNodeOffset root }
    ensures ok { IfSome (P.pages pages.old) (λ map. IsSoundTree map root → IsWhole map root →
        IfOk result (λ found. found ≡ first_from (key_of at.now) (elements_of map root))) }
    ensures found { IfOk result (λ found. IfSome found (IsFound (key_of at.now))) }
    ensures steps { steps.new ≤ steps.old + 18 }
    ensures same { Reads P.name P.frame P.rest P.pages pages.old pages.new }
    ensures cause { HasSearchCause (P.pages pages.old) (root_place root)
        (P.faults pages.old) (P.faults pages.new) result }
{
    steps.tick();
    if let Some(element) = first_in(pages, *near, at) {
        return Ok(Some(element));
    }
    let reached = first_below(pages, &Subtree::root(root), at, near, steps)?;
    Ok(reached.element())
}

// The first element at the key of `at` or after it, where a leaf stands in memory at `near` that has
// an element before the key and one from it on.
fn first_in<P: NodePages>(pages: &P, near: HOff, at: &Base) -> Option<Element>
    ensures ok { IfSome result (λ e. IfSome (P.pages pages.now) (λ map. (root : ℕ) →
        IsSoundTree map root → IsWhole map root →
        first_from (key_of at.now) (elements_of map root) ≡ Some e)) }
    ensures found { IfSome result (IsFound (key_of at.now)) }
{
    if !is_node_offset(near) {
        return None;
    }
    match pages.look(near) {
        Some(page) => first_within(page, at),
        None => None,
    }
}

// The first element at the key of `at` or after it that the leaf in a page has, where it has one before
// the key too.
fn first_within(page: &Page, at: &Base) -> Option<Element>
    requires { HoldsNode page.now }
    ensures { IfSome result (ShowsWithin (key_of at.now) (node_in page.now)) }
{
    let head = Head::read(page);
    if head.kind != LEAF {
        return None;
    }
    let seen = see_leaf(page, &head, at);
    if seen.place == 0 {
        return None;
    }
    seen.first
}
