// What a call that changes a tree sees of a node in its page: no node is built.
ghost use Rattle.std.specs.Prelude.{◌≡◌, ◌+◌, ◌≤◌, ◌<◌, Some, IfSome, OnOk, IfErr, slice_get};
ghost use Rattle.hm_types.specs.Faults.{HasFaultCause};
ghost use Rattle.hm_key.specs.Key.{key_of};
ghost use Rattle.hm_key.specs.Places.{leading};
ghost use Rattle.hm_node.specs.Edits.{IsInnerPage, IsLeafPage};
ghost use Rattle.hm_node.specs.Head.{head_in};
ghost use Rattle.hm_node.specs.Inner.{inner_in, HasInnerOrder, IsNodeOffset};
ghost use Rattle.hm_node.specs.Leaf.{leaf_in, HasLeafOrder};
ghost use Rattle.hm_search.specs.Descent.{Reads};
ghost use Rattle.hm_search.specs.Look.{Visits};
ghost use Rattle.hm_search.specs.Place.{TellsUnmet};
ghost use Rattle.hm_search.specs.Search.{holder_place};
ghost use Rattle.hm_search.specs.Tree.{children_of};

use crate::look::{child_at, rank};
use crate::read::damage;
use crate::steps::Steps;
use crate::subtree::Subtree;
use hm_fields::Page;
use hm_key::Base;
use hm_node::{Head, NodePages};
use hm_types::{Counted, Fault};
use std::sync::ledger::Ledger;

/// Reads the page of the node at a place, as a search does: that it holds a node is believed, and the
/// rules of the place alone are checked, none of them at a cost that grows with the node.
#[inline]
pub fn visit<P: NodePages>(pages: &mut P, subtree: &Subtree, page: &mut Page) -> Result<(), Fault>
    requires { IsNodeOffset subtree.now.at }
    ensures visits { OnOk result (Visits subtree.now (P.pages pages.old) page.new) }
    ensures damage { IfSome (P.pages pages.old) (λ map.
        IfErr result (TellsUnmet subtree.now (map subtree.now.at))) }
    ensures same { Reads P.name P.frame P.rest P.pages pages.old pages.new }
    ensures cause { HasFaultCause (P.faults pages.old) (P.faults pages.new) result }
{
    pages.page(subtree.at, page)?;
    match subtree.first_unmet(page) {
        None => Ok(()),
        Some(rule) => Err(damage(subtree, rule.kind())),
    }
}

/// The same, with a step for the page.
#[inline]
pub fn step_into<P: NodePages, L: Ledger>(
    pages: &mut P,
    subtree: &Subtree,
    page: &mut Page,
    steps: &mut Steps<L>,
) -> Result<(), Fault>
    requires { IsNodeOffset subtree.now.at }
    ensures visits { OnOk result (Visits subtree.now (P.pages pages.old) page.new) }
    ensures step { steps.new ≡ steps.old + 1 }
    ensures damage { IfSome (P.pages pages.old) (λ map.
        IfErr result (TellsUnmet subtree.now (map subtree.now.at))) }
    ensures same { Reads P.name P.frame P.rest P.pages pages.old pages.new }
    ensures cause { HasFaultCause (P.faults pages.old) (P.faults pages.new) result }
{
    steps.tick();
    visit(pages, subtree, page)
}

/// How many elements of the leaf in a page stand before the key of `at`, by halving.
pub fn leaf_place_in(page: &Page, at: &Base) -> usize
    requires { IsLeafPage page.now }
    ensures within { result ≤ (head_in page.now).count }
    ensures ordered { HasLeafOrder (leaf_in page.now) →
        result ≡ leading (key_of at.now) (leaf_in page.now).places.items }
{
    let head = Head::read(page);
    rank(page, usize::from(head.count), at, false)
}

/// The place of the child of the inner node in a page whose boundaries hold the key of `at`, by
/// halving. What is before all children is held by the first.
pub fn holder_place_in(page: &Page, at: &Base) -> usize
    requires { IsInnerPage page.now }
    ensures within { result < (head_in page.now).count }
    ensures ordered { HasInnerOrder (inner_in page.now) →
        result ≡ holder_place (key_of at.now) (inner_in page.now).places.items }
{
    let head = Head::read(page);
    rank(page, usize::from(head.count), at, true).saturating_sub(1)
}

/// What is below the child in a place of the inner node in a page.
// Inlined, its writes would hide from the compiler that a page is filled before it is looked at.
#[inline(never)]
pub fn child_below(page: &Page, i: usize) -> Subtree
    requires inner { IsInnerPage page.now }
    requires within { i < (head_in page.now).count }
    ensures { slice_get (children_of (inner_in page.now)) i ≡ Some result }
{
    child_at(page, &Head::read(page), i)
}
