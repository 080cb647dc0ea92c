// Reads nodes, and checks them where they stand.
ghost use Rattle.std.specs.Prelude.{◌≡◌, ℕ, Some, IfSome, IfNone, IfOk, IfErr};
ghost use Rattle.hm_types.specs.Faults.{HasFaultCause, IsCaused};
ghost use Rattle.hm_types.specs.declared.fault.Fault.TheVariants.{Damaged};
ghost use Rattle.hm_node.specs.Node.{node_in, IsNode};
ghost use Rattle.hm_search.specs.Descent.{Reads, StandsHere};
ghost use Rattle.hm_search.specs.Place.{Fits, SpellsHere, IsLowestBroken, TellsDamage};

use crate::subtree::Subtree;
use hm_fields::{Page, Pages};
use hm_node::{Node, broken_rule, node_of};
use hm_types::{BAD_MIRROR, Counted, Fault};

// Above the number of each rule of a node.
const ALL_RULES: u8 = BAD_MIRROR + 1;

/// Reads a node and checks it where it stands: by the rules that it keeps by itself, and by those
/// of its place. It is damaged where it breaks any of them: the fault tells the offset and the
/// lowest number of a broken rule. One page is read, and nothing changes.
pub fn read_node<P: Pages>(pages: &mut P, subtree: &Subtree) -> Result<Node, Fault>
    // What is read is sound there, and spelled so by the page that is told there.
    ensures sound { IfOk result IsNode }
    ensures fits { IfOk result (Fits subtree.now) }
    ensures ok { IfSome (P.pages pages.old) (λ map. IfOk result (StandsHere map subtree.now)) }
    // Damage is told of a page that breaks a rule there, or is not there, and of no other.
    ensures damage { IfSome (P.pages pages.old) (λ map.
        IfErr result (TellsDamage subtree.now (map subtree.now.at))) }
    ensures same { Reads P.name P.frame P.rest P.pages pages.old pages.new }
    ensures cause { HasFaultCause (P.faults pages.old) (P.faults pages.new) result }
{
    let mut page = Page::zero();
    pages.page(subtree.at, &mut page)?;
    checked_node(&page, subtree)
}

/// The node in a page that was read at a place, checked by the rules that it keeps by itself and by
/// those of its place. The page is damaged where it breaks any of them: the fault tells the offset
/// and the lowest number of a broken rule, and there is no other fault. No node is built then.
pub fn checked_node(page: &Page, subtree: &Subtree) -> Result<Node, Fault>
    ensures ok { IfOk result (SpellsHere subtree.now page.now) }
    ensures damage { IfErr result (TellsDamage subtree.now (Some page.now)) }
    ensures cause { (before after : ℕ) → IfErr result (IsCaused before after) }
{
    match lowest_broken(subtree, page) {
        None => Ok(node_of(page)),
        Some(kind) => Err(damage(subtree, kind)),
    }
}

// The lowest number of a rule that a page breaks where it stands.
fn lowest_broken(subtree: &Subtree, page: &Page) -> Option<u8>
    ensures none { IfNone result (SpellsHere subtree.now page.now (node_in page.now)) }
    ensures some { IfSome result (IsLowestBroken subtree.now page.now) }
{
    match broken_rule(page) {
        None => match subtree.first_broken(page, ALL_RULES) {
            None => None,
            Some(rule) => Some(rule.kind()),
        },
        Some(own) => match subtree.first_broken(page, own.kind()) {
            None => Some(own.kind()),
            Some(rule) => Some(rule.kind()),
        },
    }
}

// Damage of the page at a place.
pub(crate) fn damage(subtree: &Subtree, kind: u8) -> Fault
    ensures { result ≡ Damaged subtree.now.at kind }
{
    Fault::Damaged {
        at: subtree.at,
        kind,
    }
}
