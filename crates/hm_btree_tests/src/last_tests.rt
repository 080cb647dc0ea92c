// The last element at or before each key, in trees of one to three levels, and with each read failing.
ghost use Rattle.std.specs.Prelude.{◌≡◌, ◌<◌};
ghost use Rattle.hm_node.specs.Inner.{IsNodeOffset};

use crate::tests::{element, empty, insert};
use hm_btree::{BTree, NodeTable};
use hm_fields::{Page, Pages};
use hm_key::{Base, Element, ElementStore};
use hm_node::{NodePages, is_node_offset};
use hm_search::{Steps, last_at_or_before};
use hm_types::{Counted, Fault, HOff};
use std::alloc::Global;
use std::marker::Brand;
use std::sync::ledger::{Blank, Ledger};
use std::test::Fail;

// A tree of the even keys from 2 on, of which the first, the fifth and so on went again. A leaf begins
// at such a key, and so has nothing at its left boundary.
fn evens(alloc: Global, keys: u64) -> Result<BTree<NodeTable>, Fail> {
    let mut tree = empty(alloc)?;
    for i in 1..keys.saturating_add(1) {
        insert(&mut tree, &element(i.wrapping_mul(2), 1))?;
    }
    for i in 1..keys.saturating_add(1) {
        if i % 4 == 1 {
            tree.remove(&element(i.wrapping_mul(2), 1).base)?;
        }
    }
    Ok(tree)
}

// The last element of that tree up to a key.
fn wanted(key: u64, keys: u64) -> Option<Element> {
    let i = (key / 2).min(keys);
    match if i % 4 == 1 { i - 1 } else { i } {
        0 => None,
        i => Some(element(i.wrapping_mul(2), 1)),
    }
}

#[test]
fn the_last_element_up_to_each_key_is_found(rt: HostRuntime) -> Result<(), Fail> {
    for keys in [0u64, 2, 40, 700, 3_500] {
        let mut tree = evens(rt.alloc(), keys)?;
        for key in 0..keys.saturating_mul(2).saturating_add(4) {
            let mut at = element(key, 1).base;
            assert_eq!(rt; tree.last_at_or_before(&at)?, wanted(key, keys), "{key}");
            // No element was made as early as by id 0, and none as late as by id 2.
            at.create = 0;
            let earlier = wanted(key.saturating_sub(1), keys);
            assert_eq!(rt; tree.last_at_or_before(&at)?, earlier, "{key} of id 0");
            at.create = 2;
            assert_eq!(rt;
                tree.last_at_or_before(&at)?,
                wanted(key, keys),
                "{key} of id 2"
            );
        }
        assert_eq!(rt; tree.last_at_or_before(&Base::least())?, None);
        let greatest = tree.last_at_or_before(&Base::greatest())?;
        assert_eq!(rt; greatest, wanted(u64::MAX, keys));
    }
    Ok(())
}

// Nodes of which no more than so many are read: the next read is refused.
#[derive(Drop)]
struct Failing {
    table: NodeTable,
    left: u64,
}

impl Counted for Failing {
    ghost faults = { λ _. 0 };

    ghost name = { λ _. 0 };

    ghost frame = { λ _. tt };
}

impl Pages for Failing {
    ghost use Rattle.std.specs.Prelude.{None};
    ghost use Rattle.hm_node.specs.Shape.{HoldsNode};

    ghost pages = { λ _. None };

    ghost kept = { λ _ bytes. HoldsNode bytes };

    ghost rest = { λ _. tt };

    fn page(&mut self, at: HOff, into: &mut Page) -> Result<(), Fault> {
        if self.left == 0 {
            return Err(Fault::NoMemory);
        }
        self.left -= 1;
        self.table.page(at, into)
    }

    fn change(&mut self, at: HOff, with: &Page) -> Result<(), Fault> {
        self.table.change(at, with)
    }
}

impl NodePages for Failing {
    ghost kept_is_node = { λ at bytes spot node. node };

    ghost node_is_kept = { λ at bytes spot node. node };

    // So that each node is read.
    fn look(&self, _at: HOff) -> Option<&Page> {
        None
    }
}

// A search in them, whose steps are counted in a ledger.
fn last_in<L: Ledger>(
    nodes: &mut Failing,
    root: HOff,
    at: &Base,
    blank: Blank,
) -> Result<Option<Element>, Fault>
    requires root { IsNodeOffset root }
    requires name { blank.name ≡ L.name }
    requires parts { blank.parts ≡ L.parts }
    requires some { 0 < blank.parts }
{
    let mut steps = Steps::<L>::begin(blank);
    last_at_or_before(nodes, root, at, &mut steps)
}

// The same, where a node may stand at the root.
fn search(
    nodes: &mut Failing,
    root: HOff,
    at: &Base,
) -> Result<Result<Option<Element>, Fault>, Fail> {
    if !is_node_offset(root) {
        return Err(Fail::from("no node stands at the root"));
    }
    Ok(last_in::<Brand>(nodes, root, at, Blank::new(1)))
}

#[test]
fn a_search_whose_read_is_refused_says_so_or_has_read_enough(rt: HostRuntime) -> Result<(), Fail> {
    // One node a level, and at a left boundary also the leaf before it, or the inner node and the leaf.
    for (keys, least, most) in [(2u64, 1u64, 1u64), (40, 1, 1), (700, 2, 3), (3_500, 3, 5)] {
        let (table, root) = evens(rt.alloc(), keys)?.into_parts();
        let mut failing = Failing { table, left: 0 };
        for key in 0..keys.saturating_mul(2).saturating_add(4) {
            let at = element(key, 1).base;
            let mut failed: u64 = 0;
            for left in 0..6u64 {
                failing.left = left;
                match search(&mut failing, root, &at)? {
                    Ok(found) => assert_eq!(rt; found, wanted(key, keys), "{key} of {keys}"),
                    Err(fault) => {
                        assert_eq!(rt; fault, Fault::NoMemory);
                        assert_eq!(rt; failed, left, "{key} of {keys}");
                        failed = failed.saturating_add(1);
                    }
                }
            }
            assert!(rt;
                (least..=most).contains(&failed),
                "{key} of {keys}: {failed}"
            );
        }
    }
    Ok(())
}
