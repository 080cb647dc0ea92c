// Walks and removals on them, which look first at the leaf of the element before.
use crate::tests::{element, empty, insert, levels_of};
use hm_btree::{BTree, NODE_BYTES, NodeTable};
use hm_key::{Base, ElementStore};
use std::alloc::Global;
use std::test::Fail;

// A tree with so many elements, whose keys are 0, 1, 2 and so on.
fn rising(alloc: Global, elements: u64) -> Result<BTree<NodeTable>, Fail> {
    let mut tree = empty(alloc)?;
    for i in 0..elements {
        insert(&mut tree, &element(i, 1))?;
    }
    Ok(tree)
}

#[test]
fn a_walk_asks_for_a_node_an_element_and_few_more_a_leaf(rt: HostRuntime) -> Result<(), Fail> {
    let (mut tree, levels) = levels_of(rising(rt.alloc(), 10_000)?)?;
    let before = tree.space().reads();
    let mut at = Base::least();
    for i in 0..10_000 {
        assert_eq!(rt; tree.first_at_or_after(&at)?, Some(element(i, 1)));
        at = element(i.saturating_add(1), 1).base;
    }
    assert_eq!(rt; tree.first_at_or_after(&at)?, None);
    let nodes = tree.space().len() as u64;
    let most = nodes.saturating_mul(levels.saturating_mul(2).saturating_add(2));
    let reads = tree.space().reads().saturating_sub(before);
    assert!(rt;
        reads <= most.saturating_add(10_001),
        "{reads} reads of {nodes} nodes"
    );
    Ok(())
}

// Lets the leaf of the last search stand elsewhere.
fn move_leaf(tree: &mut BTree<NodeTable>) -> Result<(), Fail> {
    if tree.space().room() < u64::from(NODE_BYTES) {
        return Err(Fail::from("no room for a node"));
    }
    let leaf = tree.near();
    tree.move_node(leaf)?;
    Ok(())
}

#[test]
fn a_walk_goes_on_where_its_leaf_moves_and_loses_elements(rt: HostRuntime) -> Result<(), Fail> {
    let mut tree = rising(rt.alloc(), 1_000)?;
    let mut at = Base::least();
    for i in 0..1_000u64 {
        if i % 10 == 0 && i > 0 {
            continue;
        }
        assert_eq!(rt; tree.first_at_or_after(&at)?, Some(element(i, 1)));
        at = element(i.saturating_add(1), 1).base;
        if i % 10 == 9 && i < 999 {
            // The next one goes, so that it isn't met.
            tree.remove(&at)?;
            move_leaf(&mut tree)?;
        }
    }
    assert_eq!(rt; tree.first_at_or_after(&at)?, None);
    Ok(())
}

// Walks through a tree of 10,000 elements, and removes each one whose number is not a multiple of `kept`, or
// all of them.
fn thin_out(tree: &mut BTree<NodeTable>, kept: Option<u64>) -> Result<(), Fail> {
    let mut at = Base::least();
    for _ in 0..10_000 {
        let Some(found) = tree.first_at_or_after(&at)? else {
            return Ok(());
        };
        at = element(found.base.key.saturating_add(1), 1).base;
        if kept.is_none_or(|kept| found.base.key % kept.max(1) > 0) {
            tree.remove(&found.base)?;
        }
    }
    Ok(())
}

#[test]
fn a_removal_on_a_walk_asks_for_its_leaf_alone(rt: HostRuntime) -> Result<(), Fail> {
    let (mut tree, levels) = levels_of(rising(rt.alloc(), 10_000)?)?;
    let before = tree.space().reads();
    thin_out(&mut tree, Some(2))?;
    let reads = tree.space().reads().saturating_sub(before);
    let nodes = tree.space().len() as u64;
    let most = nodes.saturating_mul(levels.saturating_mul(2).saturating_add(2));
    assert!(rt;
        reads <= most.saturating_add(15_001),
        "{reads} reads of {nodes} nodes"
    );
    let mut at = Base::least();
    for i in 0..5_000u64 {
        let left = element(i.saturating_mul(2), 1);
        assert_eq!(rt; tree.first_at_or_after(&at)?, Some(left));
        at = element(i.saturating_mul(2).saturating_add(1), 1).base;
    }
    assert_eq!(rt; tree.first_at_or_after(&at)?, None);
    Ok(())
}

#[test]
fn removals_on_a_walk_empty_a_tree(rt: HostRuntime) -> Result<(), Fail> {
    let mut tree = rising(rt.alloc(), 10_000)?;
    thin_out(&mut tree, None)?;
    assert_eq!(rt; tree.first_at_or_after(&Base::least())?, None);
    assert_eq!(rt; tree.space().len(), 1);
    Ok(())
}
