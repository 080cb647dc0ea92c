// Nodes that lie in some big-blocks: one alone, all, none, and a walk that lets each stand elsewhere.
ghost use Rattle.std.specs.Prelude.{IsTrue};
ghost use Rattle.std.specs.List.Sorted.{IsNonDecreasing};

use crate::deep_tests::add;
use crate::split_tests::{Order, Seen, filled, nodes_of};
use crate::tests::{element, is_same, levels_of};
use arrayvec::ArrayVec;
use hm_btree::{BTree, NODE_BYTES, NodeTable};
use hm_key::Base;
use hm_node::{Leaf, Node};
use hm_search::Subtree;
use hm_types::{BIGBLOCK_BYTES, Fault, HOff};
use std::alloc::Global;
use std::collections::BTreeMap;
use std::process::Abort;
use std::test::Fail;

// The big-block in which a node stands.
fn block_of(at: HOff) -> u32 {
    (at.byte() / BIGBLOCK_BYTES) as u32
}

// Whether the numbers rise.
fn rises(chosen: &[u32]) -> bool
    ensures { IsTrue result → IsNonDecreasing chosen.now }
{
    chosen.is_sorted()
}

// A node of a tree in some big-blocks, and the first from a key on.
fn find(
    tree: &mut BTree<NodeTable>,
    chosen: &[u32],
    from: &Base,
) -> Result<(Option<HOff>, Option<Subtree>), Fail> {
    if !rises(chosen) || !from.order(&Base::greatest()).is_lt() {
        return Err(Fail::from("no rising list, or no key from which on there is one"));
    }
    let node = tree.node_in(chosen)?;
    Ok((node, tree.node_from(chosen, from)?))
}

// Lets the next node of a space stand in a big-block in which no other does.
fn fill_block(space: &mut NodeTable) -> Result<(), Fail> {
    for _ in 0..2_048u32 {
        let filler = Node::Leaf(Leaf {
            mirror: 0,
            places: ArrayVec::new(),
        });
        let at = add(space, &filler)?;
        if at.byte() % BIGBLOCK_BYTES == BIGBLOCK_BYTES - u64::from(NODE_BYTES) {
            return Ok(());
        }
    }
    Err(Fail::from("the big-block is not full"))
}

// Lets a node stand elsewhere.
fn move_to(tree: BTree<NodeTable>, at: HOff) -> Result<(BTree<NodeTable>, HOff), Fail> {
    if tree.space().room() < u64::from(NODE_BYTES) {
        return Err(Fail::from("no room for a node"));
    }
    let mut tree = tree;
    let to = tree.move_node(at)?;
    Ok((tree, to))
}

// Lets a node stand alone in a big-block, and sees that it is found there, and from each key before its end.
fn find_alone(
    rt: &impl Abort,
    tree: BTree<NodeTable>,
    seen: &Seen,
) -> Result<BTree<NodeTable>, Fail> {
    let (mut space, root) = tree.into_parts();
    fill_block(&mut space)?;
    let (mut tree, to) = move_to(BTree::over(space, root), seen.place.at)?;
    let block = block_of(to);
    let place = Subtree {
        at: to,
        ..seen.place
    };
    let least = Base::least();
    assert_eq!(rt; find(&mut tree, &[block], &least)?, (Some(to), Some(place)));
    assert_eq!(rt;
        find(&mut tree, &[block.saturating_add(1)], &least)?,
        (None, None)
    );
    let many = [block, block.saturating_add(1), block.saturating_add(9)];
    let begin = seen.place.left;
    assert_eq!(rt; find(&mut tree, &many, &begin)?, (Some(to), Some(place)));
    let end = seen.place.right;
    if end != Base::greatest() {
        let last = element(end.key.saturating_sub(1), 1).base;
        assert_eq!(rt; find(&mut tree, &[block], &last)?, (Some(to), Some(place)));
        assert_eq!(rt; find(&mut tree, &[block], &end)?, (Some(to), None));
    }
    Ok(tree)
}

#[test]
fn a_node_that_stands_alone_in_a_big_block_is_found(rt: HostRuntime) -> Result<(), Fail> {
    for elements in [10u64, 1_000, 3_500] {
        let (mut space, root) = filled(rt.alloc(), Order::Rising, elements)?.into_parts();
        let nodes = nodes_of(rt.alloc(), &mut space, root)?;
        let mut tree = BTree::over(space, root);
        // The root, an inner node, leaves in the middle and at the end.
        for i in [0, 1, nodes.len() / 2, nodes.len().saturating_sub(1)] {
            let (mut space, root) = tree.into_parts();
            let nodes = nodes_of(rt.alloc(), &mut space, root)?;
            tree = BTree::over(space, root);
            if let Some(seen) = nodes.get(i) {
                tree = find_alone(&rt, tree, seen)?;
            }
        }
    }
    Ok(())
}

#[test]
fn of_all_nodes_the_root_is_found_and_of_none_none(rt: HostRuntime) -> Result<(), Fail> {
    let least = Base::least();
    for elements in [0u64, 10, 1_000, 3_500] {
        let mut tree = filled(rt.alloc(), Order::Rising, elements)?;
        let root = Subtree::root(tree.root());
        assert_eq!(rt; find(&mut tree, &[0], &least)?, (Some(root.at), Some(root)));
        assert_eq!(rt; find(&mut tree, &[], &least)?, (None, None));
        assert_eq!(rt;
            find(&mut tree, &[1, 2, 4_000_000_000], &least)?,
            (None, None)
        );
    }
    Ok(())
}

// Lets each node that stands in the first big-block stand elsewhere, and gives how many they were.
fn walk(rt: &impl Abort, tree: BTree<NodeTable>) -> Result<(BTree<NodeTable>, u64), Fail> {
    let (mut tree, levels) = levels_of(tree)?;
    let mut from = Base::least();
    let mut moved: u64 = 0;
    for _ in 0..2_048u32 {
        if !from.order(&Base::greatest()).is_lt() {
            return Err(Fail::from("a node begins at the end"));
        }
        let before = tree.space().reads();
        let Some(place) = first_from(&mut tree, &from)? else {
            return Ok((tree, moved));
        };
        // No more than those on the way to where it begins.
        assert!(rt; tree.space().reads().saturating_sub(before) <= levels);
        assert!(rt; !place.left.order(&from).is_lt());
        from = place.left;
        let (next, to) = move_to(tree, place.at)?;
        assert!(rt; block_of(to) != 0);
        tree = next;
        moved = moved.saturating_add(1);
    }
    Err(Fail::from("more nodes than stand in a big-block"))
}

// The first node in the first big-block from a key on.
fn first_from(tree: &mut BTree<NodeTable>, from: &Base) -> Result<Option<Subtree>, Fault> {
    if !rises(&[0]) || !from.order(&Base::greatest()).is_lt() {
        return Err(Fault::NoMemory);
    }
    tree.node_from(&[0], from)
}

#[test]
fn a_walk_finds_each_node_once(rt: HostRuntime) -> Result<(), Fail> {
    for elements in [0u64, 10, 1_000, 3_500] {
        let (mut space, root) = filled(rt.alloc(), Order::Rising, elements)?.into_parts();
        let nodes = space.len() as u64;
        fill_block(&mut space)?;
        let (mut tree, moved) = walk(&rt, BTree::over(space, root))?;
        assert_eq!(rt; moved, nodes);
        assert_eq!(rt; find(&mut tree, &[0], &Base::least())?, (None, None));
        let mut map = BTreeMap::new(rt.alloc());
        for i in 0..elements {
            map.insert(i, element(i, 1))?;
        }
        assert!(rt; is_same(&mut tree, &map)?);
    }
    Ok(())
}
