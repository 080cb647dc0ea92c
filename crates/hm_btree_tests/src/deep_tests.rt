// Trees of nine levels, the most that one has: each call goes down by nine nodes, and asks for no more
// than eight beside them.

use crate::tests::{boundary, element, insert};
use arrayvec::ArrayVec;
use hm_btree::{BTree, NODE_BYTES, NodeSpace, NodeTable};
use hm_fields::Page;
use hm_key::{Base, ElementStore};
use hm_node::{Child, Inner, Leaf, Node, broken_rule, encode};
use hm_types::{HOff, Id};
use std::alloc::Global;
use std::test::Fail;

// Adds a sound node to a space.
#[tactic(auto, using(hm_node::proofs::LawLemmas::holds_node))]
pub(crate) fn add(space: &mut NodeTable, node: &Node) -> Result<HOff, Fail> {
    let mut page = Page::zero();
    encode(node, &mut page);
    if broken_rule(&page).is_some() || space.room() < u64::from(NODE_BYTES) {
        return Err(Fail::from("no sound node, or no room"));
    }
    Ok(space.new_node(&page)?)
}

// A node of a level that ends at a boundary: its children begin at these ones, and all of them are said
// to stand where one node does.
fn inner(level: u8, lefts: &[Base], below: HOff, right: Base) -> Result<Node, Fail> {
    let mut places = ArrayVec::new();
    for &left in lefts {
        let child = Child {
            left,
            child: below,
            mirror: 1,
        };
        places.try_push(child).ok().ok_or("no room")?;
    }
    Ok(Node::Inner(Inner {
        level,
        mirror: 1,
        places,
        right,
    }))
}

// The same, with another node below the second child.
fn inner_beside(
    level: u8,
    lefts: &[Base],
    below: HOff,
    second: HOff,
    right: Base,
) -> Result<Node, Fail> {
    let node = inner(level, lefts, below, right)?;
    if let Node::Inner(mut inner) = node {
        if let Some(child) = inner.places.get_mut(1) {
            child.child = second;
        }
        return Ok(Node::Inner(inner));
    }
    Err(Fail::from("no inner node"))
}

// So many boundaries, `apart` keys from one to the next.
fn bounds(alloc: Global, from: u64, apart: u64, count: u64) -> Result<Vec<Base>, Fail> {
    let mut bounds = Vec::new(alloc);
    for i in 0..count {
        bounds.push(match from.wrapping_add(i.wrapping_mul(apart)) {
            0 => Base::least(),
            key => boundary(key),
        })?;
    }
    Ok(bounds)
}

// A leaf with elements at so many keys, each three after the one before.
fn leaf(before: u64, count: u64) -> Result<Node, Fail> {
    let mut places = ArrayVec::new();
    for i in 1..count.saturating_add(1) {
        let key = before.wrapping_add(i.wrapping_mul(3));
        places.try_push(element(key, 1)).ok().ok_or("no room")?;
    }
    Ok(Node::Leaf(Leaf { mirror: 1, places }))
}

// A tree of nine levels whose first leaf has the keys 3, 6, .., 48. Each node on the way there has as few
// places as it may, and a neighbour at its right which has no more.
fn deep(alloc: Global) -> Result<BTree<NodeTable>, Fail> {
    let mut space = NodeTable::new(alloc);
    let mut top = add(&mut space, &leaf(0, 16)?)?;
    let below = top;
    let mut beside = add(&mut space, &leaf(100, 16)?)?;
    // The node on the way ends at this key, and its neighbour 100 keys after it.
    let mut end: u64 = 100;
    for level in 2..9u8 {
        let mut lefts = bounds(alloc, 0, 0, 1)?;
        for left in bounds(alloc, end, 100, 15)? {
            lefts.push(left)?;
        }
        end = end.wrapping_add(1_500);
        let right = boundary(end);
        let node = inner_beside(level, &lefts, top, beside, right)?;
        top = add(&mut space, &node)?;
        let right = match level {
            8 => Base::greatest(),
            _ => boundary(end.wrapping_add(100)),
        };
        let lefts = bounds(alloc, end, 1, 16)?;
        beside = add(&mut space, &inner(level, &lefts, below, right)?)?;
    }
    let lefts = [Base::least(), boundary(end)];
    let root = inner_beside(9, &lefts, top, beside, Base::greatest())?;
    let root = add(&mut space, &root)?;
    Ok(BTree::over(space, root))
}

#[test]
fn a_call_in_nine_levels_asks_for_nine_nodes(rt: HostRuntime) -> Result<(), Fail> {
    let mut tree = deep(rt.alloc())?;
    let at = element(4, 1).base;
    assert_eq!(rt; tree.first_at_or_after(&at)?, Some(element(6, 1)));
    assert_eq!(rt; tree.space().reads(), 9);
    assert_eq!(rt; tree.last_at_or_before(&at)?, Some(element(3, 1)));
    assert_eq!(rt; tree.space().reads(), 18);
    assert_eq!(rt; tree.last_at_or_before(&element(2, 1).base)?, None);
    assert_eq!(rt; tree.space().reads(), 27);
    assert_eq!(rt; tree.unchanged_until(&at, Id(0))?, None);
    assert_eq!(rt; tree.space().reads(), 36);
    insert(&mut tree, &element(4, 1))?;
    assert_eq!(rt; tree.space().reads(), 45);
    tree.set_delete(&at, 2)?;
    assert_eq!(rt; tree.space().reads(), 54);
    tree.readdress(&at, HOff::default())?;
    assert_eq!(rt; tree.space().reads(), 63);
    Ok(())
}

#[test]
fn a_removal_in_nine_levels_asks_for_eight_neighbours(rt: HostRuntime) -> Result<(), Fail> {
    let mut tree = deep(rt.alloc())?;
    insert(&mut tree, &element(4, 1))?;
    assert_eq!(rt; tree.space().reads(), 9);
    // The leaf keeps 16 elements.
    tree.remove(&element(4, 1).base)?;
    assert_eq!(rt; tree.space().reads(), 18);
    // Each node on the way is joined with its neighbour, and the root goes.
    tree.remove(&element(3, 1).base)?;
    assert_eq!(rt; tree.space().reads(), 35);
    assert_eq!(rt;
        tree.first_at_or_after(&Base::least())?,
        Some(element(6, 1))
    );
    assert_eq!(rt; tree.space().reads(), 43);
    Ok(())
}

// A tree of nine levels whose root has two children. The way down to the last leaf below the first one
// goes by the last child of each node, and that to the first leaf below the second one by the first
// child. The first child ends at the key 200.
fn parted(alloc: Global) -> Result<BTree<NodeTable>, Fail> {
    let mut space = NodeTable::new(alloc);
    let mut lower = add(&mut space, &leaf(107, 2)?)?;
    let mut upper = add(&mut space, &leaf(207, 2)?)?;
    for level in 2..9u8 {
        let from = u64::from(8u8.saturating_sub(level)) * 15;
        let lefts = bounds(alloc, from, 1, 16)?;
        lower = add(&mut space, &inner(level, &lefts, lower, boundary(200))?)?;
        let end = u64::from(level) * 16 + 1_000;
        let mut lefts = bounds(alloc, 200, 0, 1)?;
        for left in bounds(alloc, end, 1, 15)? {
            lefts.push(left)?;
        }
        let right = match level {
            8 => Base::greatest(),
            _ => boundary(end + 16),
        };
        upper = add(&mut space, &inner(level, &lefts, upper, right)?)?;
    }
    let lefts = [Base::least(), boundary(200)];
    let root = inner_beside(9, &lefts, lower, upper, Base::greatest())?;
    let root = add(&mut space, &root)?;
    Ok(BTree::over(space, root))
}

#[test]
fn a_search_that_goes_on_beside_asks_for_eight_nodes_more(rt: HostRuntime) -> Result<(), Fail> {
    let mut tree = parted(rt.alloc())?;
    let mut reads: u64 = 0;
    // A search for a first element reads the leaf of the one before too, and only that where it has an
    // element before the key and one from it on.
    for (key, first, last, first_reads, last_reads) in [
        (111, 113, 110, 9, 9),
        (113, 113, 113, 1, 9),
        (114, 210, 113, 18, 9),
        (199, 210, 113, 18, 9),
        (200, 210, 113, 10, 17),
        (209, 210, 113, 10, 17),
        (210, 210, 210, 10, 9),
        (212, 213, 210, 1, 9),
    ] {
        let at = element(key, 1).base;
        assert_eq!(rt;
            tree.first_at_or_after(&at)?,
            Some(element(first, 1)),
            "{key}"
        );
        reads = reads.wrapping_add(first_reads);
        assert_eq!(rt; tree.space().reads(), reads, "{key}");
        assert_eq!(rt;
            tree.last_at_or_before(&at)?,
            Some(element(last, 1)),
            "{key}"
        );
        reads = reads.wrapping_add(last_reads);
        assert_eq!(rt; tree.space().reads(), reads, "{key}");
    }
    Ok(())
}
