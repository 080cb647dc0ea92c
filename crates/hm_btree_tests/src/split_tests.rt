// How many places nodes have, by the order in which their elements came.
ghost use Rattle.hm_key.specs.Element.{IsElement};

use crate::tests::{element, empty, insert, key};
use hm_btree::{BTree, NodeTable};
use hm_key::{Base, ELEMENT, Element, INODE, INODE_PART};
use hm_node::Node;
use hm_search::{Subtree, read_node};
use hm_types::{HOff, Obj};
use std::alloc::Global;
use std::test::Fail;

// The order in which the elements of a tree came.
#[derive(Clone, Copy, Debug)]
pub(crate) enum Order {
    Rising,
    Falling,
    Scattered,
}

// A tree of so many elements that came in this order.
pub(crate) fn filled(alloc: Global, order: Order, elements: u64) -> Result<BTree<NodeTable>, Fail> {
    let mut tree = empty(alloc)?;
    for i in 0..elements {
        let number = match order {
            Order::Rising => i,
            Order::Falling => elements - i,
            Order::Scattered => key(i),
        };
        insert(&mut tree, &element(number, 1))?;
    }
    Ok(tree)
}

// A node of a tree.
#[derive(Clone, Copy, Debug)]
pub(crate) struct Seen {
    pub place: Subtree,
    pub level: u8,
    // How many elements or children it has.
    pub count: usize,
}

// The nodes of a tree, by their levels from the root down, and those of a level from left to right.
pub(crate) fn nodes_of(
    alloc: Global,
    space: &mut NodeTable,
    root: HOff,
) -> Result<Vec<Seen>, Fail> {
    let mut nodes = Vec::new(alloc);
    let mut places = Vec::new(alloc);
    places.push(Subtree::root(root))?;
    for i in 0..space.len() {
        let Some(place) = places.get(i).copied() else {
            break;
        };
        let (level, count) = match read_node(space, &place)? {
            Node::Leaf(leaf) => (1, leaf.places.len()),
            Node::Inner(inner) => {
                for j in 0..inner.places.len() {
                    places.push(Subtree::child(&inner, j))?;
                }
                (inner.level, inner.places.len())
            }
        };
        nodes.push(Seen {
            place,
            level,
            count,
        })?;
    }
    Ok(nodes)
}

// How many of some nodes have this level and so many places.
fn how_many(nodes: &[Seen], level: u8, count: usize) -> usize {
    nodes
        .iter()
        .filter(|seen| seen.level == level && seen.count == count)
        .count()
}

#[test]
fn a_node_below_the_root_has_its_least_and_its_most(rt: HostRuntime) -> Result<(), Fail> {
    for order in [Order::Rising, Order::Falling, Order::Scattered] {
        for elements in [0u64, 63, 64, 65, 2_016, 3_100, 10_000] {
            let (mut space, root) = filled(rt.alloc(), order, elements)?.into_parts();
            for seen in nodes_of(rt.alloc(), &mut space, root)?.iter() {
                let most = if seen.level == 1 { 63 } else { 62 };
                let least = if seen.place.at == root { 0 } else { 16 };
                let sized = (least..=most).contains(&seen.count);
                assert!(rt; sized, "{order:?} of {elements}: {seen:?}");
            }
        }
    }
    Ok(())
}

#[test]
fn rising_elements_leave_leaves_of_48(rt: HostRuntime) -> Result<(), Fail> {
    let (mut space, root) = filled(rt.alloc(), Order::Rising, 10_000)?.into_parts();
    let nodes = nodes_of(rt.alloc(), &mut space, root)?;
    // 208 leaves of 48 elements, and one of the 16 that are left; 4 inner nodes of 47 of these leaves,
    // and one of the 21 that are left.
    assert_eq!(rt; how_many(nodes.as_slice(), 1, 48), 208);
    assert_eq!(rt; how_many(nodes.as_slice(), 1, 16), 1);
    assert_eq!(rt; how_many(nodes.as_slice(), 2, 47), 4);
    assert_eq!(rt; how_many(nodes.as_slice(), 2, 21), 1);
    assert_eq!(rt; how_many(nodes.as_slice(), 3, 5), 1);
    assert_eq!(rt; space.len(), 215);
    Ok(())
}

#[test]
fn falling_elements_leave_leaves_of_32(rt: HostRuntime) -> Result<(), Fail> {
    let (mut space, root) = filled(rt.alloc(), Order::Falling, 3_200)?.into_parts();
    let nodes = nodes_of(rt.alloc(), &mut space, root)?;
    assert_eq!(rt; how_many(nodes.as_slice(), 1, 32), 100);
    Ok(())
}

// The inode of an object.
fn inode(number: u64) -> Element
    ensures { IsElement result }
{
    Element {
        base: Base {
            obj: Obj(number),
            key: 0,
            create: 1,
            delete: 0,
            rec_type: INODE,
            obj_type: 1,
            btype: ELEMENT,
            localization: INODE_PART,
        },
        payload: HOff::default(),
        len: 32,
    }
}

#[test]
fn inodes_before_other_elements_leave_leaves_of_48(rt: HostRuntime) -> Result<(), Fail> {
    // 20 other elements get a leaf of their own, and 10 stay in one with the last inodes.
    for (others, alone, last) in [(20u64, 1usize, 40usize), (10, 0, 50)] {
        let mut tree = filled(rt.alloc(), Order::Rising, others)?;
        for i in 0..1_000u64 {
            insert(&mut tree, &inode(i))?;
        }
        let (mut space, root) = tree.into_parts();
        let nodes = nodes_of(rt.alloc(), &mut space, root)?;
        assert_eq!(rt; how_many(nodes.as_slice(), 1, 48), 20, "{others}");
        assert_eq!(rt; how_many(nodes.as_slice(), 1, 20), alone, "{others}");
        assert_eq!(rt; how_many(nodes.as_slice(), 1, last), 1, "{others}");
        assert_eq!(rt; space.len(), alone.saturating_add(22), "{others}");
    }
    Ok(())
}
