// Damage of each node off the root, in calls that change the tree. What each must tell is what the
// table of rules of a node says of the page: where it stands, and the lowest broken rule.

use crate::tests::{boundary, element, empty, insert, put};
use hm_btree::{BTree, NodeTable};
use hm_fields::Page;
use hm_key::ElementStore;
use hm_node::{Inner, Leaf, Node, broken_rule, encode};
use hm_search::{Subtree, read_node};
use hm_types::{BAD_BOUNDS, BAD_COUNT, BAD_FIELD, BAD_LEVEL, BAD_MIRROR, BAD_ORDER, Fault, HOff};
use std::alloc::Global;
use std::process::Abort;
use std::test::Fail;

// How a page is damaged. Each but the last two also breaks rules with higher numbers.
#[derive(Clone, Copy, Debug)]
enum Damage {
    // The root's page, which is sound by itself: of another level, with two children.
    Level,
    // A leaf has no element, or an inner node 15 children.
    Count,
    // The first place is after the others.
    Order,
    // An element, or the first boundary, is outside the boundaries.
    Bounds,
    // An element's object has no kind, or a boundary has a delete id.
    Field,
    // The `mirror` is greater than the one that the parent has.
    Mirror,
    // It is below those of what stands in the node.
    LowMirror,
}

// What each of them is told by.
const DAMAGES: [(Damage, u8); 7] = [
    (Damage::Level, BAD_LEVEL),
    (Damage::Count, BAD_COUNT),
    (Damage::Order, BAD_ORDER),
    (Damage::Bounds, BAD_BOUNDS),
    (Damage::Field, BAD_FIELD),
    (Damage::Mirror, BAD_MIRROR),
    (Damage::LowMirror, BAD_MIRROR),
];

// A tree of the even keys below 4,032, which came in falling order, made by id 2. Its 63 leaves have 32 of them each, the one of
// number i from 64 i on, and below the root stand an inner node over the first 32 and one over the
// others.
fn tall(alloc: Global) -> Result<BTree<NodeTable>, Fail> {
    let mut tree = empty(alloc)?;
    for i in 0..2_016u64 {
        insert(&mut tree, &element(2 * (2_015 - i), 2))?;
    }
    Ok(tree)
}

// The place of a node of that tree: of the inner node of this number, or below it, where a number
// says so, of its leaf.
fn place_of(
    space: &mut NodeTable,
    root: HOff,
    number: usize,
    leaf: Option<usize>,
) -> Result<Subtree, Fail> {
    let inner = child(space, &Subtree::root(root), number)?;
    match leaf {
        None => Ok(inner),
        Some(leaf) => child(space, &inner, leaf),
    }
}

// The place of a child of the inner node at a place.
fn child(space: &mut NodeTable, place: &Subtree, number: usize) -> Result<Subtree, Fail> {
    match read_node(space, place)? {
        Node::Inner(inner) if number < inner.places.len() => Ok(Subtree::child(&inner, number)),
        _ => Err(Fail::from("there is no such child")),
    }
}

// A node on which damage is tried.
#[derive(Clone, Copy)]
struct Target {
    place: Subtree,
    // An even key whose calls come to the node, and one whose calls do not.
    key: u64,
    other: u64,
}

// The even key in the middle of a leaf.
fn middle(leaf: usize) -> u64 {
    (leaf as u64).saturating_mul(64).saturating_add(32)
}

// The inner nodes of that tree are 0 and 1, and its leaves 2 to 64.
fn target_of(space: &mut NodeTable, root: HOff, number: usize) -> Result<Target, Fail> {
    if number < 2 {
        return Ok(Target {
            place: place_of(space, root, number, None)?,
            key: middle(32 * number),
            other: middle(32 - 32 * number),
        });
    }
    let leaf = number - 2;
    Ok(Target {
        place: place_of(space, root, leaf / 32, Some(leaf % 32))?,
        key: middle(leaf),
        other: middle(if leaf < 56 { leaf + 7 } else { leaf - 56 }),
    })
}

// Damages the page of a node, which stands sound at its place.
fn spoil(space: &mut NodeTable, root: HOff, place: &Subtree, damage: Damage) -> Result<(), Fail> {
    let mut page = Page::zero();
    match damage {
        Damage::Level => encode(&read_node(space, &Subtree::root(root))?, &mut page),
        _ => match read_node(space, place)? {
            Node::Leaf(mut leaf) => {
                mar_leaf(&mut leaf, place, damage);
                encode(&Node::Leaf(leaf), &mut page);
            }
            Node::Inner(mut inner) => {
                mar_inner(&mut inner, damage);
                encode(&Node::Inner(inner), &mut page);
            }
        },
    }
    match broken_rule(&page) {
        None => put(space, place.at, &page),
        Some(rule) => {
            space.spoil(place.at, rule);
            Ok(())
        }
    }
}

// Damages a leaf that stands at a place.
fn mar_leaf(leaf: &mut Leaf, place: &Subtree, damage: Damage) {
    leaf.mirror = leaf.mirror.saturating_add(1);
    match damage {
        Damage::Count => leaf.places.clear(),
        Damage::Order => {
            if let Some(first) = leaf.places.get_mut(0) {
                first.base.key = u64::MAX;
            }
        }
        Damage::Bounds => move_out(leaf, place),
        Damage::Field => {
            if let Some(first) = leaf.places.get_mut(0) {
                first.base.obj_type = 0;
            }
        }
        Damage::LowMirror => leaf.mirror = 0,
        Damage::Level | Damage::Mirror => (),
    }
}

// Moves an end of a leaf out of its boundaries: the first element before the left one, unless the
// tree begins there.
fn move_out(leaf: &mut Leaf, place: &Subtree) {
    if 0 < place.left.key {
        if let Some(first) = leaf.places.get_mut(0) {
            first.base.key = place.left.key - 1;
        }
    } else {
        let end = leaf.places.len().saturating_sub(1);
        if let Some(last) = leaf.places.get_mut(end) {
            last.base.key = u64::MAX;
        }
    }
}

// Damages an inner node.
fn mar_inner(inner: &mut Inner, damage: Damage) {
    inner.mirror = inner.mirror.saturating_add(1);
    match damage {
        Damage::Count => inner.places.truncate(15),
        Damage::Order => {
            if let Some(first) = inner.places.get_mut(0) {
                first.left = boundary(u64::MAX);
            }
        }
        Damage::Bounds => {
            if let Some(first) = inner.places.get_mut(0) {
                first.left = boundary(first.left.key.saturating_add(1));
            }
        }
        Damage::Field => {
            if let Some(first) = inner.places.get_mut(0) {
                first.left.delete = 1;
            }
        }
        Damage::LowMirror => inner.mirror = 0,
        Damage::Level | Damage::Mirror => (),
    }
}

// A call that changes the tree.
#[derive(Clone, Copy, Debug)]
enum Call {
    Insert,
    Close,
    Move,
    Remove,
}

const CALLS: [Call; 4] = [Call::Insert, Call::Close, Call::Move, Call::Remove];

// What a call tells at an even key: an insertion beside it, a change of its element, or the removal
// of what was inserted beside it. With the tree, from its root on.
fn answer(tree: BTree<NodeTable>, call: Call, key: u64) -> (BTree<NodeTable>, Result<(), Fault>) {
    let mut tree = tree;
    let beside = element(key.saturating_add(1), 2);
    let at = element(key, 2).base;
    let told = match call {
        Call::Insert => insert(&mut tree, &beside),
        Call::Close => tree.set_delete(&at, 9),
        Call::Move => tree.readdress(&at, HOff::default()),
        Call::Remove => tree.remove(&beside.base),
    };
    let (space, root) = tree.into_parts();
    (BTree::over(space, root), told)
}

// Each call tells this at a key.
fn tell(
    rt: &impl Abort,
    tree: BTree<NodeTable>,
    key: u64,
    want: Result<(), Fault>,
) -> Result<BTree<NodeTable>, Fail> {
    let mut tree = tree;
    for call in CALLS {
        let (next, told) = answer(tree, call, key);
        assert_eq!(rt; told, want, "{call:?} at {key}");
        tree = next;
    }
    Ok(tree)
}

// Damages a node in each way. All calls that come to it tell so, and all others are made.
fn tell_each(
    rt: &impl Abort,
    tree: BTree<NodeTable>,
    target: &Target,
) -> Result<BTree<NodeTable>, Fail> {
    let mut tree = tree;
    let at = target.place.at;
    for (damage, kind) in DAMAGES {
        let (mut space, root) = tree.into_parts();
        let mut sound = Page::zero();
        encode(&read_node(&mut space, &target.place)?, &mut sound);
        spoil(&mut space, root, &target.place, damage)?;
        tree = tell(
            rt,
            BTree::over(space, root),
            target.key,
            Err(Fault::Damaged { at, kind }),
        )?;
        tree = tell(rt, tree, target.other, Ok(()))?;
        tree = mended(tree, at, &sound)?;
    }
    Ok(tree)
}

// The tree with a page put back.
fn mended(tree: BTree<NodeTable>, at: HOff, sound: &Page) -> Result<BTree<NodeTable>, Fail> {
    let (mut space, root) = tree.into_parts();
    put(&mut space, at, sound)?;
    Ok(BTree::over(space, root))
}

#[test]
fn damage_on_the_path_is_told_where_it_is(rt: HostRuntime) -> Result<(), Fail> {
    let mut tree = tall(rt.alloc())?;
    for number in 0..65usize {
        let (mut space, root) = tree.into_parts();
        let target = target_of(&mut space, root, number)?;
        tree = tell_each(&rt, BTree::over(space, root), &target)?;
    }
    Ok(())
}

// Removes so many elements, from this one on.
fn remove_from(
    tree: BTree<NodeTable>,
    first: u64,
    elements: u64,
) -> Result<BTree<NodeTable>, Fail> {
    let mut tree = tree;
    for i in 0..elements {
        let key = first.saturating_add(i).saturating_mul(2);
        tree.remove(&element(key, 2).base)?;
    }
    Ok(tree)
}

// Damages the neighbour of a node that a removal at this key joins, in each way. That removal tells
// so, and all calls that join no nodes are made.
fn tell_joining(
    rt: &impl Abort,
    tree: BTree<NodeTable>,
    neighbour: &Subtree,
    key: u64,
) -> Result<BTree<NodeTable>, Fail> {
    let mut tree = tree;
    let at = neighbour.at;
    for (damage, kind) in DAMAGES {
        let (mut space, root) = tree.into_parts();
        let mut sound = Page::zero();
        encode(&read_node(&mut space, neighbour)?, &mut sound);
        spoil(&mut space, root, neighbour, damage)?;
        let mut marred = tell(rt, BTree::over(space, root), key, Ok(()))?;
        let told = marred.remove(&element(key, 2).base);
        assert_eq!(rt;
            told,
            Err(Fault::Damaged { at, kind }),
            "{damage:?} beside {key}"
        );
        let (space, root) = marred.into_parts();
        tree = mended(BTree::over(space, root), at, &sound)?;
    }
    Ok(tree)
}

#[test]
fn damage_of_a_leaf_that_is_joined_is_told_where_it_is(rt: HostRuntime) -> Result<(), Fail> {
    let mut tree = tall(rt.alloc())?;
    for leaf in 0..63usize {
        // The last leaf of an inner node is joined with the one before it.
        let beside = if leaf == 31 || leaf == 62 {
            leaf - 1
        } else {
            leaf + 1
        };
        let (mut space, root) = remove_from(tree, 32 * leaf as u64, 16)?.into_parts();
        let place = place_of(&mut space, root, beside / 32, Some(beside % 32))?;
        tree = tell_joining(&rt, BTree::over(space, root), &place, middle(leaf))?;
    }
    Ok(())
}

// The tree with 16 children below one of its inner nodes, where the next removal joins two leaves.
fn lean(alloc: Global, number: usize) -> Result<BTree<NodeTable>, Fail> {
    let tree = tall(alloc)?;
    if number == 0 {
        remove_from(tree, 0, 528)
    } else {
        remove_from(tree, 1_520, 496)
    }
}

// Damages the neighbour of the inner node with 16 children. The removal that joins both tells so,
// and all calls that join no nodes are made.
fn tell_above(
    rt: &impl Abort,
    alloc: Global,
    number: usize,
    damage: Damage,
    kind: u8,
) -> Result<(), Fail> {
    let (mut space, root) = lean(alloc, number)?.into_parts();
    let key = if number == 0 { 1_056 } else { 3_038 };
    let place = place_of(&mut space, root, usize::from(number == 0), None)?;
    spoil(&mut space, root, &place, damage)?;
    let mut tree = tell(rt, BTree::over(space, root), key, Ok(()))?;
    let told = tree.remove(&element(key, 2).base);
    let at = place.at;
    assert_eq!(rt;
        told,
        Err(Fault::Damaged { at, kind }),
        "{damage:?} beside {number}"
    );
    Ok(())
}

#[test]
fn damage_of_an_inner_node_that_is_joined_is_told_where_it_is(rt: HostRuntime) -> Result<(), Fail> {
    for (damage, kind) in DAMAGES {
        tell_above(&rt, rt.alloc(), 0, damage, kind)?;
        tell_above(&rt, rt.alloc(), 1, damage, kind)?;
    }
    Ok(())
}
