// The tree beside a plain ordered map, what its calls read and write, and bad pages.
ghost use Rattle.std.specs.Prelude.{◌≡◌, ◌<◌, ◌≤◌, [], Some, IfOk, IfSome, is_some};
ghost use Rattle.hm_key.specs.Element.{IsElement};
ghost use Rattle.hm_key.specs.Elements.{element_at};
ghost use Rattle.hm_key.specs.Key.{key_of};

use hm_btree::{BTree, MemSpace, NODE_BYTES, NodeTable};
use hm_fields::{Page, Pages};
use hm_key::{Base, ELEMENT, Element, ElementStore, HasElements, HasRoom, OTHER_PART, SNAPSHOT};
use hm_node::{Node, broken_rule, encode};
use hm_search::{Subtree, read_node};
use hm_types::{BAD_LEVEL, Fault, HOff, INSERT_ROOM, Id, Obj, TREE_ZONE};
use std::alloc::Global;
use std::cmp::Ordering;
use std::collections::BTreeMap;
use std::process::Abort;
use std::test::Fail;

// The key of the element that comes after so many.
pub(crate) fn key(before: u64) -> u64 {
    before.wrapping_mul(6_364_136_223_846_793_005)
}

// An element with this key, made by this id.
pub(crate) fn element(key: u64, create: u64) -> Element
    requires { 0 < create }
    ensures element { IsElement result }
    ensures create { result.base.create ≡ create }
{
    Element {
        base: Base {
            obj: Obj(1),
            key,
            create,
            delete: 0,
            rec_type: SNAPSHOT,
            obj_type: 1,
            btype: ELEMENT,
            localization: OTHER_PART,
        },
        payload: HOff::default(),
        len: 8,
    }
}

// A tree without elements.
pub(crate) fn empty(alloc: Global) -> Result<BTree<NodeTable>, Fail> {
    match BTree::empty(NodeTable::new(alloc)) {
        Ok(tree) => Ok(tree),
        Err(_) => Err(Fail::from("the root is refused")),
    }
}

// Inserts an element, where there is room.
pub(crate) fn insert(tree: &mut BTree<NodeTable>, e: &Element) -> Result<(), Fault>
    requires { IsElement e.now }
{
    if tree.space().room() < u64::from(INSERT_ROOM) {
        return Err(Fault::NoMemory);
    }
    tree.insert(e)
}

// Whether a store gives the elements of a map, one after the other, and no other.
pub(crate) fn is_same<T: ElementStore>(
    store: &mut T,
    map: &BTreeMap<u64, Element>,
) -> Result<bool, Fault> {
    let mut at = Base::least();
    for (_, want) in map.iter() {
        match store.first_at_or_after(&at)? {
            Some(found) if found == *want => at = after(&found),
            _ => return Ok(false),
        }
    }
    Ok(store.first_at_or_after(&at)?.is_none())
}

// The base after that of an element.
fn after(e: &Element) -> Base {
    let mut at = e.base;
    at.create = at.create.saturating_add(1);
    at
}

// Inserts so many elements into a tree and a map, and compares them at each hundredth call.
fn fill(
    rt: &impl Abort,
    tree: &mut BTree<NodeTable>,
    map: &mut BTreeMap<u64, Element>,
    elements: u64,
) -> Result<(), Fail> {
    for i in 0..elements {
        let e = element(key(i), 1);
        insert(tree, &e)?;
        map.insert(e.base.key, e)?;
        if i % 100 == 99 {
            assert!(rt; is_same(tree, map)?, "after {i} inserts");
        }
    }
    Ok(())
}

// Removes so many of them, and compares at each hundredth call.
fn drain(
    rt: &impl Abort,
    tree: &mut BTree<NodeTable>,
    map: &mut BTreeMap<u64, Element>,
    elements: u64,
) -> Result<(), Fail> {
    for i in 0..elements {
        let e = element(key(i), 1);
        tree.remove(&e.base)?;
        map.remove(&e.base.key);
        if i % 100 == 99 {
            assert!(rt; is_same(tree, map)?, "after {i} removals");
        }
    }
    Ok(())
}

#[test]
fn a_tree_is_the_sorted_list_of_its_elements(rt: HostRuntime) -> Result<(), Fail> {
    let mut tree = empty(rt.alloc())?;
    let mut map = BTreeMap::new(rt.alloc());
    fill(&rt, &mut tree, &mut map, 10_000)?;
    drain(&rt, &mut tree, &mut map, 9_900)?;
    assert_eq!(rt; map.len(), 100);
    Ok(())
}

// Where a node stands so many levels below the root, or a leaf on the way: at each level it is below
// the child that a number picks.
fn node_below(space: &mut NodeTable, root: HOff, levels: u32, pick: usize) -> Result<HOff, Fault> {
    let mut place = Subtree::root(root);
    for _ in 0..levels {
        let Node::Inner(inner) = read_node(space, &place)? else {
            return Ok(place.at);
        };
        let count = inner.places.len();
        if count == 0 {
            return Ok(place.at);
        }
        place = Subtree::child(&inner, pick % count);
    }
    Ok(place.at)
}

// Moves such a node, and sees that it stands elsewhere, that no node came or went, and that the root
// is another one exactly where it was moved.
fn move_one(
    rt: &impl Abort,
    tree: BTree<NodeTable>,
    levels: u32,
    pick: usize,
) -> Result<BTree<NodeTable>, Fail> {
    let (mut space, root) = tree.into_parts();
    let at = node_below(&mut space, root, levels, pick)?;
    let nodes = space.len();
    if space.room() < u64::from(NODE_BYTES) {
        return Err(Fail::from("no room for a node"));
    }
    let mut tree = BTree::over(space, root);
    let to = tree.move_node(at)?;
    assert!(rt; to != at);
    assert_eq!(rt; tree.space().len(), nodes);
    assert_eq!(rt; tree.root(), if at == root { to } else { root });
    Ok(tree)
}

#[test]
fn a_tree_whose_nodes_move_is_the_same_list(rt: HostRuntime) -> Result<(), Fail> {
    let mut tree = empty(rt.alloc())?;
    let mut map = BTreeMap::new(rt.alloc());
    for i in 0..10_000u64 {
        let e = element(key(i), 1);
        insert(&mut tree, &e)?;
        map.insert(e.base.key, e)?;
        if i % 10 == 9 {
            tree = move_one(&rt, tree, (i / 10 % 3) as u32, (i % 1_009) as usize)?;
        }
        if i % 500 == 499 {
            assert!(rt; is_same(&mut tree, &map)?, "after {i} inserts");
        }
    }
    for i in 0..9_900u64 {
        let e = element(key(i), 1);
        tree.remove(&e.base)?;
        map.remove(&e.base.key);
        if i % 10 == 9 {
            tree = move_one(&rt, tree, (i / 10 % 3) as u32, (i % 1_009) as usize)?;
        }
        if i % 500 == 499 {
            assert!(rt; is_same(&mut tree, &map)?, "after {i} removals");
        }
    }
    assert!(rt; is_same(&mut tree, &map)?);
    Ok(())
}

// A tree, and how many levels it has.
pub(crate) fn levels_of(tree: BTree<NodeTable>) -> Result<(BTree<NodeTable>, u64), Fault> {
    let (mut space, root) = tree.into_parts();
    let node = read_node(&mut space, &Subtree::root(root))?;
    let levels = match &node {
        Node::Leaf(_) => 1,
        Node::Inner(inner) => u64::from(inner.level),
    };
    Ok((BTree::over(space, root), levels))
}

// Whether a change wrote at most two nodes a level and one more.
fn wrote_few(tree: &BTree<NodeTable>, before: u64, levels: u64) -> bool {
    tree.space().writes().saturating_sub(before) <= levels.saturating_mul(2).saturating_add(1)
}

// Does a change of each of so many elements, and sees what it writes.
fn count_writes(
    rt: &impl Abort,
    tree: BTree<NodeTable>,
    elements: u64,
    remove: bool,
) -> Result<BTree<NodeTable>, Fail> {
    let mut tree = tree;
    for i in 0..elements {
        let (mut whole, levels) = levels_of(tree)?;
        let before = whole.space().writes();
        let e = element(key(i), 1);
        if remove {
            whole.remove(&e.base)?;
        } else {
            insert(&mut whole, &e)?;
        }
        assert!(rt; wrote_few(&whole, before, levels), "call {i}");
        tree = whole;
    }
    Ok(tree)
}

// Looks up so many elements, and sees that no more nodes are read than the tree has levels, and the leaf
// of the search before.
fn count_reads(
    rt: &impl Abort,
    tree: BTree<NodeTable>,
    elements: u64,
) -> Result<BTree<NodeTable>, Fail> {
    let (mut tree, levels) = levels_of(tree)?;
    for i in 0..elements {
        let before = tree.space().reads();
        let e = element(key(i), 1);
        assert_eq!(rt; tree.first_at_or_after(&e.base)?, Some(e));
        let reads = tree.space().reads().saturating_sub(before);
        assert!(rt; reads <= levels.saturating_add(1), "{reads} reads");
    }
    Ok(tree)
}

#[test]
fn a_call_reads_and_writes_few_nodes(rt: HostRuntime) -> Result<(), Fail> {
    let tree = empty(rt.alloc())?;
    let tree = count_writes(&rt, tree, 10_000, false)?;
    let tree = count_reads(&rt, tree, 10_000)?;
    let (tree, levels) = levels_of(count_writes(&rt, tree, 9_999, true)?)?;
    assert_eq!(rt; levels, 1);
    assert_eq!(rt; tree.space().len(), 1);
    Ok(())
}

#[test]
fn marks_reach_each_id_that_was_written(rt: HostRuntime) -> Result<(), Fail> {
    let mut tree = empty(rt.alloc())?;
    for i in 0..1_000u64 {
        insert(&mut tree, &element(i, i + 1))?;
    }
    // Only the leaf of key 500 has an id above 1,000 after its element was closed.
    let closed = element(500, 501).base;
    tree.set_delete(&closed, 2_000)?;
    assert_eq!(rt; tree.unchanged_until(&closed, Id(1_999))?, None);
    assert_eq!(rt;
        tree.unchanged_until(&closed, Id(2_000))?,
        Some(Base::greatest())
    );
    let first = element(0, 1).base;
    match tree.unchanged_until(&first, Id(1_000))? {
        Some(end) => assert!(rt; end.key <= 500),
        None => panic!(rt; "the first leaf has no newer id"),
    }
    Ok(())
}

// A tree of the keys below 1,024, which came in falling order, all made by id 1. Its leaves have 32 of them
// each, and so begin at 0, 32, 64 and so on. The leaf of key 500, from 480 on, was written by id 9.
fn marked(alloc: Global) -> Result<BTree<NodeTable>, Fail> {
    let mut tree = empty(alloc)?;
    for i in 0..1_024u64 {
        insert(&mut tree, &element(1_023 - i, 1))?;
    }
    tree.set_delete(&element(500, 1).base, 9)?;
    Ok(tree)
}

// The boundary at the element with this key.
pub(crate) fn boundary(key: u64) -> Base {
    element(key, 1).base.boundary()
}

// How far nothing above an id was written from a key on: to the end of its leaf, where the root has
// a greater id.
fn quiet(tree: &mut BTree<NodeTable>, key: u64, since: u64) -> Result<Option<Base>, Fault> {
    tree.unchanged_until(&element(key, 1).base, Id(since))
}

// How many nodes a tree wrote since it had written so many.
fn written(tree: &BTree<NodeTable>, before: u64) -> u64 {
    tree.space().writes().saturating_sub(before)
}

#[test]
fn a_node_whose_bytes_stay_is_not_written(rt: HostRuntime) -> Result<(), Fail> {
    let mut tree = marked(rt.alloc())?;
    let before = tree.space().writes();
    tree.readdress(&element(10, 1).base, HOff::default())?;
    assert_eq!(rt; written(&tree, before), 1);
    insert(&mut tree, &element(1_024, 1))?;
    assert_eq!(rt; written(&tree, before), 2);
    tree.remove(&element(1_024, 1).base)?;
    assert_eq!(rt; written(&tree, before), 3);
    // The leaf of key 500 has this id already, and so has the root.
    tree.set_delete(&element(501, 1).base, 9)?;
    assert_eq!(rt; written(&tree, before), 4);
    // It is new to the leaf of key 10, of which the root says so.
    tree.set_delete(&element(10, 1).base, 9)?;
    assert_eq!(rt; written(&tree, before), 6);
    Ok(())
}

#[test]
fn marks_stay_when_an_element_is_readdressed(rt: HostRuntime) -> Result<(), Fail> {
    let mut tree = marked(rt.alloc())?;
    for i in [0, 500, 999] {
        tree.readdress(&element(i, 1).base, HOff::default())?;
    }
    assert_eq!(rt; quiet(&mut tree, 0, 1)?, Some(boundary(32)));
    assert_eq!(rt; quiet(&mut tree, 448, 1)?, Some(boundary(480)));
    assert_eq!(rt; quiet(&mut tree, 480, 8)?, None);
    assert_eq!(rt; quiet(&mut tree, 512, 1)?, Some(boundary(544)));
    assert_eq!(rt; quiet(&mut tree, 480, 9)?, Some(Base::greatest()));
    Ok(())
}

#[test]
fn a_removal_raises_marks_only_where_leaves_come_together(rt: HostRuntime) -> Result<(), Fail> {
    let mut tree = marked(rt.alloc())?;
    // The leaf from 480 on keeps 16 elements, and each mark stays.
    for i in 480..496u64 {
        tree.remove(&element(i, 1).base)?;
    }
    assert_eq!(rt; quiet(&mut tree, 448, 1)?, Some(boundary(480)));
    assert_eq!(rt; quiet(&mut tree, 480, 8)?, None);
    assert_eq!(rt; quiet(&mut tree, 512, 1)?, Some(boundary(544)));
    assert_eq!(rt; quiet(&mut tree, 480, 9)?, Some(Base::greatest()));
    // It has 15, and takes over the range of the next one, from 512 on.
    tree.remove(&element(496, 1).base)?;
    assert_eq!(rt; quiet(&mut tree, 448, 1)?, Some(boundary(480)));
    assert_eq!(rt; quiet(&mut tree, 512, 8)?, None);
    assert_eq!(rt; quiet(&mut tree, 544, 1)?, Some(boundary(576)));
    assert_eq!(rt; quiet(&mut tree, 480, 9)?, Some(Base::greatest()));
    Ok(())
}

#[test]
fn an_insertion_has_room_for_ten_nodes(rt: HostRuntime) -> Result<(), Fail> {
    assert_eq!(rt; INSERT_ROOM, 40_960);
    Ok(())
}

// Puts a page that holds a sound node, if it does.
#[tactic(auto, using(hm_node::proofs::LawLemmas::holds_node))]
pub(crate) fn put(space: &mut NodeTable, at: HOff, page: &Page) -> Result<(), Fail> {
    if broken_rule(page).is_some() {
        return Err(Fail::from("the page holds no sound node"));
    }
    space.change(at, page)?;
    Ok(())
}

// A tree of two levels whose first child is the root itself.
fn looped(alloc: Global) -> Result<BTree<NodeTable>, Fail> {
    let mut tree = empty(alloc)?;
    for i in 0..64u64 {
        insert(&mut tree, &element(i, 1))?;
    }
    let (mut space, root) = tree.into_parts();
    let node = read_node(&mut space, &Subtree::root(root))?;
    let mut page = Page::zero();
    match node {
        Node::Inner(mut inner) => {
            inner.places[0].child = root;
            encode(&Node::Inner(inner), &mut page);
        }
        Node::Leaf(_) => return Err(Fail::from("the root is a leaf")),
    }
    put(&mut space, root, &page)?;
    Ok(BTree::over(space, root))
}

// What the root is damaged by where it stands as its own child: its level.
fn damage(tree: &BTree<NodeTable>) -> Fault {
    Fault::Damaged {
        at: tree.root(),
        kind: BAD_LEVEL,
    }
}

#[test]
fn a_child_that_is_its_parent_is_damage(rt: HostRuntime) -> Result<(), Fail> {
    let alloc = rt.alloc();
    let e = element(3, 1);
    let at = e.base;
    let mut tree = looped(alloc)?;
    assert_eq!(rt; tree.first_at_or_after(&at), Err(damage(&tree)));
    assert_eq!(rt; tree.last_at_or_before(&at), Err(damage(&tree)));
    assert_eq!(rt; tree.unchanged_until(&at, Id(0)), Err(damage(&tree)));
    assert_eq!(rt; insert(&mut tree, &e), Err(damage(&tree)));
    let mut tree = looped(alloc)?;
    assert_eq!(rt; tree.set_delete(&at, 9), Err(damage(&tree)));
    let mut tree = looped(alloc)?;
    assert_eq!(rt; tree.readdress(&at, HOff::default()), Err(damage(&tree)));
    let mut tree = looped(alloc)?;
    assert_eq!(rt; tree.remove(&at), Err(damage(&tree)));
    Ok(())
}

// Inserts elements into a tree whose space refuses this write, up to the call that fails.
fn refused(alloc: Global, write: u64) -> Result<BTree<NodeTable>, Fail> {
    let mut space = NodeTable::new(alloc);
    space.refuse_from(write);
    let mut tree = match BTree::empty(space) {
        Ok(tree) => tree,
        Err(_) => return Err(Fail::from("the first write is refused")),
    };
    for i in 0..1_000u64 {
        match insert(&mut tree, &element(i, 1)) {
            Ok(()) => (),
            Err(Fault::NoMemory) => return Ok(tree),
            Err(_) => return Err(Fail::from("another fault")),
        }
    }
    Err(Fail::from("no write was refused"))
}

#[test]
fn a_tree_whose_change_failed_is_changed_no_more(rt: HostRuntime) -> Result<(), Fail> {
    for write in [1, 2, 63, 64, 65, 66, 67, 68] {
        let mut tree = refused(rt.alloc(), write)?;
        let e = element(2_000, 1);
        assert_eq!(rt; insert(&mut tree, &e), Err(Fault::NoMemory));
        assert_eq!(rt; tree.remove(&e.base), Err(Fault::NoMemory));
        assert_eq!(rt; tree.set_delete(&e.base, 9), Err(Fault::NoMemory));
        assert_eq!(rt;
            tree.readdress(&e.base, HOff::default()),
            Err(Fault::NoMemory)
        );
        assert_eq!(rt; tree.first_at_or_after(&e.base), Err(Fault::NoMemory));
        assert_eq!(rt; tree.last_at_or_before(&e.base), Err(Fault::NoMemory));
        assert_eq!(rt; tree.unchanged_until(&e.base, Id(1)), Err(Fault::NoMemory));
    }
    Ok(())
}

// A tree whose root is said to stand where no node may stand.
fn astray(alloc: Global) -> BTree<NodeTable> {
    BTree::over(NodeTable::new(alloc), HOff::default())
}

#[test]
fn a_root_that_no_node_can_be_is_neither_changed_nor_searched(rt: HostRuntime) -> Result<(), Fail> {
    let mut tree = astray(rt.alloc());
    let e = element(1, 1);
    assert_eq!(rt; insert(&mut tree, &e), Err(Fault::NoMemory));
    assert_eq!(rt; tree.remove(&e.base), Err(Fault::NoMemory));
    assert_eq!(rt; tree.set_delete(&e.base, 9), Err(Fault::NoMemory));
    assert_eq!(rt;
        tree.readdress(&e.base, HOff::default()),
        Err(Fault::NoMemory)
    );
    assert_eq!(rt; tree.first_at_or_after(&e.base), Err(Fault::NoMemory));
    assert_eq!(rt; tree.last_at_or_before(&e.base), Err(Fault::NoMemory));
    assert_eq!(rt; tree.unchanged_until(&e.base, Id(1)), Err(Fault::NoMemory));
    Ok(())
}

// A tree without elements over a space that tells its pages.
fn told(alloc: Global) -> Result<BTree<MemSpace>, Fail>
    ensures elements { IfOk result (λ tree. ⟦<BTree<MemSpace> as HasElements>⟧.elements tree ≡ Some []) }
    ensures room { IfOk result (λ tree. INSERT_ROOM ≤ ⟦<BTree<MemSpace> as HasRoom>⟧.room tree TREE_ZONE) }
{
    match BTree::empty(MemSpace::new(alloc, 1 << 42)) {
        Ok(tree) => Ok(tree),
        Err(_) => Err(Fail::from("the root is refused")),
    }
}

// Whether an element stands at a key.
fn stands<T: ElementStore>(store: &mut T, at: &Base) -> Result<bool, Fault>
    ensures { IfOk result (λ is. IfSome (T.elements store.new)
        (λ es. is ≡ is_some (element_at (key_of at.now) es))) }
{
    match store.first_at_or_after(at)? {
        Some(found) => Ok(found.base.order(at) == Ordering::Equal),
        None => Ok(false),
    }
}

// Inserts so many elements into a tree that tells its pages, which has none of them, and a map. They are
// compared at each hundredth call.
fn fill_told(
    rt: &impl Abort,
    tree: &mut BTree<MemSpace>,
    map: &mut BTreeMap<u64, Element>,
    elements: u64,
) -> Result<(), Fail> {
    for i in 0..elements {
        let e = element(key(i), 1);
        if stands(tree, &e.base)? || tree.space().room() < u64::from(INSERT_ROOM) {
            return Err(Fail::from("it stands there, or has no room"));
        }
        tree.insert(&e)?;
        map.insert(e.base.key, e)?;
        if i % 100 == 99 {
            assert!(rt; is_same(tree, map)?, "after {i} inserts");
        }
    }
    Ok(())
}

// Removes so many of them, which stand there, and compares at each hundredth call.
fn drain_told(
    rt: &impl Abort,
    tree: &mut BTree<MemSpace>,
    map: &mut BTreeMap<u64, Element>,
    elements: u64,
) -> Result<(), Fail> {
    for i in 0..elements {
        let e = element(key(i), 1);
        if !stands(tree, &e.base)? {
            return Err(Fail::from("it does not stand there"));
        }
        tree.remove(&e.base)?;
        map.remove(&e.base.key);
        if i % 100 == 99 {
            assert!(rt; is_same(tree, map)?, "after {i} removals");
        }
    }
    Ok(())
}

#[test]
fn a_tree_that_tells_its_pages_is_the_sorted_list_of_its_elements(
    rt: HostRuntime,
) -> Result<(), Fail> {
    let mut tree = told(rt.alloc())?;
    let mut map = BTreeMap::new(rt.alloc());
    fill_told(&rt, &mut tree, &mut map, 10_000)?;
    drain_told(&rt, &mut tree, &mut map, 9_900)?;
    assert_eq!(rt; map.len(), 100);
    Ok(())
}

#[test]
fn an_element_comes_and_goes_where_pages_are_told(rt: HostRuntime) -> Result<(), Fail> {
    let mut tree = told(rt.alloc())?;
    let e = element(7, 1);
    tree.insert(&e)?;
    assert_eq!(rt; tree.first_at_or_after(&Base::least())?, Some(e));
    tree.set_delete(&e.base, 5)?;
    tree.readdress(&e.base, HOff::default())?;
    tree.remove(&e.base)?;
    assert_eq!(rt; tree.first_at_or_after(&Base::least())?, None);
    let (space, _) = tree.into_parts();
    assert_eq!(rt; space.len(), 1);
    Ok(())
}
