// A tree of three levels that is written by hand, and searches in it.
ghost use Rattle.std.specs.Prelude.{◌≡◌, ◌<◌, IfOk};
ghost use Rattle.hm_key.specs.Key.{key_of, greatest_key, IsBefore};
ghost use Rattle.hm_node.specs.Inner.{IsNodeOffset};
ghost use Rattle.hm_node.specs.Shape.{HoldsNode};

use arrayvec::ArrayVec;
use hm_fields::{MemPages, Page, Pages};
use hm_key::{Base, DIRECTORY_ENTRY, ELEMENT, Element};
use hm_node::{Child, Inner, Leaf, Node, NodePages, broken_rule, encode};
use hm_search::{Found, Steps, find, first_near, last_at_or_before, unchanged_until};
use hm_types::{Counted, Fault, HOff, Id, Obj, TREE_ZONE};
use std::alloc::Global;
use std::marker::Brand;
use std::sync::ledger::{Blank, Ledger};
use std::test::Fail;

// Pages of which each is checked by itself as it is read. A page of a space over a device is checked
// so once, as it comes in.
#[derive(Drop)]
pub(crate) struct CheckedPages {
    pub(crate) stored: MemPages,
}

impl Counted for CheckedPages {
    ghost faults = { λ _. 0 };

    ghost name = { λ _. 0 };

    ghost frame = { λ _. tt };
}

impl Pages for CheckedPages {
    ghost use Rattle.std.specs.Prelude.{None};

    ghost pages = { λ _. None };

    ghost kept = { λ _ bytes. HoldsNode bytes };

    ghost rest = { λ _. tt };

    fn page(&mut self, at: HOff, into: &mut Page) -> Result<(), Fault> {
        self.stored.page(at, into)?;
        match broken_rule(into) {
            None => Ok(()),
            Some(rule) => Err(Fault::Damaged {
                at,
                kind: rule.kind(),
            }),
        }
    }

    fn change(&mut self, at: HOff, with: &Page) -> Result<(), Fault> {
        self.stored.change(at, with)
    }
}

impl NodePages for CheckedPages {
    ghost kept_is_node = { λ at bytes spot node. node };

    ghost node_is_kept = { λ at bytes spot node. node };

    // So that the tests read each page.
    fn look(&self, _at: HOff) -> Option<&Page> {
        None
    }
}

// The page with this number.
pub(crate) fn offset(number: u8) -> Result<HOff, Fail>
    ensures { IfOk result IsNodeOffset }
{
    Ok(HOff::make(TREE_ZONE, u64::from(number) * 4_096).ok_or("no offset")?)
}

// An entry of a directory, open since id 3.
pub(crate) fn entry(obj: u16) -> Element
    ensures { IsBefore (key_of result.base) greatest_key }
{
    Element {
        base: Base {
            obj: Obj(u64::from(obj)),
            key: 7,
            create: 3,
            delete: 0,
            rec_type: DIRECTORY_ENTRY,
            obj_type: 2,
            btype: ELEMENT,
            localization: 2,
        },
        payload: HOff::default(),
        len: 9,
    }
}

// The left boundary of leaf `number` of 32, and the right one of the leaf before it.
pub(crate) fn boundary(number: u8) -> Base {
    match number {
        0 => Base::least(),
        32 => Base::greatest(),
        _ => entry(u16::from(number) * 10).base.boundary(),
    }
}

// A leaf with entries of these directories.
pub(crate) fn leaf_of(mirror: u8, objects: &[u16]) -> Result<Node, Fail> {
    let mut places = ArrayVec::new();
    for object in objects {
        places.try_push(entry(*object)).ok().ok_or("no room")?;
    }
    Ok(Node::Leaf(Leaf {
        mirror: u64::from(mirror),
        places,
    }))
}

// Leaf `number` of 32: it has two entries, its `mirror` is 10 and its number, and its page has that
// number too.
pub(crate) fn leaf(number: u8) -> Result<Node, Fail> {
    let obj = u16::from(number) * 10;
    leaf_of(number.saturating_add(10), &[obj + 3, obj + 6])
}

// An inner node above so many leaves, from one of them on.
pub(crate) fn inner(level: u8, mirror: u8, first: u8, count: u8) -> Result<Node, Fail> {
    let mut places = ArrayVec::new();
    for i in 0..count {
        let number = first.saturating_add(i);
        let child = Child {
            left: boundary(number),
            child: offset(number.saturating_add(10))?,
            mirror: u64::from(number.saturating_add(10)),
        };
        places.try_push(child).ok().ok_or("no room")?;
    }
    Ok(Node::Inner(Inner {
        level,
        mirror: u64::from(mirror),
        places,
        right: boundary(first.saturating_add(count)),
    }))
}

// The root, at page 1, above two inner nodes at the pages 2 and 3.
pub(crate) fn root() -> Result<Node, Fail> {
    let mut places = ArrayVec::new();
    places.push(Child {
        left: boundary(0),
        child: offset(2)?,
        mirror: 25,
    });
    places.push(Child {
        left: boundary(16),
        child: offset(3)?,
        mirror: 41,
    });
    Ok(Node::Inner(Inner {
        level: 3,
        mirror: 41,
        places,
        right: boundary(32),
    }))
}

pub(crate) fn put(pages: &mut CheckedPages, number: u8, node: &Node) -> Result<(), Fail> {
    let mut page = Page::zero();
    encode(node, &mut page);
    pages.stored.change(offset(number)?, &page)?;
    Ok(())
}

// The whole tree.
pub(crate) fn tree(alloc: Global) -> Result<CheckedPages, Fail> {
    let mut pages = CheckedPages {
        stored: MemPages::new(alloc),
    };
    put(&mut pages, 1, &root()?)?;
    put(&mut pages, 2, &inner(2, 25, 0, 16)?)?;
    put(&mut pages, 3, &inner(2, 41, 16, 16)?)?;
    for number in 0u8..32 {
        put(&mut pages, number.saturating_add(10), &leaf(number)?)?;
    }
    Ok(pages)
}

// The place of a key, by a search whose steps are counted in a ledger.
fn found_in<L: Ledger>(
    pages: &mut CheckedPages,
    root: HOff,
    at: &Base,
    blank: Blank,
) -> Result<Found, Fault>
    requires root { IsNodeOffset root }
    requires name { blank.name ≡ L.name }
    requires parts { blank.parts ≡ L.parts }
    requires some { 0 < blank.parts }
{
    let mut steps = Steps::<L>::begin(blank);
    find(pages, root, at, &mut steps)
}

pub(crate) fn found_at(pages: &mut CheckedPages, root: HOff, at: &Base) -> Result<Found, Fault>
    requires { IsNodeOffset root }
{
    found_in::<Brand>(pages, root, at, Blank::new(1))
}

// The first element from a key on, and the last up to it, likewise.
fn first_in<L: Ledger>(
    pages: &mut CheckedPages,
    root: HOff,
    at: &Base,
    blank: Blank,
) -> Result<Option<Element>, Fault>
    requires root { IsNodeOffset root }
    requires name { blank.name ≡ L.name }
    requires parts { blank.parts ≡ L.parts }
    requires some { 0 < blank.parts }
{
    let mut steps = Steps::<L>::begin(blank);
    let mut near = root;
    first_near(pages, root, at, &mut near, &mut steps)
}

pub(crate) fn first_found(
    pages: &mut CheckedPages,
    root: HOff,
    at: &Base,
) -> Result<Option<Element>, Fault>
    requires { IsNodeOffset root }
{
    first_in::<Brand>(pages, root, at, Blank::new(1))
}

fn last_in<L: Ledger>(
    pages: &mut CheckedPages,
    root: HOff,
    at: &Base,
    blank: Blank,
) -> Result<Option<Element>, Fault>
    requires root { IsNodeOffset root }
    requires name { blank.name ≡ L.name }
    requires parts { blank.parts ≡ L.parts }
    requires some { 0 < blank.parts }
{
    let mut steps = Steps::<L>::begin(blank);
    last_at_or_before(pages, root, at, &mut steps)
}

pub(crate) fn last_found(
    pages: &mut CheckedPages,
    root: HOff,
    at: &Base,
) -> Result<Option<Element>, Fault>
    requires { IsNodeOffset root }
{
    last_in::<Brand>(pages, root, at, Blank::new(1))
}

// How far nothing was written, likewise.
fn quiet_in<L: Ledger>(
    pages: &mut CheckedPages,
    root: HOff,
    at: &Base,
    since: Id,
    blank: Blank,
) -> Result<Option<Base>, Fault>
    requires root { IsNodeOffset root }
    requires before { IsBefore (key_of at.now) greatest_key }
    requires name { blank.name ≡ L.name }
    requires parts { blank.parts ≡ L.parts }
    requires some { 0 < blank.parts }
{
    let mut steps = Steps::<L>::begin(blank);
    unchanged_until(pages, root, at, since, &mut steps)
}

pub(crate) fn quiet_from(
    pages: &mut CheckedPages,
    root: HOff,
    at: &Base,
    since: Id,
) -> Result<Option<Base>, Fault>
    requires root { IsNodeOffset root }
    requires before { IsBefore (key_of at.now) greatest_key }
{
    quiet_in::<Brand>(pages, root, at, since, Blank::new(1))
}
