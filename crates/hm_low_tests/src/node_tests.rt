// Nodes against bytes that were written by hand, and what each damage is told as.
ghost use Rattle.std.specs.Prelude.{◌≡◌, ◌≤◌, length};
ghost use Rattle.hm_types.specs.declared.limits.TheConstants.{PAGE_BYTES};

use arrayvec::ArrayVec;
use hm_fields::Page;
use hm_key::{BOUNDARY, Base, DIRECTORY_ENTRY, ELEMENT, Element, INODE, PFS_RECORD};
use hm_node::{Child, Head, Inner, Leaf, Node, decode, encode, read_base};
use hm_types::{
    BAD_COUNT, BAD_FIELD, BAD_LEVEL, BAD_MIRROR, BAD_ORDER, Fault, HOff, MOST_INNER_CHILDREN,
    MOST_LEAF_ELEMENTS, Obj, PAGE_BYTES,
};
use std::test::Fail;

// The head of the root of a fresh volume: a leaf with two elements.
const FRESH_HEAD: [u8; 64] = [
    0x01, 0x01, 0x02, 0x00, 0, 0, 0, 0, 0x01, 0, 0, 0, 0, 0, 0, 0, //
    0, 0, 0, 0, 0, 0, 0, 0, 0, 0, 0, 0, 0, 0, 0, 0, //
    0, 0, 0, 0, 0, 0, 0, 0, 0, 0, 0, 0, 0, 0, 0, 0, //
    0, 0, 0, 0, 0, 0, 0, 0, 0, 0, 0, 0, 0, 0, 0, 0, //
];

// Its first element: the inode of object 1.
pub(crate) const FRESH_INODE: [u8; 64] = [
    0x01, 0, 0, 0, 0, 0, 0, 0, 0, 0, 0, 0, 0, 0, 0, 0, //
    0x01, 0, 0, 0, 0, 0, 0, 0, 0, 0, 0, 0, 0, 0, 0, 0, //
    0x01, 0x00, 0x01, 0x01, 0x01, 0, 0, 0, 0x00, 0x00, 0x00, 0x06, 0, 0, 0, 0x90, //
    0x20, 0, 0, 0, 0, 0, 0, 0, 0, 0, 0, 0, 0, 0, 0, 0, //
];

// Its second element: the record of PFS 0.
pub(crate) const FRESH_RECORD: [u8; 64] = [
    0x01, 0, 0, 0, 0, 0, 0, 0, 0, 0, 0, 0, 0, 0, 0, 0, //
    0x01, 0, 0, 0, 0, 0, 0, 0, 0, 0, 0, 0, 0, 0, 0, 0, //
    0x15, 0x00, 0x01, 0x01, 0x02, 0, 0, 0, 0x20, 0x00, 0x00, 0x06, 0, 0, 0, 0x90, //
    0x30, 0, 0, 0, 0, 0, 0, 0, 0, 0, 0, 0, 0, 0, 0, 0, //
];

// The head of a root above two leaves.
const TALL_HEAD: [u8; 64] = [
    0x02, 0x02, 0x02, 0x00, 0, 0, 0, 0, 0x09, 0, 0, 0, 0, 0, 0, 0, //
    0, 0, 0, 0, 0, 0, 0, 0, 0, 0, 0, 0, 0, 0, 0, 0, //
    0, 0, 0, 0, 0, 0, 0, 0, 0, 0, 0, 0, 0, 0, 0, 0, //
    0, 0, 0, 0, 0, 0, 0, 0, 0, 0, 0, 0, 0, 0, 0, 0, //
];

// Its first child, with the left boundary of the whole tree.
const TALL_LEFT: [u8; 64] = [
    0, 0, 0, 0, 0, 0, 0, 0, 0, 0, 0, 0, 0, 0, 0, 0, //
    0, 0, 0, 0, 0, 0, 0, 0, 0, 0, 0, 0, 0, 0, 0, 0, //
    0x00, 0x00, 0x00, 0x02, 0x00, 0, 0, 0, 0x00, 0x10, 0x80, 0x05, 0, 0, 0, 0x80, //
    0x09, 0, 0, 0, 0, 0, 0, 0, 0, 0, 0, 0, 0, 0, 0, 0, //
];

// Its second child, which begins at an entry of directory 5.
const TALL_NEXT: [u8; 64] = [
    0x05, 0, 0, 0, 0, 0, 0, 0, 0x00, 0x01, 0, 0, 0, 0, 0, 0, //
    0x03, 0, 0, 0, 0, 0, 0, 0, 0, 0, 0, 0, 0, 0, 0, 0, //
    0x11, 0x00, 0x00, 0x02, 0x02, 0, 0, 0, 0x00, 0x20, 0x80, 0x05, 0, 0, 0, 0x80, //
    0x04, 0, 0, 0, 0, 0, 0, 0, 0, 0, 0, 0, 0, 0, 0, 0, //
];

// The right boundary of the whole tree, in the place after them.
const TALL_RIGHT: [u8; 64] = [
    0xFF, 0xFF, 0xFF, 0xFF, 0xFF, 0xFF, 0xFF, 0xFF, 0xFF, 0xFF, 0xFF, 0xFF, 0xFF, 0xFF, 0xFF, 0xFF, //
    0xFF, 0xFF, 0xFF, 0xFF, 0xFF, 0xFF, 0xFF, 0xFF, 0, 0, 0, 0, 0, 0, 0, 0, //
    0xFF, 0xFF, 0x00, 0x02, 0xFF, 0xFF, 0xFF, 0xFF, 0, 0, 0, 0, 0, 0, 0, 0, //
    0, 0, 0, 0, 0, 0, 0, 0, 0, 0, 0, 0, 0, 0, 0, 0, //
];

// Puts bytes into an array, each piece at its place.
fn put_all(bytes: &mut [u8; PAGE_BYTES], pieces: &[(usize, &[u8])]) -> Result<(), Fail> {
    for &(at, piece) in pieces {
        bytes
            .get_mut(at..at.saturating_add(piece.len()))
            .ok_or("a piece outside the page")?
            .copy_from_slice(piece);
    }
    Ok(())
}

// The page with a leaf of two elements, and then some bytes changed.
pub(crate) fn fresh_root(changes: &[(usize, &[u8])]) -> Result<Page, Fail> {
    let mut bytes = [0; PAGE_BYTES];
    put_all(
        &mut bytes,
        &[(0, &FRESH_HEAD), (64, &FRESH_INODE), (128, &FRESH_RECORD)],
    )?;
    put_all(&mut bytes, changes)?;
    let mut page = Page::zero();
    page.copy_from(&bytes);
    Ok(page)
}

// The page with an inner node of two children, and then some bytes changed.
pub(crate) fn tall_root(changes: &[(usize, &[u8])]) -> Result<Page, Fail> {
    let mut bytes = [0; PAGE_BYTES];
    put_all(
        &mut bytes,
        &[
            (0, &TALL_HEAD),
            (64, &TALL_LEFT),
            (128, &TALL_NEXT),
            (192, &TALL_RIGHT),
        ],
    )?;
    put_all(&mut bytes, changes)?;
    let mut page = Page::zero();
    page.copy_from(&bytes);
    Ok(page)
}

// A page with 0xA5 in each byte.
fn filled() -> Page {
    let mut page = Page::zero();
    page.copy_from(&[0xA5; PAGE_BYTES]);
    page
}

pub(crate) fn offset(raw: u64) -> Result<HOff, Fail> {
    Ok(HOff::from_raw(raw).ok_or("no offset")?)
}

// An entry of a directory, open since id 3.
fn entry(obj: u64, payload: HOff) -> Element {
    Element {
        base: Base {
            obj: Obj(obj),
            key: 7,
            create: 3,
            delete: 0,
            rec_type: DIRECTORY_ENTRY,
            obj_type: 2,
            btype: ELEMENT,
            localization: 0x0001_0002,
        },
        payload,
        len: 9,
    }
}

// A leaf with so many entries, each of another directory.
fn leaf_of(count: usize) -> Result<Leaf, Fail> {
    let mut places = ArrayVec::new();
    for i in 0..count {
        let element = entry(i as u64, offset(0x9000_0000_0600_0000)?);
        places.try_push(element).ok().ok_or("no room")?;
    }
    Ok(Leaf { mirror: 3, places })
}

// An inner node with so many children, each of which begins at another directory.
fn inner_of(count: usize) -> Result<Inner, Fail> {
    let mut places = ArrayVec::new();
    for i in 0..count {
        let child = Child {
            left: entry(i as u64, HOff::default()).base.boundary(),
            child: offset(0x8000_0000_0580_1000)?,
            mirror: 3,
        };
        places.try_push(child).ok().ok_or("no room")?;
    }
    Ok(Inner {
        level: 9,
        mirror: 3,
        places,
        right: Base::greatest(),
    })
}

#[test]
fn the_root_of_a_fresh_volume_is_read_and_written(rt: HostRuntime) -> Result<(), Fail> {
    let at = offset(0x8000_0000_0580_0000)?;
    let page = fresh_root(&[])?;
    let inode = Element {
        base: Base {
            obj: Obj(1),
            key: 0,
            create: 1,
            delete: 0,
            rec_type: INODE,
            obj_type: 1,
            btype: ELEMENT,
            localization: 1,
        },
        payload: offset(0x9000_0000_0600_0000)?,
        len: 32,
    };
    let record = Element {
        base: Base {
            rec_type: PFS_RECORD,
            localization: 2,
            ..inode.base
        },
        payload: offset(0x9000_0000_0600_0020)?,
        len: 48,
    };
    let mut places = ArrayVec::new();
    places.push(inode);
    places.push(record);
    let root = Node::Leaf(Leaf { mirror: 1, places });
    assert_eq!(rt; decode(at, &page).ok().as_ref(), Some(&root));

    let mut written = filled();
    encode(&root, &mut written);
    assert!(rt; written.bytes() == page.bytes());
    Ok(())
}

#[test]
fn an_inner_node_is_read_and_written(rt: HostRuntime) -> Result<(), Fail> {
    let at = offset(0x8000_0000_0580_0000)?;
    let page = tall_root(&[])?;
    let mut places = ArrayVec::new();
    places.push(Child {
        left: Base::least(),
        child: offset(0x8000_0000_0580_1000)?,
        mirror: 9,
    });
    places.push(Child {
        left: Base {
            obj: Obj(5),
            key: 0x100,
            create: 3,
            delete: 0,
            rec_type: DIRECTORY_ENTRY,
            obj_type: 0,
            btype: BOUNDARY,
            localization: 2,
        },
        child: offset(0x8000_0000_0580_2000)?,
        mirror: 4,
    });
    let root = Node::Inner(Inner {
        level: 2,
        mirror: 9,
        places,
        right: Base::greatest(),
    });
    assert_eq!(rt; decode(at, &page).ok().as_ref(), Some(&root));

    let mut written = filled();
    encode(&root, &mut written);
    assert!(rt; written.bytes() == page.bytes());
    Ok(())
}

#[test]
fn a_damaged_leaf_tells_the_first_rule_that_it_breaks(rt: HostRuntime) -> Result<(), Fail> {
    let at = offset(0x8000_0000_0580_0000)?;
    let rows: [(&str, &[(usize, &[u8])], u8); 44] = [
        ("kind 0", &[(0, &[0])], BAD_LEVEL),
        ("kind 3", &[(0, &[3])], BAD_LEVEL),
        ("a leaf of level 0", &[(1, &[0])], BAD_LEVEL),
        ("a leaf of level 2", &[(1, &[2])], BAD_LEVEL),
        ("64 elements", &[(2, &[64])], BAD_COUNT),
        ("256 elements more", &[(3, &[1])], BAD_COUNT),
        ("two elements at one key", &[(128, &FRESH_INODE)], BAD_ORDER),
        (
            "elements swapped",
            &[(64, &FRESH_RECORD), (128, &FRESH_INODE)],
            BAD_ORDER,
        ),
        ("an element made by no id", &[(80, &[0])], BAD_FIELD),
        ("closed by the id that made it", &[(88, &[1])], BAD_FIELD),
        ("a type without a meaning", &[(96, &[2])], BAD_FIELD),
        ("a type of two bytes", &[(97, &[1])], BAD_FIELD),
        ("no kind of object", &[(98, &[0])], BAD_FIELD),
        ("a fifth kind of object", &[(98, &[5])], BAD_FIELD),
        ("no element", &[(99, &[0])], BAD_FIELD),
        ("a boundary", &[(99, &[2])], BAD_FIELD),
        ("an inode among all else", &[(100, &[2])], BAD_FIELD),
        ("an inode's key", &[(72, &[1])], BAD_FIELD),
        ("a record among inodes", &[(164, &[1])], BAD_FIELD),
        ("a record of another PFS", &[(136, &[1])], BAD_FIELD),
        ("a record of another object", &[(128, &[2])], BAD_FIELD),
        ("an offset in no zone", &[(111, &[0])], BAD_FIELD),
        ("an offset in zone 12", &[(111, &[0xC0])], BAD_FIELD),
        ("an offset in volume 1", &[(110, &[0x10])], BAD_FIELD),
        ("byte 4", &[(4, &[1])], BAD_FIELD),
        ("byte 7", &[(7, &[1])], BAD_FIELD),
        ("byte 16", &[(16, &[1])], BAD_FIELD),
        ("byte 63", &[(63, &[1])], BAD_FIELD),
        ("the first byte after an element", &[(116, &[1])], BAD_FIELD),
        (
            "the middle of what is after an element",
            &[(119, &[1])],
            BAD_FIELD,
        ),
        ("the last byte of a place", &[(127, &[1])], BAD_FIELD),
        ("the end of the last element", &[(191, &[1])], BAD_FIELD),
        ("the first unused place", &[(192, &[1])], BAD_FIELD),
        ("the last byte", &[(4_095, &[1])], BAD_FIELD),
        ("an element past the count", &[(2, &[1])], BAD_FIELD),
        ("made after mirror", &[(8, &[0])], BAD_MIRROR),
        ("closed after mirror", &[(88, &[2])], BAD_MIRROR),
        (
            "the last one closed after mirror",
            &[(152, &[2])],
            BAD_MIRROR,
        ),
        ("kind and count", &[(0, &[3]), (2, &[64])], BAD_LEVEL),
        ("level and mirror", &[(1, &[2]), (8, &[0])], BAD_LEVEL),
        ("count and a zero part", &[(2, &[64]), (4, &[1])], BAD_COUNT),
        (
            "order and a zero part",
            &[(128, &FRESH_INODE), (4, &[1])],
            BAD_ORDER,
        ),
        (
            "order and mirror",
            &[(128, &FRESH_INODE), (8, &[0])],
            BAD_ORDER,
        ),
        ("a field and mirror", &[(99, &[2]), (8, &[0])], BAD_FIELD),
    ];
    for (damage, changes, kind) in rows {
        let page = fresh_root(changes)?;
        assert_eq!(rt;
            decode(at, &page).err(),
            Some(Fault::Damaged { at, kind }),
            "{damage}"
        );
    }
    Ok(())
}

#[test]
fn a_damaged_inner_node_tells_the_first_rule_that_it_breaks(rt: HostRuntime) -> Result<(), Fail> {
    let at = offset(0x8000_0000_0580_0000)?;
    let rows: [(&str, &[(usize, &[u8])], u8); 33] = [
        ("level 1", &[(1, &[1])], BAD_LEVEL),
        ("level 10", &[(1, &[10])], BAD_LEVEL),
        ("no child", &[(2, &[0])], BAD_COUNT),
        ("63 children", &[(2, &[63])], BAD_COUNT),
        ("two equal boundaries", &[(128, &TALL_LEFT)], BAD_ORDER),
        (
            "boundaries swapped",
            &[(64, &TALL_NEXT), (128, &TALL_LEFT)],
            BAD_ORDER,
        ),
        (
            "the right boundary before the last",
            &[(192, &[0; 24]), (224, &[0, 0]), (228, &[0; 4])],
            BAD_ORDER,
        ),
        (
            "the right boundary at the last",
            &[
                (
                    192,
                    &[
                        5, 0, 0, 0, 0, 0, 0, 0, 0, 1, 0, 0, 0, 0, 0, 0, 3, 0, 0, 0, 0, 0, 0, 0,
                    ],
                ),
                (224, &[0x11, 0]),
                (228, &[2, 0, 0, 0]),
            ],
            BAD_ORDER,
        ),
        ("a closed boundary", &[(152, &[4])], BAD_FIELD),
        (
            "a boundary with a kind of object",
            &[(162, &[1])],
            BAD_FIELD,
        ),
        ("an element as a boundary", &[(163, &[1])], BAD_FIELD),
        ("a closed right boundary", &[(216, &[4])], BAD_FIELD),
        (
            "a right boundary with a kind of object",
            &[(226, &[1])],
            BAD_FIELD,
        ),
        (
            "an element as the right boundary",
            &[(227, &[1])],
            BAD_FIELD,
        ),
        ("a child in no zone", &[(175, &[0])], BAD_FIELD),
        ("a child in zone 9", &[(175, &[0x90])], BAD_FIELD),
        ("a child in volume 1", &[(174, &[0x10])], BAD_FIELD),
        ("a child at byte 1 of a page", &[(168, &[1])], BAD_FIELD),
        ("a child at half a page", &[(169, &[0x28])], BAD_FIELD),
        ("byte 5", &[(5, &[1])], BAD_FIELD),
        ("byte 40", &[(40, &[1])], BAD_FIELD),
        ("the first byte after a child", &[(120, &[1])], BAD_FIELD),
        ("the last byte of a place", &[(191, &[1])], BAD_FIELD),
        ("a child of the right boundary", &[(232, &[1])], BAD_FIELD),
        ("a mirror of the right boundary", &[(240, &[1])], BAD_FIELD),
        (
            "the end of the right boundary's place",
            &[(255, &[1])],
            BAD_FIELD,
        ),
        ("the first unused place", &[(256, &[1])], BAD_FIELD),
        ("the last byte", &[(4_095, &[1])], BAD_FIELD),
        (
            "a child's mirror above the node's",
            &[(8, &[8])],
            BAD_MIRROR,
        ),
        (
            "the last child's mirror above the node's",
            &[(176, &[10])],
            BAD_MIRROR,
        ),
        (
            "level and order",
            &[(1, &[0]), (192, &[0; 24]), (224, &[0, 0]), (228, &[0; 4])],
            BAD_LEVEL,
        ),
        (
            "order and mirror",
            &[(192, &[0; 24]), (224, &[0, 0]), (228, &[0; 4]), (8, &[8])],
            BAD_ORDER,
        ),
        (
            "a zero part and mirror",
            &[(240, &[1]), (8, &[8])],
            BAD_FIELD,
        ),
    ];
    for (damage, changes, kind) in rows {
        let page = tall_root(changes)?;
        assert_eq!(rt;
            decode(at, &page).err(),
            Some(Fault::Damaged { at, kind }),
            "{damage}"
        );
    }
    Ok(())
}

#[test]
fn full_and_empty_nodes_come_back(rt: HostRuntime) -> Result<(), Fail> {
    let at = offset(0x8000_0000_0580_0000)?;
    let mut page = filled();
    for (node, count) in [
        (Node::Leaf(leaf_of(0)?), 0),
        (Node::Leaf(leaf_of(1)?), 1),
        (Node::Leaf(leaf_of(MOST_LEAF_ELEMENTS)?), 63),
        (Node::Inner(inner_of(1)?), 1),
        (Node::Inner(inner_of(MOST_INNER_CHILDREN)?), 62),
    ] {
        encode(&node, &mut page);
        assert_eq!(rt; Head::read(&page).count, count);
        assert_eq!(rt; decode(at, &page).ok().as_ref(), Some(&node), "{count}");
    }
    Ok(())
}

#[test]
fn bases_are_read_from_a_damaged_page(rt: HostRuntime) -> Result<(), Fail> {
    let page = tall_root(&[(0, &[7, 7, 7, 7])])?;
    assert_eq!(rt; read_base(&page, 64), Base::least());
    assert_eq!(rt; read_base(&page, 192), Base::greatest());
    assert_eq!(rt; read_base(&page, 128).obj, Obj(5));
    Ok(())
}
