// Answers over a store in memory, on objects and entries that were worked out by hand.
ghost use Rattle.std.specs.Prelude.{IfOk};
ghost use Rattle.hm_key.specs.Balance.{Balanced};

use crate::metered::Metered;
use crate::stores::{add, entry_bytes, inode_bytes, record_bytes};
use hm_cursor::{entry_base, find_inode, inode_base, record_base, target_base};
use hm_key::{Base, HasElements, HasRoom, MemStore};
use hm_records::{DIRECTORY, FILE, Inode, PFS_LINK, SOFTLINK};
use hm_types::{BAD_PAYLOAD, Fault, HOff, Id, Names, Obj, Pfs};
use hm_view::{list, size, snapshot_ids, target};
use std::alloc::Global;
use std::test::Fail;

const PFS: Pfs = Pfs(3);

const ROOT: Obj = Obj(1);

// The first key of another hash than that of key 0.
const ONE: u64 = 0x0001_0000;

// What an element tells.
#[derive(Clone, Copy)]
enum Item<'a> {
    // The record of a master that keeps all ids.
    Master(u16),
    // The record of a slave that keeps the ids up to its sync end.
    Slave(u16, u64),
    // An object: its number, its kind, its size, and the PFS that a link leads to.
    Object(u64, u8, u64, u16),
    // The target of a softlink.
    Target(u64, &'a [u8]),
    // An entry of the root directory: its key, its name and its object.
    Entry(u64, &'a [u8], u64),
    // A payload that stands as an entry of the root directory, whatever it spells.
    Forged(u64, &'a [u8]),
}

// The tree of the tests: what it has, and the ids that made and closed it. The name `b` stands twice,
// `e` has no object, and there is no PFS 2. The inodes of softlinks have other sizes than their
// targets have.
const TREE: [(Item<'static>, u64, u64); 20] = [
    (Item::Master(0), 1, 0),
    (Item::Slave(1, 0x2b), 1, 0),
    (Item::Object(1, DIRECTORY, 0, 0), 1, 0),
    (Item::Object(2, FILE, 7, 0), 2, 0),
    (Item::Object(3, SOFTLINK, 9, 0), 2, 0),
    (Item::Target(3, b"../here"), 2, 0),
    (Item::Object(4, FILE, 8, 0), 2, 0),
    (Item::Object(5, DIRECTORY, 0, 0), 2, 0),
    (Item::Entry(5, b"b", 2), 2, 0),
    (Item::Entry(6, b"c", 3), 2, 0),
    (Item::Entry(7, b"b", 4), 2, 0),
    (Item::Entry(ONE, b"a", 5), 2, 0),
    (Item::Entry(2 * ONE, b"f", 4), 2, 4),
    (Item::Object(6, PFS_LINK, 0, 1), 3, 0),
    (Item::Object(7, SOFTLINK, 9, 0), 3, 0),
    (Item::Object(8, PFS_LINK, 0, 0), 3, 0),
    (Item::Object(9, PFS_LINK, 0, 2), 3, 0),
    (Item::Entry(0, b"d", 6), 3, 0),
    (Item::Entry(ONE + 1, b"e", 10), 3, 0),
    (Item::Object(10, FILE, 0, 0), 2, 3),
];

// Where an item stands.
fn base_of(item: Item<'_>) -> Base {
    match item {
        Item::Master(pfs) | Item::Slave(pfs, _) => record_base(Pfs(pfs)),
        Item::Object(object, _, _, _) => inode_base(PFS, Obj(object)),
        Item::Target(object, _) => target_base(PFS, Obj(object)),
        Item::Entry(key, _, _) | Item::Forged(key, _) => entry_base(PFS, ROOT, key),
    }
}

// An item as bytes.
fn payload_of(alloc: Global, item: Item<'_>) -> Result<Vec<u8>, Fail> {
    match item {
        Item::Master(_) => record_bytes(alloc, None),
        Item::Slave(_, sync_end) => record_bytes(alloc, Some(sync_end)),
        Item::Object(_, kind, size, pfs) => inode_bytes(alloc, kind, size, pfs),
        Item::Target(_, bytes) | Item::Forged(_, bytes) => Ok(Vec::from_slice(alloc, bytes)?),
        Item::Entry(_, name, object) => entry_bytes(alloc, name, object),
    }
}

// A store of these items, and where the last payload stands.
fn store_of(alloc: Global, items: &[(Item<'_>, u64, u64)]) -> Result<(MemStore, HOff), Fail>
    ensures { IfOk result (λ pair. Balanced (⟦<MemStore as HasElements>⟧.elements pair.0)
        (⟦<MemStore as HasRoom>⟧.extents pair.0)) }
{
    let mut store = MemStore::new(alloc, 0);
    let mut at = HOff::default();
    for (item, create, delete) in items {
        let bytes = payload_of(alloc, *item)?;
        at = add(
            &mut store,
            &base_of(*item),
            *create,
            *delete,
            bytes.as_slice(),
        )?;
    }
    Ok((store, at))
}

// Names as one text: the number of the kind and the name, each with a blank before it.
fn text_of(alloc: Global, names: &Names) -> Result<Vec<u8>, Fail> {
    let mut text = Vec::new(alloc);
    for (kind, name) in names.list() {
        text.push(b' ')?;
        text.push(kind.saturating_add(b'0'))?;
        text.extend_from_slice(name.bytes())?;
    }
    Ok(text)
}

// The inode of an object of the tree, which must have it.
fn inode_of(store: &mut MemStore, object: u64, as_of: u64) -> Result<Inode, Fail>
    requires { Balanced (⟦<MemStore as HasElements>⟧.elements store.old)
        (⟦<MemStore as HasRoom>⟧.extents store.old) }
    ensures { Balanced (⟦<MemStore as HasElements>⟧.elements store.new)
        (⟦<MemStore as HasRoom>⟧.extents store.new) }
{
    match find_inode(store, PFS, Obj(object), Id(as_of))? {
        Some(inode) => Ok(inode),
        None => Err("no inode")?,
    }
}

#[test]
fn a_listing_has_each_name_once_with_its_kind_by_the_bytes_of_the_names(
    rt: HostRuntime,
) -> Result<(), Fail> {
    for (directory, as_of, wanted) in [
        (1, 1, ""),
        (1, 2, " 1a 2b 3c 2f"),
        (1, 3, " 1a 2b 3c 4d 0e 2f"),
        (1, 4, " 1a 2b 3c 4d 0e"),
        (1, u64::MAX, " 1a 2b 3c 4d 0e"),
        (2, 4, ""),
        (5, 4, ""),
    ] {
        let (mut store, _) = store_of(rt.alloc(), &TREE)?;
        let names = list(rt.alloc(), &mut store, PFS, Obj(directory), Id(as_of))?;
        let text = text_of(rt.alloc(), &names)?;
        assert_eq!(rt;
            text.as_slice(),
            wanted.as_bytes(),
            "{directory} as of {as_of}"
        );
    }
    Ok(())
}

#[test]
fn a_size_is_that_of_the_kind(rt: HostRuntime) -> Result<(), Fail> {
    for (object, as_of, wanted) in [
        (1, 1, 0),
        (1, 2, 4),
        (1, 3, 6),
        (1, 4, 5),
        (2, 4, 7),
        (3, 4, 7),
        (5, 4, 0),
        (6, 4, 1),
        (7, 4, 0),
        (8, 4, 0),
        (9, 4, 2),
    ] {
        let (mut store, _) = store_of(rt.alloc(), &TREE)?;
        let inode = inode_of(&mut store, object, as_of)?;
        let size = size(rt.alloc(), &mut store, PFS, Obj(object), &inode, Id(as_of))?;
        assert_eq!(rt; size, wanted, "{object} as of {as_of}");
    }
    Ok(())
}

#[test]
fn a_target_is_that_of_the_link(rt: HostRuntime) -> Result<(), Fail> {
    for (object, wanted) in [
        (1, ""),
        (2, ""),
        (3, "../here"),
        (6, "@@0x000000000000002b:00001"),
        (7, ""),
        (8, "@@-1:00000"),
        (9, "@@-1:00002"),
    ] {
        let (mut store, _) = store_of(rt.alloc(), &TREE)?;
        let inode = inode_of(&mut store, object, 4)?;
        let text = target(rt.alloc(), &mut store, PFS, Obj(object), &inode, Id(4))?;
        assert_eq!(rt; text.bytes(), wanted.as_bytes(), "{object}");
    }
    Ok(())
}

// The ids that the root directory of these items names, one after the other.
fn ids_of(
    alloc: Global,
    items: &[(Item<'_>, u64, u64)],
    as_of: u64,
    shown: u64,
) -> Result<Vec<Id>, Fail> {
    let (mut store, _) = store_of(alloc, items)?;
    Ok(snapshot_ids(alloc, &mut store, PFS, ROOT, Id(as_of), Id(shown))?)
}

#[test]
fn the_first_id_in_a_target_counts(rt: HostRuntime) -> Result<(), Fail> {
    let rows: [(&[u8], u64, Option<u64>); 12] = [
        (b"@@0x0000000000000004", 4, Some(4)),
        (b"x@@0x00000000000000aAz", 900, Some(0xaa)),
        (b"@@0x0000000000000004@@0x0000000000000003", 900, Some(4)),
        (b"@@0x0000000000000003", 2, None),
        (b"@@0x000000000000003", 900, None),
        (b"@@0x00000000000000031", 900, Some(3)),
        (b"@@0x000000000000000g@@0x0000000000000009", 900, Some(9)),
        (b"@@@0x0000000000000005", 900, Some(5)),
        (b"@@0x0000000000000000", 0, Some(0)),
        (b"@@0xffffffffffffffff", u64::MAX, Some(u64::MAX)),
        (b"@@0X0000000000000005", 900, None),
        (b"@@-1:00001", 900, None),
    ];
    for (target, shown, wanted) in rows {
        let items = [
            (Item::Object(2, SOFTLINK, 1, 0), 2, 0),
            (Item::Target(2, target), 2, 0),
            (Item::Entry(5, b"a", 2), 2, 0),
        ];
        let ids = ids_of(rt.alloc(), &items, 9, shown)?;
        assert_eq!(rt; ids.first().copied(), wanted.map(Id), "{target:?}");
        assert!(rt; ids.len() <= 1, "{target:?}");
    }
    Ok(())
}

#[test]
fn each_name_of_a_softlink_counts_as_of_the_id(rt: HostRuntime) -> Result<(), Fail> {
    // Two names of one link, one hidden behind another name, a file, a link without a target, a
    // name without an object, and a link that was closed.
    let items = [
        (Item::Object(2, SOFTLINK, 20, 0), 2, 0),
        (Item::Target(2, b"@@0x0000000000000005"), 2, 0),
        (Item::Object(3, FILE, 0, 0), 2, 0),
        (Item::Object(4, SOFTLINK, 20, 0), 2, 0),
        (Item::Target(4, b"@@0x0000000000000007"), 2, 0),
        (Item::Object(6, SOFTLINK, 20, 0), 2, 0),
        (Item::Object(8, SOFTLINK, 20, 0), 2, 4),
        (Item::Target(8, b"@@0x0000000000000003"), 2, 4),
        (Item::Entry(5, b"b", 2), 2, 0),
        (Item::Entry(6, b"c", 2), 2, 0),
        (Item::Entry(7, b"b", 4), 2, 0),
        (Item::Entry(ONE, b"a", 3), 2, 0),
        (Item::Entry(ONE + 1, b"e", 10), 2, 0),
        (Item::Entry(2 * ONE, b"f", 6), 2, 0),
        (Item::Entry(3 * ONE, b"g", 8), 2, 0),
    ];
    let rows: [(u64, u64, &[Id]); 4] = [
        (1, 9, &[]),
        (2, 9, &[Id(3), Id(5), Id(5)]),
        (2, 4, &[Id(3)]),
        (4, 9, &[Id(5), Id(5)]),
    ];
    for (as_of, shown, wanted) in rows {
        let ids = ids_of(rt.alloc(), &items, as_of, shown)?;
        assert!(rt; ids.as_slice() == wanted, "{as_of} {shown}");
    }
    Ok(())
}

// The size of a softlink with a target of so many bytes, and whether that is damage.
fn target_of_bytes(alloc: Global, len: usize) -> Result<(u64, bool), Fail> {
    let bytes = Vec::from_elem(alloc, b'x', len)?;
    let items = [
        (Item::Object(3, SOFTLINK, 9, 0), 2, 0),
        (Item::Target(3, bytes.as_slice()), 2, 0),
    ];
    let (mut store, at) = store_of(alloc, &items)?;
    let inode = inode_of(&mut store, 3, 2)?;
    let told = size(alloc, &mut store, PFS, Obj(3), &inode, Id(2))?;
    let found = target(alloc, &mut store, PFS, Obj(3), &inode, Id(2)).err();
    let damage = Fault::Damaged {
        at,
        kind: BAD_PAYLOAD,
    };
    match found {
        Some(fault) if fault == damage => Ok((told, true)),
        Some(_) => Err("another fault")?,
        None => Ok((told, false)),
    }
}

#[test]
fn a_target_that_is_too_long_is_damage_there(rt: HostRuntime) -> Result<(), Fail> {
    for (len, wanted) in [
        (1, (1, false)),
        (1_023, (1_023, false)),
        (1_024, (1_024, true)),
        (65_536, (65_536, true)),
    ] {
        assert_eq!(rt; target_of_bytes(rt.alloc(), len)?, wanted, "{len}");
    }
    Ok(())
}

// Whether a listing and a count find damage at an entry with this payload, and nothing else.
fn is_damage(alloc: Global, bytes: &[u8]) -> Result<bool, Fail> {
    let items = [
        (Item::Object(1, DIRECTORY, 0, 0), 1, 0),
        (Item::Entry(0, b"a", 1), 2, 0),
        (Item::Forged(ONE, bytes), 2, 0),
    ];
    let (mut store, at) = store_of(alloc, &items)?;
    let inode = inode_of(&mut store, 1, 2)?;
    let damage = Some(Fault::Damaged {
        at,
        kind: BAD_PAYLOAD,
    });
    let listed = list(alloc, &mut store, PFS, ROOT, Id(2)).err();
    let counted = size(alloc, &mut store, PFS, ROOT, &inode, Id(2)).err();
    Ok(listed == damage && counted == damage)
}

#[test]
fn a_payload_that_spells_no_entry_is_damage_there(rt: HostRuntime) -> Result<(), Fail> {
    assert!(rt; !is_damage(rt.alloc(), b"\x01\0\0\0\0\0\0\0b")?);
    assert!(rt; is_damage(rt.alloc(), b"\x01\0\0\0\0\0\0\0a/b")?);
    Ok(())
}

// A store whose root directory has 100 files, each under the first key of a hash of its own.
fn store_of_100(alloc: Global) -> Result<MemStore, Fail>
    ensures { IfOk result (λ store. Balanced (⟦<MemStore as HasElements>⟧.elements store)
        (⟦<MemStore as HasRoom>⟧.extents store)) }
{
    let mut store = MemStore::new(alloc, 0);
    for place in 0..100_u8 {
        let object = u64::from(place) + 2;
        let inode = inode_bytes(alloc, FILE, 0, 0)?;
        let name = [b'0' + place / 10, b'0' + place % 10];
        let entry = entry_bytes(alloc, &name, object)?;
        let file = inode_base(PFS, Obj(object));
        let _at = add(&mut store, &file, 2, 0, inode.as_slice())?;
        let named = entry_base(PFS, ROOT, u64::from(place) * ONE);
        let _at = add(&mut store, &named, 2, 0, entry.as_slice())?;
    }
    Ok(store)
}

#[test]
fn a_listing_takes_two_searches_for_each_name(rt: HostRuntime) -> Result<(), Fail> {
    let root = Inode {
        kind: DIRECTORY,
        size: 0,
        links: 1,
        pfs: Pfs(0),
    };
    let mut store = Metered::new(store_of_100(rt.alloc())?);
    let count = size(rt.alloc(), &mut store, PFS, ROOT, &root, Id(2))?;
    let pass = store.searches;
    let names = list(rt.alloc(), &mut store, PFS, ROOT, Id(2))?;
    let listing = store.searches.saturating_sub(pass);
    assert_eq!(rt; (count, names.list().len()), (100, 100));
    assert_eq!(rt; (pass, listing), (100, 200));
    Ok(())
}

// What is asked of an object of the tree.
#[derive(Clone, Copy, Debug)]
enum Call {
    List(u64),
    Size(u64),
    Target(u64),
}

// The fault of a call, of which so many searches and reads are made and the next one is refused, and
// how many are left after it.
fn fault_of(alloc: Global, call: Call, left: u64) -> Result<(Option<Fault>, u64), Fail> {
    let (mut inner, _) = store_of(alloc, &TREE)?;
    let (Call::List(object) | Call::Size(object) | Call::Target(object)) = call;
    let inode = inode_of(&mut inner, object, 4)?;
    let object = Obj(object);
    let mut store = Metered::limited(inner, left);
    let fault = match call {
        Call::List(_) => list(alloc, &mut store, PFS, object, Id(4)).err(),
        Call::Size(_) => size(alloc, &mut store, PFS, object, &inode, Id(4)).err(),
        Call::Target(_) => target(alloc, &mut store, PFS, object, &inode, Id(4)).err(),
    };
    Ok((fault, store.left))
}

#[test]
fn a_search_or_a_read_that_is_refused_memory_is_told(rt: HostRuntime) -> Result<(), Fail> {
    for call in [
        Call::List(1),
        Call::Size(1),
        Call::Size(3),
        Call::Target(3),
        Call::Target(6),
    ] {
        let (fault, left) = fault_of(rt.alloc(), call, 1_000)?;
        assert_eq!(rt; fault, None, "{call:?}");
        for searches in 0..1_000_u64.saturating_sub(left) {
            let (fault, _) = fault_of(rt.alloc(), call, searches)?;
            assert_eq!(rt; fault, Some(Fault::NoMemory), "{call:?} {searches}");
        }
    }
    Ok(())
}
