// Walks over a store in memory, along paths whose ends are worked out by hand.
ghost use Rattle.std.specs.Prelude.{IfOk};
ghost use Rattle.hm_key.specs.Balance.{Balanced};

use crate::stores::{add, entry_bytes, inode_bytes, record_bytes};
use hm_cursor::{entry_base, inode_base, record_base};
use hm_dirs::{Course, Fnv, Follow, Lost, NameHash, Position, Stand, walk};
use hm_key::{Base, HasElements, HasRoom, MemStore};
use hm_path::parse;
use hm_records::{DIRECTORY, FILE, PFS_LINK};
use hm_types::{Id, Obj, Pfs};
use std::alloc::Global;
use std::test::Fail;

// The last id that was drawn.
const LAST: Id = Id(9);

// What an element tells.
#[derive(Clone, Copy)]
enum Item {
    // A master that keeps all ids.
    Master(u16),
    // A slave that keeps the ids up to its sync end.
    Slave(u16, u64),
    // An object of a PFS: its number and its kind.
    Object(u16, u64, u8),
    // A link of PFS 0 to another PFS.
    Link(u64, u16),
    // A name in a directory of PFS 0, and its object.
    Entry(u64, &'static str, u64),
}

// The volume of the tests: what it has, and the id that made it. There is no PFS 2.
const VOLUME: [(Item, u64); 12] = [
    (Item::Master(0), 1),
    (Item::Slave(1, 6), 1),
    (Item::Object(0, 1, DIRECTORY), 1),
    (Item::Object(0, 2, DIRECTORY), 2),
    (Item::Entry(1, "d", 2), 2),
    (Item::Object(0, 3, FILE), 3),
    (Item::Entry(2, "f", 3), 3),
    (Item::Link(4, 1), 4),
    (Item::Entry(1, "s", 4), 4),
    (Item::Link(5, 2), 4),
    (Item::Entry(1, "t", 5), 4),
    (Item::Object(1, 1, DIRECTORY), 5),
];

// Where an item stands.
fn base_of(item: Item) -> Base {
    match item {
        Item::Master(pfs) | Item::Slave(pfs, _) => record_base(Pfs(pfs)),
        Item::Object(pfs, object, _) => inode_base(Pfs(pfs), Obj(object)),
        Item::Link(object, _) => inode_base(Pfs(0), Obj(object)),
        Item::Entry(directory, name, _) => {
            // The key with collision number 0.
            let key = Fnv.hash(name.as_bytes()) / 2 / 65_536 * 65_536;
            entry_base(Pfs(0), Obj(directory), key)
        }
    }
}

// An item as bytes.
fn payload_of(alloc: Global, item: Item) -> Result<Vec<u8>, Fail> {
    match item {
        Item::Master(_) => record_bytes(alloc, None),
        Item::Slave(_, sync_end) => record_bytes(alloc, Some(sync_end)),
        Item::Object(_, _, kind) => inode_bytes(alloc, kind, 0, 0),
        Item::Link(_, pfs) => inode_bytes(alloc, PFS_LINK, 0, pfs),
        Item::Entry(_, name, object) => entry_bytes(alloc, name.as_bytes(), object),
    }
}

// A store that shows the volume of the tests.
fn store_of_volume(alloc: Global) -> Result<MemStore, Fail>
    ensures { IfOk result (λ store. Balanced (⟦<MemStore as HasElements>⟧.elements store)
        (⟦<MemStore as HasRoom>⟧.extents store)) }
{
    let mut store = MemStore::new(alloc, 0);
    for (item, id) in VOLUME {
        let bytes = payload_of(alloc, item)?;
        let _at = add(&mut store, &base_of(item), id, 0, bytes.as_slice())?;
    }
    Ok(store)
}

// The end of a path.
fn walked(
    alloc: Global,
    path: &str,
    follow: Follow,
    watch: Option<(Pfs, Obj)>,
) -> Result<Result<Stand, Lost>, Fail> {
    let mut store = store_of_volume(alloc)?;
    let path = parse(alloc, path.as_bytes())?;
    let course = Course { last: LAST, watch };
    Ok(walk(alloc, &mut store, &Fnv, path.parts(), follow, course)?)
}

// The PFS and the number of the object at the end of a path, and the id as of which it is seen.
fn end_of(
    alloc: Global,
    path: &str,
    follow: Follow,
) -> Result<Result<(u16, u64, Option<Id>), Lost>, Fail> {
    match walked(alloc, path, follow, None)? {
        Ok(stand) => {
            let Position { pfs, object, when } = stand.at;
            Ok(Ok((pfs.0, object.0, when)))
        }
        Err(lost) => Ok(Err(lost)),
    }
}

#[test]
fn a_walk_ends_where_its_path_leads(rt: HostRuntime) -> Result<(), Fail> {
    for (path, follow, wanted) in [
        // From name to name.
        ("/", Follow::Stays, Ok((0, 1, None))),
        ("/d", Follow::Stays, Ok((0, 2, None))),
        ("/d/f", Follow::Stays, Ok((0, 3, None))),
        ("/x", Follow::Stays, Err(Lost::NotFound)),
        ("/f", Follow::Stays, Err(Lost::NotFound)),
        ("/d/x", Follow::Stays, Err(Lost::NotFound)),
        ("/d/x/f", Follow::Stays, Err(Lost::NotFound)),
        ("/d/f/x", Follow::Stays, Err(Lost::NotDir)),
        // Only a link that is named last may stay.
        ("/s", Follow::Stays, Ok((0, 4, None))),
        ("/s", Follow::Follows, Ok((1, 1, None))),
        ("/s", Follow::TakesPfs, Ok((1, 1, None))),
        ("/s/x", Follow::Stays, Err(Lost::NotFound)),
        ("/s/x", Follow::Follows, Err(Lost::NotFound)),
        ("/s/x", Follow::TakesPfs, Err(Lost::NotFound)),
        ("/t", Follow::Stays, Ok((0, 5, None))),
        ("/t", Follow::Follows, Err(Lost::NotFound)),
        ("/t", Follow::TakesPfs, Err(Lost::NotFound)),
        // An id leads to what was there then.
        (
            "/@@0x0000000000000001",
            Follow::Follows,
            Ok((0, 1, Some(Id(1)))),
        ),
        (
            "/@@0x0000000000000001/d",
            Follow::Follows,
            Err(Lost::NotFound),
        ),
        (
            "/@@0x0000000000000002/d",
            Follow::Follows,
            Ok((0, 2, Some(Id(2)))),
        ),
        (
            "/@@0x0000000000000002/d/f",
            Follow::Follows,
            Err(Lost::NotFound),
        ),
        (
            "/@@0x0000000000000003/d/f",
            Follow::Follows,
            Ok((0, 3, Some(Id(3)))),
        ),
        (
            "/d@@0x0000000000000002/f",
            Follow::Follows,
            Err(Lost::NotFound),
        ),
        (
            "/d@@0x0000000000000003/f",
            Follow::Follows,
            Ok((0, 3, Some(Id(3)))),
        ),
        (
            "/d/f@@0x0000000000000002",
            Follow::Follows,
            Err(Lost::NotFound),
        ),
        (
            "/d/@@0x0000000000000001",
            Follow::Follows,
            Err(Lost::NotFound),
        ),
        (
            "/@@0x0000000000000000/d",
            Follow::Follows,
            Err(Lost::NotRetained),
        ),
        // A pseudo file system must keep the id in force.
        (
            "/s/@@0x0000000000000004",
            Follow::Follows,
            Err(Lost::NotFound),
        ),
        (
            "/s/@@0x0000000000000005",
            Follow::Follows,
            Ok((1, 1, Some(Id(5)))),
        ),
        (
            "/s/@@0x0000000000000006",
            Follow::Follows,
            Ok((1, 1, Some(Id(6)))),
        ),
        (
            "/s/@@0x0000000000000007",
            Follow::Follows,
            Err(Lost::NotRetained),
        ),
        (
            "/s@@0x0000000000000003",
            Follow::Follows,
            Err(Lost::NotFound),
        ),
        (
            "/s@@0x0000000000000004",
            Follow::Follows,
            Err(Lost::NotFound),
        ),
        (
            "/s@@0x0000000000000006",
            Follow::Follows,
            Ok((1, 1, Some(Id(6)))),
        ),
        (
            "/s@@0x0000000000000007",
            Follow::Follows,
            Err(Lost::NotRetained),
        ),
        // One that is not entered need not.
        (
            "/s@@0x0000000000000007",
            Follow::Stays,
            Ok((0, 4, Some(Id(7)))),
        ),
        (
            "/s@@0x0000000000000007",
            Follow::TakesPfs,
            Ok((1, 1, Some(Id(7)))),
        ),
    ] {
        let end = end_of(rt.alloc(), path, follow)?;
        assert_eq!(rt; end, wanted, "{path} {follow:?}");
    }
    Ok(())
}

// The id as of which the end of a path is read, and its kind, if it was looked at.
fn read_at(alloc: Global, path: &str, follow: Follow) -> Result<(u64, Option<u8>), Fail> {
    match walked(alloc, path, follow, None)? {
        Ok(stand) => Ok((stand.as_of.0, stand.inode.map(|inode| inode.kind))),
        Err(_) => Err("no end")?,
    }
}

#[test]
fn what_is_seen_now_is_read_as_of_its_last_id(rt: HostRuntime) -> Result<(), Fail> {
    for (path, follow, wanted) in [
        ("/", Follow::Follows, (9, Some(DIRECTORY))),
        ("/d/f", Follow::Follows, (9, Some(FILE))),
        ("/d/f@@0x0000000000000004", Follow::Follows, (4, Some(FILE))),
        ("/s", Follow::Stays, (9, Some(PFS_LINK))),
        ("/s", Follow::Follows, (6, Some(DIRECTORY))),
        ("/s", Follow::TakesPfs, (6, None)),
    ] {
        let read = read_at(rt.alloc(), path, follow)?;
        assert_eq!(rt; read, wanted, "{path} {follow:?}");
    }
    Ok(())
}

// Whether a walk that comes to its end passes an object.
fn passes(alloc: Global, path: &str, pfs: u16, object: u64) -> Result<bool, Fail> {
    match walked(alloc, path, Follow::Follows, Some((Pfs(pfs), Obj(object))))? {
        Ok(stand) => Ok(stand.passed),
        Err(_) => Err("no end")?,
    }
}

#[test]
fn a_walk_tells_what_it_passed(rt: HostRuntime) -> Result<(), Fail> {
    for (path, pfs, object, wanted) in [
        ("/", 0, 1, true),
        ("/", 0, 2, false),
        ("/d/f", 0, 1, true),
        ("/d/f", 0, 2, true),
        ("/d/f", 0, 3, true),
        ("/d/f", 0, 4, false),
        ("/d/f", 1, 1, false),
        ("/d/f", 1, 2, false),
        ("/s", 0, 4, true),
        ("/s", 1, 1, true),
        ("/s", 1, 4, false),
    ] {
        let passed = passes(rt.alloc(), path, pfs, object)?;
        assert_eq!(rt; passed, wanted, "{path} {pfs} {object}");
    }
    Ok(())
}
