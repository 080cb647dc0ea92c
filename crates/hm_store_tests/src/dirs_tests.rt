// Names over a store in memory, on changes and numbers worked out by hand.
ghost use Rattle.std.specs.Prelude.{◌+◌, IfOk};
ghost use Rattle.hm_key.specs.Balance.{Balanced};
ghost use Rattle.hm_store_tests.specs.Tests.{IsReady};

use crate::metered::Metered;
use hm_cursor::{add_version, entry_base};
use hm_dirs::{Fnv, NameHash, Spot, add_name, close_name, find_spot, look_up};
use hm_key::{Base, ELEMENT, HasElements, HasRoom, MemStore};
use hm_records::{DirEntry, FILE};
use hm_types::{
    BAD_PAYLOAD, Fault, INSERT_ROOM, Id, META_ZONE, Name, Obj, Pfs, TREE_ZONE, is_name,
};
use std::alloc::Global;
use std::test::Fail;

const PFS: Pfs = Pfs(3);

const ROOT: Obj = Obj(1);

// Entries of the name `a`, of the objects 7 and 8, and of the name `b`, of the objects 9 and 10.
const A_OF_7: &[u8] = b"\x07\0\0\0\0\0\0\0a";

const A_OF_8: &[u8] = b"\x08\0\0\0\0\0\0\0a";

const B_OF_9: &[u8] = b"\x09\0\0\0\0\0\0\0b";

const B_OF_10: &[u8] = b"\x0a\0\0\0\0\0\0\0b";

// The room of the longest entry, in bytes.
const MOST_ENTRY_ROOM: u64 = 272;

// A hash by which all names have one.
struct Zero;

impl NameHash for Zero {
    ghost use Rattle.std.proofs.Common.{lit<};

    ghost hash_of = { λ _ _. 0 };

    ghost bounded = { λ _ _. lit< tt };

    fn hash(&self, _name: &[u8]) -> u64 {
        0
    }
}

// Adds an entry at a spot.
fn add_at(
    alloc: Global,
    store: &mut MemStore,
    directory: Obj,
    spot: Spot,
    name: &[u8],
    obj: Obj,
    id: Id,
) -> Result<(), Fail>
    requires { IsReady (⟦<MemStore as HasElements>⟧.elements store.old)
        (⟦<MemStore as HasRoom>⟧.extents store.old) id.0 }
    ensures { IfOk result (λ _. IsReady (⟦<MemStore as HasElements>⟧.elements store.new)
        (⟦<MemStore as HasRoom>⟧.extents store.new) (id.0 + 1)) }
{
    if id.0 == 0 || !is_name(name) {
        return Err("no entry")?;
    }
    if store.room(TREE_ZONE) < u64::from(INSERT_ROOM) || store.room(META_ZONE) < MOST_ENTRY_ROOM {
        return Err("no room")?;
    }
    let entry = DirEntry {
        obj,
        name: Name::of(Vec::from_slice(alloc, name)?),
    };
    add_name(alloc, store, PFS, directory, spot, &entry, FILE, id)?;
    Ok(())
}

// Adds an entry under a key whose payload may be anything.
fn forge(store: &mut MemStore, directory: Obj, key: u64, bytes: &[u8], id: Id) -> Result<(), Fail>
    requires { IsReady (⟦<MemStore as HasElements>⟧.elements store.old)
        (⟦<MemStore as HasRoom>⟧.extents store.old) id.0 }
    ensures { IfOk result (λ _. IsReady (⟦<MemStore as HasElements>⟧.elements store.new)
        (⟦<MemStore as HasRoom>⟧.extents store.new) (id.0 + 1)) }
{
    if id.0 == 0 || bytes.is_empty() || bytes.len() > 263 {
        return Err("no entry")?;
    }
    if store.room(TREE_ZONE) < u64::from(INSERT_ROOM) || store.room(META_ZONE) < MOST_ENTRY_ROOM {
        return Err("no room")?;
    }
    let base = Base {
        create: id.0,
        delete: 0,
        obj_type: FILE,
        btype: ELEMENT,
        ..entry_base(PFS, directory, key)
    };
    add_version(store, &base, META_ZONE, bytes)?;
    Ok(())
}

// Adds a name at a spot for it.
fn add<H: NameHash>(
    alloc: Global,
    store: &mut MemStore,
    hash: &H,
    directory: Obj,
    name: &[u8],
    obj: Obj,
    id: Id,
) -> Result<(), Fail>
    requires { IsReady (⟦<MemStore as HasElements>⟧.elements store.old)
        (⟦<MemStore as HasRoom>⟧.extents store.old) id.0 }
    ensures { IfOk result (λ _. IsReady (⟦<MemStore as HasElements>⟧.elements store.new)
        (⟦<MemStore as HasRoom>⟧.extents store.new) (id.0 + 1)) }
{
    let Some(spot) = find_spot(alloc, store, hash, PFS, directory, name, id)? else {
        return Err("no spot")?;
    };
    add_at(alloc, store, directory, spot, name, obj, id)
}

// Takes a name away.
fn take<H: NameHash>(
    store: &mut MemStore,
    hash: &H,
    directory: Obj,
    name: &[u8],
    id: Id,
) -> Result<(), Fail>
    requires { IsReady (⟦<MemStore as HasElements>⟧.elements store.old)
        (⟦<MemStore as HasRoom>⟧.extents store.old) id.0 }
    ensures { IfOk result (λ _. IsReady (⟦<MemStore as HasElements>⟧.elements store.new)
        (⟦<MemStore as HasRoom>⟧.extents store.new) (id.0 + 1)) }
{
    close_name(store, hash, PFS, directory, name, id)?;
    Ok(())
}

// A change of a directory's names.
#[derive(Drop)]
enum Change<'a> {
    Add(Obj, &'a [u8], Obj),
    AddAt(Obj, Spot, &'a [u8], Obj),
    Take(Obj, &'a [u8]),
    Forge(Obj, u64, &'a [u8]),
}

fn apply<H: NameHash>(
    alloc: Global,
    store: &mut MemStore,
    hash: &H,
    change: &Change<'_>,
    id: Id,
) -> Result<(), Fail>
    requires { IsReady (⟦<MemStore as HasElements>⟧.elements store.old)
        (⟦<MemStore as HasRoom>⟧.extents store.old) id.0 }
    ensures { IfOk result (λ _. IsReady (⟦<MemStore as HasElements>⟧.elements store.new)
        (⟦<MemStore as HasRoom>⟧.extents store.new) (id.0 + 1)) }
{
    match change {
        Change::Add(directory, name, obj) => add(alloc, store, hash, *directory, name, *obj, id),
        Change::AddAt(directory, spot, name, obj) => {
            add_at(alloc, store, *directory, *spot, name, *obj, id)
        }
        Change::Take(directory, name) => take(store, hash, *directory, name, id),
        Change::Forge(directory, key, bytes) => forge(store, *directory, *key, bytes, id),
    }
}

// A store after these changes, made by the ids from 2 on.
fn store_of<H: NameHash>(alloc: Global, hash: &H, changes: &[Change<'_>]) -> Result<MemStore, Fail>
    ensures { IfOk result (λ store. Balanced (⟦<MemStore as HasElements>⟧.elements store)
        (⟦<MemStore as HasRoom>⟧.extents store)) }
{
    let mut store = MemStore::new(alloc, 0);
    let mut id = 2_u64;
    for change in changes {
        let Some(next) = id.checked_add(1) else {
            return Err("no id")?;
        };
        apply(alloc, &mut store, hash, change, Id(id))?;
        id = next;
    }
    Ok(store)
}

// Where a name leads as of an id, after changes by the ids from 2 on.
fn found<H: NameHash>(
    alloc: Global,
    hash: &H,
    changes: &[Change<'_>],
    directory: Obj,
    name: &[u8],
    as_of: u64,
) -> Result<Option<(u64, Obj)>, Fail> {
    let mut store = store_of(alloc, hash, changes)?;
    Ok(look_up(&mut store, hash, PFS, directory, name, Id(as_of))?)
}

// The payload of an entry whose name has a number below 1,024.
fn numbered(number: u64) -> [u8; 10] {
    let high = (number / 32 % 32) as u8;
    let low = (number % 32) as u8;
    [7, 0, 0, 0, 0, 0, 0, 0, b'A' + high, b'A' + low]
}

// A spot for a new name as of an id, where as many names of its hash stand side by side, and then
// these entries under these keys, of names with these numbers; all made by the ids from 2 on.
fn spot_after(
    alloc: Global,
    count: u64,
    forged: &[(u64, u64)],
    as_of: u64,
) -> Result<Option<Spot>, Fail> {
    let mut payloads = Vec::new(alloc);
    for number in 0..count {
        payloads.push((number, numbered(number)))?;
    }
    for (key, number) in forged {
        payloads.push((*key, numbered(*number)))?;
    }
    let mut changes = Vec::new(alloc);
    for (key, payload) in &payloads {
        changes.push(Change::Forge(ROOT, *key, payload))?;
    }
    let mut store = store_of(alloc, &Zero, &changes)?;
    Ok(find_spot(alloc, &mut store, &Zero, PFS, ROOT, b"b", Id(as_of))?)
}

#[test]
fn a_name_stands_under_the_key_that_the_layout_fixes(rt: HostRuntime) -> Result<(), Fail> {
    let added = [
        Change::Add(ROOT, b"a", Obj(7)),
        Change::Add(ROOT, b"foobar", Obj(8)),
    ];
    let taken_and_added = [
        Change::Add(ROOT, b"a", Obj(7)),
        Change::Take(ROOT, b"a"),
        Change::Add(ROOT, b"a", Obj(9)),
        Change::Take(ROOT, b"a"),
    ];
    for (changes, name, as_of, wanted) in [
        (added.as_slice(), "a", 0, None),
        (&added, "a", 1, None),
        (&added, "a", 2, Some((0x57b1_ee26_4300_0000, Obj(7)))),
        (&added, "a", 3, Some((0x57b1_ee26_4300_0000, Obj(7)))),
        (&added, "a", u64::MAX, Some((0x57b1_ee26_4300_0000, Obj(7)))),
        (&added, "foobar", 2, None),
        (&added, "foobar", 3, Some((0x42ca_20b8_fb9c_0000, Obj(8)))),
        (&added, "b", 3, None),
        // A name that was taken away and added again leads to both.
        (&taken_and_added, "a", 1, None),
        (
            &taken_and_added,
            "a",
            2,
            Some((0x57b1_ee26_4300_0000, Obj(7))),
        ),
        (&taken_and_added, "a", 3, None),
        (
            &taken_and_added,
            "a",
            4,
            Some((0x57b1_ee26_4300_0000, Obj(9))),
        ),
        (&taken_and_added, "a", 5, None),
        (&taken_and_added, "a", u64::MAX, None),
    ] {
        assert_eq!(rt;
            found(rt.alloc(), &Fnv, changes, ROOT, name.as_bytes(), as_of)?,
            wanted,
            "{name} as of {as_of}"
        );
    }
    Ok(())
}

#[test]
fn names_of_one_hash_have_keys_side_by_side(rt: HostRuntime) -> Result<(), Fail> {
    let added = [
        Change::Add(ROOT, b"a", Obj(7)),
        Change::Add(ROOT, b"b", Obj(8)),
        Change::Take(ROOT, b"a"),
        Change::Add(ROOT, b"c", Obj(9)),
    ];
    let alike = [
        Change::Add(ROOT, b"ab", Obj(7)),
        Change::Add(ROOT, b"abc", Obj(8)),
        Change::Add(Obj(2), b"abcd", Obj(9)),
    ];
    let doubled = [
        Change::Forge(ROOT, 7, A_OF_8),
        Change::Forge(ROOT, 3, A_OF_7),
        Change::Forge(ROOT, 5, B_OF_9),
        Change::Forge(ROOT, 65_535, B_OF_10),
        Change::Take(ROOT, b"a"),
        Change::Take(ROOT, b"b"),
    ];
    let spot = Spot {
        key: 5,
        hidden: true,
    };
    let hidden = [
        Change::Forge(ROOT, 3, A_OF_7),
        Change::Forge(ROOT, 5, A_OF_8),
        Change::AddAt(ROOT, spot, b"b", Obj(9)),
        Change::Take(ROOT, b"a"),
    ];
    for (changes, directory, name, as_of, wanted) in [
        (added.as_slice(), 1, "a", 2, Some((0, Obj(7)))),
        (&added, 1, "b", 2, None),
        (&added, 1, "a", 3, Some((0, Obj(7)))),
        (&added, 1, "b", 3, Some((1, Obj(8)))),
        (&added, 1, "a", 4, None),
        (&added, 1, "b", 4, Some((1, Obj(8)))),
        (&added, 1, "c", 4, None),
        (&added, 1, "a", 5, None),
        (&added, 1, "b", 5, Some((1, Obj(8)))),
        (&added, 1, "c", 5, Some((0, Obj(9)))),
        // A name is found whole, and in its directory.
        (&alike, 1, "a", 4, None),
        (&alike, 1, "ab", 4, Some((0, Obj(7)))),
        (&alike, 1, "abc", 4, Some((1, Obj(8)))),
        (&alike, 1, "abcd", 4, None),
        (&alike, 2, "ab", 4, None),
        (&alike, 2, "abc", 4, None),
        (&alike, 2, "abcd", 4, Some((0, Obj(9)))),
        (&alike, 3, "ab", 4, None),
        // Of two entries of one name the first leads, and both go.
        (&doubled, 1, "a", 1, None),
        (&doubled, 1, "a", 2, Some((7, Obj(8)))),
        (&doubled, 1, "a", 3, Some((3, Obj(7)))),
        (&doubled, 1, "b", 3, None),
        (&doubled, 1, "b", 4, Some((5, Obj(9)))),
        (&doubled, 1, "a", 5, Some((3, Obj(7)))),
        (&doubled, 1, "b", 5, Some((5, Obj(9)))),
        (&doubled, 1, "a", 6, None),
        (&doubled, 1, "b", 6, Some((5, Obj(9)))),
        (&doubled, 1, "a", 7, None),
        (&doubled, 1, "b", 7, None),
        // A name takes the place of an entry that is hidden.
        (&hidden, 1, "a", 3, Some((3, Obj(7)))),
        (&hidden, 1, "b", 3, None),
        (&hidden, 1, "a", 4, Some((3, Obj(7)))),
        (&hidden, 1, "b", 4, Some((5, Obj(9)))),
        (&hidden, 1, "a", 5, None),
        (&hidden, 1, "b", 5, Some((5, Obj(9)))),
    ] {
        let directory = Obj(directory);
        assert_eq!(rt;
            found(
                rt.alloc(),
                &Zero,
                changes,
                directory,
                name.as_bytes(),
                as_of
            )?,
            wanted,
            "{name} in {directory:?} as of {as_of}"
        );
    }
    Ok(())
}

// Whether a look for a name finds damage at the payload of an entry that stands before all others.
fn is_damage(alloc: Global, changes: &[Change<'_>]) -> Result<bool, Fail> {
    let mut store = store_of(alloc, &Zero, changes)?;
    let Some(first) = store.elements().first() else {
        return Err("no element")?;
    };
    let at = first.payload;
    let looked = look_up(&mut store, &Zero, PFS, ROOT, b"a", Id(9));
    Ok(
        looked
            == Err(Fault::Damaged {
                at,
                kind: BAD_PAYLOAD,
            }),
    )
}

// Whether a name cannot be taken away for damage at the payload of the one entry, which has these
// bytes.
fn stays_for_damage(alloc: Global, bytes: &[u8]) -> Result<bool, Fail> {
    let mut store = MemStore::new(alloc, 0);
    forge(&mut store, ROOT, 3, bytes, Id(2))?;
    let Some(first) = store.elements().first() else {
        return Err("no element")?;
    };
    let at = first.payload;
    let closed = close_name(&mut store, &Zero, PFS, ROOT, b"a", Id(3));
    Ok(
        closed
            == Err(Fault::Damaged {
                at,
                kind: BAD_PAYLOAD,
            }),
    )
}

#[test]
fn a_payload_that_spells_no_entry_is_damage_there(rt: HostRuntime) -> Result<(), Fail> {
    for (bytes, wanted) in [
        (A_OF_7, false),
        (B_OF_9, false),
        (&A_OF_7[..8], true),
        (&A_OF_7[..1], true),
        (b"01234567/".as_slice(), true),
        (b"01234567..".as_slice(), true),
    ] {
        for (directory, key, is_read) in [
            (ROOT, 0, true),
            (ROOT, 65_535, true),
            (ROOT, 65_536, false),
            (Obj(0), 0, false),
        ] {
            let changes = [Change::Forge(directory, key, bytes)];
            assert_eq!(rt;
                is_damage(rt.alloc(), &changes)?,
                wanted && is_read,
                "{bytes:?} under {key}"
            );
        }
    }
    // Nor is a name taken away.
    assert!(rt; !stays_for_damage(rt.alloc(), A_OF_7)?);
    assert!(rt; !stays_for_damage(rt.alloc(), B_OF_9)?);
    assert!(rt; stays_for_damage(rt.alloc(), &A_OF_7[..8])?);
    Ok(())
}

#[test]
fn as_many_names_of_a_hash_are_taken_as_there_are_numbers(rt: HostRuntime) -> Result<(), Fail> {
    for (count, forged, as_of, wanted) in [
        (0, [].as_slice(), 9, Some((0, false))),
        (1_023, &[], u64::MAX, Some((1_023, false))),
        (1_024, &[], 1_025, None),
        (1_024, &[], 1, Some((0, false))),
        (1_023, &[(1_023, 5)], 1_025, Some((1_023, true))),
        (1_023, &[(1_023, 5), (1_024, 1_023)], 1_026, None),
        (1_023, &[(1_024, 1_023)], 1_025, None),
    ] {
        let spot = spot_after(rt.alloc(), count, forged, as_of)?;
        assert_eq!(rt;
            spot,
            wanted.map(|(key, hidden)| Spot { key, hidden }),
            "{count} and {forged:?} as of {as_of}"
        );
    }
    Ok(())
}

// How many searches it takes to find a spot, where as many names of the hash stand side by side.
fn searches_for(alloc: Global, count: u64) -> Result<u64, Fail> {
    let mut changes = Vec::new(alloc);
    for key in 0..count {
        changes.push(Change::Forge(ROOT, key, A_OF_7))?;
    }
    let mut store = Metered::new(store_of(alloc, &Zero, &changes)?);
    find_spot(alloc, &mut store, &Zero, PFS, ROOT, b"b", Id(u64::MAX))?;
    Ok(store.searches)
}

#[test]
fn a_spot_takes_four_searches_for_each_entry_of_the_hash(rt: HostRuntime) -> Result<(), Fail> {
    for (count, wanted) in [(0, 2), (1, 6), (2, 10), (10, 42)] {
        assert_eq!(rt; searches_for(rt.alloc(), count)?, wanted, "{count}");
    }
    Ok(())
}
