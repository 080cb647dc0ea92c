// What counts and what is shown over a store in memory, on tables worked out by hand.
use crate::metered::Metered;
use hm_cursor::{Cursor, first_version, inode_base, last_version, target_base, version_at};
use hm_key::{
    Base, DIRECTORY_ENTRY, ELEMENT, Element, ElementStore, MemStore, OTHER_PART, is_element,
};
use hm_types::{HOff, INSERT_ROOM, Id, Obj, Pfs, TREE_ZONE};
use std::alloc::Global;
use std::test::Fail;

// The localization of what is no inode in PFS 1.
const OTHERS_OF_PFS_1: u32 = 0x0001_0002;

// A directory's entry, made and closed by these ids.
fn entry(localization: u32, obj: u64, key: u64, create: u64, delete: u64) -> Element {
    Element {
        base: Base {
            obj: Obj(obj),
            key,
            create,
            delete,
            rec_type: DIRECTORY_ENTRY,
            obj_type: 2,
            btype: ELEMENT,
            localization,
        },
        payload: HOff::default(),
        len: 16,
    }
}

// Inserts an element, where the store has none at its key and room for one.
fn put(store: &mut MemStore, element: &Element) -> Result<(), Fail> {
    if !is_element(element) || store.has(&element.base) {
        return Err("no new element")?;
    }
    if store.room(TREE_ZONE) < u64::from(INSERT_ROOM) {
        return Err("no room")?;
    }
    Ok(store.insert(element)?)
}

// Takes an element out.
fn take(store: &mut MemStore, at: &Base) -> Result<(), Fail> {
    if !store.has(at) {
        return Err("nothing to take")?;
    }
    Ok(store.remove(at)?)
}

// A store with these elements.
fn store_of(alloc: Global, elements: &[Element]) -> Result<MemStore, Fail> {
    let mut store = MemStore::new(alloc, 0);
    for element in elements {
        put(&mut store, element)?;
    }
    Ok(store)
}

// A store with versions of object 2's entry with key 20, made and closed by these ids, and with an
// entry before it and one after it.
fn versions_of(alloc: Global, versions: &[(u64, u64)]) -> Result<MemStore, Fail> {
    let mut store = MemStore::new(alloc, 0);
    put(&mut store, &entry(OTHER_PART, 2, 19, 3, 0))?;
    put(&mut store, &entry(OTHER_PART, 2, 21, 3, 0))?;
    for (create, delete) in versions {
        put(&mut store, &entry(OTHER_PART, 2, 20, *create, *delete))?;
    }
    Ok(store)
}

// The id that made an element, and 0 for none.
fn made_by(found: Option<Element>) -> u64 {
    match found {
        Some(element) => element.base.create,
        None => 0,
    }
}

// The ids that made the elements which a cursor still shows, at most ten of them.
fn shown(alloc: Global, cursor: &mut Cursor, store: &mut MemStore) -> Result<Vec<u64>, Fail> {
    let mut ids = Vec::new(alloc);
    for _ in 0..10 {
        let Some(element) = cursor.next(store)? else {
            return Ok(ids);
        };
        ids.push(element.base.create)?;
    }
    Ok(ids)
}

// Three entries in PFS 0, of which one has two versions, and two in PFS 1.
fn two_localizations(alloc: Global) -> Result<MemStore, Fail> {
    store_of(
        alloc,
        &[
            entry(OTHER_PART, 1, 10, 5, 0),
            entry(OTHER_PART, 1, 20, 6, 8),
            entry(OTHER_PART, 1, 20, 8, 0),
            entry(OTHER_PART, 3, 10, 9, 0),
            entry(OTHERS_OF_PFS_1, 1, 10, 4, 7),
            entry(OTHERS_OF_PFS_1, 2, 10, 7, 0),
        ],
    )
}

#[test]
fn the_newest_version_made_by_then_decides(rt: HostRuntime) -> Result<(), Fail> {
    for (versions, wanted) in [
        ([].as_slice(), [0, 0, 0, 0, 0, 0, 0, 0]),
        ([(5, 0)].as_slice(), [0, 5, 5, 5, 5, 5, 5, 5]),
        ([(5, 8)].as_slice(), [0, 5, 5, 5, 0, 0, 0, 0]),
        (
            [(5, 7), (7, 9), (9, 0)].as_slice(),
            [0, 5, 5, 7, 7, 9, 9, 9],
        ),
        ([(5, 6), (9, 0)].as_slice(), [0, 5, 0, 0, 0, 9, 9, 9]),
        ([(5, 0), (8, 0)].as_slice(), [0, 5, 5, 5, 8, 8, 8, 8]),
        // where the newest is closed nothing counts, though an older one is open, or closed later
        ([(5, 0), (7, 9)].as_slice(), [0, 5, 5, 7, 7, 0, 0, 0]),
        ([(5, 11), (7, 9)].as_slice(), [0, 5, 5, 7, 7, 0, 0, 0]),
        (
            [(5, 0), (6, 0), (8, 9), (9, 10)].as_slice(),
            [0, 5, 6, 6, 8, 9, 0, 0],
        ),
    ] {
        let mut store = versions_of(rt.alloc(), versions)?;
        let at = entry(OTHER_PART, 2, 20, 77, 0).base;
        let mut as_of = 4;
        for create in wanted {
            let found = version_at(&mut store, &at, Id(as_of))?;
            assert_eq!(rt; made_by(found), create, "{versions:?} as of {as_of}");
            as_of = as_of.saturating_add(1);
        }
    }
    Ok(())
}

#[test]
fn a_cursor_shows_what_is_seen_once_and_in_order(rt: HostRuntime) -> Result<(), Fail> {
    let mut store = two_localizations(rt.alloc())?;
    for (localization, as_of, wanted) in [
        (OTHER_PART, 4, [].as_slice()),
        (OTHER_PART, 5, [5].as_slice()),
        (OTHER_PART, 7, [5, 6].as_slice()),
        (OTHER_PART, 9, [5, 8, 9].as_slice()),
        (OTHERS_OF_PFS_1, 4, [4].as_slice()),
        (OTHERS_OF_PFS_1, 7, [7].as_slice()),
        (1, 9, [].as_slice()),
    ] {
        let mut cursor = Cursor::new(localization, Id(as_of));
        let ids = shown(rt.alloc(), &mut cursor, &mut store)?;
        assert_eq!(rt; ids.as_slice(), wanted, "{localization} as of {as_of}");
    }
    Ok(())
}

#[test]
fn a_cursor_goes_on_where_the_store_has_changed(rt: HostRuntime) -> Result<(), Fail> {
    let gone = entry(OTHER_PART, 2, 20, 6, 0);
    let mut store = store_of(
        rt.alloc(),
        &[
            entry(OTHER_PART, 2, 10, 5, 0),
            gone,
            entry(OTHER_PART, 2, 30, 7, 0),
        ],
    )?;
    let mut cursor = Cursor::new(OTHER_PART, Id(9));
    assert_eq!(rt; made_by(cursor.next(&mut store)?), 5);
    take(&mut store, &gone.base)?;
    put(&mut store, &entry(OTHER_PART, 2, 5, 4, 0))?;
    assert_eq!(rt; made_by(cursor.next(&mut store)?), 7);
    put(&mut store, &entry(OTHER_PART, 2, 30, 8, 0))?;
    assert_eq!(rt; made_by(cursor.next(&mut store)?), 8);
    assert_eq!(rt; cursor.next(&mut store)?, None);
    put(&mut store, &entry(OTHER_PART, 2, 40, 9, 0))?;
    assert_eq!(rt; made_by(cursor.next(&mut store)?), 9);
    assert_eq!(rt; cursor.next(&mut store)?, None);
    Ok(())
}

#[test]
fn a_cursor_goes_on_from_the_key_that_it_is_set_to(rt: HostRuntime) -> Result<(), Fail> {
    let mut store = two_localizations(rt.alloc())?;
    let mut cursor = Cursor::new(OTHER_PART, Id(9));
    for (at, wanted) in [
        (entry(1, 7, 7, 7, 0), [5, 8, 9].as_slice()),
        (entry(OTHER_PART, 1, 10, 6, 0), [8, 9].as_slice()),
        (entry(OTHER_PART, 1, 20, 8, 0), [8, 9].as_slice()),
        (entry(OTHER_PART, 3, 10, 9, 0), [9].as_slice()),
        (entry(OTHER_PART, 3, 10, 10, 0), [].as_slice()),
        (entry(OTHERS_OF_PFS_1, 0, 0, 0, 0), [].as_slice()),
        (entry(0, 0, 0, 0, 0), [5, 8, 9].as_slice()),
    ] {
        cursor.seek(&mut store, &at.base)?;
        let ids = shown(rt.alloc(), &mut cursor, &mut store)?;
        assert_eq!(rt; ids.as_slice(), wanted, "{at:?}");
    }
    Ok(())
}

// Object 2's entries with three keys, of which the second one has two versions, and another
// object's.
fn three_keys(alloc: Global) -> Result<MemStore, Fail> {
    store_of(
        alloc,
        &[
            entry(OTHER_PART, 2, 10, 5, 7),
            entry(OTHER_PART, 2, 20, 4, 6),
            entry(OTHER_PART, 2, 20, 6, 0),
            entry(OTHER_PART, 2, u64::MAX, 3, 9),
            entry(OTHER_PART, 3, 15, 2, 0),
        ],
    )
}

#[test]
fn the_first_version_of_a_span_is_that_of_its_first_key_that_counts(
    rt: HostRuntime,
) -> Result<(), Fail> {
    let mut store = three_keys(rt.alloc())?;
    for (key, last, as_of, wanted) in [
        (10, 20, 6, 5),
        (10, 20, 7, 6),
        (10, 19, 7, 0),
        (10, 10, 7, 0),
        (10, 10, 6, 5),
        (11, 20, 5, 4),
        (20, 20, 8, 6),
        (20, 19, 8, 0),
        (21, u64::MAX, 8, 3),
        (21, u64::MAX, 9, 0),
        (0, u64::MAX, 2, 0),
        (0, u64::MAX, 3, 3),
        (0, u64::MAX, 9, 6),
    ] {
        let at = entry(OTHER_PART, 2, key, 99, 0).base;
        let found = first_version(&mut store, &at, last, Id(as_of))?;
        assert_eq!(rt; made_by(found), wanted, "{key} to {last} as of {as_of}");
    }
    Ok(())
}

// The searches are one for each key that is looked at, and one more where a version is newer.
#[test]
fn the_last_version_of_a_span_is_that_of_its_last_key_that_counts(
    rt: HostRuntime,
) -> Result<(), Fail> {
    let mut inner = three_keys(rt.alloc())?;
    for (first, key, as_of, wanted, searches) in [
        (10, 20, 6, 6, 1),
        (10, 19, 6, 5, 1),
        (10, 19, 7, 0, 1),
        (9, 19, 7, 0, 2),
        (10, 20, 5, 4, 1),
        (10, 21, 5, 4, 2),
        (10, 21, 3, 0, 4),
        (20, 20, 8, 6, 1),
        (20, 19, 8, 0, 0),
        (21, u64::MAX, 8, 3, 1),
        (21, u64::MAX, 9, 0, 2),
        (u64::MAX, u64::MAX, 9, 0, 1),
        (0, u64::MAX, 2, 0, 5),
        (0, u64::MAX, 3, 3, 1),
        (0, u64::MAX, 9, 6, 2),
        (0, 9, 9, 0, 1),
    ] {
        let mut store = Metered::new(&mut inner);
        let at = entry(OTHER_PART, 2, key, 99, 0).base;
        let found = last_version(&mut store, &at, first, Id(as_of))?;
        assert_eq!(rt; made_by(found), wanted, "{first} to {key} as of {as_of}");
        assert_eq!(rt; store.searches, searches, "{first} to {key} as of {as_of}");
    }
    Ok(())
}

#[test]
fn a_version_takes_one_search_of_one_and_of_a_thousand(rt: HostRuntime) -> Result<(), Fail> {
    let at = entry(OTHER_PART, 2, 20, 0, 0).base;
    let mut one = Metered::new(versions_of(rt.alloc(), &[(5, 0)])?);
    assert_eq!(rt; made_by(version_at(&mut one, &at, Id(1_000_000))?), 5);
    assert_eq!(rt; one.searches, 1);
    let mut inner = MemStore::new(rt.alloc(), 0);
    let mut id: u64 = 10;
    for _ in 0..1_000 {
        let next = id.saturating_add(10);
        put(&mut inner, &entry(OTHER_PART, 2, 20, id, next))?;
        id = next;
    }
    for (as_of, wanted) in [
        (10, 10),
        (25, 20),
        (5_009, 5_000),
        (9_999, 9_990),
        (10_000, 10_000),
    ] {
        let mut store = Metered::new(&mut inner);
        assert_eq!(rt; made_by(version_at(&mut store, &at, Id(as_of))?), wanted);
        assert_eq!(rt; store.searches, 1, "{as_of}");
    }
    Ok(())
}

// A store with a subject that came and went so many times, each time for one id, from id 10 on.
fn came_and_went(alloc: Global, about: &Base, times: u64) -> Result<MemStore, Fail> {
    let mut store = MemStore::new(alloc, 0);
    let mut id: u64 = 10;
    for _ in 0..times {
        let base = Base {
            create: id,
            delete: id.saturating_add(1),
            ..*about
        };
        let element = Element {
            base,
            payload: HOff::default(),
            len: 32,
        };
        put(&mut store, &element)?;
        id = id.saturating_add(2);
    }
    Ok(store)
}

#[test]
fn what_came_and_went_2000_times_takes_one_search(rt: HostRuntime) -> Result<(), Fail> {
    for about in [
        entry(OTHER_PART, 2, 20, 0, 0).base,
        inode_base(Pfs(0), Obj(2)),
        target_base(Pfs(0), Obj(2)),
    ] {
        let mut inner = came_and_went(rt.alloc(), &about, 2_000)?;
        for (as_of, wanted) in [
            (9, 0),
            (10, 10),
            (11, 0),
            (2_010, 2_010),
            (2_011, 0),
            (9_999, 0),
        ] {
            let mut store = Metered::new(&mut inner);
            assert_eq!(rt; made_by(version_at(&mut store, &about, Id(as_of))?), wanted);
            assert_eq!(rt; store.searches, 1, "{as_of}");
        }
    }
    Ok(())
}
