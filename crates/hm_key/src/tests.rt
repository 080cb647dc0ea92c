// A store in memory, on tables worked out by hand.
use crate::base::Base;
use crate::callers::insert_and_find;
use crate::element::{Element, is_element};
use crate::extents::Extents;
use crate::memory::MemStore;
use crate::rec_type::{DIRECTORY_ENTRY, OTHER_PART};
use crate::store::ElementStore;
use bitflags::Flags;
use hm_types::{
    HOff, INSERT_ROOM, Id, LARGE_ZONE, META_ZONE, Obj, SMALL_ZONE, SpaceFault, TREE_ZONE, Zones,
};
use std::alloc::Global;
use std::cmp::Ordering;
use std::test::Fail;

// A directory's entry in PFS 0.
fn entry(obj: u64, key: u64, create: u64) -> Element {
    Element {
        base: Base {
            obj: Obj(obj),
            key,
            create,
            delete: 0,
            rec_type: DIRECTORY_ENTRY,
            obj_type: 1,
            btype: 1,
            localization: OTHER_PART,
        },
        payload: HOff::default(),
        len: 16,
    }
}

// Inserts an element, where the store has none at its key and room for one.
fn put(store: &mut MemStore, element: &Element) -> Result<(), Fail> {
    if !is_element(element) || store.has(&element.base) {
        return Err("no new element")?;
    }
    if store.room(TREE_ZONE) < u64::from(INSERT_ROOM) {
        return Err("no room")?;
    }
    Ok(store.insert(element)?)
}

// Closes an element, or opens it.
fn close(store: &mut MemStore, at: &Base, delete: u64) -> Result<(), Fail> {
    if !store.has(at) || (delete != 0 && delete <= at.create) {
        return Err("nothing to close")?;
    }
    Ok(store.set_delete(at, delete)?)
}

// Takes an element out.
fn take(store: &mut MemStore, at: &Base) -> Result<(), Fail> {
    if !store.has(at) {
        return Err("nothing to take")?;
    }
    Ok(store.remove(at)?)
}

// A store with entries of object 2, made at the ids 5 and on, at these keys.
fn store_of(alloc: Global, free: u32, keys: &[u64]) -> Result<MemStore, Fail> {
    let mut store = MemStore::new(alloc, free);
    let mut id = 5;
    for key in keys {
        put(&mut store, &entry(2, *key, id))?;
        id = id.saturating_add(1);
    }
    Ok(store)
}

// How far from a key on nothing was written after an id.
fn unchanged(store: &mut MemStore, at: &Base, since: u64) -> Result<Option<Base>, Fail> {
    match at.order(&Base::greatest()) {
        Ordering::Less => Ok(store.unchanged_until(at, Id(since))?),
        _ => Err("the end of all")?,
    }
}

#[test]
fn keeps_elements_in_the_order_of_their_keys(rt: HostRuntime) -> Result<(), Fail> {
    let store = store_of(rt.alloc(), 0, &[30, 10, 20, 40])?;
    let wanted = [
        entry(2, 10, 6),
        entry(2, 20, 7),
        entry(2, 30, 5),
        entry(2, 40, 8),
    ];
    assert_eq!(rt; store.elements(), wanted.as_slice());
    Ok(())
}

#[test]
fn finds_the_first_element_from_a_key_on_and_the_last_up_to_it(
    rt: HostRuntime,
) -> Result<(), Fail> {
    let mut store = store_of(rt.alloc(), 0, &[10, 20, 30])?;
    let (ten, twenty, thirty) = (entry(2, 10, 5), entry(2, 20, 6), entry(2, 30, 7));
    for (at, first, last) in [
        (Base::least(), Some(ten), None),
        (entry(2, 10, 4).base, Some(ten), None),
        (ten.base, Some(ten), Some(ten)),
        (entry(2, 10, 6).base, Some(twenty), Some(ten)),
        (twenty.base, Some(twenty), Some(twenty)),
        (entry(2, 21, 0).base, Some(thirty), Some(twenty)),
        (thirty.base, Some(thirty), Some(thirty)),
        (entry(2, 30, 8).base, None, Some(thirty)),
        (entry(3, 0, 0).base, None, Some(thirty)),
        (Base::greatest(), None, Some(thirty)),
    ] {
        assert_eq!(rt; store.first_at_or_after(&at)?, first, "{at:?}");
        assert_eq!(rt; store.last_at_or_before(&at)?, last, "{at:?}");
    }
    Ok(())
}

#[test]
fn closes_moves_and_removes_the_element_at_a_key(rt: HostRuntime) -> Result<(), Fail> {
    let mut store = store_of(rt.alloc(), 0, &[10, 20])?;
    let mut first = entry(2, 10, 5);
    close(&mut store, &first.base, 9)?;
    first.base.delete = 9;
    assert_eq!(rt; store.elements(), [first, entry(2, 20, 6)].as_slice());

    close(&mut store, &first.base, 0)?;
    assert_eq!(rt;
        store.elements(),
        [entry(2, 10, 5), entry(2, 20, 6)].as_slice()
    );

    let place = HOff::make(META_ZONE, 4096).ok_or("no offset")?;
    assert!(rt; store.has(&first.base));
    store.readdress(&first.base, place)?;
    first.base.delete = 0;
    first.payload = place;
    assert_eq!(rt; store.elements(), [first, entry(2, 20, 6)].as_slice());

    take(&mut store, &first.base)?;
    assert_eq!(rt; store.elements(), [entry(2, 20, 6)].as_slice());
    Ok(())
}

#[test]
fn keeps_the_marks_of_what_was_written(rt: HostRuntime) -> Result<(), Fail> {
    let mut store = store_of(rt.alloc(), 0, &[10, 20, 30])?;
    close(&mut store, &entry(2, 20, 6).base, 15)?;
    take(&mut store, &entry(2, 20, 6).base)?;
    let twenty = entry(2, 20, 6).base.boundary();
    let thirty = entry(2, 30, 7).base.boundary();
    for (at, since, wanted) in [
        (Base::least(), 20, Some(Base::greatest())),
        (Base::least(), 15, Some(Base::greatest())),
        (Base::least(), 14, Some(twenty)),
        (Base::least(), 4, Some(entry(2, 10, 5).base.boundary())),
        (entry(2, 10, 5).base, 4, None),
        (entry(2, 10, 5).base, 5, Some(twenty)),
        (entry(2, 20, 6).base, 14, None),
        (entry(2, 20, 6).base, 15, Some(Base::greatest())),
        (entry(2, 21, 0).base, 6, Some(thirty)),
        (entry(2, 30, 7).base, 6, None),
        (entry(2, 30, 7).base, 7, Some(Base::greatest())),
    ] {
        assert_eq!(rt;
            unchanged(&mut store, &at, since)?,
            wanted,
            "{at:?} since {since}"
        );
    }
    Ok(())
}

#[test]
fn finds_what_was_inserted(rt: HostRuntime) -> Result<(), Fail> {
    let mut store = store_of(rt.alloc(), 0, &[10, 30])?;
    let element = entry(2, 20, 9);
    assert!(rt; is_element(&element) && !store.has(&element.base));
    assert!(rt; store.room(TREE_ZONE) >= u64::from(INSERT_ROOM));
    assert_eq!(rt; insert_and_find(&mut store, &element)?, Some(element));
    Ok(())
}

#[test]
fn serves_through_a_reference(rt: HostRuntime) -> Result<(), Fail> {
    let mut store = store_of(rt.alloc(), 1, &[10, 30])?;
    let element = entry(2, 20, 9);
    assert!(rt; is_element(&element) && !store.has(&element.base));
    assert!(rt; store.room(TREE_ZONE) >= u64::from(INSERT_ROOM));
    let mut lent = &mut store;
    assert_eq!(rt; insert_and_find(&mut lent, &element)?, Some(element));
    assert_eq!(rt; store.elements().len(), 3);
    Ok(())
}

#[test]
fn takes_a_big_block_for_each_zone_that_lacks_room(rt: HostRuntime) -> Result<(), Fail> {
    let records = Zones::TREE.union(Zones::META);
    let all = records.union(Zones::LARGE).union(Zones::SMALL);
    let mut store = MemStore::new(rt.alloc(), 4);
    // All but 131,072 bytes of zone 10 are taken by 504 blocks, and 507 leave less than that.
    fill(&mut store, LARGE_ZONE, 504)?;
    assert_eq!(rt; store.room(LARGE_ZONE), 131_072);
    assert_eq!(rt; store.admit(all, 4), Ok(()));
    fill(&mut store, LARGE_ZONE, 3)?;
    fill(&mut store, META_ZONE, 511)?;
    for (zones, held, wanted) in [
        (records, 4, Err(SpaceFault::NoSpace { free: 4, needed: 1 })),
        (all, 3, Err(SpaceFault::NoSpace { free: 4, needed: 2 })),
        (
            all,
            u32::MAX,
            Err(SpaceFault::NoSpace { free: 4, needed: 2 }),
        ),
        (Zones::TREE.union(Zones::SMALL), 4, Ok(())),
        (Zones::LARGE, 3, Ok(())),
        (Zones::LARGE, 4, Ok(())),
        (all, 2, Ok(())),
        (all, 4, Ok(())),
    ] {
        assert_eq!(rt; store.admit(zones, held), wanted, "{zones:?} {held}");
    }
    assert_eq!(rt; store.free(), 2);
    for (zone, room) in [
        (8, 8_388_608),
        (9, 8_388_608),
        (10, 8_388_608),
        (11, 8_388_608),
        (7, 0),
    ] {
        assert_eq!(rt; store.room(zone), room, "{zone}");
    }
    Ok(())
}

// Places blocks of 16,384 bytes.
fn fill(store: &mut MemStore, zone: u8, blocks: u32) -> Result<(), Fail> {
    let block = [b'a'; 16_384];
    for _ in 0..blocks {
        put_bytes(store, zone, &block)?;
    }
    Ok(())
}

// Places some bytes, where the zone has room for them.
fn put_bytes(store: &mut MemStore, zone: u8, bytes: &[u8]) -> Result<HOff, Fail> {
    if !matches!(zone, 9..=11) || bytes.is_empty() {
        return Err("no extent")?;
    }
    if bytes.len() > 65_536 || store.room(zone) < (bytes.len() as u64 + 15) / 16 * 16 {
        return Err("no room")?;
    }
    Ok(store.place(zone, bytes)?)
}

// Adds a reference to an extent.
fn share(store: &mut MemStore, at: HOff, len: u32) -> Result<(), Fail> {
    let Some((size, refs)) = store.extent(at) else {
        return Err("no extent")?;
    };
    if len > 65_536 || size as u64 != (u64::from(len) + 15) / 16 * 16 || refs >= 64 {
        return Err("no more references")?;
    }
    Ok(store.share(at, len)?)
}

// Takes a reference off an extent.
fn give_back(store: &mut MemStore, at: HOff, len: u32) -> Result<(), Fail> {
    let Some((size, _)) = store.extent(at) else {
        return Err("no extent")?;
    };
    if len > 65_536 || size as u64 != (u64::from(len) + 15) / 16 * 16 {
        return Err("another length")?;
    }
    Ok(store.give_back(at, len)?)
}

#[test]
fn keeps_an_extent_until_its_last_reference_is_given_back(rt: HostRuntime) -> Result<(), Fail> {
    let mut store = MemStore::new(rt.alloc(), 0);
    let first = put_bytes(&mut store, META_ZONE, b"0123456789abcdef")?;
    let second = put_bytes(&mut store, SMALL_ZONE, b"hello")?;
    assert_eq!(rt; (first.zone(), second.zone()), (META_ZONE, SMALL_ZONE));
    assert_eq!(rt; store.extent(second), Some((16, 1)));
    assert_eq!(rt; store.room(SMALL_ZONE), 8_388_592);

    for refs in 2..=64u32 {
        share(&mut store, second, 5)?;
        assert_eq!(rt; store.extent(second), Some((16, refs)));
    }
    for left in 1..=63u32 {
        give_back(&mut store, second, 5)?;
        assert_eq!(rt; store.extent(second), Some((16, 64 - left)));
    }
    give_back(&mut store, second, 5)?;
    assert_eq!(rt; store.extent(second), None);
    assert_eq!(rt; store.extent(first), Some((16, 1)));
    Ok(())
}

#[test]
fn reads_the_first_bytes_of_an_extent(rt: HostRuntime) -> Result<(), Fail> {
    let mut store = MemStore::new(rt.alloc(), 0);
    let _other = put_bytes(&mut store, SMALL_ZONE, b"other")?;
    let at = put_bytes(&mut store, SMALL_ZONE, b"hello, world of 23 byte")?;
    assert_eq!(rt; store.extent(at), Some((32, 1)));
    let mut bytes = [0u8; 5];
    let Some((size, _)) = store.extent(at) else {
        return Err("no extent")?;
    };
    assert!(rt; bytes.len() <= size);
    store.fetch(at, &mut bytes)?;
    assert_eq!(rt; bytes.as_slice(), b"hello".as_slice());
    Ok(())
}
