// Pseudo file systems of a store: new ones, records that are replaced, and unused numbers.
use crate::numbers::Numbers;
use crate::tree_store::TreeStore;
use hm_cursor::{find_record, record_base};
use hm_key::{Base, ELEMENT, Element, ElementStore, Extents, is_element};
use hm_pfs::{add_master, add_slave, replace_record, unused_from};
use hm_records::{PfsRecord, encode_pfs};
use hm_retain::Retention;
use hm_types::{Fault, HOff, Id, META_ZONE, Pfs};
use std::alloc::Global;
use std::test::Fail;

const SHARED: u64 = 0x00aa;

// The elements of master 7, made by id 5, and of slave 9, made by id 6: localization, object, type,
// key, create id, delete id, kind, and the payload.
const MASTER_ROOT: (u32, u64, u16, u64, u64, u64, u8) = (0x0007_0001, 1, 0x0001, 0, 5, 0, 1);

const MASTER_RECORD: (u32, u64, u16, u64, u64, u64, u8) = (0x0007_0002, 1, 0x0015, 7, 5, 0, 1);

const SLAVE_RECORD: (u32, u64, u16, u64, u64, u64, u8) = (0x0009_0002, 1, 0x0015, 9, 6, 0, 1);

const ROOT_BYTES: [u8; 32] = [
    1, 0, 0, 0, 0, 0, 0, 0, // a directory
    0, 0, 0, 0, 0, 0, 0, 0, // size
    1, 0, 0, 0, 0, 0, // links, PFS number
    0, 0, 0, 0, 0, 0, 0, 0, 0, 0,
];

const MASTER_BYTES: [u8; 48] = [
    1, 0, 0, 0, 0, 0, 0, 0, // a master
    0xaa, 0, 0, 0, 0, 0, 0, 0, // shared id
    0, 0, 0, 0, 0, 0, 0, 0, // sync end
    1, 0, 0, 0, 0, 0, 0, 0, // one interval
    1, 0, 0, 0, 0, 0, 0, 0, // from 1 on
    0xff, 0xff, 0xff, 0xff, 0xff, 0xff, 0xff, 0xff,
];

const SLAVE_BYTES: [u8; 32] = [
    2, 0, 0, 0, 0, 0, 0, 0, // a slave
    0xaa, 0, 0, 0, 0, 0, 0, 0, // shared id
    0, 0, 0, 0, 0, 0, 0, 0, // sync end
    0, 0, 0, 0, 0, 0, 0, 0, // no interval
];

// Adds a master, where there is room.
fn new_master(alloc: Global, store: &mut TreeStore, number: u16, id: u64) -> Result<(), Fault> {
    store.need_room()?;
    if id == 0 {
        return Err(Fault::NoMemory);
    }
    add_master(alloc, store, Pfs(number), SHARED, Id(id))
}

// Adds a slave, where there is room.
fn new_slave(alloc: Global, store: &mut TreeStore, number: u16, id: u64) -> Result<(), Fault> {
    store.need_room()?;
    if id == 0 {
        return Err(Fault::NoMemory);
    }
    add_slave(alloc, store, Pfs(number), SHARED, Id(id))
}

// Replaces a record, where there is room.
fn replace(alloc: Global, store: &mut TreeStore, number: u16, to: &PfsRecord) -> Result<(), Fault> {
    let bytes = encode_pfs(alloc, to)?;
    store.need_room()?;
    if bytes.len() > 65_568 {
        return Err(Fault::NoMemory);
    }
    replace_record(alloc, store, Pfs(number), to)
}

// What an element says of itself.
fn fields(element: &Element) -> (u32, u64, u16, u64, u64, u64, u8) {
    let base = &element.base;
    (
        base.localization,
        base.obj.0,
        base.rec_type,
        base.key,
        base.create,
        base.delete,
        base.obj_type,
    )
}

// All elements of a store, in the order of their keys.
fn all_elements(alloc: Global, store: &mut TreeStore) -> Result<Vec<Element>, Fail> {
    let mut elements = Vec::new(alloc);
    let mut at = Base::least();
    for _ in 0..1_000u32 {
        let Some(element) = store.first_at_or_after(&at)? else {
            return Ok(elements);
        };
        elements.push(element)?;
        at = match element.base.key_after() {
            Some(next) => next,
            None => return Ok(elements),
        };
    }
    Err("too many elements")?
}

// Whether an element stands in a store with these fields, and refers alone to this payload.
fn stands(store: &TreeStore, element: &Element, bytes: &[u8]) -> bool {
    match store.payload(element.payload) {
        Some(payload) => {
            payload.references == 1
                && element.len as usize == bytes.len()
                && payload.bytes.as_slice() == bytes
        }
        None => false,
    }
}

#[test]
fn new_systems_have_their_records_and_a_master_its_root(rt: HostRuntime) -> Result<(), Fail> {
    let mut store = TreeStore::new(rt.alloc())?;
    new_master(rt.alloc(), &mut store, 7, 5)?;
    new_slave(rt.alloc(), &mut store, 9, 6)?;
    let elements = all_elements(rt.alloc(), &mut store)?;
    let wanted: [(_, &[u8]); 3] = [
        (MASTER_ROOT, &ROOT_BYTES),
        (MASTER_RECORD, &MASTER_BYTES),
        (SLAVE_RECORD, &SLAVE_BYTES),
    ];
    assert_eq!(rt; elements.len(), wanted.len());
    for (element, (row, bytes)) in elements.iter().zip(wanted) {
        assert_eq!(rt; fields(element), row);
        assert!(rt; stands(&store, element, bytes), "{element:?}");
    }
    Ok(())
}

#[test]
fn unused_numbers_stand_in_the_gaps(rt: HostRuntime) -> Result<(), Fail> {
    let mut store = TreeStore::new(rt.alloc())?;
    new_master(rt.alloc(), &mut store, 0, 1)?;
    new_slave(rt.alloc(), &mut store, 1, 2)?;
    new_master(rt.alloc(), &mut store, 3, 3)?;
    new_slave(rt.alloc(), &mut store, 65_535, 4)?;
    for (from, wanted) in [
        (0, Some(2)),
        (1, Some(2)),
        (2, Some(2)),
        (3, Some(4)),
        (4, Some(4)),
        (65_534, Some(65_534)),
        (65_535, None),
        (65_536, None),
        (u32::MAX, None),
    ] {
        assert_eq!(rt; unused_from(&mut store, from)?, wanted.map(Pfs), "{from}");
    }
    Ok(())
}

#[test]
fn no_number_is_unused_where_all_have_a_record(rt: HostRuntime) -> Result<(), Fail> {
    for (systems, from, wanted) in [
        (65_536, 0, None),
        (65_536, 65_535, None),
        (65_535, 0, Some(65_535)),
        (65_535, 65_534, Some(65_535)),
        (1, 0, Some(1)),
        (0, 0, Some(0)),
    ] {
        let mut store = Numbers { systems };
        assert_eq!(rt;
            unused_from(&mut store, from)?,
            wanted.map(Pfs),
            "{systems} {from}"
        );
    }
    Ok(())
}

// The record of a slave that keeps so many single ids, the odd ones from 1 on.
fn slave_keeping(alloc: Global, intervals: u32) -> Result<PfsRecord, Fail> {
    let mut list = Vec::new(alloc);
    for index in 0..intervals {
        let id = 2 * u64::from(index) + 1;
        list.push((Id(id), Id(id)))?;
    }
    let Some(retention) = Retention::of(list) else {
        return Err("no retention")?;
    };
    Ok(PfsRecord {
        master: false,
        shared: SHARED,
        sync_end: Id(2 * u64::from(intervals)),
        retention,
    })
}

// How many references all payloads of a store have.
fn references(store: &TreeStore) -> u64 {
    let mut references = 0u64;
    for payload in store.payloads.iter() {
        references = references.saturating_add(u64::from(payload.references));
    }
    references
}

#[test]
fn a_record_is_replaced_where_it_stands(rt: HostRuntime) -> Result<(), Fail> {
    let mut store = TreeStore::new(rt.alloc())?;
    for number in 6..=8u16 {
        new_slave(rt.alloc(), &mut store, number, 5)?;
    }
    for (intervals, size) in [(4_096, 65_568), (1, 48), (4_096, 65_568), (0, 32)] {
        let record = slave_keeping(rt.alloc(), intervals)?;
        replace(rt.alloc(), &mut store, 7, &record)?;
        let mut seen = 0u32;
        for element in all_elements(rt.alloc(), &mut store)?.iter() {
            seen = seen.saturating_add(1);
            let number = u16::try_from(seen).unwrap_or(0).saturating_add(5);
            let localization = u32::from(number) * 65_536 + 2;
            let wanted = (localization, 1, 0x0015, u64::from(number), 5, 0, 1);
            assert_eq!(rt; fields(element), wanted, "{intervals}");
            let len = if number == 7 { size } else { 32 };
            assert_eq!(rt; element.len, len, "{intervals}");
        }
        assert_eq!(rt; (seen, references(&store)), (3, 3), "{intervals}");
        let found = find_record(rt.alloc(), &mut store, Pfs(7))?;
        let Some(found) = found else {
            return Err("no record")?;
        };
        assert_eq!(rt; found.sync_end, record.sync_end, "{intervals}");
        assert!(rt;
            found.retention.pairs() == record.retention.pairs(),
            "{intervals}"
        );
    }
    Ok(())
}

// Adds a version of the record of a PFS.
fn forge(
    alloc: Global,
    store: &mut TreeStore,
    number: u16,
    create: u64,
    delete: u64,
    record: &PfsRecord,
) -> Result<(), Fail> {
    let bytes = encode_pfs(alloc, record)?;
    if bytes.is_empty() || bytes.len() > 65_568 {
        return Err("no payload")?;
    }
    let mut element = Element {
        base: Base {
            create,
            delete,
            obj_type: 1,
            btype: ELEMENT,
            ..record_base(Pfs(number))
        },
        payload: HOff::default(),
        len: bytes.len() as u32,
    };
    if !is_element(&element) {
        return Err("no element")?;
    }
    store.need_room()?;
    element.payload = store.place(META_ZONE, &bytes)?;
    store.insert(&element)?;
    Ok(())
}

#[test]
fn the_newest_version_is_replaced_whatever_its_ids_are(rt: HostRuntime) -> Result<(), Fail> {
    // The ids of two versions of 1 and 2 intervals, and the sizes of their payloads after a
    // replacement by one of 3.
    for (older, newer, wanted) in [
        // A slave's record, made by an id that no call has drawn yet.
        ((3, 5), (900, 0), (48, 80)),
        ((3, 900), (5, 0), (48, 80)),
        ((3, u64::MAX), (u64::MAX, 0), (48, 80)),
        // One that was closed is none, whatever is open among the older ones.
        ((3, 0), (900, 901), (48, 64)),
    ] {
        let mut store = TreeStore::new(rt.alloc())?;
        forge(
            rt.alloc(),
            &mut store,
            7,
            older.0,
            older.1,
            &slave_keeping(rt.alloc(), 1)?,
        )?;
        forge(
            rt.alloc(),
            &mut store,
            7,
            newer.0,
            newer.1,
            &slave_keeping(rt.alloc(), 2)?,
        )?;
        replace(rt.alloc(), &mut store, 7, &slave_keeping(rt.alloc(), 3)?)?;
        let rows = [(older, wanted.0), (newer, wanted.1)];
        let elements = all_elements(rt.alloc(), &mut store)?;
        assert_eq!(rt; elements.len(), 2, "{newer:?}");
        for (element, (ids, size)) in elements.iter().zip(rows) {
            assert_eq!(rt;
                (element.base.create, element.base.delete),
                ids,
                "{newer:?}"
            );
            assert_eq!(rt; element.len, size, "{newer:?}");
        }
        let counts = wanted.1 == 80;
        assert_eq!(rt;
            find_record(rt.alloc(), &mut store, Pfs(7))?.is_some(),
            counts
        );
        let unused = if counts { Pfs(8) } else { Pfs(7) };
        assert_eq!(rt; unused_from(&mut store, 7)?, Some(unused), "{newer:?}");
    }
    Ok(())
}

// A call of the crate.
#[derive(Clone, Copy, Debug)]
enum Call {
    AddMaster,
    AddSlave,
    Replace,
    Unused,
}

// Makes a call over a store.
fn make(alloc: Global, store: &mut TreeStore, call: Call, to: &PfsRecord) -> Result<(), Fault> {
    match call {
        Call::AddMaster => new_master(alloc, store, 2, 9),
        Call::AddSlave => new_slave(alloc, store, 2, 9),
        Call::Replace => replace(alloc, store, 1, to),
        Call::Unused => match unused_from(store, 0)? {
            Some(_) => Ok(()),
            None => Err(Fault::NoMemory),
        },
    }
}

#[test]
fn each_call_of_the_store_may_fail(rt: HostRuntime) -> Result<(), Fail> {
    let to = slave_keeping(rt.alloc(), 3)?;
    // How many calls of the store each takes over one with the numbers 0 and 1.
    for (call, calls) in [
        (Call::AddMaster, 4),
        (Call::AddSlave, 2),
        (Call::Replace, 5),
        (Call::Unused, 3),
    ] {
        for left in 0..=calls {
            let mut store = TreeStore::new(rt.alloc())?;
            new_slave(rt.alloc(), &mut store, 0, 5)?;
            new_slave(rt.alloc(), &mut store, 1, 6)?;
            store.left = left;
            let done = make(rt.alloc(), &mut store, call, &to).is_ok();
            assert_eq!(rt; done, left == calls, "{call:?} {left}");
        }
    }
    Ok(())
}
