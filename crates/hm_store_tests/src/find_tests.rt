// What counts, over stores whose elements and payloads are worked out by hand.
ghost use Rattle.std.specs.Prelude.{IfOk};
ghost use Rattle.hm_key.specs.Balance.{Balanced};

use crate::stores::add;
use hm_cursor::{find_inode, find_payload, find_record, inode_base, record_base};
use hm_key::{Base, HasElements, HasRoom, MemStore};
use hm_records::FILE;
use hm_types::{BAD_PAYLOAD, Fault, HOff, Id, Obj, Pfs};
use std::alloc::Global;
use std::test::Fail;

const PFS: Pfs = Pfs(3);

const FILE_OF_7_BYTES: [u8; 32] = [
    0x02, 0, 0, 0, 0, 0, 0, 0, // kind, zeros
    0x07, 0, 0, 0, 0, 0, 0, 0, // size
    0x01, 0, 0, 0, 0, 0, // links, PFS number
    0, 0, 0, 0, 0, 0, 0, 0, 0, 0,
];

const FILE_OF_8_BYTES: [u8; 32] = [
    0x02, 0, 0, 0, 0, 0, 0, 0, //
    0x08, 0, 0, 0, 0, 0, 0, 0, //
    0x01, 0, 0, 0, 0, 0, //
    0, 0, 0, 0, 0, 0, 0, 0, 0, 0,
];

const UNKNOWN_KIND: [u8; 32] = [
    0x09, 0, 0, 0, 0, 0, 0, 0, //
    0, 0, 0, 0, 0, 0, 0, 0, //
    0x01, 0, 0, 0, 0, 0, //
    0, 0, 0, 0, 0, 0, 0, 0, 0, 0,
];

const MASTER_WITH_2_INTERVALS: [u8; 64] = [
    0x01, 0, 0, 0, 0, 0, 0, 0, // kind, zeros
    0x34, 0x12, 0, 0, 0, 0, 0, 0, // shared number
    0, 0, 0, 0, 0, 0, 0, 0, // sync end
    0x02, 0, 0, 0, 0, 0, 0, 0, // number of intervals, zeros
    0x01, 0, 0, 0, 0, 0, 0, 0, // first and last id
    0x05, 0, 0, 0, 0, 0, 0, 0, //
    0x09, 0, 0, 0, 0, 0, 0, 0, //
    0xFF, 0xFF, 0xFF, 0xFF, 0xFF, 0xFF, 0xFF, 0xFF,
];

// A store with one element.
fn store_with(
    alloc: Global,
    about: &Base,
    create: u64,
    delete: u64,
    bytes: &[u8],
) -> Result<(MemStore, HOff), Fail>
    ensures { IfOk result (λ pair. Balanced (⟦<MemStore as HasElements>⟧.elements pair.0)
        (⟦<MemStore as HasRoom>⟧.extents pair.0)) }
{
    let mut store = MemStore::new(alloc, 0);
    let at = add(&mut store, about, create, delete, bytes)?;
    Ok((store, at))
}

// The size of a file as of an id, which had 7 bytes from 5 on, 8 bytes from 9 on, and was removed
// at 12.
fn size_at(alloc: Global, obj: u64, as_of: u64) -> Result<Option<u64>, Fail> {
    let file = inode_base(PFS, Obj(2));
    let (mut store, _) = store_with(alloc, &file, 5, 9, &FILE_OF_7_BYTES)?;
    let _at = add(&mut store, &file, 9, 12, &FILE_OF_8_BYTES)?;
    match find_inode(&mut store, PFS, Obj(obj), Id(as_of))? {
        Some(inode) if inode.kind == FILE => Ok(Some(inode.size)),
        Some(_) => Err("no file")?,
        None => Ok(None),
    }
}

#[test]
fn an_inode_is_that_of_its_version_as_of_an_id(rt: HostRuntime) -> Result<(), Fail> {
    for (obj, as_of, want) in [
        (2, 0, None),
        (2, 4, None),
        (2, 5, Some(7)),
        (2, 8, Some(7)),
        (2, 9, Some(8)),
        (2, 11, Some(8)),
        (2, 12, None),
        (2, u64::MAX, None),
        (1, 9, None),
        (3, 9, None),
    ] {
        assert_eq!(rt;
            size_at(rt.alloc(), obj, as_of)?,
            want,
            "{obj} as of {as_of}"
        );
    }
    Ok(())
}

// Whether an object with this payload has damage there, and nothing else.
fn is_damage(alloc: Global, bytes: &[u8]) -> Result<bool, Fail> {
    let (mut store, at) = store_with(alloc, &inode_base(PFS, Obj(2)), 5, 0, bytes)?;
    let found = find_inode(&mut store, PFS, Obj(2), Id(5));
    Ok(
        found
            == Err(Fault::Damaged {
                at,
                kind: BAD_PAYLOAD,
            }),
    )
}

#[test]
fn a_payload_is_put_at_the_front_of_a_buffer_that_is_long_enough(
    rt: HostRuntime,
) -> Result<(), Fail> {
    let about = inode_base(PFS, Obj(2));
    let (mut store, at) = store_with(rt.alloc(), &about, 5, 0, &FILE_OF_7_BYTES)?;
    let mut short = [0xEE; 31];
    let refused = find_payload(&mut store, &about, Id(5), &mut short).err();
    let wanted = Fault::Damaged {
        at,
        kind: BAD_PAYLOAD,
    };
    assert_eq!(rt; refused, Some(wanted));
    let mut long = [0xEE; 33];
    let Some((element, len)) = find_payload(&mut store, &about, Id(5), &mut long)? else {
        return Err("no payload")?;
    };
    assert_eq!(rt; (element.base.create, element.payload, len), (5, at, 32));
    assert_eq!(rt; &long[..32], &FILE_OF_7_BYTES[..]);
    assert_eq!(rt; long[32], 0xEE);
    Ok(())
}

#[test]
fn an_open_record_is_found_with_its_intervals(rt: HostRuntime) -> Result<(), Fail> {
    let about = record_base(PFS);
    let (mut store, _) = store_with(rt.alloc(), &about, 7, 0, &MASTER_WITH_2_INTERVALS)?;
    let Some(record) = find_record(rt.alloc(), &mut store, PFS)? else {
        return Err("no record")?;
    };
    assert!(rt; record.master);
    assert_eq!(rt; (record.shared, record.sync_end), (0x1234, Id(0)));
    let wanted = [(Id(1), Id(5)), (Id(9), Id(u64::MAX))];
    assert_eq!(rt; record.retention.pairs(), wanted.as_slice());
    assert!(rt; find_record(rt.alloc(), &mut store, Pfs(2))?.is_none());
    for delete in [8, u64::MAX] {
        let (mut store, _) = store_with(rt.alloc(), &about, 7, delete, &MASTER_WITH_2_INTERVALS)?;
        assert!(rt;
            find_record(rt.alloc(), &mut store, PFS)?.is_none(),
            "{delete}"
        );
    }
    Ok(())
}

// Whether a pseudo file system with this payload as its record has damage there.
fn is_record_damage(alloc: Global, bytes: &[u8]) -> Result<bool, Fail> {
    let (mut store, at) = store_with(alloc, &record_base(PFS), 7, 0, bytes)?;
    let fault = find_record(alloc, &mut store, PFS).err();
    Ok(
        fault
            == Some(Fault::Damaged {
                at,
                kind: BAD_PAYLOAD,
            }),
    )
}

#[test]
fn a_payload_that_spells_no_inode_or_no_record_is_damage_there(
    rt: HostRuntime,
) -> Result<(), Fail> {
    assert!(rt; !is_damage(rt.alloc(), &FILE_OF_7_BYTES)?);
    assert!(rt; is_damage(rt.alloc(), &FILE_OF_7_BYTES[..31])?);
    assert!(rt; is_damage(rt.alloc(), &UNKNOWN_KIND)?);
    assert!(rt; is_damage(rt.alloc(), &[0; 33])?);
    let longer = Vec::from_elem(rt.alloc(), 1, 65_569)?;
    assert!(rt; !is_record_damage(rt.alloc(), &MASTER_WITH_2_INTERVALS)?);
    assert!(rt; is_record_damage(rt.alloc(), &MASTER_WITH_2_INTERVALS[..48])?);
    assert!(rt; is_record_damage(rt.alloc(), &longer)?);
    assert!(rt; is_record_damage(rt.alloc(), &longer[..65_568])?);
    Ok(())
}
