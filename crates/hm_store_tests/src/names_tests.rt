// Names of a directory, over a store in memory whose entries are worked out by hand.
ghost use Rattle.std.specs.Prelude.{IfOk};
ghost use Rattle.hm_key.specs.Balance.{Balanced};

use crate::metered::Metered;
use crate::stores::add;
use hm_cursor::{entry_base, find_name, previous_name};
use hm_key::{HasElements, HasRoom, MemStore};
use hm_types::{BAD_PAYLOAD, Fault, HOff, Id, Obj, Pfs};
use std::alloc::Global;
use std::test::Fail;

const PFS: Pfs = Pfs(3);

const DIRECTORY: Obj = Obj(2);

// The first keys of two hashes.
const ONE: u64 = 0x0001_0000;

const TWO: u64 = 0x0002_0000;

// The keys of entries, the ids that made and closed them, and their payloads. `a` stands twice, and
// `d` until 9.
const ENTRIES: [(u64, u64, u64, &[u8]); 7] = [
    (ONE, 2, 0, b"\x07\0\0\0\0\0\0\0a"),
    (ONE + 1, 3, 0, b"\x08\0\0\0\0\0\0\0b"),
    (ONE + 2, 4, 0, b"\x09\0\0\0\0\0\0\0a"),
    (ONE + 5, 5, 0, b"\x0a\0\0\0\0\0\0\0ab"),
    (TWO + 1, 6, 9, b"\x0b\0\0\0\0\0\0\0d"),
    (TWO + 3, 7, 0, b"\x0c\0\0\0\0\0\0\0d"),
    (u64::MAX, 8, 0, b"\x0d\0\0\0\0\0\0\0e"),
];

// A store with these entries of one directory, and where the last payload stands.
fn store_of(alloc: Global, entries: &[(u64, u64, u64, &[u8])]) -> Result<(MemStore, HOff), Fail>
    ensures { IfOk result (λ pair. Balanced (⟦<MemStore as HasElements>⟧.elements pair.0)
        (⟦<MemStore as HasRoom>⟧.extents pair.0)) }
{
    let mut store = MemStore::new(alloc, 0);
    let mut at = HOff::default();
    for (key, create, delete, bytes) in entries {
        let about = entry_base(PFS, DIRECTORY, *key);
        at = add(&mut store, &about, *create, *delete, bytes)?;
    }
    Ok((store, at))
}

// Whether the last name of a directory is this one: its key, its object and the name.
fn previous_is(
    alloc: Global,
    directory: u64,
    first: u64,
    last: u64,
    as_of: u64,
    wanted: Option<(u64, u64, &[u8])>,
) -> Result<bool, Fail> {
    let (mut store, _) = store_of(alloc, &ENTRIES)?;
    let directory = Obj(directory);
    let found = previous_name(alloc, &mut store, PFS, directory, first, last, Id(as_of))?;
    Ok(match (found, wanted) {
        (Some((key, entry)), Some((at, object, name))) => {
            key == at && entry.obj == Obj(object) && entry.name.bytes() == name
        }
        (None, None) => true,
        _ => false,
    })
}

#[test]
fn the_previous_name_is_that_of_the_last_entry_that_leads(rt: HostRuntime) -> Result<(), Fail> {
    let a = Some((ONE, 7, b"a".as_slice()));
    let b = Some((ONE + 1, 8, b"b".as_slice()));
    let ab = Some((ONE + 5, 10, b"ab".as_slice()));
    let d = Some((TWO + 1, 11, b"d".as_slice()));
    let late_d = Some((TWO + 3, 12, b"d".as_slice()));
    let e = Some((u64::MAX, 13, b"e".as_slice()));
    for (directory, first, last, as_of, wanted) in [
        (2, 0, u64::MAX, 1, None),
        (2, 0, u64::MAX, 2, a),
        (2, 0, u64::MAX, 3, b),
        (2, 0, u64::MAX, 7, d),
        (2, 0, u64::MAX, 8, e),
        (2, ONE, ONE, 8, a),
        (2, 0, ONE - 1, 8, None),
        (2, 0, ONE + 4, 8, b),
        (2, ONE + 2, ONE + 4, 8, None),
        (2, 0, ONE + 5, 8, ab),
        (2, 0, TWO, 8, ab),
        (2, 0, TWO + 3, 8, d),
        (2, 0, u64::MAX - 1, 9, late_d),
        (2, TWO + 2, u64::MAX - 1, 8, None),
        (2, u64::MAX, u64::MAX, 9, e),
        (2, u64::MAX, 0, 9, None),
        (1, 0, u64::MAX, 9, None),
        (3, 0, u64::MAX, 9, None),
    ] {
        assert!(rt;
            previous_is(rt.alloc(), directory, first, last, as_of, wanted)?,
            "{first} to {last} of {directory} as of {as_of}"
        );
    }
    Ok(())
}

#[test]
fn a_name_is_found_under_the_first_key_of_a_span_that_has_it(rt: HostRuntime) -> Result<(), Fail> {
    for (first, last, name, as_of, wanted) in [
        (0, u64::MAX, "a", 1, None),
        (0, u64::MAX, "a", 8, Some((ONE, Obj(7)))),
        (ONE + 1, u64::MAX, "a", 8, Some((ONE + 2, Obj(9)))),
        (ONE + 1, ONE + 1, "a", 8, None),
        (ONE + 3, u64::MAX, "a", 8, None),
        (0, u64::MAX, "ab", 8, Some((ONE + 5, Obj(10)))),
        (0, u64::MAX, "abc", 8, None),
        (0, u64::MAX, "d", 8, Some((TWO + 1, Obj(11)))),
        (0, u64::MAX, "d", 9, Some((TWO + 3, Obj(12)))),
        (0, u64::MAX - 1, "e", 9, None),
        (0, u64::MAX, "e", 9, Some((u64::MAX, Obj(13)))),
        (u64::MAX, 0, "e", 9, None),
    ] {
        let (mut store, _) = store_of(rt.alloc(), &ENTRIES)?;
        let name = name.as_bytes();
        let found = find_name(&mut store, PFS, DIRECTORY, first, last, name, Id(as_of))?;
        assert_eq!(rt;
            found,
            wanted,
            "{name:?} from {first} to {last} as of {as_of}"
        );
    }
    Ok(())
}

// Whether both calls find damage at an entry with this payload, behind one of another name.
fn is_damage(alloc: Global, bytes: &[u8]) -> Result<bool, Fail> {
    let entries = [
        (ONE, 2, 0, b"\x07\0\0\0\0\0\0\0a".as_slice()),
        (ONE + 1, 3, 0, bytes),
    ];
    let (mut store, at) = store_of(alloc, &entries)?;
    let damage = Some(Fault::Damaged {
        at,
        kind: BAD_PAYLOAD,
    });
    let found = find_name(&mut store, PFS, DIRECTORY, 0, TWO, b"b", Id(9)).err();
    let previous = previous_name(alloc, &mut store, PFS, DIRECTORY, ONE + 1, TWO, Id(9)).err();
    Ok(found == damage && previous == damage)
}

#[test]
fn a_payload_that_spells_no_entry_is_damage_there(rt: HostRuntime) -> Result<(), Fail> {
    assert!(rt; !is_damage(rt.alloc(), b"\x08\0\0\0\0\0\0\0b")?);
    assert!(rt; is_damage(rt.alloc(), b"\x08\0\0\0\0\0\0\0")?);
    assert!(rt; is_damage(rt.alloc(), b"\x08\0\0\0\0\0\0\0a/b")?);
    assert!(rt; is_damage(rt.alloc(), &[b'b'; 264])?);
    Ok(())
}

#[test]
fn a_name_with_collision_number_0_takes_one_search(rt: HostRuntime) -> Result<(), Fail> {
    for (last, searches) in [(ONE, 1), (ONE + 1, 2)] {
        let (inner, _) = store_of(rt.alloc(), &ENTRIES)?;
        let mut store = Metered::new(inner);
        let _found = previous_name(rt.alloc(), &mut store, PFS, DIRECTORY, 0, last, Id(9))?;
        assert_eq!(rt; store.searches, searches, "to {last}");
    }
    Ok(())
}

#[test]
fn a_name_is_looked_up_by_one_search_for_each_entry_of_its_hash(
    rt: HostRuntime,
) -> Result<(), Fail> {
    for (first, last, name, as_of, searches) in [
        (ONE, ONE + 65_535, "a", 2, 5),
        (ONE, ONE + 65_535, "a", 9, 4),
        (ONE, ONE + 65_535, "zz", 9, 4),
        (ONE, ONE, "a", 9, 1),
        (TWO, TWO + 65_535, "d", 9, 3),
        (3 * ONE, 3 * ONE + 65_535, "a", 9, 1),
    ] {
        let (inner, _) = store_of(rt.alloc(), &ENTRIES)?;
        let mut store = Metered::new(inner);
        let name = name.as_bytes();
        let _found = find_name(&mut store, PFS, DIRECTORY, first, last, name, Id(as_of))?;
        assert_eq!(rt;
            store.searches,
            searches,
            "{name:?} from {first} as of {as_of}"
        );
    }
    Ok(())
}
