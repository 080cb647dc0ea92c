// A slave whose elements are forged: versions overlap, and an older one was closed after a newer one
// was made. Of the versions made by an id the newest decides.
ghost use Rattle.std.specs.Prelude.{IfOk};
ghost use Rattle.hm_calls_tests.specs.Tests.{IsMade};

use crate::testing::{
    Item, Volume, base_of, first_other_of, forge_all, forge_as, nothing, opened, payload_of,
};
use hm_dirs::Fnv;
use hm_key::{Base, ELEMENT, FILE_BYTES, HasElements, HasRoom, MemStore};
use hm_records::{DIRECTORY, FILE, Inode, SOFTLINK, encode_inode};
use hm_types::{Obj, Pfs};
use std::alloc::Global;
use std::test::Fail;

// PFS 0 with a link to PFS 1, a slave that keeps the ids from 1 to its sync end, 16.
const LINKED: [Item; 6] = [
    Item::Master(0),
    Item::Object(0, 1, DIRECTORY, 1),
    Item::Slave(1, 1, 16),
    Item::Link(4, 1),
    Item::Entry(0, 1, "s", 0, 4),
    Item::Object(1, 1, DIRECTORY, 1),
];

// What the slave has besides: what each element tells, and the ids that made and closed it. `a`, `n`
// and `l` have two open versions; that of `b` which was closed is older than the open one, and that
// of `c` newer.
const FORGED: [(Item, u64, u64); 16] = [
    (Item::Object(1, 7, FILE, 1), 10, 0),
    (Item::Object(1, 8, DIRECTORY, 1), 10, 0),
    (Item::Entry(1, 1, "a", 0, 7), 10, 0),
    (Item::Entry(1, 1, "a", 0, 8), 12, 0),
    (Item::Entry(1, 1, "b", 0, 7), 10, 16),
    (Item::Entry(1, 1, "b", 0, 8), 12, 0),
    (Item::Entry(1, 1, "c", 0, 7), 10, 0),
    (Item::Entry(1, 1, "c", 0, 8), 12, 14),
    (Item::Entry(1, 1, "n", 0, 9), 10, 0),
    (Item::Object(1, 9, FILE, 1), 10, 0),
    (Item::Object(1, 9, FILE, 2), 12, 0),
    (Item::Entry(1, 1, "l", 0, 11), 10, 0),
    (Item::Object(1, 11, SOFTLINK, 1), 10, 0),
    (Item::Target(1, 11, "x"), 10, 0),
    (Item::Target(1, 11, "y"), 12, 0),
    (Item::Entry(1, 1, "f", 0, 13), 10, 0),
];

// Adds the file 13 of the slave, of three bytes, which have two open versions.
fn forge_file(alloc: Global, volume: &mut Volume<MemStore>) -> Result<(), Fail>
    requires { IsMade (⟦<MemStore as HasElements>⟧.elements volume.old.store)
        (⟦<MemStore as HasRoom>⟧.extents volume.old.store) volume.old.next }
    ensures { IfOk result (λ _. IsMade (⟦<MemStore as HasElements>⟧.elements volume.new.store)
        (⟦<MemStore as HasRoom>⟧.extents volume.new.store) volume.new.next) }
{
    let inode = Inode {
        kind: FILE,
        size: 3,
        links: 1,
        pfs: Pfs(0),
    };
    let about = base_of(&Fnv, Item::Object(1, 13, FILE, 1));
    forge_as(volume, &about, 10, 0, &encode_inode(alloc, &inode)?)?;
    let bytes = Base {
        obj: Obj(13),
        key: 3,
        create: 0,
        delete: 0,
        rec_type: FILE_BYTES,
        obj_type: FILE,
        btype: ELEMENT,
        localization: 0x0001_0002,
    };
    forge_as(volume, &bytes, 10, 0, b"abc")?;
    forge_as(volume, &bytes, 12, 0, b"xyz")
}

// The next id is 17.
fn slave(alloc: Global) -> Result<Volume<MemStore>, Fail>
    ensures { IfOk result (λ volume. IsMade (⟦<MemStore as HasElements>⟧.elements volume.store)
        (⟦<MemStore as HasRoom>⟧.extents volume.store) volume.next) }
{
    let mut volume = nothing(alloc, 0);
    forge_all(alloc, &mut volume, &Fnv, &LINKED)?;
    for (item, create, delete) in FORGED {
        let bytes = payload_of(alloc, item)?;
        forge_as(&mut volume, &base_of(&Fnv, item), create, delete, &bytes)?;
    }
    forge_file(alloc, &mut volume)?;
    Ok(volume)
}

#[test]
fn the_newest_version_made_by_an_id_decides(rt: HostRuntime) -> Result<(), Fail> {
    let rows = [
        ("ls /s", "ok 5 d:a d:b f:f l:l f:n"),
        ("stat /s/a", "ok d 0x0000000000000008 0 1"),
        ("stat /s/b", "ok d 0x0000000000000008 0 1"),
        ("stat /s/c", "not found"),
        ("stat /s/n", "ok f 0x0000000000000009 0 2"),
        ("readlink /s/l", "ok y"),
        ("cat /s/f 0 9", "ok 3 78797a"),
        ("ls /s@@0x000000000000000b", "ok 6 f:a f:b f:c f:f l:l f:n"),
        (
            "stat /s@@0x000000000000000b/a",
            "ok f 0x0000000000000007 0 1",
        ),
        (
            "stat /s@@0x000000000000000b/n",
            "ok f 0x0000000000000009 0 1",
        ),
        ("readlink /s@@0x000000000000000b/l", "ok x"),
        ("cat /s@@0x000000000000000b/f 0 9", "ok 3 616263"),
        (
            "stat /s@@0x000000000000000d/b",
            "ok d 0x0000000000000008 0 1",
        ),
        (
            "stat /s@@0x000000000000000d/c",
            "ok d 0x0000000000000008 0 1",
        ),
        ("stat /s@@0x000000000000000e/c", "not found"),
        ("ls /s@@0x000000000000000e", "ok 5 d:a d:b f:f l:l f:n"),
        ("mkdir /s/c", "read only"),
    ];
    let mut volume = opened(slave(rt.alloc())?);
    let other = first_other_of(rt.alloc(), &mut volume, &Fnv, &rows)?;
    assert_eq!(rt; other, None);
    Ok(())
}
