// `pfs-status` on rows worked out by hand: what it tells, and which refusal comes first.
use crate::testing::{Item, volume_of};
use hm_calls::pfs_status;
use hm_dirs::Fnv;
use hm_key::{ElementStore, Extents, HasElements, HasRoom};
use hm_model::{Command, push_answer};
use hm_records::{DIRECTORY, FILE};
use hm_types::{Counted, GREATEST_ID, Id, Text};
use std::alloc::Global;
use std::test::Fail;

// PFS 0 with a file `f` in a directory `d`, and with links `s` to PFS 1, a slave that keeps the ids 5
// to 8, `q` to PFS 2, a slave that keeps 3 to 9 and has no root, and `n` to PFS 9, which is not
// there. The next id is 0x12.
const SYSTEMS: [Item; 17] = [
    Item::Master(0),
    Item::Object(0, 1, DIRECTORY, 1),
    Item::Slave(1, 5, 8),
    Item::Link(4, 1),
    Item::Entry(0, 1, "s", 0, 4),
    Item::Object(1, 1, DIRECTORY, 1),
    Item::Object(1, 7, FILE, 1),
    Item::Entry(1, 1, "g", 0, 7),
    Item::Slave(2, 3, 9),
    Item::Link(10, 2),
    Item::Entry(0, 1, "q", 0, 10),
    Item::Link(12, 9),
    Item::Entry(0, 1, "n", 0, 12),
    Item::Object(0, 14, DIRECTORY, 1),
    Item::Entry(0, 1, "d", 0, 14),
    Item::Object(0, 16, FILE, 1),
    Item::Entry(0, 14, "f", 0, 16),
];

// The text of the answer for a path.
fn status_of(alloc: Global, path: &str) -> Result<Vec<u8>, Fail> {
    let mut volume = volume_of(alloc, &Fnv, &SYSTEMS)?;
    if volume.next == 0 || volume.next > GREATEST_ID {
        return Err("no id")?;
    }
    let path = Text::of(Vec::from_slice(alloc, path.as_bytes())?);
    let reply = pfs_status(alloc, &mut volume.store, &Fnv, &path, Id(volume.next))?;
    let mut got = Vec::new(alloc);
    push_answer(alloc, &mut got, &Command::PfsStatus { path }, &reply)?;
    Ok(got)
}

// The first path with another answer, and what it was, if there is one.
fn first_other<'a>(
    alloc: Global,
    rows: &[(&'a str, &'a str)],
) -> Result<Option<(&'a str, Vec<u8>)>, Fail> {
    for (path, want) in rows {
        let got = status_of(alloc, path)?;
        if got.as_slice() != want.as_bytes() {
            return Ok(Some((*path, got)));
        }
    }
    Ok(None)
}

#[test]
fn a_path_tells_of_the_system_in_which_it_ends(rt: HostRuntime) -> Result<(), Fail> {
    let rows = [
        ("/", "ok master 00000 0000000000000007 1"),
        ("/d", "ok master 00000 0000000000000007 1"),
        ("/d/f", "ok master 00000 0000000000000007 1"),
        ("/s", "ok slave 00001 0000000000000007 1 0x0000000000000008"),
        (
            "/s/g",
            "ok slave 00001 0000000000000007 1 0x0000000000000008",
        ),
        ("/q", "ok slave 00002 0000000000000007 1 0x0000000000000009"),
    ];
    let other = first_other(rt.alloc(), &rows)?;
    assert_eq!(rt; other, None);
    Ok(())
}

#[test]
fn refusals_of_a_status_come_in_their_order(rt: HostRuntime) -> Result<(), Fail> {
    let rows = [
        ("d", "bad path 0"),
        ("/d//f@@0x00000000000000ff", "bad path 3"),
        ("/none@@0x0000000000000012", "future 0x0000000000000011"),
        (
            "/d@@0x0000000000000005/f@@0x0000000000000012",
            "future 0x0000000000000011",
        ),
        ("/none@@0x0000000000000011", "read only"),
        ("/s@@0x0000000000000004", "read only"),
        ("/@@0x0000000000000005", "read only"),
        ("/none", "not found"),
        ("/n", "not found"),
        ("/q/x", "not found"),
        ("/d/f/x", "not a directory"),
    ];
    let other = first_other(rt.alloc(), &rows)?;
    assert_eq!(rt; other, None);
    Ok(())
}
