// Calls on names over a store in memory, on rows worked out by hand.
use crate::testing::{FRESH, Item, first_other};
use hm_dirs::Fnv;
use hm_records::{DIRECTORY, FILE, SOFTLINK};
use std::test::Fail;

#[test]
fn kinds_are_told_apart(rt: HostRuntime) -> Result<(), Fail> {
    let rows = [
        ("mkdir /d", "ok"),
        ("touch /d/f", "ok"),
        ("rmdir /d", "not empty"),
        ("rm /d", "is a directory"),
        ("ls /d/f", "not a directory"),
        ("symlink t /l", "ok"),
        ("readlink /d", "not a link"),
        ("readlink /l", "ok t"),
        ("rmdir /d/f", "not a directory"),
        ("rm /d/f", "ok"),
        ("rmdir /d", "ok"),
        ("ls /", "ok 1 l:l"),
        ("stat /l", "ok l 0x0000000000000008 1 1"),
        ("stat /", "ok d 0x0000000000000001 1 1"),
        ("rm /l", "ok"),
        ("ls /", "ok 0"),
    ];
    let other = first_other(rt.alloc(), &Fnv, &FRESH, &rows)?;
    assert_eq!(rt; other, None);
    Ok(())
}

#[test]
fn names_have_at_most_255_bytes(rt: HostRuntime) -> Result<(), Fail> {
    let alloc = rt.alloc();
    let name = "a".repeat(alloc, 255)?;
    let longest = format!(in alloc; "mkdir /{name}")?;
    let longer = format!(in alloc; "mkdir /{name}a")?;
    let rows = [
        (longest.as_str(), "ok"),
        (longer.as_str(), "bad path 1"),
        ("mkdir /", "bad path 0"),
        ("ls /a//b", "bad path 3"),
    ];
    let other = first_other(alloc, &Fnv, &FRESH, &rows)?;
    assert_eq!(rt; other, None);
    Ok(())
}

#[test]
fn names_move(rt: HostRuntime) -> Result<(), Fail> {
    let rows = [
        ("mkdir /a", "ok"),
        ("mv /a /a/b", "into itself"),
        ("touch /x", "ok"),
        ("touch /y", "ok"),
        ("mv /x /y", "ok"),
        ("ls /", "ok 2 d:a f:y"),
        ("stat /y", "ok f 0x0000000000000005 0 1"),
        ("mv /y /a", "exists"),
        ("mv /y /y", "ok"),
        ("mv /y /a/z", "ok"),
        ("ls /", "ok 1 d:a"),
        ("ls /a", "ok 1 f:z"),
        ("mv /none /q", "not found"),
        ("mv / /q", "bad path 0"),
        ("mv /a /b", "ok"),
        ("ls /b", "ok 1 f:z"),
        ("mv /b/z /c/d", "not found"),
        ("mv /b/z /b/z/d", "not a directory"),
    ];
    let other = first_other(rt.alloc(), &Fnv, &FRESH, &rows)?;
    assert_eq!(rt; other, None);
    Ok(())
}

#[test]
fn links_are_counted(rt: HostRuntime) -> Result<(), Fail> {
    let rows = [
        ("touch /a", "ok"),
        ("ln /a /b", "ok"),
        ("stat /a", "ok f 0x0000000000000003 0 2"),
        ("rm /a", "ok"),
        ("stat /b", "ok f 0x0000000000000003 0 1"),
        ("ln /b /b", "exists"),
        ("ln / /r", "is a directory"),
        ("symlink t /l", "ok"),
        ("ln /l /m", "not a file"),
        ("ln /b /m", "ok"),
        ("mv /m /b", "ok"),
        ("stat /b", "ok f 0x0000000000000003 0 2"),
        ("touch /c", "ok"),
        ("mv /c /b", "ok"),
        ("stat /m", "ok f 0x0000000000000003 0 1"),
        ("stat /b", "ok f 0x000000000000000f 0 1"),
        ("ls /", "ok 3 f:b l:l f:m"),
    ];
    let other = first_other(rt.alloc(), &Fnv, &FRESH, &rows)?;
    assert_eq!(rt; other, None);
    Ok(())
}

#[test]
fn paths_are_read(rt: HostRuntime) -> Result<(), Fail> {
    let rows = [
        ("mkdir /", "bad path 0"),
        ("ls /a//b", "bad path 3"),
        ("mkdir /a", "ok"),
        ("mkdir /a", "exists"),
        ("mkdir /b/c", "not found"),
        ("touch /f", "ok"),
        ("mkdir /f/c", "not a directory"),
        ("ls /@@0x0000000000000009", "ok 2 d:a f:f"),
        ("ls /@@0x000000000000000b", "future 0x000000000000000a"),
        ("ls /@@0x0000000000000004", "ok 0"),
        ("mkdir /x@@0x0000000000000004", "read only"),
        ("rm a", "bad path 0"),
        ("rm /a/@@0x0000000000000004", "bad path 0"),
        ("stat /a@@0x0000000000000004", "not found"),
        ("stat /a", "ok d 0x0000000000000005 0 1"),
        ("snapshot /s", "ok"),
        ("readlink /s", "ok @@0x0000000000000011"),
    ];
    let other = first_other(rt.alloc(), &Fnv, &FRESH, &rows)?;
    assert_eq!(rt; other, None);
    Ok(())
}

// PFS 0 with links to PFS 1, a slave, to PFS 2, which is not there, and to PFS 3, a master.
const LINKED: [Item; 12] = [
    Item::Master(0),
    Item::Object(0, 1, DIRECTORY, 1),
    Item::Slave(1, 1, 8),
    Item::Link(4, 1),
    Item::Entry(0, 1, "s", 0, 4),
    Item::Link(6, 2),
    Item::Entry(0, 1, "n", 0, 6),
    Item::Object(1, 1, DIRECTORY, 1),
    Item::Link(9, 3),
    Item::Entry(0, 1, "m", 0, 9),
    Item::Master(3),
    Item::Object(3, 1, DIRECTORY, 1),
];

#[test]
fn links_lead_to_other_systems(rt: HostRuntime) -> Result<(), Fail> {
    let rows = [
        ("ls /", "ok 3 p:m p:n p:s"),
        ("stat /s", "ok p 0x0000000000000004 1 1"),
        ("readlink /s", "ok @@0x0000000000000008:00001"),
        ("readlink /m", "ok @@-1:00003"),
        ("readlink /n", "ok @@-1:00002"),
        ("ls /n", "not found"),
        ("ls /s", "ok 0"),
        ("mkdir /s/d", "read only"),
        ("mkdir /m/d", "ok"),
        ("ls /m", "ok 1 d:d"),
        ("touch /f", "ok"),
        ("mv /f /m/g", "crosses a pfs"),
        ("ln /f /m/g", "crosses a pfs"),
        ("mv /m/d /m/e", "ok"),
        ("ls /m/", "bad path 3"),
        ("rm /m", "is a directory"),
        ("mv /m /o", "ok"),
        ("ls /o", "ok 1 d:e"),
        ("mv /o /o/e/x", "crosses a pfs"),
    ];
    let other = first_other(rt.alloc(), &Fnv, &LINKED, &rows)?;
    assert_eq!(rt; other, None);
    Ok(())
}

// An object with two open inodes; two entries of one name, of which the first leads; an entry of no
// object; a softlink that two names would share.
const FORGED: [Item; 10] = [
    Item::Master(0),
    Item::Object(0, 1, DIRECTORY, 1),
    Item::Object(0, 7, FILE, 1),
    Item::Object(0, 7, DIRECTORY, 1),
    Item::Entry(0, 1, "a", 5, 7),
    Item::Entry(0, 1, "a", 9, 8),
    Item::Object(0, 8, FILE, 1),
    Item::Entry(0, 1, "b", 0, 99),
    Item::Object(0, 9, SOFTLINK, 2),
    Item::Entry(0, 1, "l", 0, 9),
];

#[test]
fn forged_lists_are_answered_by_their_view(rt: HostRuntime) -> Result<(), Fail> {
    let rows = [
        ("ls /", "ok 3 d:a p:b l:l"),
        ("stat /a", "ok d 0x0000000000000007 0 1"),
        ("stat /b", "not found"),
        ("mkdir /b", "exists"),
        ("rmdir /a", "ok"),
        ("stat /a", "not found"),
        ("stat /l", "ok l 0x0000000000000009 0 2"),
        ("rm /l", "ok"),
        ("ls /", "ok 1 p:b"),
    ];
    let other = first_other(rt.alloc(), &Fnv, &FORGED, &rows)?;
    assert_eq!(rt; other, None);
    Ok(())
}
