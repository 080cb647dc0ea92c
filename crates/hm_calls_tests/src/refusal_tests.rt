// Refusals of calls, each where it comes, and which one where two could.
use crate::testing::{
    Item, fill_meta_zone, first_other, first_other_of, forge_all, nothing, opened,
};
use hm_dirs::Fnv;
use hm_records::{DIRECTORY, FILE, SOFTLINK};
use std::alloc::Global;
use std::test::Fail;

// PFS 0 with a directory `d` and one in it, a file `f`, a softlink `l`, a file `x` that has all the
// links that there may be, and links to PFS 1, a slave that keeps the ids 5 to 8, to PFS 3, a
// master, and to PFS 9, which is not there. The next id is 0x1c.
const ALL: [Item; 27] = [
    Item::Master(0),
    Item::Object(0, 1, DIRECTORY, 1),
    Item::Slave(1, 5, 8),
    Item::Link(4, 1),
    Item::Entry(0, 1, "s", 0, 4),
    Item::Object(1, 1, DIRECTORY, 1),
    Item::Object(1, 7, FILE, 1),
    Item::Entry(1, 1, "g", 0, 7),
    Item::Object(0, 9, FILE, 1),
    Item::Entry(0, 1, "f", 0, 9),
    Item::Object(0, 11, DIRECTORY, 1),
    Item::Entry(0, 1, "d", 0, 11),
    Item::Object(0, 13, SOFTLINK, 1),
    Item::Target(0, 13, "t"),
    Item::Entry(0, 1, "l", 0, 13),
    Item::Object(0, 16, FILE, 4_294_967_295),
    Item::Entry(0, 1, "x", 0, 16),
    Item::Link(18, 9),
    Item::Entry(0, 1, "n", 0, 18),
    Item::Master(3),
    Item::Object(3, 1, DIRECTORY, 1),
    Item::Link(22, 3),
    Item::Entry(0, 1, "m", 0, 22),
    Item::Object(3, 24, FILE, 1),
    Item::Entry(3, 1, "h", 0, 24),
    Item::Object(0, 26, DIRECTORY, 1),
    Item::Entry(0, 11, "e", 0, 26),
];

#[test]
fn bad_paths_come_first(rt: HostRuntime) -> Result<(), Fail> {
    let rows = [
        ("mkdir /", "bad path 0"),
        ("touch d", "bad path 0"),
        ("symlink t /d//x", "bad path 3"),
        ("snapshot /d/", "bad path 3"),
        ("ln /f x", "bad path 0"),
        ("ln /d//x x", "bad path 3"),
        ("ln x /d//x", "bad path 0"),
        ("mv / /x", "bad path 0"),
        ("mv /f /", "bad path 0"),
        ("mv /d/.. x", "bad path 3"),
        ("rm /", "bad path 0"),
        ("rmdir /d/@@0x0000000000000005", "bad path 0"),
        ("ls /d/.", "bad path 3"),
        ("stat /d@@/e", "bad path 1"),
        ("readlink /l@@0x5", "bad path 1"),
        ("mkdir /d@@0x00000000000000ff//x", "bad path 23"),
        ("ln /f@@0x00000000000000ff x", "bad path 0"),
        ("ls /none//x", "bad path 6"),
        ("rm /s//g", "bad path 3"),
    ];
    let other = first_other(rt.alloc(), &Fnv, &ALL, &rows)?;
    assert_eq!(rt; other, None);
    Ok(())
}

#[test]
fn the_future_comes_before_the_past_and_the_walks(rt: HostRuntime) -> Result<(), Fail> {
    let rows = [
        ("mkdir /x@@0x00000000000000ff", "future 0x000000000000001b"),
        (
            "touch /d@@0x000000000000001d/x",
            "future 0x000000000000001c",
        ),
        ("symlink t /d@@0x000000000000001d/x", "read only"),
        (
            "snapshot /none@@0x0000000000000100/x",
            "future 0x000000000000001e",
        ),
        ("ln /f@@0x0000000000000100 /y", "future 0x000000000000001f"),
        (
            "ln /f@@0x0000000000000005 /y@@0x0000000000000100",
            "future 0x0000000000000020",
        ),
        ("mv /f@@0x0000000000000100 /y", "future 0x0000000000000021"),
        ("mv /f /y@@0xffffffffffffffff", "future 0x0000000000000022"),
        ("rm /f@@0x0000000000000100", "future 0x0000000000000023"),
        (
            "rmdir /none/d@@0x0000000000000100",
            "future 0x0000000000000024",
        ),
        ("ls /@@0x0000000000000026", "future 0x0000000000000025"),
        (
            "stat /none/f@@0x0000000000000027",
            "future 0x0000000000000026",
        ),
        (
            "readlink /l@@0x0000000000000100",
            "future 0x0000000000000027",
        ),
        ("readlink /l@@0x0000000000000028", "ok t"),
    ];
    let other = first_other(rt.alloc(), &Fnv, &ALL, &rows)?;
    assert_eq!(rt; other, None);
    Ok(())
}

#[test]
fn the_past_and_slaves_are_read_only(rt: HostRuntime) -> Result<(), Fail> {
    let rows = [
        ("mkdir /none/x@@0x0000000000000005", "read only"),
        ("touch /s/@@0x0000000000000003/x", "read only"),
        ("symlink t /f@@0x0000000000000005/x", "read only"),
        ("snapshot /f@@0x0000000000000005", "read only"),
        ("ln /none /y@@0x0000000000000005", "read only"),
        ("ln /none@@0x0000000000000005 /y", "read only"),
        ("mv /none /y@@0x0000000000000005", "read only"),
        ("rm /d@@0x0000000000000005", "read only"),
        ("rmdir /none@@0x0000000000000005", "read only"),
        ("mkdir /s/g", "read only"),
        ("touch /s/x", "read only"),
        ("symlink t /s/g", "read only"),
        ("snapshot /s/x", "read only"),
        ("ln /s/g /s/g", "read only"),
        ("ln /d /s/g", "read only"),
        ("mv /s/g /s/x", "read only"),
        ("mv /f /s/g", "read only"),
        ("mv /s/g /f", "read only"),
        ("rm /s/g", "read only"),
        ("rmdir /s/g", "read only"),
        ("write /s/g 15728640 61", "read only"),
        ("fill /s 0 1 61", "read only"),
        ("truncate /s/g 0", "read only"),
        ("ls /s", "ok 1 f:g"),
    ];
    let other = first_other(rt.alloc(), &Fnv, &ALL, &rows)?;
    assert_eq!(rt; other, None);
    Ok(())
}

#[test]
fn walks_end_before_own_checks_begin(rt: HostRuntime) -> Result<(), Fail> {
    let rows = [
        ("mkdir /none/x", "not found"),
        ("mkdir /f/x", "not a directory"),
        ("touch /l/x", "not a directory"),
        ("symlink t /n/x", "not found"),
        ("snapshot /d/none/x", "not found"),
        ("ln /none /f/x", "not found"),
        ("ln /f/x /none/x", "not a directory"),
        ("ln /d /none/x", "not found"),
        ("ln /s/x /f", "not found"),
        ("mv /none /f/x", "not found"),
        ("mv /f/x /none/x", "not a directory"),
        ("mv /d /d/none/x", "not found"),
        ("mv /f /l/x", "not a directory"),
        ("rm /none", "not found"),
        ("rm /f/x", "not a directory"),
        ("rmdir /none", "not found"),
        ("rmdir /f/x", "not a directory"),
        ("write /n 0 61", "not found"),
        ("fill /f/x 15728640 1 61", "not a directory"),
        ("truncate /s/none 0", "not found"),
        ("ls /none", "not found"),
        ("ls /n", "not found"),
        ("ls /l/x", "not a directory"),
        ("stat /s/none", "not found"),
        ("stat /f/x", "not a directory"),
        ("readlink /none", "not found"),
        ("readlink /l/x", "not a directory"),
    ];
    let other = first_other(rt.alloc(), &Fnv, &ALL, &rows)?;
    assert_eq!(rt; other, None);
    Ok(())
}

#[test]
fn own_checks_come_in_their_order(rt: HostRuntime) -> Result<(), Fail> {
    let rows = [
        ("mkdir /f", "exists"),
        ("touch /d", "exists"),
        ("symlink t /l", "exists"),
        ("snapshot /s", "exists"),
        ("ln /d /m/h", "is a directory"),
        ("ln /s /f", "is a directory"),
        ("ln /l /m/h", "not a file"),
        ("ln /x /m/h", "crosses a pfs"),
        ("ln /x /f", "exists"),
        ("ln /x /new", "too big"),
        ("ln /x /x", "exists"),
        ("mv /d /m/h", "crosses a pfs"),
        ("mv /m /m/h", "crosses a pfs"),
        ("mv /d /d/e", "into itself"),
        ("mv /d /d/e/x", "into itself"),
        ("mv /d /f", "exists"),
        ("mv /f /d", "exists"),
        ("mv /f /s", "exists"),
        ("rm /d", "is a directory"),
        ("rm /s", "is a directory"),
        ("rmdir /f", "not a directory"),
        ("rmdir /s", "not a directory"),
        ("rmdir /d", "not empty"),
        ("write /d 15728640 61", "is a directory"),
        ("fill /m 0 1 61", "is a directory"),
        ("truncate /l 15728641", "not a file"),
        ("write /m/h 15728640 61", "too big"),
        ("ls /f", "not a directory"),
        ("ls /l", "not a directory"),
        ("readlink /f", "not a link"),
        ("readlink /d", "not a link"),
    ];
    let other = first_other(rt.alloc(), &Fnv, &ALL, &rows)?;
    assert_eq!(rt; other, None);
    Ok(())
}

#[test]
fn older_ids_are_read_where_they_are_kept(rt: HostRuntime) -> Result<(), Fail> {
    let rows = [
        ("ls /@@0x0000000000000001", "not found"),
        ("ls /@@0x0000000000000002", "ok 0"),
        ("ls /@@0x0000000000000005", "ok 1 p:s"),
        ("ls /d@@0x000000000000000c", "ok 0"),
        ("ls /d@@0x000000000000000a", "not found"),
        (
            "stat /@@0x000000000000000a/f",
            "ok f 0x0000000000000009 0 1",
        ),
        ("stat /@@0x0000000000000009/f", "not found"),
        ("readlink /@@0x000000000000000f/l", "ok t"),
        ("readlink /@@0x000000000000000e/l", "not found"),
        ("ls /s/@@0x0000000000000004", "not retained"),
        ("ls /s/@@0x0000000000000005", "not found"),
        ("ls /s/@@0x0000000000000006", "ok 0"),
        ("ls /s/@@0x0000000000000008", "ok 1 f:g"),
        ("ls /s/@@0x0000000000000009", "not retained"),
        (
            "stat /s/g@@0x0000000000000008",
            "ok f 0x0000000000000007 0 1",
        ),
        ("stat /s/g@@0x0000000000000003", "not retained"),
        ("readlink /s/none@@0x0000000000000003", "not retained"),
        ("readlink /s/g@@0x0000000000000008", "not a link"),
        ("ls /@@0x0000000000000008/s", "ok 1 f:g"),
        ("ls /@@0x0000000000000007/s", "ok 0"),
        ("ls /@@0x0000000000000009/s", "not retained"),
        (
            "stat /@@0x0000000000000009/s",
            "ok p 0x0000000000000004 1 1",
        ),
        ("stat /@@0x0000000000000009/s/g", "not retained"),
        (
            "stat /@@0x0000000000000008/s/g",
            "ok f 0x0000000000000007 0 1",
        ),
        (
            "readlink /@@0x0000000000000009/s",
            "ok @@0x0000000000000008:00001",
        ),
        ("ls /@@0x0000000000000017/m", "ok 0"),
        ("ls /@@0x0000000000000019/m", "ok 1 f:h"),
    ];
    let other = first_other(rt.alloc(), &Fnv, &ALL, &rows)?;
    assert_eq!(rt; other, None);
    Ok(())
}

// The first other answer where the room for payloads is spent and as many big-blocks are free.
fn first_other_without_room<'a>(
    alloc: Global,
    free: u32,
    rows: &[(&'a str, &'a str)],
) -> Result<Option<(&'a str, Vec<u8>)>, Fail> {
    let items = [
        Item::Master(0),
        Item::Object(0, 1, DIRECTORY, 1),
        Item::Object(0, 3, FILE, 2),
        Item::Entry(0, 1, "a", 0, 3),
        Item::Entry(0, 1, "b", 0, 3),
        Item::Object(0, 6, DIRECTORY, 1),
        Item::Entry(0, 1, "d", 0, 6),
    ];
    let mut volume = nothing(alloc, free);
    forge_all(alloc, &mut volume, &Fnv, &items)?;
    fill_meta_zone(alloc, &mut volume)?;
    let mut volume = opened(volume);
    first_other_of(alloc, &mut volume, &Fnv, rows)
}

#[test]
fn space_is_checked_last(rt: HostRuntime) -> Result<(), Fail> {
    let without = [
        ("mkdir /a", "exists"),
        ("mkdir /x", "no space 0 1"),
        ("touch /x", "no space 0 1"),
        ("symlink t /x", "no space 0 1"),
        ("snapshot /x", "no space 0 1"),
        ("ln /a /x", "no space 0 1"),
        ("ln /a /b", "exists"),
        ("mv /a /x", "no space 0 1"),
        ("mv /a /b", "ok"),
        ("write /a 0 61", "no space 0 1"),
        ("fill /a 0 1 61", "no space 0 1"),
        ("truncate /a 1", "no space 0 1"),
        ("truncate /a 0", "ok"),
        ("write /a 15728640 61", "too big"),
        ("rm /a", "no space 0 1"),
        ("rmdir /d", "ok"),
        ("ls /", "ok 2 f:a f:b"),
    ];
    let held = [
        ("mkdir /x", "no space 4 1"),
        ("mv /a /x", "no space 4 1"),
        ("write /a 0 61", "no space 4 1"),
        ("rm /a", "ok"),
        ("mkdir /x", "ok"),
        ("rm /b", "ok"),
    ];
    let enough = [
        ("write /a 0 61", "ok"),
        ("mkdir /x", "ok"),
        ("touch /y", "ok"),
        ("mv /y /a", "ok"),
    ];
    for (free, rows) in [
        (0, without.as_slice()),
        (4, held.as_slice()),
        (5, enough.as_slice()),
    ] {
        let other = first_other_without_room(rt.alloc(), free, rows)?;
        assert_eq!(rt; other, None, "{free} free");
    }
    Ok(())
}
