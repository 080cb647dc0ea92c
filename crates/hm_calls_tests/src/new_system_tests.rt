// `pfs-master` and `pfs-slave` on rows worked out by hand: which number each takes, what its link and
// its tree tell, and which refusal comes first.
ghost use Rattle.std.specs.Prelude.{◌≤◌, IfOk, OnOk};
ghost use Rattle.hm_types.specs.declared.limits.TheConstants.{GREATEST_ID};
ghost use Rattle.hm_calls_tests.specs.Tests.{IsReady};

use crate::testing::{
    FRESH, Item, Volume, ask, fill_meta_zone, forge_all, nothing, opened, volume_of,
};
use hm_calls::{NewSystem, make_system};
use hm_dirs::{Fnv, NameHash};
use hm_key::{ElementStore, Extents, HasElements, HasRoom};
use hm_model::{Command, Reply, push_answer};
use hm_records::{DIRECTORY, FILE};
use hm_types::{Fault, GREATEST_ID, Id, Pfs, Text};
use std::alloc::Global;
use std::test::Fail;

const SHARED: u64 = 0x00aa;

// A call: one that makes a master or a slave at a path, or any other line.
#[derive(Clone, Copy, Debug)]
enum Line {
    Master(&'static str),
    Slave(&'static str),
    Other(&'static str),
}

// The reply to the next call, which makes a pseudo file system whose number is looked for from one
// on, and the number that it took.
fn reply_of<T: ElementStore + Extents, H: NameHash>(
    alloc: Global,
    volume: &mut Volume<T>,
    hash: &H,
    new: NewSystem,
    path: &Text,
    numbers: u32,
) -> Result<(Reply, Option<Pfs>), Fault>
    requires id { (1 ≤ volume.old.next) × (volume.old.next ≤ GREATEST_ID) }
    requires ready { IsReady (T.elements volume.old.store) (T.extents volume.old.store)
        volume.old.next }
    ensures { OnOk result (IsReady (T.elements volume.new.store) (T.extents volume.new.store)
        volume.new.next) }
{
    let id = Id(volume.next);
    let store = &mut volume.store;
    let told = make_system(alloc, store, hash, new, path, SHARED, id, numbers)?;
    volume.next += 1;
    Ok(told)
}

// The text of its answer, with a full stop where it took no number.
fn made<T: ElementStore + Extents>(
    alloc: Global,
    volume: &mut Volume<T>,
    new: NewSystem,
    path: &str,
    numbers: u32,
) -> Result<Vec<u8>, Fail>
    requires { IsReady (T.elements volume.old.store) (T.extents volume.old.store)
        volume.old.next }
    ensures { IfOk result (λ _. IsReady (T.elements volume.new.store)
        (T.extents volume.new.store) volume.new.next) }
{
    if volume.next == 0 || volume.next > GREATEST_ID {
        return Err("no id")?;
    }
    let path = Text::of(Vec::from_slice(alloc, path.as_bytes())?);
    let (reply, number) = reply_of(alloc, volume, &Fnv, new, &path, numbers)?;
    let mut got = Vec::new(alloc);
    let shared = SHARED;
    let command = Command::PfsMaster { path, shared };
    push_answer(alloc, &mut got, &command, &reply)?;
    if number.is_none() {
        got.push(b'.')?;
    }
    Ok(got)
}

// The text of the answer to a call.
fn answered<T: ElementStore + Extents>(
    alloc: Global,
    volume: &mut Volume<T>,
    line: Line,
    numbers: u32,
) -> Result<Vec<u8>, Fail>
    requires { IsReady (T.elements volume.old.store)
        (T.extents volume.old.store) volume.old.next }
    ensures { IfOk result (λ _. IsReady (T.elements volume.new.store)
        (T.extents volume.new.store) volume.new.next) }
{
    match line {
        Line::Master(path) => made(alloc, volume, NewSystem::Master, path, numbers),
        Line::Slave(path) => made(alloc, volume, NewSystem::Slave, path, numbers),
        Line::Other(line) => ask(alloc, volume, &Fnv, line),
    }
}

// The first call with another answer, and what it was, if there is one.
fn first_other<T: ElementStore + Extents>(
    alloc: Global,
    volume: &mut Volume<T>,
    numbers: u32,
    rows: &[(Line, &str)],
) -> Result<Option<(Line, Vec<u8>)>, Fail>
    requires { IsReady (T.elements volume.old.store)
        (T.extents volume.old.store) volume.old.next }
{
    for (line, want) in rows {
        let got = answered(alloc, volume, *line, numbers)?;
        if got.as_slice() != want.as_bytes() {
            return Ok(Some((*line, got)));
        }
    }
    Ok(None)
}

// The first other answer over some elements, made by the ids from 1 on.
fn first_other_over(
    alloc: Global,
    items: &[Item],
    numbers: u32,
    rows: &[(Line, &str)],
) -> Result<Option<(Line, Vec<u8>)>, Fail> {
    let mut volume = volume_of(alloc, &Fnv, items)?;
    first_other(alloc, &mut volume, numbers, rows)
}

#[test]
fn each_takes_the_next_number_and_has_a_tree_of_its_own(rt: HostRuntime) -> Result<(), Fail> {
    let rows = [
        (Line::Master("/m"), "ok 00001"),
        (Line::Slave("/s"), "ok 00002"),
        (Line::Master("/m/n"), "ok 00003"),
        (Line::Other("mkdir /m/n/d"), "ok"),
        (Line::Slave("/m/n/d/t"), "ok 00004"),
        (Line::Other("ls /"), "ok 2 p:m p:s"),
        (Line::Other("ls /m"), "ok 1 p:n"),
        (Line::Other("ls /m/n"), "ok 1 d:d"),
        (Line::Other("ls /m/n/d"), "ok 1 p:t"),
        (Line::Other("ls /s"), "not found"),
        (Line::Other("ls /m/n/d/t"), "not found"),
        (Line::Other("readlink /m"), "ok @@-1:00001"),
        (Line::Other("readlink /s"), "ok @@0x0000000000000000:00002"),
        (Line::Other("readlink /m/n"), "ok @@-1:00003"),
        (
            Line::Other("readlink /m/n/d/t"),
            "ok @@0x0000000000000000:00004",
        ),
        (Line::Other("stat /m"), "ok p 0x0000000000000003 1 1"),
        (Line::Other("stat /s"), "ok p 0x0000000000000004 2 1"),
        (Line::Other("stat /m/n"), "ok p 0x0000000000000005 3 1"),
        (Line::Other("ls /m@@0x0000000000000002"), "not found"),
        (Line::Other("ls /m@@0x0000000000000003"), "ok 0"),
        (Line::Other("ls /m@@0x0000000000000005"), "ok 1 p:n"),
        (Line::Other("rm /m"), "is a directory"),
        (Line::Other("ln /m /q"), "is a directory"),
        (Line::Other("mv /m /q"), "ok"),
        (Line::Master("/m"), "ok 00005"),
        (Line::Other("readlink /q"), "ok @@-1:00001"),
        (Line::Other("ls /q"), "ok 1 p:n"),
    ];
    let other = first_other_over(rt.alloc(), &FRESH, 0, &rows)?;
    assert_eq!(rt; other.is_none(), true, "{other:?}");
    Ok(())
}

// PFS 0 with a directory `d`, a file `f`, and a link `s` to PFS 1, a slave that keeps the ids 5 to 8.
// PFS 3 is a master, and 65,535 another.
const GAPS: [Item; 13] = [
    Item::Master(0),
    Item::Object(0, 1, DIRECTORY, 1),
    Item::Slave(1, 5, 8),
    Item::Link(4, 1),
    Item::Entry(0, 1, "s", 0, 4),
    Item::Object(1, 1, DIRECTORY, 1),
    Item::Master(3),
    Item::Object(0, 8, DIRECTORY, 1),
    Item::Entry(0, 1, "d", 0, 8),
    Item::Object(0, 10, FILE, 1),
    Item::Entry(0, 1, "f", 0, 10),
    Item::Object(3, 1, DIRECTORY, 1),
    Item::Master(65_535),
];

#[test]
fn the_least_unused_number_is_looked_for_from_one_on(rt: HostRuntime) -> Result<(), Fail> {
    let gaps = [
        (Line::Slave("/a"), "ok 00002"),
        (Line::Master("/d/b"), "ok 00004"),
        (Line::Master("/d/c"), "ok 00005"),
    ];
    let later = [
        (Line::Master("/a"), "ok 65534"),
        (Line::Master("/b"), "pfs full."),
        (Line::Slave("/d/b"), "pfs full."),
        (Line::Other("ls /d"), "ok 0"),
    ];
    let none = [
        (Line::Master("/a"), "pfs full."),
        (Line::Slave("/b"), "pfs full."),
    ];
    for numbers in [0, 2] {
        let other = first_other_over(rt.alloc(), &GAPS, numbers, &gaps)?;
        assert_eq!(rt; other.is_none(), true, "{numbers}: {other:?}");
    }
    let other = first_other_over(rt.alloc(), &GAPS, 65_534, &later)?;
    assert_eq!(rt; other.is_none(), true, "{other:?}");
    for numbers in [65_535, 65_536] {
        let other = first_other_over(rt.alloc(), &GAPS, numbers, &none)?;
        assert_eq!(rt; other.is_none(), true, "{numbers}: {other:?}");
    }
    Ok(())
}

#[test]
fn refusals_of_new_systems_come_in_their_order(rt: HostRuntime) -> Result<(), Fail> {
    let rows = [
        (Line::Master("a"), "bad path 0."),
        (Line::Slave("/"), "bad path 0."),
        (Line::Slave("/d//x"), "bad path 3."),
        (Line::Master("/@@0x00000000000000ff"), "bad path 0."),
        (
            Line::Master("/x@@0x00000000000000ff"),
            "future 0x0000000000000011.",
        ),
        (Line::Slave("/none/x@@0x0000000000000012"), "read only."),
        (Line::Master("/s@@0x0000000000000004/x"), "read only."),
        (Line::Master("/none/x"), "not found."),
        (Line::Slave("/f/x"), "not a directory."),
        (Line::Slave("/s/x"), "read only."),
        (Line::Master("/d"), "exists."),
        (Line::Slave("/s"), "exists."),
        (Line::Slave("/x"), "pfs full."),
    ];
    let other = first_other_over(rt.alloc(), &GAPS, 65_536, &rows)?;
    assert_eq!(rt; other.is_none(), true, "{other:?}");
    Ok(())
}

// The first other answer over a volume without room for payloads, of which as many big-blocks are
// free.
fn first_other_without_room(
    alloc: Global,
    free: u32,
    rows: &[(Line, &str)],
) -> Result<Option<(Line, Vec<u8>)>, Fail> {
    let mut volume = nothing(alloc, free);
    forge_all(alloc, &mut volume, &Fnv, &FRESH)?;
    fill_meta_zone(alloc, &mut volume)?;
    let mut volume = opened(volume);
    first_other(alloc, &mut volume, 0, rows)
}

#[test]
fn four_big_blocks_are_held_back_from_a_new_system(rt: HostRuntime) -> Result<(), Fail> {
    let none = [
        (Line::Master("/a"), "no space 0 1."),
        (Line::Slave("/a"), "no space 0 1."),
        (Line::Other("ls /"), "ok 0"),
    ];
    let four = [
        (Line::Master("/a"), "no space 4 1."),
        (Line::Slave("/a"), "no space 4 1."),
    ];
    let five = [
        (Line::Master("/a"), "ok 00001"),
        (Line::Slave("/b"), "ok 00002"),
    ];
    let other = first_other_without_room(rt.alloc(), 0, &none)?;
    assert_eq!(rt; other.is_none(), true, "{other:?}");
    let other = first_other_without_room(rt.alloc(), 4, &four)?;
    assert_eq!(rt; other.is_none(), true, "{other:?}");
    let other = first_other_without_room(rt.alloc(), 5, &five)?;
    assert_eq!(rt; other.is_none(), true, "{other:?}");
    Ok(())
}
