// Calls over a store that fails, and over damaged payloads.
ghost use Rattle.std.specs.Prelude.{IfOk};
ghost use Rattle.hm_calls_tests.specs.Tests.{IsReady};

use crate::lines::command_of;
use crate::metered::Metered;
use crate::testing::{FRESH, Item, Volume, ask, reply_to, volume_of};
use hm_dirs::Fnv;
use hm_key::{Base, Element, HasElements, HasRoom, MemStore};
use hm_model::push_answer;
use hm_records::{DIRECTORY, FILE};
use hm_types::{BAD_PAYLOAD, Fault, GREATEST_ID, HOff};
use std::alloc::Global;
use std::test::Fail;

// A directory `d` with a file `f` of two links, the other one `g`, a softlink `l`, and a file `h` of four
// blocks.
const LINES: [&str; 7] = [
    "mkdir /d",
    "touch /d/f",
    "ln /d/f /g",
    "symlink t /l",
    "mkdir /e",
    "touch /h",
    "fill /h 0 60000 62",
];

fn some_names(alloc: Global) -> Result<Volume<MemStore>, Fail>
    ensures { IfOk result (λ volume. IsReady (⟦<MemStore as HasElements>⟧.elements volume.store)
        (⟦<MemStore as HasRoom>⟧.extents volume.store) volume.next) }
{
    let mut volume = volume_of(alloc, &Fnv, &FRESH)?;
    for line in LINES {
        ask(alloc, &mut volume, &Fnv, line)?;
    }
    Ok(volume)
}

// The fault of a call of which some calls of the store come before the one that fails, or its
// answer.
fn answer_or_fault(
    alloc: Global,
    line: &str,
    left: u64,
    is_media: bool,
) -> Result<Result<Vec<u8>, Fault>, Fail> {
    let volume = some_names(alloc)?;
    let mut metered = Volume {
        store: Metered::new(volume.store, left, is_media),
        next: volume.next,
    };
    if metered.next == 0 || metered.next > GREATEST_ID {
        return Err("no id")?;
    }
    let command = command_of(alloc, line)?;
    match reply_to(alloc, &mut metered, &Fnv, &command) {
        Err(fault) => Ok(Err(fault)),
        Ok(reply) => {
            let mut got = Vec::new(alloc);
            push_answer(alloc, &mut got, &command, &reply)?;
            Ok(Ok(got))
        }
    }
}

// The first outcome that is neither the fault nor the due answer, and after how many calls, if there
// is one; and how many calls of the store the line makes.
fn first_other_outcome(
    alloc: Global,
    line: &str,
    due: &str,
    is_media: bool,
) -> Result<(Option<u64>, u64), Fail> {
    let fault = if is_media {
        Fault::Media {
            before: 0,
            after: 1,
        }
    } else {
        Fault::NoMemory
    };
    for left in 0..1_000 {
        match answer_or_fault(alloc, line, left, is_media)? {
            Ok(got) if got.as_slice() == due.as_bytes() => return Ok((None, left)),
            Err(met) if met == fault => {}
            _ => return Ok((Some(left), left)),
        }
    }
    Ok((Some(1_000), 1_000))
}

#[test]
fn each_call_of_a_store_that_fails_is_told(rt: HostRuntime) -> Result<(), Fail> {
    for (line, due) in [
        ("mkdir /x", "ok"),
        ("touch /d/x", "ok"),
        ("symlink t /x", "ok"),
        ("snapshot /x", "ok"),
        ("ln /g /x", "ok"),
        ("mv /d/f /x", "ok"),
        ("mv /l /g", "ok"),
        ("rm /g", "ok"),
        ("rm /l", "ok"),
        ("rmdir /e", "ok"),
        ("rmdir /d", "not empty"),
        ("write /h 20000 6161", "ok"),
        ("fill /h 100 60000 61", "ok"),
        ("truncate /h 20000", "ok"),
        ("truncate /h 60000", "ok"),
        ("write /g 15728640 61", "too big"),
        ("rm /h", "ok"),
        ("mv /g /h", "ok"),
        ("cat /h 59999 9", "ok 1 62"),
        ("ls /", "ok 5 d:d d:e f:g f:h l:l"),
        ("stat /d/f", "ok f 0x0000000000000004 0 2"),
        ("readlink /l", "ok t"),
    ] {
        for is_media in [false, true] {
            let (other, calls) = first_other_outcome(rt.alloc(), line, due, is_media)?;
            assert_eq!(rt; other, None, "{line}");
            assert!(rt; calls > 0, "{line}");
        }
    }
    Ok(())
}

// Whether an element of before is there still, with its bytes: it may be closed by an id.
fn is_kept(old: &Element, after: &[Element], id: u64) -> bool {
    after.iter().any(|e| {
        let is_closed = e.base.delete == id && old.base.delete == 0;
        let base = Base {
            delete: old.base.delete,
            ..e.base
        };
        let same = Element { base, ..*e };
        same == *old && (is_closed || e.base.delete == old.base.delete)
    })
}

// Whether a store lost nothing by a call of this id that failed, and has nothing new but by that.
fn has_lost_nothing(before: &[Element], after: &[Element], id: u64) -> bool {
    before.iter().all(|old| is_kept(old, after, id))
        && after.iter().filter(|e| e.base.create != id).count() == before.len()
}

// Whether a line that writes loses nothing where the medium fails after some calls of the store; or
// nothing, where it does not fail.
fn loses_nothing(alloc: Global, line: &str, left: u64) -> Result<Option<bool>, Fail> {
    let volume = some_names(alloc)?;
    let before = Vec::from_slice(alloc, volume.store.elements())?;
    let id = volume.next;
    let mut metered = Volume {
        store: Metered::new(volume.store, left, true),
        next: id,
    };
    if metered.next == 0 || metered.next > GREATEST_ID {
        return Err("no id")?;
    }
    let command = command_of(alloc, line)?;
    if reply_to(alloc, &mut metered, &Fnv, &command).is_ok() {
        return Ok(None);
    }
    let after = metered.store.store.elements();
    Ok(Some(has_lost_nothing(&before, after, id)))
}

#[test]
fn a_write_of_four_blocks_that_fails_loses_nothing(rt: HostRuntime) -> Result<(), Fail> {
    for line in ["fill /h 100 60000 61", "truncate /h 100", "rm /h"] {
        let mut faults: u64 = 0;
        for left in 0..1_000 {
            let Some(is_whole) = loses_nothing(rt.alloc(), line, left)? else {
                break;
            };
            assert!(rt; is_whole, "{line}, after {left} calls");
            faults = faults.saturating_add(1);
        }
        assert!(rt; faults > 20, "{line}");
        assert!(rt; faults < 1_000, "{line}");
    }
    Ok(())
}

// The fault of a line over some elements, if it ends in one, and whether the store has then the
// elements that it had.
fn fault_over(alloc: Global, items: &[Item], line: &str) -> Result<(Option<Fault>, bool), Fail> {
    let mut volume = volume_of(alloc, &Fnv, items)?;
    let was = Vec::from_slice(alloc, volume.store.elements())?;
    if volume.next == 0 || volume.next > GREATEST_ID {
        return Err("no id")?;
    }
    let command = command_of(alloc, line)?;
    let fault = reply_to(alloc, &mut volume, &Fnv, &command).err();
    Ok((fault, volume.store.elements() == was.as_slice()))
}

// The place of the payload that is 3 bytes long.
fn cut_place(alloc: Global, items: &[Item]) -> Result<Option<HOff>, Fail> {
    let volume = volume_of(alloc, &Fnv, items)?;
    for element in volume.store.elements() {
        if element.len == 3 {
            return Ok(Some(element.payload));
        }
    }
    Ok(None)
}

// Whether a line meets the damage of the payload that was cut, and leaves the store as it was.
fn is_damage(alloc: Global, cut: Item, line: &str) -> Result<bool, Fail> {
    let items = [
        Item::Master(0),
        Item::Object(0, 1, DIRECTORY, 1),
        Item::Object(0, 3, FILE, 1),
        Item::Entry(0, 1, "f", 0, 3),
        Item::Link(5, 2),
        Item::Entry(0, 1, "s", 0, 5),
        Item::Entry(0, 1, "c", 0, 9),
        cut,
    ];
    let Some(at) = cut_place(alloc, &items)? else {
        return Err("no payload of 3 bytes")?;
    };
    let (fault, is_same) = fault_over(alloc, &items, line)?;
    let damage = Fault::Damaged {
        at,
        kind: BAD_PAYLOAD,
    };
    Ok(fault == Some(damage) && is_same)
}

#[test]
fn damage_is_told_with_its_place_and_nothing_changes(rt: HostRuntime) -> Result<(), Fail> {
    let inode = Item::CutObject(0, 9);
    let entry = Item::CutEntry(0, 1, "e");
    let record = Item::CutRecord(2);
    for (cut, line, wanted) in [
        (inode, "stat /c", true),
        (inode, "rm /c", true),
        (inode, "rmdir /c", true),
        (inode, "mkdir /c/x", true),
        (inode, "touch /x/y", false),
        (inode, "ln /c /x", true),
        (inode, "mv /c /x", true),
        (inode, "mv /f /c", true),
        (inode, "ls /", true),
        (inode, "readlink /c", true),
        (inode, "stat /f", false),
        (entry, "ls /", true),
        (entry, "stat /e", true),
        (entry, "touch /e", true),
        (entry, "symlink t /e", true),
        (entry, "snapshot /e", true),
        (entry, "rm /e", true),
        (entry, "stat /f", false),
        (record, "ls /s", true),
        (record, "mkdir /s/x", true),
        (record, "readlink /s", true),
        (record, "stat /s", false),
        (record, "stat /f", false),
    ] {
        assert_eq!(rt; is_damage(rt.alloc(), cut, line)?, wanted, "{line}");
    }
    Ok(())
}
