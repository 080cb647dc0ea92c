// Prunes that end otherwise than by their work, and the space that comes back.
use crate::elements::{ON, dead, elements_on};
use crate::run::{Run, is_text};
use crate::test_disk::TestDisk;
use crate::volume::{header_of, made};
use hm_disk::Disk;
use hm_types::{GREATEST_ID, Id, NoMemory};
use std::alloc::Global;
use std::process::Abort;
use std::test::Fail;

// A file that is written ten times, and a directory that names the id of its third version.
const SCRIPT: [(&str, &str); 13] = [
    ("touch /f", "#2 ok"),
    ("mkdir /s", "#3 ok"),
    ("write /f 0 61", "#4 ok"),
    ("write /f 0 62", "#5 ok"),
    ("write /f 0 63", "#6 ok"),
    ("write /f 0 64", "#7 ok"),
    ("write /f 0 65", "#8 ok"),
    ("write /f 0 66", "#9 ok"),
    ("write /f 0 67", "#a ok"),
    ("write /f 0 68", "#b ok"),
    ("symlink @@#6 /s/a", "#c ok"),
    ("symlink @@#a /s/b", "#d ok"),
    ("write /f 0 69", "#e ok"),
];

const LAST: u64 = 14;

// What is kept by the directory, and how many elements are dead for that: the empty file, and its bytes as of 4, 5,
// 7, 8 and 9.
const KEPT: [(u64, u64); 2] = [(6, 6), (10, ON)];

const DEAD: usize = 6;

// How many are closed: those, and the bytes as of 6, 10 and 11.
const CLOSED: usize = 9;

// The volume after it, on its disk, with this last id.
fn late(rt: &impl Abort, alloc: Global, last: u64) -> Result<TestDisk, NoMemory> {
    let mut run = Run::new(rt, alloc, made(rt, alloc));
    run.prints(rt, alloc, &SCRIPT)?;
    let mut disk = run.finished(rt);
    let (slot, _) = header_of(rt, &mut disk);
    let place = 16_384 * u64::from(slot) + 24;
    assert_eq!(rt; disk.write_at(place, &last.to_le_bytes()), Ok(()));
    disk.copy(alloc)
}

// The line of a prune on a volume with this last id, what is printed, and what is dead then for what it keeps.
type Spent = (
    u64,
    &'static str,
    &'static str,
    &'static [(u64, u64)],
    usize,
);

const SPENT: [Spent; 6] = [
    (
        GREATEST_ID - 2,
        "prune /s",
        "#7ffffffffffffffe ok #7fffffffffffffff done",
        &KEPT,
        0,
    ),
    (
        GREATEST_ID - 1,
        "prune /s",
        "#7fffffffffffffff ok - ids spent",
        &KEPT,
        0,
    ),
    (GREATEST_ID, "prune /s", "- ids spent", &KEPT, DEAD),
    (
        GREATEST_ID - 2,
        "prune-everything /",
        "#7ffffffffffffffe ok #7fffffffffffffff done",
        &PRESENT,
        0,
    ),
    (
        GREATEST_ID - 1,
        "prune-everything /f",
        "#7fffffffffffffff ok - ids spent",
        &PRESENT,
        0,
    ),
    (
        GREATEST_ID,
        "prune-everything /",
        "- ids spent",
        &PRESENT,
        CLOSED,
    ),
];

const PRESENT: [(u64, u64); 1] = [(GREATEST_ID - 1, ON)];

#[test]
fn a_prune_without_an_id_for_its_ending_removes_what_is_dead(rt: HostRuntime) -> Result<(), Fail> {
    let alloc = rt.alloc();
    for (last, line, want, kept, left) in SPENT {
        let disk = late(&rt, alloc, last)?;
        let mut run = Run::new(&rt, alloc, disk);
        run.prints(&rt, alloc, &[(line, want)])?;
        if last >= GREATEST_ID - 1 {
            run.prints(
                &rt,
                alloc,
                &[("touch /x", "- ids spent"), ("sync", "- ids spent")],
            )?;
        }
        assert_eq!(rt; run.last(), Id(last.saturating_add(2).min(GREATEST_ID)));
        let mut disk = run.finished(&rt);
        let elements = elements_on(&rt, alloc, &mut disk)?;
        assert_eq!(rt; dead(&elements, 0, kept), left, "{line}");
    }
    Ok(())
}

// Of two prunes the one that comes to its end first has the last id.
#[test]
fn the_last_id_is_for_the_ending_that_comes_first(rt: HostRuntime) -> Result<(), Fail> {
    let alloc = rt.alloc();
    for first in [0, 1] {
        let disk = late(&rt, alloc, GREATEST_ID - 3)?;
        let mut run = Run::new(&rt, alloc, disk);
        for (line, want) in [
            ("prune /s", "#7ffffffffffffffd ok"),
            ("prune-everything /", "#7ffffffffffffffe ok"),
        ] {
            is_text(&rt, alloc, &run.ask(&rt, alloc, line)?, want, line)?;
        }
        let (_, ending) = run.end(&rt, alloc, first)?;
        is_text(&rt, alloc, &ending, "#7fffffffffffffff done", "the first")?;
        let (_, ending) = run.end(&rt, alloc, 0)?;
        is_text(&rt, alloc, &ending, "- ids spent", "the second")?;
        let mut disk = run.finished(&rt);
        let elements = elements_on(&rt, alloc, &mut disk)?;
        assert_eq!(rt; dead(&elements, 0, &PRESENT), 0);
    }
    Ok(())
}

// How many calls of its disk mount the volume, and how many there are once a prune is opened.
fn calls_of(rt: &impl Abort, alloc: Global, disk: &TestDisk) -> Result<(u64, u64), NoMemory> {
    let mounted = Run::new(rt, alloc, disk.copy(alloc)?);
    let mut opened = Run::new(rt, alloc, disk.copy(alloc)?);
    opened.asks(rt, alloc, "prune /s", "ok")?;
    Ok((mounted.stopped(rt).calls(), opened.stopped(rt).calls()))
}

// The lines of a volume on which a call of the disk fails within the opening of a prune: it is refused, and all is kept
// still. The next one is done.
const FAILED: [(&str, &str); 6] = [
    ("prune /s", "#f media 0 1"),
    ("pfs-status /", "#10 ok master 00000 0000000000000000 1"),
    ("cat /@@#5/f 0 1", "#11 ok 1 62"),
    ("prune /s", "#12 ok #13 done"),
    ("cat /@@#5/f 0 1", "#14 not retained"),
    ("cat /@@#6/f 0 1", "#15 ok 1 63"),
];

#[test]
fn an_opening_in_which_the_disk_fails_opens_nothing(rt: HostRuntime) -> Result<(), Fail> {
    let alloc = rt.alloc();
    let disk = late(&rt, alloc, LAST)?;
    let (mounted, opened) = calls_of(&rt, alloc, &disk)?;
    assert!(rt; mounted < opened);
    for call in mounted.saturating_add(1)..=opened {
        let failing = disk.copy(alloc)?.failing(vec![in alloc; call]?);
        let mut run = Run::new(&rt, alloc, failing);
        run.prints(&rt, alloc, &FAILED)?;
        let mut disk = run.finished(&rt);
        let elements = elements_on(&rt, alloc, &mut disk)?;
        assert_eq!(rt; dead(&elements, 0, &KEPT), 0, "{call}");
    }
    Ok(())
}

// Units ask the disk for nothing: what they read and change stands in memory until the next flush. So a prune is done
// on a disk that fails from its opening on, and what the disk holds is as before.
#[test]
fn a_prune_is_done_on_a_disk_that_fails(rt: HostRuntime) -> Result<(), Fail> {
    let alloc = rt.alloc();
    let disk = late(&rt, alloc, LAST)?;
    let (_, opened) = calls_of(&rt, alloc, &disk)?;
    let mut fails = Vec::new(alloc);
    for call in 1..=9 {
        fails.push(opened.saturating_add(call))?;
    }
    let mut run = Run::new(&rt, alloc, disk.copy(alloc)?.failing(fails));
    run.prints(
        &rt,
        alloc,
        &[
            ("prune /s", "#f ok #10 done"),
            ("cat /@@#6/f 0 1", "#11 media 0 1"),
            ("sync", "#12 media 1 2"),
        ],
    )?;
    let mut run = Run::new(&rt, alloc, run.stopped(&rt).copy(alloc)?);
    assert_eq!(rt; run.last(), Id(LAST));
    run.prints(
        &rt,
        alloc,
        &[
            ("cat /@@#5/f 0 1", "#f ok 1 62"),
            ("prune /s", "#10 ok #11 done"),
        ],
    )?;
    Ok(())
}

// Each fill takes four pieces of 16,384 bytes, and begins a big-block where it finds less than 131,072 bytes in that of
// large pieces: so 127 of them fill one. What the disk still refers to comes back with the sync.
#[test]
fn the_space_of_what_was_pruned_comes_back_with_the_next_sync(rt: HostRuntime) -> Result<(), Fail> {
    let alloc = rt.alloc();
    let mut run = Run::new(&rt, alloc, made(&rt, alloc));
    run.replies(&rt, alloc, &[("touch /f", "ok"), ("df", "ok 13 9")])?;
    for (fills, df) in [(127, "ok 13 9"), (127, "ok 13 8"), (1, "ok 13 7")] {
        for _ in 0..fills {
            run.replies(&rt, alloc, &[("fill /f 0 65536 61", "ok")])?;
        }
        run.replies(&rt, alloc, &[("df", df)])?;
    }
    run.replies(&rt, alloc, &[("sync", "ok"), ("df", "ok 13 7")])?;
    let got = run.line(&rt, alloc, "prune-everything /")?;
    assert_eq!(rt; got.ends_with(b" done"), true);
    let opening = run.last().0.saturating_sub(1);
    run.replies(
        &rt,
        alloc,
        &[("df", "ok 13 7"), ("sync", "ok"), ("df", "ok 13 9")],
    )?;
    let mut disk = run.finished(&rt);
    let elements = elements_on(&rt, alloc, &mut disk)?;
    assert_eq!(rt; dead(&elements, 0, &[(opening, ON)]), 0);
    // The record of the PFS, the inodes of the root and of the file, its name, and its bytes.
    assert_eq!(rt; elements.len(), 8);
    Run::new(&rt, alloc, disk).replies(&rt, alloc, &[("df", "ok 13 9")])?;
    Ok(())
}
