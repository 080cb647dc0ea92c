// Reblocks that end otherwise than by their work: a call of the disk fails, or their ticket is dropped.
use crate::run::Run;
use crate::shown::Shown;
use crate::test_disk::TestDisk;
use crate::volume::{filled_to, made, mounted};
use hm_types::NoMemory;
use std::alloc::Global;
use std::process::Abort;
use std::test::Fail;

// How far two append big-blocks of a new volume are filled: in one no call finds its room for nodes, and the other has room
// for two large pieces.
const FILLED: [(u32, u32); 2] = [(11, 7_340_032 + 4_096), (13, 8_257_536 - 16_384)];

// Nodes begin big-block 15 with the first line, and large pieces 16 with the fourth one. So a reblock chooses 11, with the
// root, and 13, with two pieces.
const SCRIPT: [(&str, &str); 5] = [
    ("touch /aaaa", "#2 ok"),
    ("fill /aaaa 0 20000 01", "#3 ok"),
    ("fill /aaaa 0 20000 02", "#4 ok"),
    ("write /aaaa 0 03", "#5 ok"),
    ("touch /daaa", "#6 ok"),
];

// A unit collects elements, one orders them, two move the pieces, one turns to the nodes, and one moves the root: how many
// big-blocks are free after so many units and a sync.
const FREE_AFTER: [(u32, &str); 7] = [
    (0, "ok 13 7"),
    (1, "ok 13 7"),
    (2, "ok 13 7"),
    (3, "ok 13 7"),
    (4, "ok 13 8"),
    (5, "ok 13 8"),
    (6, "ok 13 9"),
];

// The volume after the script, on its disk.
fn sparse(rt: &impl Abort, alloc: Global) -> Result<TestDisk, NoMemory> {
    let new = filled_to(rt, alloc, made(rt, alloc), &FILLED)?;
    let mut run = Run::new(rt, alloc, new);
    run.prints(rt, alloc, &SCRIPT)?;
    Ok(run.finished(rt))
}

// What the volume on a disk shows.
fn shown_on(rt: &impl Abort, alloc: Global, disk: &TestDisk) -> Result<Shown, NoMemory> {
    let mut core = mounted(rt, alloc, disk.copy(alloc)?);
    Shown::of(rt, alloc, &mut core)
}

// How many calls of its disk mount the volume, how many there are once it is reblocked, and how many after a sync.
fn calls_of(rt: &impl Abort, alloc: Global, disk: &TestDisk) -> Result<(u64, u64, u64), NoMemory> {
    let begun = Run::new(rt, alloc, disk.copy(alloc)?);
    let mut moved = Run::new(rt, alloc, disk.copy(alloc)?);
    moved.prints(rt, alloc, &[DONE])?;
    let mut synced = Run::new(rt, alloc, disk.copy(alloc)?);
    synced.prints(rt, alloc, &[DONE, ("sync", "#9 ok")])?;
    Ok((
        begun.stopped(rt).calls(),
        moved.stopped(rt).calls(),
        synced.stopped(rt).calls(),
    ))
}

const DONE: (&str, &str) = ("reblock 1", "#7 ok #8 done");

// The lines of a volume on which a call of the disk fails within a reblock, and within the sync after it.
const MOVE_FAILS: [(&str, &str); 2] = [("reblock 1", "#7 ok #8 media 0 1"), ("sync", "#9 ok")];

const SYNC_FAILS: [(&str, &str); 2] = [DONE, ("sync", "#9 media 0 1")];

// Runs lines on a volume of whose disk one call fails. It shows the same afterwards, a second reblock and a sync give all its
// space back, and it shows the same mounted anew.
fn goes_on_after(
    rt: &impl Abort,
    alloc: Global,
    disk: &TestDisk,
    shown: &Shown,
    call: u64,
    lines: &[(&str, &str)],
) -> Result<(), NoMemory> {
    let failing = disk.copy(alloc)?.failing(vec![in alloc; call]?);
    let mut run = Run::new(rt, alloc, failing);
    run.prints(rt, alloc, lines)?;
    let run = run.shows(rt, alloc, shown)?;
    is_emptied(rt, alloc, run, shown)
}

// A reblock and a sync give all space of the volume back, and it shows the same, also mounted anew.
fn is_emptied(rt: &impl Abort, alloc: Global, run: Run, shown: &Shown) -> Result<(), NoMemory> {
    let mut run = run;
    assert!(rt; run.line(rt, alloc, "reblock 1")?.ends_with(b" done"));
    run.replies(rt, alloc, &[("sync", "ok"), ("df", "ok 13 9")])?;
    let run = run.shows(rt, alloc, shown)?;
    let again = Run::new(rt, alloc, run.finished(rt));
    let mut again = again.shows(rt, alloc, shown)?;
    again.replies(rt, alloc, &[("df", "ok 13 9")])
}

// Each of the two pieces is read and written once, and nothing else is asked of the disk.
#[test]
fn a_reblock_in_which_the_disk_fails_ends_and_changes_no_view(rt: HostRuntime) -> Result<(), Fail> {
    let alloc = rt.alloc();
    let disk = sparse(&rt, alloc)?;
    let shown = shown_on(&rt, alloc, &disk)?;
    let (begun, moved, _) = calls_of(&rt, alloc, &disk)?;
    assert_eq!(rt; moved.saturating_sub(begun), 4);
    for call in begun.saturating_add(1)..=moved {
        goes_on_after(&rt, alloc, &disk, &shown, call, &MOVE_FAILS)?;
    }
    Ok(())
}

#[test]
fn a_sync_after_a_reblock_in_which_the_disk_fails_changes_no_view(
    rt: HostRuntime,
) -> Result<(), Fail> {
    let alloc = rt.alloc();
    let disk = sparse(&rt, alloc)?;
    let shown = shown_on(&rt, alloc, &disk)?;
    let (_, moved, synced) = calls_of(&rt, alloc, &disk)?;
    assert!(rt; moved < synced);
    for call in moved.saturating_add(1)..=synced {
        goes_on_after(&rt, alloc, &disk, &shown, call, &SYNC_FAILS)?;
    }
    Ok(())
}

// A reblock whose ticket is dropped stays open, and moves nothing more. All else goes on, what it has emptied comes back
// with a sync, and a reblock that is opened later empties the rest.
#[test]
fn a_core_goes_on_where_the_ticket_of_a_reblock_is_dropped(rt: HostRuntime) -> Result<(), Fail> {
    let alloc = rt.alloc();
    let disk = sparse(&rt, alloc)?;
    let shown = shown_on(&rt, alloc, &disk)?;
    for (units, free) in FREE_AFTER {
        let mut run = Run::new(&rt, alloc, disk.copy(alloc)?);
        run.asks(&rt, alloc, "reblock 1", "ok")?;
        for _ in 0..units {
            assert_eq!(rt; run.unit(&rt, alloc, 0)?, None);
        }
        run.forget(&rt, 0);
        run.replies(
            &rt,
            alloc,
            &[
                ("touch /faaa", "ok"),
                ("fill /faaa 0 20000 04", "ok"),
                ("rm /faaa", "ok"),
                ("sync", "ok"),
                ("df", free),
            ],
        )?;
        is_emptied(&rt, alloc, run, &shown)?;
    }
    Ok(())
}
