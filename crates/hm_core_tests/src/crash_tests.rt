// Crashes within a flush, between whose stages calls go on, and within the recoveries that follow: each image is
// mounted, and compared with a volume that ran the calls up to its boundary alone.
use crate::asks::Ask;
use crate::crashes::{Mounts, Part, Volumes, mount_between};
use crate::shown::Shown;
use crate::test_disk::TestDisk;
use crate::volume::{
    CALLS_OF_MOUNT, Volume, answered, answers, do_all, filled_to, finished, has_free, made,
    mounted, stopped, synced,
};
use hm_model::Reply;
use hm_types::{Id, NoMemory};
use std::alloc::Global;
use std::process::Abort;
use std::test::Fail;

// What is committed before the flush, with the ids 2 to 10.
const FIRST: [Ask; 9] = [
    Ask::Touch(0),
    Ask::Fill(0, 1),
    Ask::Mkdir(1),
    Ask::Touch(2),
    Ask::Write(2),
    Ask::Touch(3),
    Ask::Fill(3, 3),
    Ask::Rm(2),
    Ask::Touch(4),
];

// How often the last of these files grows then, so that the tree has a root above its leaves.
const GROWS: u8 = 24;

const COMMITTED: Id = Id(34);

// What the flush brings, after a sync with the id 35.
const SECOND: [Ask; 5] = [
    Ask::Fill(0, 4),
    Ask::Truncate(3, 5),
    Ask::Touch(5),
    Ask::Write(5),
    Ask::Touch(6),
];

const FROZEN: Id = Id(40);

// Four pages changed, all of them live: the root, two leaves and one of layer 2.
const STAGES: u32 = 17;

// After so many of them the old bytes of half the pages are in the log, before so many the header is opened that names
// it, and after so many two pages are placed, and three, and all of them.
const HALF_LOGGED: u32 = 2;

const LOGGED: u32 = 4;

const ARMED: u32 = 9;

const TWO_PLACED: u32 = 11;

const THREE_PLACED: u32 = 12;

const PLACED: u32 = 13;

// What goes on between two stages.
#[derive(Clone, Copy)]
enum Between {
    // A call is done.
    Done(Ask),
    // One that begins a new big-block is done, of so many free ones.
    Begins(Ask, u32),
    // One fails after so many faults, and is dropped.
    Fails(Ask, u64),
}

// After each stage but the last. The root and all leaves are frozen, and change again.
const BETWEEN: [Between; 16] = [
    // Freeze, and four of Undo.
    Between::Done(Ask::Touch(10)),
    Between::Done(Ask::Fill(0, 9)),
    Between::Begins(Ask::Fill(3, 6), 9),
    Between::Done(Ask::Rm(10)),
    Between::Done(Ask::Truncate(3, 0)),
    // UndoSync, and three of Arm.
    Between::Fails(Ask::Fill(5, 7), 0),
    Between::Done(Ask::Touch(11)),
    Between::Done(Ask::Write(6)),
    Between::Done(Ask::Fill(0, 8)),
    // Four of Place, and PlaceSync.
    Between::Begins(Ask::Fill(3, 2), 8),
    Between::Fails(Ask::Fill(5, 7), 1),
    Between::Done(Ask::Touch(12)),
    Between::Done(Ask::Truncate(0, 5)),
    Between::Done(Ask::Rm(11)),
    // Two of Commit.
    Between::Done(Ask::Write(5)),
    Between::Done(Ask::Truncate(3, 1)),
];

// How many images there are at least in each part of the flush. After each change of the disk there is the one as it reads,
// and for each unsettled write the two that lose and tear it. A file that is made writes two payloads, as one does that has
// its first bytes or is cut within a block; a fill of two blocks two, and one more where the size changes; and a stage of
// Undo, Arm, Place or Commit one range. UndoSync, PlaceSync and each of Arm and Commit settle all.
//
// From 10 unsettled writes to 15, to 20, and to 22.
const BEGUN: u32 = 21 + 23 + 25 + 27 + 29 + 31;

const WRITTEN: u32 = 31 + 33 + 35 + 37 + 39 + 41;

const SETTLED: u32 = 41 + 43 + 45 + (1 + 3 + 5) + 7 + (1 + 3 + 5) + 7 + (1 + 3 + 5);

// All are recovered where the header names the log that counts, and most before that is settled.
const COUNTING: u32 = 5 + 7 + (1 + 3 + 5);

const COUNTING_RECOVERED: u32 = 5 + (1 + 3 + 5);

// While pages are placed there are from 2 unsettled writes to 9, to 12, and to 15: each test takes a few numbers of changes,
// and has their images beside it.

// All are recovered before the last stage, which writes after two payloads, and one at least where that write is lost.
const COMMITTING: u32 = COMMITTING_BEFORE + 7 + 1;

const COMMITTING_RECOVERED: u32 = COMMITTING_BEFORE + 1;

const COMMITTING_BEFORE: u32 = 1 + 3 + (1 + 3) + 5 + (1 + 3 + 5);

// The calls of the disk that fail: of each call that fails the second write of its bytes.
const FAILS: [u64; 2] = [CALLS_OF_MOUNT + 383, CALLS_OF_MOUNT + 431];

// How far the append big-blocks of zones 10 and 11 are filled. To the reserve of 131,072 bytes one lacks three blocks of
// 16,384 bytes, and the other 20,000 bytes.
const FILLED: [(u32, u32); 2] = [(13, 8_257_536 - 3 * 16_384), (14, 8_257_536 - 20_000)];

// A new volume two of whose append big-blocks are nearly filled.
pub fn nearly_filled(rt: &impl Abort, alloc: Global) -> Result<TestDisk, NoMemory> {
    filled_to(rt, alloc, made(rt, alloc), &FILLED)
}

// A volume as it is to be committed first.
fn used(rt: &impl Abort, alloc: Global, disk: TestDisk) -> Result<Volume, NoMemory> {
    let mut core = mounted(rt, alloc, disk);
    do_all(rt, alloc, &mut core, &FIRST)?;
    for byte in 1..=GROWS {
        do_all(rt, alloc, &mut core, &[Ask::Grow(4, byte)])?;
    }
    Ok(core)
}

// The same before its flush.
fn begun(rt: &impl Abort, alloc: Global, disk: TestDisk) -> Result<Volume, NoMemory> {
    let mut core = used(rt, alloc, disk)?;
    let want = synced(COMMITTED.0);
    assert!(rt; answered(rt, alloc, &mut core, Ask::Sync, &want)?.is_some());
    do_all(rt, alloc, &mut core, &SECOND)?;
    Ok(core)
}

// What goes on between two stages. Where no call of the disk fails, another that does nothing stands for the call that
// is dropped.
fn go_on(
    rt: &impl Abort,
    alloc: Global,
    core: &mut Volume,
    between: Between,
    fails: bool,
) -> Result<(), NoMemory> {
    match between {
        Between::Done(ask) => do_all(rt, alloc, core, &[ask]),
        Between::Begins(ask, free) => {
            has_free(rt, alloc, core, free)?;
            do_all(rt, alloc, core, &[ask])?;
            has_free(rt, alloc, core, free.saturating_sub(1))
        }
        Between::Fails(ask, before) if fails => {
            let after = before.saturating_add(1);
            let want = Reply::Media { before, after };
            assert!(rt; answers(rt, alloc, core, ask, &want)?, "{before}");
            Ok(())
        }
        Between::Fails(..) => {
            assert!(rt; answers(rt, alloc, core, Ask::Touch(0), &Reply::Exists)?);
            Ok(())
        }
    }
}

// A volume after so many stages of its flush, between which calls went on.
fn flushed(
    rt: &impl Abort,
    alloc: Global,
    new: &TestDisk,
    stages: u32,
) -> Result<Volume, NoMemory> {
    let fails = Vec::from_slice(alloc, &FAILS)?;
    let mut core = begun(rt, alloc, new.copy(alloc)?.failing(fails))?;
    for stage in 0..stages {
        assert_eq!(rt; core.end_stage(), Ok(false), "{stage}");
        if let Some(between) = BETWEEN.get(stage as usize) {
            assert_eq!(rt; core.boundary(), COMMITTED);
            go_on(rt, alloc, &mut core, *between, true)?;
        }
    }
    Ok(core)
}

// The calls that went on between the stages are all there once the volume is flushed again: it shows what one shows
// that ran them all alone, with one in place of each dropped call that does nothing.
fn ends_as_alone(rt: &impl Abort, alloc: Global, new: &TestDisk) -> Result<(), NoMemory> {
    let mut other = begun(rt, alloc, new.copy(alloc)?)?;
    for between in BETWEEN {
        go_on(rt, alloc, &mut other, between, false)?;
    }
    let shown = Shown::of(rt, alloc, &mut other)?;
    let core = flushed(rt, alloc, new, STAGES)?;
    assert_eq!(rt; core.boundary(), FROZEN);
    let mut core = mounted(rt, alloc, finished(rt, core));
    assert_eq!(rt; core.last(), shown.last);
    shown.is_of(rt, alloc, &mut core)
}

// What a volume shows once its use was ended.
fn shown_alone(rt: &impl Abort, alloc: Global, core: Volume) -> Result<Shown, NoMemory> {
    let mut core = mounted(rt, alloc, finished(rt, core));
    Shown::of(rt, alloc, &mut core)
}

// The volumes that ran the calls up to the committed and the frozen boundary alone.
fn volumes_alone(rt: &impl Abort, alloc: Global, new: &TestDisk) -> Result<Volumes, NoMemory> {
    let committed = shown_alone(rt, alloc, used(rt, alloc, new.copy(alloc)?)?)?;
    let frozen = shown_alone(rt, alloc, begun(rt, alloc, new.copy(alloc)?)?)?;
    assert_eq!(rt; (committed.last, frozen.last), (COMMITTED, FROZEN));
    Ok(Volumes { committed, frozen })
}

// How many changes of the disk there are after so many stages and what follows them.
fn changes_of(
    rt: &impl Abort,
    alloc: Global,
    new: &TestDisk,
    stages: u32,
) -> Result<usize, NoMemory> {
    Ok(stopped(rt, flushed(rt, alloc, new, stages)?).changes())
}

// Mounts what crashes may leave in a part of the flush from the end of one of these stages to that of the other: so many
// images at least.
fn mount_stages(
    rt: &impl Abort,
    alloc: Global,
    from: u32,
    to: u32,
    part: Part,
    least: u32,
) -> Result<Mounts, NoMemory> {
    let new = nearly_filled(rt, alloc)?;
    let volumes = volumes_alone(rt, alloc, &new)?;
    let disk = stopped(rt, flushed(rt, alloc, &new, STAGES)?);
    let first = changes_of(rt, alloc, &new, from)?;
    let last = changes_of(rt, alloc, &new, to)?;
    let mounts = mount_between(
        rt,
        alloc,
        &volumes,
        &disk,
        (first, last),
        part,
        disk.changes(),
    )?;
    assert!(rt; least <= mounts.images, "{mounts:?}");
    Ok(mounts)
}

// Mounts what crashes may leave in a part of the flush from the end of the first of these stages to that of the other: so
// many images at least, all of which are recovered.
fn recover_all(
    rt: &impl Abort,
    alloc: Global,
    stages: (u32, u32),
    part: Part,
    least: u32,
) -> Result<(), NoMemory> {
    let mounts = mount_stages(rt, alloc, stages.0, stages.1, part, least)?;
    assert_eq!(rt; mounts.recovered, mounts.images);
    Ok(())
}

#[test]
fn a_flush_with_calls_between_its_stages_ends_as_alone(rt: HostRuntime) -> Result<(), Fail> {
    let alloc = rt.alloc();
    ends_as_alone(&rt, alloc, &nearly_filled(&rt, alloc)?)?;
    Ok(())
}

#[test]
fn a_crash_while_the_log_is_begun_leaves_the_old_volume(rt: HostRuntime) -> Result<(), Fail> {
    let mounts = mount_stages(&rt, rt.alloc(), 0, HALF_LOGGED, Part::All, BEGUN)?;
    assert_eq!(rt; mounts.recovered, 0);
    Ok(())
}

#[test]
fn a_crash_while_the_log_is_written_leaves_the_old_volume(rt: HostRuntime) -> Result<(), Fail> {
    let mounts = mount_stages(&rt, rt.alloc(), HALF_LOGGED, LOGGED, Part::All, WRITTEN)?;
    assert_eq!(rt; mounts.recovered, 0);
    Ok(())
}

#[test]
fn a_crash_before_the_log_counts_leaves_the_old_volume(rt: HostRuntime) -> Result<(), Fail> {
    let mounts = mount_stages(&rt, rt.alloc(), LOGGED, ARMED - 1, Part::All, SETTLED)?;
    assert_eq!(rt; mounts.recovered, 0);
    Ok(())
}

#[test]
fn a_crash_as_the_log_comes_to_count_leaves_the_old_volume(rt: HostRuntime) -> Result<(), Fail> {
    let mounts = mount_stages(&rt, rt.alloc(), ARMED - 1, ARMED, Part::All, COUNTING)?;
    assert!(rt; COUNTING_RECOVERED <= mounts.recovered, "{mounts:?}");
    Ok(())
}

#[test]
fn a_crash_while_two_pages_are_placed_leaves_the_old_volume_in_part_1(
    rt: HostRuntime,
) -> Result<(), Fail> {
    let part = Part::Some { after: 0, most: 4 };
    recover_all(&rt, rt.alloc(), (ARMED, TWO_PLACED), part, 5 + 7 + 9 + 11)?;
    Ok(())
}

#[test]
fn a_crash_while_two_pages_are_placed_leaves_the_old_volume_in_part_2(
    rt: HostRuntime,
) -> Result<(), Fail> {
    let part = Part::Some { after: 4, most: 2 };
    recover_all(&rt, rt.alloc(), (ARMED, TWO_PLACED), part, 13 + 15)?;
    Ok(())
}

#[test]
fn a_crash_while_two_pages_are_placed_leaves_the_old_volume_in_part_3(
    rt: HostRuntime,
) -> Result<(), Fail> {
    let part = Part::Rest(6);
    recover_all(&rt, rt.alloc(), (ARMED, TWO_PLACED), part, 17 + 19)?;
    Ok(())
}

#[test]
fn a_crash_while_the_third_page_is_placed_leaves_the_old_volume_in_part_1(
    rt: HostRuntime,
) -> Result<(), Fail> {
    let part = Part::Some { after: 0, most: 2 };
    recover_all(&rt, rt.alloc(), (TWO_PLACED, THREE_PLACED), part, 19 + 21)?;
    Ok(())
}

#[test]
fn a_crash_while_the_third_page_is_placed_leaves_the_old_volume_in_part_2(
    rt: HostRuntime,
) -> Result<(), Fail> {
    let part = Part::Rest(2);
    recover_all(&rt, rt.alloc(), (TWO_PLACED, THREE_PLACED), part, 23 + 25)?;
    Ok(())
}

#[test]
fn a_crash_while_the_last_page_is_placed_leaves_the_old_volume_in_part_1(
    rt: HostRuntime,
) -> Result<(), Fail> {
    let part = Part::Some { after: 0, most: 1 };
    recover_all(&rt, rt.alloc(), (THREE_PLACED, PLACED), part, 25)?;
    Ok(())
}

#[test]
fn a_crash_while_the_last_page_is_placed_leaves_the_old_volume_in_part_2(
    rt: HostRuntime,
) -> Result<(), Fail> {
    let part = Part::Some { after: 1, most: 1 };
    recover_all(&rt, rt.alloc(), (THREE_PLACED, PLACED), part, 27)?;
    Ok(())
}

#[test]
fn a_crash_while_the_last_page_is_placed_leaves_the_old_volume_in_part_3(
    rt: HostRuntime,
) -> Result<(), Fail> {
    let part = Part::Some { after: 2, most: 1 };
    recover_all(&rt, rt.alloc(), (THREE_PLACED, PLACED), part, 29)?;
    Ok(())
}

#[test]
fn a_crash_while_the_last_page_is_placed_leaves_the_old_volume_in_part_4(
    rt: HostRuntime,
) -> Result<(), Fail> {
    let part = Part::Rest(3);
    recover_all(&rt, rt.alloc(), (THREE_PLACED, PLACED), part, 31)?;
    Ok(())
}

#[test]
fn a_crash_before_the_header_changes_leaves_the_old_volume(rt: HostRuntime) -> Result<(), Fail> {
    let part = Part::Some { after: 0, most: 1 };
    recover_all(&rt, rt.alloc(), (PLACED, STAGES), part, 31)?;
    Ok(())
}

#[test]
fn a_crash_while_the_header_changes_leaves_one_of_two_volumes(rt: HostRuntime) -> Result<(), Fail> {
    let mounts = mount_stages(&rt, rt.alloc(), PLACED, STAGES, Part::Rest(1), COMMITTING)?;
    assert!(rt; COMMITTING_RECOVERED <= mounts.recovered, "{mounts:?}");
    Ok(())
}
