// Crashes within two flushes, after each of whose stages a unit of a prune is done, and calls go on: each image is mounted,
// and compared with a volume that ran the same calls and units alone.
use crate::between::{Between, Flush, Stretch, go_on_by, make_stages, mount_runs, shown_of};
use crate::crash_tests::nearly_filled;
use crate::crashes::{Mounts, Part, Volumes};
use crate::elements::{ON, dead, elements_on};
use crate::run::Run;
use crate::test_disk::TestDisk;
use crate::volume::{has_free, mounted};
use hm_types::{Id, NoMemory};
use std::alloc::Global;
use std::process::Abort;
use std::test::Fail;

// What is committed first. Of the big-block of large pieces four are taken, to which the next ones find no room there.
const FIRST: [(&str, &str); 11] = [
    ("touch /aaaa", "#2 ok"),
    ("fill /aaaa 0 20000 01", "#3 ok"),
    ("mkdir /baaa", "#4 ok"),
    ("touch /daaa", "#5 ok"),
    ("fill /daaa 0 20000 02", "#6 ok"),
    ("fill /aaaa 0 20000 03", "#7 ok"),
    ("symlink @@#3 /baaa/a", "#8 ok"),
    ("symlink @@#14 /baaa/b", "#9 ok"),
    ("symlink @@#20 /baaa/c", "#a ok"),
    ("fill /aaaa 0 20000 04", "#b ok"),
    ("touch /eaaa", "#c ok"),
];

// How often the last of these files grows then, so that the tree has a root above its leaves.
const GROWS: u8 = 22;

const COMMITTED: Id = Id(34);

// Before the first flush, whose state is that after these. It changes the root, its leaves and a page of layer 2.
const OPENED: [Between; 5] = [
    Between::Line("sync", "ok"),
    Between::Line("touch /caaa", "ok"),
    Between::Line("rm /caaa", "ok"),
    Between::Line("write /eaaa 0 ff", "ok"),
    Between::Line("prune /baaa", "ok"),
];

// Of the first flush, after which the old bytes of half the pages are in the log, and half of them are placed.
const HALF_LOGGED: u32 = 3;

const HALF_PLACED: u32 = 11;

// Freeze, Undo of the root, two leaves and a page of layer 2, UndoSync, three of Arm, four of Place, PlaceSync, and three
// of Commit.
const OF_OPENING: Flush = Flush {
    before: 0,
    logged: 6,
    armed: 9,
    placed: 13,
    end: 17,
};

// The prunes have left a root that is a leaf, and a page of layer 2 besides.
const OF_UNITS: Flush = Flush {
    before: 17,
    logged: 21,
    armed: 24,
    placed: 26,
    end: 30,
};

// Half of the pages of the first flush are placed, the others, and its header changes; and the pages of the second one are
// placed.
const HALF: Stretch = Stretch {
    flush: OF_OPENING,
    from: OF_OPENING.armed,
    to: HALF_PLACED,
};

const REST: Stretch = Stretch {
    flush: OF_OPENING,
    from: HALF_PLACED,
    to: OF_OPENING.placed,
};

const HEADER: Stretch = Stretch {
    flush: OF_OPENING,
    from: OF_OPENING.placed,
    to: OF_OPENING.end,
};

const UNITS: Stretch = Stretch {
    flush: OF_UNITS,
    from: OF_UNITS.armed,
    to: OF_UNITS.placed,
};

// After each stage of two flushes but their last ones: at least a unit. The first flush freezes what the first prune has
// not removed yet. Once the second prune is opened all pieces but one small one are dead that stand in the first two
// big-blocks of file bytes, and the disk refers to them up to the end of the second flush.
const BETWEEN: [&[Between]; 29] = [
    // Freeze, and four of Undo.
    &[Between::More(0)],
    &[
        Between::Line("fill /aaaa 0 20000 05", "ok"),
        Between::Line("df", "ok 13 8"),
        Between::Ends(0),
    ],
    &[
        Between::Line("fill /aaaa 0 20000 06", "ok"),
        Between::Line("snapshot /baaa/d", "ok"),
        Between::Line("prune /baaa", "ok"),
        Between::More(0),
    ],
    &[
        Between::Line("cat /@@#14/eaaa 0 1", "ok 1 08"),
        Between::Ends(0),
    ],
    &[
        Between::Line("prune-everything /", "ok"),
        Between::Line("prune /baaa", "ok"),
        Between::More(1),
    ],
    // UndoSync, and three of Arm.
    &[
        Between::Line("fill /daaa 0 20000 07", "ok"),
        Between::Line("df", "ok 13 7"),
        Between::More(0),
    ],
    &[
        Between::Line("cat /@@#20/eaaa 0 1", "not retained"),
        Between::Ends(0),
    ],
    &[Between::Line("touch /faaa", "ok"), Between::Ends(0)],
    &[
        Between::Line("prune-everything /", "ok"),
        Between::Line("prune-everything /", "ok"),
        Between::More(1),
    ],
    // Four of Place, and PlaceSync.
    &[
        Between::Line("fill /faaa 0 20000 08", "ok"),
        Between::More(0),
    ],
    &[Between::Line("snapshot /baaa/e", "ok"), Between::Ends(0)],
    &[Between::Line("rm /eaaa", "ok"), Between::Ends(0)],
    &[Between::Line("prune /baaa", "ok"), Between::More(0)],
    &[
        Between::Line("fill /aaaa 0 20000 09", "ok"),
        Between::Ends(0),
    ],
    // Two of Commit.
    &[
        Between::Line("fill /faaa 0 20000 0a", "ok"),
        Between::Line("snapshot /baaa/f", "ok"),
        Between::Line("prune /baaa", "ok"),
        Between::More(0),
    ],
    &[Between::Line("write /daaa 0 0b", "ok"), Between::Ends(0)],
    &[],
    // Freeze, and two of Undo.
    &[
        Between::Line("fill /aaaa 0 20000 0d", "ok"),
        Between::Line("prune-everything /", "ok"),
        Between::More(0),
    ],
    &[Between::Line("touch /gaaa", "ok"), Between::Ends(0)],
    &[
        Between::Line("fill /gaaa 0 20000 0e", "ok"),
        Between::Line("prune-everything /", "ok"),
        Between::More(0),
    ],
    // UndoSync, and three of Arm.
    &[Between::Line("rm /faaa", "ok"), Between::Ends(0)],
    &[
        Between::Line("prune-everything /", "ok"),
        Between::Line("prune-everything /", "ok"),
        Between::More(1),
    ],
    &[Between::More(0)],
    &[Between::Line("df", "ok 13 7"), Between::Ends(0)],
    // Two of Place, and PlaceSync.
    &[
        Between::Line("fill /aaaa 0 20000 0f", "ok"),
        Between::Ends(0),
    ],
    &[Between::Line("prune-everything /", "ok"), Between::More(0)],
    &[Between::Line("write /gaaa 0 10", "ok"), Between::Ends(0)],
    // Two of Commit.
    &[
        Between::Line("fill /gaaa 0 20000 11", "ok"),
        Between::Line("prune-everything /", "ok"),
        Between::More(0),
    ],
    &[Between::Line("df", "ok 13 7"), Between::Ends(0)],
];

// How many images there are at least in each part, counted as for the flush of `crash_tests`. A softlink has three payloads,
// and a prune one, the record; units place nothing.
//
// From 4 unsettled writes to 14, and to 18.
const BEGUN: u32 = 9 + 11 + 13 + 15 + 17 + 19 + 21 + 23 + 25 + 27 + 29;

const WRITTEN: u32 = 29 + 31 + 33 + 35 + 37 + (1 + 3 + 5);

const COUNTING: u32 = 5 + 7 + 1 + 3 + (1 + 3 + 5) + 7 + (1 + 3 + 5);

// All but where the header that names the log is lost or torn.
const COUNTING_RECOVERED: u32 = 5 + (1 + 3 + 5);

// While pages are placed there are from 2 to 10, and to 13: each test takes a few numbers of changes, and has their images
// beside it. So it is where the header that is about to be opened has its first numbers.

const COMMITTING: u32 = COMMITTING_BEFORE + 5 + 1;

// All before the last stage, and one at least where its write is lost.
const COMMITTING_RECOVERED: u32 = COMMITTING_BEFORE + 1;

const COMMITTING_BEFORE: u32 = 13 + 15 + (1 + 3);

// From none to 11.
const UNITS_WRITTEN: u32 = 1 + 3 + 5 + 7 + 9 + 11 + 13 + 15 + 17 + 19 + 21 + 23 + 1;

const UNITS_COUNTING: u32 = 1 + 3 + (1 + 3 + 5) + 7 + 1 + 3 + 1;

const UNITS_COUNTING_RECOVERED: u32 = 1 + 1;

// From none to 5.
const UNITS_PLACING: u32 = 1 + 3 + 5 + 7 + 9 + 11;

const UNITS_COMMITTING: u32 = UNITS_COMMITTING_BEFORE + 3 + 1;

const UNITS_COMMITTING_RECOVERED: u32 = UNITS_COMMITTING_BEFORE + 1;

const UNITS_COMMITTING_BEFORE: u32 = 11 + (1 + 3) + 5 + (1 + 3 + 5 + 7) + 9 + 1;

// The volume as it is to be committed first.
fn used(rt: &impl Abort, alloc: Global, new: &TestDisk) -> Result<Run, NoMemory> {
    let mut run = Run::new(rt, alloc, new.copy(alloc)?);
    run.prints(rt, alloc, &FIRST)?;
    for byte in 1..=GROWS {
        let line = format!(in alloc; "fill /eaaa 0 {byte} {byte:02x}")?;
        run.replies(rt, alloc, &[(&line, "ok")])?;
    }
    assert_eq!(rt; run.last(), COMMITTED);
    Ok(run)
}

// The volume before its flushes.
fn begun(rt: &impl Abort, alloc: Global, new: &TestDisk) -> Result<Run, NoMemory> {
    let mut run = used(rt, alloc, new)?;
    go_on_by(rt, alloc, &mut run, &OPENED)?;
    Ok(run)
}

// The volume after so many stages of its flushes, and what is done after each of them.
fn flushed(rt: &impl Abort, alloc: Global, new: &TestDisk, stages: u32) -> Result<Run, NoMemory> {
    let mut run = begun(rt, alloc, new)?;
    make_stages(rt, alloc, &mut run, &BETWEEN, stages)?;
    Ok(run)
}

// The volume for which as much was done alone as after so many stages, without a flush.
fn alone(rt: &impl Abort, alloc: Global, new: &TestDisk, stages: u32) -> Result<Run, NoMemory> {
    let mut run = begun(rt, alloc, new)?;
    for steps in BETWEEN.iter().take(stages as usize) {
        go_on_by(rt, alloc, &mut run, steps)?;
    }
    Ok(run)
}

// The volumes at the boundaries of a flush, before which there were so many stages.
fn volumes_alone(
    rt: &impl Abort,
    alloc: Global,
    new: &TestDisk,
    before: u32,
) -> Result<Volumes, NoMemory> {
    let committed = if before == 0 {
        used(rt, alloc, new)?
    } else {
        begun(rt, alloc, new)?
    };
    Ok(Volumes {
        committed: shown_of(rt, alloc, committed)?,
        frozen: shown_of(rt, alloc, alone(rt, alloc, new, before)?)?,
    })
}

// Mounts what crashes may leave in a part of a flush, from the end of one of these stages to that of the other.
fn mount_stages(
    rt: &impl Abort,
    alloc: Global,
    flush: Flush,
    from: u32,
    to: u32,
    part: Part,
) -> Result<Mounts, NoMemory> {
    let new = nearly_filled(rt, alloc)?;
    let volumes = volumes_alone(rt, alloc, &new, flush.before)?;
    let ended = flushed(rt, alloc, &new, flush.end)?;
    let first = flushed(rt, alloc, &new, from)?;
    let last = flushed(rt, alloc, &new, to)?;
    mount_runs(rt, alloc, &volumes, ended, first, last, part)
}

// Mounts what crashes may leave in a part of a stretch: so many images at least, all of which are recovered.
fn recover_all(
    rt: &impl Abort,
    alloc: Global,
    stretch: Stretch,
    part: Part,
    least: u32,
) -> Result<(), NoMemory> {
    let Stretch { flush, from, to } = stretch;
    let mounts = mount_stages(rt, alloc, flush, from, to, part)?;
    assert!(rt; least <= mounts.images, "{mounts:?}");
    assert_eq!(rt; mounts.recovered, mounts.images);
    Ok(())
}

// The id of the opening of the last prune: each line has one, and each ending.
fn last_opening() -> u64 {
    let mut id = COMMITTED.0;
    let mut opening = id;
    for between in OPENED.iter().chain(BETWEEN.iter().copied().flatten()) {
        match between {
            Between::Line(line, _) => {
                id = id.saturating_add(1);
                if line.starts_with("prune") {
                    opening = id;
                }
            }
            Between::More(_) => {}
            Between::Ends(_) => id = id.saturating_add(1),
        }
    }
    opening
}

// All is there once the volume is flushed again, nothing that was dead as the last prune was opened is left, and what
// the first big-blocks of file bytes took has come back: no file has bytes there.
#[test]
fn prunes_between_stages_end_as_alone(rt: HostRuntime) -> Result<(), Fail> {
    let alloc = rt.alloc();
    let new = nearly_filled(&rt, alloc)?;
    let want = shown_of(&rt, alloc, alone(&rt, alloc, &new, OF_UNITS.end)?)?;
    let run = flushed(&rt, alloc, &new, OF_UNITS.end)?;
    assert_eq!(rt; run.open(), 0);
    let mut disk = run.finished(&rt);
    let elements = elements_on(&rt, alloc, &mut disk)?;
    assert_eq!(rt; dead(&elements, 0, &[(last_opening(), ON)]), 0);
    let mut core = mounted(&rt, alloc, disk);
    assert_eq!(rt; core.last(), want.last);
    want.is_of(&rt, alloc, &mut core)?;
    has_free(&rt, alloc, &mut core, 9)?;
    Ok(())
}

#[test]
fn a_crash_while_the_log_of_an_opening_is_begun_leaves_the_old_volume(
    rt: HostRuntime,
) -> Result<(), Fail> {
    let mounts = mount_stages(&rt, rt.alloc(), OF_OPENING, 0, HALF_LOGGED, Part::All)?;
    assert!(rt; BEGUN <= mounts.images, "{mounts:?}");
    assert_eq!(rt; mounts.recovered, 0);
    Ok(())
}

#[test]
fn a_crash_while_the_log_of_an_opening_is_written_leaves_the_old_volume(
    rt: HostRuntime,
) -> Result<(), Fail> {
    let mounts = mount_stages(
        &rt,
        rt.alloc(),
        OF_OPENING,
        HALF_LOGGED,
        OF_OPENING.logged,
        Part::All,
    )?;
    assert!(rt; WRITTEN <= mounts.images, "{mounts:?}");
    assert_eq!(rt; mounts.recovered, 0);
    Ok(())
}

#[test]
fn a_crash_as_the_log_of_an_opening_comes_to_count_leaves_the_old_volume(
    rt: HostRuntime,
) -> Result<(), Fail> {
    let mounts = mount_stages(
        &rt,
        rt.alloc(),
        OF_OPENING,
        OF_OPENING.logged,
        OF_OPENING.armed,
        Part::All,
    )?;
    assert!(rt; COUNTING <= mounts.images, "{mounts:?}");
    assert!(rt; COUNTING_RECOVERED <= mounts.recovered, "{mounts:?}");
    Ok(())
}

#[test]
fn a_crash_while_half_of_an_opening_is_placed_leaves_the_old_volume_in_part_1(
    rt: HostRuntime,
) -> Result<(), Fail> {
    let part = Part::Some { after: 0, most: 4 };
    recover_all(&rt, rt.alloc(), HALF, part, 5 + 7 + 9 + 11)?;
    Ok(())
}

#[test]
fn a_crash_while_half_of_an_opening_is_placed_leaves_the_old_volume_in_part_2(
    rt: HostRuntime,
) -> Result<(), Fail> {
    let part = Part::Some { after: 4, most: 2 };
    recover_all(&rt, rt.alloc(), HALF, part, 13 + 15)?;
    Ok(())
}

#[test]
fn a_crash_while_half_of_an_opening_is_placed_leaves_the_old_volume_in_part_3(
    rt: HostRuntime,
) -> Result<(), Fail> {
    let part = Part::Some { after: 6, most: 2 };
    recover_all(&rt, rt.alloc(), HALF, part, 17 + 19)?;
    Ok(())
}

#[test]
fn a_crash_while_half_of_an_opening_is_placed_leaves_the_old_volume_in_part_4(
    rt: HostRuntime,
) -> Result<(), Fail> {
    let part = Part::Rest(8);
    recover_all(&rt, rt.alloc(), HALF, part, 21)?;
    Ok(())
}

#[test]
fn a_crash_while_the_rest_of_an_opening_is_placed_leaves_the_old_volume_in_part_1(
    rt: HostRuntime,
) -> Result<(), Fail> {
    let part = Part::Some { after: 0, most: 2 };
    recover_all(&rt, rt.alloc(), REST, part, 21 + 23)?;
    Ok(())
}

#[test]
fn a_crash_while_the_rest_of_an_opening_is_placed_leaves_the_old_volume_in_part_2(
    rt: HostRuntime,
) -> Result<(), Fail> {
    let part = Part::Some { after: 2, most: 1 };
    recover_all(&rt, rt.alloc(), REST, part, 25)?;
    Ok(())
}

#[test]
fn a_crash_while_the_rest_of_an_opening_is_placed_leaves_the_old_volume_in_part_3(
    rt: HostRuntime,
) -> Result<(), Fail> {
    let part = Part::Rest(3);
    recover_all(&rt, rt.alloc(), REST, part, 27)?;
    Ok(())
}

#[test]
fn a_crash_before_the_header_of_an_opening_changes_leaves_the_old_volume_in_part_1(
    rt: HostRuntime,
) -> Result<(), Fail> {
    let part = Part::Some { after: 0, most: 5 };
    recover_all(&rt, rt.alloc(), HEADER, part, 27 + 1 + 3 + 5 + 7)?;
    Ok(())
}

#[test]
fn a_crash_before_the_header_of_an_opening_changes_leaves_the_old_volume_in_part_2(
    rt: HostRuntime,
) -> Result<(), Fail> {
    let part = Part::Some { after: 5, most: 6 };
    recover_all(&rt, rt.alloc(), HEADER, part, 1 + 3 + 5 + 7 + 9 + 11)?;
    Ok(())
}

#[test]
fn a_crash_while_the_header_of_an_opening_changes_leaves_one_of_two_volumes(
    rt: HostRuntime,
) -> Result<(), Fail> {
    let part = Part::Rest(11);
    let (from, to) = (OF_OPENING.placed, OF_OPENING.end);
    let mounts = mount_stages(&rt, rt.alloc(), OF_OPENING, from, to, part)?;
    assert!(rt; COMMITTING <= mounts.images, "{mounts:?}");
    assert!(rt; COMMITTING_RECOVERED <= mounts.recovered, "{mounts:?}");
    Ok(())
}

#[test]
fn a_crash_while_the_log_of_units_is_written_leaves_the_old_volume(
    rt: HostRuntime,
) -> Result<(), Fail> {
    let mounts = mount_stages(
        &rt,
        rt.alloc(),
        OF_UNITS,
        OF_UNITS.before,
        OF_UNITS.logged,
        Part::All,
    )?;
    assert!(rt; UNITS_WRITTEN <= mounts.images, "{mounts:?}");
    assert_eq!(rt; mounts.recovered, 0);
    Ok(())
}

#[test]
fn a_crash_as_the_log_of_units_comes_to_count_leaves_the_old_volume(
    rt: HostRuntime,
) -> Result<(), Fail> {
    let mounts = mount_stages(
        &rt,
        rt.alloc(),
        OF_UNITS,
        OF_UNITS.logged,
        OF_UNITS.armed,
        Part::All,
    )?;
    assert!(rt; UNITS_COUNTING <= mounts.images, "{mounts:?}");
    assert!(rt; UNITS_COUNTING_RECOVERED <= mounts.recovered, "{mounts:?}");
    Ok(())
}

#[test]
fn a_crash_while_units_are_placed_leaves_the_old_volume(rt: HostRuntime) -> Result<(), Fail> {
    recover_all(&rt, rt.alloc(), UNITS, Part::All, UNITS_PLACING)?;
    Ok(())
}

#[test]
fn a_crash_while_the_header_of_units_changes_leaves_one_of_two_volumes(
    rt: HostRuntime,
) -> Result<(), Fail> {
    let mounts = mount_stages(
        &rt,
        rt.alloc(),
        OF_UNITS,
        OF_UNITS.placed,
        OF_UNITS.end,
        Part::All,
    )?;
    assert!(rt; UNITS_COMMITTING <= mounts.images, "{mounts:?}");
    assert!(rt;
        UNITS_COMMITTING_RECOVERED <= mounts.recovered,
        "{mounts:?}"
    );
    Ok(())
}
