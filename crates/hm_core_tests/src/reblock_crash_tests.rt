// Crashes within two flushes, after nearly each of whose stages a unit of a reblock is done, and calls go on: each image
// is mounted, and compared with a volume that ran the same calls without a reblock.
use crate::between::{Between, Flush, Stretch, go_on, go_on_by, make_stages, mount_runs, shown_of};
use crate::crashes::{Mounts, Part, Volumes};
use crate::elements::elements_on;
use crate::run::Run;
use crate::test_disk::TestDisk;
use crate::volume::{filled_to, has_free, made, mounted};
use hm_types::{Id, NoMemory};
use std::alloc::Global;
use std::process::Abort;
use std::test::Fail;

// How far a big-block is filled that has the reserve of a zone left, and not a byte more: of nodes, and of each other zone.
const NODES_FILLED: u32 = 7_340_032;

const BYTES_FILLED: u32 = 8_257_536;

// What a fill of 20,000 bytes takes: a block of large pieces, and the rest of small ones.
const LARGE: u32 = 16_384;

const SMALL: u32 = 3_616;

// The append big-blocks of a new volume, so that that of nodes has room for those of one call, and that of large pieces for
// five of these.
const NEW_FILLED: [(u32, u32); 2] = [(11, NODES_FILLED), (13, BYTES_FILLED - 4 * LARGE)];

// What is committed first, but for the last file, which grows then.
const FIRST: [(&str, &str); 9] = [
    ("touch /aaaa", "#2 ok"),
    ("fill /aaaa 0 20000 01", "#3 ok"),
    ("mkdir /baaa", "#4 ok"),
    ("touch /daaa", "#5 ok"),
    ("fill /daaa 0 20000 02", "#6 ok"),
    ("fill /aaaa 0 20000 03", "#7 ok"),
    ("fill /aaaa 0 20000 04", "#8 ok"),
    ("fill /daaa 0 20000 05", "#9 ok"),
    ("touch /eaaa", "#a ok"),
];

// The first time, large pieces begin big-block 15. Of 22 elements before, each time adds two, and the 64th one parts the
// leaf: the tree has a root and two leaves, all in big-block 11. So the last time nodes begin big-block 16.
const GROWS: u8 = 22;

const COMMITTED: Id = Id(32);

// The append big-blocks then: that of large pieces has room for one, and that of nodes for one. That of small pieces, big-block
// 14, has room for the last file's bytes and for the rests of two fills.
const COMMITTED_FILLED: [(u32, u32); 3] = [
    (14, BYTES_FILLED - 32 - SMALL),
    (15, BYTES_FILLED),
    (16, NODES_FILLED),
];

// Before the first flush, whose state is that after these. It changes the root, its leaves and a page of layer 2. The
// reblock chooses the big-blocks 11 and 13, with three nodes and five large pieces. It collects elements, orders them,
// and moves a piece into big-block 15.
const OPENED: [Between; 7] = [
    Between::Line("touch /caaa", "ok"),
    Between::Line("rm /caaa", "ok"),
    Between::Line("write /eaaa 0 ff", "ok"),
    Between::Line("reblock 1", "ok"),
    Between::More(0),
    Between::More(0),
    Between::More(0),
];

// Freeze, Undo of the root, two leaves and a page of layer 2, UndoSync, three of Arm, four of Place, PlaceSync, and three
// of Commit.
const OF_PIECES: Flush = Flush {
    before: 0,
    logged: 6,
    armed: 9,
    placed: 13,
    end: 17,
};

// After which the old bytes of two pages are in the log.
const HALF_LOGGED: u32 = 3;

// The nodes have moved, and only the page of layer 2 was live as committed: Freeze, Undo, UndoSync, three of Arm, four of
// Place, PlaceSync, and three of Commit.
const OF_NODES: Flush = Flush {
    before: 17,
    logged: 20,
    armed: 23,
    placed: 27,
    end: 31,
};

// The pages of either flush are placed.
const PIECES: Stretch = Stretch {
    flush: OF_PIECES,
    from: OF_PIECES.armed,
    to: OF_PIECES.placed,
};

const NODES: Stretch = Stretch {
    flush: OF_NODES,
    from: OF_NODES.armed,
    to: OF_NODES.placed,
};

// After each stage of two flushes but their last ones. What units and calls begin while the disk refers to what was moved
// are other big-blocks: 17 by a large piece that moves, 18 by a node that does, and 19 by a small piece of a fill.
const BETWEEN: [&[Between]; 31] = [
    // Freeze, and four of Undo: the other large pieces move into big-block 17, the reblock turns to the nodes, and one of them
    // moves into 16.
    &[Between::More(0), Between::Line("df", "ok 13 6")],
    &[
        Between::Line("fill /aaaa 0 20000 11", "ok"),
        Between::More(0),
    ],
    &[Between::Line("touch /faaa", "ok"), Between::More(0)],
    &[Between::Line("snapshot /baaa/a", "ok"), Between::More(0)],
    &[Between::More(0), Between::More(0)],
    // UndoSync, and three of Arm: the other nodes move into 18. The next reblock chooses 15 and 16, with a piece and a node.
    &[Between::More(0), Between::Line("df", "ok 13 5")],
    &[
        Between::Line("fill /daaa 0 20000 12", "ok"),
        Between::More(0),
    ],
    &[Between::Ends(0)],
    &[Between::Line("reblock 1", "ok"), Between::More(0)],
    // Four of Place, and PlaceSync: that piece moves. A third reblock chooses 14, with 30 small pieces, and 16. Then the second
    // one turns to the nodes, moves the one, and ends.
    &[
        Between::Line("fill /faaa 0 20000 13", "ok"),
        Between::Line("df", "ok 13 4"),
        Between::More(0),
    ],
    &[Between::More(0)],
    &[
        Between::Line("rm /eaaa", "ok"),
        Between::Line("reblock 1", "ok"),
        Between::More(1),
    ],
    &[Between::More(0), Between::More(1)],
    &[Between::Ends(1)],
    // Two of Commit: the third reblock orders what it has collected, and moves a small piece.
    &[Between::Line("write /daaa 0 0b", "ok"), Between::More(0)],
    &[Between::More(0)],
    &[],
    // Freeze, Undo, UndoSync, and three of Arm: it moves six more.
    &[Between::More(0)],
    &[
        Between::Line("fill /aaaa 0 20000 14", "ok"),
        Between::More(0),
    ],
    &[Between::More(0)],
    &[Between::Line("touch /gaaa", "ok"), Between::More(0)],
    &[Between::More(0)],
    &[Between::More(0)],
    // Four of Place, and PlaceSync: a prune keeps all from the snapshot on. Of the 56 elements that are dead then 20 have
    // their bytes in big-block 14, and what is left there are those that the last file had, and the rests of two fills.
    &[Between::Line("prune /baaa", "ok"), Between::More(1)],
    &[Between::More(0)],
    &[Between::Line("write /gaaa 0 15", "ok"), Between::Ends(0)],
    &[Between::More(0)],
    &[Between::More(0)],
    // Two of Commit. The disk refers to nothing of big-block 16, from and to which the node moved between two freezes.
    &[Between::Ends(0)],
    &[
        Between::Line("rm /faaa", "ok"),
        Between::Line("df", "ok 13 5"),
    ],
    &[],
];

// How many images there are at least in each part, counted as for the flush of `crash_tests`. A softlink has three payloads,
// a file that is made two, a fill two, and three where the size changes, and a prune one. A piece that moves is one payload,
// and a node none.
//
// From 4 unsettled writes to 13, and to 19.
const BEGUN: u32 = 9 + 11 + 13 + 15 + 17 + 19 + 21 + 23 + 25 + 27;

const WRITTEN: u32 = 27 + 29 + 31 + 33 + 35 + 37 + 39 + 1;

const COUNTING: u32 = 1 + 3 + (1 + 3 + 5) + 7 + 1 + 3 + 1;

// One at least where the header that names the log is there, and all once it is settled.
const COUNTING_RECOVERED: u32 = 1 + 1;

// While pages are placed there are from none to 8, and where nodes moved from 1 to 10: each test takes a few numbers of
// changes, and has their images beside it.

const COMMITTING: u32 = COMMITTING_BEFORE + 5 + 1;

// All before the last stage, and one at least where its write is lost.
const COMMITTING_RECOVERED: u32 = COMMITTING_BEFORE + 1;

const COMMITTING_BEFORE: u32 = 17 + 1 + 3 + (1 + 3) + 5 + (1 + 3);

// From none to 5.
const NODES_WRITTEN: u32 = 1 + 3 + 5 + 7 + 9 + 11 + (1 + 3);

const NODES_COUNTING: u32 = 3 + 5 + (1 + 3 + 5 + 7) + 9 + (1 + 3) + 5 + (1 + 3);

// All but where the header that names the log is lost or torn.
const NODES_COUNTING_RECOVERED: u32 = 3 + (1 + 3);

const NODES_COMMITTING: u32 = NODES_COMMITTING_BEFORE + 3 + 1;

const NODES_COMMITTING_RECOVERED: u32 = NODES_COMMITTING_BEFORE + 1;

const NODES_COMMITTING_BEFORE: u32 = 21 + (1 + 3) + 5 + 1 + 3 + 1;

// The disk of the volume as it is committed first.
fn used(rt: &impl Abort, alloc: Global) -> Result<TestDisk, NoMemory> {
    let new = filled_to(rt, alloc, made(rt, alloc), &NEW_FILLED)?;
    let mut run = Run::new(rt, alloc, new);
    run.prints(rt, alloc, &FIRST)?;
    for byte in 1..=GROWS {
        let line = format!(in alloc; "fill /eaaa 0 {byte} {byte:02x}")?;
        run.replies(rt, alloc, &[(&line, "ok")])?;
    }
    assert_eq!(rt; run.last(), COMMITTED);
    filled_to(rt, alloc, run.finished(rt), &COMMITTED_FILLED)
}

// The volume after so many stages of its flushes, and what is done after each of them.
fn flushed(rt: &impl Abort, alloc: Global, used: &TestDisk, stages: u32) -> Result<Run, NoMemory> {
    let mut run = Run::new(rt, alloc, used.copy(alloc)?);
    go_on_by(rt, alloc, &mut run, &OPENED)?;
    make_stages(rt, alloc, &mut run, &BETWEEN, stages)?;
    Ok(run)
}

// A volume that goes on by the same steps without their reblocks: each of their openings and endings is a look, which has
// its id.
#[derive(Drop)]
struct Unmoved {
    run: Run,
    // Of each call that the steps have open whether it is a reblock, in their order.
    reblocks: Vec<bool>,
}

impl Unmoved {
    fn go_on(&mut self, rt: &impl Abort, alloc: Global, between: Between) -> Result<(), NoMemory> {
        match between {
            Between::Line(line, want) => self.line(rt, alloc, line, want),
            Between::More(index) => match self.take(rt, index) {
                Some(place) => {
                    self.reblocks.push(false)?;
                    go_on(rt, alloc, &mut self.run, Between::More(place))
                }
                None => {
                    self.reblocks.push(true)?;
                    Ok(())
                }
            },
            Between::Ends(index) => match self.take(rt, index) {
                Some(place) => go_on(rt, alloc, &mut self.run, Between::Ends(place)),
                None => self.look(rt, alloc),
            },
        }
    }

    fn go_on_by(
        &mut self,
        rt: &impl Abort,
        alloc: Global,
        steps: &[Between],
    ) -> Result<(), NoMemory> {
        for between in steps {
            self.go_on(rt, alloc, *between)?;
        }
        Ok(())
    }

    fn line(
        &mut self,
        rt: &impl Abort,
        alloc: Global,
        line: &'static str,
        want: &'static str,
    ) -> Result<(), NoMemory> {
        if line == "df" {
            return self.look(rt, alloc);
        }
        if line.starts_with("reblock") {
            self.reblocks.push(true)?;
            return self.look(rt, alloc);
        }
        if line.starts_with("prune") {
            self.reblocks.push(false)?;
        }
        go_on(rt, alloc, &mut self.run, Between::Line(line, want))
    }

    // More is free here than where pieces move.
    fn look(&mut self, rt: &impl Abort, alloc: Global) -> Result<(), NoMemory> {
        self.run.ask(rt, alloc, "df")?;
        Ok(())
    }

    // Takes out one of the open calls, and tells its place among the prunes where it is none of the reblocks.
    fn take(&mut self, rt: &impl Abort, index: usize) -> Option<usize> {
        assert!(rt; index < self.reblocks.len());
        if self.reblocks.remove(index) {
            return None;
        }
        let mut place: usize = 0;
        for is_reblock in self.reblocks.iter().take(index) {
            if !*is_reblock {
                place = place.saturating_add(1);
            }
        }
        Some(place)
    }
}

// The volume for which as much was done as after so many stages, but no reblock, and no flush.
fn alone(rt: &impl Abort, alloc: Global, used: &TestDisk, stages: u32) -> Result<Run, NoMemory> {
    let mut unmoved = Unmoved {
        run: Run::new(rt, alloc, used.copy(alloc)?),
        reblocks: Vec::new(alloc),
    };
    unmoved.go_on_by(rt, alloc, &OPENED)?;
    for steps in BETWEEN.iter().take(stages as usize) {
        unmoved.go_on_by(rt, alloc, steps)?;
    }
    let Unmoved { run, .. } = unmoved;
    Ok(run)
}

// The volumes at the boundaries of a flush, before which there were so many stages.
fn volumes_alone(
    rt: &impl Abort,
    alloc: Global,
    used: &TestDisk,
    before: u32,
) -> Result<Volumes, NoMemory> {
    let committed = if before == 0 {
        Run::new(rt, alloc, used.copy(alloc)?)
    } else {
        alone(rt, alloc, used, 0)?
    };
    Ok(Volumes {
        committed: shown_of(rt, alloc, committed)?,
        frozen: shown_of(rt, alloc, alone(rt, alloc, used, before)?)?,
    })
}

// Mounts what crashes may leave in a part of a flush, from the end of one of these stages to that of the other.
fn mount_stages(
    rt: &impl Abort,
    alloc: Global,
    flush: Flush,
    from: u32,
    to: u32,
    part: Part,
) -> Result<Mounts, NoMemory> {
    let used = used(rt, alloc)?;
    let volumes = volumes_alone(rt, alloc, &used, flush.before)?;
    let ended = flushed(rt, alloc, &used, flush.end)?;
    let first = flushed(rt, alloc, &used, from)?;
    let last = flushed(rt, alloc, &used, to)?;
    mount_runs(rt, alloc, &volumes, ended, first, last, part)
}

// Mounts what crashes may leave in a part of a stretch: so many images at least, all of which are recovered.
fn recover_all(
    rt: &impl Abort,
    alloc: Global,
    stretch: Stretch,
    part: Part,
    least: u32,
) -> Result<(), NoMemory> {
    let Stretch { flush, from, to } = stretch;
    let mounts = mount_stages(rt, alloc, flush, from, to, part)?;
    assert!(rt; least <= mounts.images, "{mounts:?}");
    assert_eq!(rt; mounts.recovered, mounts.images);
    Ok(())
}

// All is as without a reblock once the volume is flushed again, and nothing refers to what the reblocks have emptied: what
// names and the like take stands in big-block 12 still, and the bytes of files in 17 and 19.
#[test]
fn reblocks_between_stages_end_as_alone(rt: HostRuntime) -> Result<(), Fail> {
    let alloc = rt.alloc();
    let used = used(&rt, alloc)?;
    let want = shown_of(&rt, alloc, alone(&rt, alloc, &used, OF_NODES.end)?)?;
    let run = flushed(&rt, alloc, &used, OF_NODES.end)?;
    assert_eq!(rt; run.open(), 0);
    let mut disk = run.finished(&rt);
    let elements = elements_on(&rt, alloc, &mut disk)?;
    for element in &elements {
        assert!(rt; matches!(element.block(), 12 | 17 | 19), "{element:?}");
    }
    let mut core = mounted(&rt, alloc, disk);
    assert_eq!(rt; core.last(), want.last);
    want.is_of(&rt, alloc, &mut core)?;
    has_free(&rt, alloc, &mut core, 9)?;
    Ok(())
}

// The second flush gives back what the first two reblocks have emptied, 11, 13, 15 and 16, and the next one what the third
// one has, 14.
#[test]
fn the_space_that_reblocks_emptied_comes_back_with_the_next_flush(
    rt: HostRuntime,
) -> Result<(), Fail> {
    let alloc = rt.alloc();
    let used = used(&rt, alloc)?;
    let mut run = flushed(&rt, alloc, &used, OF_NODES.end)?;
    run.replies(
        &rt,
        alloc,
        &[("df", "ok 13 8"), ("sync", "ok"), ("df", "ok 13 9")],
    )?;
    Ok(())
}

#[test]
fn a_crash_while_the_log_of_pieces_is_begun_leaves_the_old_volume(
    rt: HostRuntime,
) -> Result<(), Fail> {
    let mounts = mount_stages(&rt, rt.alloc(), OF_PIECES, 0, HALF_LOGGED, Part::All)?;
    assert!(rt; BEGUN <= mounts.images, "{mounts:?}");
    assert_eq!(rt; mounts.recovered, 0);
    Ok(())
}

#[test]
fn a_crash_while_the_log_of_pieces_is_written_leaves_the_old_volume(
    rt: HostRuntime,
) -> Result<(), Fail> {
    let mounts = mount_stages(
        &rt,
        rt.alloc(),
        OF_PIECES,
        HALF_LOGGED,
        OF_PIECES.logged,
        Part::All,
    )?;
    assert!(rt; WRITTEN <= mounts.images, "{mounts:?}");
    assert_eq!(rt; mounts.recovered, 0);
    Ok(())
}

#[test]
fn a_crash_as_the_log_of_pieces_comes_to_count_leaves_the_old_volume(
    rt: HostRuntime,
) -> Result<(), Fail> {
    let mounts = mount_stages(
        &rt,
        rt.alloc(),
        OF_PIECES,
        OF_PIECES.logged,
        OF_PIECES.armed,
        Part::All,
    )?;
    assert!(rt; COUNTING <= mounts.images, "{mounts:?}");
    assert!(rt; COUNTING_RECOVERED <= mounts.recovered, "{mounts:?}");
    Ok(())
}

#[test]
fn a_crash_while_the_pages_of_pieces_are_placed_leaves_the_old_volume_in_part_1(
    rt: HostRuntime,
) -> Result<(), Fail> {
    let part = Part::Some { after: 0, most: 6 };
    recover_all(&rt, rt.alloc(), PIECES, part, 1 + 3 + 5 + 7 + 9 + 11)?;
    Ok(())
}

#[test]
fn a_crash_while_the_pages_of_pieces_are_placed_leaves_the_old_volume_in_part_2(
    rt: HostRuntime,
) -> Result<(), Fail> {
    let part = Part::Some { after: 6, most: 2 };
    recover_all(&rt, rt.alloc(), PIECES, part, 13 + 15)?;
    Ok(())
}

#[test]
fn a_crash_while_the_pages_of_pieces_are_placed_leaves_the_old_volume_in_part_3(
    rt: HostRuntime,
) -> Result<(), Fail> {
    let part = Part::Rest(8);
    recover_all(&rt, rt.alloc(), PIECES, part, 17)?;
    Ok(())
}

#[test]
fn a_crash_while_the_header_of_pieces_changes_leaves_one_of_two_volumes(
    rt: HostRuntime,
) -> Result<(), Fail> {
    let mounts = mount_stages(
        &rt,
        rt.alloc(),
        OF_PIECES,
        OF_PIECES.placed,
        OF_PIECES.end,
        Part::All,
    )?;
    assert!(rt; COMMITTING <= mounts.images, "{mounts:?}");
    assert!(rt; COMMITTING_RECOVERED <= mounts.recovered, "{mounts:?}");
    Ok(())
}

#[test]
fn a_crash_while_the_log_of_nodes_is_written_leaves_the_old_volume(
    rt: HostRuntime,
) -> Result<(), Fail> {
    let mounts = mount_stages(
        &rt,
        rt.alloc(),
        OF_NODES,
        OF_NODES.before,
        OF_NODES.logged,
        Part::All,
    )?;
    assert!(rt; NODES_WRITTEN <= mounts.images, "{mounts:?}");
    assert_eq!(rt; mounts.recovered, 0);
    Ok(())
}

#[test]
fn a_crash_as_the_log_of_nodes_comes_to_count_leaves_the_old_volume(
    rt: HostRuntime,
) -> Result<(), Fail> {
    let mounts = mount_stages(
        &rt,
        rt.alloc(),
        OF_NODES,
        OF_NODES.logged,
        OF_NODES.armed,
        Part::All,
    )?;
    assert!(rt; NODES_COUNTING <= mounts.images, "{mounts:?}");
    assert!(rt; NODES_COUNTING_RECOVERED <= mounts.recovered, "{mounts:?}");
    Ok(())
}

#[test]
fn a_crash_while_moved_nodes_are_placed_leaves_the_old_volume_in_part_1(
    rt: HostRuntime,
) -> Result<(), Fail> {
    let part = Part::Some { after: 0, most: 5 };
    recover_all(&rt, rt.alloc(), NODES, part, 3 + 5 + 7 + 9 + 11)?;
    Ok(())
}

#[test]
fn a_crash_while_moved_nodes_are_placed_leaves_the_old_volume_in_part_2(
    rt: HostRuntime,
) -> Result<(), Fail> {
    let part = Part::Some { after: 5, most: 2 };
    recover_all(&rt, rt.alloc(), NODES, part, 13 + 15)?;
    Ok(())
}

#[test]
fn a_crash_while_moved_nodes_are_placed_leaves_the_old_volume_in_part_3(
    rt: HostRuntime,
) -> Result<(), Fail> {
    let part = Part::Some { after: 7, most: 2 };
    recover_all(&rt, rt.alloc(), NODES, part, 17 + 19)?;
    Ok(())
}

#[test]
fn a_crash_while_moved_nodes_are_placed_leaves_the_old_volume_in_part_4(
    rt: HostRuntime,
) -> Result<(), Fail> {
    let part = Part::Rest(9);
    recover_all(&rt, rt.alloc(), NODES, part, 21)?;
    Ok(())
}

#[test]
fn a_crash_while_the_header_of_moved_nodes_changes_leaves_one_of_two_volumes(
    rt: HostRuntime,
) -> Result<(), Fail> {
    let mounts = mount_stages(
        &rt,
        rt.alloc(),
        OF_NODES,
        OF_NODES.placed,
        OF_NODES.end,
        Part::All,
    )?;
    assert!(rt; NODES_COMMITTING <= mounts.images, "{mounts:?}");
    assert!(rt;
        NODES_COMMITTING_RECOVERED <= mounts.recovered,
        "{mounts:?}"
    );
    Ok(())
}
