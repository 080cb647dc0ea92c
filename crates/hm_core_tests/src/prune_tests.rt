// Prunes of a core: what they keep and remove, also two of them at once, between calls.
use crate::elements::{Element, ON, dead, elements_of, elements_on};
use crate::run::Run;
use crate::volume::made;
use hm_types::{Id, NoMemory};
use std::alloc::Global;
use std::process::Abort;
use std::test::Fail;

// What a PFS keeps after some lines, and how many elements it has: nothing that is dead, and all else.
#[derive(Clone, Copy)]
struct Left {
    pfs: u16,
    kept: &'static [(u64, u64)],
    elements: usize,
}

// Lines with what they print, and what is left then. A PFS has its record, and a master its root; a directory, a file and
// the link of a PFS have two elements, a softlink three, a byte that was put one, and a file that was empty another one.
type Table = (&'static [(&'static str, &'static str)], &'static [Left]);

const SNAPSHOTS: Table = (
    &[
        ("touch /f", "#2 ok"),
        ("write /f 0 31", "#3 ok"),
        ("mkdir /s", "#4 ok"),
        ("snapshot /s/one", "#5 ok"),
        ("write /f 0 32", "#6 ok"),
        ("write /f 0 33", "#7 ok"),
        ("snapshot /s/two", "#8 ok"),
        ("write /f 0 34", "#9 ok"),
        ("prune /s", "#a ok #b done"),
        ("cat /@@#4/f 0 1", "#c ok 1 31"),
        ("cat /@@#6/f 0 1", "#d not retained"),
        ("cat /@@#7/f 0 1", "#e ok 1 33"),
        ("cat /f 0 1", "#f ok 1 34"),
        ("prune /", "#10 no snapshots"),
        ("pfs-status /", "#11 ok master 00000 0000000000000000 2"),
        ("readlink /s/one", "#12 ok @@#4"),
    ],
    &[Left {
        pfs: 0,
        kept: &[(4, 4), (7, ON)],
        // The file with three bytes, and two softlinks in their directory.
        elements: 2 + 2 + 3 + 2 + 2 * 3,
    }],
);

// A slave without a sync end keeps nothing, and has no root.
const SLAVE: Table = (
    &[
        ("pfs-slave /s 170", "#2 ok 00001"),
        ("ls /s", "#3 not found"),
        ("pfs-status /s", "#4 ok slave 00001 00000000000000aa 0 #0"),
        ("readlink /s", "#5 ok @@#0:00001"),
        ("touch /s/a", "#6 not found"),
        ("prune-everything /s", "#7 ok #8 done"),
    ],
    &[
        Left {
            pfs: 0,
            kept: &[(1, ON)],
            elements: 2 + 2,
        },
        Left {
            pfs: 1,
            kept: &[],
            elements: 1,
        },
    ],
);

// A prune leaves what every other PFS keeps.
const SYSTEMS: Table = (
    &[
        ("pfs-master /m 7", "#2 ok 00001"),
        ("touch /f", "#3 ok"),
        ("write /f 0 31", "#4 ok"),
        ("touch /m/f", "#5 ok"),
        ("write /m/f 0 41", "#6 ok"),
        ("write /m/f 0 42", "#7 ok"),
        ("write /f 0 32", "#8 ok"),
        ("prune-everything /m", "#9 ok #a done"),
        ("cat /@@#4/f 0 1", "#b ok 1 31"),
        ("cat /@@#6/m/f 0 1", "#c not retained"),
        ("cat /m/@@#8/f 0 1", "#d not retained"),
        ("cat /m/@@#9/f 0 1", "#e ok 1 42"),
        ("pfs-status /m", "#f ok master 00001 0000000000000007 1"),
        ("prune-everything /", "#10 ok #11 done"),
        ("cat /@@#4/f 0 1", "#12 not retained"),
        ("cat /@@#10/f 0 1", "#13 ok 1 32"),
        ("cat /@@#9/m/f 0 1", "#14 not retained"),
        ("cat /m/@@#9/f 0 1", "#15 ok 1 42"),
        ("cat /m/f 0 1", "#16 ok 1 42"),
    ],
    &[
        Left {
            pfs: 0,
            kept: &[(16, ON)],
            elements: 2 + 2 + 3,
        },
        Left {
            pfs: 1,
            kept: &[(9, ON)],
            elements: 2 + 3,
        },
    ],
);

// PFS that stand in one another: each prune is of one of them.
const NESTED: Table = (
    &[
        ("pfs-master /m 7", "#2 ok 00001"),
        ("mkdir /m/d", "#3 ok"),
        ("pfs-master /m/d/n 8", "#4 ok 00002"),
        ("touch /m/d/n/f", "#5 ok"),
        ("write /m/d/n/f 0 31", "#6 ok"),
        ("snapshot /m/d/n/a", "#7 ok"),
        ("write /m/d/n/f 0 32", "#8 ok"),
        ("write /m/d/n/f 0 33", "#9 ok"),
        ("snapshot /m/d/n/b", "#a ok"),
        ("write /m/d/n/f 0 34", "#b ok"),
        ("touch /m/d/f", "#c ok"),
        ("write /m/d/f 0 41", "#d ok"),
        ("write /m/d/f 0 42", "#e ok"),
        ("prune /m/d/n", "#f ok #10 done"),
        ("cat /m/d/n/@@#6/f 0 1", "#11 ok 1 31"),
        ("cat /m/d/n/@@#8/f 0 1", "#12 not retained"),
        ("cat /m/@@#8/d/n/f 0 1", "#13 not retained"),
        ("cat /m/d/@@#d/f 0 1", "#14 ok 1 41"),
        ("prune-everything /m/d", "#15 ok #16 done"),
        ("cat /m/d/@@#d/f 0 1", "#17 not retained"),
        ("cat /m/d/f 0 1", "#18 ok 1 42"),
        ("cat /m/d/n/@@#6/f 0 1", "#19 ok 1 31"),
        ("cat /m/d/n/@@#9/f 0 1", "#1a ok 1 33"),
        (
            "pfs-status /m/d/n/f",
            "#1b ok master 00002 0000000000000008 2",
        ),
        ("pfs-status /m/d", "#1c ok master 00001 0000000000000007 1"),
        ("ls /@@#2", "#1d ok 1 p:m"),
    ],
    &[
        Left {
            pfs: 0,
            kept: &[(1, ON)],
            elements: 2 + 2,
        },
        // The directory, the link, and the file with a byte.
        Left {
            pfs: 1,
            kept: &[(21, ON)],
            elements: 2 + 2 + 2 + 3,
        },
        // The file with three bytes, and two softlinks.
        Left {
            pfs: 2,
            kept: &[(6, 6), (9, ON)],
            elements: 2 + 2 + 3 + 2 * 3,
        },
    ],
);

// What opens nothing, with the reply of the first check that fails, and changes nothing.
const REFUSED: Table = (
    &[
        ("touch /f", "#2 ok"),
        ("write /f 0 31", "#3 ok"),
        ("write /f 0 32", "#4 ok"),
        ("mkdir /s", "#5 ok"),
        ("symlink x@@0x000000000000003 /s/short", "#6 ok"),
        ("symlink @@#ff /s/later", "#7 ok"),
        ("prune s", "#8 bad path 0"),
        ("prune /s@@#ff", "#9 future #8"),
        ("prune-everything /@@#3", "#a read only"),
        ("prune /t", "#b not found"),
        ("prune /f", "#c not a directory"),
        ("prune /s", "#d no snapshots"),
        ("cat /@@#3/f 0 1", "#e ok 1 31"),
        ("pfs-status /", "#f ok master 00000 0000000000000000 1"),
    ],
    &[Left {
        pfs: 0,
        kept: &[(1, ON)],
        // The file as it was empty and with two bytes, and two softlinks in their directory.
        elements: 2 + 1 + 2 + 2 + 2 + 2 * 3,
    }],
);

// Each PFS has so many elements, and none of them is dead.
fn are_left(rt: &impl Abort, elements: &[Element], left: &[Left]) {
    for it in left {
        assert_eq!(rt; dead(elements, it.pfs, it.kept), 0, "{}", it.pfs);
        assert_eq!(rt; elements_of(elements, it.pfs), it.elements, "{}", it.pfs);
    }
}

#[test]
fn lines_of_prunes_print_what_they_are_to(rt: HostRuntime) -> Result<(), Fail> {
    let alloc = rt.alloc();
    let new = made(&rt, alloc);
    for (rows, left) in [SNAPSHOTS, SLAVE, SYSTEMS, NESTED, REFUSED] {
        let mut run = Run::new(&rt, alloc, new.copy(alloc)?);
        run.prints(&rt, alloc, rows)?;
        let mut disk = run.finished(&rt);
        let elements = elements_on(&rt, alloc, &mut disk)?;
        are_left(&rt, &elements, left);
    }
    Ok(())
}

// The last id of the lines that write, of which each puts one byte, the lowest of its id, into the same file.
const WRITTEN: u64 = 203;

// The ids that the softlinks of a directory name, and what is kept by them.
const NAMED: [(&str, &str); 4] = [
    ("symlink @@#14 /s/a", "ok"),
    ("symlink x@@#15@@#16 /s/b", "ok"),
    ("symlink @@#4d /s/c", "ok"),
    ("symlink @@#96z /s/d", "ok"),
];

const KEPT: [(u64, u64); 3] = [(20, 21), (77, 77), (150, ON)];

// Of the file's bytes those of the ids from 4 on before 150 but for 20, 21 and 77 are dead, and the inode of the
// empty file.
const DEAD: usize = 144;

// Another directory names these, and what is kept by both.
const NAMED_LATER: [(&str, &str); 4] = [
    ("mkdir /t", "ok"),
    ("symlink @@#15 /t/a", "ok"),
    ("symlink @@#4c /t/b", "ok"),
    ("symlink @@#a0 /t/c", "ok"),
];

const KEPT_BY_BOTH: [(u64, u64); 2] = [(21, 21), (160, ON)];

// A volume with a file that was written often.
fn written(rt: &impl Abort, alloc: Global) -> Result<Run, NoMemory> {
    let mut run = Run::new(rt, alloc, made(rt, alloc));
    run.replies(rt, alloc, &[("touch /f", "ok"), ("mkdir /s", "ok")])?;
    for id in 4..=WRITTEN {
        let line = format!(in alloc; "write /f 0 {:02x}", id % 256)?;
        run.replies(rt, alloc, &[(&line, "ok")])?;
    }
    assert_eq!(rt; run.last(), Id(WRITTEN));
    run.replies(rt, alloc, &NAMED)?;
    Ok(run)
}

fn is_kept(id: u64, kept: &[(u64, u64)]) -> bool {
    kept.iter().any(|(first, last)| *first <= id && id <= *last)
}

// As of each id up to the last write the file has its byte where the id is kept, and is refused where it is not.
fn shows(
    rt: &impl Abort,
    alloc: Global,
    run: &mut Run,
    kept: &[(u64, u64)],
) -> Result<(), NoMemory> {
    for id in 1..=WRITTEN {
        let line = format!(in alloc; "cat /@@#{id:x}/f 0 9")?;
        let byte = id % 256;
        let want = match id {
            _ if !is_kept(id, kept) => format!(in alloc; "not retained")?,
            1 => format!(in alloc; "not found")?,
            2 | 3 => format!(in alloc; "ok 0")?,
            _ => format!(in alloc; "ok 1 {byte:02x}")?,
        };
        run.replies(rt, alloc, &[(&line, &want)])?;
    }
    Ok(())
}

// The elements of a volume whose use is ended, on its disk, and the volume in use anew.
fn taken(rt: &impl Abort, alloc: Global, run: Run) -> Result<(Vec<Element>, Run), NoMemory> {
    let mut disk = run.finished(rt);
    let elements = elements_on(rt, alloc, &mut disk)?;
    Ok((elements, Run::new(rt, alloc, disk)))
}

#[test]
fn a_prune_removes_what_is_dead_and_leaves_what_is_kept(rt: HostRuntime) -> Result<(), Fail> {
    let alloc = rt.alloc();
    let mut run = written(&rt, alloc)?;
    shows(&rt, alloc, &mut run, &[(1, ON)])?;
    let (before, mut run) = taken(&rt, alloc, run)?;
    assert_eq!(rt; dead(&before, 0, &KEPT), DEAD);
    assert_eq!(rt; run.ask(&rt, alloc, "prune /s")?.ends_with(b" ok"), true);
    // What is not kept is refused from the opening on.
    shows(&rt, alloc, &mut run, &KEPT)?;
    let (units, ending) = run.end(&rt, alloc, 0)?;
    assert_eq!(rt; ending.ends_with(b" done"), true);
    // At most 64 elements go at once, and the last unit finds none.
    assert!(rt; units >= 3 + 1, "{units}");
    shows(&rt, alloc, &mut run, &KEPT)?;
    let (after, mut run) = taken(&rt, alloc, run)?;
    assert_eq!(rt; dead(&after, 0, &KEPT), 0);
    assert_eq!(rt; before.len().saturating_sub(after.len()), DEAD);
    shows(&rt, alloc, &mut run, &KEPT)?;
    Ok(())
}

// Two prunes of one PFS, of which units are done by turns, with calls between all of them.
#[test]
fn two_prunes_of_one_system_may_be_open_at_once(rt: HostRuntime) -> Result<(), Fail> {
    let alloc = rt.alloc();
    let mut run = written(&rt, alloc)?;
    run.replies(&rt, alloc, &NAMED_LATER)?;
    assert_eq!(rt; run.ask(&rt, alloc, "prune /s")?.ends_with(b" ok"), true);
    assert_eq!(rt; run.ask(&rt, alloc, "prune /t")?.ends_with(b" ok"), true);
    let mut units: u32 = 0;
    let mut endings: u32 = 0;
    for _ in 0..100 {
        if run.open() == 0 {
            break;
        }
        units = units.saturating_add(1);
        if let Some(ending) = run.unit(&rt, alloc, 0)? {
            assert_eq!(rt; ending.ends_with(b" done"), true);
            endings = endings.saturating_add(1);
        }
        run.replies(&rt, alloc, &BETWEEN)?;
    }
    assert_eq!(rt; endings, 2);
    // Of 156 that are dead for both at most 64 go at once, and each of the two has a last unit.
    assert!(rt; units >= 3 + 2, "{units}");
    shows(&rt, alloc, &mut run, &KEPT_BY_BOTH)?;
    let (after, mut run) = taken(&rt, alloc, run)?;
    assert_eq!(rt; dead(&after, 0, &KEPT_BY_BOTH), 0);
    shows(&rt, alloc, &mut run, &KEPT_BY_BOTH)?;
    Ok(())
}

// What goes on between two units: the file is read as it was, another is made, written twice, and removed.
const BETWEEN: [(&str, &str); 7] = [
    ("cat /@@#15/f 0 1", "ok 1 15"),
    ("cat /@@#14/f 0 1", "not retained"),
    ("touch /g", "ok"),
    ("write /g 0 61", "ok"),
    ("write /g 0 62", "ok"),
    ("cat /g 0 1", "ok 1 62"),
    ("rm /g", "ok"),
];

// A prune whose ticket is dropped stays open, and removes nothing more. All else goes on, and a prune that is opened
// later removes what is dead, before the volume is mounted anew and afterwards.
#[test]
fn a_core_goes_on_where_a_ticket_is_dropped(rt: HostRuntime) -> Result<(), Fail> {
    let alloc = rt.alloc();
    for is_pruned_at_once in [true, false] {
        let mut run = written(&rt, alloc)?;
        assert_eq!(rt; run.ask(&rt, alloc, "prune /s")?.ends_with(b" ok"), true);
        assert_eq!(rt; run.unit(&rt, alloc, 0)?, None);
        run.forget(&rt, 0);
        run.replies(&rt, alloc, &[("write /f 0 cb", "ok"), ("sync", "ok")])?;
        shows(&rt, alloc, &mut run, &KEPT)?;
        if !is_pruned_at_once {
            let (before, again) = taken(&rt, alloc, run)?;
            assert_eq!(rt; dead(&before, 0, &KEPT), DEAD - 64);
            run = again;
        }
        assert_eq!(rt; run.line(&rt, alloc, "prune /s")?.ends_with(b" done"), true);
        let (after, mut run) = taken(&rt, alloc, run)?;
        assert_eq!(rt; dead(&after, 0, &KEPT), 0);
        shows(&rt, alloc, &mut run, &KEPT)?;
    }
    Ok(())
}
