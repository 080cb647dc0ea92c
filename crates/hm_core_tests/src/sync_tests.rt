// What a sync waits for and tells, and when a group of pages is full.
use crate::asks::{Ask, content};
use crate::test_disk::TestDisk;
use crate::volume::{
    Came, OTHER_STAGES, STAGES_OF_FLUSH, Volume, answered, answers, do_all, ended, finished, made,
    mounted, stopped, synced, tried, try_since,
};
use hm_model::Reply;
use hm_types::{Id, NoMemory};
use std::alloc::Global;
use std::process::Abort;
use std::test::Fail;

// Syncs with their ids, and the stages that each waits for, on a new volume. A directory changes the pages that
// a file does; a group without pages takes the other stages alone. What no sync told is lost where the run
// stops.
fn wait_for_what_was_answered(
    rt: &impl Abort,
    alloc: Global,
    new: &TestDisk,
) -> Result<(), NoMemory> {
    let mut core = mounted(rt, alloc, new.copy(alloc)?);
    for (ask, want, id, stages) in [
        (Ask::Sync, synced(1), 2, 0),
        (Ask::Mkdir(0), Reply::Done, 3, 0),
        (Ask::Sync, synced(3), 4, STAGES_OF_FLUSH),
        (Ask::Synctid, synced(4), 5, OTHER_STAGES),
        (Ask::Cat(0), Reply::IsDir, 6, 0),
        (Ask::Synctid, synced(6), 7, OTHER_STAGES),
    ] {
        let answer = answered(rt, alloc, &mut core, ask, &want)?;
        assert_eq!(rt; answer, Some((id, stages)), "{ask:?}");
    }
    assert_eq!(rt; (core.last(), core.boundary()), (Id(7), Id(6)));
    let (disk, ids) = tried(rt, alloc, stopped(rt, core));
    assert_eq!(rt; ids, Ok((Id(6), Id(6))));
    let mut core = mounted(rt, alloc, disk);
    for (ask, want, id) in [
        (Ask::Synctid, synced(6), 7),
        (Ask::Mkdir(0), Reply::Exists, 8),
    ] {
        assert_eq!(rt; answered(rt, alloc, &mut core, ask, &want)?, Some((id, 0)));
    }
    Ok(())
}

// A sync asks for no more than there was as it began, with the last id 2, while other calls go on.
fn waits_for_no_more(rt: &impl Abort, alloc: Global, new: &TestDisk) -> Result<(), NoMemory> {
    let mut core = mounted(rt, alloc, new.copy(alloc)?);
    do_all(rt, alloc, &mut core, &[Ask::Touch(0)])?;
    let since = core.last();
    for _ in 0..STAGES_OF_FLUSH {
        let came = try_since(rt, alloc, &mut core, since, Ask::Sync, &synced(2))?;
        assert_eq!(rt; came, Came::Waits);
        do_all(rt, alloc, &mut core, &[Ask::Write(0)])?;
    }
    let came = try_since(rt, alloc, &mut core, since, Ask::Sync, &synced(2))?;
    let want = Came::Entered {
        id: Id(16),
        wanted: true,
    };
    assert_eq!(rt; came, want);
    assert_eq!(rt; (core.last(), core.boundary()), (Id(16), Id(2)));
    assert!(rt; answers(rt, alloc, &mut core, Ask::Cat(0), &content(alloc)?)?);
    let (_, ids) = tried(rt, alloc, finished(rt, core));
    assert_eq!(rt; ids, Ok((Id(17), Id(17))));
    Ok(())
}

// A sync that begins after so many stages of a flush waits for that one and for the next. So does the last flush.
fn waits_for_two(
    rt: &impl Abort,
    alloc: Global,
    new: &TestDisk,
    stages: u32,
) -> Result<(), NoMemory> {
    let mut core = mounted(rt, alloc, new.copy(alloc)?);
    do_all(rt, alloc, &mut core, &[Ask::Touch(0)])?;
    for _ in 0..stages {
        assert_eq!(rt; core.end_stage(), Ok(false));
    }
    do_all(rt, alloc, &mut core, &[Ask::Touch(1)])?;
    let waits = (2 * STAGES_OF_FLUSH).saturating_sub(stages);
    if stages % 2 == 0 {
        assert_eq!(rt; ended(rt, &mut core), (waits, 0), "{stages}");
    } else {
        let answer = answered(rt, alloc, &mut core, Ask::Synctid, &synced(3))?;
        assert_eq!(rt; answer, Some((4, waits)), "{stages}");
    }
    assert_eq!(rt; core.boundary(), Id(3));
    Ok(())
}

#[test]
fn a_sync_waits_for_what_was_answered_before_it(rt: HostRuntime) -> Result<(), Fail> {
    let alloc = rt.alloc();
    let new = made(&rt, alloc);
    wait_for_what_was_answered(&rt, alloc, &new)?;
    waits_for_no_more(&rt, alloc, &new)?;
    for stages in 1..STAGES_OF_FLUSH {
        waits_for_two(&rt, alloc, &new, stages)?;
    }
    Ok(())
}

// Makes files until one waits, or so many of them. How many were made.
fn fill_group(
    rt: &impl Abort,
    alloc: Global,
    core: &mut Volume,
    most: u32,
) -> Result<u32, NoMemory> {
    for file in 0..most {
        let since = core.last();
        match try_since(rt, alloc, core, since, Ask::Touch(file), &Reply::Done)? {
            Came::Entered { wanted: true, .. } => {}
            Came::Waits => return Ok(file),
            Came::Entered { .. } | Came::Spent => panic!(rt; "refused: {file}"),
        }
    }
    Ok(most)
}

// How many stages it takes until the boundary is this one.
fn stages_to(rt: &impl Abort, core: &mut Volume, boundary: Id) -> u32 {
    let mut made: u32 = 0;
    for _ in 0..4_096 {
        if core.boundary() == boundary {
            return made;
        }
        assert!(rt; core.end_stage().is_ok());
        made = made.saturating_add(1);
    }
    panic!(rt; "the flush does not end")
}

// How many pages a group has whose flush has so many stages: of those that were live as committed a new
// volume has two, its root and one page of layer 2, and both changed.
fn pages_of(stages: u32) -> u32 {
    stages.saturating_sub(OTHER_STAGES + 2)
}

// Makes files until one waits: how many there were, and how many pages had changed. From Freeze on the group is
// empty, and the file is made.
fn filled(rt: &impl Abort, alloc: Global, new: &TestDisk) -> Result<(u32, u32), NoMemory> {
    let mut core = mounted(rt, alloc, new.copy(alloc)?);
    let files = fill_group(rt, alloc, &mut core, 40_000)?;
    do_all(rt, alloc, &mut core, &[Ask::Touch(files)])?;
    let frozen = Id(u64::from(files).saturating_add(1));
    assert_eq!(rt; core.boundary(), Id(1));
    let stages = stages_to(rt, &mut core, frozen).saturating_add(1);
    let (_, ids) = tried(rt, alloc, finished(rt, core));
    let all = Id(frozen.0.saturating_add(1));
    assert_eq!(rt; ids, Ok((all, all)));
    Ok((files, pages_of(stages)))
}

// How many pages changed as so many files were made, none of which waits.
fn not_filled(rt: &impl Abort, alloc: Global, new: &TestDisk, files: u32) -> Result<u32, NoMemory> {
    let mut core = mounted(rt, alloc, new.copy(alloc)?);
    assert_eq!(rt; fill_group(rt, alloc, &mut core, files)?, files);
    let (stages, _) = ended(rt, &mut core);
    Ok(pages_of(stages))
}

// One file changes a few pages at most, so that the group of 1,024 is full with the last one that was made, and
// was not with the one before.
#[test]
fn a_call_waits_where_1024_pages_changed(rt: HostRuntime) -> Result<(), Fail> {
    let alloc = rt.alloc();
    let new = made(&rt, alloc);
    let (files, pages) = filled(&rt, alloc, &new)?;
    assert!(rt; 1_024 <= pages && pages < 1_040, "{pages}");
    let pages = not_filled(&rt, alloc, &new, files.saturating_sub(1))?;
    assert!(rt; 1_000 < pages && pages < 1_024, "{pages}");
    Ok(())
}
