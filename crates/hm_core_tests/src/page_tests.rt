// How many pages change before a call waits, to the page, also while a flush is in flight.
use crate::asks::Ask;
use crate::count::{Count, counted};
use crate::test_disk::TestDisk;
use crate::volume::{
    Came, OTHER_STAGES, Volume, answered, do_all, ended, finished, made, mounted, try_since,
};
use hm_key::Progress;
use hm_model::Reply;
use hm_types::NoMemory;
use std::alloc::Global;
use std::process::Abort;
use std::test::Fail;

// So many files have their inodes and names in more than 1,024 leaves.
const FILES: u32 = 32_000;

// The last of them have bytes, and are left alone at first, with as many before them.
const LAST: u32 = 64;

const EACH: u32 = (FILES - 2 * LAST) / 8;

// A volume with these files, of which nothing is to be flushed.
fn prepared(rt: &impl Abort, alloc: Global) -> Result<TestDisk, NoMemory> {
    let mut core = mounted(rt, alloc, made(rt, alloc));
    for number in 0..FILES + LAST {
        let ask = if number < FILES {
            Ask::Touch(number)
        } else {
            Ask::Write(number - LAST)
        };
        let answer = answered(rt, alloc, &mut core, ask, &Reply::Done)?;
        assert!(rt; answer.is_some(), "{number}");
    }
    finished(rt, core).copy(alloc)
}

// Calls of which each changes one page that had not changed, or none, but that the first one changes a page of layer 2
// besides: one of eight files gets a size, and then one of eight is removed, whose inode stands beside one of these.
// No leaf is filled by them, so that each page was live as committed.
fn call(turn: u32, number: u32) -> Ask {
    if number < EACH {
        Ask::Truncate((number % EACH) * 8 + turn % 4, 5)
    } else {
        Ask::Rm((number % EACH) * 8 + turn % 4 + 4)
    }
}

// Makes these calls until one waits, for which a stage is made. How many were made.
fn until_full(
    rt: &impl Abort,
    alloc: Global,
    core: &mut Volume,
    turn: u32,
) -> Result<u32, NoMemory> {
    for number in 0..2 * EACH {
        let since = core.last();
        let ask = call(turn, number);
        match try_since(rt, alloc, core, since, ask, &Reply::Done)? {
            Came::Entered { wanted: true, .. } => {}
            Came::Waits => return Ok(number),
            Came::Entered { .. } | Came::Spent => panic!(rt; "{ask:?}"),
        }
    }
    panic!(rt; "none waits")
}

// Makes so many of the first of these calls, none of which waits.
fn do_calls(rt: &impl Abort, alloc: Global, core: &mut Volume, count: u32) -> Result<(), NoMemory> {
    for number in 0..count {
        do_all(rt, alloc, core, &[call(0, number)])?;
    }
    Ok(())
}

// How many stages the flush of so many pages has, all of which were live as committed.
fn stages_of(pages: u32) -> u32 {
    pages.saturating_mul(2).saturating_add(OTHER_STAGES)
}

// After the call for which Freeze is made come others, until one waits for the next group: both have 1,024 pages.
fn waits_twice(rt: &impl Abort, alloc: Global, disk: &TestDisk) -> Result<u32, NoMemory> {
    let mut core = mounted(rt, alloc, disk.copy(alloc)?);
    let boundary = core.boundary();
    let calls = until_full(rt, alloc, &mut core, 0)?;
    until_full(rt, alloc, &mut core, 1)?;
    assert_eq!(rt; core.boundary(), boundary);
    let stages = stages_of(1_024).saturating_mul(2).saturating_sub(2);
    assert_eq!(rt; ended(rt, &mut core), (stages, 0));
    Ok(calls)
}

// After so many of the first calls comes this one, and another waits. How many stages the flush has.
fn waits_after(
    rt: &impl Abort,
    alloc: Global,
    disk: &TestDisk,
    calls: u32,
    ask: Ask,
) -> Result<u32, NoMemory> {
    let mut core = mounted(rt, alloc, disk.copy(alloc)?);
    do_calls(rt, alloc, &mut core, calls)?;
    do_all(rt, alloc, &mut core, &[ask])?;
    let since = core.last();
    let came = try_since(rt, alloc, &mut core, since, Ask::Ls, &Reply::Done)?;
    assert_eq!(rt; came, Came::Waits);
    let (left, _) = ended(rt, &mut core);
    Ok(left.saturating_add(1))
}

// With one call less there are 1,023 pages. One of the last files is removed whose name stands in a page that has not
// changed, as its inode does: so there are 1,025.
fn waits_from_1025(
    rt: &impl Abort,
    alloc: Global,
    disk: &TestDisk,
    calls: u32,
) -> Result<(), NoMemory> {
    let before = calls.saturating_sub(1);
    let mut core = mounted(rt, alloc, disk.copy(alloc)?);
    do_calls(rt, alloc, &mut core, before)?;
    assert_eq!(rt; ended(rt, &mut core), (stages_of(1_023), 0));
    for file in FILES - LAST..FILES {
        let stages = waits_after(rt, alloc, disk, before, Ask::Rm(file))?;
        if stages == stages_of(1_025) {
            return Ok(());
        }
        assert_eq!(rt; stages, stages_of(1_024));
    }
    panic!(rt; "none changes two pages")
}

// After so many of the first calls a unit of a job that is handed in makes a stage, and the job is as before. The next one
// is a unit: the pages that changed are frozen.
fn makes_stage_first(
    rt: &impl Abort,
    alloc: Global,
    disk: &TestDisk,
    calls: u32,
) -> Result<(), NoMemory> {
    let mut core = mounted(rt, alloc, disk.copy(alloc)?);
    do_calls(rt, alloc, &mut core, calls)?;
    let mut count = Count::new();
    assert_eq!(rt; counted(rt, &mut core, &mut count), Progress::More);
    assert_eq!(rt; count.found, 0);
    assert_eq!(rt; counted(rt, &mut core, &mut count), Progress::More);
    assert_eq!(rt; count.found, 1);
    let (left, _) = ended(rt, &mut core);
    assert_eq!(rt; left.saturating_add(1), stages_of(1_024));
    Ok(())
}

#[test]
fn a_call_waits_from_1024_changed_pages_on(rt: HostRuntime) -> Result<(), Fail> {
    let alloc = rt.alloc();
    let disk = prepared(&rt, alloc)?;
    let calls = waits_twice(&rt, alloc, &disk)?;
    waits_from_1025(&rt, alloc, &disk, calls)?;
    makes_stage_first(&rt, alloc, &disk, calls)?;
    Ok(())
}
