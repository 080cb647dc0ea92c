// Volumes of 24 big-blocks in use on disks in memory, and what their disks hold.
ghost use Rattle.std.specs.Prelude.{◌≤◌};
ghost use Rattle.hm_core.specs.Seen.{seen};
ghost use Rattle.hm_core_tests.specs.Tests.{KeepsOpen};

use crate::asks::Ask;
use crate::test_disk::TestDisk;
use hm_core::{Core, OpenFault, Staged, Step, newfs};
use hm_disk::Disk;
use hm_header::read_header;
use hm_model::{Entry, Reply};
use hm_types::{BIGBLOCK_BYTES, Failed, Fault, Id, NoMemory, PAGE_BYTES};
use std::alloc::Global;
use std::process::Abort;

pub type Volume = Core<TestDisk, u8, u8>;

// How many calls of a disk mount such a volume as it is made: two read the header, 64 each layer of the
// freemap, one the root, and two the payloads.
pub const CALLS_OF_MOUNT: u64 = 133;

// How many stages a flush has beside one for each page, and one more for each that was live as committed:
// Freeze, UndoSync, three of Arm, PlaceSync and three of Commit.
pub const OTHER_STAGES: u32 = 9;

// Those of the flush of a file that was made on a new volume. Two pages changed, the root and one of layer 2, both of
// them live as committed.
pub const STAGES_OF_FLUSH: u32 = OTHER_STAGES + 4;

// No flush of these tests has more stages.
const MOST_STAGES: u32 = 8_192;

// What a call is answered for which a stage of a flush fails, where no call of the disk failed before.
pub const FAILED: Reply = Reply::Media {
    before: 0,
    after: 1,
};

pub fn synced(boundary: u64) -> Reply {
    Reply::Synced {
        boundary: Id(boundary),
    }
}

// A volume as it is made.
pub fn made(rt: &impl Abort, alloc: Global) -> TestDisk {
    let mut disk = TestDisk::new(alloc, Vec::new(alloc));
    assert_eq!(rt; newfs(&mut disk, 24), Ok(()));
    disk
}

// A disk on which the entries of layer 2 say that these big-blocks are filled so far, each of them no less than it is.
pub fn filled_to(
    rt: &impl Abort,
    alloc: Global,
    disk: TestDisk,
    rows: &[(u32, u32)],
) -> Result<TestDisk, NoMemory> {
    let mut disk = disk;
    for (block, filled) in rows {
        let place = 2 * BIGBLOCK_BYTES + 16 * u64::from(*block) + 4;
        assert_eq!(rt; disk.write_at(place, &filled.to_le_bytes()), Ok(()));
    }
    disk.copy(alloc)
}

pub fn mounted(rt: &impl Abort, alloc: Global, disk: TestDisk) -> Volume {
    match Core::mount(alloc, disk, 1, 2) {
        Ok(core) => core,
        Err(_) => panic!(rt; "not mounted"),
    }
}

// Mounts a disk, and gives it back, with the last id and the boundary, or why it was refused.
pub fn tried(
    rt: &impl Abort,
    alloc: Global,
    disk: TestDisk,
) -> (TestDisk, Result<(Id, Id), OpenFault>) {
    let (disk, input, output, answer) = match Core::mount(alloc, disk, 1u8, 2u8) {
        Ok(core) => {
            let ids = (core.last(), core.boundary());
            let (disk, input, output) = core.into_devices();
            (disk, input, output, Ok(ids))
        }
        Err((disk, input, output, fault)) => (disk, input, output, Err(fault)),
    };
    assert_eq!(rt; (input, output), (1, 2));
    (disk, answer)
}

// The slot whose header counts on a disk, and its generation.
pub fn header_of(rt: &impl Abort, disk: &mut TestDisk) -> (u8, u64) {
    match read_header(disk) {
        Ok(Ok((header, slot))) => (slot, header.generation),
        _ => panic!(rt; "no header"),
    }
}

// Makes the stages of the last flush, however often one fails. How many were made, and how many failed.
pub fn ended(rt: &impl Abort, core: &mut Volume) -> (u32, u32) {
    let mut made: u32 = 0;
    let mut failed: u32 = 0;
    for _ in 0..MOST_STAGES {
        match core.end_stage() {
            Ok(true) => return (made.saturating_add(1), failed),
            Ok(false) => made = made.saturating_add(1),
            Err(Fault::Media { before, after }) => {
                assert!(rt; before < after);
                failed = failed.saturating_add(1);
            }
            Err(_) => panic!(rt; "another fault"),
        }
    }
    panic!(rt; "the flush does not end")
}

// Gives the disk of a volume as it stands.
pub fn stopped(rt: &impl Abort, core: Volume) -> TestDisk {
    let (disk, input, output) = core.into_devices();
    assert_eq!(rt; (input, output), (1, 2));
    disk
}

// Ends the use of a volume, and gives its disk.
pub fn finished(rt: &impl Abort, mut core: Volume) -> TestDisk {
    let (_, failed) = ended(rt, &mut core);
    assert_eq!(rt; failed, 0);
    assert_eq!(rt; core.boundary(), core.last());
    stopped(rt, core)
}

// What came of a call that was tried.
#[derive(Clone, Copy, Debug, PartialEq, Eq)]
pub enum Came {
    // It was entered with this id, and its reply was the one that was wanted, or not.
    Entered { id: Id, wanted: bool },
    // A stage was made for it, and it waits.
    Waits,
    // No id was left.
    Spent,
}

// How an entry came out. It must be that of the call.
fn outcome_of(
    rt: &impl Abort,
    alloc: Global,
    entry: &Entry,
    ask: Ask,
    want: &Reply,
) -> Result<Came, NoMemory> {
    assert_eq!(rt; (entry.lane, entry.line), (3, 7));
    assert!(rt; entry.call == ask.command(alloc)?);
    Ok(Came::Entered {
        id: entry.id,
        wanted: entry.reply == *want,
    })
}

// Makes a stage of a flush for a call.
pub fn stage_for(
    rt: &impl Abort,
    alloc: Global,
    core: &mut Volume,
    ask: Ask,
    want: &Reply,
) -> Result<Came, NoMemory>
    ensures { KeepsOpen (seen core.old) (seen core.new) }
{
    core.reserve(2)?;
    match core.flush_stage(3, 7, ask.command(alloc)?) {
        Staged::More(back) => {
            assert!(rt; back == ask.command(alloc)?);
            Ok(Came::Waits)
        }
        Staged::Refused(place) => outcome_of(rt, alloc, core.entry(place), ask, want),
        Staged::Spent => Ok(Came::Spent),
    }
}

// The earlier of an id and the last one.
pub fn up_to(id: Id, last: Id) -> Id
    ensures { result.0 ≤ last.0 }
{
    if last.0 < id.0 { last } else { id }
}

// Tries a call once that began with this last id, and makes a stage for it where it waits.
pub fn try_since(
    rt: &impl Abort,
    alloc: Global,
    core: &mut Volume,
    since: Id,
    ask: Ask,
    want: &Reply,
) -> Result<Came, NoMemory>
    ensures { KeepsOpen (seen core.old) (seen core.new) }
{
    core.reserve(2)?;
    let since = up_to(since, core.last());
    match core.call(3, 7, since, ask.command(alloc)?) {
        Step::Answered(place) => outcome_of(rt, alloc, core.entry(place), ask, want),
        Step::Opened(place, _) => outcome_of(rt, alloc, core.entry(place), ask, want),
        Step::MustFlush(back) => {
            assert!(rt; back == ask.command(alloc)?);
            stage_for(rt, alloc, core, ask, want)
        }
        Step::Spent => Ok(Came::Spent),
    }
}

// Serves a call that begins now to its end: its id and how many stages it waited for, where its reply is
// this one.
pub fn answered(
    rt: &impl Abort,
    alloc: Global,
    core: &mut Volume,
    ask: Ask,
    want: &Reply,
) -> Result<Option<(u64, u32)>, NoMemory> {
    let since = core.last();
    for stages in 0..MOST_STAGES {
        match try_since(rt, alloc, core, since, ask, want)? {
            Came::Waits => {}
            Came::Entered { id, wanted: true } => return Ok(Some((id.0, stages))),
            Came::Entered { .. } | Came::Spent => return Ok(None),
        }
    }
    Ok(None)
}

// Whether a call is answered so, without a flush.
pub fn answers(
    rt: &impl Abort,
    alloc: Global,
    core: &mut Volume,
    ask: Ask,
    want: &Reply,
) -> Result<bool, NoMemory> {
    Ok(matches!(answered(rt, alloc, core, ask, want)?, Some((_, 0))))
}

// Serves calls that are all done, without a flush.
pub fn do_all(
    rt: &impl Abort,
    alloc: Global,
    core: &mut Volume,
    asks: &[Ask],
) -> Result<(), NoMemory> {
    for ask in asks {
        assert!(rt; answers(rt, alloc, core, *ask, &Reply::Done)?, "{ask:?}");
    }
    Ok(())
}

// Whether two disks have the same first pages of each of these big-blocks. These tests write no others.
pub fn have_same(
    one: &mut TestDisk,
    other: &mut TestDisk,
    from: u64,
    to: u64,
) -> Result<bool, Failed> {
    for block in from..to {
        for page in 0..16 {
            let place = block % 24 * BIGBLOCK_BYTES + page * PAGE_BYTES as u64;
            let mut first = [0; PAGE_BYTES];
            let mut second = [0; PAGE_BYTES];
            one.read_at(place, &mut first)?;
            other.read_at(place, &mut second)?;
            if first[..] != second[..] {
                return Ok(false);
            }
        }
    }
    Ok(true)
}

// So many big-blocks of the pool are free, of 13.
pub fn has_free(
    rt: &impl Abort,
    alloc: Global,
    core: &mut Volume,
    free: u32,
) -> Result<(), NoMemory> {
    let want = Reply::Space { pool: 13, free };
    assert!(rt; answers(rt, alloc, core, Ask::Df, &want)?, "{free}");
    Ok(())
}
