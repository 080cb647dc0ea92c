// Flushes of a volume: each call of each stage fails in turn, and is made again.
use crate::asks::Ask;
use crate::test_disk::TestDisk;
use crate::volume::{
    CALLS_OF_MOUNT, Came, FAILED, STAGES_OF_FLUSH, Volume, answered, answers, do_all, ended,
    finished, have_same, header_of, made, mounted, stage_for, stopped, synced, tried,
};
use hm_disk::Disk;
use hm_model::Reply;
use hm_types::{GREATEST_ID, Id, NoMemory};
use std::alloc::Global;
use std::process::Abort;
use std::test::Fail;

// A file that is made reads three payloads and writes two.
const CALLS_OF_TOUCH: u64 = 5;

// Undo reads and writes, and Place writes. Arm 1 reads the gate of the slot that was never written, and
// syncs; Commit 1 closes the other one's besides. The other stages of Arm and of Commit write and sync.
const CALLS_OF_FLUSH: u64 = 2 * 2 + 1 + 2 + 2 + 2 + 2 + 1 + 3 + 2 + 2;

// A volume in which a file was made, on a disk that fails this call of the flush.
fn touched(rt: &impl Abort, alloc: Global, new: &TestDisk, call: u64) -> Result<Volume, NoMemory> {
    let fails = vec![in alloc; (CALLS_OF_MOUNT + CALLS_OF_TOUCH).saturating_add(call)]?;
    let mut core = mounted(rt, alloc, new.copy(alloc)?.failing(fails));
    do_all(rt, alloc, &mut core, &[Ask::Touch(0)])?;
    Ok(core)
}

// The last flush goes on where a stage failed, and the volume is that of one without failures. Whether one did.
fn ends_so(rt: &impl Abort, mut core: Volume, plain: &mut TestDisk, alloc: Global) -> u32 {
    let (stages, failed) = ended(rt, &mut core);
    assert_eq!(rt; stages, STAGES_OF_FLUSH);
    assert_eq!(rt; (core.last(), core.boundary()), (Id(2), Id(2)));
    let mut disk = stopped(rt, core).failing(Vec::new(alloc));
    assert_eq!(rt; have_same(&mut disk, plain, 0, 24), Ok(true));
    failed
}

// Makes stages for a call until it does not wait, and says how many there were.
fn made_for_call(
    rt: &impl Abort,
    alloc: Global,
    core: &mut Volume,
) -> Result<(Came, u32), NoMemory> {
    for stages in 0..STAGES_OF_FLUSH {
        let came = stage_for(rt, alloc, core, Ask::Touch(1), &FAILED)?;
        if came != Came::Waits {
            return Ok((came, stages));
        }
    }
    Ok((Came::Waits, STAGES_OF_FLUSH))
}

// A call is refused whose stage fails, and did nothing. A sync makes the stage again, and then those of a flush that
// brings the refused call's id: no page has changed.
fn refuses_so(rt: &impl Abort, alloc: Global, mut core: Volume) -> Result<(), NoMemory> {
    let (came, made) = made_for_call(rt, alloc, &mut core)?;
    let want = Came::Entered {
        id: Id(3),
        wanted: true,
    };
    assert_eq!(rt; came, want);
    assert_eq!(rt; (core.last(), core.boundary()), (Id(3), Id(1)));
    let answer = answered(rt, alloc, &mut core, Ask::Synctid, &synced(3))?;
    let more = STAGES_OF_FLUSH - 4;
    assert_eq!(rt;
        answer,
        Some((4, (STAGES_OF_FLUSH + more).saturating_sub(made)))
    );
    assert!(rt; answers(rt, alloc, &mut core, Ask::Cat(1), &Reply::NotFound)?);
    let (_, ids) = tried(rt, alloc, finished(rt, core));
    assert_eq!(rt; ids, Ok((Id(5), Id(5))));
    Ok(())
}

// A volume whose last id is this one.
fn late(rt: &impl Abort, alloc: Global, last: u64) -> TestDisk {
    let mut disk = made(rt, alloc);
    assert_eq!(rt; disk.write_at(24, &last.to_le_bytes()), Ok(()));
    disk
}

// At the greatest id a call for which a stage fails has no entry, and the stage is made again.
fn has_no_entry(rt: &impl Abort, alloc: Global) -> Result<(), NoMemory> {
    let before = GREATEST_ID - 1;
    let mut core = touched(rt, alloc, &late(rt, alloc, before), 1)?;
    assert_eq!(rt; core.last(), Id(GREATEST_ID));
    for ask in [Ask::Touch(1), Ask::Sync, Ask::Df] {
        assert_eq!(rt; answered(rt, alloc, &mut core, ask, &Reply::Done)?, None);
    }
    // Freeze is made, Undo fails, and is made again.
    for want in [Came::Waits, Came::Spent, Came::Waits] {
        assert_eq!(rt;
            stage_for(rt, alloc, &mut core, Ask::Sync, &Reply::Done)?,
            want
        );
    }
    let ids = (core.last(), core.boundary());
    assert_eq!(rt; ids, (Id(GREATEST_ID), Id(before)));
    let (_, ids) = tried(rt, alloc, finished(rt, core));
    assert_eq!(rt; ids, Ok((Id(GREATEST_ID), Id(GREATEST_ID))));
    Ok(())
}

#[test]
fn a_stage_that_failed_is_made_again(rt: HostRuntime) -> Result<(), Fail> {
    let alloc = rt.alloc();
    let new = made(&rt, alloc);
    let plain = finished(&rt, touched(&rt, alloc, &new, 100)?);
    let mut plain = plain.failing(Vec::new(alloc));
    assert_eq!(rt; header_of(&rt, &mut plain), (0, 3));
    let mut failed: u32 = 0;
    for call in 1..=CALLS_OF_FLUSH + 3 {
        let core = touched(&rt, alloc, &new, call)?;
        failed = failed.saturating_add(ends_so(&rt, core, &mut plain, alloc));
    }
    assert_eq!(rt; u64::from(failed), CALLS_OF_FLUSH);
    for call in 1..=CALLS_OF_FLUSH {
        refuses_so(&rt, alloc, touched(&rt, alloc, &new, call)?)?;
    }
    has_no_entry(&rt, alloc)?;
    Ok(())
}
