// Volumes in use, whose use is ended, and which are mounted again.
use crate::asks::{Ask, content};
use crate::test_disk::TestDisk;
use crate::volume::{
    CALLS_OF_MOUNT, answers, do_all, finished, has_free, header_of, made, mounted, tried,
};
use hm_core::{Core, OpenFault, newfs};
use hm_disk::Disk;
use hm_model::Reply;
use hm_pipe::{MemSink, MemSource};
use hm_types::{Fault, HOff, Id, NoMemory};
use std::alloc::Global;
use std::process::Abort;
use std::test::Fail;

// How many calls of a disk make a volume of 24 big-blocks.
const CALLS_OF_NEWFS: u64 = 138;

// Makes the file and writes it, and ends the use of the volume.
fn first_use(rt: &impl Abort, alloc: Global, disk: TestDisk) -> Result<TestDisk, NoMemory> {
    let mut core = mounted(rt, alloc, disk);
    for (ask, want) in [
        (Ask::Touch(0), Reply::Done),
        (Ask::Touch(0), Reply::Exists),
        (Ask::Write(0), Reply::Done),
        (Ask::Cat(0), content(alloc)?),
    ] {
        assert!(rt; answers(rt, alloc, &mut core, ask, &want)?, "{ask:?}");
    }
    Ok(finished(rt, core))
}

// Finds the file as it was written, and ends the use of the volume.
fn second_use(rt: &impl Abort, alloc: Global, disk: TestDisk) -> Result<TestDisk, NoMemory> {
    let mut core = mounted(rt, alloc, disk);
    assert_eq!(rt; (core.last(), core.boundary()), (Id(5), Id(5)));
    for (ask, want) in [
        (Ask::Cat(0), content(alloc)?),
        (Ask::Touch(0), Reply::Exists),
    ] {
        assert!(rt; answers(rt, alloc, &mut core, ask, &want)?, "{ask:?}");
    }
    Ok(finished(rt, core))
}

// Finds the file again, and removes it.
fn third_use(rt: &impl Abort, alloc: Global, disk: TestDisk) -> Result<(), NoMemory> {
    let mut core = mounted(rt, alloc, disk);
    assert_eq!(rt; (core.last(), core.boundary()), (Id(7), Id(7)));
    for (ask, want) in [
        (Ask::Cat(0), content(alloc)?),
        (Ask::Rm(0), Reply::Done),
        (Ask::Cat(0), Reply::NotFound),
    ] {
        assert!(rt; answers(rt, alloc, &mut core, ask, &want)?, "{ask:?}");
    }
    assert_eq!(rt; (core.last(), core.boundary()), (Id(10), Id(7)));
    Ok(())
}

// A volume in which nothing was done is not written.
fn no_use(rt: &impl Abort, alloc: Global, disk: TestDisk) -> Result<TestDisk, NoMemory> {
    let before = disk.changes();
    let mut core = mounted(rt, alloc, disk);
    core.reserve(2)?;
    assert_eq!(rt; core.end_stage(), Ok(true));
    let disk = finished(rt, core);
    assert_eq!(rt; disk.changes(), before);
    Ok(disk)
}

// A larger volume has no room where one is, which is left and can be mounted.
fn has_no_room(rt: &impl Abort, alloc: Global, mut disk: TestDisk) -> Result<TestDisk, NoMemory> {
    let small = Err(OpenFault::BadField { place: 12 });
    assert_eq!(rt; newfs(&mut disk, 25), small);
    let mut core = mounted(rt, alloc, disk);
    // The pool has 13 big-blocks, and each of four zones appends to one.
    let space = Reply::Space { pool: 13, free: 9 };
    assert!(rt; answers(rt, alloc, &mut core, Ask::Df, &space)?);
    Ok(finished(rt, core))
}

// Whether a value may be handed to another thread is asked of its type alone.
fn may_be_sent<T: Send>(_value: &T) {}

fn core_may_be_sent(rt: &impl Abort, alloc: Global, disk: TestDisk) {
    let input = MemSource::new(Vec::new(alloc), Vec::new(alloc));
    let output = MemSink::new(alloc, Vec::new(alloc));
    match Core::mount(alloc, disk, input, output) {
        Ok(core) => may_be_sent(&core),
        Err(_) => panic!(rt; "not mounted"),
    }
}

// A flush changes the header twice, each time in the other slot, with the next generation.
#[test]
fn what_was_done_is_found_again(rt: HostRuntime) -> Result<(), Fail> {
    let alloc = rt.alloc();
    let mut disk = no_use(&rt, alloc, made(&rt, alloc))?;
    assert_eq!(rt; header_of(&rt, &mut disk), (0, 1));
    let mut disk = first_use(&rt, alloc, disk)?;
    assert_eq!(rt; header_of(&rt, &mut disk), (0, 3));
    let mut disk = second_use(&rt, alloc, disk)?;
    assert_eq!(rt; header_of(&rt, &mut disk), (0, 5));
    third_use(&rt, alloc, disk)?;
    let disk = has_no_room(&rt, alloc, made(&rt, alloc))?;
    core_may_be_sent(&rt, alloc, disk);
    Ok(())
}

// The first fault of a disk.
fn first_fault() -> OpenFault {
    OpenFault::Fault(Fault::Media {
        before: 0,
        after: 1,
    })
}

// Each call of making and of mounting that fails is told.
fn fail_in_turn(rt: &impl Abort, alloc: Global) -> Result<(), NoMemory> {
    for call in 1..=CALLS_OF_NEWFS {
        let mut disk = TestDisk::new(alloc, vec![in alloc; call]?);
        assert_eq!(rt; newfs(&mut disk, 24), Err(first_fault()), "{call}");
    }
    let mut disk = TestDisk::new(alloc, vec![in alloc; CALLS_OF_NEWFS + 1]?);
    assert_eq!(rt; newfs(&mut disk, 24), Ok(()));
    for call in 1..=CALLS_OF_MOUNT {
        let (back, answer) = tried(rt, alloc, disk.failing(vec![in alloc; call]?));
        assert_eq!(rt; answer, Err(first_fault()), "{call}");
        disk = back;
    }
    let disk = disk.failing(vec![in alloc; CALLS_OF_MOUNT + 1]?);
    let (_, answer) = tried(rt, alloc, disk);
    assert_eq!(rt; answer, Ok((Id(1), Id(1))));
    Ok(())
}

// A header that names entries of a log without any is refused, and nothing is written.
fn name_entries(rt: &impl Abort, alloc: Global, count: [u8; 4], want: OpenFault) {
    let mut disk = made(rt, alloc);
    assert_eq!(rt; disk.write_at(44, &count), Ok(()));
    let changes = disk.changes();
    let (disk, answer) = tried(rt, alloc, disk);
    assert_eq!(rt; answer, Err(want), "{count:?}");
    assert_eq!(rt; disk.changes(), changes);
}

// The damage of an entry of the log.
fn bad_entry(raw: u64) -> OpenFault {
    OpenFault::Fault(Fault::Damaged {
        at: HOff::from_raw(raw).unwrap_or_default(),
        kind: 8,
    })
}

#[test]
fn what_cannot_be_opened_is_told(rt: HostRuntime) -> Result<(), Fail> {
    let alloc = rt.alloc();
    fail_in_turn(&rt, alloc)?;
    // One, where the last is damaged that is named; 16,128, the most; and one more, which is out of range.
    for (count, want) in [
        ([1, 0, 0, 0], bad_entry(0x3000_0000_0180_0000)),
        ([0, 0x3F, 0, 0], bad_entry(0x3000_0000_0577_CFE0)),
        ([1, 0x3F, 0, 0], OpenFault::BadField { place: 44 }),
    ] {
        name_entries(&rt, alloc, count, want);
    }
    Ok(())
}

// A fill takes 16,384 bytes of a big-block of large pieces, and begins another where it finds less than 131,072
// there. So 505 of them go into the first one, and the next 505 into the second.
#[test]
fn df_tells_when_a_big_block_was_begun(rt: HostRuntime) -> Result<(), Fail> {
    let alloc = rt.alloc();
    let mut core = mounted(&rt, alloc, made(&rt, alloc));
    do_all(&rt, alloc, &mut core, &[Ask::Touch(0)])?;
    for free in [9, 8, 7] {
        for _ in 0..505 {
            do_all(&rt, alloc, &mut core, &[Ask::Fill(0, 7)])?;
            has_free(&rt, alloc, &mut core, free)?;
        }
    }
    do_all(&rt, alloc, &mut core, &[Ask::Fill(0, 7)])?;
    has_free(&rt, alloc, &mut core, 6)?;
    Ok(())
}
