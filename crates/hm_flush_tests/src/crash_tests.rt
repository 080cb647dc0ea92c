// Crashes within a flush: each image that one may leave is recovered, and compared with the two that are due.
use crate::plain::{SLOT, recovered};
use crate::start::{PLAIN, Start, disk_at, place, volume_at};
use crate::test_disk::{TestDisk, read_inside};
use crate::volume::{LAYER2, TREE, Volume, filled, header, slot_of, target};
use hm_disk_forms::{Crash, MemDisk};
use hm_flush::Stage;
use hm_header::Header;
use hm_recover::recover;
use hm_types::{Failed, Fault, PAGE_BYTES};
use std::alloc::Global;
use std::process::Abort;
use std::test::Fail;

// What each page holds throughout in the committed state, and in the frozen one. Where a new page is placed
// the committed state has any bytes. No flush writes the rest but the slots and the log.
const PAGES: [(u64, Option<u8>, u8); 9] = [
    (LAYER2 - 0x1000, Some(0), 0),
    (LAYER2, Some(0x20), 0x40),
    (LAYER2 + 0x1000, Some(0), 0),
    (TREE, Some(0x10), 0x10),
    (TREE + 0x1000, None, 0x31),
    (TREE + 0x2000, Some(0x12), 0x32),
    (TREE + 0x3000, None, 0x33),
    (TREE + 0x4000, Some(0x14), 0x14),
    (TREE + 0x5000, Some(0), 0),
];

// Which of the two states an image may recover to.
#[derive(Clone, Copy, Debug)]
struct Due {
    committed: bool,
    frozen: bool,
}

// Compares an image that was recovered, whose slot that counts is this one, with the state that it recovered to.
// Two of the frozen pages were live as committed, so the log has two entries more.
fn compare(
    rt: &impl Abort,
    image: &mut MemDisk,
    slot: &[u8; SLOT],
    due: Due,
    start: Start,
    count: usize,
) {
    let untouched = header(start.generation, 0, 0, start.next);
    let log_used = Header {
        generation: start.generation.wrapping_add(2),
        undo_first: start.next,
        undo_next: (start.next % 16_256 + 2) % 16_256,
        ..untouched
    };
    let frozen = slot[..]
        == slot_of(&Header {
            last: target().last,
            root: target().root,
            append: target().append,
            ..log_used
        })[..];
    assert!(rt;
        frozen || slot[..] == slot_of(&untouched)[..] || slot[..] == slot_of(&log_used)[..],
        "{start:?} {count}"
    );
    assert!(rt;
        if frozen { due.frozen } else { due.committed },
        "{start:?} {count}"
    );
    for (raw, before, after) in PAGES {
        let mut page = [0; PAGE_BYTES];
        assert_eq!(rt; read_inside(image, place(raw), &mut page), Ok(()));
        match if frozen { Some(after) } else { before } {
            Some(byte) => assert!(rt;
                page[..] == filled(byte).bytes()[..],
                "{start:?} {count} {raw:x}"
            ),
            None => {}
        }
    }
}

// Checks the images of a crash after so many changes: as the disk reads; with one unsettled write lost, or
// torn; with all of them lost but one. At most five are unsettled at once: four pages, and one that failed.
fn check_all(rt: &impl Abort, disk: &TestDisk, due: Due, start: Start, count: usize) {
    let others: [[usize; 4]; 5] = [
        [1, 2, 3, 4],
        [0, 2, 3, 4],
        [0, 1, 3, 4],
        [0, 1, 2, 4],
        [0, 1, 2, 3],
    ];
    let unsettled = disk.unsettled(count);
    assert!(rt; unsettled <= 5, "{start:?} {count}");
    check_one(rt, disk, Crash::Lost(&[]), due, start, count);
    for write in 0..unsettled.min(5) {
        check_one(rt, disk, Crash::Lost(&[write]), due, start, count);
        if 1 < unsettled {
            check_one(rt, disk, Crash::Lost(&others[write]), due, start, count);
        }
        for front in [1, 16, 2_048, 4_095] {
            check_one(rt, disk, Crash::Torn { write, front }, due, start, count);
        }
    }
}

// Recovers an image by the plain rules, and once more by hm_recover, and compares it each time.
fn check_one(
    rt: &impl Abort,
    disk: &TestDisk,
    crash: Crash<'_>,
    due: Due,
    start: Start,
    count: usize,
) {
    for by_crate in [false, true] {
        match disk.crashed(count, crash) {
            Ok(mut image) => {
                if by_crate {
                    assert!(rt; recover(&mut image).is_ok(), "{start:?} {count}");
                }
                match recovered(&mut image) {
                    Ok(slot) => compare(rt, &mut image, &slot, due, start, count),
                    Err(Failed) => panic!(rt; "not recovered: {start:?} {count}"),
                }
            }
            Err(_) => panic!(rt; "no image"),
        }
    }
}

// Makes a flush, and tells how many changes were recorded as its last stage was due for the first time.
fn flush(rt: &impl Abort, volume: &mut Volume, disk: &mut TestDisk) -> usize {
    let mut due = 0;
    for _ in 0..40 {
        match volume.stage(disk) {
            Ok(Stage::Commit(3)) => return due,
            Ok(Stage::Commit(2)) => due = disk.changes(),
            Ok(_) | Err(Fault::Media { .. }) => {}
            Err(_) => panic!(rt; "another fault"),
        }
    }
    panic!(rt; "the flush does not end")
}

// Makes a flush, of which these calls fail, and checks the images of a crash at each moment of it.
fn crash_everywhere(rt: &impl Abort, alloc: Global, start: Start, fails: Vec<u64>) {
    let mut disk = disk_at(rt, alloc, start, fails);
    let mut volume = volume_at(rt, alloc, start);
    let begun = disk.changes();
    let last = flush(rt, &mut volume, &mut disk);
    let done = disk.changes();
    assert!(rt; begun < last && last < done);
    for count in begun..done {
        let due = Due {
            committed: true,
            frozen: last < count,
        };
        check_all(rt, &disk, due, start, count);
    }
    let due = Due {
        committed: false,
        frozen: true,
    };
    check_all(rt, &disk, due, start, done);
}

#[test]
fn a_crash_at_each_moment_of_a_flush_is_recovered_from(rt: HostRuntime) -> Result<(), Fail> {
    let alloc = rt.alloc();
    crash_everywhere(&rt, alloc, PLAIN, Vec::new(alloc));
    Ok(())
}

#[test]
fn so_is_one_over_the_end_of_the_log(rt: HostRuntime) -> Result<(), Fail> {
    let alloc = rt.alloc();
    let start = Start {
        slot: 1,
        generation: 7,
        next: 16_255,
    };
    crash_everywhere(&rt, alloc, start, Vec::new(alloc));
    Ok(())
}

#[test]
fn so_is_one_over_the_end_of_the_generations(rt: HostRuntime) -> Result<(), Fail> {
    let alloc = rt.alloc();
    for (slot, generation) in [(0, u64::MAX), (1, u64::MAX - 1)] {
        let start = Start {
            slot,
            generation,
            next: 16_254,
        };
        crash_everywhere(&rt, alloc, start, Vec::new(alloc));
    }
    Ok(())
}

#[test]
fn so_is_one_after_a_write_that_failed(rt: HostRuntime) -> Result<(), Fail> {
    let alloc = rt.alloc();
    // Of an entry, and of a page.
    for call in [4, 15] {
        let fails = vec![in alloc; call]?;
        crash_everywhere(&rt, alloc, PLAIN, fails);
    }
    Ok(())
}

#[test]
fn so_is_one_after_the_last_stage_failed(rt: HostRuntime) -> Result<(), Fail> {
    let alloc = rt.alloc();
    // Its write, and its sync.
    for call in [23, 24] {
        let fails = vec![in alloc; call]?;
        crash_everywhere(&rt, alloc, PLAIN, fails);
    }
    Ok(())
}
