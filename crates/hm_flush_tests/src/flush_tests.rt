// Flushes of a group: the stages in order, with each call of the disk failing in turn, over the end of the log.
use crate::start::{PLAIN, Start, disk_at, place, volume_at};
use crate::test_disk::{Counts, TestDisk};
use crate::volume::{LAYER2, TREE, Volume, filled, header, slot_of, target};
use hm_disk::Disk;
use hm_flush::Stage;
use hm_header::{Header, SLOT_BYTES, read_header};
use hm_types::{Failed, Fault, PAGE_BYTES, UNDO_ENTRY_BYTES};
use hm_undo::decode;
use std::process::Abort;
use std::test::Fail;

// Makes stages until the last of a flush, and says how many failed.
fn flush(rt: &impl Abort, volume: &mut Volume, disk: &mut TestDisk) -> u32 {
    let mut failed: u32 = 0;
    for _ in 0..40 {
        match volume.stage(disk) {
            Ok(Stage::Commit(3)) => return failed,
            Ok(_) => {}
            Err(Fault::Media { before, after }) => {
                assert!(rt; before < after);
                failed = failed.saturating_add(1);
            }
            Err(_) => panic!(rt; "another fault"),
        }
    }
    panic!(rt; "the flush does not end")
}

// Checks each byte that the flush was to leave, by the layout of a volume of 24 big-blocks: the log
// begins at big-block 3.
fn check_end(rt: &impl Abort, disk: &mut TestDisk, start: Start) -> Result<(), Failed> {
    let entries = (start.next % 16_256, (start.next % 16_256 + 1) % 16_256);
    let next = (start.next % 16_256 + 2) % 16_256;
    let armed_generation = start.generation.wrapping_add(1);
    let armed = header(armed_generation, entries.0, 2, next);
    let committed = Header {
        generation: armed_generation.wrapping_add(1),
        undo_first: entries.0,
        undo_count: 0,
        undo_next: next,
        ..target()
    };
    match read_header(disk) {
        Ok(Ok(counts)) => assert_eq!(rt; counts, (committed, start.slot), "{start:?}"),
        _ => panic!(rt; "no header"),
    }
    let mut slot = [0; SLOT_BYTES];
    let other = if start.slot == 0 { 16_384 } else { 0 };
    disk.read_at(other, &mut slot)?;
    assert!(rt; slot[..] == slot_of(&armed)[..]);
    for (raw, byte) in [
        (LAYER2, 0x40),
        (TREE, 0x10),
        (TREE + 0x1000, 0x31),
        (TREE + 0x2000, 0x32),
        (TREE + 0x3000, 0x33),
        (TREE + 0x4000, 0x14),
    ] {
        let mut page = [0; PAGE_BYTES];
        disk.read_at(place(raw), &mut page)?;
        assert!(rt; page[..] == filled(byte).bytes()[..]);
    }
    for (entry, raw, byte) in [(entries.0, LAYER2, 0x20), (entries.1, TREE + 0x2000, 0x12)] {
        let mut bytes = [0; UNDO_ENTRY_BYTES];
        disk.read_at(3 * 8_388_608 + u64::from(entry) * 4_128, &mut bytes)?;
        match decode(&bytes) {
            Some((at, generation, page)) => {
                assert_eq!(rt; at.raw(), raw);
                assert_eq!(rt; generation, armed_generation);
                assert!(rt; page.bytes()[..] == filled(byte).bytes()[..]);
            }
            None => panic!(rt; "no entry {entry}"),
        }
    }
    Ok(())
}

#[test]
fn stages_come_in_order_with_their_calls(rt: HostRuntime) -> Result<(), Fail> {
    let alloc = rt.alloc();
    let mut disk = disk_at(&rt, alloc, PLAIN, Vec::new(alloc));
    let mut volume = volume_at(&rt, alloc, PLAIN);
    // The pages by their numbers: the one of layer 2, a new one, a changed one, a new one. With each stage
    // its reads, writes and syncs, and the boundary after it.
    for (want, reads, writes, syncs, boundary) in [
        (Stage::Freeze, 0, 0, 0, 5),
        (Stage::Undo(0), 1, 1, 0, 5),
        (Stage::Undo(2), 1, 1, 0, 5),
        (Stage::UndoSync, 0, 0, 1, 5),
        (Stage::Arm(1), 1, 1, 1, 5),
        (Stage::Arm(2), 0, 1, 1, 5),
        (Stage::Arm(3), 0, 1, 1, 5),
        (Stage::Place(0), 0, 1, 0, 5),
        (Stage::Place(1), 0, 1, 0, 5),
        (Stage::Place(2), 0, 1, 0, 5),
        (Stage::Place(3), 0, 1, 0, 5),
        (Stage::PlaceSync, 0, 0, 1, 5),
        (Stage::Commit(1), 1, 1, 1, 5),
        (Stage::Commit(2), 0, 1, 1, 5),
        (Stage::Commit(3), 0, 1, 1, 9),
        // The next group is empty. The gate of the armed header is open.
        (Stage::Freeze, 0, 0, 0, 9),
        (Stage::UndoSync, 0, 0, 1, 9),
        (Stage::Arm(1), 1, 1, 1, 9),
        (Stage::Arm(2), 0, 1, 1, 9),
        (Stage::Arm(3), 0, 1, 1, 9),
        (Stage::PlaceSync, 0, 0, 1, 9),
        (Stage::Commit(1), 1, 1, 1, 9),
        (Stage::Commit(2), 0, 1, 1, 9),
        (Stage::Commit(3), 0, 1, 1, 9),
        (Stage::Freeze, 0, 0, 0, 9),
    ] {
        let before = disk.counts();
        assert_eq!(rt; volume.stage(&mut disk), Ok(want));
        let after = Counts {
            reads: before.reads.saturating_add(reads),
            writes: before.writes.saturating_add(writes),
            syncs: before.syncs.saturating_add(syncs),
        };
        assert_eq!(rt; disk.counts(), after, "{want:?}");
        assert_eq!(rt; volume.boundary().0, boundary, "{want:?}");
    }
    Ok(())
}

#[test]
fn a_call_that_fails_changes_nothing_of_the_end(rt: HostRuntime) -> Result<(), Fail> {
    let alloc = rt.alloc();
    // A flush makes 24 calls. Each fails alone, and with the one after it, which is the first of the
    // same stage again.
    for call in 1..=24 {
        for more in 0..2 {
            let mut fails = vec![in alloc; call]?;
            for next in 0..more {
                fails.push(call + 1 + next)?;
            }
            let mut disk = disk_at(&rt, alloc, PLAIN, fails);
            let mut volume = volume_at(&rt, alloc, PLAIN);
            let failed = flush(&rt, &mut volume, &mut disk);
            assert_eq!(rt; u64::from(failed), 1 + more, "{call}");
            assert_eq!(rt; check_end(&rt, &mut disk, PLAIN), Ok(()), "{call}");
        }
    }
    Ok(())
}

#[test]
fn the_log_and_the_generation_go_on_over_their_end(rt: HostRuntime) -> Result<(), Fail> {
    let alloc = rt.alloc();
    for (slot, generation, next) in [
        (0, 7, 16_250),
        (1, 7, 16_254),
        (0, 7, 16_255),
        (1, 0, 16_255),
        (0, u64::MAX - 1, 0),
        (1, u64::MAX - 1, 0),
        (0, u64::MAX, 1),
        (1, u64::MAX, 1),
    ] {
        let start = Start {
            slot,
            generation,
            next,
        };
        let mut disk = disk_at(&rt, alloc, start, Vec::new(alloc));
        let mut volume = volume_at(&rt, alloc, start);
        assert_eq!(rt; flush(&rt, &mut volume, &mut disk), 0);
        assert_eq!(rt; check_end(&rt, &mut disk, start), Ok(()), "{start:?}");
    }
    Ok(())
}
