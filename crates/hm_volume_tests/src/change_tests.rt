// Header changes on disks in memory, with a crash after each change of the disk, and with each call of
// the disk failing in turn.
ghost use Rattle.std.specs.Prelude.{◌≤◌};
ghost use Rattle.hm_types.specs.declared.limits.TheConstants.{GREATEST_ID};

use hm_disk::{Disk, write_synced};
use hm_disk_forms::MemDisk;
use hm_header::{
    BODY_BYTES, GATE_OPEN, Header, SLOT_BYTES, VERSION, change_header, encode, read_header,
    slot_place,
};
use hm_types::{Failed, HOff, Id};
use std::alloc::Global;
use std::process::Abort;
use std::test::Fail;

// A header of a volume of 24 big-blocks, with this generation and this last id.
fn header(generation: u64, last: u64) -> Header {
    Header {
        version: VERSION,
        bigblocks: 24,
        generation,
        last: Id(last),
        root: HOff::make(8, 92_274_688).unwrap_or_default(),
        undo_first: 0,
        undo_count: 0,
        undo_next: 0,
        append: [11, 12, 13, 14],
    }
}

// A slot with this header and this gate.
fn slot(header: &Header, gate: u8) -> [u8; SLOT_BYTES] {
    let mut body = [0; BODY_BYTES];
    encode(header, &mut body);
    let mut slot = [gate; SLOT_BYTES];
    slot[..BODY_BYTES].copy_from_slice(&body);
    slot
}

// Writes both slots of a disk.
fn put_slots<D: Disk>(
    disk: &mut D,
    first: &[u8; SLOT_BYTES],
    second: &[u8; SLOT_BYTES],
) -> Result<(), Failed> {
    if disk.size()? < 2 * SLOT_BYTES as u64 {
        return Err(Failed);
    }
    write_synced(disk, slot_place(0), first)?;
    write_synced(disk, slot_place(1), second)
}

// A disk whose header in this slot has the last id 5, beside a slot with this gate, in which the header
// before it stands.
fn disk_with(rt: &impl Abort, alloc: Global, number: u8, gate: u8) -> MemDisk {
    let mut disk = MemDisk::new(alloc, 24, Vec::new(alloc));
    let counts = slot(&header(8, 5), GATE_OPEN);
    let other = slot(&header(7, 4), gate);
    let put = if number == 0 {
        put_slots(&mut disk, &counts, &other)
    } else {
        put_slots(&mut disk, &other, &counts)
    };
    assert_eq!(rt; put, Ok(()));
    disk
}

// The last id of the header that counts, and its slot.
fn counting(rt: &impl Abort, disk: &mut MemDisk) -> (u64, u8) {
    match read_header(disk) {
        Ok(Ok((header, number))) => (header.last.0, number),
        _ => panic!(rt; "no header"),
    }
}

// Reads the header that counts, and makes the next one, with this last id.
fn change<D: Disk>(disk: &mut D, last: u64) -> Result<(), Failed>
    requires least { 1 ≤ last }
    requires most { last ≤ GREATEST_ID }
{
    disk.sync()?;
    match read_header(disk)? {
        Ok((header, number)) => {
            let next = Header {
                generation: header.next_generation(),
                last: Id(last),
                ..header
            };
            change_header(disk, &header, number, &next)
        }
        Err(_) => Err(Failed),
    }
}

#[test]
fn a_crash_leaves_the_old_header_or_the_next_one(rt: HostRuntime) -> Result<(), Fail> {
    let alloc = rt.alloc();
    // The slot that counts, the gate of the other one, and after how many changes of the disk the next
    // header counts: syncs, and writes of the gate where it is open, of the body, and of the gate.
    for (number, gate, opened, all) in [
        (0, 0xA5, 6, 7),
        (1, 0xA5, 6, 7),
        (0, 0x00, 5, 6),
        (1, 0x00, 5, 6),
        (0, 0xA4, 5, 6),
        (1, 0xFF, 5, 6),
    ] {
        let mut disk = disk_with(&rt, alloc, number, gate);
        let before = disk.changes();
        assert_eq!(rt; change(&mut disk, 6), Ok(()));
        let after = disk.changes();
        assert!(rt; before <= after);
        assert_eq!(rt; after - before, all);
        for count in before..=after {
            let mut crashed = disk.after_changes(count)?;
            let want = if count - before < opened {
                (5, number)
            } else {
                (6, 1 - number)
            };
            assert_eq!(rt;
                counting(&rt, &mut crashed),
                want,
                "{number} {gate:x} {count}"
            );
        }
    }
    Ok(())
}

#[test]
fn a_call_that_fails_leaves_the_old_header_or_the_next_one(rt: HostRuntime) -> Result<(), Fail> {
    let alloc = rt.alloc();
    // Where the other gate is open, the calls are a sync, two reads of the size and of the slots, one
    // of the gate, and three times a write and a sync. A gate of which half was written is open still.
    for (number, call, want) in [
        (0, 1, 5),
        (1, 2, 5),
        (0, 3, 5),
        (1, 4, 5),
        (0, 5, 5),
        (1, 6, 5),
        (0, 7, 5),
        (1, 8, 5),
        (0, 9, 5),
        (1, 10, 6),
        (0, 11, 6),
    ] {
        let disk = disk_with(&rt, alloc, number, GATE_OPEN);
        let mut disk = disk.failing(vec![in alloc; call]?);
        let made = change(&mut disk, 6);
        assert_eq!(rt; made.is_err(), call <= 10, "{call}");
        let mut disk = disk.failing(Vec::new(alloc));
        assert_eq!(rt; counting(&rt, &mut disk).0, want, "{call}");
        // Done again, it is made from the header that counts.
        assert_eq!(rt; change(&mut disk, 7), Ok(()));
        assert_eq!(rt; counting(&rt, &mut disk).0, 7, "{call}");
    }
    // A generation goes on at 0.
    assert_eq!(rt; header(8, 5).next_generation(), 9);
    assert_eq!(rt; header(u64::MAX, 5).next_generation(), 0);
    Ok(())
}
