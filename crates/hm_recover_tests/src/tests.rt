// Volumes laid out by hand: their ranges undone, damaged, and stopped at each call and each change.

use hm_disk::{Disk, read_all_at, write_all_at};
use hm_disk_forms::MemDisk;
use hm_header::{BODY_BYTES, GATE_OPEN, Header, SLOT_BYTES, VERSION, encode};
use hm_recover::{OpenFault, Opened, recover};
use hm_types::{Failed, Fault, HOff, Id, PAGE_BYTES, UNDO_ENTRY_BYTES};
use std::alloc::Global;
use std::test::Fail;

// Where the log begins, and its last entry, on a volume of 24 big-blocks.
const LOG: u64 = 25_165_824;

const LAST_ENTRY: u64 = 92_266_464;

// A page of the B-tree in big-block 12, and one of layer 2 of the freemap, as an entry names them, and
// where they stand.
const TREE_PAGE: u64 = 0x8000_0000_0600_1000;

const TREE_PLACE: u64 = 100_667_392;

const MAP_PAGE: u64 = 0x4000_0000_0100_2000;

const MAP_PLACE: u64 = 16_785_408;

// The header that counts, of generation 2^64 - 1, with a range of so many entries from the last one on.
fn header(count: u32) -> Header {
    Header {
        version: VERSION,
        bigblocks: 24,
        generation: u64::MAX,
        last: Id(9),
        root: HOff::make(8, 92_274_688).unwrap_or_default(),
        undo_first: 16_255,
        undo_count: count,
        undo_next: 1,
        append: [11, 12, 13, 14],
    }
}

// The header after recovery.
fn recovered() -> Header {
    Header {
        generation: 0,
        ..header(0)
    }
}

// The header that counts after recovery, and its slot.
fn opened_after(number: u8, count: u32) -> Opened {
    if count == 0 {
        Opened {
            header: header(0),
            slot: number,
        }
    } else {
        Opened {
            header: recovered(),
            slot: if number == 0 { 1 } else { 0 },
        }
    }
}

fn put(disk: &mut MemDisk, place: u64, bytes: &[u8]) -> Result<(), Failed> {
    let size = disk.size()?;
    if bytes.len() as u64 > size || place > size - bytes.len() as u64 {
        return Err(Failed);
    }
    write_all_at(disk, place, bytes)
}

fn get(disk: &mut MemDisk, place: u64, bytes: &mut [u8]) -> Result<(), Failed> {
    let size = disk.size()?;
    if bytes.len() as u64 > size || place > size - bytes.len() as u64 {
        return Err(Failed);
    }
    read_all_at(disk, place, bytes)
}

// A slot with this header and an open gate.
fn slot(header: &Header) -> [u8; SLOT_BYTES] {
    let mut body = [0; BODY_BYTES];
    encode(header, &mut body);
    let mut slot = [GATE_OPEN; SLOT_BYTES];
    slot[..BODY_BYTES].copy_from_slice(&body);
    slot
}

// The entry of a page that held this byte throughout.
fn entry(page: u64, byte: u8) -> [u8; UNDO_ENTRY_BYTES] {
    let mut entry = [byte; UNDO_ENTRY_BYTES];
    entry[..8].copy_from_slice(b"HMRUNDO1");
    entry[8..16].copy_from_slice(&page.to_le_bytes());
    entry[16..24].copy_from_slice(&[0xFF; 8]);
    entry[24..32].copy_from_slice(&[0; 8]);
    entry
}

// A disk whose header counts in this slot, beside the header before it, and names so many entries: the
// page of the tree held 'a' throughout, and that of the freemap 'b'. Both hold 'x' now.
fn volume(alloc: Global, number: u8, count: u32) -> Result<MemDisk, Fail> {
    let mut disk = MemDisk::new(alloc, 24, Vec::new(alloc));
    let before = Header {
        generation: u64::MAX - 1,
        ..header(0)
    };
    let (first, second) = if number == 0 {
        (slot(&header(count)), slot(&before))
    } else {
        (slot(&before), slot(&header(count)))
    };
    put(&mut disk, 0, &first)?;
    put(&mut disk, 16_384, &second)?;
    put(&mut disk, LAST_ENTRY, &entry(TREE_PAGE, b'a'))?;
    put(&mut disk, LOG, &entry(MAP_PAGE, b'b'))?;
    put(&mut disk, TREE_PLACE, &[b'x'; PAGE_BYTES])?;
    put(&mut disk, MAP_PLACE, &[b'x'; PAGE_BYTES])?;
    disk.sync()?;
    Ok(disk)
}

// The bytes of both slots and both pages.
fn bytes_of(alloc: Global, disk: &mut MemDisk) -> Result<Vec<u8>, Fail> {
    let mut slots = [0; 2 * SLOT_BYTES];
    get(disk, 0, &mut slots)?;
    let mut bytes = slots.to_vec(alloc)?;
    let mut page = [0; PAGE_BYTES];
    get(disk, TREE_PLACE, &mut page)?;
    bytes.extend_from_slice(&page)?;
    get(disk, MAP_PLACE, &mut page)?;
    bytes.extend_from_slice(&page)?;
    Ok(bytes)
}

// What they are after recovery of a range of two entries, which the header of slot 0 named.
fn recovered_bytes(alloc: Global) -> Result<Vec<u8>, Fail> {
    let mut bytes = slot(&header(2)).to_vec(alloc)?;
    bytes.extend_from_slice(&slot(&recovered()))?;
    bytes.extend_from_slice(&[b'a'; PAGE_BYTES])?;
    bytes.extend_from_slice(&[b'b'; PAGE_BYTES])?;
    Ok(bytes)
}

#[test]
fn old_pages_come_back_and_stay(rt: HostRuntime) -> Result<(), Fail> {
    for (number, count, tree, map) in [
        (0, 0, b'x', b'x'),
        (0, 1, b'a', b'x'),
        (0, 2, b'a', b'b'),
        (1, 0, b'x', b'x'),
        (1, 1, b'a', b'x'),
        (1, 2, b'a', b'b'),
    ] {
        let mut disk = volume(rt.alloc(), number, count)?;
        let made = disk.changes();
        assert_eq!(rt;
            recover(&mut disk),
            Ok(opened_after(number, count)),
            "{number} {count}"
        );
        assert_eq!(rt; disk.changes() == made, count == 0, "{number} {count}");
        let done = disk.changes();
        assert_eq!(rt;
            recover(&mut disk),
            Ok(opened_after(number, count)),
            "{number} {count}"
        );
        assert_eq!(rt; disk.changes(), done, "{number} {count}");
        for (place, want) in [(TREE_PLACE, tree), (MAP_PLACE, map)] {
            let mut page = [0; PAGE_BYTES];
            get(&mut disk, place, &mut page)?;
            assert_eq!(rt; page, [want; PAGE_BYTES], "{number} {count} {place}");
        }
    }
    Ok(())
}

#[test]
fn the_damage_that_comes_first_is_told_and_nothing_is_written(rt: HostRuntime) -> Result<(), Fail> {
    let last = 0x3000_0000_057F_DFE0;
    let first = 0x3000_0000_0180_0000;
    for (place, bytes, want) in [
        // What each entry begins with.
        (
            LAST_ENTRY,
            [0x48, 0x4D, 0x52, 0x55, 0x4E, 0x44, 0x4F, 0x32],
            last,
        ),
        (LOG, [0; 8], first),
        // The offset: of zone 9, of volume 1, of no page, of the log, past the volume.
        (LAST_ENTRY + 8, 0x9000_0000_0600_1000u64.to_le_bytes(), last),
        (LAST_ENTRY + 8, 0x8010_0000_0600_1000u64.to_le_bytes(), last),
        (LAST_ENTRY + 8, 0x8000_0000_0600_1010u64.to_le_bytes(), last),
        (LAST_ENTRY + 8, 0x8000_0000_057F_F000u64.to_le_bytes(), last),
        (LAST_ENTRY + 8, 0x8000_0000_0C00_0000u64.to_le_bytes(), last),
        // Layer 2 of a larger volume, layer 1, and the pool in the zone of the freemap.
        (LOG + 8, 0x4000_0000_0180_0000u64.to_le_bytes(), first),
        (LOG + 8, 0x4000_0000_0080_0000u64.to_le_bytes(), first),
        (LOG + 8, 0x4000_0000_0600_1000u64.to_le_bytes(), first),
        // The generations beside the header's.
        (
            LAST_ENTRY + 16,
            0xFFFF_FFFF_FFFF_FFFEu64.to_le_bytes(),
            last,
        ),
        (LOG + 16, [0; 8], first),
        // The zeros.
        (LAST_ENTRY + 24, [1, 0, 0, 0, 0, 0, 0, 0], last),
        (LOG + 24, [0, 0, 0, 0, 0, 0, 0, 1], first),
    ] {
        let mut disk = volume(rt.alloc(), 0, 2)?;
        put(&mut disk, place, &bytes)?;
        let made = disk.changes();
        let fault = Fault::Damaged {
            at: HOff::from_raw(want).unwrap_or_default(),
            kind: 8,
        };
        assert_eq!(rt; recover(&mut disk), Err(OpenFault::Fault(fault)), "{place}");
        // With the other entry damaged too, the last one is told: that at the start of the log.
        put(&mut disk, LOG, &[0; 8])?;
        let fault = Fault::Damaged {
            at: HOff::from_raw(first).unwrap_or_default(),
            kind: 8,
        };
        assert_eq!(rt; recover(&mut disk), Err(OpenFault::Fault(fault)), "{place}");
        assert_eq!(rt; disk.changes(), made + 1, "{place}");
    }
    let mut disk = MemDisk::new(rt.alloc(), 24, Vec::new(rt.alloc()));
    assert_eq!(rt; recover(&mut disk), Err(OpenFault::NotVolume));
    let mut disk = volume(rt.alloc(), 0, 16_129)?;
    assert_eq!(rt; recover(&mut disk), Err(OpenFault::BadField { place: 44 }));
    Ok(())
}

#[test]
fn each_call_may_fail_and_each_change_may_be_the_last(rt: HostRuntime) -> Result<(), Fail> {
    let alloc = rt.alloc();
    let want = recovered_bytes(alloc)?;
    let opened = Opened {
        header: recovered(),
        slot: 1,
    };
    // The size and the slots, two entries read, two read and put back, a sync; then a gate read, closed
    // and settled, a body and a gate, each written and settled.
    for fails in 1..=16 {
        let mut disk = volume(alloc, 0, 2)?.failing([fails].to_vec(alloc)?);
        let failed = Fault::Media {
            before: 0,
            after: 1,
        };
        assert_eq!(rt;
            recover(&mut disk),
            Err(OpenFault::Fault(failed)),
            "{fails}"
        );
        let mut disk = disk.failing(Vec::new(alloc));
        assert_eq!(rt; recover(&mut disk), Ok(opened), "{fails}");
        assert_eq!(rt; bytes_of(alloc, &mut disk)?, want, "{fails}");
    }
    let mut disk = volume(alloc, 0, 2)?.failing([17].to_vec(alloc)?);
    let made = disk.changes();
    assert_eq!(rt; recover(&mut disk), Ok(opened));
    // Two pages and a sync, and three times a write and a sync.
    assert_eq!(rt; disk.changes(), made + 9);
    for count in made..made + 9 {
        assert!(rt; count <= disk.changes());
        let mut crashed = disk.after_changes(count)?;
        assert_eq!(rt; recover(&mut crashed), Ok(opened), "{count}");
        assert_eq!(rt; bytes_of(alloc, &mut crashed)?, want, "{count}");
    }
    Ok(())
}
