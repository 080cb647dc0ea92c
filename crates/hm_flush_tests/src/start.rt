// Where the flushes of the tests begin: a disk with the committed pages, and the volume over it.
use crate::test_disk::TestDisk;
use crate::volume::{LAYER2, TREE, Volume, header, pages, slot_of};
use hm_disk::Disk;
use hm_header::SLOT_BYTES;
use hm_types::{Failed, PAGE_BYTES};
use std::alloc::Global;
use std::process::Abort;

// Where a flush begins: the slot and the generation of the header that counts, and the next free entry.
#[derive(Clone, Copy, Debug)]
pub struct Start {
    pub slot: u8,
    pub generation: u64,
    pub next: u32,
}

pub const PLAIN: Start = Start {
    slot: 0,
    generation: 7,
    next: 3,
};

// The byte where a page stands.
pub fn place(raw: u64) -> u64 {
    raw % (1 << 52)
}

// A disk whose header of this slot counts, beside the one before it, with the committed pages, and other
// bytes where the new ones will stand.
fn write_start(disk: &mut TestDisk, start: Start) -> Result<(), Failed> {
    let counts = slot_of(&header(start.generation, 0, 0, start.next));
    let before = slot_of(&header(start.generation.wrapping_sub(1), 0, 0, start.next));
    let (first, second) = if start.slot == 0 {
        (&counts, &before)
    } else {
        (&before, &counts)
    };
    disk.write_at(0, first)?;
    disk.write_at(SLOT_BYTES as u64, second)?;
    for (raw, byte) in [
        (LAYER2, 0x20),
        (TREE, 0x10),
        (TREE + 0x1000, 0x77),
        (TREE + 0x2000, 0x12),
        (TREE + 0x4000, 0x14),
    ] {
        disk.write_at(place(raw), &[byte; PAGE_BYTES])?;
    }
    disk.sync()
}

pub fn disk_at(rt: &impl Abort, alloc: Global, start: Start, fails: Vec<u64>) -> TestDisk {
    let mut disk = TestDisk::new(alloc, Vec::new(alloc));
    assert_eq!(rt; write_start(&mut disk, start), Ok(()));
    disk.failing(fails)
}

pub fn volume_at(rt: &impl Abort, alloc: Global, start: Start) -> Volume {
    let slot = start.slot.min(1);
    match pages(alloc) {
        Ok(pages) => match Volume::new(&header(start.generation, 0, 0, start.next), slot, pages) {
            Some(volume) => volume,
            None => panic!(rt; "a header is out of range"),
        },
        Err(_) => panic!(rt; "no pages"),
    }
}
