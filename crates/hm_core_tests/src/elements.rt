// The elements of a volume, read from the bytes of its disk by the format alone.

use crate::test_disk::TestDisk;
use crate::volume::header_of;
use hm_disk::Disk;
use hm_types::{BIGBLOCK_BYTES, NoMemory, PAGE_BYTES};
use std::alloc::Global;
use std::process::Abort;

// The volumes of these tests have fewer nodes.
const MOST_NODES: u32 = 4_096;

// The open end of what a pseudo file system keeps.
pub const ON: u64 = u64::MAX;

// An element, as far as prunes and reblocks tell it apart.
#[derive(Clone, Copy, Debug, PartialEq, Eq)]
pub struct Element {
    // Where its place in a leaf begins on the disk.
    pub at: u64,
    pub pfs: u16,
    pub create: u64,
    // 0 while it is open.
    pub delete: u64,
    pub payload: u64,
    pub len: u32,
}

impl Element {
    // The big-block in which its payload lies.
    pub fn block(&self) -> u64 {
        place_of(self.payload) / BIGBLOCK_BYTES
    }

    // No kept id sees it.
    pub fn is_dead(&self, pfs: u16, kept: &[(u64, u64)]) -> bool {
        let is_seen = kept.iter().any(|(first, last)| *first < self.delete && self.create <= *last);
        self.pfs == pfs && self.delete != 0 && !is_seen
    }
}

// The number of 8 bytes at a place of a page.
fn word_at(rt: &impl Abort, page: &[u8; PAGE_BYTES], at: usize) -> u64 {
    match page.get(at..at.saturating_add(8)) {
        Some([a, b, c, d, e, f, g, h]) => u64::from_le_bytes([*a, *b, *c, *d, *e, *f, *g, *h]),
        _ => panic!(rt; "{at}"),
    }
}

// The place on the disk of an offset of a volume: its 52 lowest bits.
fn place_of(offset: u64) -> u64 {
    offset % (1 << 52)
}

// Reads the page at an offset of a volume.
fn page_at(rt: &impl Abort, disk: &mut TestDisk, offset: u64) -> [u8; PAGE_BYTES] {
    let mut page = [0; PAGE_BYTES];
    assert_eq!(rt; disk.read_at(place_of(offset), &mut page), Ok(()));
    page
}

// The element at a place of a leaf, which stands at an offset of the volume.
fn element_at(rt: &impl Abort, page: &[u8; PAGE_BYTES], node: u64, at: usize) -> Element {
    let localization = word_at(rt, page, at.saturating_add(32)) >> 32;
    Element {
        at: place_of(node).saturating_add(at as u64),
        pfs: (localization >> 16) as u16,
        create: word_at(rt, page, at.saturating_add(16)),
        delete: word_at(rt, page, at.saturating_add(24)),
        payload: word_at(rt, page, at.saturating_add(40)),
        len: (word_at(rt, page, at.saturating_add(48)) & 0xFFFF_FFFF) as u32,
    }
}

// All elements of the volume on a disk that has all that its run has made.
pub fn elements_on(
    rt: &impl Abort,
    alloc: Global,
    disk: &mut TestDisk,
) -> Result<Vec<Element>, NoMemory> {
    let (slot, _) = header_of(rt, disk);
    let header = page_at(rt, disk, 16_384 * u64::from(slot));
    let mut nodes = vec![in alloc; word_at(rt, &header, 32)]?;
    let mut elements = Vec::new(alloc);
    for _ in 0..MOST_NODES {
        let Some(node) = nodes.pop() else {
            return Ok(elements);
        };
        let page = page_at(rt, disk, node);
        let count = (word_at(rt, &page, 0) >> 16) as usize % 64;
        for place in 1..=count {
            if page[0] == 1 {
                elements.push(element_at(rt, &page, node, 64 * place))?;
            } else {
                nodes.push(word_at(rt, &page, 64 * place + 40))?;
            }
        }
    }
    panic!(rt; "the tree has no end")
}

// How many elements of a pseudo file system are dead for what it keeps.
pub fn dead(elements: &[Element], pfs: u16, kept: &[(u64, u64)]) -> usize {
    let mut count: usize = 0;
    for element in elements {
        if element.is_dead(pfs, kept) {
            count = count.saturating_add(1);
        }
    }
    count
}

// How many elements a pseudo file system has.
pub fn elements_of(elements: &[Element], pfs: u16) -> usize {
    let mut count: usize = 0;
    for element in elements {
        if element.pfs == pfs {
            count = count.saturating_add(1);
        }
    }
    count
}
