// A volume of 24 big-blocks with pages that a flush brings onto its disk.
ghost use Rattle.std.specs.Prelude.{◌≡◌, ◌≤◌, IsTrue, IfOk, IfSome};
ghost use Rattle.hm_pages.specs.Store.{contents};
ghost use Rattle.hm_header.specs.Range.{IsHeader};
ghost use Rattle.hm_undo.specs.Entry.{IsUndoPageOf};
ghost use Rattle.hm_flush_tests.specs.Ready.{IsFresh};

use crate::test_disk::TestDisk;
use hm_fields::{Page, Pages};
use hm_flush::{Flusher, Stage};
use hm_header::{BODY_BYTES, GATE_OPEN, Header, SLOT_BYTES, VERSION, choose, encode};
use hm_pages::PageStore;
use hm_types::{
    BIGBLOCK_BYTES, FREEMAP_ZONE, Fault, HOff, Id, PAGE_BYTES, TREE_ZONE, is_layer2, is_pool,
};
use std::alloc::Global;
use std::marker::Model;

pub const BIGBLOCKS: u32 = 24;

// The pages: one of layer 2, and five of the tree, from the first of the pool on.
pub const LAYER2: u64 = 0x4000_0000_0100_2000;

pub const TREE: u64 = 0x8000_0000_0580_0000;

// A page of such bytes.
pub fn filled(byte: u8) -> Page {
    let mut page = Page::zero();
    page.copy_from(&[byte; PAGE_BYTES]);
    page
}

// Whether a flush may place a page at an offset.
fn is_flush_place(at: HOff) -> bool
    ensures { IsTrue result → IsUndoPageOf 24 at }
{
    let byte = at.byte();
    let block = byte / BIGBLOCK_BYTES;
    byte % PAGE_BYTES as u64 == 0
        && (at.zone() == TREE_ZONE && is_pool(BIGBLOCKS, block)
            || at.zone() == FREEMAP_ZONE && is_layer2(BIGBLOCKS, block))
}

// Puts a page of such bytes.
fn put(pages: &mut PageStore, raw: u64, byte: u8) -> Result<(), Fault>
    requires { IsFresh (contents pages.old) }
    ensures { IsFresh (contents pages.new) }
{
    let at = HOff::from_raw(raw).unwrap_or_default();
    if is_flush_place(at) {
        pages.change(at, &filled(byte))
    } else {
        Err(Fault::NoMemory)
    }
}

// Takes a page out.
fn take_out(pages: &mut PageStore, raw: u64) -> Result<(), Fault>
    requires { IsFresh (contents pages.old) }
    ensures { IsFresh (contents pages.new) }
{
    let at = HOff::from_raw(raw).unwrap_or_default();
    if at.zone() == TREE_ZONE {
        Ok(pages.remove(at)?)
    } else {
        Err(Fault::NoMemory)
    }
}

// Commits what was put.
fn commit(pages: &mut PageStore) -> Result<(), Fault>
    requires { IsFresh (contents pages.old) }
    ensures { IsFresh (contents pages.new) }
{
    pages.freeze(Id(5))?;
    pages.commit();
    Ok(())
}

// The pages, by what was committed and by what the group has since: a page of layer 2 and two of the tree
// were changed, two others are new, and one was taken out.
pub fn pages(alloc: Global) -> Result<PageStore, Fault>
    ensures { IfOk result (λ pages. IsFresh (contents pages)) }
{
    let mut pages = PageStore::new(alloc);
    put(&mut pages, LAYER2, 0x20)?;
    put(&mut pages, TREE, 0x10)?;
    put(&mut pages, TREE + 0x2000, 0x12)?;
    put(&mut pages, TREE + 0x4000, 0x14)?;
    commit(&mut pages)?;
    put(&mut pages, TREE + 0x3000, 0x33)?;
    put(&mut pages, LAYER2, 0x40)?;
    put(&mut pages, TREE + 0x2000, 0x32)?;
    put(&mut pages, TREE + 0x1000, 0x31)?;
    take_out(&mut pages, TREE + 0x4000)?;
    Ok(pages)
}

// A header with these fields of the log and this state.
pub fn header(generation: u64, undo_first: u32, undo_count: u32, undo_next: u32) -> Header {
    Header {
        version: VERSION,
        bigblocks: BIGBLOCKS,
        generation,
        last: Id(5),
        root: HOff::from_raw(TREE).unwrap_or_default(),
        undo_first,
        undo_count,
        undo_next,
        append: [11, 12, 13, 14],
    }
}

// The header whose state is to be committed. Of the rest nothing is taken.
pub fn target() -> Header {
    Header {
        last: Id(9),
        root: HOff::from_raw(TREE + 0x1000).unwrap_or_default(),
        append: [15, 12, 13, 16],
        ..header(77, 78, 79, 80)
    }
}

// A slot with this header under an open gate.
pub fn slot_of(header: &Header) -> [u8; SLOT_BYTES] {
    let mut body = [0; BODY_BYTES];
    encode(header, &mut body);
    let mut slot = [GATE_OPEN; SLOT_BYTES];
    slot[..BODY_BYTES].copy_from_slice(&body);
    slot
}

// The header, where it is in range, on a volume of 24 big-blocks.
fn checked(header: &Header) -> Option<Header>
    ensures range { IfSome result (λ h. IsHeader h) }
    ensures size { IfSome result (λ h. h.bigblocks ≡ 24) }
{
    match choose(&slot_of(header), &[0; SLOT_BYTES], 24 * BIGBLOCK_BYTES) {
        Ok((header, _)) if header.bigblocks == BIGBLOCKS => Some(header),
        _ => None,
    }
}

// A flusher with the store that it flushes, and the header of the state that is to be committed.
#[derive(Drop)]
pub struct Volume {
    flusher: Flusher,
    pages: PageStore,
    now: Header,
}

impl Model for Volume {
    ghost use Rattle.std.specs.Prelude.{ℕ};
    ghost use Rattle.hm_pages.specs.Store.{contents};
    ghost use Rattle.hm_flush_tests.specs.Ready.{IsVolume};

    ghost Value = { ℕ };

    ghost view = { λ _. 0 };

    ghost invariant = { λ v. IsVolume v.flusher (contents v.pages) v.now };
}

impl Volume {
    // One whose header of this slot counts, with these pages.
    pub fn new(header: &Header, slot: u8, pages: PageStore) -> Option<Volume>
        requires slot { slot ≤ 1 }
        requires pages { IsFresh (contents pages) }
    {
        let header = checked(header)?;
        let now = checked(&target())?;
        Some(Volume {
            flusher: Flusher::new(&header, slot),
            pages,
            now,
        })
    }

    // Makes the stage that is due.
    pub fn stage(&mut self, disk: &mut TestDisk) -> Result<Stage, Fault> {
        self.flusher.stage(&mut self.pages, disk, &self.now)
    }

    // The boundary that is committed.
    pub fn boundary(&self) -> Id {
        self.flusher.boundary()
    }
}
