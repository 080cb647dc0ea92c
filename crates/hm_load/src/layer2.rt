// Layer 2 of the freemap: what each big-block serves.
ghost use Rattle.std.specs.Prelude.{◌≡◌, ◌≤◌, ◌<◌, ◌+◌, ◌↔◌, ℕ, IfErr, IfSome, IsTrue, OnOk, length};
ghost use Rattle.hm_types.specs.Faults.{HasFaultCause};
ghost use Rattle.hm_types.specs.declared.limits.TheConstants.{PAGE_BYTES};
ghost use Rattle.hm_types.specs.declared.zone.TheConstants.{TREE_ZONE};
ghost use Rattle.hm_disk.specs.declared.limits.TheConstants.{MOST_CALL_BYTES};
ghost use Rattle.hm_header.specs.Range.{IsHeader};
ghost use Rattle.hm_pages.specs.Store.{contents};
ghost use Rattle.hm_load.specs.Faults.{IsNoMedia, Tells};
ghost use Rattle.hm_load.specs.Freemap.{HoldsEntries, HoldsEntryOf, HoldsLayer2, IsPastEntry, IsZoneOf};
ghost use Rattle.hm_load.specs.Freemap.{IsLayer2Damage, IsPageDamage, IsPieceDamage, layer2_page, layer2_pages};
ghost use Rattle.hm_load.specs.Held.{HasFirstPages};
ghost use Rattle.hm_load.specs.Loaded.{IsPlain, LoadsPage, LoadsPages};
ghost use Rattle.hm_newfs.specs.Steps.{HasSpace};

use crate::put::put;
use crate::volume::Volume;
use hm_disk::{Disk, MOST_CALL_BYTES};
use hm_fields::{Page, get_u32};
use hm_freemap::{Entry, page_of, place_of};
use hm_header::Header;
use hm_pages::PageStore;
use hm_types::{
    BAD_FREEMAP, BIGBLOCK_BYTES, Fault, PAGE_BYTES, TREE_ZONE, UNAVAILABLE_ZONE, layer2_blocks,
};

// Where layer 2 begins, in bytes from the start of the volume.
const START: u64 = 2 * BIGBLOCK_BYTES;

// How many pages are read at once.
const PAGES_PER_PIECE: u32 = 32;

// How many pieces a big-block has.
const PIECES: u32 = 64;

// How many entries a page has.
const ENTRIES_PER_PAGE: u32 = 256;

// No volume has more pages of layer 2: there are two big-blocks at most.
const MOST_PAGES: u32 = 4_096;

/// Checks each entry of layer 2, and loads the pages with the entries of the volume's big-blocks. The
/// first entry that may not be that of its big-block is damage of its page.
pub(crate) fn load_layer2<D: Disk>(
    disk: &mut D,
    volume: &Volume,
    buffer: &mut [u8],
    header: &Header,
    store: &mut PageStore,
) -> Result<(), Fault>
    requires space { IfSome (D.told disk.old) (HasSpace volume.now.bigblocks) }
    requires header { IsHeader header.now }
    requires volume { volume.now.bigblocks ≡ header.now.bigblocks }
    requires len { length buffer.old ≡ MOST_CALL_BYTES }
    requires plain { IsPlain (contents store.old) }
    requires empty { HoldsLayer2 header.now 0 (contents store.old).current }
    ensures ok { OnOk result (IsPlain (contents store.new)
        × HoldsLayer2 header.now (layer2_pages header.now.bigblocks) (contents store.new).current) }
    ensures read { OnOk result (IfSome (D.told disk.old) (λ t. HasFirstPages t.bytes header.now
        (layer2_pages header.now.bigblocks) (contents store.new).current)) }
    ensures damage { IfSome (D.told disk.old) (λ t.
        IfErr result (Tells (IsLayer2Damage t.bytes header.now))) }
    ensures same { D.told disk.new ≡ D.told disk.old }
    ensures crashes { D.past disk.new ≡ D.past disk.old }
    ensures cause { HasFaultCause (D.faults disk.old) (D.faults disk.new) result }
{
    for piece in 0..layer2_blocks(header.bigblocks) * PIECES {
        let place = START + u64::from(piece) * MOST_CALL_BYTES as u64;
        volume.read(disk, place, buffer)?;
        load_piece(header, piece * PAGES_PER_PIECE, buffer, store)?;
    }
    Ok(())
}

// Loads the pages of a piece that begins with the page of this number.
fn load_piece(
    header: &Header,
    number: u32,
    bytes: &[u8],
    store: &mut PageStore,
) -> Result<(), Fault>
    requires header { IsHeader header.now }
    requires number { number + PAGES_PER_PIECE ≤ MOST_PAGES }
    requires len { length bytes.now ≡ MOST_CALL_BYTES }
    requires plain { IsPlain (contents store.old) }
    requires layer { HoldsLayer2 header.now number (contents store.old).current }
    ensures ok { OnOk result (LoadsPages header.now number PAGES_PER_PIECE bytes.now
        (contents store.old) (contents store.new)) }
    ensures damage { IfErr result (Tells (IsPieceDamage header.now number bytes.now)) }
    ensures media { IfErr result IsNoMedia }
{
    let mut page = Page::zero();
    for k in 0..PAGES_PER_PIECE {
        let at = k as usize * PAGE_BYTES;
        page.copy_from(&bytes[at..at + PAGE_BYTES]);
        load_page(header, number + k, &page, store)?;
    }
    Ok(())
}

// Checks the page of this number, and loads it where it has an entry of the volume.
fn load_page(header: &Header, number: u32, page: &Page, store: &mut PageStore) -> Result<(), Fault>
    requires header { IsHeader header.now }
    requires number { number < MOST_PAGES }
    requires plain { IsPlain (contents store.old) }
    requires layer { HoldsLayer2 header.now number (contents store.old).current }
    ensures ok { OnOk result (LoadsPage header.now number page.now
        (contents store.old) (contents store.new)) }
    ensures damage { IfErr result (Tells (IsPageDamage header.now number page.now)) }
    ensures media { IfErr result IsNoMedia }
{
    let first = number * ENTRIES_PER_PAGE;
    let at = page_of(u64::from(first));
    if !are_entries(header, number, page) {
        return Err(Fault::Damaged {
            at,
            kind: BAD_FREEMAP,
        });
    }
    if first < header.bigblocks {
        put(store, at, page)?;
    }
    Ok(())
}

// Whether each entry of the page of this number may be that of its big-block.
fn are_entries(header: &Header, number: u32, page: &Page) -> bool
    requires header { IsHeader header.now }
    requires number { number < MOST_PAGES }
    ensures { IsTrue result ↔ HoldsEntries header.now number page.now }
{
    for k in 0..ENTRIES_PER_PAGE {
        if !is_entry(header, number * ENTRIES_PER_PAGE + k, page) {
            return false;
        }
    }
    true
}

// Whether a page has an entry that may be that of a big-block.
fn is_entry(header: &Header, block: u32, page: &Page) -> bool
    requires header { IsHeader header.now }
    ensures { IsTrue result ↔ HoldsEntryOf header.now block page.now }
{
    let at = place_of(u64::from(block));
    if header.bigblocks <= block && is_past(page, at) {
        return true;
    }
    match Entry::read(page, at) {
        None => false,
        Some(entry) => entry.is_of(header.bigblocks, block) && is_zone(header, block, entry.zone),
    }
}

// Whether a place has the entry of a big-block past the volume's end. Nearly all entries are such, so this
// one is known by its numbers.
fn is_past(page: &Page, at: usize) -> bool
    requires { at + 16 ≤ PAGE_BYTES }
    ensures { IsTrue result → IsPastEntry page.now at }
{
    get_u32(page, at) == u32::from(UNAVAILABLE_ZONE)
        && get_u32(page, at + 4) == 0
        && get_u32(page, at + 8) == 0
        && get_u32(page, at + 12) == 0
}

// Whether a big-block may belong to a zone: where the header names it as the append big-block of one,
// it is of that zone.
fn is_zone(header: &Header, block: u32, zone: u8) -> bool
    requires header { IsHeader header.now }
    ensures { IsTrue result ↔ IsZoneOf header.now block zone }
{
    for k in 0..4usize {
        if header.append[k] == block && zone != TREE_ZONE + k as u8 {
            return false;
        }
    }
    true
}
