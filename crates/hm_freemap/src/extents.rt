// Extents that are taken, shared and given back.
ghost use Rattle.std.specs.Prelude.{◌≡◌, ◌≤◌, ◌<◌, ◌+◌, ◌*◌, ◌^◌, List, ℕ, Some, IfOk, IfSome, OnOk};
ghost use Rattle.hm_types.specs.Layout.{IsPool, start_of, block_of};
ghost use Rattle.hm_types.specs.Offset.{raw_of, byte_of, zone_of};
ghost use Rattle.hm_types.specs.Space.{rounded};
ghost use Rattle.hm_types.specs.declared.limits.TheConstants.{LEAST_BIGBLOCKS, MOST_BIGBLOCKS};
ghost use Rattle.hm_types.specs.declared.zone.TheConstants.{TREE_ZONE, SMALL_ZONE};
ghost use Rattle.hm_freemap.specs.Change.{MayHold, given, shared};
ghost use Rattle.hm_freemap.specs.Entry.{entry_in};
ghost use Rattle.hm_freemap.specs.Extents.{
  Moves,
  Takes,
  Changes,
  IsReferred,
  IsShareable,
  referred,
  unreferred,
  reference,
};
ghost use Rattle.hm_freemap.specs.Faults.{HasExtentCause, HasFreemapCause};
ghost use Rattle.hm_freemap.specs.Places.{HasLayer2, page_of, place_of};
ghost use Rattle.hm_freemap.specs.Stand.{HoldsPoolEntry, append_of, room};

use crate::entry::Entry;
use crate::freemap::Freemap;
use crate::pages::{FreemapPages, put_entry, read_page};
use crate::pool_entry::{bad_entry, pool_entry};
use hm_fields::{Page, State};
use hm_types::{BIGBLOCK_BYTES, Fault, HOff, TREE_ZONE, is_pool, rounded};

/// The entry of a big-block of the pool in the current state, and its page.
pub(crate) fn read_entry<P: FreemapPages>(
    pages: &mut P,
    bigblocks: u32,
    block: u64,
    page: &mut Page,
) -> Result<Entry, Fault>
    requires block { block < 2 ^ 32 }
    requires most { bigblocks ≤ MOST_BIGBLOCKS }
    requires there { HasLayer2 bigblocks (P.layer2 pages.old) }
    ensures ok { IfOk result (λ entry. (entry ≡ entry_in page.new (place_of block))
        × HoldsPoolEntry page.new block × IsPool bigblocks block) }
    ensures read { OnOk result (IfSome (P.pages pages.old) (λ map.
        map (page_of block) ≡ Some page.new)) }
    ensures same { (P.pages pages.new ≡ P.pages pages.old)
        × (P.committed pages.new ≡ P.committed pages.old)
        × (P.frozen pages.new ≡ P.frozen pages.old)
        × (P.layer2 pages.new ≡ P.layer2 pages.old) }
    ensures rest { P.rest pages.new ≡ P.rest pages.old }
    ensures name { P.name pages.new ≡ P.name pages.old }
    ensures frame { P.frame pages.new ≡ P.frame pages.old }
    ensures cause { (append : List ℕ) → HasFreemapCause bigblocks append (λ one. one ≡ block)
        (P.committed pages.old) (P.frozen pages.old) (P.pages pages.old)
        (P.faults pages.old) (P.faults pages.new) result }
{
    if !is_pool(bigblocks, block) {
        return Err(bad_entry(block));
    }
    read_page(pages, State::Current, block, page)?;
    pool_entry(page, block).ok_or(bad_entry(block))
}

// The entry of a big-block of the pool in which an extent of `size` bytes is live in the current
// state, and its page. Where the entry tells more free bytes than that leaves, it is damage.
fn read_live<P: FreemapPages>(
    pages: &mut P,
    bigblocks: u32,
    block: u64,
    size: u64,
    page: &mut Page,
) -> Result<Entry, Fault>
    requires block { block < 2 ^ 32 }
    requires size { size ≤ 2 ^ 33 }
    requires most { bigblocks ≤ MOST_BIGBLOCKS }
    requires there { HasLayer2 bigblocks (P.layer2 pages.old) }
    ensures ok { IfOk result (λ entry. (entry ≡ entry_in page.new (place_of block))
        × HoldsPoolEntry page.new block × MayHold size entry) }
    ensures read { OnOk result (IfSome (P.pages pages.old) (λ map.
        map (page_of block) ≡ Some page.new)) }
    ensures same { (P.pages pages.new ≡ P.pages pages.old)
        × (P.committed pages.new ≡ P.committed pages.old)
        × (P.frozen pages.new ≡ P.frozen pages.old)
        × (P.layer2 pages.new ≡ P.layer2 pages.old) }
    ensures rest { P.rest pages.new ≡ P.rest pages.old }
    ensures name { P.name pages.new ≡ P.name pages.old }
    ensures frame { P.frame pages.new ≡ P.frame pages.old }
    ensures cause { (append : List ℕ) → HasExtentCause bigblocks append block size
        (P.committed pages.old) (P.frozen pages.old) (P.pages pages.old)
        (P.faults pages.old) (P.faults pages.new) result }
{
    let entry = read_entry(pages, bigblocks, block, page)?;
    if entry.may_hold(size) {
        Ok(entry)
    } else {
        Err(bad_entry(block))
    }
}

// The offset of a byte of a big-block, in a zone that space is handed out in.
fn offset_of(zone: u8, block: u64, byte: u32) -> HOff
    requires zone { (TREE_ZONE ≤ zone) × (zone ≤ SMALL_ZONE) }
    requires block { block < MOST_BIGBLOCKS }
    ensures value { result ≡ raw_of zone (start_of block + byte) }
    ensures parts { (zone_of result ≡ zone) × (byte_of result ≡ start_of block + byte) }
{
    HOff::make(zone, block * BIGBLOCK_BYTES + u64::from(byte)).unwrap_or_default()
}

// The big-block in which a byte of a volume lies.
fn block_at(at: HOff) -> u64
    ensures value { result ≡ block_of (byte_of at) }
    ensures few { result < 2 ^ 29 }
{
    at.byte() / BIGBLOCK_BYTES
}

impl<P: FreemapPages> Freemap<P> {
    /// Takes a new extent of `len` bytes, at least 1, in zone 8, 9, 10 or 11, which must have room
    /// for it: the one behind the last that the zone took. Nothing in it is live in any of the three
    /// states. It reads and changes one page.
    pub fn take_extent(&mut self, zone: u8, len: u32) -> Result<HOff, Fault>
        requires some { 1 ≤ len }
        requires room { rounded len ≤ room self.old.append (P.pages self.old.pages) zone }
        ensures ok { IfOk result (λ at.
            Moves (P.committed self.old.pages) (P.frozen self.old.pages)
            (P.pages self.old.pages) (P.pages self.new.pages)
            (Takes self.old.bigblocks self.old.append zone len at)) }
        ensures same { (P.rest self.new.pages ≡ P.rest self.old.pages)
            × (self.new.append ≡ self.old.append) × (self.new.bigblocks ≡ self.old.bigblocks) }
        ensures name { P.name self.new.pages ≡ P.name self.old.pages }
        ensures frame { P.frame self.new.pages ≡ P.frame self.old.pages }
        ensures cause { HasFreemapCause self.old.bigblocks self.old.append
            (λ one. one ≡ append_of self.old.append zone)
            (P.committed self.old.pages) (P.frozen self.old.pages) (P.pages self.old.pages)
            (P.faults self.old.pages) (P.faults self.new.pages) result }
    {
        let block = u64::from(self.append[usize::from(zone - TREE_ZONE)]);
        let mut page = Page::zero();
        let entry = read_entry(&mut self.pages, self.bigblocks, block, &mut page)?;
        let Some(next) = entry.extended(zone, rounded(u64::from(len))) else {
            return Err(bad_entry(block));
        };
        put_entry(&mut self.pages, block, &next, &mut page)?;
        Ok(offset_of(zone, block, entry.append_off))
    }

    /// Takes one reference off an extent that is live in the current state. With its last one its
    /// bytes are free in that state. It reads and changes one page. Where the entry of the big-block
    /// tells more free bytes than the extent leaves, it tells damage.
    pub fn give_extent(&mut self, at: HOff, len: u32) -> Result<(), Fault>
        ensures ok { OnOk result (Moves (P.committed self.old.pages) (P.frozen self.old.pages)
            (P.pages self.old.pages) (P.pages self.new.pages)
            (Changes self.old.bigblocks self.old.append (reference at len)
            (IsReferred (reference at len)) (unreferred (reference at len))
            (given (rounded len)))) }
        ensures same { (P.rest self.new.pages ≡ P.rest self.old.pages)
            × (self.new.append ≡ self.old.append) × (self.new.bigblocks ≡ self.old.bigblocks) }
        ensures name { P.name self.new.pages ≡ P.name self.old.pages }
        ensures frame { P.frame self.new.pages ≡ P.frame self.old.pages }
        ensures cause { HasExtentCause self.old.bigblocks self.old.append
            (block_of (byte_of at)) (rounded len)
            (P.committed self.old.pages) (P.frozen self.old.pages) (P.pages self.old.pages)
            (P.faults self.old.pages) (P.faults self.new.pages) result }
    {
        let block = block_at(at);
        let size = rounded(u64::from(len));
        let mut page = Page::zero();
        let entry = read_live(&mut self.pages, self.bigblocks, block, size, &mut page)?;
        let next = entry.given(size);
        put_entry(&mut self.pages, block, &next, &mut page)
    }

    /// Adds one reference to an extent that is live in the current state with fewer than 64. It
    /// reads and changes one page. It tells damage as `give_extent` does.
    pub fn share_extent(&mut self, at: HOff, len: u32) -> Result<(), Fault>
        ensures ok { OnOk result (Moves (P.committed self.old.pages) (P.frozen self.old.pages)
            (P.pages self.old.pages) (P.pages self.new.pages)
            (Changes self.old.bigblocks self.old.append (reference at len)
            (IsShareable (reference at len)) (referred (reference at len))
            (shared (rounded len)))) }
        ensures same { (P.rest self.new.pages ≡ P.rest self.old.pages)
            × (self.new.append ≡ self.old.append) × (self.new.bigblocks ≡ self.old.bigblocks) }
        ensures name { P.name self.new.pages ≡ P.name self.old.pages }
        ensures frame { P.frame self.new.pages ≡ P.frame self.old.pages }
        ensures cause { HasExtentCause self.old.bigblocks self.old.append
            (block_of (byte_of at)) (rounded len)
            (P.committed self.old.pages) (P.frozen self.old.pages) (P.pages self.old.pages)
            (P.faults self.old.pages) (P.faults self.new.pages) result }
    {
        let block = block_at(at);
        let size = rounded(u64::from(len));
        let mut page = Page::zero();
        let entry = read_live(&mut self.pages, self.bigblocks, block, size, &mut page)?;
        let next = entry.shared(size);
        put_entry(&mut self.pages, block, &next, &mut page)
    }
}
