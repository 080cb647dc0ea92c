// The body of a slot: a header as bytes, and back.
ghost use Rattle.std.specs.Prelude.{◌≡◌, ◌↔◌, ◌≤◌, ◌<◌, ℕ, ◌++◌, IfOk, IfErr, IfSome, IsSome, IsTrue};
ghost use Rattle.hm_types.specs.declared.limits.TheConstants.{MOST_BIGBLOCKS};
ghost use Rattle.hm_header.specs.declared.header.TheConstants.{SLOT_BYTES};
ghost use Rattle.hm_header.specs.Layout.{body_of, fields_of, header_in, zeros};
ghost use Rattle.hm_header.specs.Parts.{AreInRange, IsBadField, all_parts, size_parts, state_parts, undo_parts, append_parts};
ghost use Rattle.hm_header.specs.Range.{IsAppend, IsRoot};

use crate::fault::HeaderFault;
use crate::header::{BODY_BYTES, Header, SIGNATURE, VERSION};
use crate::place;
use crate::slot::Slot;
use hm_fields::{Page, put_u32, put_u64};
use hm_types::{
    BIGBLOCK_BYTES, GREATEST_ID, HOff, Id, LEAST_BIGBLOCKS, MOST_BIGBLOCKS, MOST_GROUP_PAGES,
    PAGE_BYTES, TREE_ZONE, UNDO_ENTRIES, is_pool,
};

/// Writes the body of a slot with this header: all of the slot but its gate. `choose` reads back a
/// header whose fields are in range. Takes no memory.
pub fn encode(h: &Header, body: &mut [u8; BODY_BYTES])
    ensures { body.new ≡ body_of h.now }
{
    let head = fields_page(h);
    body[..PAGE_BYTES].copy_from_slice(head.bytes());
    body[PAGE_BYTES..].fill(0);
}

/// The first page of the body.
fn fields_page(h: &Header) -> Page
    ensures { result ≡ fields_of h.now ++ zeros 4024 }
{
    let mut page = Page::zero();
    put_u64(&mut page, place::SIGNATURE, u64::from_le_bytes(SIGNATURE));
    put_u32(&mut page, place::VERSION, h.version);
    put_u32(&mut page, place::BIGBLOCKS, h.bigblocks);
    put_u64(&mut page, place::GENERATION, h.generation);
    put_u64(&mut page, place::LAST, h.last.0);
    put_u64(&mut page, place::ROOT, h.root.raw());
    put_u32(&mut page, place::UNDO_FIRST, h.undo_first);
    put_u32(&mut page, place::UNDO_COUNT, h.undo_count);
    put_u32(&mut page, place::UNDO_NEXT, h.undo_next);
    put_u32(&mut page, place::TREE_APPEND, h.append[0]);
    put_u32(&mut page, place::META_APPEND, h.append[1]);
    put_u32(&mut page, place::LARGE_APPEND, h.append[2]);
    put_u32(&mut page, place::SMALL_APPEND, h.append[3]);
    page
}

/// The header that the slot spells, on a disk of `size` bytes, or its first field that is out of
/// range.
pub(crate) fn decode(slot: &Slot, size: u64) -> Result<Header, HeaderFault>
    ensures ok { IfOk result (λ header. header ≡ header_in slot.now) }
    ensures in_range { IfOk result (λ _. AreInRange slot.now size all_parts) }
    ensures err { IfErr result (IsBadField slot.now size all_parts) }
{
    let (version, bigblocks) = read_size(slot, size)?;
    let (last, root) = read_state(slot, bigblocks)?;
    let (undo_first, undo_count, undo_next) = read_undo(slot)?;
    let append = read_append(slot, bigblocks)?;
    check(slot.rest_is_zero(), place::REST)?;
    Ok(Header {
        version,
        bigblocks,
        generation: slot.generation(),
        last,
        root,
        undo_first,
        undo_count,
        undo_next,
        append,
    })
}

/// The version and the number of big-blocks.
fn read_size(slot: &Slot, size: u64) -> Result<(u32, u32), HeaderFault>
    ensures version { IfOk result (λ sizes. sizes.0 ≡ (header_in slot.now).version) }
    ensures bigblocks { IfOk result (λ sizes. sizes.1 ≡ (header_in slot.now).bigblocks) }
    ensures in_range { IfOk result (λ _. AreInRange slot.now size size_parts) }
    ensures err { IfErr result (IsBadField slot.now size size_parts) }
{
    let version = slot.u32_at(place::VERSION);
    check(version == VERSION, place::VERSION)?;
    let bigblocks = slot.u32_at(place::BIGBLOCKS);
    let is_size = (LEAST_BIGBLOCKS..=MOST_BIGBLOCKS).contains(&bigblocks);
    let has_room = u64::from(bigblocks) * BIGBLOCK_BYTES <= size;
    check(is_size && has_room, place::BIGBLOCKS)?;
    Ok((version, bigblocks))
}

/// The last id and the root node.
fn read_state(slot: &Slot, bigblocks: u32) -> Result<(Id, HOff), HeaderFault>
    requires bigblocks { bigblocks ≡ (header_in slot.now).bigblocks }
    requires most { bigblocks ≤ MOST_BIGBLOCKS }
    ensures last { IfOk result (λ state. state.0 ≡ (header_in slot.now).last) }
    ensures root { IfOk result (λ state. state.1 ≡ (header_in slot.now).root) }
    ensures in_range { (size : ℕ) → IfOk result (λ _. AreInRange slot.now size state_parts) }
    ensures err { (size : ℕ) → IfErr result (IsBadField slot.now size state_parts) }
{
    let last = slot.u64_at(place::LAST);
    check((1..=GREATEST_ID).contains(&last), place::LAST)?;
    let root = root_at(bigblocks, slot.u64_at(place::ROOT));
    let root = root.ok_or(bad_field(place::ROOT))?;
    Ok((Id(last), root))
}

/// The offset with these 64 bits. None where no root node stands there.
fn root_at(bigblocks: u32, raw: u64) -> Option<HOff>
    requires { bigblocks ≤ MOST_BIGBLOCKS }
    ensures some { IsSome result ↔ IsRoot bigblocks raw }
    ensures value { IfSome result (λ root. root ≡ raw) }
{
    let root = HOff::from_raw(raw)?;
    let byte = root.byte();
    let is_page = byte % PAGE_BYTES as u64 == 0;
    if root.zone() == TREE_ZONE && is_page && is_pool(bigblocks, byte / BIGBLOCK_BYTES) {
        Some(root)
    } else {
        None
    }
}

/// The first entry of the UNDO log that recovery reads, how many it reads, and the next one that is
/// written.
fn read_undo(slot: &Slot) -> Result<(u32, u32, u32), HeaderFault>
    ensures first { IfOk result (λ undo. undo.0 ≡ (header_in slot.now).undo_first) }
    ensures count { IfOk result (λ undo. undo.1 ≡ (header_in slot.now).undo_count) }
    ensures next { IfOk result (λ undo. undo.2 ≡ (header_in slot.now).undo_next) }
    ensures in_range { (size : ℕ) → IfOk result (λ _. AreInRange slot.now size undo_parts) }
    ensures err { (size : ℕ) → IfErr result (IsBadField slot.now size undo_parts) }
{
    let first = slot.u32_at(place::UNDO_FIRST);
    check(first < UNDO_ENTRIES, place::UNDO_FIRST)?;
    let count = slot.u32_at(place::UNDO_COUNT);
    check(count <= MOST_GROUP_PAGES, place::UNDO_COUNT)?;
    let next = slot.u32_at(place::UNDO_NEXT);
    check(next < UNDO_ENTRIES, place::UNDO_NEXT)?;
    check(slot.u32_at(place::GAP) == 0, place::GAP)?;
    Ok((first, count, next))
}

/// The append big-blocks of zones 8 to 11.
fn read_append(slot: &Slot, bigblocks: u32) -> Result<[u32; 4], HeaderFault>
    requires bigblocks { bigblocks ≡ (header_in slot.now).bigblocks }
    requires most { bigblocks ≤ MOST_BIGBLOCKS }
    ensures value { IfOk result (λ append. append ≡ (header_in slot.now).append) }
    ensures in_range { (size : ℕ) → IfOk result (λ _. AreInRange slot.now size append_parts) }
    ensures err { (size : ℕ) → IfErr result (IsBadField slot.now size append_parts) }
{
    let tree = slot.u32_at(place::TREE_APPEND);
    check(is_append(bigblocks, &[], tree), place::TREE_APPEND)?;
    let meta = slot.u32_at(place::META_APPEND);
    check(is_append(bigblocks, &[tree], meta), place::META_APPEND)?;
    let large = slot.u32_at(place::LARGE_APPEND);
    check(
        is_append(bigblocks, &[tree, meta], large),
        place::LARGE_APPEND,
    )?;
    let small = slot.u32_at(place::SMALL_APPEND);
    check(
        is_append(bigblocks, &[tree, meta, large], small),
        place::SMALL_APPEND,
    )?;
    Ok([tree, meta, large, small])
}

/// Whether a big-block belongs to the pool and is none of those before it.
fn is_append(bigblocks: u32, before: &[u32], block: u32) -> bool
    requires { bigblocks ≤ MOST_BIGBLOCKS }
    ensures { IsTrue result ↔ IsAppend bigblocks before.now block }
{
    is_pool(bigblocks, u64::from(block)) && !before.contains(&block)
}

/// Ok where the test holds, and else the fault of the field at this place.
fn check(holds: bool, place: usize) -> Result<(), HeaderFault>
    requires { place < SLOT_BYTES }
    ensures ok { IfOk result (λ _. IsTrue holds) }
    ensures err { IfErr result (λ fault. ¬ IsTrue holds × (fault ≡ HeaderFault.BadField place)) }
{
    if holds { Ok(()) } else { Err(bad_field(place)) }
}

fn bad_field(place: usize) -> HeaderFault
    requires { place < SLOT_BYTES }
    ensures { result ≡ HeaderFault.BadField place }
{
    HeaderFault::BadField {
        place: place as u32,
    }
}
