// An entry of the log: the old bytes of a page, the page's offset, and the generation of the header that
// names the entry.
ghost use Rattle.std.specs.Prelude.{◌≡◌, ◌↔◌, IsTrue, IsSome, IfSome, IfNone, take};
ghost use Rattle.hm_undo.specs.Entry.{IsBrokenEntry, IsUndoPage, SpellsUndoEntry, undo_entry_of, head_of, entry_signature};

use byteorder::{ByteOrder, LittleEndian};
use hm_fields::Page;
use hm_types::{BIGBLOCK_BYTES, FREEMAP_ZONE, HOff, PAGE_BYTES, TREE_ZONE, UNDO_ENTRY_BYTES};

// What an entry begins with.
const SIGNATURE: [u8; 8] = *b"HMRUNDO1";

// The size of what stands before the page, in bytes.
const HEAD_BYTES: usize = 32;

/// Writes the entry with the old bytes of the page at an offset, for the header of this generation. `decode`
/// reads it back where an entry may name the offset. Takes no memory.
pub fn encode(at: HOff, generation: u64, old: &Page, into: &mut [u8; UNDO_ENTRY_BYTES])
    ensures { into.new ≡ undo_entry_of at generation old.now }
{
    let head = head(at, generation);
    into[..HEAD_BYTES].copy_from_slice(&head);
    into[HEAD_BYTES..].copy_from_slice(old.bytes());
}

/// What stands before the page.
fn head(at: HOff, generation: u64) -> [u8; HEAD_BYTES]
    ensures { result ≡ head_of at generation }
{
    let mut head = [0; HEAD_BYTES];
    head[..8].copy_from_slice(&SIGNATURE);
    LittleEndian::write_u64(&mut head[8..16], at.raw());
    LittleEndian::write_u64(&mut head[16..24], generation);
    head
}

/// The offset of the page, the generation of the header that names the entry, and the old bytes of the
/// page. None where the entry does not begin with its signature, where its offset is none of a page that an
/// entry may name on some volume, or where a byte from 24 to 31 is not zero. Takes no memory.
pub fn decode(bytes: &[u8; UNDO_ENTRY_BYTES]) -> Option<(HOff, u64, Page)>
    ensures some { IfSome result (λ entry. SpellsUndoEntry bytes.now entry.0 entry.1 entry.2) }
    ensures none { IfNone result (IsBrokenEntry bytes.now) }
{
    let at = page_at(LittleEndian::read_u64(&bytes[8..16]))?;
    let generation = LittleEndian::read_u64(&bytes[16..24]);
    let rest = LittleEndian::read_u64(&bytes[24..32]);
    if is_signed(bytes) && rest == 0 {
        let mut page = Page::zero();
        page.copy_from(&bytes[HEAD_BYTES..]);
        Some((at, generation, page))
    } else {
        None
    }
}

/// Whether the bytes begin as those of an entry.
fn is_signed(bytes: &[u8; UNDO_ENTRY_BYTES]) -> bool
    ensures { IsTrue result ↔ (take 8 bytes.now ≡ entry_signature) }
{
    bytes.starts_with(&SIGNATURE)
}

/// The offset with these 64 bits. None where it is none of a page that an entry may name.
fn page_at(raw: u64) -> Option<HOff>
    ensures some { IsSome result ↔ IsUndoPage raw }
    ensures value { IfSome result (λ at. at ≡ raw) }
{
    let at = HOff::from_raw(raw)?;
    let block = at.byte() / BIGBLOCK_BYTES;
    let is_page = at.byte() % PAGE_BYTES as u64 == 0;
    let may_be_old = at.zone() == TREE_ZONE || at.zone() == FREEMAP_ZONE && (2..4).contains(&block);
    if is_page && may_be_old {
        Some(at)
    } else {
        None
    }
}
