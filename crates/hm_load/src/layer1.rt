// Layer 1 of the freemap: where the big-blocks of layer 2 are.
ghost use Rattle.std.specs.Prelude.{◌≡◌, ◌≤◌, ◌<◌, ◌+◌, ◌*◌, ◌^◌, ◌↔◌, ℕ, IfErr, IfNone, IfSome, IsTrue, OnOk, length};
ghost use Rattle.hm_types.specs.Faults.{HasFaultCause};
ghost use Rattle.hm_types.specs.declared.damage.TheConstants.{BAD_FREEMAP};
ghost use Rattle.hm_types.specs.declared.fault.Fault.TheVariants.{Damaged};
ghost use Rattle.hm_types.specs.declared.limits.TheConstants.{LEAST_BIGBLOCKS, MOST_BIGBLOCKS};
ghost use Rattle.hm_disk.specs.declared.limits.TheConstants.{MOST_CALL_BYTES};
ghost use Rattle.hm_fields.specs.Fields.{get};
ghost use Rattle.hm_image.specs.Sound.{HasLayer1};
ghost use Rattle.hm_load.specs.Faults.{IsFirstBad, Tells};
ghost use Rattle.hm_load.specs.Layer1.{HasOffset, HasThreeZeros, IsInPiece, IsLayer1Damage, layer1_page};
ghost use Rattle.hm_newfs.specs.Steps.{HasSpace};
ghost use Rattle.hm_load.specs.declared.layer1.TheConstants.{ENTRIES_PER_PIECE};

use crate::volume::Volume;
use byteorder::{ByteOrder, LittleEndian};
use hm_disk::{Disk, MOST_CALL_BYTES};
use hm_freemap::layer1_offset;
use hm_types::{BAD_FREEMAP, BIGBLOCK_BYTES, FREEMAP_ZONE, Fault, HOff, PAGE_BYTES};

// The size of an entry, in bytes.
const ENTRY_BYTES: usize = 32;

// How many entries a page has, and how many are read at once.
const ENTRIES_PER_PAGE: u32 = 128;

const ENTRIES_PER_PIECE: u32 = 4_096;

// How many pieces a big-block has.
const PIECES: u32 = 64;

/// Checks each entry of layer 1. The first that is not as the format says is damage of its page.
pub(crate) fn check_layer1<D: Disk>(
    disk: &mut D,
    volume: &Volume,
    buffer: &mut [u8],
) -> Result<(), Fault>
    requires space { IfSome (D.told disk.old) (HasSpace volume.now.bigblocks) }
    requires size { LEAST_BIGBLOCKS ≤ volume.now.bigblocks }
    requires len { length buffer.old ≡ MOST_CALL_BYTES }
    ensures ok { OnOk result (IfSome (D.told disk.old) (λ t.
        HasLayer1 t.bytes volume.now.bigblocks)) }
    ensures damage { IfSome (D.told disk.old) (λ t.
        IfErr result (Tells (IsLayer1Damage t.bytes volume.now.bigblocks))) }
    ensures same { D.told disk.new ≡ D.told disk.old }
    ensures crashes { D.past disk.new ≡ D.past disk.old }
    ensures cause { HasFaultCause (D.faults disk.old) (D.faults disk.new) result }
{
    for piece in 0..PIECES {
        let place = BIGBLOCK_BYTES + u64::from(piece) * MOST_CALL_BYTES as u64;
        volume.read(disk, place, buffer)?;
        let first = piece * ENTRIES_PER_PIECE;
        match first_wrong(volume.bigblocks, first, buffer) {
            None => {}
            Some(k) => return Err(wrong(first + k)),
        }
    }
    Ok(())
}

// The first wrong entry of a piece that begins with this one, counted from there.
fn first_wrong(bigblocks: u32, first: u32, bytes: &[u8]) -> Option<u32>
    requires size { bigblocks ≤ MOST_BIGBLOCKS }
    requires first { first < 2 ^ 18 }
    requires len { length bytes.now ≡ MOST_CALL_BYTES }
    ensures some { IfSome result (λ k. IsFirstBad (IsInPiece bigblocks first bytes.now) k) }
    ensures low { IfSome result (λ k. k < ENTRIES_PER_PIECE) }
    ensures none { IfNone result ((k : ℕ) → k < ENTRIES_PER_PIECE →
        IsInPiece bigblocks first bytes.now k) }
{
    for k in 0..ENTRIES_PER_PIECE {
        if !is_entry(bigblocks, first + k, bytes, k as usize * ENTRY_BYTES) {
            return Some(k);
        }
    }
    None
}

// Whether the bytes from a place on are those of this entry: its offset, and zeros.
fn is_entry(bigblocks: u32, i: u32, bytes: &[u8], at: usize) -> bool
    requires size { bigblocks ≤ MOST_BIGBLOCKS }
    requires within { at + 32 ≤ length bytes.now }
    ensures { IsTrue result ↔ HasOffset bytes.now at bigblocks i }
{
    word(bytes, at) == layer1_offset(bigblocks, i).raw() && are_zeros(bytes, at + 8)
}

// Whether the 24 bytes from a place on are 0.
fn are_zeros(bytes: &[u8], at: usize) -> bool
    requires { at + 24 ≤ length bytes.now }
    ensures { IsTrue result ↔ HasThreeZeros bytes.now at }
{
    word(bytes, at) == 0 && word(bytes, at + 8) == 0 && word(bytes, at + 16) == 0
}

// The number in the 8 bytes from a place on.
fn word(bytes: &[u8], at: usize) -> u64
    requires { at + 8 ≤ length bytes.now }
    ensures { result ≡ get bytes.now at 8 }
{
    LittleEndian::read_u64(&bytes[at..at + 8])
}

// Damage of the page with this entry.
fn wrong(i: u32) -> Fault
    requires { i < 2 ^ 18 }
    ensures { result ≡ Damaged (layer1_page i) BAD_FREEMAP }
{
    let byte = BIGBLOCK_BYTES + u64::from(i / ENTRIES_PER_PAGE) * PAGE_BYTES as u64;
    Fault::Damaged {
        at: HOff::make(FREEMAP_ZONE, byte).unwrap_or_default(),
        kind: BAD_FREEMAP,
    }
}
