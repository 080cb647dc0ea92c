// Layer 1: where the big-blocks of layer 2 are.
ghost use Rattle.std.specs.Prelude.{◌≡◌, ◌≤◌, ◌+◌, ◌↔◌, ℕ, IsSome, IfSome, length};
ghost use Rattle.hm_types.specs.declared.limits.TheConstants.{PAGE_BYTES, MOST_BIGBLOCKS};
ghost use Rattle.hm_fields.specs.Fields.{Apart, get};
ghost use Rattle.hm_freemap.specs.Layer1.{HoldsLayer1, layer1_of};

use hm_fields::{Page, get_u64, put_u64};
use hm_types::{BIGBLOCK_BYTES, FREEMAP_ZONE, HOff, UNAVAILABLE_ZONE, VOLUME_ZONE, layer2_blocks};

// The first big-block of layer 2.
const FIRST_LAYER2: u64 = 2;

/// Entry `i` of layer 1 of a volume of `bigblocks`: where the big-block of layer 2 begins that tells
/// of the big-blocks 524,288 i to 524,288 i + 524,287, or byte 0 of zone 15 where there is none.
pub fn layer1_offset(bigblocks: u32, i: u32) -> HOff
    requires { bigblocks ≤ MOST_BIGBLOCKS }
    ensures { result ≡ layer1_of bigblocks i }
{
    if i < layer2_blocks(bigblocks) {
        HOff::make(FREEMAP_ZONE, (FIRST_LAYER2 + u64::from(i)) * BIGBLOCK_BYTES).unwrap_or_default()
    } else {
        HOff::make(UNAVAILABLE_ZONE, 0).unwrap_or_default()
    }
}

/// Reads the entry of layer 1 that begins at `at`, in bytes from the start of the page. None where
/// it is neither the start of a big-block in zone 4 nor byte 0 of zone 15, or where one of the 24
/// bytes after it is not 0.
pub fn read_layer1(page: &Page, at: usize) -> Option<HOff>
    requires { at + 32 ≤ PAGE_BYTES }
    ensures some { IsSome result ↔ HoldsLayer1 page.now at }
    ensures value { IfSome result (λ offset. offset ≡ get page.now at 8) }
{
    if get_u64(page, at + 8) != 0 || get_u64(page, at + 16) != 0 || get_u64(page, at + 24) != 0 {
        return None;
    }
    let offset = HOff::from_raw(get_u64(page, at))?;
    match offset.zone() {
        FREEMAP_ZONE if offset.byte() % BIGBLOCK_BYTES == 0 => Some(offset),
        UNAVAILABLE_ZONE if offset.byte() == 0 => Some(offset),
        _ => None,
    }
}

/// Writes an entry of layer 1 into the 32 bytes from `at` on, and leaves all others.
#[tactic(auto, using(hm_fields::proofs::FieldLemmas::fields))]
pub fn write_layer1(page: &mut Page, at: usize, offset: HOff)
    requires { at + 32 ≤ PAGE_BYTES }
    ensures value { get page.new at 8 ≡ offset }
    ensures zero { (get page.new (at + 8) 8 ≡ 0) × (get page.new (at + 16) 8 ≡ 0)
        × (get page.new (at + 24) 8 ≡ 0) }
    ensures others { (other width : ℕ) → Apart at 32 other width →
        get page.new other width ≡ get page.old other width }
    ensures sized { length page.new ≡ PAGE_BYTES }
{
    put_u64(page, at, offset.raw());
    put_u64(page, at + 8, 0);
    put_u64(page, at + 16, 0);
    put_u64(page, at + 24, 0);
}
