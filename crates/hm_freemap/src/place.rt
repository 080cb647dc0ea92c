// Where the entries of layer 2 stand.
ghost use Rattle.std.specs.Prelude.{◌≡◌, ◌≤◌, ◌<◌, ◌+◌, ◌^◌};
ghost use Rattle.hm_types.specs.declared.limits.TheConstants.{PAGE_BYTES};
ghost use Rattle.hm_freemap.specs.Places.{page_of, place_of};

use hm_types::{BIGBLOCK_BYTES, FREEMAP_ZONE, HOff, PAGE_BYTES};

// How many entries a page of layer 2 has.
const ENTRIES_PER_PAGE: u64 = 256;

// The size of an entry, in bytes.
const ENTRY_BYTES: u64 = 16;

// The byte of the volume at which layer 2 begins.
const LAYER2_START: u64 = 2 * BIGBLOCK_BYTES;

/// The page of layer 2 with the entry of a big-block. A byte of a volume lies in a big-block below
/// 2^29.
#[tactic(auto, unfolding(crate::specs::Places::page_of))]
pub fn page_of(block: u64) -> HOff
    requires { block < 2 ^ 32 }
    ensures { result ≡ page_of block }
{
    let page = block / ENTRIES_PER_PAGE;
    HOff::make(FREEMAP_ZONE, LAYER2_START + page * PAGE_BYTES as u64).unwrap_or_default()
}

/// Where in that page the entry begins, in bytes.
#[tactic(auto, unfolding(crate::specs::Places::place_of))]
pub fn place_of(block: u64) -> usize
    ensures value { result ≡ place_of block }
    ensures within { result + 16 ≤ PAGE_BYTES }
{
    (block % ENTRIES_PER_PAGE * ENTRY_BYTES) as usize
}
