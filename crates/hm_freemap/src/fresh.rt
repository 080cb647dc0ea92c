// The entries of a volume that was just made.
ghost use Rattle.std.specs.Prelude.{◌≡◌, ◌≤◌, ◌<◌, ◌^◌, ℕ, slice_index};
ghost use Rattle.hm_types.specs.declared.limits.TheConstants.{BIGBLOCK_BYTES, LEAST_BIGBLOCKS, MOST_BIGBLOCKS};
ghost use Rattle.hm_freemap.specs.Fresh.{HoldsFresh, fresh_entry, reserved_entry, taken_entry};

use crate::entry::Entry;
use hm_fields::Page;
use hm_types::{
    BIGBLOCK_BYTES, FREEMAP_ZONE, TREE_ZONE, UNAVAILABLE_ZONE, UNDO_ZONE, VOLUME_ZONE, first_pool,
    first_undo,
};

/// The entry of a big-block of a volume of `bigblocks` that was just made: the zones 8 to 11 began
/// the first four big-blocks of the pool, and `taken` bytes of each are live.
pub fn fresh_entry(bigblocks: u32, taken: &[u32; 4], block: u32) -> Entry
    requires least { LEAST_BIGBLOCKS ≤ bigblocks }
    requires most { bigblocks ≤ MOST_BIGBLOCKS }
    requires taken { (k : ℕ) → k < 4 → slice_index taken.now k ≤ BIGBLOCK_BYTES }
    ensures { result ≡ fresh_entry bigblocks taken.now block }
{
    if block == 0 {
        return reserved(VOLUME_ZONE);
    }
    if block < first_undo(bigblocks) {
        return reserved(FREEMAP_ZONE);
    }
    let pool = first_pool(bigblocks);
    if block < pool {
        return reserved(UNDO_ZONE);
    }
    if block < pool + 4 {
        let place = block - pool;
        return begun_with(TREE_ZONE + place as u8, taken[place as usize]);
    }
    if block < bigblocks {
        return Entry::unused();
    }
    reserved(UNAVAILABLE_ZONE)
}

/// Fills a page of layer 2 with the entries of the 256 big-blocks from `first` on, as they are on a
/// volume that was just made.
pub fn fresh_page(bigblocks: u32, taken: &[u32; 4], first: u32, page: &mut Page)
    requires least { LEAST_BIGBLOCKS ≤ bigblocks }
    requires most { bigblocks ≤ MOST_BIGBLOCKS }
    requires taken { (k : ℕ) → k < 4 → slice_index taken.now k ≤ BIGBLOCK_BYTES }
    requires first { first < 2 ^ 31 }
    ensures { HoldsFresh bigblocks taken.now first 256 page.new }
{
    for i in 0..256u32 {
        fresh_entry(bigblocks, taken, first + i).write(page, i as usize * 16);
    }
}

// The entry of a big-block that no space is handed out of.
fn reserved(zone: u8) -> Entry
    ensures { result ≡ reserved_entry zone }
{
    Entry {
        zone,
        append_off: 0,
        bytes_free: 0,
    }
}

// The entry of a big-block of which so many bytes were taken.
fn begun_with(zone: u8, taken: u32) -> Entry
    requires { taken ≤ BIGBLOCK_BYTES }
    ensures { result ≡ taken_entry zone taken }
{
    Entry {
        zone,
        append_off: taken,
        bytes_free: BIGBLOCK_BYTES as i32 - taken as i32,
    }
}
