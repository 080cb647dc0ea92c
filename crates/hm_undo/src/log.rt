// The log: its entries, and where they stand on the disk.
ghost use Rattle.std.specs.Prelude.{◌≡◌, ◌≤◌, ◌<◌};
ghost use Rattle.hm_types.specs.declared.limits.TheConstants.{MOST_BIGBLOCKS, MOST_GROUP_PAGES, UNDO_ENTRIES};
ghost use Rattle.hm_undo.specs.Log.{entry_at, entry_place};

use hm_types::{BIGBLOCK_BYTES, UNDO_ENTRIES, UNDO_ENTRY_BYTES, first_undo};

/// The entry that follows `i` after the first of a range. The last entry of the log is followed by entry 0.
pub fn entry_at(first: u32, i: u32) -> u32
    requires first { first < UNDO_ENTRIES }
    requires most { i ≤ MOST_GROUP_PAGES }
    ensures value { result ≡ entry_at first i }
    ensures entry { result < UNDO_ENTRIES }
{
    (first + i) % UNDO_ENTRIES
}

/// Where an entry begins, in bytes from the start of the disk, on a volume of `bigblocks`.
pub fn entry_place(bigblocks: u32, entry: u32) -> u64
    requires bigblocks { bigblocks ≤ MOST_BIGBLOCKS }
    requires entry { entry < UNDO_ENTRIES }
    ensures { result ≡ entry_place bigblocks entry }
{
    u64::from(first_undo(bigblocks)) * BIGBLOCK_BYTES + u64::from(entry) * UNDO_ENTRY_BYTES as u64
}
