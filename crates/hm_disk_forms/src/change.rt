// What a call changed on a disk in memory.

use hm_types::Bytes;

/// A change of a disk in memory, for the record of its calls.
#[derive(Drop)]
pub(crate) enum Change {
    /// A write of `count` bytes from `place` on put these bytes there, which are all of them or, where
    /// it failed, a front.
    Write {
        place: u64,
        count: usize,
        bytes: Bytes,
    },
    /// A sync settled all that was written.
    Sync,
}
