// Why no volume was opened.

use hm_types::Fault;

/// Why a volume was not made or not opened.
#[derive(Clone, Copy, Debug, PartialEq, Eq)]
pub enum OpenFault {
    /// No header slot has an open gate and the signature.
    NotVolume,
    /// A field of the slot that counts is out of range. `place` is its offset in the slot, in
    /// bytes. A disk that is too small has its fault at 12, which is the place of the number of
    /// big-blocks.
    BadField { place: u32 },
    /// A fault of the disk, damage of what it holds, or want of memory.
    Fault(Fault),
}
