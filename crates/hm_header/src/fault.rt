// Why the slots gave no header.

/// Why the slots of a disk gave no header.
#[derive(Clone, Copy, Debug, PartialEq, Eq)]
pub enum HeaderFault {
    /// No slot takes part: each has a closed gate, or lacks the signature.
    NotVolume,
    /// A field of the slot that counts is out of range. `place` is the offset in the slot, in
    /// bytes, of the first one: 8, 12, 24, 32, 40, 44, 48, 52, 56, 60, 64, 68 or 72. 12 is answered
    /// for a disk that is smaller than the big-blocks say too, and 52 and 72 for a byte that is not
    /// zero in a part that must be zeros.
    BadField { place: u32 },
}
