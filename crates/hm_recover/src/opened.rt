// The header that counts on a disk.

use hm_header::Header;

/// The header that counts on a disk, and the number of its slot, 0 or 1.
#[derive(Clone, Copy, Debug, PartialEq, Eq)]
pub struct Opened {
    /// The header.
    pub header: Header,
    /// The number of its slot.
    pub slot: u8,
}
