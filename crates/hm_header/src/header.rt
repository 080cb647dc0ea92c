// What a header says, and how large things are.
ghost use Rattle.std.specs.Prelude.{◌≡◌, ◌+◌, ◌%◌, ◌^◌};

use hm_types::{HOff, Id};

/// The size of a header slot, in bytes. The first slot stands at the start of the disk.
pub const SLOT_BYTES: usize = 16_384;

/// Where the second slot stands on the disk, in bytes.
pub const SECOND_SLOT: u64 = 16_384;

/// The size of a slot's body, in bytes: all of the slot but its gate.
pub const BODY_BYTES: usize = 16_383;

/// Where the gate stands in a slot, in bytes: it is the last byte.
pub const GATE_PLACE: usize = 16_383;

/// The gate's value where it is open. A gate of any other value is closed.
pub const GATE_OPEN: u8 = 0xA5;

/// The value that a gate gets as it is closed.
pub const GATE_CLOSED: u8 = 0;

// What a slot begins with.
pub(crate) const SIGNATURE: [u8; 8] = *b"HMRPROF1";

/// The version of the layout of a volume that is read and written here.
pub const VERSION: u32 = 2;

/// The state of a volume at a boundary, as a header slot holds it.
#[derive(Clone, Copy, Debug, PartialEq, Eq)]
pub struct Header {
    /// The version of the volume's layout.
    pub version: u32,
    /// The size of the volume, in big-blocks.
    pub bigblocks: u32,
    /// One more than in the header that was written before, and 0 after 2^64 - 1.
    pub generation: u64,
    /// The last id that was drawn.
    pub last: Id,
    /// Where the root node of the B-tree stands.
    pub root: HOff,
    /// The first entry of the UNDO log that is in use, from 0 to 16,255.
    pub undo_first: u32,
    /// How many entries recovery writes back, from 0 to 16,128. With 0 there is nothing to recover.
    pub undo_count: u32,
    /// The entry of the UNDO log that the next flush writes first, from 0 to 16,255.
    pub undo_next: u32,
    /// The big-blocks that zones 8 to 11 are filled in, in this order.
    pub append: [u32; 4],
}

impl Header {
    /// The generation of the header that is written after this one.
    pub fn next_generation(&self) -> u64
        ensures { result ≡ (self.now.generation + 1) % 2 ^ 64 }
    {
        self.generation.wrapping_add(1)
    }
}
