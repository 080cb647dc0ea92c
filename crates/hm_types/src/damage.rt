// What may be broken on a volume: the kinds under which damage is told.

/// A node's kind or level, by itself or beside its parent's.
pub const BAD_LEVEL: u8 = 1;

/// The number of a node's elements or children, by itself or where it stands.
pub const BAD_COUNT: u8 = 2;

/// The order of a node's elements or boundaries.
pub const BAD_ORDER: u8 = 3;

/// An element outside the boundaries that the parent has for its leaf; or a first or right boundary
/// of an inner node that is not the one that its parent has for it.
pub const BAD_BOUNDS: u8 = 4;

/// A field of a base or place of a node, or a part of a node that must be zero.
pub const BAD_FIELD: u8 = 5;

/// A payload.
pub const BAD_PAYLOAD: u8 = 6;

/// An entry of the freemap.
pub const BAD_FREEMAP: u8 = 7;

/// An entry of the UNDO log, or its generation.
pub const BAD_UNDO: u8 = 8;

/// A node's `mirror`, by itself or beside the one that its parent has for it.
pub const BAD_MIRROR: u8 = 9;

/// An extent that is not a multiple of 16 bytes inside one pool big-block of its zone, below the
/// part of it that is in use.
pub const BAD_EXTENT: u8 = 10;

/// An extent that overlaps another one.
pub const BAD_OVERLAP: u8 = 11;

/// A big-block's count of free bytes.
pub const BAD_FREE_BYTES: u8 = 12;

/// An extent with more references than one may have.
pub const BAD_REFERENCES: u8 = 13;
