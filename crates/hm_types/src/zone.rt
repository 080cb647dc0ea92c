// The zones by their numbers, as they stand in bits 60 to 63 of a raw offset. As in HAMMER.

/// The whole volume; of what stands on it, the header slots.
pub const VOLUME_ZONE: u8 = 1;

/// The raw buffers of HAMMER. Nothing here stands in it.
pub const RAW_ZONE: u8 = 2;

/// The UNDO log.
pub const UNDO_ZONE: u8 = 3;

/// The freemap.
pub const FREEMAP_ZONE: u8 = 4;

/// The nodes of the B-tree.
pub const TREE_ZONE: u8 = 8;

/// Inodes, names and all other records.
pub const META_ZONE: u8 = 9;

/// File extents of 16,384 bytes or more.
pub const LARGE_ZONE: u8 = 10;

/// Shorter file extents.
pub const SMALL_ZONE: u8 = 11;

/// What lies past the end of the volume.
pub const UNAVAILABLE_ZONE: u8 = 15;
