// The kinds of objects, as an inode and the `obj_type` of an element name them.

/// A directory.
pub const DIRECTORY: u8 = 1;

/// A file.
pub const FILE: u8 = 2;

/// A softlink.
pub const SOFTLINK: u8 = 3;

/// A link to the root of another pseudo file system.
pub const PFS_LINK: u8 = 4;
