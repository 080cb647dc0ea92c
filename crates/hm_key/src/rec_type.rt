// What an element is about: the values of `rec_type`, and of the lower half of `localization`.

/// An object's inode. Its key is 0.
pub const INODE: u16 = 0x0001;

/// Some bytes of a file, at most one block. Its key is the byte of the file just after them.
pub const FILE_BYTES: u16 = 0x0010;

/// A directory's entry. Its key is made of the name's hash.
pub const DIRECTORY_ENTRY: u16 = 0x0011;

/// A softlink's target. Its key is 0.
pub const SOFTLINK_TARGET: u16 = 0x0014;

/// The record of a pseudo file system, at object 1. Its key is the PFS number.
pub const PFS_RECORD: u16 = 0x0015;

/// A snapshot, which no volume has yet.
pub const SNAPSHOT: u16 = 0x0016;

/// The lower 16 bits of the localization of an inode.
pub const INODE_PART: u32 = 1;

/// The lower 16 bits of the localization of every other element.
pub const OTHER_PART: u32 = 2;
