// How large things may be.

/// The greatest transaction id, and the greatest end id of a stream.
pub const GREATEST_ID: u64 = 9_223_372_036_854_775_807;

/// The size of a big-block, in bytes. Space is handed out in big-blocks.
pub const BIGBLOCK_BYTES: u64 = 8_388_608;

/// The least size of a volume, in big-blocks.
pub const LEAST_BIGBLOCKS: u32 = 24;

/// The greatest size of a volume, in big-blocks.
pub const MOST_BIGBLOCKS: u32 = 1_048_576;

/// The size of a page, and so of a node of the B-tree, in bytes.
pub const PAGE_BYTES: usize = 4_096;

/// The size of a block of a file, in bytes. The last one may be shorter.
pub const BLOCK_BYTES: usize = 16_384;

/// The greatest size of a file, in bytes: 960 blocks.
pub const MOST_FILE_BYTES: u64 = 15_728_640;

/// The most bytes that one `write` or `fill` puts into a file. The least is 1.
pub const MOST_WRITE_BYTES: u32 = 65_536;

/// The most bytes that one `cat` asks for. The least is 1.
pub const MOST_CAT_BYTES: u32 = 16_384;

/// The longest name of a directory entry, in bytes.
pub const MOST_NAME_BYTES: usize = 255;

/// The longest path, in bytes.
pub const MOST_PATH_BYTES: usize = 1_023;

/// The most components of a path.
pub const MOST_PATH_PARTS: usize = 64;

/// The longest target of a softlink, in bytes. The shortest has 1.
pub const MOST_TARGET_BYTES: usize = 1_023;

/// The most pages of one flush group: 66,060,288 bytes.
pub const MOST_GROUP_PAGES: u32 = 16_128;

/// How many pages make a flush group full: from so many on it is flushed before the next call.
pub const FULL_GROUP_PAGES: u32 = 1_024;

/// How many big-blocks of a volume hold its UNDO log.
pub const UNDO_BIGBLOCKS: u32 = 8;

/// How many entries the UNDO log holds, each with the old bytes of one page.
pub const UNDO_ENTRIES: u32 = 16_256;

/// The size of an entry of the UNDO log, in bytes: a page and what is said of it.
pub const UNDO_ENTRY_BYTES: usize = 4_128;

/// The most levels of the B-tree, from the root to the leaves.
pub const MOST_LEVELS: u8 = 9;

/// The most elements of a leaf.
pub const MOST_LEAF_ELEMENTS: usize = 63;

/// The most children of an inner node.
pub const MOST_INNER_CHILDREN: usize = 62;

/// The fewest elements of a leaf, and the fewest children of an inner node. The root may have
/// fewer.
pub const LEAST_PLACES: usize = 16;

/// The most lanes of a script, which are numbered from 1.
pub const MOST_LANES: u8 = 8;

/// The longest script, in bytes.
pub const MOST_SCRIPT_BYTES: usize = 67_108_864;

/// The longest script, in lines.
pub const MOST_SCRIPT_LINES: u32 = 65_536;

/// The most pseudo file systems, which are numbered from 0.
pub const MOST_PFS: u32 = 65_536;

/// The most intervals of the retention of one PFS.
pub const MOST_INTERVALS: usize = 4_096;
