//! The words of hammer that every crate speaks: ids, texts, names, offsets, zones, the causes of
//! failure, and the limits.
#![tactic(auto)]

mod bytes;
mod calls;
mod counted;
mod damage;
mod fault;
mod hash;
mod id;
mod ids;
mod layout;
mod limits;
mod name;
mod names;
mod object;
mod offset;
mod space;
mod text;
mod zone;
mod zones;

pub use bytes::Bytes;
pub use calls::Calls;
pub use counted::Counted;
pub use damage::{
    BAD_BOUNDS, BAD_COUNT, BAD_EXTENT, BAD_FIELD, BAD_FREE_BYTES, BAD_FREEMAP, BAD_LEVEL,
    BAD_MIRROR, BAD_ORDER, BAD_OVERLAP, BAD_PAYLOAD, BAD_REFERENCES, BAD_UNDO,
};
pub use fault::{Failed, Fault, NoMemory, SpaceFault};
pub use hash::name_hash;
pub use id::{Id, Obj, Pfs};
pub use ids::Ids;
pub use layout::{first_pool, first_undo, is_layer2, is_pool, layer2_blocks};
pub use limits::{
    BIGBLOCK_BYTES, BLOCK_BYTES, FULL_GROUP_PAGES, GREATEST_ID, LEAST_BIGBLOCKS, LEAST_PLACES,
    MOST_BIGBLOCKS, MOST_CAT_BYTES, MOST_FILE_BYTES, MOST_GROUP_PAGES, MOST_INNER_CHILDREN,
    MOST_INTERVALS, MOST_LANES, MOST_LEAF_ELEMENTS, MOST_LEVELS, MOST_NAME_BYTES, MOST_PATH_BYTES,
    MOST_PATH_PARTS, MOST_PFS, MOST_SCRIPT_BYTES, MOST_SCRIPT_LINES, MOST_TARGET_BYTES,
    MOST_WRITE_BYTES, PAGE_BYTES, UNDO_BIGBLOCKS, UNDO_ENTRIES, UNDO_ENTRY_BYTES,
};
pub use name::{Name, is_name};
pub use names::Names;
pub use object::{Content, Kind, Object, Triple};
pub use offset::HOff;
pub use space::{INSERT_ROOM, MOST_REFERENCES, PAYLOAD_RESERVE, TREE_RESERVE, rounded};
pub use text::Text;
pub use zone::{
    FREEMAP_ZONE, LARGE_ZONE, META_ZONE, RAW_ZONE, SMALL_ZONE, TREE_ZONE, UNAVAILABLE_ZONE,
    UNDO_ZONE, VOLUME_ZONE,
};
pub use zones::Zones;
