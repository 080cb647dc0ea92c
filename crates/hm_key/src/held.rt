// One extent of a store in memory.

use hm_types::HOff;

/// A live extent. Its bytes are as many as it takes of space.
#[derive(Drop)]
pub struct Held {
    pub at: HOff,
    pub bytes: Vec<u8>,
    pub refs: u32,
}
