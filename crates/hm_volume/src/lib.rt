//! Which volume a list of elements shows: the records of its pseudo file systems, and their trees
//! now and as of each id that they keep.
//!
//! It is definitions alone, with laws of what they say: code that reads a volume cites them.
#![tactic(auto)]

mod laws;

pub use laws::{inodes_are_found_in_views, inodes_that_count_make_objects, records_tell_systems};
