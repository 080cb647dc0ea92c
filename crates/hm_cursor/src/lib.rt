//! The elements of a store as of an id: a cursor over those that are seen, the one that counts about
//! a subject, its payload, the names of a directory, and new versions in place of old ones.
#![tactic(auto)]

mod cursor;
mod find;
mod names;
mod payload;
mod subject;
mod version;
mod write;

pub use cursor::Cursor;
pub use find::{find_inode, find_payload, find_record};
pub use names::{find_name, object_named, previous_name};
pub use payload::read_payload;
pub use subject::{entry_base, inode_base, record_base, target_base};
pub use version::{first_version, last_version, version_at};
pub use write::{add_version, close_versions, insert_with_payload, renew_version};
