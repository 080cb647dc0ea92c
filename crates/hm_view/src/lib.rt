//! What `ls`, `stat` and `readlink` answer of an object of a tree, and which ids the softlinks of a
//! directory name, as of an id.
#![tactic(auto)]

mod links;
mod listing;
mod pass;
mod sizes;
mod snapshots;

pub use links::target;
pub use listing::list;
pub use sizes::size;
pub use snapshots::snapshot_ids;
