//! The store of a volume: its pages, its freemap and its disk, as the calls on names read and change
//! them.
//!
//! A volume in use is in one of these states. Each move names the function of [`Space`] that makes it;
//! [`Stored`] has the same, and keeps the root of the tree beside.
//!
//! ```text
//!   mounted, once recovery is done
//!        |
//!        |  over
//!        v
//!      idle -------- begin -------> a call is open --+
//!        ^ ^                          |  |  |  ^     |  place, share, give_back, admit,
//!        | +------ keep (kept) -------+  |  |  +-----+  change, new_node, drop_node
//!        |                               |  |
//!        +------- undo (dropped) --------+  |  one of these failed half-way
//!        |                                  v
//!        +------- undo (dropped) ------- refusing
//!
//!   frozen: beside any of these, from Freeze, the first stage of a flush, until Commit 3, its last.
//!   Each stage is one flush_stage, between two calls, in idle alone
//! ```
//!
//! idle: the current state is what calls that were kept have made of the volume. A call is open: its
//! changes stand in the current state, and the state as it began can be had again. Refusing: what the
//! current state holds is not known, and each call is refused. Kept: the changes belong to the group that
//! is flushed next. Dropped: pages, append big-blocks and root are as the call found them; payloads that
//! it wrote stay on the disk, where nothing refers to them.
//! Frozen: what Freeze found in the current state stays as it was until it is committed, whatever calls
//! make of the current one meanwhile.
#![tactic(auto)]

mod books;
mod change;
mod extents;
mod flushing;
mod grants;
mod laws;
mod moving;
mod pages;
mod payloads;
mod places;
mod roots;
mod space;
mod stored;
mod stored_elements;
mod stored_extents;
mod tree_calls;
mod tree_pages;
mod tree_space;

pub use books::Books;
pub use change::Change;
pub use laws::{FrameWord, what_a_crash_leaves_over_calls, what_the_frame_says_stays};
pub use roots::Roots;
pub use space::Space;
pub use stored::Stored;
