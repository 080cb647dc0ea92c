//! The descent from the root of the B-tree: reads each node and checks it where it stands, and
//! finds the place of a key.
#![tactic(auto)]

mod laws;
mod look;
mod look_to;
mod near;
mod place_rule;
mod reached;
mod read;
mod search;
mod steps;
mod subtree;
mod visits;

pub use laws::{
    elements_are_in_order, marks_are_between_ids_and_mirror, nodes_below_are_lower,
    what_is_not_reached_does_not_matter,
};
pub use near::first_near;
pub use place_rule::PlaceRule;
pub use read::{checked_node, read_node};
pub use search::{Found, find, last_at_or_before, unchanged_until};
pub use steps::Steps;
pub use subtree::{Parent, Subtree};
pub use visits::{child_below, holder_place_in, leaf_place_in, step_into, visit};
