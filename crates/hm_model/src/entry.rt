// One entry of a history.

use crate::command::Command;
use crate::reply::Reply;
use hm_types::Id;

/// A call that was answered. A history is the list of a run's entries, in order of their ids.
#[derive(Debug, PartialEq, Drop)]
pub struct Entry {
    /// The id that the call drew.
    pub id: Id,
    /// The lane that it ran in, from 1 to 8, or 0 for a line without a lane.
    pub lane: u8,
    /// The number of its line in the script, from 1.
    pub line: u32,
    pub call: Command,
    pub reply: Reply,
}
