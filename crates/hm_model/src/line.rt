// One line of a script.

use crate::command::Command;

/// A line that gives a command.
#[derive(Debug, PartialEq, Drop)]
pub struct Line {
    /// Its lane, from 1 to 8, or 0 for a line without a lane.
    pub lane: u8,
    /// Its number in the script, from 1. All lines count.
    pub number: u32,
    pub command: Command,
}
