// What a call of a core comes to.

use crate::ticket::Ticket;
use hm_model::Command;

/// What one call of a core came to.
#[derive(Debug, PartialEq, Drop)]
pub enum Step {
    /// The call was answered, and is at its end. Its entry stands at this place of the history.
    Answered(usize),
    /// The opening of a prune or a reblock was accepted, and it is open: its ticket is for `job_unit`. The
    /// entry of the opening stands at this place of the history.
    Opened(usize, Ticket),
    /// The call waits for a flush, and is handed back: the group of pages is full, or it is a sync, and
    /// not all that was answered before it is committed. Nothing has changed.
    MustFlush(Command),
    /// No id was left: the last one is 9,223,372,036,854,775,807. Nothing has changed.
    Spent,
}
