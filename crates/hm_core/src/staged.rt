// What a stage of a flush comes to that is made for a call.

use hm_model::Command;

/// What one stage of a flush came to, and the call for which it was made.
#[derive(Debug, PartialEq, Drop)]
pub enum Staged {
    /// The stage was made. The call is handed back.
    More(Command),
    /// The stage failed, and the call is refused: its entry stands at this place of the history.
    Refused(usize),
    /// The stage failed, and no id was left for the refusal.
    Spent,
}
