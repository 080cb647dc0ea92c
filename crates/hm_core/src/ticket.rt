// The name of an open call of housekeeping, and what a unit of it comes to.
ghost use Rattle.std.specs.Prelude.{◌≡◌};

use hm_types::Id;

/// The name of a call of housekeeping that is open. Its opening hands it out. Where it is dropped, the
/// call stays open.
#[derive(Debug, PartialEq, Drop)]
pub struct Ticket {
    pub(crate) opening: Id,
}

impl Ticket {
    /// The id of the opening.
    pub fn opening(&self) -> Id
        ensures { result ≡ self.now.opening }
    {
        self.opening
    }
}

/// What one unit of an open call of housekeeping came to.
#[derive(Debug, PartialEq, Drop)]
pub enum UnitEnd {
    /// There is more to do. The ticket is handed back.
    More(Ticket),
    /// The call is at its end: its ending stands at this place of the history.
    Ended(usize),
    /// The call is at its end, and no id was left for its ending: the last one is
    /// 9,223,372,036,854,775,807.
    Spent,
}
