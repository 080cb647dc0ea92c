// Work on a store that is done in units.
ghost use Rattle.std.specs.Prelude.{◌≡◌, ℕ, Bool, List, Option, IfOk};
ghost use Rattle.hm_key.specs.Calls.{KeepsJob, UnitDone};
ghost use Rattle.hm_key.specs.Job.{HasMoreCause, IfProgress, Place, TellSame};
ghost use Rattle.hm_key.specs.Members.{HasContentCause};

use crate::extents::Extents;
use crate::store::ElementStore;
use hm_types::{Counted, Fault};

/// What a unit of a job answers: there is more to do, or the job has come to its end.
#[derive(Clone, Copy, Debug, PartialEq, Eq)]
pub enum Progress {
    More,
    Done,
}

/// Work on a store of type T, done in units. It moves extents and removes dead elements, and leaves
/// every other element with its payload.
///
/// What `fits`, `goes` and `ends` say of the store's content binds only where the store tells it.
pub trait Job<T: ElementStore + Extents> {
    /// The condition of a unit.
    ghost fits: { Self → T → Type 0 };

    /// What holds after a unit that answered More.
    ghost goes: { Self → T → Type 0 };

    /// What holds after a unit that answered Done.
    ghost ends: { Self → T → Type 0 };

    /// The intervals of ids that it tells for a pseudo file system by number: there it may remove
    /// elements that are dead for them. Where it tells none it removes nothing.
    ghost kept: { Self → ℕ → Option (List (ℕ × ℕ)) };

    /// Whether it places extents. If not, a unit lowers no room.
    ghost places: { Self → Bool };

    /// How far it came: a unit may answer More where it came further, or where it removed or moved
    /// an element.
    ghost place: { Self → Place };

    /// One unit of the work. After an error, which is one of the store's, the job is at the start
    /// of that unit, and nothing is known of the store's content, also not whether it is told.
    fn unit(&mut self, store: &mut T) -> Result<Progress, Fault>
        requires fits { fits self.old store.old }
        ensures progress { IfOk result
            (IfProgress (goes self.new store.new) (ends self.new store.new)) }
        ensures more { IfOk result (HasMoreCause (place self.old) (place self.new)
            (T.elements store.old) (T.elements store.new)) }
        ensures job { KeepsJob fits kept places place self.old self.new result }
        ensures store { UnitDone T.elements T.mark T.extents T.room T.free (kept self.old)
            (places self.old) store.old store.new result }
        ensures name { T.name store.new ≡ T.name store.old }
        ensures frame { T.frame store.new ≡ T.frame store.old }
        ensures cause { HasContentCause T.HasElements store.old store.new result };

    /// What it says of a store goes by what that tells of its content, and by its room.
    ghost looks: { (j : Self) (s t : T) → TellSame T.elements T.mark T.extents T.room s t →
        (fits j s → fits j t) × (goes j s → goes j t) × (ends j s → ends j t) };
}
