// A call of housekeeping that is open.
ghost use Rattle.std.specs.Prelude.{◌≡◌, ◌≢◌, ℕ};
ghost use Rattle.hm_core.specs.Running.{choice_among, open_jobs};
ghost use Rattle.hm_core.specs.State.{jobs_beside};

use crate::work::Work;
use hm_types::Id;

/// A call of housekeeping that is open: the id, the lane and the line of its opening, and what is left to do.
#[derive(Drop)]
pub struct Running {
    pub(crate) opening: Id,
    pub(crate) lane: u8,
    pub(crate) line: u32,
    pub(crate) work: Work,
}

/// Takes the call with this opening id out of those that are open.
pub(crate) fn close(running: &mut Vec<Running>, opening: Id)
    ensures left { open_jobs running.new.items ≡ jobs_beside opening.0 (open_jobs running.old.items) }
    ensures others { (id : ℕ) → id ≢ opening.0 → choice_among id running.new.items ≡ choice_among id running.old.items }
{
    running.retain(|other| other.opening != opening);
}
