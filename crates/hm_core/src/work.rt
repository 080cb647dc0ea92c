// The work of a call of housekeeping that is open.
ghost use Rattle.std.specs.Prelude.{◌≡◌, IfErr, IfOk};
ghost use Rattle.hm_types.specs.Faults.{IsSpaceCaused, IsSpaceUndamaged};
ghost use Rattle.hm_types.specs.Space.{IfNoSpace};
ghost use Rattle.hm_key.specs.declared.job.Progress.TheVariants.{Done};
ghost use Rattle.hm_model.specs.Volume.{Volume};
ghost use Rattle.hm_stored.specs.Space.{heap};
ghost use Rattle.hm_stored.specs.Turn.{IsClosed};
ghost use Rattle.hm_state.specs.Volume.{HoldsVolume};
ghost use Rattle.hm_core.specs.Chosen.{LeavesAt};
ghost use Rattle.hm_core.specs.Crash.{LeavesNow};
ghost use Rattle.hm_core.specs.Open.{ids_kept_by};
ghost use Rattle.hm_core.specs.Running.{choice_of_work, open_work, way_of_work};
ghost use Rattle.hm_core.specs.Unit.{EndsOver, IfMoreWorksOn, IsPruning, KeepsPaid, LacksFor, LacksForChoice, UnitLeaves};

use crate::reblock_unit::reblock_over;
use crate::unit::unit_over;
use hm_disk::Disk;
use hm_key::Progress;
use hm_prune::Prune;
use hm_relocate::Relocation;
use hm_stored::Stored;
use hm_types::{Id, SpaceFault};

/// What is left to do of a call of housekeeping.
#[derive(Drop)]
pub enum Work {
    /// A prune.
    Prune(Prune),
    /// A reblock.
    Reblock(Relocation),
}

/// Does one unit of it over the store of a volume in which no call is open, and keeps what that changed, or
/// drops it all where the unit stopped. Each volume that the store held it holds still, where the work
/// keeps enough for it. Where a prune comes to its end nothing dead is left, and where there is more to do the
/// work got on. A reblock lacks room only where something of its choice may have to move. What a crash within
/// may have left, one afterwards may.
pub(crate) fn work_over<D: Disk>(
    stored: &mut Stored<D>,
    work: &mut Work,
    last: Id,
) -> Result<Progress, SpaceFault>
    requires closed { IsClosed (heap stored.old.space) }
    ensures leaves { UnitLeaves (ids_kept_by (open_work work.old)) (D.faults stored.old.space.disk)
        (D.faults stored.new.space.disk) last.0 (heap stored.old.space) (heap stored.new.space)
        stored.old.root stored.new.root }
    ensures paid { IsPruning (open_work work.old) → KeepsPaid (heap stored.old.space) (heap stored.new.space) }
    ensures work { open_work work.new ≡ open_work work.old }
    ensures choice { IfOk result (LeavesAt (choice_of_work work.old) (choice_of_work work.new)
        (heap stored.old.space) (heap stored.new.space)) }
    ensures done { IfOk result (λ progress. progress ≡ Done → EndsOver (open_work work.old) last.0
        (heap stored.old.space) (heap stored.new.space) stored.old.root stored.new.root) }
    ensures more { IfOk result (IfMoreWorksOn (open_work work.old) (way_of_work work.old) (way_of_work work.new)
        (choice_of_work work.old) (choice_of_work work.new) last.0
        (heap stored.old.space) (heap stored.new.space) stored.old.root stored.new.root) }
    ensures crashes { LeavesNow (D.left_since stored.old.space.disk) (D.left_since stored.new.space.disk)
        (D.told stored.new.space.disk) }
    ensures cause { IfErr result (IsSpaceCaused (D.faults stored.old.space.disk) (D.faults stored.new.space.disk)) }
    ensures undamaged { (volume : Volume) → HoldsVolume (heap stored.old.space) stored.old.root last.0 volume →
        IfErr result IsSpaceUndamaged }
    ensures space { IfErr result (IfNoSpace (LacksFor (open_work work.old) (heap stored.old.space))) }
    ensures moves { IfErr result (IfNoSpace (LacksForChoice (choice_of_work work.old) last.0
        (heap stored.old.space) stored.old.root)) }
{
    match work {
        Work::Prune(prune) => match unit_over(stored, prune, last) {
            Ok(progress) => Ok(progress),
            Err(fault) => Err(SpaceFault::Fault(fault)),
        },
        Work::Reblock(reblock) => reblock_over(stored, reblock, last),
    }
}
