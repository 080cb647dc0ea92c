// One unit of a prune over a store.
ghost use Rattle.std.specs.Prelude.{◌≡◌, IfErr, IfOk};
ghost use Rattle.hm_types.specs.Faults.{IsCaused, IsUndamaged};
ghost use Rattle.hm_key.specs.declared.job.Progress.TheVariants.{Done};
ghost use Rattle.hm_model.specs.Volume.{Volume};
ghost use Rattle.hm_key.specs.Sweep.{place_from};
ghost use Rattle.hm_prune.specs.Dead.{keeps_in};
ghost use Rattle.hm_stored.specs.Space.{heap};
ghost use Rattle.hm_stored.specs.Turn.{IsClosed};
ghost use Rattle.hm_state.specs.Volume.{HoldsVolume};
ghost use Rattle.hm_core.specs.Crash.{LeavesNow};
ghost use Rattle.hm_core.specs.Unit.{IfMoreGetsOn, KeepsPaid, LeavesNoneDead, UnitLeaves};

use hm_disk::Disk;
use hm_key::{Job, Progress};
use hm_prune::Prune;
use hm_stored::{Stored, what_a_crash_leaves_over_calls};
use hm_types::{Fault, Id};

/// Does one unit of a prune over the store of a volume in which no call is open, and keeps what it
/// changed, or drops it all where the device failed, memory was refused, or the root of the tree would
/// stand outside the pool: that is answered as want of memory. Each volume that the store held it holds
/// still, where the prune keeps enough for it. Where it comes to its end, nothing dead is left; where there is
/// more to do, it came further, or an element went or was moved. What a crash within it may have left, one
/// afterwards may.
pub fn unit_over<D: Disk>(
    stored: &mut Stored<D>,
    prune: &mut Prune,
    last: Id,
) -> Result<Progress, Fault>
    requires closed { IsClosed (heap stored.old.space) }
    ensures leaves { UnitLeaves (keeps_in prune.old.pfs.0 prune.old.kept) (D.faults stored.old.space.disk)
        (D.faults stored.new.space.disk) last.0 (heap stored.old.space) (heap stored.new.space)
        stored.old.root stored.new.root }
    ensures paid { KeepsPaid (heap stored.old.space) (heap stored.new.space) }
    ensures prune { (prune.new.pfs.0 ≡ prune.old.pfs.0) × (prune.new.kept ≡ prune.old.kept) }
    ensures done { IfOk result (λ progress. progress ≡ Done → LeavesNoneDead prune.old.pfs.0 prune.old.kept last.0
        (heap stored.old.space) (heap stored.new.space) stored.old.root stored.new.root) }
    ensures more { IfOk result (IfMoreGetsOn (place_from prune.old.from) (place_from prune.new.from) last.0
        (heap stored.old.space) (heap stored.new.space) stored.old.root stored.new.root) }
    ensures crashes { LeavesNow (D.left_since stored.old.space.disk) (D.left_since stored.new.space.disk)
        (D.told stored.new.space.disk) }
    ensures cause { IfErr result (IsCaused (D.faults stored.old.space.disk) (D.faults stored.new.space.disk)) }
    ensures undamaged { (volume : Volume) → HoldsVolume (heap stored.old.space) stored.old.root last.0 volume →
        IfErr result IsUndamaged }
{
    what_a_crash_leaves_over_calls::<D>();
    stored.begin(last);
    match prune.unit(stored) {
        Ok(progress) if stored.can_keep() => {
            stored.keep();
            stored.pages_are_bytes();
            Ok(progress)
        }
        Ok(_) => {
            stored.undo();
            Err(Fault::NoMemory)
        }
        Err(fault) => {
            stored.undo();
            Err(fault)
        }
    }
}
