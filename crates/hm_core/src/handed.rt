// One unit of a job that is handed in, over a store.
ghost use Rattle.std.specs.Prelude.{◌≡◌, ℕ, IfErr, IfOk, IsFalse, None};
ghost use Rattle.hm_types.specs.Faults.{IsCaused, IsUndamaged};
ghost use Rattle.hm_key.specs.Calls.{KeepsJob};
ghost use Rattle.hm_key.specs.Job.{IfProgress};
ghost use Rattle.hm_model.specs.Volume.{Volume};
ghost use Rattle.hm_stored.specs.Space.{heap};
ghost use Rattle.hm_stored.specs.Turn.{IsClosed};
ghost use Rattle.hm_state.specs.Volume.{HoldsVolume};
ghost use Rattle.hm_core.specs.Crash.{LeavesNow};
ghost use Rattle.hm_core.specs.Handed.{AsOpened, AsOpenedAfter, HasKnown, IsAsBefore, KeepsKnown};
ghost use Rattle.hm_core.specs.Unit.{KeepsPaid, UnitLeaves};

use hm_disk::Disk;
use hm_key::{Job, Progress};
use hm_stored::{Stored, what_a_crash_leaves_over_calls};
use hm_types::{Fault, Id};

/// Does one unit of a job that tells no intervals and does not place, over the store of a volume in which
/// no call is open, and keeps what it changed, or drops it all where the unit failed, or the root of the
/// tree would stand outside the pool: that is answered as want of memory. The elements and their payloads
/// stay. What a crash within it may have left, one afterwards may.
///
/// The job fits the store as a call opens over it, and goes or ends there so.
pub(crate) fn job_over<D: Disk, J: Job<Stored<D>>>(
    stored: &mut Stored<D>,
    job: &mut J,
    last: Id,
) -> Result<Progress, Fault>
    requires closed { IsClosed (heap stored.old.space) }
    requires fits { AsOpened last.0 (J.fits job.old) stored.old }
    requires kept { (pfs : ℕ) → J.kept job.old pfs ≡ None }
    requires places { IsFalse (J.places job.old) }
    ensures leaves { UnitLeaves (λ _. None) (D.faults stored.old.space.disk)
        (D.faults stored.new.space.disk) last.0 (heap stored.old.space) (heap stored.new.space)
        stored.old.root stored.new.root }
    ensures paid { KeepsPaid (heap stored.old.space) (heap stored.new.space) }
    ensures known { KeepsKnown last.0 (heap stored.old.space) (heap stored.new.space) stored.old.root stored.new.root }
    ensures goes { IfOk result (λ progress.
        AsOpenedAfter last.0 (heap stored.old.space) stored.old.root
        (λ s. IfProgress (J.goes job.new s) (J.ends job.new s) progress) stored.new) }
    ensures dropped { IfErr result (λ _. IsAsBefore last.0 (heap stored.old.space) (heap stored.new.space)
        stored.old.root stored.new.root) }
    ensures tells { (J.kept job.new ≡ J.kept job.old) × (J.places job.new ≡ J.places job.old) }
    ensures job { HasKnown last.0 (heap stored.old.space) stored.old.root
        → KeepsJob J.fits J.kept J.places J.place job.old job.new result }
    ensures crashes { LeavesNow (D.left_since stored.old.space.disk) (D.left_since stored.new.space.disk)
        (D.told stored.new.space.disk) }
    ensures cause { IfErr result (IsCaused (D.faults stored.old.space.disk) (D.faults stored.new.space.disk)) }
    ensures undamaged { (volume : Volume) → HoldsVolume (heap stored.old.space) stored.old.root last.0 volume →
        IfErr result IsUndamaged }
{
    what_a_crash_leaves_over_calls::<D>();
    stored.begin(last);
    match job.unit(stored) {
        Ok(progress) if stored.can_keep() => {
            stored.keep();
            stored.pages_are_bytes();
            Ok(progress)
        }
        Ok(_) => {
            stored.undo();
            Err(Fault::NoMemory)
        }
        Err(fault) => {
            stored.undo();
            Err(fault)
        }
    }
}
