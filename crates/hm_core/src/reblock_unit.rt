// One unit of a reblock over a store.
ghost use Rattle.std.specs.Prelude.{IfErr, IfOk, None};
ghost use Rattle.hm_types.specs.Faults.{IsSpaceCaused, IsSpaceUndamaged};
ghost use Rattle.hm_types.specs.Space.{IfNoSpace};
ghost use Rattle.hm_model.specs.Volume.{Volume};
ghost use Rattle.hm_relocate.specs.Way.{way_of};
ghost use Rattle.hm_stored.specs.Space.{heap};
ghost use Rattle.hm_stored.specs.Turn.{IsClosed};
ghost use Rattle.hm_state.specs.Volume.{HoldsVolume};
ghost use Rattle.hm_core.specs.Chosen.{LeavesAt};
ghost use Rattle.hm_core.specs.Crash.{LeavesNow};
ghost use Rattle.hm_core.specs.Unit.{IfMoreMovesOn, LacksForChoice, UnitLeaves};

use hm_disk::Disk;
use hm_key::Progress;
use hm_relocate::Relocation;
use hm_stored::{Stored, what_a_crash_leaves_over_calls};
use hm_types::{Fault, Id, SpaceFault};

/// Does one unit of a reblock over the store of a volume in which no call is open, and keeps what it changed,
/// or drops it all where the device failed, memory was refused, no big-block was free, or the root of the tree
/// would stand outside the pool: that is answered as want of memory. Each volume that the store held it holds
/// still. A big-block leaves the choice only where a zone appends to it, or nothing is live in it, and at its
/// end none is left. Where there is more to do it got on. Room lacks only in a zone where a node or a
/// payload of the choice stands. What a crash within it may have left, one afterwards may.
pub(crate) fn reblock_over<D: Disk>(
    stored: &mut Stored<D>,
    reblock: &mut Relocation,
    last: Id,
) -> Result<Progress, SpaceFault>
    requires closed { IsClosed (heap stored.old.space) }
    ensures leaves { UnitLeaves (λ _. None) (D.faults stored.old.space.disk)
        (D.faults stored.new.space.disk) last.0 (heap stored.old.space) (heap stored.new.space)
        stored.old.root stored.new.root }
    ensures choice { IfOk result (LeavesAt reblock.old.payloads.choice reblock.new.payloads.choice
        (heap stored.old.space) (heap stored.new.space)) }
    ensures more { IfOk result (IfMoreMovesOn (way_of reblock.old) (way_of reblock.new) reblock.old.payloads.choice
        reblock.new.payloads.choice last.0 (heap stored.old.space) (heap stored.new.space)
        stored.old.root stored.new.root) }
    ensures crashes { LeavesNow (D.left_since stored.old.space.disk) (D.left_since stored.new.space.disk)
        (D.told stored.new.space.disk) }
    ensures cause { IfErr result (IsSpaceCaused (D.faults stored.old.space.disk) (D.faults stored.new.space.disk)) }
    ensures undamaged { (volume : Volume) → HoldsVolume (heap stored.old.space) stored.old.root last.0 volume →
        IfErr result IsSpaceUndamaged }
    ensures space { IfErr result (IfNoSpace (LacksForChoice reblock.old.payloads.choice last.0
        (heap stored.old.space) stored.old.root)) }
{
    what_a_crash_leaves_over_calls::<D>();
    stored.begin(last);
    match reblock.unit(stored) {
        Ok(progress) if stored.can_keep() => {
            stored.keep();
            stored.pages_are_bytes();
            Ok(progress)
        }
        Ok(_) => {
            stored.undo();
            Err(SpaceFault::Fault(Fault::NoMemory))
        }
        Err(fault) => {
            stored.undo();
            Err(fault)
        }
    }
}
