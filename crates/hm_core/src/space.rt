// A call that tells the space of a volume.
ghost use Rattle.std.specs.Prelude.{ℕ, ◌<◌, None};
ghost use Rattle.hm_types.specs.declared.limits.TheConstants.{GREATEST_ID};
ghost use Rattle.hm_model.specs.declared.command.Command.TheVariants.{Df};
ghost use Rattle.hm_stored.specs.Space.{heap};
ghost use Rattle.hm_stored.specs.Turn.{IsClosed};
ghost use Rattle.hm_core.specs.Answer.{AnswersOver};
ghost use Rattle.hm_core.specs.Crash.{LeavesNow};

use crate::calls::failure;
use hm_disk::Disk;
use hm_model::Reply;
use hm_stored::Stored;
use hm_types::first_pool;

/// Answers `df` over the store of a volume in which no call is open: how many big-blocks the pool has,
/// and how many of them are free. Each page of layer 2 is read once a state.
pub fn tell_space<D: Disk>(stored: &mut Stored<D>) -> Reply
    requires closed { IsClosed (heap stored.old.space) }
    ensures answers { (numbers boundary last : ℕ) → last < GREATEST_ID →
        AnswersOver numbers boundary (D.faults stored.old.space.disk) (D.faults stored.new.space.disk) last Df
        (heap stored.old.space) (heap stored.new.space) stored.old.root stored.new.root result None }
    ensures crashes { LeavesNow (D.left_since stored.old.space.disk) (D.left_since stored.new.space.disk)
        (D.told stored.new.space.disk) }
{
    let bigblocks = stored.space().books().bigblocks;
    match stored.free_blocks() {
        Ok(free) => Reply::Space {
            pool: bigblocks - first_pool(bigblocks),
            free,
        },
        Err(fault) => failure(fault),
    }
}
