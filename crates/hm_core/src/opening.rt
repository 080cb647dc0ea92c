// The opening of a reblock.
ghost use Rattle.std.specs.Prelude.{◌≡◌, ℕ, ◌<◌};
ghost use Rattle.hm_types.specs.declared.limits.TheConstants.{GREATEST_ID};
ghost use Rattle.hm_model.specs.declared.command.Command.TheVariants.{Reblock};
ghost use Rattle.hm_stored.specs.Space.{heap};
ghost use Rattle.hm_stored.specs.Turn.{IsClosed};
ghost use Rattle.hm_core.specs.Answer.{AnswersOver, reply_of_outcome, work_of};
ghost use Rattle.hm_core.specs.Chosen.{BeginsBy};
ghost use Rattle.hm_core.specs.Crash.{LeavesNow};
ghost use Rattle.hm_core.specs.Running.{IfOpened, choice_of_work};

use crate::calls::failure;
use crate::outcome::Outcome;
use crate::work::Work;
use hm_disk::Disk;
use hm_model::Reply;
use hm_relocate::{Relocation, choose};
use hm_stored::Stored;
use std::alloc::Global;

/// Opens a reblock over the store of a volume in which no call is open: chooses the big-blocks of the pool to
/// which no zone appends and of whose bytes some, but fewer than `fill` in a hundred, are live. It changes
/// nothing.
pub(crate) fn open_reblock<D: Disk>(alloc: Global, stored: &mut Stored<D>, fill: u8) -> Outcome
    requires closed { IsClosed (heap stored.old.space) }
    ensures answers { (numbers boundary last : ℕ) → last < GREATEST_ID →
        AnswersOver numbers boundary (D.faults stored.old.space.disk) (D.faults stored.new.space.disk) last (Reblock fill)
        (heap stored.old.space) (heap stored.new.space) stored.old.root stored.new.root
        (reply_of_outcome result) (work_of result) }
    ensures crashes { LeavesNow (D.left_since stored.old.space.disk) (D.left_since stored.new.space.disk)
        (D.told stored.new.space.disk) }
    ensures begins { IfOpened result (λ work. BeginsBy (Reblock fill) (heap stored.old.space) (choice_of_work work)) }
{
    match choose(alloc, stored, fill) {
        Ok(chosen) => Outcome::Opened(Work::Reblock(Relocation::new(chosen))),
        Err(fault) => Outcome::Replied(failure(fault)),
    }
}
