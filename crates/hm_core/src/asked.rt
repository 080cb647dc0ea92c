// A call of any command that is served.
ghost use Rattle.std.specs.Prelude.{◌<◌};
ghost use Rattle.hm_types.specs.declared.limits.TheConstants.{GREATEST_ID};
ghost use Rattle.hm_stored.specs.Space.{heap};
ghost use Rattle.hm_stored.specs.Turn.{IsClosed};
ghost use Rattle.hm_core.specs.Answer.{AnswersOver, reply_of_outcome, work_of};
ghost use Rattle.hm_core.specs.Chosen.{BeginsBy};
ghost use Rattle.hm_core.specs.Crash.{LeavesNow};
ghost use Rattle.hm_core.specs.Running.{IfOpened, choice_of_work};
ghost use Rattle.hm_core.specs.Served.{IsAsked};

use crate::calls::answer_over;
use crate::opening::open_reblock;
use crate::outcome::Outcome;
use crate::space::tell_space;
use hm_disk::Disk;
use hm_flush::Flusher;
use hm_model::{Command, Reply};
use hm_stored::Stored;
use hm_types::Id;
use std::alloc::Global;

/// Answers a call by the id after `last`, over the store of a volume in which no call is open. A sync tells
/// what the flusher has committed.
pub(crate) fn answer_asked<D: Disk>(
    alloc: Global,
    stored: &mut Stored<D>,
    flusher: &Flusher,
    command: &Command,
    last: Id,
    numbers: u32,
) -> Outcome
    requires closed { IsClosed (heap stored.old.space) }
    requires asked { IsAsked command.now }
    requires left { last.0 < GREATEST_ID }
    ensures answers { AnswersOver numbers flusher.now.header.last.0 (D.faults stored.old.space.disk)
        (D.faults stored.new.space.disk) last.0 command.now
        (heap stored.old.space) (heap stored.new.space) stored.old.root stored.new.root
        (reply_of_outcome result) (work_of result) }
    ensures crashes { LeavesNow (D.left_since stored.old.space.disk) (D.left_since stored.new.space.disk)
        (D.told stored.new.space.disk) }
    ensures begins { IfOpened result (λ work. BeginsBy command.now (heap stored.old.space) (choice_of_work work)) }
{
    match command {
        Command::Sync | Command::Synctid => Outcome::Replied(Reply::Synced {
            boundary: flusher.boundary(),
        }),
        Command::Df => Outcome::Replied(tell_space(stored)),
        Command::Reblock { fill } => open_reblock(alloc, stored, *fill),
        _ => answer_over(alloc, stored, command, last, numbers),
    }
}
