// A call that finds a place for the call of housekeeping that it may open.
ghost use Rattle.std.specs.Prelude.{◌≡◌, ◌<◌, length, vec_capacity};
ghost use Rattle.hm_types.specs.declared.limits.TheConstants.{GREATEST_ID};
ghost use Rattle.hm_stored.specs.Space.{heap};
ghost use Rattle.hm_stored.specs.Turn.{IsClosed};
ghost use Rattle.hm_core.specs.Answer.{AnswersOver, reply_of_outcome, work_of};
ghost use Rattle.hm_core.specs.Chosen.{BeginsBy};
ghost use Rattle.hm_core.specs.Crash.{LeavesNow};
ghost use Rattle.hm_core.specs.Running.{IfOpened, choice_of_work};
ghost use Rattle.hm_core.specs.Served.{IsAsked};

use crate::asked::answer_asked;
use crate::outcome::Outcome;
use crate::running::Running;
use crate::served::opens_job;
use hm_disk::Disk;
use hm_flush::Flusher;
use hm_model::{Command, Reply};
use hm_stored::Stored;
use hm_types::Id;
use std::alloc::Global;

/// Answers a call by the id after `last`, over the store of a volume in which no call is open, with a place for
/// what it opens. Where memory for that place is refused, the call is refused for it.
pub(crate) fn answer_placed<D: Disk>(
    alloc: Global,
    stored: &mut Stored<D>,
    flusher: &Flusher,
    running: &mut Vec<Running>,
    command: &Command,
    last: Id,
    numbers: u32,
) -> Outcome
    requires closed { IsClosed (heap stored.old.space) }
    requires asked { IsAsked command.now }
    requires left { last.0 < GREATEST_ID }
    ensures answers { AnswersOver numbers flusher.now.header.last.0 (D.faults stored.old.space.disk)
        (D.faults stored.new.space.disk) last.0 command.now
        (heap stored.old.space) (heap stored.new.space) stored.old.root stored.new.root
        (reply_of_outcome result) (work_of result) }
    ensures crashes { LeavesNow (D.left_since stored.old.space.disk) (D.left_since stored.new.space.disk)
        (D.told stored.new.space.disk) }
    ensures same { running.new.items ≡ running.old.items }
    ensures begins { IfOpened result (λ work. BeginsBy command.now (heap stored.old.space) (choice_of_work work)) }
    ensures place { IfOpened result (λ _. length running.new.items < vec_capacity running.new) }
{
    if !opens_job(command) {
        return answer_asked(alloc, stored, flusher, command, last, numbers);
    }
    match running.reserve(1) {
        Ok(()) => answer_asked(alloc, stored, flusher, command, last, numbers),
        Err(_) => Outcome::Replied(Reply::NoMemory),
    }
}
