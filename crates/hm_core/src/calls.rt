// One call over a store.
ghost use Rattle.std.specs.Prelude.{◌≡◌, ℕ, ◌<◌};
ghost use Rattle.hm_types.specs.declared.limits.TheConstants.{GREATEST_ID};
ghost use Rattle.hm_model.specs.Forms.{IsInRange};
ghost use Rattle.hm_calls.specs.Answered.{IsAnswerable};
ghost use Rattle.hm_stored.specs.Space.{heap};
ghost use Rattle.hm_stored.specs.Turn.{IsClosed};
ghost use Rattle.hm_core.specs.Answer.{AnswersOver, reply_of_outcome, work_of};
ghost use Rattle.hm_core.specs.Chosen.{BeginsBy};
ghost use Rattle.hm_core.specs.Crash.{LeavesNow};
ghost use Rattle.hm_core.specs.Running.{IfOpened, choice_of_work};
ghost use Rattle.hm_core.specs.Told.{reply_to};

use crate::outcome::{Outcome, outcome_of};
use hm_calls::Beside;
use hm_disk::Disk;
use hm_model::{Command, Reply};
use hm_step::answer_next;
use hm_stored::{Stored, what_a_crash_leaves_over_calls};
use hm_types::{Fault, Id};
use std::alloc::Global;

/// Answers a call on names, on the bytes of files or on pseudo file systems, or the opening of a prune, by
/// the id after `last`, over the store of a volume in which no call is open, and keeps what it changed, or
/// drops it all where the device failed, memory was refused, or the root of the tree would stand outside the
/// pool: that is answered as want of memory. All numbers of pseudo file systems below `numbers` are used.
/// Each history that was legal over an opening volume goes on legally with the entry of the call, where no
/// fewer big-blocks are free than its least, and a prune that the call opened is open then. What a crash
/// within it may have left, one afterwards may.
pub fn answer_over<D: Disk>(
    alloc: Global,
    stored: &mut Stored<D>,
    command: &Command,
    last: Id,
    numbers: u32,
) -> Outcome
    requires closed { IsClosed (heap stored.old.space) }
    requires served { IsAnswerable command.now × IsInRange command.now }
    requires left { last.0 < GREATEST_ID }
    ensures answers { (boundary : ℕ) → AnswersOver numbers boundary (D.faults stored.old.space.disk)
        (D.faults stored.new.space.disk) last.0 command.now
        (heap stored.old.space) (heap stored.new.space) stored.old.root stored.new.root
        (reply_of_outcome result) (work_of result) }
    ensures crashes { LeavesNow (D.left_since stored.old.space.disk) (D.left_since stored.new.space.disk)
        (D.told stored.new.space.disk) }
    ensures begins { IfOpened result (λ work. BeginsBy command.now (heap stored.old.space) (choice_of_work work)) }
{
    what_a_crash_leaves_over_calls::<D>();
    stored.begin(last);
    let beside = Beside {
        busy: None,
        numbers,
    };
    match answer_next(alloc, stored, command, last, beside) {
        Ok(answered) if stored.can_keep() => {
            stored.keep();
            stored.pages_are_bytes();
            outcome_of(answered)
        }
        Ok(_) => {
            stored.undo();
            Outcome::Replied(Reply::NoMemory)
        }
        Err(fault) => {
            stored.undo();
            Outcome::Replied(failure(fault))
        }
    }
}

/// The reply that tells of a fault.
pub(crate) fn failure(fault: Fault) -> Reply
    ensures { result ≡ reply_to fault }
{
    match fault {
        Fault::Media { before, after } => Reply::Media { before, after },
        Fault::Damaged { at, kind } => Reply::Damaged { at, kind },
        Fault::NoMemory => Reply::NoMemory,
    }
}
