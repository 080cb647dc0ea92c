// A call, as the next one of a history.
ghost use Rattle.std.specs.Prelude.{◌≡◌, ◌+◌, ◌<◌, IfOk, OnOk, option_map};
ghost use Rattle.hm_types.specs.declared.limits.TheConstants.{GREATEST_ID};
ghost use Rattle.hm_key.specs.Charges.{Charges};
ghost use Rattle.hm_key.specs.Members.{InBalance, KeepsFrame, KeepsTold};
ghost use Rattle.hm_cursor.specs.Told.{ReadsWithCause};
ghost use Rattle.hm_model.specs.Forms.{IsInRange};
ghost use Rattle.hm_calls.specs.Answered.{IsAnswerable, IsFormOf, reply_in};
ghost use Rattle.hm_calls.specs.Commands.{LowersRoomFor, reserves_for};
ghost use Rattle.hm_calls.specs.Known.{AreKnown};
ghost use Rattle.hm_calls.specs.Possible.{MayReply};
ghost use Rattle.hm_step.specs.Next.{IsDueOver, IsStep};

use hm_calls::{Answered, Beside, answer_call};
use hm_dirs::Fnv;
use hm_key::{ElementStore, Extents, HasElements, HasRoom};
use hm_model::Command;
use hm_types::{Counted, Fault, Id};
use std::alloc::Global;

/// Answers a call by the id after `last`, the last one that was drawn: one on names or on the bytes
/// of files, `pfs-status`, `pfs-master`, `pfs-slave`, or the opening of `prune` or `prune-everything`.
/// The answer is a step of each history for whose volume the elements of the store stand, so that
/// those that it leaves stand for the volume after it. An opening that was accepted is open in that
/// history, and led to what its volume keeps of the pseudo file system: a job that keeps the same
/// keeps enough. The histories are those in which `beside.busy` is the mirror or upgrade call that is
/// open, and all numbers of pseudo file systems below `beside.numbers` are used. The reply is the one
/// that the call is due over the space of the store: where space lacks, `NoSpace` with what is free and
/// what is needed. Whatever the store tells, the reply is one that the call may have by its words. What
/// else it promises, and which faults it has, are those of `answer_call` of hm_calls. After a fault
/// nothing is known of the content.
pub fn answer_next<T: ElementStore + Extents>(
    alloc: Global,
    store: &mut T,
    command: &Command,
    last: Id,
    beside: Beside,
) -> Result<Answered, Fault>
    requires command { IsAnswerable command.now × IsInRange command.now }
    requires left { last.0 < GREATEST_ID }
    requires balanced { InBalance T.HasElements store.old }
    requires known { AreKnown (T.elements store.old) (T.extents store.old) (last.0 + 1) }
    ensures step { IfOk result (IsStep T.elements T.extents T.free
        (record { command = command.now; last = last.0; beside = beside }) store.old store.new) }
    ensures due { IfOk result (IsDueOver T.elements T.extents T.room T.free
        (record { command = command.now; last = last.0; beside = beside }) store.old) }
    ensures possible { IfOk result (λ answered. MayReply last.0
        (option_map (λ i. i.0) beside.busy) command.now (reply_in answered)) }
    ensures form { IfOk result (IsFormOf command.now) }
    ensures known { OnOk result (AreKnown (T.elements store.new) (T.extents store.new)
        (last.0 + 2)) }
    ensures keeps { KeepsTold T.HasElements store.old store.new result }
    ensures room { LowersRoomFor command.now T.room store.old store.new }
    ensures charges { OnOk result (Charges T.room T.free (reserves_for command.now)
        store.old store.new) }
    ensures borrowed { KeepsFrame T.Counted store.old store.new }
    ensures cause { ReadsWithCause T.HasElements store.old store.new result }
{
    answer_call(alloc, store, &Fnv, command, Id(last.0 + 1), beside)
}
