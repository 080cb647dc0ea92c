// A call of any kind that is answered, by what serves its command.
ghost use Rattle.std.specs.Prelude.{◌≡◌, ◌≤◌, ◌+◌, ◌-◌, IfOk, OnOk, option_map};
ghost use Rattle.hm_types.specs.declared.limits.TheConstants.{GREATEST_ID};
ghost use Rattle.hm_key.specs.Charges.{Charges};
ghost use Rattle.hm_key.specs.Members.{InBalance, KeepsFrame, KeepsTold};
ghost use Rattle.hm_model.specs.Forms.{IsInRange};
ghost use Rattle.hm_cursor.specs.Told.{ReadsWithCause};
ghost use Rattle.hm_calls.specs.Answered.{AnswersCall, IsAnswerable, answered_by, reply_in};
ghost use Rattle.hm_calls.specs.Commands.{LowersRoomFor, reserves_for};
ghost use Rattle.hm_calls.specs.Known.{AreKnown};
ghost use Rattle.hm_calls.specs.Possible.{MayReply};

use crate::calls::answer;
use crate::new_systems::{NewSystem, make_system};
use crate::prunes::open_prune;
use crate::pruning::{Led, Opened, Pruning};
use crate::systems::pfs_status;
use hm_dirs::NameHash;
use hm_key::{ElementStore, Extents, HasElements, HasRoom};
use hm_model::{Command, Reply};
use hm_types::{Counted, Fault, Id};
use std::alloc::Global;

/// What is told to a call beside the store.
#[derive(Clone, Copy, Debug)]
pub struct Beside {
    /// The id by which a mirror or upgrade call was opened that is open.
    pub busy: Option<Id>,
    /// All numbers of pseudo file systems below this one are used.
    pub numbers: u32,
}

/// What became of a call.
#[derive(Debug, Drop)]
pub enum Answered {
    /// It is at its end, with this reply.
    Replied(Reply),
    /// It is the opening of a prune that was accepted, with the reply `ok`, and led to this.
    Opened(Led),
}

/// Answers a call by its id, the one after the last that was drawn: one on names or on the bytes of
/// files, `pfs-status`, `pfs-master`, `pfs-slave`, or the opening of `prune` or `prune-everything`. The
/// reply is the one that the call is due, by a volume that the elements show. Where the call makes a
/// pseudo file system, it is a volume of which all numbers below `beside.numbers` are used, no two
/// pseudo file systems have one number, and each element is of one of them. What is accepted does to the
/// elements what `answer`, `make_system` and `open_prune` say; all else leaves the store as it was.
///
/// Whatever the store tells, the reply is one that the call may have by its words. What is known of
/// ids is known for the next one. The zones lose at most the reserves of the command, and a call with
/// a reply took no more than those.
///
/// `Damaged` at a payload that breaks its grammar, of kind 6, and `NoMemory` where an allocation was
/// refused, or where `answer` has it. The other faults are those of the store. After a fault nothing
/// is known of the content.
pub fn answer_call<T: ElementStore + Extents, H: NameHash>(
    alloc: Global,
    store: &mut T,
    hash: &H,
    command: &Command,
    id: Id,
    beside: Beside,
) -> Result<Answered, Fault>
    requires command { IsAnswerable command.now × IsInRange command.now }
    requires id { (1 ≤ id.0) × (id.0 ≤ GREATEST_ID) }
    requires balanced { InBalance T.HasElements store.old }
    requires known { AreKnown (T.elements store.old) (T.extents store.old) id.0 }
    ensures answers { IfOk result (AnswersCall T.elements T.mark T.extents T.room T.free
        (H.hash_of hash.now) id.0 command.now beside store.old store.new) }
    ensures possible { IfOk result (λ answered. MayReply (id.0 - 1)
        (option_map (λ i. i.0) beside.busy) command.now (reply_in answered)) }
    ensures known { OnOk result (AreKnown (T.elements store.new) (T.extents store.new)
        (id.0 + 1)) }
    ensures keeps { KeepsTold T.HasElements store.old store.new result }
    ensures room { LowersRoomFor command.now T.room store.old store.new }
    ensures charges { OnOk result (Charges T.room T.free (reserves_for command.now)
        store.old store.new) }
    ensures borrowed { KeepsFrame T.Counted store.old store.new }
    ensures cause { ReadsWithCause T.HasElements store.old store.new result }
{
    match command {
        Command::PfsStatus { path } => {
            let reply = pfs_status(alloc, store, hash, path, id)?;
            Ok(Answered::Replied(reply))
        }
        Command::PfsMaster { path, shared } => {
            let new = NewSystem::Master;
            let (reply, _) = make_system(
                alloc,
                store,
                hash,
                new,
                path,
                *shared,
                id,
                beside.numbers,
            )?;
            Ok(Answered::Replied(reply))
        }
        Command::PfsSlave { path, shared } => {
            let new = NewSystem::Slave;
            let (reply, _) = make_system(
                alloc,
                store,
                hash,
                new,
                path,
                *shared,
                id,
                beside.numbers,
            )?;
            Ok(Answered::Replied(reply))
        }
        Command::Prune { path } => {
            let opened = open_prune(alloc, store, hash, Pruning::Snapshots, path, id)?;
            Ok(answer_of(opened))
        }
        Command::PruneAll { path } => {
            let opened = open_prune(alloc, store, hash, Pruning::Present, path, id)?;
            Ok(answer_of(opened))
        }
        _ => {
            let reply = answer(alloc, store, hash, command, id, beside.busy)?;
            Ok(Answered::Replied(reply))
        }
    }
}

fn answer_of(opened: Opened) -> Answered
    ensures { result ≡ answered_by opened }
{
    match opened {
        Opened::Refused(reply) => Answered::Replied(reply),
        Opened::Led(led) => Answered::Opened(led),
    }
}
