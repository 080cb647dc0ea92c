// What a call on names, or on the bytes of files, answers.
ghost use Rattle.std.specs.Prelude.{◌≡◌, ◌≤◌, IfOk, IsTrue, ◌+◌, ◌-◌, OnOk, option_map};
ghost use Rattle.hm_types.specs.declared.limits.TheConstants.{GREATEST_ID};
ghost use Rattle.hm_key.specs.Charges.{Charges};
ghost use Rattle.hm_key.specs.Members.{InBalance, KeepsFrame, KeepsTold};
ghost use Rattle.hm_model.specs.Call.{Call};
ghost use Rattle.hm_model.specs.Due.{is_tree_call};
ghost use Rattle.hm_model.specs.Forms.{IsInRange};
ghost use Rattle.hm_model.specs.declared.reply.Reply.TheVariants.{Done as done};
ghost use Rattle.hm_cursor.specs.Told.{ReadsWithCause};
ghost use Rattle.hm_calls.specs.Commands.{IsOnTrees, LowersRoomFor, reserves_for};
ghost use Rattle.hm_calls.specs.Known.{AreKnown};
ghost use Rattle.hm_calls.specs.Possible.{Gives, MayReply};
ghost use Rattle.hm_calls.specs.Replies.{Asks, IsAnswered, Replies};
ghost use Rattle.hm_calls.specs.Space.{TakesAtMost};
ghost use Rattle.hm_calls.specs.Stop.{HasStopCause};

use crate::edit::Edit;
use crate::edits::edit_file;
use crate::links::link;
use crate::looks::{list_names, tell_bytes, tell_status, tell_target};
use crate::make::make;
use crate::moves::move_to;
use crate::new::New;
use crate::remove::{remove, remove_directory};
use crate::stop::Stop;
use hm_dirs::NameHash;
use hm_key::{ElementStore, Extents, HasElements, HasRoom};
use hm_model::{Command, Reply};
use hm_types::{Counted, Fault, Id};
use std::alloc::Global;

/// Answers a call by its id, the one after the last that was drawn: `mkdir`, `touch`, `symlink`,
/// `snapshot`, `ln`, `mv`, `write`, `fill`, `truncate`, `rm`, `rmdir`, `ls`, `cat`, `stat` or
/// `readlink`. The reply is the one that the call is due, by the volume that the elements show: the
/// refusal of the first of its checks that fails, and `no space` as the last of them, or else what it
/// looked for or `ok`. What is accepted changes the tree of the pseudo file system in which its walk
/// ends, from its id on, and leaves every older view. A refusal and a call that looks leave the store
/// as it was.
///
/// Whatever the store tells, the reply is one that the call may have by its words: the refusal of the
/// first of its early checks that fails, which look at no store, or one that its command can give.
///
/// Each pseudo file system is a slave by its record, or all ids of its elements are below the
/// call's own; so it is again for the id after it. `busy` is the id by which a mirror or upgrade
/// call was opened that is open; none of these calls minds it. The zones 8 and 9 lose at most their
/// reserves, 1,048,576 and 131,072 bytes, and by `write`, `fill` and `truncate` the zones 10 and 11
/// too, of 131,072 each. No other zone loses room. A call with a reply, also a refusal, began
/// a free big-block only in zones that had less room than their reserve, and at most so many
/// fewer are free.
///
/// `Damaged` at a payload that breaks its grammar, of kind 6, and `NoMemory` where an allocation
/// was refused, where `cat` is asked for bytes past 15,728,640 of a file that has so many, or where
/// `write`, `fill` or `truncate` is asked of a root that is not there. The other faults are those of
/// the store. After a fault nothing is known of the content.
pub fn answer<T: ElementStore + Extents, H: NameHash>(
    alloc: Global,
    store: &mut T,
    hash: &H,
    command: &Command,
    id: Id,
    busy: Option<Id>,
) -> Result<Reply, Fault>
    requires command { IsOnTrees command.now × IsInRange command.now }
    requires id { (1 ≤ id.0) × (id.0 ≤ GREATEST_ID) }
    requires balanced { InBalance T.HasElements store.old }
    requires known { AreKnown (T.elements store.old) (T.extents store.old) id.0 }
    ensures replies { IfOk result (Replies T.elements T.mark T.extents T.room T.free
        (H.hash_of hash.now) id.0 (Asks command.now busy) command.now store.old store.new) }
    ensures possible { IfOk result (MayReply (id.0 - 1) (option_map (λ i. i.0) busy) command.now) }
    ensures known { OnOk result (AreKnown (T.elements store.new) (T.extents store.new)
        (id.0 + 1)) }
    ensures keeps { KeepsTold T.HasElements store.old store.new result }
    ensures room { LowersRoomFor command.now T.room store.old store.new }
    ensures charges { OnOk result (Charges T.room T.free (reserves_for command.now)
        store.old store.new) }
    ensures borrowed { KeepsFrame T.Counted store.old store.new }
    ensures cause { ReadsWithCause T.HasElements store.old store.new result }
{
    match serve(alloc, store, hash, command, id) {
        Ok(reply) => Ok(reply),
        Err(Stop::Refused(reply)) => Ok(reply),
        Err(Stop::Failed(fault)) => Err(fault),
    }
}

// Each command by its own call.
fn serve<T: ElementStore + Extents, H: NameHash>(
    alloc: Global,
    store: &mut T,
    hash: &H,
    command: &Command,
    id: Id,
) -> Result<Reply, Stop>
    requires command { IsOnTrees command.now × IsInRange command.now }
    requires id { (1 ≤ id.0) × (id.0 ≤ GREATEST_ID) }
    requires balanced { InBalance T.HasElements store.old }
    requires known { AreKnown (T.elements store.old) (T.extents store.old) id.0 }
    ensures answers { IsAnswered T.elements T.mark T.extents T.room T.free (H.hash_of hash.now) id.0
        command.now store.old store.new result }
    ensures gives { Gives id.0 command.now result }
    ensures done { IsTrue (is_tree_call command.now) → IfOk result (λ reply. reply ≡ done) }
    ensures known { OnOk result (AreKnown (T.elements store.new) (T.extents store.new)
        (id.0 + 1)) }
    ensures keeps { KeepsTold T.HasElements store.old store.new result }
    ensures room { TakesAtMost T.room T.free (reserves_for command.now) store.old store.new result
        × (T.name store.new ≡ T.name store.old)
        × (T.frame store.new ≡ T.frame store.old) }
    ensures cause { HasStopCause (T.elements store.old) (T.extents store.old)
        (T.faults store.old) (T.faults store.new) result }
{
    match command {
        Command::Mkdir { path } => make(alloc, store, hash, New::Directory, path, id),
        Command::Touch { path } => make(alloc, store, hash, New::File, path, id),
        Command::Symlink { target, path } => {
            make(alloc, store, hash, New::Softlink(target), path, id)
        }
        Command::Snapshot { path } => make(alloc, store, hash, New::Snapshot, path, id),
        Command::Ln { old, new } => link(alloc, store, hash, old, new, id),
        Command::Mv { old, new } => move_to(alloc, store, hash, old, new, id),
        Command::Write {
            path,
            offset,
            bytes,
        } => edit_file(alloc, store, hash, Edit::Write(*offset, bytes), path, id),
        Command::Fill {
            path,
            offset,
            count,
            byte,
        } => edit_file(
            alloc,
            store,
            hash,
            Edit::Fill(*offset, *count, *byte),
            path,
            id,
        ),
        Command::Truncate { path, size } => {
            edit_file(alloc, store, hash, Edit::Truncate(*size), path, id)
        }
        Command::Rm { path } => remove(alloc, store, hash, path, id),
        Command::Rmdir { path } => remove_directory(alloc, store, hash, path, id),
        Command::Ls { path } => list_names(alloc, store, hash, path, id),
        Command::Cat {
            path,
            offset,
            count,
        } => tell_bytes(alloc, store, hash, path, *offset, *count, id),
        Command::Stat { path } => tell_status(alloc, store, hash, path, id),
        Command::Readlink { path } => tell_target(alloc, store, hash, path, id),
        _ => unreachable!(),
    }
}
