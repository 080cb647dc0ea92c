// The calls that speak of the pseudo file system in which their path ends, and `pfs-status`.
ghost use Rattle.std.specs.Prelude.{◌≡◌, ◌≤◌, IfOk, OnOk};
ghost use Rattle.hm_types.specs.declared.limits.TheConstants.{GREATEST_ID};
ghost use Rattle.hm_key.specs.Members.{InBalance, IsSame, KeepsFrame};
ghost use Rattle.hm_model.specs.Call.{Call};
ghost use Rattle.hm_model.specs.declared.command.Command.{Command};
ghost use Rattle.hm_model.specs.declared.command.Command.TheVariants.{PfsStatus as status};
ghost use Rattle.hm_cursor.specs.Told.{ReadsWithCause};
ghost use Rattle.hm_dirs.specs.Walk.{mode_of};
ghost use Rattle.hm_calls.specs.Call.{OnCalls};
ghost use Rattle.hm_calls.specs.Due.{due_over};
ghost use Rattle.hm_calls.specs.Possible.{Gives, IsGiven};
ghost use Rattle.hm_calls.specs.Replies.{IsRefusalOf, Looks};
ghost use Rattle.hm_calls.specs.Stop.{HasStopCause, IfRefused, TellsRefusal};
ghost use Rattle.hm_calls.specs.Systems.{ComesTo, IsOnSystem, PassesEarly};

use crate::course::course_before;
use crate::places::reach;
use crate::stop::Stop;
use crate::words::{check_future, check_present, read_path};
use hm_cursor::find_record;
use hm_dirs::{Follow, NameHash, Stand};
use hm_key::{ElementStore, Extents, HasElements, HasRoom};
use hm_model::Reply;
use hm_types::{Counted, Fault, Id, Text};
use std::alloc::Global;

// Where the path of such a call leads. No part of it has an id: these calls speak of the present.
pub(crate) fn reach_system<T: ElementStore + Extents, H: NameHash>(
    alloc: Global,
    store: &mut T,
    hash: &H,
    word: &Text,
    follow: Follow,
    id: Id,
) -> Result<Stand, Stop>
    requires id { (1 ≤ id.0) × (id.0 ≤ GREATEST_ID) }
    requires balanced { InBalance T.HasElements store.old }
    ensures comes { (command : Command) → IsOnSystem word.now (mode_of follow) command →
        IfOk result (λ stand. OnCalls (H.hash_of hash.now) id.0
        (T.elements store.old) (T.extents store.old) (λ es call. call.command ≡ command →
        ComesTo (mode_of follow) (T.room store.old) (T.free store.old) stand es call)) }
    ensures refused { (command : Command) → IsOnSystem word.now (mode_of follow) command →
        IfRefused result (IsRefusalOf (H.hash_of hash.now) id.0 (λ call. call.command ≡ command)
        (T.elements store.old) (T.extents store.old) (T.room store.old) (T.free store.old)) }
    ensures gives { (command : Command) → IsOnSystem word.now (mode_of follow) command →
        IfRefused result (IsGiven id.0 command) }
    ensures refuses { IfRefused result TellsRefusal }
    ensures early { (command : Command) → IsOnSystem word.now (mode_of follow) command →
        OnOk result (PassesEarly id.0 command) }
    ensures keeps { IsSame T.HasElements store.old store.new }
    ensures borrowed { KeepsFrame T.Counted store.old store.new }
    ensures cause { HasStopCause (T.elements store.old) (T.extents store.old)
        (T.faults store.old) (T.faults store.new) result }
{
    let course = course_before(id, None);
    let path = read_path(alloc, word)?;
    let parts = path.parts();
    check_future(parts, course.last)?;
    check_present(parts)?;
    reach(alloc, store, hash, parts, follow, course)
}

/// Answers `pfs-status` of a path by its id, the one after the last that was drawn: what is known of
/// the pseudo file system in which the path ends, by its record of now. The reply is the one that the
/// call is due, by the volume that the elements show. It changes nothing. Whatever the store tells,
/// the reply is one that the call may have by its words.
///
/// `Damaged` at a payload that breaks its grammar, of kind 6, and `NoMemory` where an allocation was
/// refused. The other faults are those of the store.
pub fn pfs_status<T: ElementStore + Extents, H: NameHash>(
    alloc: Global,
    store: &mut T,
    hash: &H,
    path: &Text,
    id: Id,
) -> Result<Reply, Fault>
    requires id { (1 ≤ id.0) × (id.0 ≤ GREATEST_ID) }
    requires balanced { InBalance T.HasElements store.old }
    ensures due { IfOk result (λ reply. OnCalls (H.hash_of hash.now) id.0
        (T.elements store.old) (T.extents store.old) (λ _ call. call.command ≡ status path.now →
        reply ≡ due_over call (T.room store.old) (T.free store.old))) }
    ensures possible { IfOk result (IsGiven id.0 (status path.now)) }
    ensures keeps { IsSame T.HasElements store.old store.new }
    ensures borrowed { KeepsFrame T.Counted store.old store.new }
    ensures cause { ReadsWithCause T.HasElements store.old store.new result }
{
    match tell_system(alloc, store, hash, path, id) {
        Ok(reply) => Ok(reply),
        Err(Stop::Refused(reply)) => Ok(reply),
        Err(Stop::Failed(fault)) => Err(fault),
    }
}

fn tell_system<T: ElementStore + Extents, H: NameHash>(
    alloc: Global,
    store: &mut T,
    hash: &H,
    word: &Text,
    id: Id,
) -> Result<Reply, Stop>
    requires id { (1 ≤ id.0) × (id.0 ≤ GREATEST_ID) }
    requires balanced { InBalance T.HasElements store.old }
    ensures answers { Looks T.elements T.mark T.extents T.room T.free (H.hash_of hash.now) id.0
        (λ (call : Call). call.command ≡ status word.now) store.old store.new result }
    ensures gives { Gives id.0 (status word.now) result }
    ensures keeps { IsSame T.HasElements store.old store.new }
    ensures borrowed { KeepsFrame T.Counted store.old store.new }
    ensures cause { HasStopCause (T.elements store.old) (T.extents store.old)
        (T.faults store.old) (T.faults store.new) result }
{
    let end = reach_system(alloc, store, hash, word, Follow::TakesPfs, id)?;
    let pfs = end.at.pfs;
    let Some(record) = find_record(alloc, store, pfs)? else {
        return Ok(Reply::NotFound);
    };
    Ok(Reply::PfsIs {
        master: record.master,
        number: pfs,
        shared: record.shared,
        intervals: record.retention.pairs().len() as u32,
        sync_end: record.sync_end,
    })
}
