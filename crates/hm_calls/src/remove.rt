// `rm` and `rmdir`: names that go.
ghost use Rattle.std.specs.Prelude.{◌≡◌, ◌<◌, ◌≤◌, OnOk, IfOk, ◌+◌};
ghost use Rattle.hm_types.specs.Space.{nothing};
ghost use Rattle.hm_types.specs.declared.limits.TheConstants.{GREATEST_ID};
ghost use Rattle.hm_key.specs.Members.{HasSameContent, InBalance, IsSame, KeepsTold};
ghost use Rattle.hm_model.specs.Call.{Call};
ghost use Rattle.hm_model.specs.declared.command.Command.TheVariants.{Rm as rm, Rmdir as rmdir};
ghost use Rattle.hm_calls.specs.Due.{space_for, zones_beside};
ghost use Rattle.hm_model.specs.declared.reply.Reply.TheVariants.{Done as done};
ghost use Rattle.hm_calls.specs.Known.{AreKnown};
ghost use Rattle.hm_calls.specs.Possible.{Gives, IsNoSpace};
ghost use Rattle.hm_calls.specs.Replies.{Acts};
ghost use Rattle.hm_calls.specs.Space.{TakesAtMost};
ghost use Rattle.hm_calls.specs.Stop.{Answers, HasStopCause, IfRefused};
ghost use Rattle.hm_calls.specs.Writes.{HasReserves, reserves};

use crate::checks::{check_empty, check_master};
use crate::course::course_before;
use crate::kinds::{check_directory, check_no_directory};
use crate::places::reach_name;
use crate::room::admit_names;
use crate::stop::Stop;
use crate::take::{take_directory, take_link};
use crate::words::{check_future, check_present, named_end, read_path};
use hm_dirs::NameHash;
use hm_key::{ElementStore, Extents, HasElements, HasRoom};
use hm_model::Reply;
use hm_records::{FILE, Inode};
use hm_types::{Counted, Fault, Id, Text};
use std::alloc::Global;

pub(crate) fn remove<T: ElementStore + Extents, H: NameHash>(
    alloc: Global,
    store: &mut T,
    hash: &H,
    word: &Text,
    id: Id,
) -> Result<Reply, Stop>
    requires id { (1 ≤ id.0) × (id.0 ≤ GREATEST_ID) }
    requires balanced { InBalance T.HasElements store.old }
    requires known { AreKnown (T.elements store.old) (T.extents store.old) id.0 }
    ensures answers { Acts T.elements T.mark T.extents T.room T.free (H.hash_of hash.now) id.0
        (λ (call : Call). call.command ≡ rm word.now) store.old store.new result }
    ensures gives { Gives id.0 (rm word.now) result }
    ensures done { IfOk result (λ reply. reply ≡ done) }
    ensures known { OnOk result (AreKnown (T.elements store.new) (T.extents store.new)
        (id.0 + 1)) }
    ensures keeps { KeepsTold T.HasElements store.old store.new result }
    ensures room { TakesAtMost T.room T.free reserves store.old store.new result
        × (T.name store.new ≡ T.name store.old)
        × (T.frame store.new ≡ T.frame store.old) }
    ensures cause { HasStopCause (T.elements store.old) (T.extents store.old)
        (T.faults store.old) (T.faults store.new) result }
{
    let course = course_before(id, None);
    let path = read_path(alloc, word)?;
    let parts = path.parts();
    let (_, name) = named_end(parts)?;
    check_future(parts, course.last)?;
    check_present(parts)?;
    let (directory, object) = reach_name(alloc, store, hash, parts, course)?;
    check_master(alloc, store, directory.at.pfs)?;
    check_no_directory(&object)?;
    let Some(inode) = object.inode else {
        return Err(Stop::Refused(Reply::NotFound));
    };
    admit_rest(store, &inode)?;
    let (obj, links) = (object.at.object, inode.links);
    take_link(alloc, store, hash, &directory, name, obj, links, id)?;
    Ok(Reply::Done)
}

// Room for the inode of an object that has another link. Files alone are known to have more than one:
// where an inode says it of a softlink, want of space is told as want of memory.
fn admit_rest<T: ElementStore + Extents>(store: &mut T, inode: &Inode) -> Result<(), Stop>
    ensures check { Answers (space_for (zones_beside inode.now) 0 (T.room store.old)
        (T.free store.old)) result }
    ensures gives { IfRefused result IsNoSpace }
    ensures reserves { OnOk result (1 < inode.now.links → HasReserves (T.room store.new)) }
    ensures content { OnOk result (HasSameContent T.HasElements store.old store.new) }
    ensures refused { IfRefused result (λ _.
        IsSame T.HasElements store.old store.new) }
    ensures room { TakesAtMost T.room T.free nothing store.old store.new result
        × (T.name store.new ≡ T.name store.old)
        × (T.frame store.new ≡ T.frame store.old) }
    ensures cause { HasStopCause (T.elements store.old) (T.extents store.old)
        (T.faults store.old) (T.faults store.new) result }
{
    if inode.links <= 1 {
        return Ok(());
    }
    match admit_names(store, 0) {
        Ok(()) => Ok(()),
        Err(Stop::Refused(reply)) => {
            if inode.kind == FILE {
                return Err(Stop::Refused(reply));
            }
            Err(Stop::Failed(Fault::NoMemory))
        }
        Err(Stop::Failed(fault)) => Err(Stop::Failed(fault)),
    }
}

pub(crate) fn remove_directory<T: ElementStore + Extents, H: NameHash>(
    alloc: Global,
    store: &mut T,
    hash: &H,
    word: &Text,
    id: Id,
) -> Result<Reply, Stop>
    requires id { (1 ≤ id.0) × (id.0 ≤ GREATEST_ID) }
    requires balanced { InBalance T.HasElements store.old }
    requires known { AreKnown (T.elements store.old) (T.extents store.old) id.0 }
    ensures answers { Acts T.elements T.mark T.extents T.room T.free (H.hash_of hash.now) id.0
        (λ (call : Call). call.command ≡ rmdir word.now) store.old store.new result }
    ensures gives { Gives id.0 (rmdir word.now) result }
    ensures done { IfOk result (λ reply. reply ≡ done) }
    ensures known { OnOk result (AreKnown (T.elements store.new) (T.extents store.new)
        (id.0 + 1)) }
    ensures keeps { KeepsTold T.HasElements store.old store.new result }
    ensures room { TakesAtMost T.room T.free reserves store.old store.new result
        × (T.name store.new ≡ T.name store.old)
        × (T.frame store.new ≡ T.frame store.old) }
    ensures cause { HasStopCause (T.elements store.old) (T.extents store.old)
        (T.faults store.old) (T.faults store.new) result }
{
    let course = course_before(id, None);
    let path = read_path(alloc, word)?;
    let parts = path.parts();
    let (_, name) = named_end(parts)?;
    check_future(parts, course.last)?;
    check_present(parts)?;
    let (directory, object) = reach_name(alloc, store, hash, parts, course)?;
    check_master(alloc, store, directory.at.pfs)?;
    check_directory(&object)?;
    check_empty(alloc, store, &object)?;
    take_directory(store, hash, &directory, name, object.at.object, id)?;
    Ok(Reply::Done)
}
