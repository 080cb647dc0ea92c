// The calls that look: `ls`, `cat`, `stat` and `readlink`.
ghost use Rattle.std.specs.Prelude.{◌≡◌, ◌≤◌};
ghost use Rattle.hm_types.specs.declared.limits.TheConstants.{GREATEST_ID};
ghost use Rattle.hm_key.specs.Members.{InBalance, IsSame, KeepsFrame};
ghost use Rattle.hm_model.specs.Call.{Call};
ghost use Rattle.hm_model.specs.declared.command.Command.TheVariants.{Cat as cat, Ls as ls, Readlink as readlink};
ghost use Rattle.hm_model.specs.declared.command.Command.TheVariants.{Stat as stat};
ghost use Rattle.hm_calls.specs.Possible.{Gives};
ghost use Rattle.hm_calls.specs.Replies.{Looks};
ghost use Rattle.hm_calls.specs.Stop.{HasStopCause};

use crate::bytes::bytes_at;
use crate::course::course_before;
use crate::kinds::{check_directory, check_link, check_no_directory, check_no_softlink};
use crate::places::reach;
use crate::stop::Stop;
use crate::words::{check_future, read_path};
use hm_dirs::{Follow, NameHash};
use hm_key::{ElementStore, Extents, HasElements, HasRoom};
use hm_model::Reply;
use hm_types::{Counted, Id, Text};
use hm_view::{list, size, target};
use std::alloc::Global;

pub(crate) fn list_names<T: ElementStore + Extents, H: NameHash>(
    alloc: Global,
    store: &mut T,
    hash: &H,
    word: &Text,
    id: Id,
) -> Result<Reply, Stop>
    requires id { (1 ≤ id.0) × (id.0 ≤ GREATEST_ID) }
    requires balanced { InBalance T.HasElements store.old }
    ensures answers { Looks T.elements T.mark T.extents T.room T.free (H.hash_of hash.now) id.0
        (λ (call : Call). call.command ≡ ls word.now) store.old store.new result }
    ensures gives { Gives id.0 (ls word.now) result }
    ensures keeps { IsSame T.HasElements store.old store.new }
    ensures borrowed { KeepsFrame T.Counted store.old store.new }
    ensures cause { HasStopCause (T.elements store.old) (T.extents store.old)
        (T.faults store.old) (T.faults store.new) result }
{
    let course = course_before(id, None);
    let path = read_path(alloc, word)?;
    check_future(path.parts(), course.last)?;
    let directory = reach(alloc, store, hash, path.parts(), Follow::Follows, course)?;
    check_directory(&directory)?;
    let at = directory.at;
    let names = list(alloc, store, at.pfs, at.object, directory.as_of)?;
    Ok(Reply::Listing { names })
}

pub(crate) fn tell_bytes<T: ElementStore + Extents, H: NameHash>(
    alloc: Global,
    store: &mut T,
    hash: &H,
    word: &Text,
    offset: u64,
    count: u32,
    id: Id,
) -> Result<Reply, Stop>
    requires id { (1 ≤ id.0) × (id.0 ≤ GREATEST_ID) }
    requires balanced { InBalance T.HasElements store.old }
    ensures answers { Looks T.elements T.mark T.extents T.room T.free (H.hash_of hash.now) id.0
        (λ (call : Call). call.command ≡ cat word.now offset count) store.old store.new result }
    ensures gives { Gives id.0 (cat word.now offset count) result }
    ensures keeps { IsSame T.HasElements store.old store.new }
    ensures borrowed { KeepsFrame T.Counted store.old store.new }
    ensures cause { HasStopCause (T.elements store.old) (T.extents store.old)
        (T.faults store.old) (T.faults store.new) result }
{
    let course = course_before(id, None);
    let path = read_path(alloc, word)?;
    check_future(path.parts(), course.last)?;
    let file = reach(alloc, store, hash, path.parts(), Follow::Follows, course)?;
    check_no_directory(&file)?;
    check_no_softlink(&file)?;
    let Some(inode) = file.inode else {
        return Ok(Reply::NotFound);
    };
    let bytes = bytes_at(alloc, store, &file, inode.size, offset, count)?;
    Ok(Reply::Content { bytes })
}

pub(crate) fn tell_status<T: ElementStore + Extents, H: NameHash>(
    alloc: Global,
    store: &mut T,
    hash: &H,
    word: &Text,
    id: Id,
) -> Result<Reply, Stop>
    requires id { (1 ≤ id.0) × (id.0 ≤ GREATEST_ID) }
    requires balanced { InBalance T.HasElements store.old }
    ensures answers { Looks T.elements T.mark T.extents T.room T.free (H.hash_of hash.now) id.0
        (λ (call : Call). call.command ≡ stat word.now) store.old store.new result }
    ensures gives { Gives id.0 (stat word.now) result }
    ensures keeps { IsSame T.HasElements store.old store.new }
    ensures borrowed { KeepsFrame T.Counted store.old store.new }
    ensures cause { HasStopCause (T.elements store.old) (T.extents store.old)
        (T.faults store.old) (T.faults store.new) result }
{
    let course = course_before(id, None);
    let path = read_path(alloc, word)?;
    check_future(path.parts(), course.last)?;
    let object = reach(alloc, store, hash, path.parts(), Follow::Stays, course)?;
    let Some(inode) = object.inode else {
        return Ok(Reply::NotFound);
    };
    let at = object.at;
    let size = size(alloc, store, at.pfs, at.object, &inode, object.as_of)?;
    Ok(Reply::Status {
        kind: inode.kind,
        obj: at.object,
        size,
        links: inode.links,
    })
}

pub(crate) fn tell_target<T: ElementStore + Extents, H: NameHash>(
    alloc: Global,
    store: &mut T,
    hash: &H,
    word: &Text,
    id: Id,
) -> Result<Reply, Stop>
    requires id { (1 ≤ id.0) × (id.0 ≤ GREATEST_ID) }
    requires balanced { InBalance T.HasElements store.old }
    ensures answers { Looks T.elements T.mark T.extents T.room T.free (H.hash_of hash.now) id.0
        (λ (call : Call). call.command ≡ readlink word.now) store.old store.new result }
    ensures gives { Gives id.0 (readlink word.now) result }
    ensures keeps { IsSame T.HasElements store.old store.new }
    ensures borrowed { KeepsFrame T.Counted store.old store.new }
    ensures cause { HasStopCause (T.elements store.old) (T.extents store.old)
        (T.faults store.old) (T.faults store.new) result }
{
    let course = course_before(id, None);
    let path = read_path(alloc, word)?;
    check_future(path.parts(), course.last)?;
    let object = reach(alloc, store, hash, path.parts(), Follow::Stays, course)?;
    check_link(&object)?;
    let Some(inode) = object.inode else {
        return Ok(Reply::NotLink);
    };
    let at = object.at;
    let text = target(alloc, store, at.pfs, at.object, &inode, object.as_of)?;
    Ok(Reply::Target { text })
}
