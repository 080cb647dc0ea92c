// The calls on the bytes of files: `write`, `fill` and `truncate`.
ghost use Rattle.std.specs.Prelude.{◌≡◌, ◌+◌, ◌≤◌, IfOk, IsFalse, OnOk};
ghost use Rattle.hm_types.specs.Space.{nothing};
ghost use Rattle.hm_types.specs.declared.limits.TheConstants.{GREATEST_ID};
ghost use Rattle.hm_key.specs.Members.{HasSameContent, InBalance, IsSame, KeepsTold};
ghost use Rattle.hm_model.specs.Call.{Call};
ghost use Rattle.hm_model.specs.declared.reply.Reply.TheVariants.{Done as done};
ghost use Rattle.hm_calls.specs.Due.{space_for};
ghost use Rattle.hm_calls.specs.Edits.{HasAllReserves, IsEdit, all_reserves, command_for, is_there, zones_for};
ghost use Rattle.hm_calls.specs.Known.{AreKnown};
ghost use Rattle.hm_calls.specs.Possible.{Gives, IsNoSpace};
ghost use Rattle.hm_calls.specs.Replies.{Acts};
ghost use Rattle.hm_calls.specs.Space.{TakesAtMost};
ghost use Rattle.hm_calls.specs.Stop.{Answers, HasStopCause, IfRefused};

use crate::checks::check_master;
use crate::course::{NAMES_HELD, course_before};
use crate::edit::{Edit, check_end};
use crate::files::change_file;
use crate::kinds::{check_no_directory, check_no_softlink};
use crate::places::reach;
use crate::room::admit_bytes;
use crate::stop::Stop;
use crate::words::{check_future, check_present, read_path};
use hm_dirs::{Follow, NameHash};
use hm_key::{ElementStore, Extents, HasElements, HasRoom};
use hm_model::Reply;
use hm_types::{Counted, Fault, Id, Text};
use std::alloc::Global;

pub(crate) fn edit_file<T: ElementStore + Extents, H: NameHash>(
    alloc: Global,
    store: &mut T,
    hash: &H,
    edit: Edit,
    word: &Text,
    id: Id,
) -> Result<Reply, Stop>
    requires id { (1 ≤ id.0) × (id.0 ≤ GREATEST_ID) }
    requires value { IsEdit edit }
    requires balanced { InBalance T.HasElements store.old }
    requires known { AreKnown (T.elements store.old) (T.extents store.old) id.0 }
    ensures answers { Acts T.elements T.mark T.extents T.room T.free (H.hash_of hash.now) id.0
        (λ (call : Call). call.command ≡ command_for edit.entry word.now) store.old store.new result }
    ensures gives { Gives id.0 (command_for edit.entry word.now) result }
    ensures done { IfOk result (λ reply. reply ≡ done) }
    ensures known { OnOk result (AreKnown (T.elements store.new) (T.extents store.new)
        (id.0 + 1)) }
    ensures keeps { KeepsTold T.HasElements store.old store.new result }
    ensures room { TakesAtMost T.room T.free all_reserves store.old store.new result
        × (T.name store.new ≡ T.name store.old)
        × (T.frame store.new ≡ T.frame store.old) }
    ensures cause { HasStopCause (T.elements store.old) (T.extents store.old)
        (T.faults store.old) (T.faults store.new) result }
{
    let course = course_before(id, None);
    let path = read_path(alloc, word)?;
    let parts = path.parts();
    check_future(parts, course.last)?;
    check_present(parts)?;
    let file = reach(alloc, store, hash, parts, Follow::Follows, course)?;
    check_master(alloc, store, file.at.pfs)?;
    check_no_directory(&file)?;
    check_no_softlink(&file)?;
    check_end(edit)?;
    // A walk ends at an object, but where the root itself is missing: of that, want of memory is told.
    let Some(inode) = file.inode else {
        return Err(Stop::Failed(Fault::NoMemory));
    };
    admit_edit(store, edit, inode.size)?;
    change_file(alloc, store, &file, inode.size, edit, id)?;
    Ok(Reply::Done)
}

// Room for a change of the bytes of a file of a size, where one is made.
fn admit_edit<T: ElementStore + Extents>(store: &mut T, edit: Edit, size: u64) -> Result<(), Stop>
    ensures check { Answers (space_for (zones_for edit.entry size) 4 (T.room store.old)
        (T.free store.old)) result }
    ensures gives { IfRefused result IsNoSpace }
    ensures reserves { OnOk result (IsFalse (is_there edit.entry size) →
        HasAllReserves (T.room store.new)) }
    ensures content { OnOk result (HasSameContent T.HasElements store.old store.new) }
    ensures refused { IfRefused result (λ _.
        IsSame T.HasElements store.old store.new) }
    ensures room { TakesAtMost T.room T.free nothing store.old store.new result
        × (T.name store.new ≡ T.name store.old)
        × (T.frame store.new ≡ T.frame store.old) }
    ensures cause { HasStopCause (T.elements store.old) (T.extents store.old)
        (T.faults store.old) (T.faults store.new) result }
{
    if edit.is_there(size) {
        return Ok(());
    }
    admit_bytes(store, NAMES_HELD)
}
