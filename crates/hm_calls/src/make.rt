// The calls that make an object: `mkdir`, `touch`, `symlink` and `snapshot`.
ghost use Rattle.std.specs.Prelude.{◌≡◌, ◌+◌, ◌≤◌, IfOk, OnOk};
ghost use Rattle.hm_types.specs.declared.limits.TheConstants.{GREATEST_ID};
ghost use Rattle.hm_key.specs.Members.{InBalance, KeepsTold};
ghost use Rattle.hm_model.specs.Call.{Call};
ghost use Rattle.hm_model.specs.declared.reply.Reply.TheVariants.{Done as done};
ghost use Rattle.hm_calls.specs.Known.{AreKnown};
ghost use Rattle.hm_calls.specs.New.{IsNewObject, command_by};
ghost use Rattle.hm_calls.specs.Possible.{Gives};
ghost use Rattle.hm_calls.specs.Replies.{Acts};
ghost use Rattle.hm_calls.specs.Space.{TakesAtMost};
ghost use Rattle.hm_calls.specs.Stop.{HasStopCause};
ghost use Rattle.hm_calls.specs.Writes.{reserves};

use crate::checks::{check_master, check_new, spot_in};
use crate::course::{NAMES_HELD, course_before, read_last};
use crate::new::New;
use crate::places::reach_directory;
use crate::put::put_object;
use crate::room::admit_names;
use crate::stop::Stop;
use crate::words::{check_future, check_present, named_end, read_path};
use hm_cursor::find_inode;
use hm_dirs::NameHash;
use hm_key::{ElementStore, Extents, HasElements, HasRoom};
use hm_model::Reply;
use hm_types::{Counted, Id, Obj, Text};
use std::alloc::Global;

pub(crate) fn make<T: ElementStore + Extents, H: NameHash>(
    alloc: Global,
    store: &mut T,
    hash: &H,
    new: New,
    word: &Text,
    id: Id,
) -> Result<Reply, Stop>
    requires id { (1 ≤ id.0) × (id.0 ≤ GREATEST_ID) }
    requires value { IsNewObject new }
    requires balanced { InBalance T.HasElements store.old }
    requires known { AreKnown (T.elements store.old) (T.extents store.old) id.0 }
    ensures answers { Acts T.elements T.mark T.extents T.room T.free (H.hash_of hash.now) id.0
        (λ (call : Call). call.command ≡ command_by new.entry word.now) store.old store.new result }
    ensures gives { Gives id.0 (command_by new.entry word.now) result }
    ensures done { IfOk result (λ reply. reply ≡ done) }
    ensures known { OnOk result (AreKnown (T.elements store.new) (T.extents store.new)
        (id.0 + 1)) }
    ensures keeps { KeepsTold T.HasElements store.old store.new result }
    ensures room { TakesAtMost T.room T.free reserves store.old store.new result
        × (T.name store.new ≡ T.name store.old)
        × (T.frame store.new ≡ T.frame store.old) }
    ensures cause { HasStopCause (T.elements store.old) (T.extents store.old)
        (T.faults store.old) (T.faults store.new) result }
{
    let course = course_before(id, None);
    let path = read_path(alloc, word)?;
    let (front, name) = named_end(path.parts())?;
    check_future(path.parts(), course.last)?;
    check_present(path.parts())?;
    let directory = reach_directory(alloc, store, hash, front, course)?;
    check_master(alloc, store, directory.at.pfs)?;
    let directory = read_last(directory, course);
    check_new(store, hash, &directory, name.bytes())?;
    let spot = spot_in(alloc, store, hash, &directory, name)?;
    // What stands under the new number is an inode, or nothing: all else is damage.
    find_inode(store, directory.at.pfs, Obj(id.0), directory.as_of)?;
    admit_names(store, NAMES_HELD)?;
    put_object(alloc, store, &directory, spot, name, new, id)?;
    Ok(Reply::Done)
}
