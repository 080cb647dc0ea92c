// The size of a file.
ghost use Rattle.std.specs.Prelude.{◌≡◌, ◌≤◌, OnOk};
ghost use Rattle.hm_key.specs.Members.{InBalance, KeepsFrame, KeepsTold, SpendsAtMost};
ghost use Rattle.hm_cursor.specs.Told.{ReadsWithCause};
ghost use Rattle.hm_cursor.specs.Write.{WritesStore};
ghost use Rattle.hm_objects.specs.Objects.{HasRooms, IsOlderIn, ResizesObject, spent};

use crate::add::made_by;
use crate::links::find_made_inode;
use hm_cursor::{inode_base, renew_version};
use hm_key::{Base, ElementStore, Extents, HasElements, HasRoom};
use hm_records::{FILE, Inode, encode_inode};
use hm_types::{Counted, Fault, Id, META_ZONE, Obj, Pfs};
use std::alloc::Global;

/// Gives a file another size from an id of 1 or more on, where it is there: a new version of its
/// inode takes the place of the one that counts, which is closed. Its bytes are the caller's. Of an
/// object that is no file nothing is changed. Room and faults are those of `set_links`.
pub fn set_size<T: ElementStore + Extents>(
    alloc: Global,
    store: &mut T,
    pfs: Pfs,
    obj: Obj,
    size: u64,
    id: Id,
) -> Result<(), Fault>
    requires id { 1 ≤ id.0 }
    requires balanced { InBalance T.HasElements store.old }
    requires older { IsOlderIn (T.elements store.old) (T.extents store.old) pfs.0 obj.0 id.0 }
    requires room { HasRooms (T.room store.old) 1 32 }
    ensures ok { OnOk result (WritesStore T.HasElements
        (ResizesObject pfs.0 obj.0 id.0 size) store.old store.new) }
    ensures keeps { KeepsTold T.HasElements store.old store.new result }
    ensures space { SpendsAtMost T.HasElements (spent 1 32) store.old store.new }
    ensures borrowed { KeepsFrame T.Counted store.old store.new }
    ensures cause { ReadsWithCause T.HasElements store.old store.new result }
{
    let Some((made, inode)) = find_made_inode(store, pfs, obj, id)? else {
        return Ok(());
    };
    if inode.kind != FILE {
        return Ok(());
    }
    let bytes = encode_inode(alloc, &Inode { size, ..inode })?;
    let base = made_by(inode_base(pfs, obj), FILE, id);
    let old = Base {
        create: made.0,
        ..base
    };
    renew_version(store, &old, &base, META_ZONE, &bytes)
}
