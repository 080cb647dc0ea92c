// The bytes of files that become others, and their sizes with them.
ghost use Rattle.std.specs.Prelude.{◌≡◌, ◌≤◌, IsFalse, OnOk};
ghost use Rattle.hm_types.specs.declared.limits.TheConstants.{MOST_FILE_BYTES as most_bytes};
ghost use Rattle.hm_key.specs.Members.{HasContentCause, InBalance, KeepsFrame, KeepsTold, SpendsAtMost};
ghost use Rattle.hm_cursor.specs.Told.{ReadsWithCause};
ghost use Rattle.hm_cursor.specs.Write.{WritesStore};
ghost use Rattle.hm_files.specs.Close.{AreOlderIn};
ghost use Rattle.hm_files.specs.Put.{HasBlockRoom, block_space};
ghost use Rattle.hm_calls.specs.Edits.{ChangesBytes, ChangesFile, HasAllReserves, IsEdit, all_reserves, edited};
ghost use Rattle.hm_calls.specs.Edits.{end_of, is_there, size_after};
ghost use Rattle.hm_calls.specs.Known.{AreBelowIn};

use crate::edit::Edit;
use hm_dirs::Stand;
use hm_files::{fill_bytes, resize_bytes, write_bytes};
use hm_key::{ElementStore, Extents, HasElements, HasRoom};
use hm_objects::set_size;
use hm_types::{Counted, Fault, Id, Obj, Pfs};
use std::alloc::Global;

// Lets a file of a size have other bytes, and another size where that needs one. Nothing is done where
// it has them already.
pub(crate) fn change_file<T: ElementStore + Extents>(
    alloc: Global,
    store: &mut T,
    file: &Stand,
    size: u64,
    edit: Edit,
    id: Id,
) -> Result<(), Fault>
    requires id { 1 ≤ id.0 }
    requires values { IsEdit edit × (end_of edit ≤ most_bytes) }
    requires balanced { InBalance T.HasElements store.old }
    requires below { AreBelowIn (T.elements store.old) (T.extents store.old)
        file.now.at.pfs.0 id.0 }
    requires room { IsFalse (is_there edit size) → HasAllReserves (T.room store.old) }
    ensures ok { OnOk result (WritesStore T.HasElements
        (ChangesFile file.now.at.pfs.0 file.now.at.object.0 id.0 size (edited edit.entry))
        store.old store.new) }
    ensures keeps { KeepsTold T.HasElements store.old store.new result }
    ensures space { SpendsAtMost T.HasElements all_reserves store.old store.new }
    ensures borrowed { KeepsFrame T.Counted store.old store.new }
    ensures cause { ReadsWithCause T.HasElements store.old store.new result }
{
    if edit.is_there(size) {
        return Ok(());
    }
    let (pfs, obj) = (file.at.pfs, file.at.object);
    let after = edit.size_after(size);
    if after == size {
        return put_edit(store, pfs, obj, size, edit, id);
    }
    set_size(alloc, store, pfs, obj, after, id)?;
    put_edit(store, pfs, obj, size, edit, id)
}

// Puts the bytes, whatever the inode says of their number. It takes at most the room of six blocks.
fn put_edit<T: ElementStore + Extents>(
    store: &mut T,
    pfs: Pfs,
    obj: Obj,
    size: u64,
    edit: Edit,
    id: Id,
) -> Result<(), Fault>
    requires id { 1 ≤ id.0 }
    requires values { IsEdit edit × (end_of edit ≤ most_bytes) }
    requires balanced { InBalance T.HasElements store.old }
    requires older { AreOlderIn (T.elements store.old) (T.extents store.old)
        pfs.0 obj.0 id.0 0 }
    requires room { HasBlockRoom (T.room store.old) 6 }
    ensures ok { OnOk result (WritesStore T.HasElements
        (ChangesBytes pfs.0 obj.0 id.0 size (size_after edit.entry size) (edited edit.entry))
        store.old store.new) }
    ensures keeps { KeepsTold T.HasElements store.old store.new result }
    ensures space { SpendsAtMost T.HasElements (block_space 6) store.old store.new }
    ensures borrowed { KeepsFrame T.Counted store.old store.new }
    ensures cause { HasContentCause T.HasElements store.old store.new result }
{
    match edit {
        Edit::Write(offset, bytes) => {
            write_bytes(store, pfs, obj, size, offset, bytes.bytes(), id)
        }
        Edit::Fill(offset, count, byte) => {
            fill_bytes(store, pfs, obj, size, offset, count, byte, id)
        }
        Edit::Truncate(to) => resize_bytes(store, pfs, obj, size, to, id),
    }
}
