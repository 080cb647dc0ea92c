// Names that go, and with them a link of their object.
ghost use Rattle.std.specs.Prelude.{◌≡◌, ◌<◌, ◌≤◌, OnOk};
ghost use Rattle.hm_types.specs.Space.{nothing};
ghost use Rattle.hm_key.specs.Members.{InBalance, KeepsFrame, KeepsTold, SpendsAtMost};
ghost use Rattle.hm_cursor.specs.Told.{ReadsWithCause};
ghost use Rattle.hm_cursor.specs.Write.{WritesStore};
ghost use Rattle.hm_objects.specs.Objects.{HasRooms, IsOlderIn, spent};
ghost use Rattle.hm_files.specs.Close.{AreOlderIn};
ghost use Rattle.hm_calls.specs.Known.{AreBelowIn};
ghost use Rattle.hm_calls.specs.Writes.{DropsLink, DropsObject, HasReserves, TakesDirectory, TakesLink, place_in};
ghost use Rattle.hm_calls.specs.Writes.{reserves};

use hm_dirs::{NameHash, Stand, close_name};
use hm_files::remove_bytes;
use hm_key::{ElementStore, Extents, HasElements, HasRoom};
use hm_objects::{remove_object, set_links};
use hm_types::{Counted, Fault, Id, Name, Obj, Pfs};
use std::alloc::Global;

// Takes a name away from a directory, and a link from the object that it leads to, which has so many.
// With its last one the object goes. Room is needed where another link is left.
pub(crate) fn take_link<T: ElementStore + Extents, H: NameHash>(
    alloc: Global,
    store: &mut T,
    hash: &H,
    directory: &Stand,
    name: &Name,
    obj: Obj,
    links: u32,
    id: Id,
) -> Result<(), Fault>
    requires id { 1 ≤ id.0 }
    requires balanced { InBalance T.HasElements store.old }
    requires below { AreBelowIn (T.elements store.old) (T.extents store.old)
        directory.now.at.pfs.0 id.0 }
    requires room { 1 < links → HasReserves (T.room store.old) }
    ensures ok { OnOk result (WritesStore T.HasElements
        (TakesLink (H.hash_of hash.now) (place_in directory.now name.now) id.0 obj links)
        store.old store.new) }
    ensures keeps { KeepsTold T.HasElements store.old store.new result }
    ensures space { SpendsAtMost T.HasElements reserves store.old store.new }
    ensures borrowed { KeepsFrame T.Counted store.old store.new }
    ensures cause { ReadsWithCause T.HasElements store.old store.new result }
{
    let pfs = directory.at.pfs;
    close_name(store, hash, pfs, directory.at.object, name.bytes(), id)?;
    drop_link(alloc, store, pfs, obj, links, id)
}

// Takes a name away from a directory, and the directory that it leads to.
pub(crate) fn take_directory<T: ElementStore + Extents, H: NameHash>(
    store: &mut T,
    hash: &H,
    directory: &Stand,
    name: &Name,
    obj: Obj,
    id: Id,
) -> Result<(), Fault>
    requires id { 1 ≤ id.0 }
    requires balanced { InBalance T.HasElements store.old }
    requires below { AreBelowIn (T.elements store.old) (T.extents store.old)
        directory.now.at.pfs.0 id.0 }
    ensures ok { OnOk result (WritesStore T.HasElements
        (TakesDirectory (H.hash_of hash.now) (place_in directory.now name.now) id.0 obj)
        store.old store.new) }
    ensures keeps { KeepsTold T.HasElements store.old store.new result }
    ensures space { SpendsAtMost T.HasElements reserves store.old store.new }
    ensures borrowed { KeepsFrame T.Counted store.old store.new }
    ensures cause { ReadsWithCause T.HasElements store.old store.new result }
{
    let pfs = directory.at.pfs;
    close_name(store, hash, pfs, directory.at.object, name.bytes(), id)?;
    remove_object(store, pfs, obj, id)
}

// Takes a link from an object that has so many; with its last one it goes, with all that is about it.
// Where another one is left it takes at most 40,960 bytes of zone 8 and 32 of zone 9.
pub(crate) fn drop_link<T: ElementStore + Extents>(
    alloc: Global,
    store: &mut T,
    pfs: Pfs,
    obj: Obj,
    links: u32,
    id: Id,
) -> Result<(), Fault>
    requires id { 1 ≤ id.0 }
    requires balanced { InBalance T.HasElements store.old }
    requires older { IsOlderIn (T.elements store.old) (T.extents store.old) pfs.0 obj.0 id.0 }
    requires bytes { AreOlderIn (T.elements store.old) (T.extents store.old) pfs.0 obj.0 id.0 0 }
    requires room { 1 < links → HasRooms (T.room store.old) 1 32 }
    ensures ok { OnOk result (WritesStore T.HasElements (DropsLink pfs.0 id.0 obj links)
        store.old store.new) }
    ensures keeps { KeepsTold T.HasElements store.old store.new result }
    ensures space { SpendsAtMost T.HasElements (spent 1 32) store.old store.new }
    ensures borrowed { KeepsFrame T.Counted store.old store.new }
    ensures cause { ReadsWithCause T.HasElements store.old store.new result }
{
    if links > 1 {
        set_links(alloc, store, pfs, obj, links - 1, id)
    } else {
        drop_object(store, pfs, obj, id)
    }
}

// Lets an object be gone from an id on: its inode, its target and its bytes.
fn drop_object<T: ElementStore + Extents>(
    store: &mut T,
    pfs: Pfs,
    obj: Obj,
    id: Id,
) -> Result<(), Fault>
    requires balanced { InBalance T.HasElements store.old }
    requires older { IsOlderIn (T.elements store.old) (T.extents store.old) pfs.0 obj.0 id.0 }
    requires bytes { AreOlderIn (T.elements store.old) (T.extents store.old) pfs.0 obj.0 id.0 0 }
    ensures ok { OnOk result (WritesStore T.HasElements
        (DropsObject pfs.0 id.0 obj) store.old store.new) }
    ensures keeps { KeepsTold T.HasElements store.old store.new result }
    ensures space { SpendsAtMost T.HasElements nothing store.old store.new }
    ensures borrowed { KeepsFrame T.Counted store.old store.new }
    ensures cause { ReadsWithCause T.HasElements store.old store.new result }
{
    remove_object(store, pfs, obj, id)?;
    remove_bytes(store, pfs, obj, id)
}
