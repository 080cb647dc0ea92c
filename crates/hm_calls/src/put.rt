// New objects and new links, with their names.
ghost use Rattle.std.specs.Prelude.{◌≡◌, ◌≤◌, ℕ, List, OnOk};
ghost use Rattle.hm_types.specs.Name.{IsName};
ghost use Rattle.hm_key.specs.Members.{HasContentCause, InBalance, KeepsFrame, KeepsTold, SpendsAtMost};
ghost use Rattle.hm_cursor.specs.Told.{ReadsWithCause};
ghost use Rattle.hm_cursor.specs.Write.{WritesStore};
ghost use Rattle.hm_objects.specs.Objects.{AddsObject, HasRooms, IsOlderIn, spent};
ghost use Rattle.hm_dirs.specs.Names.{AreOlderIn};
ghost use Rattle.hm_calls.specs.Known.{AreBelowIn};
ghost use Rattle.hm_calls.specs.New.{IsNewObject, object_by};
ghost use Rattle.hm_calls.specs.Writes.{HasReserves, PutsLink, PutsName, PutsObject, place_in, reserves};

use crate::new::{New, snapshot_target};
use hm_dirs::{Spot, Stand, add_name};
use hm_key::{ElementStore, Extents, HasElements, HasRoom};
use hm_objects::{add_directory, add_file, add_softlink, set_links};
use hm_records::{DirEntry, FILE};
use hm_types::{Counted, Fault, Id, Name, Obj, Pfs};
use std::alloc::Global;

// Adds an object, whose number is the id, and a name in a directory that leads to it.
pub(crate) fn put_object<T: ElementStore + Extents>(
    alloc: Global,
    store: &mut T,
    directory: &Stand,
    spot: Spot,
    name: &Name,
    new: New,
    id: Id,
) -> Result<(), Fault>
    requires id { 1 ≤ id.0 }
    requires values { IsName name.now × IsNewObject new }
    requires balanced { InBalance T.HasElements store.old }
    requires below { AreBelowIn (T.elements store.old) (T.extents store.old)
        directory.now.at.pfs.0 id.0 }
    requires room { HasReserves (T.room store.old) }
    ensures ok { (hash : List ℕ → ℕ) → OnOk result (WritesStore T.HasElements
        (PutsObject hash (place_in directory.now name.now) spot id.0 (object_by new.entry id.0))
        store.old store.new) }
    ensures keeps { KeepsTold T.HasElements store.old store.new result }
    ensures space { SpendsAtMost T.HasElements reserves store.old store.new }
    ensures borrowed { KeepsFrame T.Counted store.old store.new }
    ensures cause { ReadsWithCause T.HasElements store.old store.new result }
{
    add_object(alloc, store, directory.at.pfs, new, id)?;
    put_name(
        alloc,
        store,
        directory,
        spot,
        name,
        Obj(id.0),
        new.kind(),
        id,
    )
}

// Gives an object so many links, and a name more in a directory.
pub(crate) fn put_link<T: ElementStore + Extents>(
    alloc: Global,
    store: &mut T,
    directory: &Stand,
    spot: Spot,
    name: &Name,
    obj: Obj,
    links: u32,
    id: Id,
) -> Result<(), Fault>
    requires id { 1 ≤ id.0 }
    requires name { IsName name.now }
    requires balanced { InBalance T.HasElements store.old }
    requires below { AreBelowIn (T.elements store.old) (T.extents store.old)
        directory.now.at.pfs.0 id.0 }
    requires room { HasReserves (T.room store.old) }
    ensures ok { (hash : List ℕ → ℕ) → OnOk result (WritesStore T.HasElements
        (PutsLink hash (place_in directory.now name.now) spot id.0 obj links)
        store.old store.new) }
    ensures keeps { KeepsTold T.HasElements store.old store.new result }
    ensures space { SpendsAtMost T.HasElements reserves store.old store.new }
    ensures borrowed { KeepsFrame T.Counted store.old store.new }
    ensures cause { ReadsWithCause T.HasElements store.old store.new result }
{
    set_links(alloc, store, directory.at.pfs, obj, links, id)?;
    put_name(alloc, store, directory, spot, name, obj, FILE, id)
}

// Adds a name in a directory, which leads to an object of a kind, 1 to 4. It takes at most 40,960
// bytes of zone 8 and 272 of zone 9.
pub(crate) fn put_name<T: ElementStore + Extents>(
    alloc: Global,
    store: &mut T,
    directory: &Stand,
    spot: Spot,
    name: &Name,
    obj: Obj,
    kind: u8,
    id: Id,
) -> Result<(), Fault>
    requires id { 1 ≤ id.0 }
    requires values { IsName name.now × (1 ≤ kind) × (kind ≤ 4) }
    requires balanced { InBalance T.HasElements store.old }
    requires older { AreOlderIn (T.elements store.old) (T.extents store.old)
        directory.now.at.pfs.0 directory.now.at.object id.0 }
    requires room { HasRooms (T.room store.old) 1 272 }
    ensures ok { OnOk result (WritesStore T.HasElements
        (PutsName (place_in directory.now name.now) spot id.0 obj kind) store.old store.new) }
    ensures keeps { KeepsTold T.HasElements store.old store.new result }
    ensures space { SpendsAtMost T.HasElements (spent 1 272) store.old store.new }
    ensures borrowed { KeepsFrame T.Counted store.old store.new }
    ensures cause { HasContentCause T.HasElements store.old store.new result }
{
    let entry = DirEntry {
        obj,
        name: name.clone()?,
    };
    add_name(
        alloc,
        store,
        directory.at.pfs,
        directory.at.object,
        spot,
        &entry,
        kind,
        id,
    )
}

// Adds an object, whose number is the id, to which no name leads yet. It takes at most 81,920 bytes
// of zone 8 and 1,056 of zone 9.
fn add_object<T: ElementStore + Extents>(
    alloc: Global,
    store: &mut T,
    pfs: Pfs,
    new: New,
    id: Id,
) -> Result<(), Fault>
    requires id { 1 ≤ id.0 }
    requires object { IsNewObject new }
    requires balanced { InBalance T.HasElements store.old }
    requires older { IsOlderIn (T.elements store.old) (T.extents store.old) pfs.0 id.0 id.0 }
    requires room { HasRooms (T.room store.old) 2 1056 }
    ensures ok { OnOk result (WritesStore T.HasElements
        (AddsObject pfs.0 id.0 (object_by new.entry id.0)) store.old store.new) }
    ensures keeps { KeepsTold T.HasElements store.old store.new result }
    ensures space { SpendsAtMost T.HasElements (spent 2 1056) store.old store.new }
    ensures borrowed { KeepsFrame T.Counted store.old store.new }
    ensures cause { HasContentCause T.HasElements store.old store.new result }
{
    let number = Obj(id.0);
    match new {
        New::Directory => add_directory(alloc, store, pfs, number, id),
        New::File => add_file(alloc, store, pfs, number, id),
        New::Softlink(target) => add_softlink(alloc, store, pfs, number, target, id),
        New::Snapshot => {
            let target = snapshot_target(alloc, id)?;
            add_softlink(alloc, store, pfs, number, &target, id)
        }
    }
}
