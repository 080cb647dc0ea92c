// Names that give way to others.
ghost use Rattle.std.specs.Prelude.{◌≡◌, ◌≤◌, OnOk};
ghost use Rattle.hm_types.specs.Name.{IsName};
ghost use Rattle.hm_key.specs.Members.{InBalance, KeepsFrame, KeepsTold, SpendsAtMost};
ghost use Rattle.hm_cursor.specs.Told.{ReadsWithCause};
ghost use Rattle.hm_cursor.specs.Write.{Writes, WritesStore};
ghost use Rattle.hm_calls.specs.Known.{AreBelowIn};
ghost use Rattle.hm_calls.specs.Moves.{HasRoomToMove, WritesMove};
ghost use Rattle.hm_calls.specs.Writes.{AreOlderAround, HasReserves, IsMoving, Renames, ReplacesName};
ghost use Rattle.hm_calls.specs.Writes.{place_of_name, reserves};

use crate::put::put_name;
use crate::take::drop_link;
use hm_dirs::{NameHash, Spot, Stand, close_name};
use hm_key::{ElementStore, Extents, HasElements, HasRoom};
use hm_types::{Counted, Fault, Id, Name, Obj};
use std::alloc::Global;

// A name in a directory.
#[derive(Clone, Copy)]
pub(crate) struct Named<'a> {
    pub directory: &'a Stand,
    pub name: &'a Name,
}

// What is moved: an object, and its kind, 1 to 4.
#[derive(Clone, Copy)]
pub(crate) struct Moved {
    pub obj: Obj,
    pub kind: u8,
}

// What a move comes to: nothing, where the new name leads to the object already; a new name at a spot
// for it; or one in place of another object's.
#[derive(Clone, Copy)]
pub(crate) enum Move {
    Itself,
    Beside(Spot),
    Over(Replaced),
}

// Writes what a move comes to, within one pseudo file system.
pub(crate) fn write_move<T: ElementStore + Extents, H: NameHash>(
    alloc: Global,
    store: &mut T,
    hash: &H,
    old: Named,
    new: Named,
    moved: Moved,
    change: Move,
    id: Id,
) -> Result<(), Fault>
    requires id { 1 ≤ id.0 }
    requires values { IsMoving old new moved }
    requires balanced { InBalance T.HasElements store.old }
    requires below { AreBelowIn (T.elements store.old) (T.extents store.old)
        new.directory.now.at.pfs.0 id.0 }
    requires room { HasRoomToMove change (T.room store.old) }
    ensures ok { OnOk result (WritesStore T.HasElements
        (WritesMove (H.hash_of hash.now) (place_of_name old.entry) (place_of_name new.entry) id.0
        moved change) store.old store.new) }
    ensures keeps { KeepsTold T.HasElements store.old store.new result }
    ensures space { SpendsAtMost T.HasElements reserves store.old store.new }
    ensures borrowed { KeepsFrame T.Counted store.old store.new }
    ensures cause { ReadsWithCause T.HasElements store.old store.new result }
{
    match change {
        Move::Itself => Ok(()),
        Move::Beside(spot) => rename(alloc, store, hash, old, new, spot, moved, id),
        Move::Over(there) => replace(alloc, store, hash, old, new, there, moved, id),
    }
}

// Gives an object another name in place of the one that it has, in the same pseudo file system.
fn rename<T: ElementStore + Extents, H: NameHash>(
    alloc: Global,
    store: &mut T,
    hash: &H,
    old: Named,
    new: Named,
    spot: Spot,
    moved: Moved,
    id: Id,
) -> Result<(), Fault>
    requires id { 1 ≤ id.0 }
    requires values { IsMoving old new moved }
    requires balanced { InBalance T.HasElements store.old }
    requires older { AreOlderAround (T.elements store.old) (T.extents store.old) old new id.0 }
    requires room { HasReserves (T.room store.old) }
    ensures ok { OnOk result (WritesStore T.HasElements
        (Renames (H.hash_of hash.now) (place_of_name old.entry) (place_of_name new.entry) spot id.0
        moved.obj moved.kind) store.old store.new) }
    ensures keeps { KeepsTold T.HasElements store.old store.new result }
    ensures space { SpendsAtMost T.HasElements reserves store.old store.new }
    ensures borrowed { KeepsFrame T.Counted store.old store.new }
    ensures cause { ReadsWithCause T.HasElements store.old store.new result }
{
    let pfs = new.directory.at.pfs;
    close_name(
        store,
        hash,
        pfs,
        old.directory.at.object,
        old.name.bytes(),
        id,
    )?;
    put_name(
        alloc,
        store,
        new.directory,
        spot,
        new.name,
        moved.obj,
        moved.kind,
        id,
    )
}

// What a moved object takes the place of: its number, its links, and the key of the entry that leads
// to it.
#[derive(Clone, Copy)]
pub(crate) struct Replaced {
    pub obj: Obj,
    pub links: u32,
    pub key: u64,
}

// The same, where the new name leads to another object, which loses a link by that.
fn replace<T: ElementStore + Extents, H: NameHash>(
    alloc: Global,
    store: &mut T,
    hash: &H,
    old: Named,
    new: Named,
    there: Replaced,
    moved: Moved,
    id: Id,
) -> Result<(), Fault>
    requires id { 1 ≤ id.0 }
    requires values { IsMoving old new moved }
    requires balanced { InBalance T.HasElements store.old }
    requires below { AreBelowIn (T.elements store.old) (T.extents store.old)
        new.directory.now.at.pfs.0 id.0 }
    requires room { HasReserves (T.room store.old) }
    ensures ok { OnOk result (WritesStore T.HasElements
        (ReplacesName (H.hash_of hash.now) (place_of_name old.entry) (place_of_name new.entry) there.key id.0
        moved.obj moved.kind there.obj there.links) store.old store.new) }
    ensures keeps { KeepsTold T.HasElements store.old store.new result }
    ensures space { SpendsAtMost T.HasElements reserves store.old store.new }
    ensures borrowed { KeepsFrame T.Counted store.old store.new }
    ensures cause { ReadsWithCause T.HasElements store.old store.new result }
{
    let pfs = new.directory.at.pfs;
    close_name(
        store,
        hash,
        pfs,
        new.directory.at.object,
        new.name.bytes(),
        id,
    )?;
    close_name(
        store,
        hash,
        pfs,
        old.directory.at.object,
        old.name.bytes(),
        id,
    )?;
    drop_link(alloc, store, pfs, there.obj, there.links, id)?;
    let spot = Spot {
        key: there.key,
        hidden: false,
    };
    put_name(
        alloc,
        store,
        new.directory,
        spot,
        new.name,
        moved.obj,
        moved.kind,
        id,
    )
}
