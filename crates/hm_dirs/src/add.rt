// New names.
ghost use Rattle.std.specs.Prelude.{◌≡◌, ◌+◌, ◌≤◌, OnOk, length};
ghost use Rattle.hm_types.specs.Space.{nothing};
ghost use Rattle.hm_key.specs.Counts.{subject_of};
ghost use Rattle.hm_key.specs.Key.{key_of};
ghost use Rattle.hm_key.specs.Members.{HasContentCause, InBalance, KeepsFrame, KeepsTold, SpendsAtMost};
ghost use Rattle.hm_records.specs.Entry.{IsEntry, entry_bytes};
ghost use Rattle.hm_cursor.specs.Write.{HasRoomFor, IsFresh, WritesStore, taken};
ghost use Rattle.hm_dirs.specs.Entries.{Clears};
ghost use Rattle.hm_dirs.specs.Names.{AddsName, AreOlderIn};

use crate::spot::Spot;
use hm_cursor::{add_version, close_versions, entry_base};
use hm_key::{Base, ELEMENT, ElementStore, Extents, HasElements, HasRoom};
use hm_records::{DirEntry, encode_entry};
use hm_types::{Counted, Fault, Id, META_ZONE, Obj, Pfs};
use std::alloc::Global;

/// Adds an entry to a directory at a spot, made by an id of 1 or more. An entry that is hidden there
/// is closed. `kind` is that of its object, 1 to 4. It takes at most 40,960 bytes of zone 8, and in
/// zone 9 those of the entry. The faults are those of the store, and `NoMemory` where an allocation
/// was refused; after one nothing is known of the content.
pub fn add_name<T: ElementStore + Extents>(
    alloc: Global,
    store: &mut T,
    pfs: Pfs,
    directory: Obj,
    spot: Spot,
    entry: &DirEntry,
    kind: u8,
    id: Id,
) -> Result<(), Fault>
    requires id { 1 ≤ id.0 }
    requires ranges { IsEntry entry.now × (1 ≤ kind) × (kind ≤ 4) }
    requires balanced { InBalance T.HasElements store.old }
    requires older { AreOlderIn (T.elements store.old) (T.extents store.old)
        pfs.0 directory id.0 }
    requires room { HasRoomFor (T.room store.old) META_ZONE (entry_bytes entry.now) }
    ensures ok { OnOk result (WritesStore T.HasElements
        (AddsName pfs.0 directory spot id.0 entry.now kind) store.old store.new) }
    ensures keeps { KeepsTold T.HasElements store.old store.new result }
    ensures space { SpendsAtMost T.HasElements (taken META_ZONE (entry_bytes entry.now))
        store.old store.new }
    ensures borrowed { KeepsFrame T.Counted store.old store.new }
    ensures cause { HasContentCause T.HasElements store.old store.new result }
{
    let bytes = encode_entry(alloc, entry)?;
    let at = entry_base(pfs, directory, spot.key);
    clear(store, &at, spot.hidden, id)?;
    let base = Base {
        create: id.0,
        delete: 0,
        obj_type: kind,
        btype: ELEMENT,
        ..at
    };
    add_version(store, &base, META_ZONE, &bytes)
}

// Closes what stands at the key of a spot, where that is hidden.
fn clear<T: ElementStore + Extents>(
    store: &mut T,
    at: &Base,
    hidden: bool,
    id: Id,
) -> Result<(), Fault>
    requires balanced { InBalance T.HasElements store.old }
    requires fresh { IsFresh (T.elements store.old) (T.extents store.old)
        (subject_of (key_of at.now)) id.0 }
    ensures ok { OnOk result (WritesStore T.HasElements
        (Clears hidden (subject_of (key_of at.now)) id.0) store.old store.new) }
    ensures keeps { KeepsTold T.HasElements store.old store.new result }
    ensures space { SpendsAtMost T.HasElements nothing store.old store.new }
    ensures borrowed { KeepsFrame T.Counted store.old store.new }
    ensures cause { HasContentCause T.HasElements store.old store.new result }
{
    if hidden {
        close_versions(store, at, id)
    } else {
        Ok(())
    }
}
