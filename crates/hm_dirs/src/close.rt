// Names that go.
ghost use Rattle.std.specs.Prelude.{◌≡◌, OnOk};
ghost use Rattle.hm_types.specs.Space.{nothing};
ghost use Rattle.hm_key.specs.Members.{InBalance, KeepsFrame, KeepsTold, SpendsAtMost};
ghost use Rattle.hm_cursor.specs.Told.{ReadsWithCause};
ghost use Rattle.hm_cursor.specs.Write.{StayPlaced, WritesStore};
ghost use Rattle.hm_dirs.specs.Names.{AreOlderIn, TakesName};

use crate::hash::{NameHash, keys_of};
use hm_cursor::{close_versions, entry_base, first_version, object_named};
use hm_key::{ElementStore, Extents, HasElements, HasRoom};
use hm_types::{Counted, Fault, Id, Obj, Pfs};

/// Takes a name away from a directory from an id on: each entry of it that counts is closed, so
/// that none that stood behind another one comes to light. The object that it leads to stays, and
/// each payload where it stands.
/// `Damaged` at the payload of an entry of the name's hash, of kind 6, where that spells none. The
/// other faults are those of the store; after a fault nothing is known of the content.
pub fn close_name<T: ElementStore + Extents, H: NameHash>(
    store: &mut T,
    hash: &H,
    pfs: Pfs,
    directory: Obj,
    name: &[u8],
    id: Id,
) -> Result<(), Fault>
    requires balanced { InBalance T.HasElements store.old }
    requires older { AreOlderIn (T.elements store.old) (T.extents store.old)
        pfs.0 directory id.0 }
    ensures ok { OnOk result (WritesStore T.HasElements
        (TakesName (H.hash_of hash.now) pfs.0 directory name.now id.0) store.old store.new) }
    ensures placed { OnOk result (StayPlaced T.elements T.extents store.old store.new) }
    ensures keeps { KeepsTold T.HasElements store.old store.new result }
    ensures space { SpendsAtMost T.HasElements nothing store.old store.new }
    ensures borrowed { KeepsFrame T.Counted store.old store.new }
    ensures cause { ReadsWithCause T.HasElements store.old store.new result }
{
    let (mut key, last) = keys_of(hash.hash(name));
    while key <= last {
        let at = entry_base(pfs, directory, key);
        let Some(entry) = first_version(store, &at, last, id)? else {
            return Ok(());
        };
        if object_named(store, &entry, name)?.is_some() {
            close_versions(store, &entry.base, id)?;
        }
        key = entry.base.key + 1;
    }
    Ok(())
}
