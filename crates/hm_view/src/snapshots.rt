// The ids that the softlinks of a directory name.
ghost use Rattle.std.specs.Prelude.{◌≡◌, IfOk, map};
ghost use Rattle.std.specs.List.Sorted.{IsPermutation};
ghost use Rattle.hm_types.specs.declared.id.Id.{Id};
ghost use Rattle.hm_key.specs.Members.{InBalance, IsSame, KeepsFrame};
ghost use Rattle.hm_model.specs.Cut.{named_id, snapshot_ids};
ghost use Rattle.hm_cursor.specs.Told.{ReadsWithCause};
ghost use Rattle.hm_view.specs.Snapshots.{id_number, object_id, visible_id};
ghost use Rattle.hm_view.specs.Trees.{OnTrees};

use crate::links::softlink_target;
use crate::pass::{END_OF_KEYS, name_before};
use hm_cursor::find_inode;
use hm_key::{ElementStore, Extents, HasElements, HasRoom};
use hm_path::read_id;
use hm_records::SOFTLINK;
use hm_types::{Counted, Fault, Id, Obj, Pfs};
use std::alloc::Global;

/// How long an id is in a target, in bytes: `@@0x` and 16 digits.
const ID_BYTES: usize = 20;

/// The ids that the softlinks of a directory name as of an id, but for those above the shown id, from
/// the greatest key of their entries down. Of a target the first `@@0x` with 16 hexadecimal digits
/// after it counts, whatever follows. Of several entries of one name the first in the order of keys
/// leads, and the others are not looked at.
///
/// It goes over the entries once, and reads the inode of each object and the target of each
/// softlink. `Damaged` at the payload of one of these, of kind 6, where that spells none, and
/// `NoMemory` where an allocation was refused. The other faults are those of the store.
pub fn snapshot_ids<T: ElementStore + Extents>(
    alloc: Global,
    store: &mut T,
    pfs: Pfs,
    directory: Obj,
    as_of: Id,
    shown: Id,
) -> Result<Vec<Id>, Fault>
    requires balanced { InBalance T.HasElements store.old }
    ensures ok { IfOk result (λ ids.
        OnTrees (T.elements store.old) (T.extents store.old) pfs.0 as_of.0 (λ lists tree.
        IsPermutation (snapshot_ids tree directory shown.0)
        (map (λ (id : Id). id.0) ids.items))) }
    ensures keeps { IsSame T.HasElements store.old store.new }
    ensures borrowed { KeepsFrame T.Counted store.old store.new }
    ensures cause { ReadsWithCause T.HasElements store.old store.new result }
{
    let mut ids = Vec::new(alloc);
    let mut end = END_OF_KEYS;
    while let Some((key, entry)) = name_before(alloc, store, pfs, directory, end, as_of)? {
        if let Some(id) = shown_id(alloc, store, pfs, entry.obj, as_of, shown)? {
            ids.push(id)?;
        }
        end = key;
    }
    Ok(ids)
}

// The id that an object names, if it is a softlink whose target names one that is not above the
// shown id.
fn shown_id<T: ElementStore + Extents>(
    alloc: Global,
    store: &mut T,
    pfs: Pfs,
    object: Obj,
    as_of: Id,
    shown: Id,
) -> Result<Option<Id>, Fault>
    requires balanced { InBalance T.HasElements store.old }
    ensures ok { IfOk result (λ found.
        OnTrees (T.elements store.old) (T.extents store.old) pfs.0 as_of.0 (λ lists tree.
        id_number found ≡ visible_id shown.0 (object_id tree object))) }
    ensures keeps { IsSame T.HasElements store.old store.new }
    ensures borrowed { KeepsFrame T.Counted store.old store.new }
    ensures cause { ReadsWithCause T.HasElements store.old store.new result }
{
    let Some(inode) = find_inode(store, pfs, object, as_of)? else {
        return Ok(None);
    };
    if inode.kind != SOFTLINK {
        return Ok(None);
    }
    let target = softlink_target(alloc, store, pfs, object, as_of)?;
    Ok(visible_id(named_id(target.bytes()), shown))
}

// An id that is not above the shown one.
fn visible_id(id: Option<Id>, shown: Id) -> Option<Id>
    ensures { id_number result ≡ visible_id shown.0 (id_number id) }
{
    match id {
        Some(id) if id <= shown => Some(id),
        _ => None,
    }
}

// The id that a target names: the first one in it.
fn named_id(target: &[u8]) -> Option<Id>
    ensures { id_number result ≡ named_id target.now }
{
    let mut rest = target;
    while rest.len() >= ID_BYTES {
        let found = read_id(&rest[..ID_BYTES]);
        if found.is_some() {
            return found;
        }
        rest = &rest[1..];
    }
    None
}
