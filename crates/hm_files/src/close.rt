// Bytes that are closed.
ghost use Rattle.std.specs.Prelude.{◌≡◌, ◌+◌, ◌%◌, ◌^◌, ◌<◌, OnOk};
ghost use Rattle.hm_types.specs.Space.{nothing};
ghost use Rattle.hm_key.specs.Members.{HasContentCause, InBalance, KeepsFrame, KeepsTold, SpendsAtMost};
ghost use Rattle.hm_cursor.specs.Write.{StayPlaced, WritesStore};
ghost use Rattle.hm_files.specs.Close.{AreOlderIn, ClearsBlock, ClosesBytes, RemovesBytes};

use crate::block::bytes_base;
use crate::search::nearest_version;
use hm_cursor::{close_versions, last_version};
use hm_key::{ElementStore, Extents, HasElements, HasRoom};
use hm_types::{BLOCK_BYTES, Counted, Fault, Id, Obj, Pfs};

/// Closes all bytes of an object that is removed, at an id above theirs: each that counts then. It
/// takes two searches for each of them, and one for each key under which none counts. No payload
/// moves, and no space is taken. The faults are those of the store; after one nothing is known of
/// the content.
pub fn remove_bytes<T: ElementStore + Extents>(
    store: &mut T,
    pfs: Pfs,
    obj: Obj,
    id: Id,
) -> Result<(), Fault>
    requires balanced { InBalance T.HasElements store.old }
    requires older { AreOlderIn (T.elements store.old) (T.extents store.old)
        pfs.0 obj.0 id.0 0 }
    ensures ok { OnOk result (WritesStore T.HasElements
        (RemovesBytes pfs.0 obj.0 id.0 (2 ^ 64)) store.old store.new) }
    ensures placed { OnOk result (StayPlaced T.elements T.extents store.old store.new) }
    ensures keeps { KeepsTold T.HasElements store.old store.new result }
    ensures space { SpendsAtMost T.HasElements nothing store.old store.new }
    ensures borrowed { KeepsFrame T.Counted store.old store.new }
    ensures cause { HasContentCause T.HasElements store.old store.new result }
{
    close_between(store, pfs, obj, 0, u64::MAX, id)
}

/// Closes the bytes of a file that end from one offset to another one, as `remove_bytes` closes
/// all.
pub(crate) fn close_between<T: ElementStore + Extents>(
    store: &mut T,
    pfs: Pfs,
    obj: Obj,
    first: u64,
    last: u64,
    id: Id,
) -> Result<(), Fault>
    requires balanced { InBalance T.HasElements store.old }
    requires older { AreOlderIn (T.elements store.old) (T.extents store.old)
        pfs.0 obj.0 id.0 first }
    ensures ok { OnOk result (WritesStore T.HasElements
        (ClosesBytes pfs.0 obj.0 id.0 first (last + 1)) store.old store.new) }
    ensures placed { OnOk result (StayPlaced T.elements T.extents store.old store.new) }
    ensures keeps { KeepsTold T.HasElements store.old store.new result }
    ensures space { SpendsAtMost T.HasElements nothing store.old store.new }
    ensures borrowed { KeepsFrame T.Counted store.old store.new }
    ensures cause { HasContentCause T.HasElements store.old store.new result }
{
    let mut key = last;
    while first <= key {
        let at = bytes_base(pfs, obj, key);
        let Some(element) = last_version(store, &at, first, id)? else {
            return Ok(());
        };
        close_versions(store, &element.base, id)?;
        if element.base.key == first {
            return Ok(());
        }
        key = element.base.key - 1;
    }
    Ok(())
}

/// Closes what shows in a block of a file of a size, from where it begins, but for what ends at
/// `end`, at an id above those of all bytes of the block. It is found as `nearest_version` finds it,
/// and closed by one search more.
pub(crate) fn clear_block<T: ElementStore + Extents>(
    store: &mut T,
    pfs: Pfs,
    obj: Obj,
    size: u64,
    begin: u64,
    end: u64,
    id: Id,
) -> Result<(), Fault>
    requires block { (begin % BLOCK_BYTES ≡ 0) × (begin + BLOCK_BYTES < 2 ^ 64) }
    requires balanced { InBalance T.HasElements store.old }
    requires older { AreOlderIn (T.elements store.old) (T.extents store.old)
        pfs.0 obj.0 id.0 (begin + 1) }
    ensures ok { OnOk result (WritesStore T.HasElements
        (ClearsBlock pfs.0 obj.0 id.0 begin end) store.old store.new) }
    ensures keeps { KeepsTold T.HasElements store.old store.new result }
    ensures space { SpendsAtMost T.HasElements nothing store.old store.new }
    ensures borrowed { KeepsFrame T.Counted store.old store.new }
    ensures cause { HasContentCause T.HasElements store.old store.new result }
{
    let at = bytes_base(pfs, obj, begin + 1);
    let last = begin + BLOCK_BYTES as u64;
    let near = size.clamp(begin, last);
    let Some(element) = nearest_version(store, &at, near, last, id)? else {
        return Ok(());
    };
    if element.base.key == end {
        return Ok(());
    }
    close_versions(store, &element.base, id)
}
