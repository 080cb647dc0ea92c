// The sizes of objects.
ghost use Rattle.std.specs.Prelude.{◌≡◌, List, ℕ, IfOk, length};
ghost use Rattle.hm_types.specs.Tree.{entries_in};
ghost use Rattle.hm_key.specs.Counts.{Counts};
ghost use Rattle.hm_key.specs.Members.{InBalance, IsSame, KeepsFrame};
ghost use Rattle.hm_records.specs.View.{IsTargetOf};
ghost use Rattle.hm_cursor.specs.Told.{OnBalanced, ReadsWithCause, fulls};
ghost use Rattle.hm_view.specs.Trees.{IsSize, OnTrees};

use crate::pass::{END_OF_KEYS, name_before};
use hm_cursor::{target_base, version_at};
use hm_key::{ElementStore, Extents, HasElements, HasRoom};
use hm_records::{DIRECTORY, Inode, PFS_LINK, SOFTLINK};
use hm_types::{Counted, Fault, Id, Obj, Pfs};
use std::alloc::Global;

/// The size of an object with this inode as of an id, as `stat` tells it: the number of names of a
/// directory, the length of a file or of a softlink's target in bytes, the number of the pseudo file
/// system that a link leads to. A softlink without a target has 0.
///
/// A directory's entries are gone over once, and each name is copied once. `Damaged` at the payload
/// of an entry, of kind 6, where that spells none, and `NoMemory` where an allocation was refused.
/// The other faults are those of the store.
pub fn size<T: ElementStore + Extents>(
    alloc: Global,
    store: &mut T,
    pfs: Pfs,
    object: Obj,
    inode: &Inode,
    as_of: Id,
) -> Result<u64, Fault>
    requires balanced { InBalance T.HasElements store.old }
    ensures ok { IfOk result (λ size.
        OnTrees (T.elements store.old) (T.extents store.old) pfs.0 as_of.0
        (IsSize as_of.0 pfs.0 object inode.now size)) }
    ensures keeps { IsSame T.HasElements store.old store.new }
    ensures borrowed { KeepsFrame T.Counted store.old store.new }
    ensures cause { ReadsWithCause T.HasElements store.old store.new result }
{
    match inode.kind {
        DIRECTORY => count_names(alloc, store, pfs, object, as_of),
        SOFTLINK => target_length(store, pfs, object, as_of),
        PFS_LINK => Ok(u64::from(inode.pfs.0)),
        _ => Ok(inode.size),
    }
}

// How many names a directory has.
fn count_names<T: ElementStore + Extents>(
    alloc: Global,
    store: &mut T,
    pfs: Pfs,
    directory: Obj,
    as_of: Id,
) -> Result<u64, Fault>
    requires balanced { InBalance T.HasElements store.old }
    ensures ok { IfOk result (λ count.
        OnTrees (T.elements store.old) (T.extents store.old) pfs.0 as_of.0
        (λ lists tree. count ≡ length (entries_in tree directory))) }
    ensures keeps { IsSame T.HasElements store.old store.new }
    ensures borrowed { KeepsFrame T.Counted store.old store.new }
    ensures cause { ReadsWithCause T.HasElements store.old store.new result }
{
    let mut count = 0;
    let mut end = END_OF_KEYS;
    while let Some((key, _)) = name_before(alloc, store, pfs, directory, end, as_of)? {
        count += 1;
        end = key;
    }
    Ok(count)
}

// The length of a softlink's target in bytes, and 0 where it has none.
fn target_length<T: ElementStore + Extents>(
    store: &mut T,
    pfs: Pfs,
    object: Obj,
    as_of: Id,
) -> Result<u64, Fault>
    requires balanced { InBalance T.HasElements store.old }
    ensures ok { IfOk result (λ len. OnBalanced (T.elements store.old) (T.extents store.old)
        (λ lists. (text : List ℕ) →
        IsTargetOf (Counts (fulls lists) as_of.0) pfs.0 object.0 text → len ≡ length text)) }
    ensures keeps { IsSame T.HasElements store.old store.new }
    ensures borrowed { KeepsFrame T.Counted store.old store.new }
    ensures cause { ReadsWithCause T.HasElements store.old store.new result }
{
    match version_at(store, &target_base(pfs, object), as_of)? {
        Some(element) => Ok(u64::from(element.len)),
        None => Ok(0),
    }
}
