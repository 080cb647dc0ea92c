// The names of a directory.
ghost use Rattle.std.specs.Prelude.{◌≡◌, IfOk};
ghost use Rattle.std.specs.List.Sorted.{IsPermutation};
ghost use Rattle.hm_model.specs.Answer.{entry_kind, listing};
ghost use Rattle.hm_cursor.specs.Told.{ReadsWithCause};
ghost use Rattle.hm_view.specs.Trees.{OnTrees};
ghost use Rattle.hm_key.specs.Members.{InBalance, IsSame, KeepsFrame};

use crate::pass::{END_OF_KEYS, name_before};
use hm_cursor::find_inode;
use hm_key::{ElementStore, Extents, HasElements, HasRoom};
use hm_types::{Counted, Fault, Id, Name, Names, Obj, Pfs};
use std::alloc::Global;

/// The names of a directory as of an id, by their bytes, each with the number of the kind of its
/// object: what `ls` answers. The number is 0 where the tree has no such object. Of several entries
/// of one name the first in the order of keys leads, and the others are not told.
///
/// It goes over the entries once, looks for the inode of each object, and copies each name once.
/// `Damaged` at the payload of an entry or of an inode, of kind 6, where that spells none, and
/// `NoMemory` where an allocation was refused. The other faults are those of the store.
pub fn list<T: ElementStore + Extents>(
    alloc: Global,
    store: &mut T,
    pfs: Pfs,
    directory: Obj,
    as_of: Id,
) -> Result<Names, Fault>
    requires balanced { InBalance T.HasElements store.old }
    ensures ok { IfOk result (λ names.
        OnTrees (T.elements store.old) (T.extents store.old) pfs.0 as_of.0
        (λ lists tree. names ≡ listing tree directory)) }
    ensures keeps { IsSame T.HasElements store.old store.new }
    ensures borrowed { KeepsFrame T.Counted store.old store.new }
    ensures cause { ReadsWithCause T.HasElements store.old store.new result }
{
    let mut names = names_by_key(alloc, store, pfs, directory, as_of)?;
    names.sort_unstable_by(|a, b| a.1.cmp(&b.1));
    Ok(Names::of(names))
}

// The names of a directory with the kinds of their objects, from the greatest key down.
fn names_by_key<T: ElementStore + Extents>(
    alloc: Global,
    store: &mut T,
    pfs: Pfs,
    directory: Obj,
    as_of: Id,
) -> Result<Vec<(u8, Name)>, Fault>
    requires balanced { InBalance T.HasElements store.old }
    ensures ok { IfOk result (λ names.
        OnTrees (T.elements store.old) (T.extents store.old) pfs.0 as_of.0
        (λ lists tree. IsPermutation (listing tree directory) names.items)) }
    ensures keeps { IsSame T.HasElements store.old store.new }
    ensures borrowed { KeepsFrame T.Counted store.old store.new }
    ensures cause { ReadsWithCause T.HasElements store.old store.new result }
{
    let mut names = Vec::new(alloc);
    let mut end = END_OF_KEYS;
    while let Some((key, entry)) = name_before(alloc, store, pfs, directory, end, as_of)? {
        let kind = kind_of(store, pfs, entry.obj, as_of)?;
        names.push((kind, entry.name))?;
        end = key;
    }
    Ok(names)
}

// The number of the kind of an object, and 0 where the tree has no such object.
fn kind_of<T: ElementStore + Extents>(
    store: &mut T,
    pfs: Pfs,
    object: Obj,
    as_of: Id,
) -> Result<u8, Fault>
    requires balanced { InBalance T.HasElements store.old }
    ensures ok { IfOk result (λ kind.
        OnTrees (T.elements store.old) (T.extents store.old) pfs.0 as_of.0
        (λ lists tree. kind ≡ entry_kind tree object)) }
    ensures keeps { IsSame T.HasElements store.old store.new }
    ensures borrowed { KeepsFrame T.Counted store.old store.new }
    ensures cause { ReadsWithCause T.HasElements store.old store.new result }
{
    match find_inode(store, pfs, object, as_of)? {
        Some(inode) => Ok(inode.kind),
        None => Ok(0),
    }
}
