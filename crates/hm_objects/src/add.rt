// New objects.
ghost use Rattle.std.specs.Prelude.{◌≡◌, ◌+◌, ◌≤◌, Some, length, OnOk};
ghost use Rattle.hm_types.specs.Space.{rounded};
ghost use Rattle.hm_types.specs.Tree.{directory_of};
ghost use Rattle.hm_key.specs.Counts.{inode_subject};
ghost use Rattle.hm_key.specs.Members.{HasContentCause, InBalance, KeepsFrame, KeepsTold, SpendsAtMost};
ghost use Rattle.hm_records.specs.Inode.{IsInode, inode_bytes};
ghost use Rattle.hm_records.specs.Target.{IsTarget};
ghost use Rattle.hm_cursor.specs.Write.{IsFresh, Rewrites, WritesStore};
ghost use Rattle.hm_objects.specs.Objects.{AddsObject, HasRooms, IsOlderIn, file_of, inode_of, open_base};
ghost use Rattle.hm_objects.specs.Objects.{pfs_link_inode, pfs_link_of, softlink_of, spent};

use hm_cursor::{add_version, close_versions, inode_base, target_base};
use hm_key::{Base, ELEMENT, ElementStore, Extents, HasElements, HasRoom};
use hm_records::{DIRECTORY, FILE, Inode, PFS_LINK, SOFTLINK, encode_inode};
use hm_types::{Counted, Fault, Id, META_ZONE, Obj, Pfs, Text};
use std::alloc::Global;

/// Adds an empty directory with this number, made by an id of 1 or more, to which no name leads
/// yet. It takes at most 40,960 bytes of zone 8 and 32 of zone 9. The faults are those of the
/// store, and `NoMemory` where an allocation was refused; after one nothing is known of the content.
pub fn add_directory<T: ElementStore + Extents>(
    alloc: Global,
    store: &mut T,
    pfs: Pfs,
    number: Obj,
    id: Id,
) -> Result<(), Fault>
    requires id { 1 ≤ id.0 }
    requires balanced { InBalance T.HasElements store.old }
    requires older { IsOlderIn (T.elements store.old) (T.extents store.old)
        pfs.0 number.0 id.0 }
    requires room { HasRooms (T.room store.old) 1 32 }
    ensures ok { OnOk result (WritesStore T.HasElements
        (AddsObject pfs.0 id.0 (directory_of number)) store.old store.new) }
    ensures keeps { KeepsTold T.HasElements store.old store.new result }
    ensures space { SpendsAtMost T.HasElements (spent 1 32) store.old store.new }
    ensures borrowed { KeepsFrame T.Counted store.old store.new }
    ensures cause { HasContentCause T.HasElements store.old store.new result }
{
    add_inode(alloc, store, pfs, number, &new_inode(DIRECTORY, 0), id)
}

/// Adds an empty file, as `add_directory` adds a directory.
pub fn add_file<T: ElementStore + Extents>(
    alloc: Global,
    store: &mut T,
    pfs: Pfs,
    number: Obj,
    id: Id,
) -> Result<(), Fault>
    requires id { 1 ≤ id.0 }
    requires balanced { InBalance T.HasElements store.old }
    requires older { IsOlderIn (T.elements store.old) (T.extents store.old)
        pfs.0 number.0 id.0 }
    requires room { HasRooms (T.room store.old) 1 32 }
    ensures ok { OnOk result (WritesStore T.HasElements
        (AddsObject pfs.0 id.0 (file_of number)) store.old store.new) }
    ensures keeps { KeepsTold T.HasElements store.old store.new result }
    ensures space { SpendsAtMost T.HasElements (spent 1 32) store.old store.new }
    ensures borrowed { KeepsFrame T.Counted store.old store.new }
    ensures cause { HasContentCause T.HasElements store.old store.new result }
{
    add_inode(alloc, store, pfs, number, &new_inode(FILE, 0), id)
}

/// Adds a softlink with a target of 1 to 1,023 bytes, as `add_directory` adds a directory. What a
/// list that no call wrote has for a target under the number is closed, which takes a search. It takes
/// at most 81,920 bytes of zone 8, and 32 of zone 9 besides those of the target.
pub fn add_softlink<T: ElementStore + Extents>(
    alloc: Global,
    store: &mut T,
    pfs: Pfs,
    number: Obj,
    target: &Text,
    id: Id,
) -> Result<(), Fault>
    requires id { 1 ≤ id.0 }
    requires target { IsTarget target.now }
    requires balanced { InBalance T.HasElements store.old }
    requires older { IsOlderIn (T.elements store.old) (T.extents store.old)
        pfs.0 number.0 id.0 }
    requires room { HasRooms (T.room store.old) 2 (32 + rounded (length target.now)) }
    ensures ok { OnOk result (WritesStore T.HasElements
        (AddsObject pfs.0 id.0 (softlink_of number target.now)) store.old store.new) }
    ensures keeps { KeepsTold T.HasElements store.old store.new result }
    ensures space { SpendsAtMost T.HasElements (spent 2 (32 + rounded (length target.now)))
        store.old store.new }
    ensures borrowed { KeepsFrame T.Counted store.old store.new }
    ensures cause { HasContentCause T.HasElements store.old store.new result }
{
    let base = made_by(target_base(pfs, number), SOFTLINK, id);
    close_versions(store, &base, id)?;
    add_version(store, &base, META_ZONE, target.bytes())?;
    let inode = new_inode(SOFTLINK, target.bytes().len() as u64);
    add_inode(alloc, store, pfs, number, &inode, id)
}

/// Adds a link to the pseudo file system with a number, as `add_directory` adds a directory. Whether
/// there is such a one is the caller's.
pub fn add_pfs_link<T: ElementStore + Extents>(
    alloc: Global,
    store: &mut T,
    pfs: Pfs,
    number: Obj,
    to: Pfs,
    id: Id,
) -> Result<(), Fault>
    requires id { 1 ≤ id.0 }
    requires balanced { InBalance T.HasElements store.old }
    requires older { IsOlderIn (T.elements store.old) (T.extents store.old)
        pfs.0 number.0 id.0 }
    requires room { HasRooms (T.room store.old) 1 32 }
    ensures ok { OnOk result (WritesStore T.HasElements
        (AddsObject pfs.0 id.0 (pfs_link_of number to)) store.old store.new) }
    ensures keeps { KeepsTold T.HasElements store.old store.new result }
    ensures space { SpendsAtMost T.HasElements (spent 1 32) store.old store.new }
    ensures borrowed { KeepsFrame T.Counted store.old store.new }
    ensures cause { HasContentCause T.HasElements store.old store.new result }
{
    add_inode(alloc, store, pfs, number, &new_link(to.0), id)
}

// Adds the inode of an object, whose other inodes are older.
fn add_inode<T: ElementStore + Extents>(
    alloc: Global,
    store: &mut T,
    pfs: Pfs,
    number: Obj,
    inode: &Inode,
    id: Id,
) -> Result<(), Fault>
    requires id { 1 ≤ id.0 }
    requires inode { IsInode inode.now }
    requires balanced { InBalance T.HasElements store.old }
    requires fresh { IsFresh (T.elements store.old) (T.extents store.old)
        (inode_subject pfs.0 number.0) id.0 }
    requires room { HasRooms (T.room store.old) 1 32 }
    ensures ok { OnOk result (WritesStore T.HasElements
        (Rewrites (inode_subject pfs.0 number.0) (Some (inode_bytes inode.now)) id.0)
        store.old store.new) }
    ensures keeps { KeepsTold T.HasElements store.old store.new result }
    ensures space { SpendsAtMost T.HasElements (spent 1 32) store.old store.new }
    ensures borrowed { KeepsFrame T.Counted store.old store.new }
    ensures cause { HasContentCause T.HasElements store.old store.new result }
{
    let bytes = encode_inode(alloc, inode)?;
    let base = made_by(inode_base(pfs, number), inode.kind, id);
    add_version(store, &base, META_ZONE, &bytes)
}

// The inode of a new object, with one link.
fn new_inode(kind: u8, size: u64) -> Inode
    ensures { result ≡ inode_of kind size }
{
    Inode {
        kind,
        size,
        links: 1,
        pfs: Pfs(0),
    }
}

// The inode of a new link to the pseudo file system with a number.
fn new_link(to: u16) -> Inode
    ensures is { result ≡ pfs_link_inode (record { 0 = to }) }
    ensures ranges { IsInode result }
{
    Inode {
        pfs: Pfs(to),
        ..new_inode(PFS_LINK, 0)
    }
}

// The base of an open element of an object of a kind, made by an id.
pub(crate) fn made_by(base: Base, kind: u8, id: Id) -> Base
    ensures { result ≡ open_base base kind id.0 }
{
    Base {
        create: id.0,
        delete: 0,
        obj_type: kind,
        btype: ELEMENT,
        ..base
    }
}
