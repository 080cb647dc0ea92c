// The number of an object's links.
ghost use Rattle.std.specs.Prelude.{◌≡◌, ◌≤◌, IfOk, IfSome, OnOk};
ghost use Rattle.hm_types.specs.Tree.{with_change, with_links};
ghost use Rattle.hm_key.specs.Members.{InBalance, IsSame, KeepsFrame, KeepsTold, SpendsAtMost};
ghost use Rattle.hm_records.specs.Inode.{IsInode};
ghost use Rattle.hm_cursor.specs.Told.{OnBalanced, ReadsWithCause};
ghost use Rattle.hm_cursor.specs.Write.{WritesStore};
ghost use Rattle.hm_objects.specs.Objects.{ChangesBy, HasRooms, IsInodeClosed, IsInodeMade, IsOlderIn, spent};

use crate::add::made_by;
use hm_cursor::{find_payload, inode_base, renew_version};
use hm_key::{Base, ElementStore, Extents, HasElements, HasRoom};
use hm_records::{Inode, decode_inode, encode_inode};
use hm_types::{Counted, Fault, Id, META_ZONE, Obj, Pfs};
use std::alloc::Global;

/// The size of an inode's payload, in bytes.
const INODE_BYTES: usize = 32;

/// Gives an object so many links from an id of 1 or more on, where it is there: a new version of
/// its inode takes the place of the one that counts, which is closed. It takes at most 40,960 bytes
/// of zone 8 and 32 of zone 9. `Damaged` at the payload of its inode, of kind 6, where that spells none; the other
/// faults are those of the store, and `NoMemory` where an allocation was refused. After a fault
/// nothing is known of the content.
pub fn set_links<T: ElementStore + Extents>(
    alloc: Global,
    store: &mut T,
    pfs: Pfs,
    obj: Obj,
    links: u32,
    id: Id,
) -> Result<(), Fault>
    requires id { 1 ≤ id.0 }
    requires balanced { InBalance T.HasElements store.old }
    requires older { IsOlderIn (T.elements store.old) (T.extents store.old) pfs.0 obj.0 id.0 }
    requires room { HasRooms (T.room store.old) 1 32 }
    ensures ok { OnOk result (WritesStore T.HasElements (ChangesBy pfs.0 obj.0 id.0
        (λ tree. with_change tree obj (with_links links))) store.old store.new) }
    ensures closed { OnOk result (OnBalanced (T.elements store.old) (T.extents store.old)
        (λ lists. IsInodeClosed lists pfs.0 obj.0 id.0 (T.elements store.new))) }
    ensures keeps { KeepsTold T.HasElements store.old store.new result }
    ensures space { SpendsAtMost T.HasElements (spent 1 32) store.old store.new }
    ensures borrowed { KeepsFrame T.Counted store.old store.new }
    ensures cause { ReadsWithCause T.HasElements store.old store.new result }
{
    let Some((made, inode)) = find_made_inode(store, pfs, obj, id)? else {
        return Ok(());
    };
    let inode = Inode { links, ..inode };
    let bytes = encode_inode(alloc, &inode)?;
    let base = made_by(inode_base(pfs, obj), inode.kind, id);
    let old = Base {
        create: made.0,
        ..base
    };
    renew_version(store, &old, &base, META_ZONE, &bytes)
}

/// The inode of an object as of an id, and the id that made it. None exactly where it has none. The
/// faults are those of `set_links`.
pub(crate) fn find_made_inode<T: ElementStore + Extents>(
    store: &mut T,
    pfs: Pfs,
    obj: Obj,
    as_of: Id,
) -> Result<Option<(Id, Inode)>, Fault>
    requires balanced { InBalance T.HasElements store.old }
    ensures ranges { IfOk result (λ found. IfSome found (λ pair. IsInode pair.1)) }
    ensures ok { IfOk result (λ found. OnBalanced (T.elements store.old) (T.extents store.old)
        (λ lists. IsInodeMade lists as_of.0 pfs.0 obj.0 found)) }
    ensures keeps { IsSame T.HasElements store.old store.new }
    ensures borrowed { KeepsFrame T.Counted store.old store.new }
    ensures cause { ReadsWithCause T.HasElements store.old store.new result }
{
    let mut buffer = [0; INODE_BYTES];
    match find_payload(store, &inode_base(pfs, obj), as_of, &mut buffer)? {
        Some((element, len)) => {
            let inode = decode_inode(element.payload, &buffer[..len])?;
            Ok(Some((Id(element.base.create), inode)))
        }
        None => Ok(None),
    }
}
