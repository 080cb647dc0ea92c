// What an object holds.
ghost use Rattle.std.specs.Prelude.{◌≡◌, IfOk};
ghost use Rattle.hm_key.specs.Counts.{Counts};
ghost use Rattle.hm_key.specs.Versions.{HaveOwnKeys};
ghost use Rattle.hm_records.specs.Inode.{IsInode};
ghost use Rattle.hm_records.specs.View.{IsTargetOf};
ghost use Rattle.hm_records.specs.PlainView.{IsHeldAs, IsObjectAt};

use crate::inode::{Inode, decode_inode};
use crate::kind::{DIRECTORY, FILE, SOFTLINK};
use crate::plain::bytes::file_bytes;
use crate::plain::element::{FullElement, counted};
use crate::plain::subject::{inode_of, target_of};
use hm_types::{Bytes, Content, HOff, Kind, NoMemory, Obj, Object, Pfs, Text};
use std::alloc::Global;

/// The object with this number, if it is there.
pub(crate) fn object_at(
    alloc: Global,
    elements: &[FullElement],
    pfs: Pfs,
    number: Obj,
    id: u64,
) -> Result<Option<Object>, NoMemory>
    requires { HaveOwnKeys elements.now }
    ensures { IfOk result (IsObjectAt (Counts elements.now id) pfs.0 number.0) }
{
    let Some(bytes) = counted(elements, &inode_of(pfs, number), id) else {
        return Ok(None);
    };
    let Ok(inode) = decode_inode(HOff::default(), bytes) else {
        return Ok(None);
    };
    let (kind, content) = held_by(alloc, elements, pfs, number, &inode, id)?;
    Ok(Some(Object {
        number,
        kind,
        content,
        links: inode.links,
    }))
}

// What an object of this inode is, and what it holds.
fn held_by(
    alloc: Global,
    elements: &[FullElement],
    pfs: Pfs,
    number: Obj,
    inode: &Inode,
    id: u64,
) -> Result<(Kind, Content), NoMemory>
    requires inode { IsInode inode.now }
    requires own { HaveOwnKeys elements.now }
    ensures { IfOk result (λ held.
        IsHeldAs (Counts elements.now id) pfs.0 number.0 inode.now held.0 held.1) }
{
    match inode.kind {
        DIRECTORY => Ok((Kind::Directory, Content::Nothing)),
        FILE => {
            let bytes = file_bytes(alloc, elements, pfs, number, inode.size, id)?;
            Ok((Kind::File, Content::File(Bytes::of(bytes))))
        }
        SOFTLINK => {
            let target = target(alloc, elements, pfs, number, id)?;
            Ok((Kind::Softlink, Content::Target(target)))
        }
        _ => Ok((Kind::PfsLink, Content::Linked(inode.pfs))),
    }
}

// The target of a softlink, which is empty where there is none.
fn target(
    alloc: Global,
    elements: &[FullElement],
    pfs: Pfs,
    number: Obj,
    id: u64,
) -> Result<Text, NoMemory>
    requires { HaveOwnKeys elements.now }
    ensures { IfOk result (IsTargetOf (Counts elements.now id) pfs.0 number.0) }
{
    match counted(elements, &target_of(pfs, number), id) {
        Some(bytes) => Ok(Text::of(Vec::from_slice(alloc, bytes)?)),
        None => Ok(Text::of(Vec::new(alloc))),
    }
}
