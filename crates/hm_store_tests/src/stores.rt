// Stores in memory whose elements and payloads are worked out by hand.
ghost use Rattle.std.specs.Prelude.{IfOk};
ghost use Rattle.hm_key.specs.Balance.{Balanced};

use hm_key::{Base, Element, ElementStore, Extents, HasElements, HasRoom, MemStore, is_element};
use hm_records::{DirEntry, Inode, PfsRecord, encode_entry, encode_inode, encode_pfs};
use hm_retain::Retention;
use hm_types::{HOff, INSERT_ROOM, Id, META_ZONE, Name, Obj, Pfs, TREE_ZONE, rounded};
use std::alloc::Global;
use std::test::Fail;

/// Adds an element with this payload, and says where that stands.
pub(crate) fn add(
    store: &mut MemStore,
    about: &Base,
    create: u64,
    delete: u64,
    bytes: &[u8],
) -> Result<HOff, Fail>
    requires { Balanced (⟦<MemStore as HasElements>⟧.elements store.old)
        (⟦<MemStore as HasRoom>⟧.extents store.old) }
    ensures { IfOk result (λ _. Balanced (⟦<MemStore as HasElements>⟧.elements store.new)
        (⟦<MemStore as HasRoom>⟧.extents store.new)) }
{
    let base = Base {
        create,
        delete,
        ..*about
    };
    if bytes.is_empty() || bytes.len() > 100_000 {
        return Err("no payload")?;
    }
    let mut element = Element {
        base,
        payload: HOff::default(),
        len: bytes.len() as u32,
    };
    if !is_element(&element) || store.has(&base) {
        return Err("no new element")?;
    }
    if store.room(TREE_ZONE) < u64::from(INSERT_ROOM)
        || store.room(META_ZONE) < rounded(bytes.len() as u64)
    {
        return Err("no room")?;
    }
    element.payload = store.place(META_ZONE, bytes)?;
    store.insert(&element)?;
    Ok(element.payload)
}

/// The record of a PFS as bytes.
pub(crate) fn record_bytes(alloc: Global, sync_end: Option<u64>) -> Result<Vec<u8>, Fail> {
    let retention = match sync_end {
        Some(end) => Retention::of(vec![in alloc; (Id(1), Id(end))]?),
        None => Some(Retention::master(alloc)?),
    };
    let Some(retention) = retention else {
        return Err("no retention")?;
    };
    let record = PfsRecord {
        master: sync_end.is_none(),
        shared: 7,
        sync_end: Id(sync_end.unwrap_or(0)),
        retention,
    };
    Ok(encode_pfs(alloc, &record)?)
}

/// An inode as bytes.
pub(crate) fn inode_bytes(alloc: Global, kind: u8, size: u64, pfs: u16) -> Result<Vec<u8>, Fail> {
    let inode = Inode {
        kind,
        size,
        links: 1,
        pfs: Pfs(pfs),
    };
    Ok(encode_inode(alloc, &inode)?)
}

/// An entry as bytes.
pub(crate) fn entry_bytes(alloc: Global, name: &[u8], object: u64) -> Result<Vec<u8>, Fail> {
    let entry = DirEntry {
        obj: Obj(object),
        name: Name::of(Vec::from_slice(alloc, name)?),
    };
    Ok(encode_entry(alloc, &entry)?)
}
