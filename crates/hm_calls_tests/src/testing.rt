// Stores that tests forge, and what is asked of them.
ghost use Rattle.std.specs.Prelude.{◌≡◌, ◌<◌, ◌≤◌, ◌-◌, ◌^◌, IfOk, OnOk};
ghost use Rattle.hm_types.specs.declared.limits.TheConstants.{GREATEST_ID};
ghost use Rattle.hm_model.specs.Forms.{IsInRange};
ghost use Rattle.hm_calls.specs.Commands.{IsOnTrees};
ghost use Rattle.hm_calls_tests.specs.Tests.{IsMade, IsReady};

use crate::lines::command_of;
use hm_calls::answer;
use hm_cursor::{add_version, entry_base, inode_base, record_base, target_base};
use hm_dirs::NameHash;
use hm_key::{
    Base, ELEMENT, Element, ElementStore, Extents, HasElements, HasRoom, MemStore, is_element,
};
use hm_model::{Command, Reply, push_answer};
use hm_records::{
    DIRECTORY, DirEntry, Inode, PFS_LINK, PfsRecord, SOFTLINK, encode_entry, encode_inode,
    encode_pfs,
};
use hm_retain::Retention;
use hm_types::{
    Fault, GREATEST_ID, HOff, INSERT_ROOM, Id, META_ZONE, Name, Obj, Pfs, TREE_ZONE, Text, rounded,
};
use std::alloc::Global;
use std::test::Fail;

/// A hash by which all names have one.
pub(crate) struct Zero;

impl NameHash for Zero {
    ghost use Rattle.std.proofs.Common.{lit<};

    ghost hash_of = { λ _ _. 0 };

    ghost bounded = { λ _ _. lit< tt };

    fn hash(&self, _name: &[u8]) -> u64 {
        0
    }
}

/// A hash of two values: the names of one byte have one, and all others the other.
pub(crate) struct ByLength;

impl NameHash for ByLength {
    ghost use Rattle.hm_calls_tests.specs.Tests.{length_hash, length_hash_few};

    ghost hash_of = { λ _. length_hash };

    ghost bounded = { λ _. length_hash_few };

    fn hash(&self, name: &[u8]) -> u64 {
        if name.len() == 1 {
            0
        } else {
            1_099_511_627_776
        }
    }
}

/// A store, and the id of the next call.
#[derive(Drop)]
pub(crate) struct Volume<T> {
    pub store: T,
    pub next: u64,
}

/// The reply to the next call.
pub(crate) fn reply_to<T: ElementStore + Extents, H: NameHash>(
    alloc: Global,
    volume: &mut Volume<T>,
    hash: &H,
    command: &Command,
) -> Result<Reply, Fault>
    requires command { IsOnTrees command.now × IsInRange command.now }
    requires id { (1 ≤ volume.old.next) × (volume.old.next ≤ GREATEST_ID) }
    requires ready { IsReady (T.elements volume.old.store) (T.extents volume.old.store)
        volume.old.next }
    ensures { OnOk result (IsReady (T.elements volume.new.store) (T.extents volume.new.store)
        volume.new.next) }
{
    let id = Id(volume.next);
    let reply = answer(alloc, &mut volume.store, hash, command, id, None)?;
    volume.next += 1;
    Ok(reply)
}

/// The text of the answer to a line.
pub(crate) fn ask<T: ElementStore + Extents, H: NameHash>(
    alloc: Global,
    volume: &mut Volume<T>,
    hash: &H,
    line: &str,
) -> Result<Vec<u8>, Fail>
    requires { IsReady (T.elements volume.old.store) (T.extents volume.old.store)
        volume.old.next }
    ensures { IfOk result (λ _. IsReady (T.elements volume.new.store)
        (T.extents volume.new.store) volume.new.next) }
{
    if volume.next == 0 || volume.next > GREATEST_ID {
        return Err("no id")?;
    }
    let command = command_of(alloc, line)?;
    let reply = reply_to(alloc, volume, hash, &command)?;
    let mut got = Vec::new(alloc);
    push_answer(alloc, &mut got, &command, &reply)?;
    Ok(got)
}

/// What an element tells.
#[derive(Clone, Copy)]
pub(crate) enum Item {
    Master(u16),
    /// A slave that keeps the ids from the first one to its sync end.
    Slave(u16, u64, u64),
    /// A pseudo file system that keeps these ids: a slave with its sync end, or a master.
    Keeping(u16, Option<u64>, &'static [(u64, u64)]),
    /// An object of a PFS: its number, its kind and its links.
    Object(u16, u64, u8, u32),
    /// A link of PFS 0 to another PFS.
    Link(u64, u16),
    /// A link of a PFS, the first one, to another.
    LinkIn(u16, u64, u16),
    /// A name in a directory of a PFS, under a collision number, and its object.
    Entry(u16, u64, &'static str, u64, u64),
    Target(u16, u64, &'static str),
    /// What the element at the place of a record, of an object or of a name has in place of that.
    CutRecord(u16),
    CutObject(u16, u64),
    CutEntry(u16, u64, &'static str),
}

fn entry_place<H: NameHash>(hash: &H, pfs: u16, directory: u64, name: &str, number: u64) -> Base {
    let key = hash.hash(name.as_bytes()) / 131_072 * 65_536 + number % 65_536;
    entry_base(Pfs(pfs), Obj(directory), key)
}

pub(crate) fn base_of<H: NameHash>(hash: &H, item: Item) -> Base {
    match item {
        Item::Master(pfs)
        | Item::Slave(pfs, _, _)
        | Item::Keeping(pfs, _, _)
        | Item::CutRecord(pfs) => record_base(Pfs(pfs)),
        Item::Object(pfs, object, _, _) | Item::CutObject(pfs, object) => {
            inode_base(Pfs(pfs), Obj(object))
        }
        Item::Link(object, _) => inode_base(Pfs(0), Obj(object)),
        Item::LinkIn(pfs, object, _) => inode_base(Pfs(pfs), Obj(object)),
        Item::Entry(pfs, directory, name, number, _) => {
            entry_place(hash, pfs, directory, name, number)
        }
        Item::CutEntry(pfs, directory, name) => entry_place(hash, pfs, directory, name, 0),
        Item::Target(pfs, object, _) => target_base(Pfs(pfs), Obj(object)),
    }
}

fn record_bytes(alloc: Global, kept: Option<(u64, u64)>) -> Result<Vec<u8>, Fail> {
    let (retention, sync_end) = match kept {
        Some((first, end)) => (Retention::of(vec![in alloc; (Id(first), Id(end))]?), end),
        None => (Some(Retention::master(alloc)?), 0),
    };
    let Some(retention) = retention else {
        return Err("no retention")?;
    };
    let record = PfsRecord {
        master: kept.is_none(),
        shared: 7,
        sync_end: Id(sync_end),
        retention,
    };
    Ok(encode_pfs(alloc, &record)?)
}

// The payload of the record of a pseudo file system that keeps these ids.
pub(crate) fn keeping_bytes(
    alloc: Global,
    sync_end: Option<u64>,
    kept: &[(u64, u64)],
) -> Result<Vec<u8>, Fail> {
    let mut list = Vec::new(alloc);
    for (first, last) in kept {
        list.push((Id(*first), Id(*last)))?;
    }
    let Some(retention) = Retention::of(list) else {
        return Err("no retention")?;
    };
    let record = PfsRecord {
        master: sync_end.is_none(),
        shared: 7,
        sync_end: Id(sync_end.unwrap_or(0)),
        retention,
    };
    Ok(encode_pfs(alloc, &record)?)
}

fn inode_as_bytes(alloc: Global, kind: u8, links: u32, pfs: u16) -> Result<Vec<u8>, Fail> {
    let inode = Inode {
        kind,
        size: if kind == SOFTLINK { 1 } else { 0 },
        links,
        pfs: Pfs(pfs),
    };
    Ok(encode_inode(alloc, &inode)?)
}

/// The payload of an entry.
pub(crate) fn entry_as_bytes(alloc: Global, name: &str, object: u64) -> Result<Vec<u8>, Fail> {
    let entry = DirEntry {
        obj: Obj(object),
        name: Name::of(Vec::from_slice(alloc, name.as_bytes())?),
    };
    Ok(encode_entry(alloc, &entry)?)
}

pub(crate) fn payload_of(alloc: Global, item: Item) -> Result<Vec<u8>, Fail> {
    match item {
        Item::Master(_) => record_bytes(alloc, None),
        Item::Slave(_, first, sync_end) => record_bytes(alloc, Some((first, sync_end))),
        Item::Keeping(_, sync_end, kept) => keeping_bytes(alloc, sync_end, kept),
        Item::Object(_, _, kind, links) => inode_as_bytes(alloc, kind, links, 0),
        Item::Link(_, pfs) | Item::LinkIn(_, _, pfs) => inode_as_bytes(alloc, PFS_LINK, 1, pfs),
        Item::Entry(_, _, name, _, object) => entry_as_bytes(alloc, name, object),
        Item::Target(_, _, text) => Ok(Vec::from_slice(alloc, text.as_bytes())?),
        Item::CutRecord(_) | Item::CutObject(_, _) | Item::CutEntry(_, _, _) => {
            Ok(Vec::from_slice(alloc, &[1, 2, 3])?)
        }
    }
}

/// Adds an element by the next id.
pub(crate) fn forge(volume: &mut Volume<MemStore>, about: &Base, bytes: &[u8]) -> Result<(), Fail>
    requires { IsMade (⟦<MemStore as HasElements>⟧.elements volume.old.store)
        (⟦<MemStore as HasRoom>⟧.extents volume.old.store) volume.old.next }
    ensures { IfOk result (λ _. IsMade (⟦<MemStore as HasElements>⟧.elements volume.new.store)
        (⟦<MemStore as HasRoom>⟧.extents volume.new.store) volume.new.next) }
{
    if volume.next == u64::MAX || bytes.is_empty() || bytes.len() > 65_568 {
        return Err("no element")?;
    }
    if volume.store.room(TREE_ZONE) < u64::from(INSERT_ROOM)
        || volume.store.room(META_ZONE) < rounded(bytes.len() as u64)
    {
        return Err("no room")?;
    }
    let base = Base {
        create: volume.next,
        delete: 0,
        obj_type: 1,
        btype: ELEMENT,
        ..*about
    };
    let element = Element {
        base,
        payload: HOff::default(),
        len: bytes.len() as u32,
    };
    if !is_element(&element) {
        return Err("no element")?;
    }
    add_version(&mut volume.store, &base, META_ZONE, bytes)?;
    volume.next += 1;
    Ok(())
}

/// Adds an element with these ids, which may be any: that of the next call is above them.
pub(crate) fn forge_as(
    volume: &mut Volume<MemStore>,
    about: &Base,
    create: u64,
    delete: u64,
    bytes: &[u8],
) -> Result<(), Fail>
    requires { IsMade (⟦<MemStore as HasElements>⟧.elements volume.old.store)
        (⟦<MemStore as HasRoom>⟧.extents volume.old.store) volume.old.next }
    ensures { IfOk result (λ _. IsMade (⟦<MemStore as HasElements>⟧.elements volume.new.store)
        (⟦<MemStore as HasRoom>⟧.extents volume.new.store) volume.new.next) }
{
    if create == u64::MAX || delete == u64::MAX || bytes.is_empty() || bytes.len() > 65_568 {
        return Err("no element")?;
    }
    let base = Base {
        create,
        delete,
        ..*about
    };
    let mut element = Element {
        base,
        payload: HOff::default(),
        len: bytes.len() as u32,
    };
    if !is_element(&element) || volume.store.has(&base) {
        return Err("no new element")?;
    }
    if volume.store.room(TREE_ZONE) < u64::from(INSERT_ROOM)
        || volume.store.room(META_ZONE) < rounded(bytes.len() as u64)
    {
        return Err("no room")?;
    }
    element.payload = volume.store.place(META_ZONE, bytes)?;
    volume.store.insert(&element)?;
    volume.next = above(above(volume.next, create), delete);
    Ok(())
}

// The lesser number that is above an id, and not below another one.
fn above(next: u64, id: u64) -> u64
    requires { id < 2 ^ 64 - 1 }
    ensures { (next ≤ result) × (id < result) }
{
    if next <= id { id + 1 } else { next }
}

/// An empty store, of which as many big-blocks are free.
pub(crate) fn nothing(alloc: Global, free: u32) -> Volume<MemStore>
    ensures { IsMade (⟦<MemStore as HasElements>⟧.elements result.store)
        (⟦<MemStore as HasRoom>⟧.extents result.store) result.next }
{
    Volume {
        store: MemStore::new(alloc, free),
        next: 1,
    }
}

/// Adds elements by the next ids.
pub(crate) fn forge_all<H: NameHash>(
    alloc: Global,
    volume: &mut Volume<MemStore>,
    hash: &H,
    items: &[Item],
) -> Result<(), Fail>
    requires { IsMade (⟦<MemStore as HasElements>⟧.elements volume.old.store)
        (⟦<MemStore as HasRoom>⟧.extents volume.old.store) volume.old.next }
    ensures { IfOk result (λ _. IsMade (⟦<MemStore as HasElements>⟧.elements volume.new.store)
        (⟦<MemStore as HasRoom>⟧.extents volume.new.store) volume.new.next) }
{
    for item in items {
        let bytes = payload_of(alloc, *item)?;
        forge(volume, &base_of(hash, *item), &bytes)?;
    }
    Ok(())
}

/// Fills the room for payloads of entries, but for less than its reserve.
pub(crate) fn fill_meta_zone(alloc: Global, volume: &mut Volume<MemStore>) -> Result<(), Fail>
    requires { IsMade (⟦<MemStore as HasElements>⟧.elements volume.old.store)
        (⟦<MemStore as HasRoom>⟧.extents volume.old.store) volume.old.next }
    ensures { IfOk result (λ _. IsMade (⟦<MemStore as HasElements>⟧.elements volume.new.store)
        (⟦<MemStore as HasRoom>⟧.extents volume.new.store) volume.new.next) }
{
    let bytes = vec![in alloc; 7_u8; 65_568]?;
    for key in 0..127 {
        forge(volume, &entry_base(Pfs(0), Obj(1_000), key), &bytes)?;
    }
    Ok(())
}

/// A forged store, which may be asked from now on.
pub(crate) fn opened(volume: Volume<MemStore>) -> Volume<MemStore>
    requires { IsMade (⟦<MemStore as HasElements>⟧.elements volume.store)
        (⟦<MemStore as HasRoom>⟧.extents volume.store) volume.next }
    ensures { IsReady (⟦<MemStore as HasElements>⟧.elements result.store)
        (⟦<MemStore as HasRoom>⟧.extents result.store) result.next }
{
    volume
}

/// A store with some elements, made by the ids from 1 on, of which as many big-blocks are free.
pub(crate) fn volume_with<H: NameHash>(
    alloc: Global,
    hash: &H,
    items: &[Item],
    free: u32,
) -> Result<Volume<MemStore>, Fail>
    ensures { IfOk result (λ volume. IsReady (⟦<MemStore as HasElements>⟧.elements volume.store)
        (⟦<MemStore as HasRoom>⟧.extents volume.store) volume.next) }
{
    let mut volume = nothing(alloc, free);
    forge_all(alloc, &mut volume, hash, items)?;
    Ok(opened(volume))
}

/// The same with no free big-block.
pub(crate) fn volume_of<H: NameHash>(
    alloc: Global,
    hash: &H,
    items: &[Item],
) -> Result<Volume<MemStore>, Fail>
    ensures { IfOk result (λ volume. IsReady (⟦<MemStore as HasElements>⟧.elements volume.store)
        (⟦<MemStore as HasRoom>⟧.extents volume.store) volume.next) }
{
    volume_with(alloc, hash, items, 0)
}

/// A volume as it is made: PFS 0, and its root. The next id is 3.
pub(crate) const FRESH: [Item; 2] = [Item::Master(0), Item::Object(0, 1, DIRECTORY, 1)];

/// Lines and their answers, in turn, from the next id on: the first line with another answer, and
/// what it was, if there is one.
pub(crate) fn first_other_of<'a, T: ElementStore + Extents, H: NameHash>(
    alloc: Global,
    volume: &mut Volume<T>,
    hash: &H,
    rows: &[(&'a str, &'a str)],
) -> Result<Option<(&'a str, Vec<u8>)>, Fail>
    requires { IsReady (T.elements volume.old.store) (T.extents volume.old.store)
        volume.old.next }
    ensures { IfOk result (λ _. IsReady (T.elements volume.new.store)
        (T.extents volume.new.store) volume.new.next) }
{
    for (line, want) in rows {
        let got = ask(alloc, volume, hash, line)?;
        if got.as_slice() != want.as_bytes() {
            return Ok(Some((*line, got)));
        }
    }
    Ok(None)
}

/// The same over a store with some elements.
pub(crate) fn first_other<'a, H: NameHash>(
    alloc: Global,
    hash: &H,
    items: &[Item],
    rows: &[(&'a str, &'a str)],
) -> Result<Option<(&'a str, Vec<u8>)>, Fail> {
    let mut volume = volume_of(alloc, hash, items)?;
    first_other_of(alloc, &mut volume, hash, rows)
}
