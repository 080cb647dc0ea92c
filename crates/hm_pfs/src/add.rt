// New pseudo file systems.
ghost use Rattle.std.specs.Prelude.{◌≡◌, ◌≤◌, IfOk, OnOk, length};
ghost use Rattle.hm_types.specs.Space.{rounded};
ghost use Rattle.hm_key.specs.Versions.{Adds};
ghost use Rattle.hm_key.specs.Members.{HasContentCause, InBalance, KeepsFrame, KeepsTold, SpendsAtMost};
ghost use Rattle.hm_records.specs.PfsRecord.{pfs_bytes};
ghost use Rattle.hm_records.specs.declared.kind.TheConstants.{DIRECTORY};
ghost use Rattle.hm_cursor.specs.Write.{WritesStore};
ghost use Rattle.hm_objects.specs.Objects.{HasRooms, open_base, spent};
ghost use Rattle.hm_pfs.specs.Systems.{IsUnmadeIn, LacksElement, PutsMaster, PutsSlave, master_record, made_record};
ghost use Rattle.hm_pfs.specs.Systems.{made_root, slave_record};

use crate::payload::encode_record;
use hm_cursor::{inode_base, insert_with_payload, record_base};
use hm_key::{Base, ELEMENT, ElementStore, Extents, HasElements, HasRoom};
use hm_records::{DIRECTORY, Inode, PfsRecord, encode_inode};
use hm_retain::Retention;
use hm_types::{Counted, Fault, Id, META_ZONE, NoMemory, Obj, Pfs};
use std::alloc::Global;

/// Adds a master by an id of 1 or more that made no element of its number: its record, by which it
/// keeps every id from 1 on, and its root directory. It is one more where no element has the number,
/// of which a list that no call wrote may have some. No link leads to it yet. It takes at most
/// 81,920 bytes of zone 8 and 80 of zone 9. `NoMemory` where an allocation was refused; the other
/// faults are those of the store. After a fault nothing is known of the content.
pub fn add_master<T: ElementStore + Extents>(
    alloc: Global,
    store: &mut T,
    number: Pfs,
    shared: u64,
    id: Id,
) -> Result<(), Fault>
    requires id { 1 ≤ id.0 }
    requires balanced { InBalance T.HasElements store.old }
    requires unmade { IsUnmadeIn (T.elements store.old) (T.extents store.old) number.0 id.0 }
    requires room { HasRooms (T.room store.old) 2 80 }
    ensures ok { OnOk result (WritesStore T.HasElements
        (PutsMaster number.0 shared id.0) store.old store.new) }
    ensures keeps { KeepsTold T.HasElements store.old store.new result }
    ensures space { SpendsAtMost T.HasElements (spent 2 80) store.old store.new }
    ensures borrowed { KeepsFrame T.Counted store.old store.new }
    ensures cause { HasContentCause T.HasElements store.old store.new result }
{
    let record = new_master(alloc, shared)?;
    add_record(alloc, store, number, &record, id)?;
    add_root(alloc, store, number, id)
}

/// Adds a slave, as `add_master` adds a master: its record alone, by which it has no sync end and
/// keeps no id. So it shows no object. Room and faults are those of
/// `add_master`, but for 40,960 bytes of zone 8 and 32 of zone 9.
pub fn add_slave<T: ElementStore + Extents>(
    alloc: Global,
    store: &mut T,
    number: Pfs,
    shared: u64,
    id: Id,
) -> Result<(), Fault>
    requires id { 1 ≤ id.0 }
    requires balanced { InBalance T.HasElements store.old }
    requires unmade { IsUnmadeIn (T.elements store.old) (T.extents store.old) number.0 id.0 }
    requires room { HasRooms (T.room store.old) 1 32 }
    ensures ok { OnOk result (WritesStore T.HasElements
        (PutsSlave number.0 shared id.0) store.old store.new) }
    ensures keeps { KeepsTold T.HasElements store.old store.new result }
    ensures space { SpendsAtMost T.HasElements (spent 1 32) store.old store.new }
    ensures borrowed { KeepsFrame T.Counted store.old store.new }
    ensures cause { HasContentCause T.HasElements store.old store.new result }
{
    add_record(alloc, store, number, &new_slave(alloc, shared), id)
}

// The record of a new master.
fn new_master(alloc: Global, shared: u64) -> Result<PfsRecord, NoMemory>
    ensures { IfOk result (λ made. made ≡ master_record shared) }
{
    Ok(PfsRecord {
        master: true,
        shared,
        sync_end: Id(0),
        retention: Retention::master(alloc)?,
    })
}

// The record of a new slave.
fn new_slave(alloc: Global, shared: u64) -> PfsRecord
    ensures { result ≡ slave_record shared }
{
    PfsRecord {
        master: false,
        shared,
        sync_end: Id(0),
        retention: Retention::of(Vec::new(alloc)).unwrap(),
    }
}

// Adds the record of a pseudo file system, at whose key no element stands.
fn add_record<T: ElementStore + Extents>(
    alloc: Global,
    store: &mut T,
    number: Pfs,
    value: &PfsRecord,
    id: Id,
) -> Result<(), Fault>
    requires id { 1 ≤ id.0 }
    requires balanced { InBalance T.HasElements store.old }
    requires lacks { LacksElement (T.elements store.old)
        (made_record number.0 value.now id.0) }
    requires room { HasRooms (T.room store.old) 1 (rounded (length (pfs_bytes value.now))) }
    ensures ok { OnOk result (WritesStore T.HasElements
        (Adds (made_record number.0 value.now id.0)) store.old store.new) }
    ensures keeps { KeepsTold T.HasElements store.old store.new result }
    ensures space { SpendsAtMost T.HasElements
        (spent 1 (rounded (length (pfs_bytes value.now)))) store.old store.new }
    ensures borrowed { KeepsFrame T.Counted store.old store.new }
    ensures cause { HasContentCause T.HasElements store.old store.new result }
{
    let bytes = encode_record(alloc, value)?;
    let base = made_by(record_base(number), id);
    insert_with_payload(store, &base, META_ZONE, &bytes)
}

// Adds the inode of a root directory, at whose key no element stands.
fn add_root<T: ElementStore + Extents>(
    alloc: Global,
    store: &mut T,
    number: Pfs,
    id: Id,
) -> Result<(), Fault>
    requires id { 1 ≤ id.0 }
    requires balanced { InBalance T.HasElements store.old }
    requires lacks { LacksElement (T.elements store.old) (made_root number.0 id.0) }
    requires room { HasRooms (T.room store.old) 1 32 }
    ensures ok { OnOk result (WritesStore T.HasElements
        (Adds (made_root number.0 id.0)) store.old store.new) }
    ensures keeps { KeepsTold T.HasElements store.old store.new result }
    ensures space { SpendsAtMost T.HasElements (spent 1 32) store.old store.new }
    ensures borrowed { KeepsFrame T.Counted store.old store.new }
    ensures cause { HasContentCause T.HasElements store.old store.new result }
{
    let inode = Inode {
        kind: DIRECTORY,
        size: 0,
        links: 1,
        pfs: Pfs(0),
    };
    let bytes = encode_inode(alloc, &inode)?;
    let base = made_by(inode_base(number, Obj(1)), id);
    insert_with_payload(store, &base, META_ZONE, &bytes)
}

// The base of an open element of a directory, made by an id.
fn made_by(base: Base, id: Id) -> Base
    ensures { result ≡ open_base base DIRECTORY id.0 }
{
    Base {
        create: id.0,
        delete: 0,
        obj_type: DIRECTORY,
        btype: ELEMENT,
        ..base
    }
}
