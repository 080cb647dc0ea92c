// The payloads of elements.
ghost use Rattle.std.specs.Prelude.{◌≡◌, ◌≤◌, ◌⊎◌, ◌↔◌, All, IfErr, IfOk, IfSome, IsTrue, OnOk, length};
ghost use Rattle.std.specs.List.{AllByRecursion};
ghost use Rattle.hm_types.specs.Faults.{HasFaultCause};
ghost use Rattle.hm_disk.specs.declared.limits.TheConstants.{MOST_CALL_BYTES};
ghost use Rattle.hm_key.specs.declared.rec_type.TheConstants.{DIRECTORY_ENTRY, INODE, PFS_RECORD};
ghost use Rattle.hm_node.specs.Leaf.{IsPlaced};
ghost use Rattle.hm_records.specs.Payload.{SpellsInode, SpellsPfs};
ghost use Rattle.hm_load.specs.Faults.{Tells};
ghost use Rattle.hm_load.specs.Payload.{HasPayload, IsEntryAt, IsOfRead, IsFirstBadPayload, IsPayloadOf};
ghost use Rattle.hm_load.specs.Reading.{HasDiskCause};
ghost use Rattle.hm_newfs.specs.Steps.{HasSpace};

use crate::volume::Volume;
use hm_disk::Disk;
use hm_key::{DIRECTORY_ENTRY, Element, FILE_BYTES, INODE, PFS_RECORD, SOFTLINK_TARGET};
use hm_node::Leaf;
use hm_records::{decode_inode, decode_pfs, entry_parts};
use hm_types::{BAD_PAYLOAD, Fault, MOST_TARGET_BYTES, NoMemory, name_hash};
use std::alloc::Global;

// The size of the largest payload that is read, the record of a pseudo file system, in bytes.
const MOST_PAYLOAD_BYTES: u32 = 65_568;

/// Checks the payload of each element of a leaf, in their order.
pub(crate) fn check_payloads<D: Disk>(
    disk: &mut D,
    volume: &Volume,
    buffer: &mut [u8],
    leaf: &Leaf,
) -> Result<(), Fault>
    requires space { IfSome (D.told disk.old) (HasSpace volume.now.bigblocks) }
    requires len { length buffer.old ≡ MOST_CALL_BYTES }
    requires placed { All IsPlaced leaf.now.places.items }
    ensures ok { OnOk result (IfSome (D.told disk.old) (λ t.
        AllByRecursion (HasPayload t.bytes volume.now.bigblocks) leaf.now.places.items)) }
    ensures damage { IfSome (D.told disk.old) (λ t. IfErr result
        (Tells (IsFirstBadPayload t.bytes volume.now.bigblocks leaf.now.places.items))) }
    ensures same { D.told disk.new ≡ D.told disk.old }
    ensures crashes { D.past disk.new ≡ D.past disk.old }
    ensures cause { HasFaultCause (D.faults disk.old) (D.faults disk.new) result }
{
    for i in 0..leaf.places.len() {
        let element = &leaf.places[i];
        if !is_payload(disk, volume, buffer, element)? {
            return Err(Fault::Damaged {
                at: element.payload,
                kind: BAD_PAYLOAD,
            });
        }
    }
    Ok(())
}

// Whether an element's payload keeps the grammar of its type, and the key of a directory entry fits its
// name. What the length alone tells is not read: any bytes may be those of a file or of a target.
fn is_payload<D: Disk>(
    disk: &mut D,
    volume: &Volume,
    buffer: &mut [u8],
    element: &Element,
) -> Result<bool, Fault>
    requires space { IfSome (D.told disk.old) (HasSpace volume.now.bigblocks) }
    requires len { length buffer.old ≡ MOST_CALL_BYTES }
    requires placed { IsPlaced element.now }
    ensures ok { IfOk result (λ is. IfSome (D.told disk.old) (λ t.
        IsTrue is ↔ HasPayload t.bytes volume.now.bigblocks element.now)) }
    ensures same { D.told disk.new ≡ D.told disk.old }
    ensures crashes { D.past disk.new ≡ D.past disk.old }
    ensures cause { HasDiskCause (D.faults disk.old) (D.faults disk.new) result }
{
    match element.base.rec_type {
        FILE_BYTES => Ok(true),
        SOFTLINK_TARGET => Ok(1 <= element.len && element.len <= MOST_TARGET_BYTES as u32),
        INODE | DIRECTORY_ENTRY | PFS_RECORD => is_read(disk, volume, buffer, element),
        _ => Ok(false),
    }
}

// Whether an element's payload is read, and is then one of its type.
fn is_read<D: Disk>(
    disk: &mut D,
    volume: &Volume,
    buffer: &mut [u8],
    element: &Element,
) -> Result<bool, Fault>
    requires space { IfSome (D.told disk.old) (HasSpace volume.now.bigblocks) }
    requires len { length buffer.old ≡ MOST_CALL_BYTES }
    requires read { IsOfRead element.now.base.rec_type }
    ensures ok { IfOk result (λ is. IfSome (D.told disk.old) (λ t.
        IsTrue is ↔ HasPayload t.bytes volume.now.bigblocks element.now)) }
    ensures same { D.told disk.new ≡ D.told disk.old }
    ensures crashes { D.past disk.new ≡ D.past disk.old }
    ensures cause { HasDiskCause (D.faults disk.old) (D.faults disk.new) result }
{
    if element.len > MOST_PAYLOAD_BYTES {
        return Ok(false);
    }
    let bytes = &mut buffer[..element.len as usize];
    volume.read(disk, element.payload.byte(), bytes)?;
    Ok(is_spelled(volume.alloc, element, bytes)?)
}

// Whether bytes spell a payload of the element.
fn is_spelled(alloc: Global, element: &Element, bytes: &[u8]) -> Result<bool, NoMemory>
    requires { IsOfRead element.now.base.rec_type }
    ensures { IfOk result (λ is. IsTrue is ↔ IsPayloadOf element.now bytes.now) }
{
    let rec_type = element.base.rec_type;
    if rec_type == INODE {
        return Ok(is_inode(element, bytes));
    }
    if rec_type == PFS_RECORD {
        return is_record(alloc, element, bytes);
    }
    Ok(is_entry(element.base.key, bytes))
}

// Whether bytes spell an inode.
fn is_inode(element: &Element, bytes: &[u8]) -> bool
    ensures { IsTrue result ↔ SpellsInode bytes.now }
{
    decode_inode(element.payload, bytes).is_ok()
}

// Whether bytes spell the record of a pseudo file system.
fn is_record(alloc: Global, element: &Element, bytes: &[u8]) -> Result<bool, NoMemory>
    ensures { IfOk result (λ is. IsTrue is ↔ SpellsPfs bytes.now) }
{
    match decode_pfs(alloc, element.payload, bytes) {
        Ok(_) => Ok(true),
        Err(Fault::NoMemory) => Err(NoMemory),
        Err(_) => Ok(false),
    }
}

// Whether bytes spell a directory entry, and this key fits its name.
fn is_entry(key: u64, bytes: &[u8]) -> bool
    ensures { IsTrue result ↔ IsEntryAt key bytes.now }
{
    match entry_parts(bytes) {
        None => false,
        Some((_, name)) => key / 65_536 == name_hash(name) / 2 / 65_536,
    }
}
