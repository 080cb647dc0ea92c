// Directory entries.
ghost use Rattle.std.specs.Prelude.{◌≡◌, IfOk, IfErr, IfSome, IsSomeAnd};
ghost use Rattle.hm_records.specs.Entry.{IsEntry, IsSpelled, entry_bytes};
ghost use Rattle.hm_records.specs.Faults.{IsReadFault, Reads};

use crate::fault::bad_payload;
use byteorder::{ByteOrder, LittleEndian};
use hm_types::{Fault, HOff, Name, NoMemory, Obj, is_name};
use std::alloc::Global;

/// The size of an object's number, in bytes.
const OBJ_BYTES: usize = 8;

/// An entry of a directory: an object, and the name that it has there.
#[derive(Debug, PartialEq, Drop)]
pub struct DirEntry {
    pub obj: Obj,
    pub name: Name,
}

/// The payload of an entry, 8 bytes and those of the name. `decode_entry` gives back an entry whose
/// name may be one. `NoMemory` where an allocation was refused.
pub fn encode_entry(alloc: Global, value: &DirEntry) -> Result<Vec<u8>, NoMemory>
    ensures { IfOk result (λ bytes. bytes.items ≡ entry_bytes value.now) }
{
    let name = value.name.bytes();
    let mut bytes = Vec::with_capacity(alloc, OBJ_BYTES.saturating_add(name.len()))?;
    bytes.extend_from_slice(&value.obj.0.to_le_bytes())?;
    bytes.extend_from_slice(name)?;
    Ok(bytes)
}

/// The entry that a payload spells. `Damaged` at the payload's offset `at`, of kind 6, where it
/// spells none, and `NoMemory` where an allocation was refused.
pub fn decode_entry(alloc: Global, at: HOff, bytes: &[u8]) -> Result<DirEntry, Fault>
    // What is read is spelled so.
    ensures ok { IfOk result (λ entry. IsEntry entry × (bytes.now ≡ entry_bytes entry)) }
    // What is spelled so is read.
    ensures only { (entry : DirEntry) → IsEntry entry → bytes.now ≡ entry_bytes entry →
        Reads entry result }
    // All else is damage of the payload.
    ensures err { IfErr result (IsReadFault at) }
{
    let Some((obj, name)) = entry_parts(bytes) else {
        return Err(bad_payload(at));
    };
    Ok(DirEntry {
        obj,
        name: Name::of(Vec::from_slice(alloc, name)?),
    })
}

/// The object and the name of the entry that a payload spells, and None where it spells none. Takes
/// no memory.
pub fn entry_parts(bytes: &[u8]) -> Option<(Obj, &[u8])>
    // What is read is spelled so.
    ensures some { IfSome result (λ parts. IsSpelled bytes.now parts.0 parts.1.now) }
    // What is spelled so is read.
    ensures only { (entry : DirEntry) → IsEntry entry → bytes.now ≡ entry_bytes entry →
        IsSomeAnd result (λ parts. (parts.0 ≡ entry.obj) × (parts.1.now ≡ entry.name)) }
{
    if bytes.len() < OBJ_BYTES {
        return None;
    }
    let (obj, name) = bytes.split_at(OBJ_BYTES);
    if !is_name(name) {
        return None;
    }
    Some((Obj(LittleEndian::read_u64(obj)), name))
}
