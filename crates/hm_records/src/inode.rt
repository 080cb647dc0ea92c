// Inodes.
ghost use Rattle.std.specs.Prelude.{◌≡◌, ◌↔◌, length, IfOk, IfErr, IfSome, IsTrue, Some};
ghost use Rattle.hm_records.specs.Faults.{IsBadPayload};
ghost use Rattle.hm_records.specs.Inode.{IsInode, IsSizeOf, inode_bytes};

use crate::fault::bad_payload;
use crate::kind::{DIRECTORY, FILE, PFS_LINK, SOFTLINK};
use byteorder::{ByteOrder, LittleEndian};
use hm_types::{Fault, HOff, MOST_TARGET_BYTES, NoMemory, Pfs};
use std::alloc::Global;

/// The size of an inode's payload, in bytes.
const INODE_BYTES: usize = 32;

/// What is known of an object beside its names and its content.
#[derive(Clone, Copy, Debug, PartialEq, Eq)]
pub struct Inode {
    /// 1 a directory, 2 a file, 3 a softlink, 4 a PFS link.
    pub kind: u8,
    /// A file's length or that of a softlink's target, in bytes; 0 for the other kinds.
    pub size: u64,
    /// How many names the object has.
    pub links: u32,
    /// The pseudo file system that a PFS link leads to; 0 for the other kinds.
    pub pfs: Pfs,
}

/// The payload of an inode, 32 bytes. `decode_inode` gives back an inode that may be in a volume.
pub fn encode_inode(alloc: Global, value: &Inode) -> Result<Vec<u8>, NoMemory>
    ensures { IfOk result (λ bytes. bytes.items ≡ inode_bytes value.now) }
{
    Ok(Vec::from_slice(alloc, &bytes_of(value))?)
}

/// The inode that a payload spells. `Damaged` at the payload's offset `at`, of kind 6, where it
/// spells none. Takes no memory.
pub fn decode_inode(at: HOff, bytes: &[u8]) -> Result<Inode, Fault>
    // What is read is spelled so.
    ensures ok { IfOk result (λ inode. IsInode inode × (bytes.now ≡ inode_bytes inode)) }
    // What is spelled so is read.
    ensures only { (inode : Inode) → IsInode inode → bytes.now ≡ inode_bytes inode →
        result ≡ Ok inode }
    // All else is damage of the payload.
    ensures err { IfErr result (IsBadPayload at) }
{
    spelled_by(bytes).ok_or(bad_payload(at))
}

// The inode that these bytes spell, if there is one.
fn spelled_by(bytes: &[u8]) -> Option<Inode>
    ensures some { IfSome result (λ inode. IsInode inode × (bytes.now ≡ inode_bytes inode)) }
    ensures only { (inode : Inode) → IsInode inode → bytes.now ≡ inode_bytes inode →
        result ≡ Some inode }
{
    if bytes.len() != INODE_BYTES {
        return None;
    }
    let inode = numbers_in(bytes);
    if spells(bytes, &inode) {
        Some(inode)
    } else {
        None
    }
}

// The numbers that stand where an inode has them.
fn numbers_in(bytes: &[u8]) -> Inode
    requires { length bytes.now ≡ INODE_BYTES }
    ensures { (inode : Inode) → IsInode inode → bytes.now ≡ inode_bytes inode → result ≡ inode }
{
    Inode {
        kind: bytes[0],
        size: LittleEndian::read_u64(&bytes[8..16]),
        links: LittleEndian::read_u32(&bytes[16..20]),
        pfs: Pfs(LittleEndian::read_u16(&bytes[20..22])),
    }
}

// Whether an inode is in range, and these bytes are its spelling: so that each part that must be
// zero is.
fn spells(bytes: &[u8], inode: &Inode) -> bool
    ensures { IsTrue result ↔ (IsInode inode.now × (bytes.now ≡ inode_bytes inode.now)) }
{
    is_inode(inode) && bytes == bytes_of(inode).as_slice()
}

// Whether an inode may be in a volume: its kind is known, and its size and its PFS number are in
// the range of its kind.
fn is_inode(inode: &Inode) -> bool
    ensures { IsTrue result ↔ IsInode inode.now }
{
    let inode = *inode;
    is_size_of(inode.kind, inode.size) && (inode.kind == PFS_LINK || inode.pfs.0 == 0)
}

// Whether the kind is known, and an object of it may have this size.
fn is_size_of(kind: u8, size: u64) -> bool
    ensures { IsTrue result ↔ IsSizeOf kind size }
{
    match kind {
        DIRECTORY | PFS_LINK => size == 0,
        FILE => true,
        SOFTLINK => 1 <= size && size <= MOST_TARGET_BYTES as u64,
        _ => false,
    }
}

// The spelling of an inode.
fn bytes_of(inode: &Inode) -> [u8; INODE_BYTES]
    ensures { result ≡ inode_bytes inode.now }
{
    let mut bytes = [0; INODE_BYTES];
    bytes[0] = inode.kind;
    LittleEndian::write_u64(&mut bytes[8..16], inode.size);
    LittleEndian::write_u32(&mut bytes[16..20], inode.links);
    LittleEndian::write_u16(&mut bytes[20..22], inode.pfs.0);
    bytes
}
