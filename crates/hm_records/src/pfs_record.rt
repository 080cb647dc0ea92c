// The records of pseudo file systems.
ghost use Rattle.std.specs.Prelude.{◌≡◌, ◌↔◌, ◌^◌, ◌%◌, ◌++◌, ◌<◌, length};
ghost use Rattle.std.specs.Prelude.{IfOk, IfErr, IfSome, IsTrue, OnOk};
ghost use Rattle.hm_retain.specs.Intervals.{numbers_of};
ghost use Rattle.hm_records.specs.Faults.{IsReadFault, Reads};
ghost use Rattle.hm_records.specs.PfsRecord.{AreIds, FitsRole, IsPfsRecord, IsPfsSize, role_of};
ghost use Rattle.hm_records.specs.PfsRecord.{head_bytes, interval_bytes, intervals_bytes, pfs_bytes};

use crate::fault::bad_payload;
use byteorder::{ByteOrder, LittleEndian};
use hm_retain::Retention;
use hm_types::{Fault, HOff, Id, MOST_INTERVALS, NoMemory};
use std::alloc::Global;

/// The kind of a master, in the first byte of its record.
const MASTER: u8 = 1;

/// The kind of a slave.
const SLAVE: u8 = 2;

/// The size of a record without its intervals, in bytes.
const HEAD_BYTES: usize = 32;

/// The size of an interval, in bytes.
const INTERVAL_BYTES: usize = 16;

/// The id that ends an interval without an end.
const OPEN_END: Id = Id(u64::MAX);

/// What is known of a pseudo file system as a whole.
#[derive(Debug, Drop)]
pub struct PfsRecord {
    /// Whether it is a master; else it is a slave.
    pub master: bool,
    /// The number that a master and its slaves share.
    pub shared: u64,
    /// The id up to which a slave has its master's trees; 0 for a master.
    pub sync_end: Id,
    /// The ids that it keeps. A master's last interval has an open end, and no slave's has.
    pub retention: Retention,
}

/// The payload of a record, 32 bytes and 16 for each interval, which are 65,568 at most.
/// `decode_pfs` gives back a record that may be in a volume. `NoMemory` where an allocation was
/// refused.
pub fn encode_pfs(alloc: Global, value: &PfsRecord) -> Result<Vec<u8>, NoMemory>
    ensures { IfOk result (λ bytes. bytes.items ≡ pfs_bytes value.now) }
{
    let pairs = value.retention.pairs();
    let mut bytes = Vec::with_capacity(alloc, HEAD_BYTES + INTERVAL_BYTES * pairs.len())?;
    bytes.extend_from_slice(&head_of(value))?;
    for pair in pairs {
        put_interval(&mut bytes, pair)?;
    }
    Ok(bytes)
}

/// The record that a payload spells. `Damaged` at the payload's offset `at`, of kind 6, where it
/// spells none, and `NoMemory` where an allocation was refused.
pub fn decode_pfs(alloc: Global, at: HOff, bytes: &[u8]) -> Result<PfsRecord, Fault>
    // What is read is spelled so.
    ensures ok { IfOk result (λ r. IsPfsRecord r × (bytes.now ≡ pfs_bytes r)) }
    // What is spelled so is read.
    ensures only { (r : PfsRecord) → IsPfsRecord r → bytes.now ≡ pfs_bytes r → Reads r result }
    // All else is damage of the payload.
    ensures err { IfErr result (IsReadFault at) }
{
    spelled_by(alloc, bytes)?.ok_or(bad_payload(at))
}

// The record that these bytes spell, if there is one.
fn spelled_by(alloc: Global, bytes: &[u8]) -> Result<Option<PfsRecord>, NoMemory>
    ensures some { IfOk result (λ found.
        IfSome found (λ r. IsPfsRecord r × (bytes.now ≡ pfs_bytes r))) }
    ensures only { (r : PfsRecord) → IsPfsRecord r → bytes.now ≡ pfs_bytes r →
        IfOk result (λ found. found ≡ Some r) }
{
    if !is_size(bytes.len()) {
        return Ok(None);
    }
    let (head, rest) = bytes.split_at(HEAD_BYTES);
    let list = intervals_in(alloc, rest)?;
    let Some(retention) = Retention::of(list) else {
        return Ok(None);
    };
    let record = numbers_in(head, retention);
    if spells(head, &record) {
        Ok(Some(record))
    } else {
        Ok(None)
    }
}

// Whether a record may have this size, in bytes.
fn is_size(size: usize) -> bool
    ensures { IsTrue result ↔ IsPfsSize size }
{
    HEAD_BYTES <= size
        && size <= HEAD_BYTES + INTERVAL_BYTES * MOST_INTERVALS
        && size % INTERVAL_BYTES == 0
}

// The numbers that stand where a record has them, with its intervals.
fn numbers_in(head: &[u8], retention: Retention) -> PfsRecord
    requires { length head.now ≡ HEAD_BYTES }
    ensures kept { result.retention ≡ retention }
    ensures fits { (result.shared < 2 ^ 64) × (result.sync_end.0 < 2 ^ 64) }
    ensures only { (r : PfsRecord) → IsPfsRecord r → r.retention ≡ retention →
        head.now ≡ head_bytes r → result ≡ r }
{
    PfsRecord {
        master: head[0] == MASTER,
        shared: LittleEndian::read_u64(&head[8..16]),
        sync_end: Id(LittleEndian::read_u64(&head[16..24])),
        retention,
    }
}

// Whether a record fits its role, and these bytes are its spelling without its intervals: so that
// its number of intervals is right, and each part that must be zero is.
fn spells(head: &[u8], r: &PfsRecord) -> bool
    ensures { IsTrue result ↔ (FitsRole r.now.master r.now.sync_end.0 r.now.retention
        × (head.now ≡ head_bytes r.now)) }
{
    fits_role(r.master, r.sync_end, &r.retention) && head == head_of(r).as_slice()
}

// Whether a master, or else a slave, may have this sync end and keep these ids.
fn fits_role(master: bool, sync_end: Id, retention: &Retention) -> bool
    ensures { IsTrue result ↔ FitsRole master sync_end.0 retention.now }
{
    let is_open = retention.keeps(OPEN_END);
    if master {
        is_open && sync_end.0 == 0
    } else {
        !is_open
    }
}

// The spelling of a record without its intervals.
fn head_of(r: &PfsRecord) -> [u8; HEAD_BYTES]
    ensures { result ≡ head_bytes r.now }
{
    let mut head = [0; HEAD_BYTES];
    head[0] = role_of(r.master);
    LittleEndian::write_u64(&mut head[8..16], r.shared);
    LittleEndian::write_u64(&mut head[16..24], r.sync_end.0);
    LittleEndian::write_u32(&mut head[24..28], r.retention.pairs().len() as u32);
    head
}

fn role_of(master: bool) -> u8
    ensures { result ≡ role_of master }
{
    if master { MASTER } else { SLAVE }
}

fn put_interval(bytes: &mut Vec<u8>, interval: &(Id, Id)) -> Result<(), NoMemory>
    ensures { OnOk result (bytes.new.items
        ≡ bytes.old.items ++ interval_bytes (interval.now.0.0, interval.now.1.0)) }
{
    bytes.extend_from_slice(&interval.0.0.to_le_bytes())?;
    bytes.extend_from_slice(&interval.1.0.to_le_bytes())?;
    Ok(())
}

// The intervals that these bytes spell, one after the other.
fn intervals_in(alloc: Global, bytes: &[u8]) -> Result<Vec<(Id, Id)>, NoMemory>
    requires { length bytes.now % INTERVAL_BYTES ≡ 0 }
    ensures ids { IfOk result (λ list. AreIds (numbers_of list.items)) }
    ensures spelled { IfOk result (λ list. bytes.now ≡ intervals_bytes (numbers_of list.items)) }
{
    let mut list = Vec::with_capacity(alloc, bytes.len() / INTERVAL_BYTES)?;
    let mut rest = bytes;
    while !rest.is_empty() {
        let (interval, more) = rest.split_at(INTERVAL_BYTES);
        list.push(interval_in(interval))?;
        rest = more;
    }
    Ok(list)
}

// The interval that these bytes spell.
fn interval_in(bytes: &[u8]) -> (Id, Id)
    requires { length bytes.now ≡ INTERVAL_BYTES }
    ensures ids { (result.0.0 < 2 ^ 64) × (result.1.0 < 2 ^ 64) }
    ensures spelled { bytes.now ≡ interval_bytes (result.0.0, result.1.0) }
{
    let (first, last) = bytes.split_at(8);
    let first = LittleEndian::read_u64(first);
    let last = LittleEndian::read_u64(last);
    (Id(first), Id(last))
}
