// Payloads that were written by hand from the rules, and what each damage of one is told as.
use hm_records::{
    DIRECTORY, DirEntry, FILE, Inode, PFS_LINK, PfsRecord, SOFTLINK, decode_entry, decode_inode,
    decode_pfs, decode_target, encode_entry, encode_inode, encode_pfs, encode_target,
};
use hm_retain::Retention;
use hm_types::{BAD_PAYLOAD, Fault, HOff, Id, META_ZONE, Name, Obj, Pfs, Text};
use std::alloc::{AllocError, Global};
use std::test::Fail;

const OPEN: u64 = u64::MAX;

const BIG_DIRECTORY: [u8; 32] = [
    0x01, 0, 0, 0, 0, 0, 0, 0, // kind, zeros
    0, 0, 0, 0, 0, 0, 0, 0, // size
    0xFF, 0xFF, 0xFF, 0xFF, 0, 0, // links, PFS number
    0, 0, 0, 0, 0, 0, 0, 0, 0, 0,
];

const BIG_FILE: [u8; 32] = [
    0x02, 0, 0, 0, 0, 0, 0, 0, //
    0x08, 0x07, 0x06, 0x05, 0x04, 0x03, 0x02, 0x01, //
    0x0D, 0x0C, 0x0B, 0x0A, 0, 0, //
    0, 0, 0, 0, 0, 0, 0, 0, 0, 0,
];

const LONG_LINK: [u8; 32] = [
    0x03, 0, 0, 0, 0, 0, 0, 0, //
    0xFF, 0x03, 0, 0, 0, 0, 0, 0, //
    0x01, 0, 0, 0, 0, 0, //
    0, 0, 0, 0, 0, 0, 0, 0, 0, 0,
];

const LINK_TO_PFS: [u8; 32] = [
    0x04, 0, 0, 0, 0, 0, 0, 0, //
    0, 0, 0, 0, 0, 0, 0, 0, //
    0x01, 0, 0, 0, 0x34, 0x12, //
    0, 0, 0, 0, 0, 0, 0, 0, 0, 0,
];

// One of the four inodes.
fn inode_of(kind: u8) -> [u8; 32] {
    match kind {
        DIRECTORY => BIG_DIRECTORY,
        FILE => BIG_FILE,
        SOFTLINK => LONG_LINK,
        _ => LINK_TO_PFS,
    }
}

// The record of PFS 0 on a fresh volume.
const FRESH_MASTER: [u8; 48] = [
    0x01, 0, 0, 0, 0, 0, 0, 0, // kind, zeros
    0, 0, 0, 0, 0, 0, 0, 0, // shared number
    0, 0, 0, 0, 0, 0, 0, 0, // sync end
    0x01, 0, 0, 0, 0, 0, 0, 0, // number of intervals, zeros
    0x01, 0, 0, 0, 0, 0, 0, 0, // first and last id
    0xFF, 0xFF, 0xFF, 0xFF, 0xFF, 0xFF, 0xFF, 0xFF,
];

// A slave that keeps ids 0 and 2 to 0x0203, in two intervals.
const SLAVE_OF_TWO: [u8; 64] = [
    0x02, 0, 0, 0, 0, 0, 0, 0, //
    0x18, 0x17, 0x16, 0x15, 0x14, 0x13, 0x12, 0x11, //
    0x28, 0x27, 0x26, 0x25, 0x24, 0x23, 0x22, 0x21, //
    0x02, 0, 0, 0, 0, 0, 0, 0, //
    0, 0, 0, 0, 0, 0, 0, 0, //
    0, 0, 0, 0, 0, 0, 0, 0, //
    0x02, 0, 0, 0, 0, 0, 0, 0, //
    0x03, 0x02, 0, 0, 0, 0, 0, 0,
];

// Where the payloads stand: in zone 9.
fn place() -> HOff {
    HOff::make(META_ZONE, 100_663_296).unwrap_or_default()
}

fn damaged() -> Fault {
    Fault::Damaged {
        at: place(),
        kind: BAD_PAYLOAD,
    }
}

// The bytes with some of them changed, from a place on.
fn patched(alloc: Global, bytes: &[u8], at: usize, change: &[u8]) -> Result<Vec<u8>, Fail> {
    let mut patched = Vec::from_slice(alloc, bytes)?;
    patched
        .as_mut_slice()
        .get_mut(at..at.saturating_add(change.len()))
        .ok_or("a change outside the bytes")?
        .copy_from_slice(change);
    Ok(patched)
}

// The first bytes of some.
fn front(bytes: &[u8], len: usize) -> Result<&[u8], Fail> {
    Ok(bytes.get(..len).ok_or("too few bytes")?)
}

fn repeated(alloc: Global, byte: u8, count: usize) -> Result<Vec<u8>, AllocError> {
    let mut bytes = Vec::new(alloc);
    for _ in 0..count {
        bytes.push(byte)?;
    }
    Ok(bytes)
}

#[test]
fn inodes_are_written_and_read_as_laid_out(rt: HostRuntime) -> Result<(), Fail> {
    let alloc = rt.alloc();
    for (kind, size, links, pfs) in [
        (DIRECTORY, 0, u32::MAX, 0),
        (FILE, 0x0102_0304_0506_0708, 0x0A0B_0C0D, 0),
        (SOFTLINK, 1_023, 1, 0),
        (PFS_LINK, 0, 1, 0x1234),
    ] {
        let bytes = inode_of(kind);
        let inode = Inode {
            kind,
            size,
            links,
            pfs: Pfs(pfs),
        };
        let written = encode_inode(alloc, &inode)?;
        assert_eq!(rt; written.as_slice(), bytes.as_slice(), "{kind}");
        assert_eq!(rt; decode_inode(place(), &bytes), Ok(inode), "{kind}");
    }
    Ok(())
}

#[test]
fn damage_of_an_inode_is_told_at_its_payload(rt: HostRuntime) -> Result<(), Fail> {
    let alloc = rt.alloc();
    for (kind, at, byte) in [
        (FILE, 0, 0x00),
        (FILE, 0, 0x05),
        (FILE, 0, 0xFF),
        // A size that the kind does not have.
        (DIRECTORY, 8, 0x01),
        (DIRECTORY, 15, 0x80),
        (PFS_LINK, 8, 0x01),
        (PFS_LINK, 15, 0x80),
        (SOFTLINK, 9, 0x04),
        (SOFTLINK, 15, 0x01),
        // A PFS number without a PFS link.
        (DIRECTORY, 20, 0x01),
        (FILE, 21, 0x01),
        (SOFTLINK, 20, 0x01),
        // The kind of another object's size or PFS number.
        (PFS_LINK, 0, DIRECTORY),
        (SOFTLINK, 0, PFS_LINK),
    ] {
        let bytes = patched(alloc, &inode_of(kind), at, &[byte])?;
        let read = decode_inode(place(), &bytes);
        assert_eq!(rt; read, Err(damaged()), "{kind} {at} {byte}");
    }
    for (size, want) in [(0, false), (1, true), (1_023, true), (1_024, false)] {
        let size: u64 = size;
        let bytes = patched(alloc, &LONG_LINK, 8, &size.to_le_bytes())?;
        let read = decode_inode(place(), &bytes);
        assert_eq!(rt; read.is_ok(), want, "{size}");
    }
    // Zeros are looked at.
    for at in [1, 2, 3, 4, 5, 6, 7, 22, 23, 24, 25, 26, 27, 28, 29, 30, 31] {
        for byte in [0x01, 0x80] {
            let bytes = patched(alloc, &LINK_TO_PFS, at, &[byte])?;
            assert_eq!(rt; decode_inode(place(), &bytes), Err(damaged()), "{at}");
        }
    }
    // Another length is damage.
    let bytes = patched(alloc, &[0; 64], 0, &BIG_FILE)?;
    for len in [0, 1, 8, 16, 31, 33, 64] {
        let read = decode_inode(place(), front(&bytes, len)?);
        assert_eq!(rt; read, Err(damaged()), "{len}");
    }
    Ok(())
}

#[test]
fn entries_are_written_and_read_as_laid_out(rt: HostRuntime) -> Result<(), Fail> {
    let alloc = rt.alloc();
    let longest = repeated(alloc, b'n', 255)?;
    for name in [b"a".as_slice(), b"\xC3\xA9.txt".as_slice(), &longest] {
        let mut bytes = Vec::from_slice(alloc, &[0x08, 0x07, 0x06, 0x05, 0x04, 0x03, 0x02, 0x01])?;
        bytes.extend_from_slice(name)?;
        let entry = DirEntry {
            obj: Obj(0x0102_0304_0506_0708),
            name: Name::of(Vec::from_slice(alloc, name)?),
        };
        let written = encode_entry(alloc, &entry)?;
        assert_eq!(rt; written.as_slice(), bytes.as_slice());
        let read = decode_entry(alloc, place(), &bytes);
        assert_eq!(rt; read, Ok(entry));
    }
    Ok(())
}

#[test]
fn damage_of_an_entry_is_told_at_its_payload(rt: HostRuntime) -> Result<(), Fail> {
    let alloc = rt.alloc();
    let too_long = repeated(alloc, b'n', 256)?;
    for name in [
        b"".as_slice(),
        &too_long,
        b"a/b",
        b"a b",
        b"a\x7F",
        b"\x00",
        b"a\x1F",
        b".",
        b"..",
        b"a@@b",
    ] {
        let mut bytes = repeated(alloc, 0x01, 8)?;
        bytes.extend_from_slice(name)?;
        let read = decode_entry(alloc, place(), &bytes);
        assert_eq!(rt; read, Err(damaged()), "{name:?}");
    }
    // A part of an object's number.
    for len in [0, 1, 4, 7] {
        let bytes = repeated(alloc, b'n', len)?;
        let read = decode_entry(alloc, place(), &bytes);
        assert_eq!(rt; read, Err(damaged()), "{len}");
    }
    Ok(())
}

#[test]
fn targets_are_their_own_bytes(rt: HostRuntime) -> Result<(), Fail> {
    let alloc = rt.alloc();
    for (byte, len, want) in [
        (b'/', 0, false),
        (b'/', 1, true),
        (0x00, 1, true),
        (0xFF, 2, true),
        (b'@', 1_023, true),
        (b'@', 1_024, false),
    ] {
        let bytes = repeated(alloc, byte, len)?;
        let read = decode_target(alloc, place(), &bytes);
        if want {
            let target = Text::of(bytes);
            let written = encode_target(alloc, &target)?;
            assert_eq!(rt; written.as_slice(), target.bytes(), "{len}");
            assert_eq!(rt; read, Ok(target), "{len}");
        } else {
            assert_eq!(rt; read, Err(damaged()), "{len}");
        }
    }
    Ok(())
}

fn retention(alloc: Global, numbers: &[(u64, u64)]) -> Result<Retention, Fail> {
    let mut list = Vec::new(alloc);
    for &(first, last) in numbers {
        list.push((Id(first), Id(last)))?;
    }
    Ok(Retention::of(list).ok_or("no retention")?)
}

// A record with shared number 0 and these numbers, whatever they are.
fn record_of(
    alloc: Global,
    kind: u8,
    sync_end: u64,
    count: u32,
    numbers: &[(u64, u64)],
) -> Result<Vec<u8>, AllocError> {
    let mut bytes = Vec::from_slice(alloc, &[kind])?;
    bytes.extend_from_slice(&[0; 15])?;
    bytes.extend_from_slice(&sync_end.to_le_bytes())?;
    bytes.extend_from_slice(&u64::from(count).to_le_bytes())?;
    for &(first, last) in numbers {
        bytes.extend_from_slice(&first.to_le_bytes())?;
        bytes.extend_from_slice(&last.to_le_bytes())?;
    }
    Ok(bytes)
}

// The intervals that hold one even id each.
fn even_pairs(alloc: Global, count: u32) -> Result<Vec<(u64, u64)>, AllocError> {
    let mut pairs = Vec::new(alloc);
    for index in 0..count {
        let id = 2 * u64::from(index);
        pairs.push((id, id)).map_err(AllocError::from)?;
    }
    Ok(pairs)
}

// What the two spellings by hand are.
fn record_is(
    record: &PfsRecord,
    master: bool,
    shared: u64,
    sync_end: u64,
    numbers: &[(u64, u64)],
) -> bool {
    let pairs = record.retention.pairs();
    record.master == master
        && record.shared == shared
        && record.sync_end == Id(sync_end)
        && pairs.len() == numbers.len()
        && pairs.iter().zip(numbers).all(|(pair, number)| pair.0.0 == number.0
            && pair.1.0 == number.1)
}

#[test]
fn records_are_written_and_read_as_laid_out(rt: HostRuntime) -> Result<(), Fail> {
    let alloc = rt.alloc();
    let none = patched(alloc, &[0; 32], 0, &[0x02])?;
    let rows: [(&[u8], bool, u64, u64, &[(u64, u64)]); 3] = [
        (&FRESH_MASTER, true, 0, 0, &[(1, OPEN)]),
        (
            &SLAVE_OF_TWO,
            false,
            0x1112_1314_1516_1718,
            0x2122_2324_2526_2728,
            &[(0, 0), (2, 0x0203)],
        ),
        (&none, false, 0, 0, &[]),
    ];
    for (bytes, master, shared, sync_end, numbers) in rows {
        let record = PfsRecord {
            master,
            shared,
            sync_end: Id(sync_end),
            retention: retention(alloc, numbers)?,
        };
        let written = encode_pfs(alloc, &record)?;
        assert_eq!(rt; written.as_slice(), bytes, "{shared}");
        let read = decode_pfs(alloc, place(), bytes).ok().ok_or("a record")?;
        assert!(rt;
            record_is(&read, master, shared, sync_end, numbers),
            "{shared}"
        );
    }
    Ok(())
}

#[test]
fn damage_of_a_record_is_told_at_its_payload(rt: HostRuntime) -> Result<(), Fail> {
    let alloc = rt.alloc();
    let rows: [(u8, u64, u32, &[(u64, u64)], bool); 23] = [
        (1, 0, 1, &[(1, OPEN)], true),
        (1, 0, 2, &[(0, 0), (2, OPEN)], true),
        (2, 9, 2, &[(0, 0), (2, 9)], true),
        (2, OPEN, 1, &[(9, OPEN - 1)], true),
        (0, 0, 1, &[(1, OPEN)], false),
        (3, 0, 1, &[(1, 9)], false),
        // A master with a sync end, with no open end, with no interval; a slave with an open end.
        (1, 1, 1, &[(1, OPEN)], false),
        (1, 0, 1, &[(1, 9)], false),
        (1, 0, 1, &[(1, OPEN - 1)], false),
        (1, 0, 0, &[], false),
        (2, 9, 1, &[(1, OPEN)], false),
        (2, 9, 2, &[(1, 3), (5, OPEN)], false),
        // Intervals that are adjacent, that meet, that fall, that end before they begin.
        (2, 9, 2, &[(1, 3), (4, 9)], false),
        (2, 9, 2, &[(1, 3), (3, 9)], false),
        (2, 9, 2, &[(1, 3), (2, 9)], false),
        (2, 9, 2, &[(5, 9), (1, 3)], false),
        (2, 9, 1, &[(3, 2)], false),
        (1, 0, 2, &[(1, OPEN), (3, OPEN)], false),
        // Numbers of intervals that are not theirs.
        (2, 9, 0, &[(1, 3)], false),
        (2, 9, 2, &[(1, 3)], false),
        (2, 9, 1, &[(1, 3), (5, 9)], false),
        (2, 9, 0x0100_0001, &[(1, 3)], false),
        (2, 9, u32::MAX, &[], false),
    ];
    for (kind, sync_end, count, numbers, want) in rows {
        let bytes = record_of(alloc, kind, sync_end, count, numbers)?;
        let fault = decode_pfs(alloc, place(), &bytes).err();
        let wanted = (!want).then_some(damaged());
        assert_eq!(rt; fault, wanted, "{kind} {sync_end} {count} {numbers:?}");
    }
    // Zeros are looked at.
    for at in [1, 2, 3, 4, 5, 6, 7, 28, 29, 30, 31] {
        for byte in [0x01, 0x80] {
            let bytes = patched(alloc, &FRESH_MASTER, at, &[byte])?;
            let fault = decode_pfs(alloc, place(), &bytes).err();
            assert_eq!(rt; fault, Some(damaged()), "{at}");
        }
    }
    // Another length is damage.
    let bytes = patched(alloc, &[0; 96], 0, &SLAVE_OF_TWO)?;
    for len in [0, 1, 16, 31, 32, 33, 48, 63, 65, 72, 80, 96] {
        let fault = decode_pfs(alloc, place(), front(&bytes, len)?).err();
        assert_eq!(rt; fault, Some(damaged()), "{len}");
    }
    // 4,096 intervals are the most.
    for (count, want) in [(4_096, None), (4_097, Some(damaged()))] {
        let pairs = even_pairs(alloc, count)?;
        let bytes = record_of(alloc, 2, 0, count, &pairs)?;
        let fault = decode_pfs(alloc, place(), &bytes).err();
        assert_eq!(rt; fault, want, "{count}");
    }
    Ok(())
}
