// Bytes that are read, over a store in memory whose elements are worked out by hand.
ghost use Rattle.std.specs.Prelude.{IfOk};
ghost use Rattle.hm_key.specs.Balance.{Balanced};

use crate::metered::Metered;
use crate::stores::add;
use hm_files::read_bytes;
use hm_key::{Base, ELEMENT, FILE_BYTES, HasElements, HasRoom, MemStore};
use hm_types::{Fault, Id, Obj, Pfs};
use std::alloc::Global;
use std::test::Fail;

pub(crate) const PFS: Pfs = Pfs(3);

pub(crate) const FILE: Obj = Obj(7);

// Some bytes of the file: where they end, the ids that made and closed them, one of them, and how
// many they are.
pub(crate) type Piece = (u64, u64, u64, u8, usize);

// How many bytes of one kind.
pub(crate) type Run = (usize, u8);

// The first block is written three times, the next two never, the fourth has 3 bytes, and the last
// one of the longest file is whole.
pub(crate) const PIECES: [Piece; 5] = [
    (5, 2, 4, b'a', 5),
    (16_384, 4, 9, b'b', 16_384),
    (16_384, 9, 0, b'c', 16_384),
    (49_155, 6, 0, b'd', 3),
    (15_728_640, 7, 0, b'e', 16_384),
];

// The base of the bytes of the file that end at `end`.
fn bytes_base(end: u64) -> Base {
    Base {
        obj: FILE,
        key: end,
        create: 0,
        delete: 0,
        rec_type: FILE_BYTES,
        obj_type: hm_records::FILE,
        btype: ELEMENT,
        localization: 0x0003_0002,
    }
}

// A store with these bytes of the file.
pub(crate) fn store_of(alloc: Global, pieces: &[Piece]) -> Result<MemStore, Fail>
    ensures { IfOk result (λ store. Balanced (⟦<MemStore as HasElements>⟧.elements store)
        (⟦<MemStore as HasRoom>⟧.extents store)) }
{
    let mut store = MemStore::new(alloc, 0);
    for (end, create, delete, byte, len) in pieces {
        let about = bytes_base(*end);
        let bytes = Vec::from_elem(alloc, *byte, *len)?;
        let _at = add(&mut store, &about, *create, *delete, &bytes)?;
    }
    Ok(store)
}

// All bytes of some runs.
pub(crate) fn all_of(alloc: Global, runs: &[Run]) -> Result<Vec<u8>, Fail> {
    let mut bytes = Vec::new(alloc);
    for (count, byte) in runs {
        bytes.extend_from_slice(&Vec::from_elem(alloc, *byte, *count)?)?;
    }
    Ok(bytes)
}

// Whether these are the bytes of a file of a size, from an offset on.
fn reads(
    alloc: Global,
    pieces: &[Piece],
    size: u64,
    offset: u64,
    asked: usize,
    as_of: u64,
    runs: &[Run],
) -> Result<bool, Fail> {
    let mut store = store_of(alloc, pieces)?;
    let mut buffer = Vec::from_elem(alloc, 0xEE, asked)?;
    let count = read_bytes(&mut store, PFS, FILE, size, offset, Id(as_of), &mut buffer)?;
    let want = all_of(alloc, runs)?;
    Ok(count == want.len() && buffer[..count] == want[..])
}

// Some bytes that begin where their block begins and end in it at different places, and bytes of
// which two versions are open: only a forged list has such.
const FORGED: [Piece; 4] = [
    (4, 2, 0, b'a', 4),
    (8, 3, 0, b'b', 8),
    (8, 6, 0, b'c', 8),
    (16_390, 4, 0, b'd', 6),
];

#[test]
fn bytes_are_those_of_the_version_that_counts(rt: HostRuntime) -> Result<(), Fail> {
    let none: &[Run] = &[];
    for (size, offset, asked, as_of, runs) in [
        (5, 0, 10, 2, [(5, b'a')].as_slice()),
        (5, 3, 1, 3, [(1, b'a')].as_slice()),
        (5, 5, 4, 3, none),
        (5, 6, 4, 3, none),
        (5, 0, 0, 3, none),
        (5, 0, 10, 1, [(5, 0)].as_slice()),
        (3, 0, 10, 2, [(3, b'a')].as_slice()),
        (16_384, 0, 1, 4, [(1, b'b')].as_slice()),
        (16_384, 1, 16_384, 8, [(16_383, b'b')].as_slice()),
        (16_384, 16_383, 2, 8, [(1, b'b')].as_slice()),
        (16_384, 16_383, 2, 9, [(1, b'c')].as_slice()),
        (16_384, 16_384, 2, 9, none),
        (0, 0, 2, 9, none),
        // What no call wrote is zero.
        (49_155, 16_383, 2, 9, [(1, b'c'), (1, 0)].as_slice()),
        (49_155, 16_384, 1, 9, [(1, 0)].as_slice()),
        (49_155, 49_150, 10, 9, [(2, 0), (3, b'd')].as_slice()),
        (49_155, 49_151, 2, 5, [(2, 0)].as_slice()),
        (50_000, 49_153, 5, 9, [(2, b'd'), (3, 0)].as_slice()),
        (
            49_155,
            0,
            49_155,
            9,
            [(16_384, b'c'), (32_768, 0), (3, b'd')].as_slice(),
        ),
        (15_728_640, 15_712_255, 2, 6, [(2, 0)].as_slice()),
        (15_728_640, 15_712_255, 2, 9, [(1, 0), (1, b'e')].as_slice()),
        (15_728_640, 15_728_639, 1, 9, [(1, b'e')].as_slice()),
        (15_728_640, 15_728_639, 5, u64::MAX, [(1, b'e')].as_slice()),
        (15_728_641, 15_728_639, 5, 9, [(1, b'e'), (1, 0)].as_slice()),
        (u64::MAX, u64::MAX - 1, 5, 9, [(1, 0)].as_slice()),
        (u64::MAX, 0, 2, 9, [(2, b'c')].as_slice()),
    ] {
        assert!(rt;
            reads(rt.alloc(), &PIECES, size, offset, asked, as_of, runs)?,
            "{offset} of {size} as of {as_of}"
        );
    }
    // Of the bytes of a block the last show that end within the size, and where none do the first past it.
    for (size, offset, asked, as_of, runs) in [
        (20_000, 0, 8, 2, [(4, b'a'), (4, 0)].as_slice()),
        (20_000, 0, 9, 3, [(8, b'b'), (1, 0)].as_slice()),
        (20_000, 2, 8, 5, [(6, b'b'), (2, 0)].as_slice()),
        (20_000, 3, 2, 6, [(2, b'c')].as_slice()),
        (20_000, 7, 2, 6, [(1, b'c'), (1, 0)].as_slice()),
        (20_000, 16_383, 3, 6, [(1, 0), (2, b'd')].as_slice()),
        (20_000, 16_389, 3, 6, [(1, b'd'), (2, 0)].as_slice()),
        (8, 0, 9, 6, [(8, b'c')].as_slice()),
        (7, 0, 9, 6, [(4, b'a'), (3, 0)].as_slice()),
        (4, 0, 9, 6, [(4, b'a')].as_slice()),
        (3, 0, 9, 6, [(3, b'a')].as_slice()),
        (16_386, 16_383, 9, 6, [(1, 0), (2, b'd')].as_slice()),
    ] {
        assert!(rt;
            reads(rt.alloc(), &FORGED, size, offset, asked, as_of, runs)?,
            "{offset} of {size} as of {as_of}"
        );
    }
    Ok(())
}

#[test]
fn another_file_has_its_own_bytes(rt: HostRuntime) -> Result<(), Fail> {
    for (pfs, obj, want) in [(3, 7, b'c'), (3, 6, 0), (3, 8, 0), (2, 7, 0), (4, 7, 0)] {
        let mut store = store_of(rt.alloc(), &PIECES)?;
        let mut buffer = [0xEE; 1];
        let count = read_bytes(&mut store, Pfs(pfs), Obj(obj), 9, 0, Id(9), &mut buffer)?;
        assert_eq!(rt; (count, buffer[0]), (1, want), "{obj} of {pfs}");
    }
    Ok(())
}

// How a read of two bytes comes out where no more than so many searches and reads are made.
fn limited(alloc: Global, left: u64, offset: u64) -> Result<Result<usize, Fault>, Fail> {
    let store = store_of(alloc, &PIECES)?;
    let mut limited = Metered::limited(store, left);
    let mut buffer = [0xEE; 2];
    Ok(read_bytes(&mut limited, PFS, FILE, 49_155, offset, Id(9), &mut buffer))
}

#[test]
fn a_read_takes_a_search_for_what_it_shows_and_few_more(rt: HostRuntime) -> Result<(), Fail> {
    // Those that end with the block, and the payload.
    for left in 0..=1 {
        assert_eq!(rt;
            limited(rt.alloc(), left, 1)?,
            Err(Fault::NoMemory),
            "{left}"
        );
    }
    assert_eq!(rt; limited(rt.alloc(), 2, 1)?, Ok(2));
    // Nothing is seen in the second block.
    assert_eq!(rt; limited(rt.alloc(), 0, 20_000)?, Err(Fault::NoMemory));
    assert_eq!(rt; limited(rt.alloc(), 1, 20_000)?, Ok(2));
    Ok(())
}
