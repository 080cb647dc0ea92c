// How many searches it takes to read and to write a block that grew by short appends.
use crate::cut_tests::{has_room, is_older};
use crate::metered::Metered;
use crate::read_tests::{FILE, PFS, Piece, store_of};
use hm_files::{read_bytes, remove_bytes, resize_bytes, write_bytes};
use hm_types::{BLOCK_BYTES, Id, MOST_FILE_BYTES};
use std::alloc::Global;
use std::test::Fail;

// An id above those of all pieces.
const LATE: u64 = 1_000;

// The pieces of a block that grew to so many bytes by appends of one, by the ids from 2 on.
fn grown(alloc: Global, count: u64) -> Result<Vec<Piece>, Fail> {
    let mut pieces = Vec::new(alloc);
    for end in 1..=count {
        let id = end.saturating_add(1);
        let closed = if end == count {
            0
        } else {
            id.saturating_add(1)
        };
        pieces.push((end, id, closed, b'a', end as usize))?;
    }
    Ok(pieces)
}

// The pieces of a block of so many bytes that was overwritten as often, by the ids from 2 on.
fn overwritten(alloc: Global, count: u64) -> Result<Vec<Piece>, Fail> {
    let mut pieces = Vec::new(alloc);
    for place in 1..=count {
        let id = place.saturating_add(1);
        let closed = if place == count {
            0
        } else {
            id.saturating_add(1)
        };
        pieces.push((count, id, closed, b'a', count as usize))?;
    }
    Ok(pieces)
}

// How many searches a read of the first byte of a file takes.
fn searches_to_read(alloc: Global, pieces: &[Piece], size: u64, as_of: u64) -> Result<u64, Fail> {
    let mut store = Metered::new(store_of(alloc, pieces)?);
    let mut buffer = [0xEE; 1];
    read_bytes(&mut store, PFS, FILE, size, 0, Id(as_of), &mut buffer)?;
    Ok(store.searches)
}

// How many searches a write of a byte into a file of a size takes.
fn searches_to_write(alloc: Global, pieces: &[Piece], size: u64, at: u64) -> Result<u64, Fail> {
    let mut store = Metered::new(store_of(alloc, pieces)?);
    if at >= MOST_FILE_BYTES || !is_older(&store.store, LATE) {
        return Err("not ready")?;
    }
    let block = BLOCK_BYTES as u64;
    let blocks = (at + 1 - 1) / block + 1 - at / block;
    if blocks >= 960 || !has_room(&store.store, blocks + 1) {
        return Err("no room")?;
    }
    write_bytes(&mut store, PFS, FILE, size, at, b"b", Id(LATE))?;
    Ok(store.searches)
}

// How many searches it takes to cut a file of a size to another one, or to remove its bytes.
fn searches_to_cut(
    alloc: Global,
    pieces: &[Piece],
    size: u64,
    to: Option<u64>,
) -> Result<u64, Fail> {
    let mut store = Metered::new(store_of(alloc, pieces)?);
    if !is_older(&store.store, LATE) || !has_room(&store.store, 1) {
        return Err("not ready")?;
    }
    match to {
        Some(to) if to <= MOST_FILE_BYTES => {
            resize_bytes(&mut store, PFS, FILE, size, to, Id(LATE))?;
        }
        _ => remove_bytes(&mut store, PFS, FILE, Id(LATE))?,
    }
    Ok(store.searches)
}

// The pieces of a block that grew to so many bytes by appends of one, was cut to nothing, and grew
// again to some fewer.
fn regrown(alloc: Global, count: u64, again: u64) -> Result<Vec<Piece>, Fail> {
    let mut pieces = grown(alloc, count)?;
    let cut = count.saturating_add(2);
    if let Some(last) = pieces.last_mut() {
        last.2 = cut;
    }
    for end in 1..=again {
        let id = cut.saturating_add(end);
        let closed = if end == again {
            0
        } else {
            id.saturating_add(1)
        };
        pieces.push((end, id, closed, b'b', end as usize))?;
    }
    Ok(pieces)
}

#[test]
fn a_block_takes_as_many_searches_however_it_grew(rt: HostRuntime) -> Result<(), Fail> {
    let alloc = rt.alloc();
    for count in [2, 10, 100] {
        let pieces = grown(alloc, count)?;
        // Now, and as of the id that made half of the bytes.
        assert_eq!(rt; searches_to_read(alloc, &pieces, count, LATE)?, 1);
        assert_eq!(rt;
            searches_to_read(alloc, &pieces, count / 2, count / 2 + 1)?,
            1
        );
        // To append, two to find what shows, for reading it and for closing it, one to close it, and one
        // for what ends where the new bytes do.
        assert_eq!(rt; searches_to_write(alloc, &pieces, count, count)?, 4);
        assert_eq!(rt; searches_to_write(alloc, &pieces, count, 0)?, 3);
        // A cut and a removal look at each length once.
        assert_eq!(rt; searches_to_cut(alloc, &pieces, count, Some(0))?, count + 1);
        assert_eq!(rt; searches_to_cut(alloc, &pieces, count, None)?, count + 2);
    }
    Ok(())
}

#[test]
fn a_block_that_grew_again_takes_as_many(rt: HostRuntime) -> Result<(), Fail> {
    let alloc = rt.alloc();
    for count in [10, 100] {
        let pieces = regrown(alloc, count, 5)?;
        assert_eq!(rt; searches_to_read(alloc, &pieces, 5, LATE)?, 1);
        assert_eq!(rt; searches_to_read(alloc, &pieces, count, count + 1)?, 1);
        assert_eq!(rt; searches_to_write(alloc, &pieces, 5, 5)?, 4);
        // Only the first append after the cut goes past what was there.
        let empty = regrown(alloc, count, 0)?;
        assert_eq!(rt; searches_to_write(alloc, &empty, 0, 0)?, 2 * count + 2);
    }
    Ok(())
}

#[test]
fn one_length_takes_as_many_searches_however_many_versions_it_has(
    rt: HostRuntime,
) -> Result<(), Fail> {
    let alloc = rt.alloc();
    for count in [2, 10, 100] {
        let pieces = overwritten(alloc, count)?;
        assert_eq!(rt; searches_to_read(alloc, &pieces, count, LATE)?, 1);
        assert_eq!(rt; searches_to_read(alloc, &pieces, count, 2)?, 1);
        assert_eq!(rt; searches_to_write(alloc, &pieces, count, 0)?, 3);
        assert_eq!(rt; searches_to_write(alloc, &pieces, count, count)?, 4);
    }
    Ok(())
}
