// Bytes that are cut off, closed and written, over a store in memory whose elements are worked out by hand.
ghost use Rattle.std.specs.Prelude.{ℕ, ◌<◌, ◌≤◌, IfOk, IsTrue};
ghost use Rattle.std.specs.List.{All};
ghost use Rattle.hm_key.specs.Balance.{Balanced};
ghost use Rattle.hm_files.specs.Close.{AreOlderIn};
ghost use Rattle.hm_files.specs.Put.{HasBlockRoom};

use crate::read_tests::{FILE, PFS, PIECES, Run, all_of, store_of};
use hm_files::{fill_bytes, read_bytes, remove_bytes, resize_bytes, write_bytes};
use hm_key::{Element, HasElements, HasRoom, MemStore};
use hm_types::{BLOCK_BYTES, INSERT_ROOM, Id, LARGE_ZONE, MOST_FILE_BYTES, SMALL_ZONE, TREE_ZONE};
use std::alloc::Global;
use std::test::Fail;

/// What is done with the file.
#[derive(Clone, Copy, Debug)]
pub(crate) enum Step {
    /// From a size to another one.
    Resize(u64, u64),
    /// Into a file of a size, from an offset on, so many bytes of one kind.
    Write(u64, u64, u32, u8),
    /// The same, by one byte that is put so many times.
    Fill(u64, u64, u32, u8),
    Remove,
}

/// Whether all elements are older than an id.
pub(crate) fn is_older(store: &MemStore, id: u64) -> bool
    ensures { IsTrue result → (pfs obj first : ℕ) → AreOlderIn (⟦<MemStore as HasElements>⟧.elements store.now)
        (⟦<MemStore as HasRoom>⟧.extents store.now) pfs obj id first }
{
    are_older(store.elements(), id)
}

fn are_older(elements: &[Element], id: u64) -> bool
    ensures { IsTrue result → All (λ e. (e.base.create < id) × (e.base.delete ≤ id)) elements.now }
{
    elements
        .iter()
        .all(|e| e.base.create < id && e.base.delete <= id)
}

/// Whether a store has room for some blocks, at most 960.
pub(crate) fn has_room(store: &MemStore, blocks: u64) -> bool
    requires { blocks ≤ 960 }
    ensures { IsTrue result → HasBlockRoom (⟦<MemStore as HasRoom>⟧.room store.now) blocks }
{
    store.room(TREE_ZONE) >= blocks * u64::from(INSERT_ROOM)
        && store.room(LARGE_ZONE) >= blocks * BLOCK_BYTES as u64
        && store.room(SMALL_ZONE) >= blocks * BLOCK_BYTES as u64
}

/// Takes a step by an id above all others.
pub(crate) fn take(alloc: Global, store: &mut MemStore, step: Step, id: u64) -> Result<(), Fail>
    requires { Balanced (⟦<MemStore as HasElements>⟧.elements store.old)
        (⟦<MemStore as HasRoom>⟧.extents store.old) }
    ensures { IfOk result (λ _. Balanced (⟦<MemStore as HasElements>⟧.elements store.new)
        (⟦<MemStore as HasRoom>⟧.extents store.new)) }
{
    if id == 0 || !is_older(store, id) || !has_room(store, 1) {
        return Err("not ready")?;
    }
    match step {
        Step::Resize(size, new) => {
            if new > MOST_FILE_BYTES {
                return Err("too big")?;
            }
            resize_bytes(store, PFS, FILE, size, new, Id(id))?;
        }
        Step::Write(size, at, count, byte) => {
            let bytes = Vec::from_elem(alloc, byte, count as usize)?;
            write(store, size, at, &bytes, id)?;
        }
        Step::Fill(size, at, count, byte) => fill(store, size, at, count, byte, id)?,
        Step::Remove => remove_bytes(store, PFS, FILE, Id(id))?,
    }
    Ok(())
}

// Writes bytes into the file of a size, from an offset on.
fn write(store: &mut MemStore, size: u64, at: u64, bytes: &[u8], id: u64) -> Result<(), Fail>
    requires id { 1 ≤ id }
    requires balanced { Balanced (⟦<MemStore as HasElements>⟧.elements store.old)
        (⟦<MemStore as HasRoom>⟧.extents store.old) }
    requires older { AreOlderIn (⟦<MemStore as HasElements>⟧.elements store.old)
        (⟦<MemStore as HasRoom>⟧.extents store.old) PFS.0 FILE.0 id 0 }
    ensures { IfOk result (λ _. Balanced (⟦<MemStore as HasElements>⟧.elements store.new)
        (⟦<MemStore as HasRoom>⟧.extents store.new)) }
{
    if bytes.is_empty() || bytes.len() > 65_536 {
        return Err("too big")?;
    }
    let count = bytes.len() as u64;
    if at > MOST_FILE_BYTES - count {
        return Err("too far")?;
    }
    let block = BLOCK_BYTES as u64;
    let blocks = (at + count - 1) / block + 1 - at / block;
    if blocks >= 960 || !has_room(store, blocks + 1) {
        return Err("no room")?;
    }
    write_bytes(store, PFS, FILE, size, at, bytes, Id(id))?;
    Ok(())
}

// Puts a byte into the file of a size, from an offset on, so many times.
fn fill(store: &mut MemStore, size: u64, at: u64, count: u32, byte: u8, id: u64) -> Result<(), Fail>
    requires id { 1 ≤ id }
    requires balanced { Balanced (⟦<MemStore as HasElements>⟧.elements store.old)
        (⟦<MemStore as HasRoom>⟧.extents store.old) }
    requires older { AreOlderIn (⟦<MemStore as HasElements>⟧.elements store.old)
        (⟦<MemStore as HasRoom>⟧.extents store.old) PFS.0 FILE.0 id 0 }
    ensures { IfOk result (λ _. Balanced (⟦<MemStore as HasElements>⟧.elements store.new)
        (⟦<MemStore as HasRoom>⟧.extents store.new)) }
{
    if count == 0 || count > 65_536 {
        return Err("too big")?;
    }
    let len = u64::from(count);
    if at > MOST_FILE_BYTES - len {
        return Err("too far")?;
    }
    let block = BLOCK_BYTES as u64;
    let blocks = (at + len - 1) / block + 1 - at / block;
    if blocks >= 960 || !has_room(store, blocks + 1) {
        return Err("no room")?;
    }
    fill_bytes(store, PFS, FILE, size, at, count, byte, Id(id))?;
    Ok(())
}

// The store of the pieces after steps by rising ids.
fn store_after(alloc: Global, steps: &[(Step, u64)]) -> Result<MemStore, Fail>
    ensures { IfOk result (λ store. Balanced (⟦<MemStore as HasElements>⟧.elements store)
        (⟦<MemStore as HasRoom>⟧.extents store)) }
{
    let mut store = store_of(alloc, &PIECES)?;
    for (step, id) in steps {
        take(alloc, &mut store, *step, *id)?;
    }
    Ok(store)
}

// Whether these are the bytes of a file of a size after steps, from an offset on.
fn reads_after(
    alloc: Global,
    steps: &[(Step, u64)],
    size: u64,
    offset: u64,
    asked: usize,
    as_of: u64,
    runs: &[Run],
) -> Result<bool, Fail> {
    let mut store = store_after(alloc, steps)?;
    let mut buffer = Vec::from_elem(alloc, 0xEE, asked)?;
    let count = read_bytes(&mut store, PFS, FILE, size, offset, Id(as_of), &mut buffer)?;
    let want = all_of(alloc, runs)?;
    Ok(count == want.len() && buffer[..count] == want[..])
}

// A cut, and a longer file after it.
const CUT_AND_LONGER: [(Step, u64); 2] = [
    (Step::Resize(15_728_640, 10), 20),
    (Step::Resize(10, 5_000), 21),
];

#[test]
fn what_is_cut_off_shows_as_of_ids_before_alone(rt: HostRuntime) -> Result<(), Fail> {
    for (new, offset, asked, runs) in [
        (0, 0, 3, [(3, 0)].as_slice()),
        (1, 0, 3, [(1, b'c'), (2, 0)].as_slice()),
        (10, 0, 20, [(10, b'c'), (10, 0)].as_slice()),
        (16_383, 16_382, 3, [(1, b'c'), (2, 0)].as_slice()),
        (16_384, 16_383, 3, [(1, b'c'), (2, 0)].as_slice()),
        (16_384, 49_151, 4, [(4, 0)].as_slice()),
        (40_000, 16_383, 2, [(1, b'c'), (1, 0)].as_slice()),
        (49_154, 49_151, 5, [(1, 0), (2, b'd'), (2, 0)].as_slice()),
        (15_728_639, 15_728_637, 3, [(2, b'e'), (1, 0)].as_slice()),
        (15_728_640, 15_728_639, 1, [(1, b'e')].as_slice()),
        (49_155, 15_728_639, 1, [(1, 0)].as_slice()),
    ] {
        let cut = [(Step::Resize(15_728_640, new), 20)];
        assert!(rt;
            reads_after(rt.alloc(), &cut, 15_728_640, offset, asked, 20, runs)?,
            "{offset} after a cut at {new}"
        );
    }
    for (steps, size, offset, asked, as_of, runs) in [
        // Past bytes stay.
        (
            CUT_AND_LONGER.as_slice(),
            15_728_640,
            0,
            20,
            19,
            [(20, b'c')].as_slice(),
        ),
        (&CUT_AND_LONGER, 15_728_640, 15_728_639, 1, 19, &[(1, b'e')]),
        (&CUT_AND_LONGER, 15_728_640, 49_152, 3, 19, &[(3, b'd')]),
        (&CUT_AND_LONGER, 16_384, 0, 2, 4, &[(2, b'b')]),
        (&CUT_AND_LONGER, 10, 8, 4, 20, &[(2, b'c')]),
        (&CUT_AND_LONGER, 5_000, 8, 4, 21, &[(2, b'c'), (2, 0)]),
        // A longer file shows nothing that its old size hid.
        (
            &[(Step::Resize(20, 16_384), 20)],
            16_384,
            18,
            4,
            20,
            &[(2, b'c'), (2, 0)],
        ),
        (
            &[(Step::Resize(0, 15_728_640), 20)],
            15_728_640,
            0,
            2,
            20,
            &[(2, 0)],
        ),
        (
            &[(Step::Resize(0, 15_728_640), 20)],
            15_728_640,
            15_728_639,
            1,
            20,
            &[(1, 0)],
        ),
        (
            &[(Step::Resize(16_384, 49_155), 20)],
            49_155,
            49_152,
            3,
            20,
            &[(3, 0)],
        ),
        (
            &[(Step::Resize(49_153, 49_155), 20)],
            49_155,
            49_152,
            3,
            20,
            &[(1, b'd'), (2, 0)],
        ),
        // Nor does a longer write.
        (
            &[
                (Step::Write(20_000, 10_000, 30_000, b'x'), 20),
                (Step::Resize(40_000, 49_155), 21),
            ],
            49_155,
            39_999,
            9_156,
            21,
            &[(1, b'x'), (9_155, 0)],
        ),
        (
            &[
                (Step::Write(20_000, 10_000, 30_000, b'x'), 20),
                (Step::Write(40_000, 49_154, 1, b'y'), 21),
            ],
            49_155,
            49_151,
            5,
            21,
            &[(3, 0), (1, b'y')],
        ),
        (
            &[
                (Step::Write(49_153, 49_153, 1, b'x'), 20),
                (Step::Resize(49_154, 49_160), 21),
            ],
            49_160,
            49_152,
            9,
            21,
            &[(1, b'd'), (1, b'x'), (6, 0)],
        ),
        // A removed file has no open bytes.
        (&[(Step::Remove, 20)], 9, 0, 1, 19, &[(1, b'c')]),
        (&[(Step::Remove, 20)], 9, 0, 1, 20, &[(1, 0)]),
        (&[(Step::Remove, 20)], 9, 0, 1, u64::MAX, &[(1, 0)]),
    ] {
        assert!(rt;
            reads_after(rt.alloc(), steps, size, offset, asked, as_of, runs)?,
            "{offset} of {size} as of {as_of} after {steps:?}"
        );
    }
    Ok(())
}

#[test]
fn written_bytes_stand_beside_those_of_their_blocks(rt: HostRuntime) -> Result<(), Fail> {
    let all = 15_728_640;
    for (size, at, offset, asked, runs) in [
        (all, 0, 0, 4, [(2, b'x'), (2, b'c')].as_slice()),
        (
            all,
            16_382,
            16_381,
            4,
            [(1, b'c'), (2, b'x'), (1, 0)].as_slice(),
        ),
        (
            all,
            16_384,
            16_383,
            4,
            [(1, b'c'), (2, b'x'), (1, 0)].as_slice(),
        ),
        (
            all,
            49_153,
            49_152,
            4,
            [(1, b'd'), (2, b'x'), (1, 0)].as_slice(),
        ),
        (
            all,
            49_160,
            49_152,
            10,
            [(3, b'd'), (5, 0), (2, b'x')].as_slice(),
        ),
        (10, 20, 8, 14, [(2, b'c'), (10, 0), (2, b'x')].as_slice()),
        (
            all,
            15_728_638,
            15_728_637,
            3,
            [(1, b'e'), (2, b'x')].as_slice(),
        ),
    ] {
        let write = [(Step::Write(size, at, 2, b'x'), 20)];
        assert!(rt;
            reads_after(rt.alloc(), &write, all, offset, asked, 20, runs)?,
            "{at} in {size}"
        );
        assert!(rt;
            reads_after(rt.alloc(), &write, 9, 0, 2, 19, &[(2, b'c')])?,
            "{at} before"
        );
    }
    // Bytes over several blocks.
    for (size, at, count, new_size, offset, asked, runs) in [
        (
            all,
            16_380,
            40_000,
            all,
            16_378,
            40_006,
            [(2, b'c'), (40_000, b'x'), (4, 0)].as_slice(),
        ),
        (
            all,
            49_100,
            53,
            all,
            49_099,
            58,
            [(1, 0), (53, b'x'), (2, b'd'), (2, 0)].as_slice(),
        ),
        (
            10,
            40_000,
            20_000,
            60_000,
            8,
            60_010,
            [(2, b'c'), (39_990, 0), (20_000, b'x')].as_slice(),
        ),
    ] {
        let write = [(Step::Write(size, at, count, b'x'), 20)];
        assert!(rt;
            reads_after(rt.alloc(), &write, new_size, offset, asked, 20, runs)?,
            "{at} in {size}"
        );
    }
    Ok(())
}

#[test]
fn a_step_takes_an_element_for_each_block_that_it_makes(rt: HostRuntime) -> Result<(), Fail> {
    for (step, more) in [
        (Step::Remove, 0),
        // A cut takes one for a block that it shortens.
        (Step::Resize(15_728_640, 10), 1),
        (Step::Resize(15_728_640, 16_384), 0),
        (Step::Resize(15_728_640, 40_000), 0),
        (Step::Resize(15_728_640, 49_154), 1),
        (Step::Resize(15_728_640, 49_155), 0),
        // A block that no call wrote takes none.
        (Step::Write(15_728_640, 16_380, 40_000, b'x'), 4),
        (Step::Write(10, 40_000, 20_000, b'x'), 3),
        (Step::Write(16_384, 15_728_639, 1, b'x'), 1),
    ] {
        let store = store_after(rt.alloc(), &[(step, 20)])?;
        assert_eq!(rt; store.elements().len(), PIECES.len() + more, "{step:?}");
    }
    let store = store_after(rt.alloc(), &[(Step::Remove, 20)])?;
    assert!(rt; store.elements().iter().all(|e| e.base.delete != 0));
    Ok(())
}

#[test]
fn a_fill_is_a_write_of_as_many_bytes(rt: HostRuntime) -> Result<(), Fail> {
    let alloc = rt.alloc();
    for (size, at, count) in [
        (100_000, 0, 1),
        (100_000, 16_383, 1),
        (100_000, 16_383, 2),
        (100_000, 16_384, 16_384),
        (100_000, 5, 65_536),
        (20_000, 40_000, 3),
        (20_000, 90_000, 65_536),
        (u64::MAX, 16_384, 40_000),
        (20_000, MOST_FILE_BYTES - 1, 1),
    ] {
        let filled = store_after(alloc, &[(Step::Fill(size, at, count, 7), 1_000)])?;
        let written = store_after(alloc, &[(Step::Write(size, at, count, 7), 1_000)])?;
        let len = (count as usize).min(100);
        let fill = [(Step::Fill(size, at, count, 7), 1_000)];
        let sevens = reads_after(alloc, &fill, u64::MAX, at, len, 1_000, &[(len, 7)])?;
        assert_eq!(rt;
            filled.elements(),
            written.elements(),
            "{count} at {at} of {size}"
        );
        assert!(rt; sevens, "{count} at {at} of {size}");
    }
    Ok(())
}
