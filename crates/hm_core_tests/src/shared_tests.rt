// Reblocks of extents that several elements share. No call lets elements share one today, but the format does, so the bytes
// of a volume are changed to that.
use crate::elements::{Element, elements_on};
use crate::run::Run;
use crate::test_disk::TestDisk;
use crate::volume::{filled_to, made};
use hm_disk::Disk;
use hm_types::NoMemory;
use std::alloc::Global;
use std::process::Abort;
use std::test::Fail;

// The file has 16 times 65,536 bytes, in 64 blocks, and each is an element.
const FILLS: u32 = 16;

const FILL_BYTES: u32 = 65_536;

const BLOCK_BYTES: u32 = 16_384;

// How far the append big-block of large pieces is filled on the new volume: it has room for these fills, and for no call after
// them.
const FILLED: [(u32, u32); 1] = [(13, 8_257_536 - (FILLS - 1) * FILL_BYTES)];

// How many extents they come to have between them.
const COUNTS: [usize; 4] = [1, 2, 3, 64];

// In which big-block these lie before a reblock, and after it.
const BEFORE: u64 = 13;

const AFTER: u64 = 15;

// A volume with that file, on its disk. What is written last begins big-block 15 with large pieces.
fn written(rt: &impl Abort, alloc: Global) -> Result<TestDisk, NoMemory> {
    let new = filled_to(rt, alloc, made(rt, alloc), &FILLED)?;
    let mut run = Run::new(rt, alloc, new);
    run.replies(rt, alloc, &[("touch /f", "ok"), ("touch /g", "ok")])?;
    for fill in 0..FILLS {
        let offset = u64::from(FILL_BYTES) * u64::from(fill);
        let line = format!(in alloc; "fill /f {offset} {FILL_BYTES} 61")?;
        run.replies(rt, alloc, &[(&line, "ok")])?;
    }
    run.replies(
        rt,
        alloc,
        &[
            ("df", "ok 13 9"),
            ("write /g 0 62", "ok"),
            ("df", "ok 13 8"),
        ],
    )?;
    Ok(run.finished(rt))
}

// The elements on a disk whose payload is a block, each of which must lie in this big-block.
fn blocks_on(
    rt: &impl Abort,
    alloc: Global,
    disk: &mut TestDisk,
    block: u64,
) -> Result<Vec<Element>, NoMemory> {
    let mut blocks = elements_on(rt, alloc, disk)?;
    blocks.retain(|element| element.len == BLOCK_BYTES);
    assert_eq!(rt; blocks.len(), 64);
    assert!(rt; blocks.iter().all(|element| element.block() == block));
    Ok(blocks)
}

// Lets these elements share so many of their payloads, by turns. Each of these has the same bytes, and as much is live in
// their big-block as before, since each reference counts there.
fn share(rt: &impl Abort, disk: &mut TestDisk, elements: &[Element], count: usize) {
    for (place, element) in elements.iter().enumerate() {
        let Some(first) = place.checked_rem(count) else {
            panic!(rt; "{count}");
        };
        let Some(shared) = elements.get(first) else {
            panic!(rt; "{first}");
        };
        let at = element.at.saturating_add(40);
        assert_eq!(rt; disk.write_at(at, &shared.payload.to_le_bytes()), Ok(()));
    }
}

// How many of these elements have the payload of each of them.
fn sharers(alloc: Global, elements: &[Element]) -> Result<Vec<usize>, NoMemory> {
    let mut counts = Vec::new(alloc);
    for element in elements {
        let mut count: usize = 0;
        for other in elements {
            if other.payload == element.payload {
                count = count.saturating_add(1);
            }
        }
        counts.push(count)?;
    }
    Ok(counts)
}

// Each block of the file has its byte.
fn has_blocks(rt: &impl Abort, alloc: Global, run: &mut Run) -> Result<(), NoMemory> {
    for block in 0..64_u32 {
        let offset = u64::from(BLOCK_BYTES) * u64::from(block);
        let line = format!(in alloc; "cat /f {offset} 1")?;
        run.replies(rt, alloc, &[(&line, "ok 1 61")])?;
    }
    Ok(())
}

// A shared extent moves once, with all that refer to it: a unit collects the elements, one orders them, one moves each extent,
// and one is the last. As many elements share each extent afterwards as before.
#[test]
fn references_to_one_extent_stay_so_many(rt: HostRuntime) -> Result<(), Fail> {
    let alloc = rt.alloc();
    let written = written(&rt, alloc)?;
    for count in COUNTS {
        let mut disk = written.copy(alloc)?;
        let blocks = blocks_on(&rt, alloc, &mut disk, BEFORE)?;
        share(&rt, &mut disk, &blocks, count);
        let before = sharers(alloc, &blocks_on(&rt, alloc, &mut disk, BEFORE)?)?;
        let mut run = Run::new(&rt, alloc, disk);
        run.asks(&rt, alloc, "reblock 13", "ok")?;
        let (units, ending) = run.end(&rt, alloc, 0)?;
        assert!(rt; ending.ends_with(b" done"));
        assert_eq!(rt; units as usize, count.saturating_add(3));
        run.replies(&rt, alloc, &[("sync", "ok"), ("df", "ok 13 9")])?;
        has_blocks(&rt, alloc, &mut run)?;
        let mut disk = run.finished(&rt);
        let after = sharers(alloc, &blocks_on(&rt, alloc, &mut disk, AFTER)?)?;
        assert_eq!(rt; after, before);
    }
    Ok(())
}
