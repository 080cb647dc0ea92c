// Volumes on disks in memory: their bytes, worked out by hand from the format, and disks that fail.
use hm_disk::Disk;
use hm_disk_forms::MemDisk;
use hm_newfs::write_volume;
use hm_types::Failed;
use std::alloc::Global;
use std::process::Abort;
use std::test::Fail;

// How many calls of the disk make a volume with one big-block of layer 2: three close the gates,
// one writes the body, 64 each layer, two the tree, and one settles all that; two open the gate.
const CALLS: u64 = 137;

// A volume of 24 big-blocks.
fn small(rt: &impl Abort, alloc: Global) -> MemDisk {
    let mut disk = MemDisk::new(alloc, 24, Vec::new(alloc));
    assert_eq!(rt; write_volume(&mut disk, 24), Ok(()));
    disk
}

// A volume with one big-block more than one of layer 2 tells of.
fn large(rt: &impl Abort, alloc: Global) -> MemDisk {
    let mut disk = MemDisk::new(alloc, 524_289, Vec::new(alloc));
    assert_eq!(rt; write_volume(&mut disk, 524_289), Ok(()));
    disk
}

// The 16 bytes from a place on, or none where the disk ends before.
fn bytes_at(disk: &mut MemDisk, place: u64) -> Result<Option<[u8; 16]>, Failed> {
    let size = disk.size()?;
    if size < 16 || size - 16 < place {
        return Ok(None);
    }
    let mut bytes = [0; 16];
    disk.read_at(place, &mut bytes)?;
    Ok(Some(bytes))
}

// Four numbers of four bytes.
fn words(numbers: [u32; 4]) -> [u8; 16] {
    let mut bytes = [0; 16];
    bytes[..4].copy_from_slice(&numbers[0].to_le_bytes());
    bytes[4..8].copy_from_slice(&numbers[1].to_le_bytes());
    bytes[8..12].copy_from_slice(&numbers[2].to_le_bytes());
    bytes[12..].copy_from_slice(&numbers[3].to_le_bytes());
    bytes
}

#[test]
fn a_small_volume_has_its_header_its_freemap_and_its_tree(rt: HostRuntime) {
    let mut disk = small(&rt, rt.alloc());
    for (place, want) in [
        // The header is in the first slot.
        (0, words([0x5052_4d48, 0x3146_4f52, 2, 24])),
        (16, words([1, 0, 1, 0])),
        (32, words([0x0580_0000, 0x8000_0000, 0, 0])),
        (48, words([0, 0, 11, 12])),
        (64, words([13, 14, 0, 0])),
        (80, words([0, 0, 0, 0])),
        (16_368, words([0, 0, 0, 0xA500_0000])),
        (32_752, words([0, 0, 0, 0])),
        // The freemap tells what each big-block serves.
        (8_388_608, words([0x0100_0000, 0x4000_0000, 0, 0])),
        (8_388_624, words([0, 0, 0, 0])),
        (8_388_640, words([0, 0xF000_0000, 0, 0])),
        (16_777_184, words([0, 0xF000_0000, 0, 0])),
        (16_777_216, words([1, 0, 0, 0])),
        (16_777_232, words([4, 0, 0, 0])),
        (16_777_248, words([4, 0, 0, 0])),
        (16_777_264, words([3, 0, 0, 0])),
        (16_777_376, words([3, 0, 0, 0])),
        (16_777_392, words([8, 4_096, 8_384_512, 0])),
        (16_777_408, words([9, 80, 8_388_528, 0])),
        (16_777_424, words([10, 0, 8_388_608, 0])),
        (16_777_440, words([11, 0, 8_388_608, 0])),
        (16_777_456, words([0, 0, 8_388_608, 0])),
        (16_777_584, words([0, 0, 8_388_608, 0])),
        (16_777_600, words([15, 0, 0, 0])),
        (25_165_808, words([15, 0, 0, 0])),
        // The tree has the root directory and a record.
        (92_274_688, words([0x0002_0101, 0, 1, 0])),
        (92_274_752, words([1, 0, 0, 0])),
        (92_274_768, words([1, 0, 0, 0])),
        (
            92_274_784,
            words([0x0101_0001, 1, 0x0600_0000, 0x9000_0000]),
        ),
        (92_274_800, words([32, 0, 0, 0])),
        (92_274_816, words([1, 0, 0, 0])),
        (92_274_832, words([1, 0, 0, 0])),
        (
            92_274_848,
            words([0x0101_0015, 2, 0x0600_0020, 0x9000_0000]),
        ),
        (92_274_864, words([48, 0, 0, 0])),
        (92_274_880, words([0, 0, 0, 0])),
        (100_663_296, words([1, 0, 0, 0])),
        (100_663_312, words([1, 0, 0, 0])),
        (100_663_328, words([1, 0, 0, 0])),
        (100_663_344, words([0, 0, 1, 0])),
        (100_663_360, words([1, 0, 0xFFFF_FFFF, 0xFFFF_FFFF])),
    ] {
        assert_eq!(rt; bytes_at(&mut disk, place), Ok(Some(want)), "{place}");
    }
}

#[test]
fn a_second_big_block_of_layer_2_moves_the_pool(rt: HostRuntime) {
    let mut disk = large(&rt, rt.alloc());
    for (place, want) in [
        (32, words([0x0600_0000, 0x8000_0000, 0, 0])),
        (8_388_640, words([0x0180_0000, 0x4000_0000, 0, 0])),
        (8_388_672, words([0, 0xF000_0000, 0, 0])),
        (16_777_264, words([4, 0, 0, 0])),
        (16_777_280, words([3, 0, 0, 0])),
        (16_777_408, words([8, 4_096, 8_384_512, 0])),
        (25_165_824, words([0, 0, 8_388_608, 0])),
        (25_165_840, words([15, 0, 0, 0])),
        (33_554_416, words([15, 0, 0, 0])),
        (100_663_296, words([0x0002_0101, 0, 1, 0])),
        (109_051_904, words([1, 0, 0, 0])),
    ] {
        assert_eq!(rt; bytes_at(&mut disk, place), Ok(Some(want)), "{place}");
    }
}

#[test]
fn each_call_that_fails_ends_it(rt: HostRuntime) -> Result<(), Fail> {
    let alloc = rt.alloc();
    for call in 1..=CALLS {
        let mut disk = MemDisk::new(alloc, 24, vec![in alloc; call]?);
        assert_eq!(rt; write_volume(&mut disk, 24), Err(Failed), "{call}");
    }
    let mut disk = MemDisk::new(alloc, 24, vec![in alloc; CALLS + 1]?);
    assert_eq!(rt; write_volume(&mut disk, 24), Ok(()));
    Ok(())
}
