// Reads and writes through a buffer, over a disk that counts its calls.
use crate::BufferedDisk;
use hm_disk::Disk;
use hm_types::Failed;
use std::alloc::Global;
use std::test::Fail;

// A disk over bytes in memory, which tells nothing and never fails.
#[derive(Drop)]
struct CountedDisk {
    bytes: Vec<u8>,
    calls: u64,
}

impl CountedDisk {
    // Two slots more than a buffer has, of zeros.
    fn new(alloc: Global) -> Result<CountedDisk, Fail> {
        Ok(CountedDisk {
            bytes: vec![in alloc; 0; 8_396_800]?,
            calls: 0,
        })
    }

    fn count(&mut self) {
        self.calls = self.calls.saturating_add(1);
    }
}

impl Disk for CountedDisk {
    ghost use Rattle.std.specs.Prelude.{None};
    ghost use Rattle.std.proofs.Common.{inl};

    ghost told = { λ _. None };

    ghost left_since = { λ _ _ _. Unit {0} };

    ghost Past = { Unit {0} };

    ghost past = { λ _. tt };

    ghost left_before = { λ _ _ _. Unit {0} };

    ghost faults = { λ _. 0 };

    ghost counts_now = { λ d moment image. tt };

    ghost only_now = { λ d image. tt };

    ghost since_earlier = { λ d earlier moment image. tt };

    ghost splits = { λ d moment image left. inl tt };

    ghost joins = { λ d moment image left. tt };

    fn size(&mut self) -> Result<u64, Failed> {
        self.count();
        Ok(self.bytes.len() as u64)
    }

    fn read_at(&mut self, place: u64, buf: &mut [u8]) -> Result<(), Failed> {
        self.count();
        for i in 0..buf.len() {
            let at = (place as usize).wrapping_add(i);
            buf[i] = self.bytes.get(at).copied().unwrap_or(0);
        }
        Ok(())
    }

    fn write_at(&mut self, place: u64, bytes: &[u8]) -> Result<(), Failed> {
        self.count();
        for i in 0..bytes.len() {
            let at = (place as usize).wrapping_add(i);
            if let Some(byte) = self.bytes.get_mut(at) {
                *byte = bytes[i];
            }
        }
        Ok(())
    }

    fn sync(&mut self) -> Result<(), Failed> {
        self.count();
        Ok(())
    }

    fn faults(&self) -> u64 {
        0
    }
}

#[test]
fn what_was_written_is_read(rt: HostRuntime) -> Result<(), Fail> {
    // Where it is written, the bytes, and four bytes that are read after it with what they are: in the
    // middle of a page, at its start and its end, over the end of one, in the page that has the same slot,
    // and over bytes that were held.
    let rows: [(u64, &[u8], u64, [u8; 4]); 7] = [
        (5_000, &[1, 2, 3], 4_999, [0, 1, 2, 3]),
        (4_096, &[4], 4_095, [0, 4, 0, 0]),
        (8_190, &[5, 6, 7, 8], 8_190, [5, 6, 7, 8]),
        (8_191, &[9, 9], 8_190, [5, 9, 9, 8]),
        (8_393_608, &[10, 11], 8_393_607, [0, 10, 11, 0]),
        (5_001, &[12], 4_999, [0, 1, 12, 3]),
        (8_188, &[], 8_190, [5, 9, 9, 8]),
    ];
    let mut disk = BufferedDisk::new(rt.alloc(), CountedDisk::new(rt.alloc())?);
    let mut bytes = [0; 4];
    for (place, written, from, want) in rows {
        disk.read_at(from, &mut bytes)?;
        disk.write_at(place, written)?;
        for _ in 0..2 {
            disk.read_at(from, &mut bytes)?;
            assert_eq!(rt; bytes, want, "{place}");
        }
    }
    // The disk below has all of it.
    let mut below = disk.into_inner();
    below.read_at(8_190, &mut bytes)?;
    assert_eq!(rt; bytes, [5, 9, 9, 8]);
    Ok(())
}

#[test]
fn a_page_that_is_held_makes_no_call(rt: HostRuntime) -> Result<(), Fail> {
    let mut disk = BufferedDisk::new(rt.alloc(), CountedDisk::new(rt.alloc())?);
    let mut bytes = [1; 16];
    // The first short read asks for the size and reads its page.
    disk.read_at(12_288, &mut bytes)?;
    assert_eq!(rt; bytes, [0; 16]);
    disk.read_at(16_368, &mut bytes)?;
    // A read over the end of the page, and a write, go to the disk.
    disk.read_at(16_370, &mut bytes)?;
    disk.read_at(12_300, &mut bytes)?;
    disk.write_at(12_290, &[7])?;
    // Its page is read again.
    disk.read_at(12_288, &mut bytes)?;
    assert_eq!(rt; bytes[2], 7);
    assert_eq!(rt; disk.into_inner().calls, 5);
    Ok(())
}
