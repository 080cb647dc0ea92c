// A disk in memory that fails at the writes that it is told.
ghost use Rattle.std.specs.Prelude.{◌≡◌, ◌≤◌, IsErr, length};
ghost use Rattle.hm_types.specs.Faults.{HasCause};
ghost use Rattle.hm_disk.specs.declared.limits.TheConstants.{MOST_CALL_BYTES};

use hm_disk::Disk;
use hm_disk_forms::MemDisk;
use hm_types::Failed;
use std::alloc::Global;

// It tells nothing. Of a write that fails half is put.
#[derive(Drop)]
pub struct QuietDisk {
    disk: MemDisk,
    // How many writes there were, and the numbers of those that fail, from 1 on.
    writes: u64,
    fails: [u64; 3],
    faults: u64,
}

impl QuietDisk {
    // A disk of 24 big-blocks of zeros, of which no write fails.
    pub fn new(alloc: Global) -> QuietDisk {
        QuietDisk {
            disk: MemDisk::new(alloc, 24, Vec::new(alloc)),
            writes: 0,
            fails: [0; 3],
            faults: 0,
        }
    }

    // The same disk, whose writes are counted anew, and of which these fail.
    pub fn failing(self, fails: [u64; 3]) -> QuietDisk {
        let QuietDisk { disk, faults, .. } = self;
        QuietDisk {
            disk,
            writes: 0,
            fails,
            faults,
        }
    }

    // How many writes there were.
    pub fn writes(&self) -> u64 {
        self.writes
    }

    fn fail(&mut self) -> Result<(), Failed>
        ensures failed { IsErr result }
        ensures cause { HasCause self.old.faults self.new.faults result }
    {
        self.faults = self.faults.saturating_add(1);
        Err(Failed)
    }

    // What a call of the disk in memory answered.
    fn end(&mut self, answer: Result<(), Failed>) -> Result<(), Failed>
        ensures cause { HasCause self.old.faults self.new.faults result }
    {
        match answer {
            Ok(()) => Ok(()),
            Err(Failed) => self.fail(),
        }
    }
}

// Reads where the range lies inside the disk.
fn read_inside(disk: &mut MemDisk, place: u64, buf: &mut [u8]) -> Result<(), Failed>
    requires { length buf.old ≤ MOST_CALL_BYTES }
{
    let size = disk.size()?;
    if place <= size && buf.len() as u64 <= size - place {
        disk.read_at(place, buf)
    } else {
        Err(Failed)
    }
}

// Writes where the range lies inside the disk.
fn write_inside(disk: &mut MemDisk, place: u64, bytes: &[u8]) -> Result<(), Failed>
    requires { length bytes.now ≤ MOST_CALL_BYTES }
{
    let size = disk.size()?;
    if place <= size && bytes.len() as u64 <= size - place {
        disk.write_at(place, bytes)
    } else {
        Err(Failed)
    }
}

impl Disk for QuietDisk {
    ghost use Rattle.std.specs.Prelude.{None};
    ghost use Rattle.std.proofs.Common.{inl};

    ghost told = { λ _. None };

    ghost left_since = { λ _ _ _. Unit {0} };

    ghost Past = { Unit {0} };

    ghost past = { λ _. tt };

    ghost left_before = { λ _ _ _. Unit {0} };

    ghost faults = { λ d. d.faults };

    ghost counts_now = { λ d moment image. tt };

    ghost only_now = { λ d image. tt };

    ghost since_earlier = { λ d earlier moment image. tt };

    ghost splits = { λ d moment image left. inl tt };

    ghost joins = { λ d moment image left. tt };

    fn size(&mut self) -> Result<u64, Failed> {
        match self.disk.size() {
            Ok(size) => Ok(size),
            Err(Failed) => {
                self.faults = self.faults.saturating_add(1);
                Err(Failed)
            }
        }
    }

    fn read_at(&mut self, place: u64, buf: &mut [u8]) -> Result<(), Failed> {
        let answer = read_inside(&mut self.disk, place, buf);
        self.end(answer)
    }

    fn write_at(&mut self, place: u64, bytes: &[u8]) -> Result<(), Failed> {
        self.writes = self.writes.saturating_add(1);
        if self.fails.contains(&self.writes) {
            let _ = write_inside(&mut self.disk, place, &bytes[..bytes.len() / 2]);
            return self.fail();
        }
        let answer = write_inside(&mut self.disk, place, bytes);
        self.end(answer)
    }

    fn sync(&mut self) -> Result<(), Failed> {
        let answer = self.disk.sync();
        self.end(answer)
    }

    fn faults(&self) -> u64 {
        self.faults
    }
}
