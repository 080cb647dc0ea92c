// A disk in memory that fails the calls that it is told to, and knows which of its writes are unsettled.
ghost use Rattle.std.specs.Prelude.{◌≡◌, ◌≤◌, IsErr, length};
ghost use Rattle.hm_types.specs.Faults.{HasCause};
ghost use Rattle.hm_disk.specs.declared.limits.TheConstants.{MOST_CALL_BYTES};

use hm_disk::Disk;
use hm_disk_forms::{Crash, MemDisk};
use hm_types::{Failed, NoMemory};
use std::alloc::Global;

// It tells nothing. Of a write that fails half is put.
#[derive(Drop)]
pub struct TestDisk {
    disk: MemDisk,
    fails: Vec<u64>,
    calls: u64,
    faults: u64,
    // After how many changes each sync was made.
    synced: Vec<usize>,
}

impl TestDisk {
    // A disk of 24 big-blocks of zeros. The calls of these numbers, from 1 on, fail.
    pub fn new(alloc: Global, fails: Vec<u64>) -> TestDisk {
        TestDisk {
            disk: MemDisk::new(alloc, 24, Vec::new(alloc)),
            fails,
            calls: 0,
            faults: 0,
            synced: Vec::new(alloc),
        }
    }

    // The same disk, whose calls are counted anew.
    pub fn failing(self, fails: Vec<u64>) -> TestDisk {
        let TestDisk {
            disk,
            fails: _,
            calls: _,
            faults: _,
            synced,
        } = self;
        TestDisk {
            disk,
            fails,
            calls: 0,
            faults: 0,
            synced,
        }
    }

    // How many of its calls were counted.
    pub fn calls(&self) -> u64 {
        self.calls
    }

    // How many writes and syncs are recorded.
    pub fn changes(&self) -> usize {
        self.disk.changes()
    }

    // How many writes are unsettled after so many of these: those since the last sync.
    pub fn unsettled(&self, count: usize) -> usize {
        let mut since = 0;
        for synced in &self.synced {
            if *synced <= count && since < *synced {
                since = *synced;
            }
        }
        count.saturating_sub(since)
    }

    // A disk as a crash after so many of these may have left this one. All of it is settled.
    pub fn crashed(
        &self,
        alloc: Global,
        count: usize,
        crash: Crash<'_>,
    ) -> Result<TestDisk, NoMemory> {
        if self.disk.changes() < count {
            return Err(NoMemory);
        }
        let disk = self.disk.crashed(count, crash)?;
        let mut synced = Vec::new(alloc);
        synced.push(disk.changes())?;
        Ok(TestDisk {
            disk,
            fails: Vec::new(alloc),
            calls: 0,
            faults: 0,
            synced,
        })
    }

    // A disk that reads as this one. All of it is settled.
    pub fn copy(&self, alloc: Global) -> Result<TestDisk, NoMemory> {
        self.crashed(alloc, self.changes(), Crash::Lost(&[]))
    }

    // Counts a call, and says whether it is to fail.
    fn begin(&mut self) -> bool
        ensures { self.new.faults ≡ self.old.faults }
    {
        self.calls = self.calls.saturating_add(1);
        self.fails.contains(&self.calls)
    }

    fn fail(&mut self) -> Result<(), Failed>
        ensures failed { IsErr result }
        ensures cause { HasCause self.old.faults self.new.faults result }
    {
        self.faults = self.faults.saturating_add(1);
        Err(Failed)
    }

    // What a call of the disk in memory answered.
    fn end(&mut self, answer: Result<(), Failed>) -> Result<(), Failed>
        ensures cause { HasCause self.old.faults self.new.faults result }
    {
        match answer {
            Ok(()) => Ok(()),
            Err(Failed) => self.fail(),
        }
    }
}

// Reads where the range lies inside the disk.
fn read_inside(disk: &mut MemDisk, place: u64, buf: &mut [u8]) -> Result<(), Failed>
    requires { length buf.old ≤ MOST_CALL_BYTES }
{
    let size = disk.size()?;
    if place <= size && buf.len() as u64 <= size - place {
        disk.read_at(place, buf)
    } else {
        Err(Failed)
    }
}

// Writes where the range lies inside the disk.
fn write_inside(disk: &mut MemDisk, place: u64, bytes: &[u8]) -> Result<(), Failed>
    requires { length bytes.now ≤ MOST_CALL_BYTES }
{
    let size = disk.size()?;
    if place <= size && bytes.len() as u64 <= size - place {
        disk.write_at(place, bytes)
    } else {
        Err(Failed)
    }
}

impl Disk for TestDisk {
    ghost use Rattle.std.specs.Prelude.{None};
    ghost use Rattle.std.proofs.Common.{inl};

    ghost told = { λ _. None };

    ghost left_since = { λ _ _ _. Unit {0} };

    ghost Past = { Unit {0} };

    ghost past = { λ _. tt };

    ghost left_before = { λ _ _ _. Unit {0} };

    ghost faults = { λ d. d.faults };

    ghost counts_now = { λ d moment image. tt };

    ghost only_now = { λ d image. tt };

    ghost since_earlier = { λ d earlier moment image. tt };

    ghost splits = { λ d moment image left. inl tt };

    ghost joins = { λ d moment image left. tt };

    fn size(&mut self) -> Result<u64, Failed> {
        if self.begin() {
            self.faults = self.faults.saturating_add(1);
            return Err(Failed);
        }
        match self.disk.size() {
            Ok(size) => Ok(size),
            Err(Failed) => {
                self.faults = self.faults.saturating_add(1);
                Err(Failed)
            }
        }
    }

    fn read_at(&mut self, place: u64, buf: &mut [u8]) -> Result<(), Failed> {
        if self.begin() {
            return self.fail();
        }
        let answer = read_inside(&mut self.disk, place, buf);
        self.end(answer)
    }

    fn write_at(&mut self, place: u64, bytes: &[u8]) -> Result<(), Failed> {
        if self.begin() {
            let _ = write_inside(&mut self.disk, place, &bytes[..bytes.len() / 2]);
            return self.fail();
        }
        let answer = write_inside(&mut self.disk, place, bytes);
        self.end(answer)
    }

    fn sync(&mut self) -> Result<(), Failed> {
        if self.begin() {
            return self.fail();
        }
        let answer = self.disk.sync();
        if self.synced.push(self.disk.changes()).is_err() {
            return self.fail();
        }
        self.end(answer)
    }

    fn faults(&self) -> u64 {
        self.faults
    }
}
