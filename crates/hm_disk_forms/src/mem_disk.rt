// A disk in memory.
ghost use Rattle.std.specs.Prelude.{◌≡◌, ◌≤◌, ◌+◌, ◌*◌, ℕ, length, take, slice_range};
ghost use Rattle.std.specs.Prelude.{[], Some, IfOk, OnOk, OnErr};
ghost use Rattle.hm_types.specs.declared.limits.TheConstants.{BIGBLOCK_BYTES};
ghost use Rattle.hm_types.specs.Calls.{no_calls};
ghost use Rattle.hm_types.specs.Faults.{HasCause};
ghost use Rattle.hm_disk.specs.Disk.{Written, MayBeTorn, Synced};
ghost use Rattle.hm_disk.specs.Moments.{CallElapses, SyncElapses, SameLeft};
ghost use Rattle.hm_disk_forms.specs.MemDisk.{told_of, told_after, may_be_left, past_of, blank_disk};
ghost use Rattle.hm_disk_forms.specs.MemDisk.{after_first, with_change, with_calls};
ghost use Rattle.hm_disk_forms.specs.MemDisk.{FitsIn, OnlyCounts, WriteChange, Syncs};
ghost use Rattle.hm_disk_forms.specs.MemDisk.{AreWrites, IsWrite, KeepsLeft, MayLeaveAfter, told_then};
ghost use Rattle.hm_disk_forms.specs.declared.change.Change.TheVariants.{Write, Sync};

use crate::change::Change;
use crate::crash::Crash;
use crate::pages::Pages;
use hm_disk::Disk;
use hm_types::{BIGBLOCK_BYTES, Bytes, Calls, Failed, NoMemory};
use std::alloc::Global;
use std::marker::Model;

/// A disk in memory, of zeros at first. It tells what it holds, and takes memory for what is written
/// alone: a page of 4,096 bytes for each that a write touches, and a record of all changes.
///
/// Memory is its medium, so a growth that is refused is a failed call.
#[derive(Drop)]
pub struct MemDisk {
    alloc: Global,
    size: u64,
    pages: Pages,
    changes: Vec<Change>,
    calls: Calls,
}

impl Model for MemDisk {
    ghost use Rattle.hm_disk_forms.specs.MemDisk.{DiskState};

    ghost Value = { DiskState };

    ghost use Rattle.hm_disk_forms.specs.Sound.{IsSound};

    ghost view = { λ d. record { size = d.size; changes = d.changes.items; calls = d.calls } };

    ghost invariant = { IsSound };
}

impl MemDisk {
    /// A disk of so many big-blocks of 8,388,608 bytes, all of them 0. `fails` lists the calls that
    /// fail, by their numbers from 1 on, in any order; `size`, `read_at`, `write_at` and `sync` all
    /// count. It takes no memory.
    pub fn new(alloc: Global, bigblocks: u32, fails: Vec<u64>) -> MemDisk
        ensures value { result ≡ blank_disk (bigblocks * BIGBLOCK_BYTES) fails.items }
        ensures sized { length (told_of result).bytes ≡ bigblocks * BIGBLOCK_BYTES }
    {
        MemDisk::of_size(alloc, u64::from(bigblocks) * BIGBLOCK_BYTES, fails)
    }

    // A disk of so many bytes, all of them 0.
    fn of_size(alloc: Global, size: u64, fails: Vec<u64>) -> MemDisk
        ensures { result ≡ blank_disk size fails.items }
    {
        MemDisk {
            alloc,
            size,
            pages: Pages::new(alloc),
            changes: Vec::new(alloc),
            calls: Calls::new(fails),
        }
    }

    /// The same disk, whose calls are counted anew from 1 on, as are its faults from 0 on, and of which
    /// these fail.
    pub fn failing(self, fails: Vec<u64>) -> MemDisk
        ensures { result ≡ with_calls self (no_calls fails.items) }
    {
        let MemDisk {
            alloc,
            size,
            pages,
            changes,
            calls: _,
        } = self;
        MemDisk {
            alloc,
            size,
            pages,
            changes,
            calls: Calls::new(fails),
        }
    }

    /// How many changes it has recorded: each write that was begun, and each sync that succeeded.
    pub fn changes(&self) -> usize
        ensures { result ≡ length self.now.changes }
    {
        self.changes.len()
    }

    /// Another disk, as this one was after its first `count` changes, for tests of crashes: a crash
    /// since may have left it as it reads. Its calls are counted anew, and none of them is to fail.
    pub fn after_changes(&self, count: usize) -> Result<MemDisk, NoMemory>
        requires { count ≤ length self.now.changes }
        ensures value { IfOk result (λ d. d ≡ after_first count self.now) }
        ensures sized { IfOk result (λ d.
            length (told_of d).bytes ≡ length (told_of self.now).bytes) }
        ensures told { IfOk result (λ d. told_of d
            ≡ told_after self.now.size (take count self.now.changes)) }
        ensures left { IfOk result (λ d. (moment : ℕ) → moment ≤ (told_of d).moment →
            may_be_left self.now moment (told_of d).bytes) }
    {
        let mut disk = MemDisk::of_size(self.alloc, self.size, Vec::new(self.alloc));
        for index in 0..count {
            disk.replay(&self.changes[index])?;
        }
        Ok(disk)
    }

    /// Another disk, as a crash after the first `count` changes may have left this one: as it reads then,
    /// but for what `crash` takes of the writes that are unsettled. All of it is settled, and its calls
    /// are counted anew, none of which is to fail.
    pub fn crashed(&self, count: usize, crash: Crash<'_>) -> Result<MemDisk, NoMemory>
        requires { count ≤ length self.now.changes }
        ensures sized { IfOk result (λ d.
            length (told_of d).bytes ≡ length (told_of self.now).bytes) }
        ensures settled { IfOk result (λ d. (told_of d).unsettled ≡ []) }
        ensures left_then { IfOk result (λ d. MayLeaveAfter count self.now (told_of d).bytes) }
        ensures left { IfOk result (λ d. (moment : ℕ) → moment ≤ (told_then count self.now).moment →
            may_be_left self.now moment (told_of d).bytes) }
    {
        let settled = self.settled(count);
        let mut disk = self.after_changes(settled)?;
        for index in settled..count {
            disk.replay_write(&self.changes[index], crash, index - settled)?;
        }
        disk.settle()?;
        Ok(disk)
    }

    // How many of the first `count` changes there are up to the last sync among them.
    fn settled(&self, count: usize) -> usize
        requires { count ≤ length self.now.changes }
        ensures within { result ≤ count }
        ensures writes { AreWrites self.now.changes result count }
    {
        let mut settled = 0;
        for index in 0..count {
            if let Change::Sync = &self.changes[index] {
                settled = index + 1;
            }
        }
        settled
    }

    // Makes and records what a crash leaves of a write that another disk of this size has recorded.
    fn replay_write(
        &mut self,
        change: &Change,
        crash: Crash<'_>,
        number: usize,
    ) -> Result<(), NoMemory>
        requires fits { FitsIn (length (told_of self.old).bytes) change.now }
        requires write { IsWrite change.now }
        ensures { OnOk result (KeepsLeft change.now (told_of self.old).bytes (told_of self.new).bytes) }
    {
        match change {
            Change::Write {
                place,
                count,
                bytes,
            } => {
                let bytes = bytes.bytes();
                let front = crash.front(number, bytes.len());
                self.put(*place, *count, &bytes[..front])
            }
            Change::Sync => Ok(()),
        }
    }

    // Makes and records a change that another disk of this size has recorded. It changes nothing where
    // memory is refused.
    fn replay(&mut self, change: &Change) -> Result<(), NoMemory>
        requires { FitsIn (length (told_of self.old).bytes) change.now }
        ensures ok { OnOk result (self.new ≡ with_change self.old change.now) }
        ensures err { OnErr result (self.new ≡ self.old) }
    {
        match change {
            Change::Write {
                place,
                count,
                bytes,
            } => self.put(*place, *count, bytes.bytes()),
            Change::Sync => self.settle(),
        }
    }

    // Puts bytes at the front of a write of `count` bytes, and records it. It changes nothing where
    // memory is refused.
    fn put(&mut self, place: u64, count: usize, bytes: &[u8]) -> Result<(), NoMemory>
        requires front { length bytes.now ≤ count }
        requires within { place + count ≤ length (told_of self.old).bytes }
        ensures ok { OnOk result (self.new ≡ with_change self.old (Write place count bytes.now)) }
        ensures err { OnErr result (self.new ≡ self.old) }
    {
        let change = Change::Write {
            place,
            count,
            bytes: Bytes::of(bytes.to_vec(self.alloc)?),
        };
        self.pages.make_room(place, bytes.len())?;
        self.changes.push(change)?;
        self.pages.put(place, bytes);
        Ok(())
    }

    // Records a sync. It changes nothing where memory is refused.
    fn settle(&mut self) -> Result<(), NoMemory>
        ensures ok { OnOk result (self.new ≡ with_change self.old Sync) }
        ensures err { OnErr result (self.new ≡ self.old) }
    {
        self.changes.push(Change::Sync)?;
        Ok(())
    }
}

impl Disk for MemDisk {
    ghost use Rattle.hm_disk_forms.specs.MemDisk.{MemPast, left_before};
    ghost use Rattle.hm_disk_forms.specs.MemLaws.{counts, only, earlier};
    ghost use Rattle.hm_disk_forms.specs.PastLaws.{splits, joins};

    ghost told = { λ d. Some (told_of d) };

    ghost left_since = { may_be_left };

    ghost Past = { MemPast };

    ghost past = { past_of };

    ghost left_before = { left_before };

    ghost faults = { λ d. d.calls.faults };

    ghost counts_now = { counts };

    ghost only_now = { only };

    ghost since_earlier = { earlier };

    ghost splits = { splits };

    ghost joins = { joins };

    /// Takes no memory. It fails exactly at a listed call.
    fn size(&mut self) -> Result<u64, Failed>
        ensures ok { IfOk result (λ size. size ≡ length (told_of self.old).bytes) }
        ensures same { told_of self.new ≡ told_of self.old }
        ensures past { past_of self.new ≡ past_of self.old }
        ensures any_moment { SameLeft (may_be_left self.old) (may_be_left self.new) }
        ensures cause { HasCause self.old.calls.faults self.new.calls.faults result }
        ensures change { OnlyCounts self.old self.new result }
    {
        self.calls.begin()?;
        Ok(self.size)
    }

    /// Takes no memory. It fails exactly at a listed call, and then leaves `buf` as it was.
    fn read_at(&mut self, place: u64, buf: &mut [u8]) -> Result<(), Failed>
        requires within { place + length buf.old ≤ length (told_of self.old).bytes }
        ensures ok { OnOk result
            (buf.new ≡ slice_range (told_of self.old).bytes place (place + length buf.old)) }
        ensures err { OnErr result (buf.new ≡ buf.old) }
        ensures same { told_of self.new ≡ told_of self.old }
        ensures past { past_of self.new ≡ past_of self.old }
        ensures any_moment { SameLeft (may_be_left self.old) (may_be_left self.new) }
        ensures cause { HasCause self.old.calls.faults self.new.calls.faults result }
        ensures change { OnlyCounts self.old self.new result }
    {
        self.calls.begin()?;
        self.pages.read(place, buf);
        Ok(())
    }

    /// A listed call fails and puts the first half of the bytes, rounded down. For want of memory a
    /// call fails too, and changes nothing.
    fn write_at(&mut self, place: u64, bytes: &[u8]) -> Result<(), Failed>
        requires within { place + length bytes.now ≤ length (told_of self.old).bytes }
        ensures ok { OnOk result (Written place bytes.now (told_of self.old) (told_of self.new)) }
        ensures err { OnErr result
            (MayBeTorn place (length bytes.now) (told_of self.old) (told_of self.new)) }
        ensures moment { (told_of self.new).moment ≡ (told_of self.old).moment }
        ensures past { past_of self.new ≡ past_of self.old }
        ensures any_moment { CallElapses place (length bytes.now) (may_be_left self.old)
            (may_be_left self.new) (told_of self.old) (told_of self.new) }
        ensures cause { HasCause self.old.calls.faults self.new.calls.faults result }
        ensures change { WriteChange self.old self.new place bytes.now result }
    {
        if self.calls.begin().is_err() {
            // The call has failed already, so a refused growth is no second fault.
            let _ = self.put(place, bytes.len(), &bytes[..bytes.len() / 2]);
            return Err(Failed);
        }
        match self.put(place, bytes.len(), bytes) {
            Ok(()) => Ok(()),
            Err(NoMemory) => Err(self.calls.fail()),
        }
    }

    /// A listed call fails, and so does one for want of memory for the record.
    fn sync(&mut self) -> Result<(), Failed>
        ensures ok { OnOk result (Synced (told_of self.old) (told_of self.new)) }
        ensures err { OnErr result (told_of self.new ≡ told_of self.old) }
        ensures past { OnErr result (past_of self.new ≡ past_of self.old) }
        ensures any_moment { SyncElapses (may_be_left self.old) (may_be_left self.new) (told_of self.old)
            (told_of self.new) }
        ensures cause { HasCause self.old.calls.faults self.new.calls.faults result }
        ensures change { Syncs self.old self.new result }
    {
        self.calls.begin()?;
        match self.settle() {
            Ok(()) => Ok(()),
            Err(NoMemory) => Err(self.calls.fail()),
        }
    }

    fn faults(&self) -> u64 {
        self.calls.faults()
    }
}
