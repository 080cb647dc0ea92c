// A small store on a toy disk: bytes that are committed, and behind them a log of what was changed.
ghost use Rattle.std.specs.Prelude.{◌≡◌, ◌≤◌, ℕ, IfSome, IfOk, length};
ghost use Rattle.std.proofs.Props.{props};
ghost use Rattle.hm_key.specs.LogStore.{HoldsCommitted};

use crate::base::Base;
use crate::element::Element;
use crate::extents::Extents;
use crate::room::HasRoom;
use crate::rooms::Rooms;
use crate::store::{ElementStore, HasElements};
use crate::toy_disk::Disk;
use hm_types::{Counted, Failed, Fault, HOff, Id, SpaceFault, Zones, rounded};

/// A store that tells neither elements nor extents, and finds none. Its committed bytes stand at the
/// front of the disk, and each call that changes something writes a byte behind all others.
#[derive(Drop)]
pub struct LogStore<D: Disk> {
    pub disk: D,
    pub committed: Vec<u8>,
    // The place of the next byte of the log, and the end of the disk.
    next: u64,
    size: u64,
    pub rooms: Rooms,
    free: u32,
    ghost behind: { length committed.items ≤ next },
    ghost safe: { IfSome (D.told disk) (HoldsCommitted committed.items size) } by { Prim.hlevel props },
}

impl<D: Disk> Counted for LogStore<D> {
    ghost use Rattle.hm_key.specs.LogStore.{LogFrame, log_frame};

    ghost faults = { λ s. D.faults s.disk };

    ghost name = { λ _. 0 };

    ghost Frame = { LogFrame };

    ghost frame = { λ s. log_frame s.committed.items (D.told s.disk) };
}

impl<D: Disk> HasRoom for LogStore<D> {
    ghost use Rattle.std.specs.Prelude.{None};
    ghost use Rattle.hm_key.specs.Memory.{room_of};

    ghost room = { λ s. room_of s.rooms };

    ghost free = { λ s. s.free };

    ghost extents = { λ _. None };
}

impl<D: Disk> HasElements for LogStore<D> {
    ghost use Rattle.std.specs.Prelude.{None};

    ghost elements = { λ _. None };

    ghost mark = { λ _ _. 0 };
}

impl<D: Disk> LogStore<D> {
    ghost use Rattle.hm_types.specs.Faults.{HasFaultCause};
    ghost use Rattle.hm_key.specs.LogStore.{Recovers, log_frame};

    /// A store over these bytes, which stand at the front of the disk, with an empty log. A failed
    /// sync hands back the disk.
    pub fn over(disk: D, committed: Vec<u8>, size: u64) -> Result<LogStore<D>, (D, Failed)>
        requires size { IfSome (D.told disk) (λ t. size ≤ length t.bytes) }
        requires stands { IfSome (D.told disk) (λ t. Recovers committed.items t.bytes) }
        ensures { IfOk result (λ store. store.committed.items ≡ committed.items) }
    {
        let mut disk = disk;
        match disk.sync() {
            Ok(()) => Ok(LogStore {
                next: committed.len() as u64,
                disk,
                committed,
                size,
                rooms: Rooms::fresh(),
                free: 4,
            }),
            Err(Failed) => Err((disk, Failed)),
        }
    }

    // Writes a byte behind all others. The log of a full disk takes no more.
    #[tactic(auto, unfolding(crate::specs::LogStore::log_frame))]
    fn append(&mut self, byte: u8) -> Result<(), Fault>
        ensures rooms { self.new.rooms ≡ self.old.rooms }
        ensures free { self.new.free ≡ self.old.free }
        ensures frame { log_frame self.new.committed.items (D.told self.new.disk)
            ≡ log_frame self.old.committed.items (D.told self.old.disk) }
        ensures cause { HasFaultCause (D.faults self.old.disk) (D.faults self.new.disk) result }
    {
        if self.next >= self.size {
            return Err(Fault::NoMemory);
        }
        let before = self.disk.faults();
        match self.disk.write_at(self.next, byte) {
            Ok(()) => {
                self.next += 1;
                Ok(())
            }
            Err(Failed) => Err(Fault::Media {
                before,
                after: self.disk.faults(),
            }),
        }
    }

    // Reads the last byte of the log, where there is one.
    #[tactic(auto, unfolding(crate::specs::LogStore::log_frame))]
    fn last(&mut self) -> Result<Option<u8>, Fault>
        ensures rooms { self.new.rooms ≡ self.old.rooms }
        ensures free { self.new.free ≡ self.old.free }
        ensures frame { log_frame self.new.committed.items (D.told self.new.disk)
            ≡ log_frame self.old.committed.items (D.told self.old.disk) }
        ensures cause { HasFaultCause (D.faults self.old.disk) (D.faults self.new.disk) result }
    {
        if self.next > self.size || self.next <= self.committed.len() as u64 {
            return Ok(None);
        }
        let before = self.disk.faults();
        match self.disk.read_at(self.next - 1) {
            Ok(byte) => Ok(Some(byte)),
            Err(Failed) => Err(Fault::Media {
                before,
                after: self.disk.faults(),
            }),
        }
    }
}

impl<D: Disk> ElementStore for LogStore<D> {
    ghost sorted = { λ _. tt };

    ghost marked = { λ _. tt };

    fn first_at_or_after(&mut self, _at: &Base) -> Result<Option<Element>, Fault> {
        let _last = self.last()?;
        Ok(None)
    }

    fn last_at_or_before(&mut self, _at: &Base) -> Result<Option<Element>, Fault> {
        let _last = self.last()?;
        Ok(None)
    }

    fn insert(&mut self, _e: &Element) -> Result<(), Fault> {
        self.append(b'i')
    }

    fn set_delete(&mut self, _at: &Base, _delete: u64) -> Result<(), Fault> {
        self.append(b'd')
    }

    fn remove(&mut self, _at: &Base) -> Result<(), Fault> {
        self.append(b'r')
    }

    fn readdress(&mut self, _at: &Base, _to: HOff) -> Result<(), Fault> {
        self.append(b'a')
    }

    fn unchanged_until(&mut self, _at: &Base, _since: Id) -> Result<Option<Base>, Fault> {
        let _last = self.last()?;
        Ok(None)
    }
}

impl<D: Disk> Extents for LogStore<D> {
    ghost use Rattle.std.specs.Prelude.{refl};

    ghost live = { λ _. tt };

    ghost together = { λ _. refl };

    fn admit(&mut self, zones: Zones, held: u32) -> Result<(), SpaceFault> {
        let needed = self.rooms.needed(zones);
        if needed > self.free.saturating_sub(held) {
            return Err(SpaceFault::NoSpace {
                free: self.free,
                needed,
            });
        }
        self.append(b'z')?;
        self.free -= needed;
        self.rooms.renew(zones);
        Ok(())
    }

    fn fetch(&mut self, _at: HOff, _buf: &mut [u8]) -> Result<(), Fault> {
        let _last = self.last()?;
        Ok(())
    }

    fn place(&mut self, zone: u8, bytes: &[u8]) -> Result<HOff, Fault> {
        let at = HOff::make(zone, self.next).ok_or(Fault::NoMemory)?;
        self.append(b'p')?;
        self.rooms.take(zone, rounded(bytes.len() as u64));
        Ok(at)
    }

    fn share(&mut self, _at: HOff, _len: u32) -> Result<(), Fault> {
        self.append(b's')
    }

    fn give_back(&mut self, _at: HOff, _len: u32) -> Result<(), Fault> {
        self.append(b'g')
    }
}
