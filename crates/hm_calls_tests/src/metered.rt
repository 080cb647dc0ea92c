// A store that counts its calls, of which one may fail.
ghost use Rattle.std.specs.Prelude.{◌≡◌, ◌≤◌, IfSome};
ghost use Rattle.hm_types.specs.Faults.{IsCaused};

use hm_key::{Base, Element, ElementStore, Extents, HasElements, HasRoom};
use hm_types::{Counted, Fault, HOff, Id, SpaceFault, Zones};

/// How many calls of a kind were made.
#[derive(Clone, Copy, Debug, PartialEq, Eq)]
pub(crate) struct Counts {
    pub searches: u64,
    pub fetches: u64,
    /// Calls that write, but for `admit`.
    pub writes: u64,
    pub admits: u64,
}

/// A store, how many calls were made of it, and which of them fails.
#[derive(Drop)]
pub(crate) struct Metered<T> {
    pub store: T,
    pub counts: Counts,
    /// How many calls come before the one that fails.
    pub left: u64,
    /// Whether the medium fails then. Else memory is refused.
    pub is_media: bool,
    /// How often the medium failed.
    pub failed: u64,
}

impl<T> Metered<T> {
    /// A store of which no call was made yet.
    pub(crate) fn new(store: T, left: u64, is_media: bool) -> Metered<T>
        ensures { result.store ≡ store }
    {
        let counts = Counts {
            searches: 0,
            fetches: 0,
            writes: 0,
            admits: 0,
        };
        Metered {
            store,
            counts,
            left,
            is_media,
            failed: 0,
        }
    }

    // The fault of the next call, if it is the one that fails.
    fn turn(&mut self) -> Option<Fault>
        ensures store { self.new.store ≡ self.old.store }
        ensures count { self.old.failed ≤ self.new.failed }
        ensures cause { IfSome result (IsCaused self.old.failed self.new.failed) }
    {
        if self.left > 0 {
            self.left -= 1;
            return None;
        }
        if !self.is_media {
            return Some(Fault::NoMemory);
        }
        let before = self.failed;
        self.failed = before.saturating_add(1);
        Some(Fault::Media {
            before,
            after: self.failed,
        })
    }
}

impl<T: Counted> Counted for Metered<T> {
    ghost faults = { λ s. s.failed };

    ghost name = { λ s. T.name s.store };

    ghost Frame = { T.Frame };

    ghost frame = { λ s. T.frame s.store };
}

impl<T: HasRoom> HasRoom for Metered<T> {
    ghost room = { λ s. T.room s.store };

    ghost free = { λ s. T.free s.store };

    ghost extents = { λ s. T.extents s.store };
}

impl<T: HasElements> HasElements for Metered<T> {
    ghost elements = { λ s. T.elements s.store };

    ghost mark = { λ s. T.mark s.store };
}

// A store of the tests fails for want of memory alone.
impl<T: ElementStore> ElementStore for Metered<T> {
    ghost sorted = { λ s. T.ElementStore.sorted s.store };

    ghost marked = { λ s. T.ElementStore.marked s.store };

    fn first_at_or_after(&mut self, at: &Base) -> Result<Option<Element>, Fault> {
        self.counts.searches = self.counts.searches.saturating_add(1);
        match self.turn() {
            None => {}
            Some(Fault::Media { before, after }) => return Err(Fault::Media { before, after }),
            Some(_) => return Err(Fault::NoMemory),
        }
        match self.store.first_at_or_after(at) {
            Ok(found) => Ok(found),
            Err(_) => Err(Fault::NoMemory),
        }
    }

    fn last_at_or_before(&mut self, at: &Base) -> Result<Option<Element>, Fault> {
        self.counts.searches = self.counts.searches.saturating_add(1);
        match self.turn() {
            None => {}
            Some(Fault::Media { before, after }) => return Err(Fault::Media { before, after }),
            Some(_) => return Err(Fault::NoMemory),
        }
        match self.store.last_at_or_before(at) {
            Ok(found) => Ok(found),
            Err(_) => Err(Fault::NoMemory),
        }
    }

    fn insert(&mut self, e: &Element) -> Result<(), Fault> {
        self.counts.writes = self.counts.writes.saturating_add(1);
        match self.turn() {
            None => {}
            Some(Fault::Media { before, after }) => return Err(Fault::Media { before, after }),
            Some(_) => return Err(Fault::NoMemory),
        }
        match self.store.insert(e) {
            Ok(()) => Ok(()),
            Err(_) => Err(Fault::NoMemory),
        }
    }

    fn set_delete(&mut self, at: &Base, delete: u64) -> Result<(), Fault> {
        self.counts.writes = self.counts.writes.saturating_add(1);
        match self.turn() {
            None => {}
            Some(Fault::Media { before, after }) => return Err(Fault::Media { before, after }),
            Some(_) => return Err(Fault::NoMemory),
        }
        match self.store.set_delete(at, delete) {
            Ok(()) => Ok(()),
            Err(_) => Err(Fault::NoMemory),
        }
    }

    fn remove(&mut self, at: &Base) -> Result<(), Fault> {
        self.counts.writes = self.counts.writes.saturating_add(1);
        match self.turn() {
            None => {}
            Some(Fault::Media { before, after }) => return Err(Fault::Media { before, after }),
            Some(_) => return Err(Fault::NoMemory),
        }
        match self.store.remove(at) {
            Ok(()) => Ok(()),
            Err(_) => Err(Fault::NoMemory),
        }
    }

    fn readdress(&mut self, at: &Base, to: HOff) -> Result<(), Fault> {
        self.counts.writes = self.counts.writes.saturating_add(1);
        match self.turn() {
            None => {}
            Some(Fault::Media { before, after }) => return Err(Fault::Media { before, after }),
            Some(_) => return Err(Fault::NoMemory),
        }
        match self.store.readdress(at, to) {
            Ok(()) => Ok(()),
            Err(_) => Err(Fault::NoMemory),
        }
    }

    fn unchanged_until(&mut self, at: &Base, since: Id) -> Result<Option<Base>, Fault> {
        self.counts.searches = self.counts.searches.saturating_add(1);
        match self.turn() {
            None => {}
            Some(Fault::Media { before, after }) => return Err(Fault::Media { before, after }),
            Some(_) => return Err(Fault::NoMemory),
        }
        match self.store.unchanged_until(at, since) {
            Ok(end) => Ok(end),
            Err(_) => Err(Fault::NoMemory),
        }
    }
}

impl<T: Extents> Extents for Metered<T> {
    ghost live = { λ s. T.Extents.live s.store };

    ghost together = { λ s. T.Extents.together s.store };

    fn admit(&mut self, zones: Zones, held: u32) -> Result<(), SpaceFault> {
        self.counts.admits = self.counts.admits.saturating_add(1);
        match self.turn() {
            None => {}
            Some(Fault::Media { before, after }) => {
                return Err(SpaceFault::Fault(Fault::Media { before, after }));
            }
            Some(_) => return Err(SpaceFault::Fault(Fault::NoMemory)),
        }
        match self.store.admit(zones, held) {
            Err(SpaceFault::Fault(_)) => Err(SpaceFault::Fault(Fault::NoMemory)),
            admitted => admitted,
        }
    }

    fn fetch(&mut self, at: HOff, buf: &mut [u8]) -> Result<(), Fault> {
        self.counts.fetches = self.counts.fetches.saturating_add(1);
        match self.turn() {
            None => {}
            Some(Fault::Media { before, after }) => return Err(Fault::Media { before, after }),
            Some(_) => return Err(Fault::NoMemory),
        }
        match self.store.fetch(at, buf) {
            Ok(()) => Ok(()),
            Err(_) => Err(Fault::NoMemory),
        }
    }

    fn place(&mut self, zone: u8, bytes: &[u8]) -> Result<HOff, Fault> {
        self.counts.writes = self.counts.writes.saturating_add(1);
        match self.turn() {
            None => {}
            Some(Fault::Media { before, after }) => return Err(Fault::Media { before, after }),
            Some(_) => return Err(Fault::NoMemory),
        }
        match self.store.place(zone, bytes) {
            Ok(at) => Ok(at),
            Err(_) => Err(Fault::NoMemory),
        }
    }

    fn share(&mut self, at: HOff, len: u32) -> Result<(), Fault> {
        self.counts.writes = self.counts.writes.saturating_add(1);
        match self.turn() {
            None => {}
            Some(Fault::Media { before, after }) => return Err(Fault::Media { before, after }),
            Some(_) => return Err(Fault::NoMemory),
        }
        match self.store.share(at, len) {
            Ok(()) => Ok(()),
            Err(_) => Err(Fault::NoMemory),
        }
    }

    fn give_back(&mut self, at: HOff, len: u32) -> Result<(), Fault> {
        self.counts.writes = self.counts.writes.saturating_add(1);
        match self.turn() {
            None => {}
            Some(Fault::Media { before, after }) => return Err(Fault::Media { before, after }),
            Some(_) => return Err(Fault::NoMemory),
        }
        match self.store.give_back(at, len) {
            Ok(()) => Ok(()),
            Err(_) => Err(Fault::NoMemory),
        }
    }
}
