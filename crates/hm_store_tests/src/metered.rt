// A store that counts the searches in it, and refuses memory after so many searches and reads.
ghost use Rattle.std.specs.Prelude.{◌≡◌};

use hm_key::{Base, Element, ElementStore, Extents, HasElements, HasRoom};
use hm_types::{Counted, Fault, HOff, Id, SpaceFault, Zones};

/// A store, how many searches were made in it, and how many searches and reads may still be made.
#[derive(Drop)]
pub(crate) struct Metered<T> {
    pub store: T,
    pub searches: u64,
    pub left: u64,
}

impl<T> Metered<T> {
    /// A store in which no search was made yet, and that refuses none.
    pub(crate) fn new(store: T) -> Metered<T>
        ensures { result.store ≡ store }
    {
        Metered::limited(store, u64::MAX)
    }

    /// A store in which no search was made yet, and of which so many searches and reads succeed.
    pub(crate) fn limited(store: T, left: u64) -> Metered<T>
        ensures { result.store ≡ store }
    {
        Metered {
            store,
            searches: 0,
            left,
        }
    }
}

impl<T: Counted> Counted for Metered<T> {
    ghost faults = { λ s. T.faults s.store };

    ghost name = { λ s. T.name s.store };

    ghost Frame = { T.Frame };

    ghost frame = { λ s. T.frame s.store };
}

impl<T: HasRoom> HasRoom for Metered<T> {
    ghost room = { λ s. T.room s.store };

    ghost free = { λ s. T.free s.store };

    ghost extents = { λ s. T.extents s.store };
}

impl<T: HasElements> HasElements for Metered<T> {
    ghost elements = { λ s. T.elements s.store };

    ghost mark = { λ s. T.mark s.store };
}

impl<T: ElementStore> ElementStore for Metered<T> {
    ghost sorted = { λ s. T.ElementStore.sorted s.store };

    ghost marked = { λ s. T.ElementStore.marked s.store };

    fn first_at_or_after(&mut self, at: &Base) -> Result<Option<Element>, Fault> {
        if self.left == 0 {
            return Err(Fault::NoMemory);
        }
        self.left -= 1;
        self.searches = self.searches.saturating_add(1);
        self.store.first_at_or_after(at)
    }

    fn last_at_or_before(&mut self, at: &Base) -> Result<Option<Element>, Fault> {
        if self.left == 0 {
            return Err(Fault::NoMemory);
        }
        self.left -= 1;
        self.searches = self.searches.saturating_add(1);
        self.store.last_at_or_before(at)
    }

    fn insert(&mut self, e: &Element) -> Result<(), Fault> {
        self.store.insert(e)
    }

    fn set_delete(&mut self, at: &Base, delete: u64) -> Result<(), Fault> {
        self.store.set_delete(at, delete)
    }

    fn remove(&mut self, at: &Base) -> Result<(), Fault> {
        self.store.remove(at)
    }

    fn readdress(&mut self, at: &Base, to: HOff) -> Result<(), Fault> {
        self.store.readdress(at, to)
    }

    fn unchanged_until(&mut self, at: &Base, since: Id) -> Result<Option<Base>, Fault> {
        self.store.unchanged_until(at, since)
    }
}

impl<T: Extents> Extents for Metered<T> {
    ghost live = { λ s. T.Extents.live s.store };

    ghost together = { λ s. T.Extents.together s.store };

    fn admit(&mut self, zones: Zones, held: u32) -> Result<(), SpaceFault> {
        self.store.admit(zones, held)
    }

    fn fetch(&mut self, at: HOff, buf: &mut [u8]) -> Result<(), Fault> {
        if self.left == 0 {
            return Err(Fault::NoMemory);
        }
        self.left -= 1;
        self.store.fetch(at, buf)
    }

    fn place(&mut self, zone: u8, bytes: &[u8]) -> Result<HOff, Fault> {
        self.store.place(zone, bytes)
    }

    fn share(&mut self, at: HOff, len: u32) -> Result<(), Fault> {
        self.store.share(at, len)
    }

    fn give_back(&mut self, at: HOff, len: u32) -> Result<(), Fault> {
        self.store.give_back(at, len)
    }
}
