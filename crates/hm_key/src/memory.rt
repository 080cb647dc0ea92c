// A store in memory.
ghost use Rattle.std.specs.Prelude.{refl};
ghost use Rattle.hm_key.specs.Memory.{AreMarked};
ghost use Rattle.hm_key.specs.Props.{AllMarked-prop};

use crate::base::Base;
use crate::element::Element;
use crate::element_list::ElementList;
use crate::extent_list::ExtentList;
use crate::extents::Extents;
use crate::mark_list::MarkList;
use crate::room::HasRoom;
use crate::rooms::Rooms;
use crate::store::{ElementStore, HasElements};
use hm_types::{Counted, Fault, HOff, Id, SpaceFault, Zones, rounded};
use std::alloc::Global;
use std::cmp::Ordering;

/// A store in memory that tells its whole content. It is for tests and for a plain meaning of what
/// a store is: each call looks through a whole list, and none copies one.
///
/// The mark of a key is the greatest id that was written there, and 0 where none was. Its rooms are
/// numbers alone: an element takes no room, and a big-block that was used up does not become free.
#[derive(Drop)]
pub struct MemStore {
    elements: ElementList,
    marks: MarkList,
    extents: ExtentList,
    rooms: Rooms,
    free: u32,
    ghost marked: { AreMarked marks.list.items elements.list.items } by { AllMarked-prop _ _ },
}

impl Counted for MemStore {
    ghost faults = { λ _. 0 };

    ghost name = { λ _. 0 };

    ghost frame = { λ _. tt };
}

impl HasRoom for MemStore {
    ghost use Rattle.std.specs.Prelude.{Some};
    ghost use Rattle.hm_key.specs.Memory.{extents_of, room_of};

    ghost room = { λ s. room_of s.rooms };

    ghost free = { λ s. s.free };

    ghost extents = { λ s. Some (extents_of s.extents.list.items) };
}

impl HasElements for MemStore {
    ghost use Rattle.std.specs.Prelude.{Some};
    ghost use Rattle.hm_key.specs.Memory.{mark_of};

    ghost elements = { λ s. Some s.elements.list.items };

    ghost mark = { λ s. mark_of s.marks.list.items };
}

impl MemStore {
    ghost use Rattle.std.specs.Prelude.{◌≡◌, [], Some, IfSome, is_some, option_map};
    ghost use Rattle.hm_key.specs.Elements.{element_at};
    ghost use Rattle.hm_key.specs.Extents.{extent_at};
    ghost use Rattle.hm_key.specs.Key.{key_of};
    ghost use Rattle.hm_key.specs.Memory.{fresh_room, length_and_references};

    /// An empty store, in which each of the zones 8 to 11 has a fresh append big-block, and `free`
    /// big-blocks are free besides. Takes no memory.
    pub fn new(alloc: Global, free: u32) -> MemStore
        ensures elements { ⟦<MemStore as HasElements>⟧.elements result ≡ Some [] }
        ensures extents { ⟦<MemStore as HasRoom>⟧.extents result ≡ Some [] }
        ensures room { ⟦<MemStore as HasRoom>⟧.room result ≡ fresh_room }
        ensures free { ⟦<MemStore as HasRoom>⟧.free result ≡ free }
    {
        MemStore {
            elements: ElementList::new(alloc),
            marks: MarkList::new(alloc),
            extents: ExtentList::new(alloc),
            rooms: Rooms::fresh(),
            free,
        }
    }

    /// The elements, in the order of their keys.
    pub fn elements(&self) -> &[Element]
        ensures { ⟦<MemStore as HasElements>⟧.elements self.now ≡ Some result.now }
    {
        &self.elements.list
    }

    /// Whether an element stands at the key of `at`.
    pub fn has(&self, at: &Base) -> bool
        ensures { IfSome (⟦<MemStore as HasElements>⟧.elements self.now)
            (λ es. result ≡ is_some (element_at (key_of at.now) es)) }
    {
        match self.elements.first_from(at) {
            Some(element) => element.base.order(at) == Ordering::Equal,
            None => false,
        }
    }

    /// The length in bytes of the live extent at `at`, and how many references it has.
    pub fn extent(&self, at: HOff) -> Option<(usize, u32)>
        ensures { IfSome (⟦<MemStore as HasRoom>⟧.extents self.now)
            (λ xs. result ≡ option_map length_and_references (extent_at at xs)) }
    {
        self.extents.extent(at)
    }

    /// The room of a zone, in bytes. It is 0 for a zone other than 8 to 11.
    pub fn room(&self, zone: u8) -> u64
        ensures { result ≡ ⟦<MemStore as HasRoom>⟧.room self.now zone }
    {
        self.rooms.of(zone)
    }

    /// The number of free big-blocks.
    pub fn free(&self) -> u32
        ensures { result ≡ ⟦<MemStore as HasRoom>⟧.free self.now }
    {
        self.free
    }
}

impl ElementStore for MemStore {
    ghost sorted = { λ s. s.elements.content };

    ghost marked = { λ s. s.marked };

    fn first_at_or_after(&mut self, at: &Base) -> Result<Option<Element>, Fault> {
        Ok(self.elements.first_from(at))
    }

    fn last_at_or_before(&mut self, at: &Base) -> Result<Option<Element>, Fault> {
        Ok(self.elements.last_to(at))
    }

    fn insert(&mut self, e: &Element) -> Result<(), Fault> {
        self.marks.raise(&e.base, e.base.create.max(e.base.delete))?;
        self.elements.insert(e)?;
        Ok(())
    }

    fn set_delete(&mut self, at: &Base, delete: u64) -> Result<(), Fault> {
        self.marks.raise(at, delete)?;
        self.elements.set_delete(at, delete);
        Ok(())
    }

    fn remove(&mut self, at: &Base) -> Result<(), Fault> {
        self.elements.remove(at);
        Ok(())
    }

    fn readdress(&mut self, at: &Base, to: HOff) -> Result<(), Fault> {
        self.elements.readdress(at, to);
        Ok(())
    }

    fn unchanged_until(&mut self, at: &Base, since: Id) -> Result<Option<Base>, Fault> {
        if self.marks.of(at) > since.0 {
            Ok(None)
        } else {
            Ok(Some(self.marks.end_after(at, since.0)))
        }
    }
}

impl Extents for MemStore {
    ghost live = { λ s. s.extents.live };

    ghost together = { λ s. refl };

    fn admit(&mut self, zones: Zones, held: u32) -> Result<(), SpaceFault> {
        let needed = self.rooms.needed(zones);
        if needed > self.free.saturating_sub(held) {
            return Err(SpaceFault::NoSpace {
                free: self.free,
                needed,
            });
        }
        self.free -= needed;
        self.rooms.renew(zones);
        Ok(())
    }

    fn fetch(&mut self, at: HOff, buf: &mut [u8]) -> Result<(), Fault> {
        self.extents.fetch(at, buf);
        Ok(())
    }

    fn place(&mut self, zone: u8, bytes: &[u8]) -> Result<HOff, Fault> {
        let at = self.extents.place(zone, bytes)?;
        self.rooms.take(zone, rounded(bytes.len() as u64));
        Ok(at)
    }

    fn share(&mut self, at: HOff, _len: u32) -> Result<(), Fault> {
        self.extents.share(at);
        Ok(())
    }

    fn give_back(&mut self, at: HOff, _len: u32) -> Result<(), Fault> {
        self.extents.give_back(at);
        Ok(())
    }
}
