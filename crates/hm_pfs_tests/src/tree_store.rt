// A store whose elements stand in a tree, and that keeps its payloads in memory.
ghost use Rattle.hm_pfs_tests.specs.TreeStore.{rooms};

use hm_btree::{BTree, NodeTable};
use hm_key::{Base, Element, ElementStore, Extents, HasElements, HasRoom};
use hm_types::{Counted, Fault, HOff, INSERT_ROOM, Id, META_ZONE, SpaceFault, Zones, rounded};
use std::alloc::Global;

// How far apart payloads stand here.
const STEP: u64 = 16;

/// A payload, and how many elements refer to it.
#[derive(Drop)]
pub(crate) struct Payload {
    pub bytes: Vec<u8>,
    pub references: u32,
}

/// A store in memory that tells nothing of its content, as one over a device. After a number of
/// calls it refuses memory.
#[derive(Drop)]
pub(crate) struct TreeStore {
    alloc: Global,
    tree: BTree<NodeTable>,
    /// Each payload that was ever placed.
    pub payloads: Vec<Payload>,
    room: u64,
    /// How many calls come before one that fails.
    pub left: u64,
}

impl TreeStore {
    ghost use Rattle.std.specs.Prelude.{◌≡◌, ◌≤◌, OnOk};

    /// A store with no element.
    pub(crate) fn new(alloc: Global) -> Result<TreeStore, Fault> {
        let tree = match BTree::empty(NodeTable::new(alloc)) {
            Ok(tree) => tree,
            Err(_) => return Err(Fault::NoMemory),
        };
        Ok(TreeStore {
            alloc,
            tree,
            payloads: Vec::new(alloc),
            room: 1 << 40,
            left: u64::MAX,
        })
    }

    /// The payload at a place, where one was put.
    pub(crate) fn payload(&self, at: HOff) -> Option<&Payload> {
        self.payloads.get((at.byte() / STEP) as usize)
    }

    /// Refuses memory where there is not room for any payload.
    pub(crate) fn need_room(&self) -> Result<(), Fault>
        ensures { OnOk result (65584 ≤ self.now.room) }
    {
        if self.room < 65_584 {
            return Err(Fault::NoMemory);
        }
        Ok(())
    }

    // Whether the next call may go on.
    fn may_go(&mut self) -> bool
        ensures { self.new.room ≡ self.old.room }
    {
        if self.left == 0 {
            return false;
        }
        self.left -= 1;
        true
    }
}

impl Counted for TreeStore {
    ghost faults = { λ _. 0 };

    ghost name = { λ _. 0 };

    ghost frame = { λ _. tt };
}

// The room for nodes is told as a number that never falls.
impl HasRoom for TreeStore {
    ghost use Rattle.std.specs.Prelude.{None};

    ghost room = { λ s. rooms s.room };

    ghost free = { λ _. 0 };

    ghost extents = { λ _. None };
}

impl HasElements for TreeStore {
    ghost use Rattle.std.specs.Prelude.{None};

    ghost elements = { λ _. None };

    ghost mark = { λ _ _. 0 };
}

impl ElementStore for TreeStore {
    ghost sorted = { λ _. tt };

    ghost marked = { λ _. tt };

    fn first_at_or_after(&mut self, at: &Base) -> Result<Option<Element>, Fault> {
        if !self.may_go() {
            return Err(Fault::NoMemory);
        }
        self.tree.first_at_or_after(at)
    }

    fn last_at_or_before(&mut self, at: &Base) -> Result<Option<Element>, Fault> {
        if !self.may_go() {
            return Err(Fault::NoMemory);
        }
        self.tree.last_at_or_before(at)
    }

    fn insert(&mut self, e: &Element) -> Result<(), Fault> {
        if !self.may_go() || self.tree.space().room() < u64::from(INSERT_ROOM) {
            return Err(Fault::NoMemory);
        }
        self.tree.insert(e)
    }

    fn set_delete(&mut self, at: &Base, delete: u64) -> Result<(), Fault> {
        self.tree.set_delete(at, delete)
    }

    fn remove(&mut self, at: &Base) -> Result<(), Fault> {
        if !self.may_go() {
            return Err(Fault::NoMemory);
        }
        self.tree.remove(at)
    }

    fn readdress(&mut self, at: &Base, to: HOff) -> Result<(), Fault> {
        self.tree.readdress(at, to)
    }

    fn unchanged_until(&mut self, at: &Base, since: Id) -> Result<Option<Base>, Fault> {
        self.tree.unchanged_until(at, since)
    }
}

impl Extents for TreeStore {
    ghost use Rattle.std.specs.Prelude.{refl};

    ghost live = { λ _. tt };

    ghost together = { λ _. refl };

    fn admit(&mut self, _zones: Zones, _held: u32) -> Result<(), SpaceFault> {
        Err(SpaceFault::Fault(Fault::NoMemory))
    }

    fn fetch(&mut self, at: HOff, buf: &mut [u8]) -> Result<(), Fault> {
        let len = buf.len();
        let Some(payload) = self.payload(at) else {
            return Err(Fault::NoMemory);
        };
        let Some(bytes) = payload.bytes.get(..len) else {
            return Err(Fault::NoMemory);
        };
        buf.copy_from_slice(bytes);
        Ok(())
    }

    fn place(&mut self, zone: u8, bytes: &[u8]) -> Result<HOff, Fault> {
        let at = (self.payloads.len() as u64).saturating_mul(STEP);
        let Some(at) = HOff::make(zone, at) else {
            return Err(Fault::NoMemory);
        };
        if zone != META_ZONE || !self.may_go() {
            return Err(Fault::NoMemory);
        }
        let copy = Vec::from_slice(self.alloc, bytes)?;
        self.payloads.push(Payload {
            bytes: copy,
            references: 1,
        })?;
        self.room -= rounded(bytes.len() as u64);
        Ok(at)
    }

    fn share(&mut self, _at: HOff, _len: u32) -> Result<(), Fault> {
        Err(Fault::NoMemory)
    }

    fn give_back(&mut self, at: HOff, _len: u32) -> Result<(), Fault> {
        if !self.may_go() {
            return Err(Fault::NoMemory);
        }
        let place = at.byte() / STEP;
        let Some(payload) = self.payloads.get_mut(place as usize) else {
            return Err(Fault::NoMemory);
        };
        if payload.references == 0 {
            return Err(Fault::NoMemory);
        }
        payload.references -= 1;
        Ok(())
    }
}
