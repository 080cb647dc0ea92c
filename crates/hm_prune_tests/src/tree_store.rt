// A store whose elements stand in a tree, and of whose extents it keeps the references.
ghost use Rattle.hm_prune_tests.specs.TreeStore.{rooms};
ghost use Rattle.hm_types.specs.Faults.{IsCaused};

use hm_btree::{BTree, NodeTable};
use hm_key::{Base, Element, ElementStore, Extents, HasElements, HasRoom, is_element};
use hm_types::{Counted, Fault, HOff, INSERT_ROOM, Id, META_ZONE, SpaceFault, Zones, rounded};
use std::alloc::Global;

// How many bytes an extent has here.
const EXTENT: u64 = 16;

/// A store in memory that tells nothing of its content, as one over a device. Each of its extents
/// has 16 bytes. After a number of searches and removals it refuses memory.
#[derive(Drop)]
pub(crate) struct TreeStore {
    tree: BTree<NodeTable>,
    /// How many references each extent has that was ever placed.
    pub references: Vec<u32>,
    room: u64,
    /// How many searches were made.
    pub searches: u64,
    /// How many searches, removals and references given back come before one that fails.
    pub left: u64,
}

impl TreeStore {
    ghost use Rattle.std.specs.Prelude.{◌≡◌, IfErr};

    /// A store with no element.
    pub(crate) fn new(alloc: Global) -> Result<TreeStore, Fault> {
        let tree = match BTree::empty(NodeTable::new(alloc)) {
            Ok(tree) => tree,
            Err(_) => return Err(Fault::NoMemory),
        };
        Ok(TreeStore {
            tree,
            references: Vec::new(alloc),
            room: 1 << 40,
            searches: 0,
            left: u64::MAX,
        })
    }

    /// Adds an element, with an extent of its own or one that it shares, and says where that stands.
    pub(crate) fn add(&mut self, base: &Base, shared: Option<HOff>) -> Result<HOff, Fault> {
        if self.room < EXTENT {
            return Err(Fault::NoMemory);
        }
        let payload = match shared {
            Some(at) => {
                self.share(at, 16)?;
                at
            }
            None => self.place(META_ZONE, b"0123456789abcdef")?,
        };
        let element = Element {
            base: *base,
            payload,
            len: 16,
        };
        if !is_element(&element) || self.tree.space().room() < u64::from(INSERT_ROOM) {
            return Err(Fault::NoMemory);
        }
        self.insert(&element)?;
        Ok(payload)
    }

    // Whether the next call may go on.
    fn may_go(&mut self) -> bool
        ensures tree { self.new.tree ≡ self.old.tree }
        ensures room { self.new.room ≡ self.old.room }
    {
        if self.left == 0 {
            return false;
        }
        self.left -= 1;
        true
    }

    // Changes the references of the extent at a place.
    fn refer(&mut self, at: HOff, more: bool) -> Result<(), Fault>
        ensures caused { IfErr result (IsCaused 0 0) }
        ensures tree { self.new.tree ≡ self.old.tree }
        ensures room { self.new.room ≡ self.old.room }
    {
        let place = at.byte() / EXTENT;
        let Some(references) = self.references.get_mut(place as usize) else {
            return Err(Fault::NoMemory);
        };
        if *references == 0 {
            return Err(Fault::NoMemory);
        }
        *references = if more {
            references.saturating_add(1)
        } else {
            references.saturating_sub(1)
        };
        Ok(())
    }
}

impl Counted for TreeStore {
    ghost faults = { λ _. 0 };

    ghost name = { λ _. 0 };

    ghost frame = { λ _. tt };
}

impl HasRoom for TreeStore {
    ghost use Rattle.std.specs.Prelude.{None};

    ghost room = { λ s. rooms s.room (⟦<BTree<NodeTable> as HasRoom>⟧.room s.tree) };

    ghost free = { λ _. 0 };

    ghost extents = { λ _. None };
}

impl HasElements for TreeStore {
    ghost use Rattle.std.specs.Prelude.{None};

    ghost elements = { λ _. None };

    ghost mark = { λ _ _. 0 };
}

impl ElementStore for TreeStore {
    ghost sorted = { λ _. tt };

    ghost marked = { λ _. tt };

    fn first_at_or_after(&mut self, at: &Base) -> Result<Option<Element>, Fault> {
        if !self.may_go() {
            return Err(Fault::NoMemory);
        }
        self.searches = self.searches.saturating_add(1);
        self.tree.first_at_or_after(at)
    }

    fn last_at_or_before(&mut self, at: &Base) -> Result<Option<Element>, Fault> {
        self.tree.last_at_or_before(at)
    }

    fn insert(&mut self, e: &Element) -> Result<(), Fault> {
        self.tree.insert(e)
    }

    fn set_delete(&mut self, at: &Base, delete: u64) -> Result<(), Fault> {
        self.tree.set_delete(at, delete)
    }

    fn remove(&mut self, at: &Base) -> Result<(), Fault> {
        if !self.may_go() {
            return Err(Fault::NoMemory);
        }
        self.tree.remove(at)
    }

    fn readdress(&mut self, at: &Base, to: HOff) -> Result<(), Fault> {
        self.tree.readdress(at, to)
    }

    fn unchanged_until(&mut self, at: &Base, since: Id) -> Result<Option<Base>, Fault> {
        self.tree.unchanged_until(at, since)
    }
}

impl Extents for TreeStore {
    ghost use Rattle.std.specs.Prelude.{refl};

    ghost live = { λ _. tt };

    ghost together = { λ _. refl };

    fn admit(&mut self, _zones: Zones, _held: u32) -> Result<(), SpaceFault> {
        Err(SpaceFault::Fault(Fault::NoMemory))
    }

    fn fetch(&mut self, _at: HOff, _buf: &mut [u8]) -> Result<(), Fault> {
        Err(Fault::NoMemory)
    }

    fn place(&mut self, zone: u8, bytes: &[u8]) -> Result<HOff, Fault> {
        let at = (self.references.len() as u64).saturating_mul(EXTENT);
        let Some(at) = HOff::make(zone, at) else {
            return Err(Fault::NoMemory);
        };
        if zone != META_ZONE {
            return Err(Fault::NoMemory);
        }
        self.references.push(1)?;
        self.room -= rounded(bytes.len() as u64);
        Ok(at)
    }

    fn share(&mut self, at: HOff, _len: u32) -> Result<(), Fault> {
        self.refer(at, true)
    }

    fn give_back(&mut self, at: HOff, _len: u32) -> Result<(), Fault> {
        if !self.may_go() {
            return Err(Fault::NoMemory);
        }
        self.refer(at, false)
    }
}
