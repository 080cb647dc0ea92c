// A store over a tree that tells nothing, and whose extents stand where a test wants them.
ghost use Rattle.hm_reblock_tests.specs.LooseStore.{loose_rooms};
ghost use Rattle.hm_types.specs.Faults.{IsCaused};
ghost use Rattle.hm_types.specs.Offset.{zone_of};

use crate::roomy::Roomy;
use hm_btree::{BTree, NodeTable};
use hm_key::{Base, Element, ElementStore, Extents, HasElements, HasRoom, is_element};
use hm_types::{
    Counted, Fault, HOff, INSERT_ROOM, Id, LARGE_ZONE, META_ZONE, SpaceFault, Zones, rounded,
};
use std::alloc::Global;

/// An extent, with the number of its references.
#[derive(Drop)]
pub(crate) struct Piece {
    pub at: HOff,
    pub bytes: Vec<u8>,
    pub refs: u32,
}

/// A store in memory that tells nothing of its content, as one over a device. After a number of
/// calls it refuses memory.
#[derive(Drop)]
pub(crate) struct LooseStore {
    tree: BTree<NodeTable>,
    /// Its extents, in the order in which they were placed, with those that have no reference left.
    pub pieces: Vec<Piece>,
    meta: u64,
    large: u64,
    small: u64,
    /// The byte of the volume where the next extent is placed.
    pub next: u64,
    /// How many searches were made.
    pub searches: u64,
    /// How many calls come before one that fails.
    pub left: u64,
}

impl LooseStore {
    ghost use Rattle.std.specs.Prelude.{◌≡◌, IfErr, IfOk};

    /// A store with no element.
    pub(crate) fn new(alloc: Global) -> Result<LooseStore, Fault> {
        let tree = match BTree::empty(NodeTable::new(alloc)) {
            Ok(tree) => tree,
            Err(_) => return Err(Fault::NoMemory),
        };
        Ok(LooseStore {
            tree,
            pieces: Vec::new(alloc),
            meta: 1 << 40,
            large: 1 << 40,
            small: 1 << 40,
            next: 0,
            searches: 0,
            left: u64::MAX,
        })
    }

    /// Adds an element whose payload stands at an offset and has a length.
    pub(crate) fn add(&mut self, base: &Base, payload: HOff, len: u32) -> Result<(), Fault> {
        let element = Element {
            base: *base,
            payload,
            len,
        };
        if !is_element(&element) || self.tree.space().room() < u64::from(INSERT_ROOM) {
            return Err(Fault::NoMemory);
        }
        self.insert(&element)
    }

    // Whether the next call may go on.
    fn may_go(&mut self) -> bool
        ensures tree { self.new.tree ≡ self.old.tree }
        ensures rooms { (self.new.meta ≡ self.old.meta) × (self.new.large ≡ self.old.large)
            × (self.new.small ≡ self.old.small) }
    {
        if self.left == 0 {
            return false;
        }
        self.left -= 1;
        true
    }

    /// The extent at an offset that has references.
    pub(crate) fn piece(&self, at: HOff) -> Option<&Piece> {
        for piece in self.pieces.iter() {
            if piece.at == at && piece.refs > 0 {
                return Some(piece);
            }
        }
        None
    }

    // Changes the references of the extent at an offset.
    fn refer(&mut self, at: HOff, more: bool) -> Result<(), Fault>
        ensures caused { IfErr result (IsCaused 0 0) }
        ensures tree { self.new.tree ≡ self.old.tree }
        ensures rooms { (self.new.meta ≡ self.old.meta) × (self.new.large ≡ self.old.large)
            × (self.new.small ≡ self.old.small) }
    {
        if !self.may_go() {
            return Err(Fault::NoMemory);
        }
        for piece in self.pieces.iter_mut() {
            if piece.at == at && piece.refs > 0 {
                piece.refs = if more {
                    piece.refs.saturating_add(1)
                } else {
                    piece.refs.saturating_sub(1)
                };
                return Ok(());
            }
        }
        Err(Fault::NoMemory)
    }
}

impl Counted for LooseStore {
    ghost faults = { λ _. 0 };

    ghost name = { λ _. 0 };

    ghost frame = { λ _. tt };
}

impl HasRoom for LooseStore {
    ghost use Rattle.std.specs.Prelude.{None};

    ghost room = { λ s. loose_rooms s.meta s.large s.small
        (⟦<BTree<NodeTable> as HasRoom>⟧.room s.tree) };

    ghost free = { λ _. 0 };

    ghost extents = { λ _. None };
}

impl HasElements for LooseStore {
    ghost use Rattle.std.specs.Prelude.{None};

    ghost elements = { λ _. None };

    ghost mark = { λ _ _. 0 };
}

impl Roomy for LooseStore {
    fn zone_room(&self, zone: u8) -> u64 {
        match zone {
            META_ZONE => self.meta,
            LARGE_ZONE => self.large,
            _ => self.small,
        }
    }
}

impl ElementStore for LooseStore {
    ghost sorted = { λ _. tt };

    ghost marked = { λ _. tt };

    fn first_at_or_after(&mut self, at: &Base) -> Result<Option<Element>, Fault> {
        if !self.may_go() {
            return Err(Fault::NoMemory);
        }
        self.searches = self.searches.saturating_add(1);
        self.tree.first_at_or_after(at)
    }

    fn last_at_or_before(&mut self, at: &Base) -> Result<Option<Element>, Fault> {
        self.tree.last_at_or_before(at)
    }

    fn insert(&mut self, e: &Element) -> Result<(), Fault> {
        self.tree.insert(e)
    }

    fn set_delete(&mut self, at: &Base, delete: u64) -> Result<(), Fault> {
        self.tree.set_delete(at, delete)
    }

    fn remove(&mut self, at: &Base) -> Result<(), Fault> {
        self.tree.remove(at)
    }

    fn readdress(&mut self, at: &Base, to: HOff) -> Result<(), Fault> {
        if !self.may_go() {
            return Err(Fault::NoMemory);
        }
        self.tree.readdress(at, to)
    }

    fn unchanged_until(&mut self, at: &Base, since: Id) -> Result<Option<Base>, Fault> {
        self.tree.unchanged_until(at, since)
    }
}

impl Extents for LooseStore {
    ghost use Rattle.std.specs.Prelude.{refl};

    ghost live = { λ _. tt };

    ghost together = { λ _. refl };

    fn admit(&mut self, _zones: Zones, _held: u32) -> Result<(), SpaceFault> {
        Err(SpaceFault::Fault(Fault::NoMemory))
    }

    fn fetch(&mut self, at: HOff, buf: &mut [u8]) -> Result<(), Fault> {
        if !self.may_go() {
            return Err(Fault::NoMemory);
        }
        let Some(piece) = self.piece(at) else {
            return Err(Fault::NoMemory);
        };
        if piece.bytes.len() < buf.len() {
            return Err(Fault::NoMemory);
        }
        buf.copy_from_slice(&piece.bytes[..buf.len()]);
        Ok(())
    }

    fn place(&mut self, zone: u8, bytes: &[u8]) -> Result<HOff, Fault> {
        if !self.may_go() {
            return Err(Fault::NoMemory);
        }
        let Some(at) = HOff::make(zone, self.next) else {
            return Err(Fault::NoMemory);
        };
        let len = rounded(bytes.len() as u64);
        let mut whole = Vec::from_slice(*self.pieces.allocator(), bytes)?;
        whole.resize(len as usize, 0)?;
        self.pieces.push(Piece {
            at,
            bytes: whole,
            refs: 1,
        })?;
        self.next = self.next.saturating_add(len);
        match zone {
            META_ZONE => self.meta -= len,
            LARGE_ZONE => self.large -= len,
            _ => self.small -= len,
        }
        Ok(at)
    }

    fn share(&mut self, at: HOff, _len: u32) -> Result<(), Fault> {
        self.refer(at, true)
    }

    fn give_back(&mut self, at: HOff, _len: u32) -> Result<(), Fault> {
        self.refer(at, false)
    }
}
