// A space of nodes in a table.
ghost use Rattle.std.proofs.Props.{props};
ghost use Rattle.hm_node.specs.Props.{HoldsNode-prop};
ghost use Rattle.hm_node.specs.Shape.{HoldsNode};
ghost use Rattle.hm_btree.specs.MemSpace.{room_of};

use crate::space::{MOST_NODES, NODE_BYTES, NodeSpace};
use hm_fields::{Page, Pages};
use hm_key::HasRoom;
use hm_node::{NodePages, Rule};
use hm_types::{BAD_LEVEL, Counted, Fault, HOff, TREE_ZONE};
use std::alloc::Global;
use std::cell::Cell;

// How many bytes of room a table begins with: more than memory has.
const ROOM: u64 = 1 << 42;

// The page of a node.
#[derive(Drop)]
struct Stored {
    page: Box<Page>,
    ghost node: { HoldsNode page.value } by { Prim.hlevel (HoldsNode-prop, props) },
}

// A place of the table.
#[derive(Drop)]
enum Slot {
    // No page stands there.
    Free,
    // The page of a node does.
    Node(Stored),
    // A page does that breaks a rule by itself.
    Broken(Rule),
}

/// Nodes in a table in memory, each at its place, which tells nothing of them, as the space of a
/// volume on a device. It is there for tests, and for tools that measure. It counts how many nodes
/// are read, or looked at, and written. Its frame is the write from which on it refuses.
#[derive(Drop)]
pub struct NodeTable {
    alloc: Global,
    pages: Vec<Slot>,
    room: u64,
    // A page that is looked at in a space that is not changed counts too.
    reads: Cell<u64>,
    writes: u64,
    refused: u64,
}

impl NodeTable {
    ghost use Rattle.std.specs.Prelude.{◌≡◌, ℕ, None, IfOk};
    ghost use Rattle.hm_types.specs.Faults.{HasStoreCause};

    /// No node. It takes no memory.
    pub fn new(alloc: Global) -> NodeTable
        ensures { result.room ≡ ROOM }
    {
        NodeTable {
            alloc,
            pages: Vec::new(alloc),
            room: ROOM,
            reads: Cell::new(0),
            writes: 0,
            refused: u64::MAX,
        }
    }

    /// How many nodes were read, or looked at.
    pub fn reads(&self) -> u64 {
        self.reads.get()
    }

    /// How many nodes were written, new ones among them.
    pub fn writes(&self) -> u64 {
        self.writes
    }

    /// How many nodes there are.
    pub fn len(&self) -> usize {
        let mut nodes: usize = 0;
        for page in self.pages.iter() {
            if !matches!(page, Slot::Free) {
                nodes = nodes.saturating_add(1);
            }
        }
        nodes
    }

    /// How many bytes of room are left in zone 8.
    pub fn room(&self) -> u64
        ensures { result ≡ self.now.room }
    {
        self.room
    }

    /// A page stands at `at` that breaks this rule by itself: each read of it tells that damage, as a
    /// space over a device does, until another is put there. Does nothing where no page stands.
    pub fn spoil(&mut self, at: HOff, rule: Rule)
        ensures room { self.new.room ≡ self.old.room }
        ensures frame { self.new.refused ≡ self.old.refused }
    {
        let place = at.byte() / u64::from(NODE_BYTES);
        if let Some(slot) = self.pages.get_mut(place as usize) {
            *slot = Slot::Broken(rule);
        }
    }

    /// From this write on, counted from 0, each is refused for want of memory.
    pub fn refuse_from(&mut self, write: u64)
        ensures { self.new.room ≡ self.old.room }
    {
        self.refused = write;
    }

    // Counts a read.
    fn read(&self) {
        self.reads.set(self.reads.get().saturating_add(1));
    }

    // Counts a write, unless it is refused.
    fn write(&mut self) -> Result<(), Fault>
        ensures cause { HasStoreCause {A = ℕ} None 0 0 result }
        ensures room { self.new.room ≡ self.old.room }
        ensures frame { self.new.refused ≡ self.old.refused }
    {
        if self.writes >= self.refused {
            return Err(Fault::NoMemory);
        }
        self.writes = self.writes.saturating_add(1);
        Ok(())
    }

    // The page at a place, or what it is damaged by.
    fn at(&self, at: HOff) -> Result<&Page, u8>
        ensures { IfOk result (λ page. HoldsNode page.now) }
    {
        let place = at.byte() / u64::from(NODE_BYTES);
        match self.pages.get(place as usize) {
            Some(Slot::Node(stored)) => Ok(&*stored.page),
            Some(Slot::Broken(rule)) => Err(rule.kind()),
            _ => Err(BAD_LEVEL),
        }
    }
}

impl Counted for NodeTable {
    ghost use Rattle.std.specs.Prelude.{ℕ};

    ghost faults = { λ _. 0 };

    ghost name = { λ _. 0 };

    ghost Frame = { ℕ };

    ghost frame = { λ t. t.refused };
}

impl HasRoom for NodeTable {
    ghost use Rattle.std.specs.Prelude.{None};

    ghost room = { λ t. room_of t.room };

    ghost free = { λ _. 0 };

    ghost extents = { λ _. None };
}

impl Pages for NodeTable {
    ghost use Rattle.std.specs.Prelude.{ℕ, None};

    ghost pages = { λ _. None };

    ghost kept = { λ _ bytes. HoldsNode bytes };

    ghost Rest = { ℕ };

    ghost rest = { λ t. t.room };

    fn page(&mut self, at: HOff, into: &mut Page) -> Result<(), Fault> {
        self.read();
        match self.at(at) {
            Ok(page) => {
                *into = *page;
                Ok(())
            }
            Err(kind) => Err(Fault::Damaged { at, kind }),
        }
    }

    fn change(&mut self, at: HOff, with: &Page) -> Result<(), Fault> {
        self.write()?;
        let place = at.byte() / u64::from(NODE_BYTES);
        match self.pages.get_mut(place as usize) {
            Some(Slot::Node(stored)) => {
                *stored.page = *with;
                Ok(())
            }
            None | Some(Slot::Free) => Err(Fault::NoMemory),
            Some(slot) => {
                let page = Box::new(self.alloc, *with)?;
                *slot = Slot::Node(Stored { page });
                Ok(())
            }
        }
    }
}

impl NodePages for NodeTable {
    ghost kept_is_node = { λ at bytes spot node. node };

    ghost node_is_kept = { λ at bytes spot node. node };

    // It counts as a read. None of a page that a read tells as damaged.
    fn look(&self, at: HOff) -> Option<&Page> {
        match self.at(at) {
            Ok(page) => {
                self.read();
                Some(page)
            }
            Err(_) => None,
        }
    }
}

impl NodeSpace for NodeTable {
    ghost use Rattle.std.specs.Prelude.{refl};
    ghost use Rattle.std.proofs.Common.{ap};

    ghost rests = { λ s t same. (ap room_of same, refl, refl) };

    fn new_node(&mut self, with: &Page) -> Result<HOff, Fault> {
        let made = self.pages.len() as u64;
        if made >= MOST_NODES {
            return Err(Fault::NoMemory);
        }
        let Some(at) = HOff::make(TREE_ZONE, made * u64::from(NODE_BYTES)) else {
            return Err(Fault::NoMemory);
        };
        self.write()?;
        let page = Box::new(self.alloc, *with)?;
        self.pages.push(Slot::Node(Stored { page }))?;
        self.room -= u64::from(NODE_BYTES);
        Ok(at)
    }

    fn drop_node(&mut self, at: HOff) -> Result<(), Fault> {
        let place = at.byte() / u64::from(NODE_BYTES);
        match self.pages.get_mut(place as usize) {
            Some(slot) => {
                *slot = Slot::Free;
                Ok(())
            }
            None => Err(Fault::NoMemory),
        }
    }
}
