// A space of nodes in memory.
ghost use Rattle.std.proofs.Props.{props};
ghost use Rattle.hm_node.specs.Props.{HoldsNode-prop};
ghost use Rattle.hm_node.specs.Shape.{HoldsNode};
ghost use Rattle.hm_btree.specs.MemSpace.{page_held, room_of, AllHoldNodes};

use crate::space::{MOST_NODES, NODE_BYTES, NodeSpace};
use hm_fields::{Page, Pages};
use hm_key::HasRoom;
use hm_node::NodePages;
use hm_types::{BAD_LEVEL, Counted, Fault, HOff, TREE_ZONE};
use std::alloc::Global;
use std::collections::BTreeMap;

/// Nodes in memory, which are told. It is there for tests, and for tools that have no disk.
#[derive(Drop)]
pub struct MemSpace {
    alloc: Global,
    pages: BTreeMap<HOff, Box<Page>>,
    // How many nodes were made, which is where the next one stands, in pages.
    made: u64,
    room: u64,
    ghost nodes: { AllHoldNodes pages } by { Prim.hlevel (HoldsNode-prop, props) },
}

impl MemSpace {
    ghost use Rattle.std.specs.Prelude.{◌≡◌, Some, None, OnOk, ℕ};
    ghost use Rattle.hm_fields.specs.Pages.{HasPut};
    ghost use Rattle.hm_types.specs.Faults.{HasStoreCause};

    /// No page, and so many bytes of room in zone 8. It takes no memory.
    pub fn new(alloc: Global, room: u64) -> MemSpace
        ensures pages { (at : ℕ) → page_held result.pages at ≡ None }
        ensures room { ⟦<MemSpace as HasRoom>⟧.room result ≡ room_of room }
    {
        MemSpace {
            alloc,
            pages: BTreeMap::new(alloc),
            made: 0,
            room,
        }
    }

    /// How many pages there are.
    pub fn len(&self) -> usize {
        self.pages.len()
    }

    /// How many bytes of room are left in zone 8.
    pub fn room(&self) -> u64
        ensures { result ≡ self.now.room }
    {
        self.room
    }

    // Puts the page of a node.
    fn put(&mut self, at: HOff, with: &Page) -> Result<(), Fault>
        requires node { HoldsNode with.now }
        ensures ok { OnOk result (HasPut at with.now (page_held self.old.pages) (page_held self.new.pages)) }
        ensures room { self.new.room ≡ self.old.room }
        ensures made { self.new.made ≡ self.old.made }
        ensures cause { HasStoreCause (Some (page_held self.old.pages)) 0 0 result }
    {
        let page = Box::new(self.alloc, *with)?;
        self.pages.insert(at, page)?;
        Ok(())
    }
}

impl Counted for MemSpace {
    ghost faults = { λ _. 0 };

    ghost name = { λ _. 0 };

    ghost frame = { λ _. tt };
}

impl HasRoom for MemSpace {
    ghost use Rattle.std.specs.Prelude.{Some, []};

    ghost room = { λ m. room_of m.room };

    ghost free = { λ _. 0 };

    ghost extents = { λ _. Some [] };
}

impl Pages for MemSpace {
    ghost use Rattle.std.specs.Prelude.{ℕ, Some};

    ghost pages = { λ m. Some (page_held m.pages) };

    ghost kept = { λ _ bytes. HoldsNode bytes };

    ghost Rest = { ℕ };

    ghost rest = { λ m. m.room };

    fn page(&mut self, at: HOff, into: &mut Page) -> Result<(), Fault> {
        match self.pages.get(&at) {
            Some(page) => {
                *into = **page;
                Ok(())
            }
            None => Err(Fault::Damaged {
                at,
                kind: BAD_LEVEL,
            }),
        }
    }

    fn change(&mut self, at: HOff, with: &Page) -> Result<(), Fault> {
        if !self.pages.contains_key(&at) {
            return Err(Fault::NoMemory);
        }
        self.put(at, with)
    }
}

impl NodePages for MemSpace {
    ghost kept_is_node = { λ at bytes spot node. node };

    ghost node_is_kept = { λ at bytes spot node. node };

    fn look(&self, at: HOff) -> Option<&Page> {
        match self.pages.get(&at) {
            Some(page) => Some(&**page),
            None => None,
        }
    }
}

impl NodeSpace for MemSpace {
    ghost use Rattle.std.specs.Prelude.{refl};
    ghost use Rattle.std.proofs.Common.{ap};

    ghost rests = { λ s t same. (ap room_of same, refl, refl) };

    fn new_node(&mut self, with: &Page) -> Result<HOff, Fault> {
        if self.made >= MOST_NODES {
            return Err(Fault::NoMemory);
        }
        let Some(at) = HOff::make(TREE_ZONE, self.made * 4_096) else {
            return Err(Fault::NoMemory);
        };
        if self.pages.contains_key(&at) {
            return Err(Fault::NoMemory);
        }
        self.put(at, with)?;
        self.made += 1;
        self.room -= u64::from(NODE_BYTES);
        Ok(at)
    }

    fn drop_node(&mut self, at: HOff) -> Result<(), Fault> {
        self.pages.remove(&at);
        Ok(())
    }
}
