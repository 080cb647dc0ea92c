// A store whose elements stand in a tree over a table of nodes, and whose payloads stand side by side.
ghost use Rattle.hm_calls_bench.specs.TableStore.{rooms};

use crate::costs::{Costs, Measured, Times};
use bitflags::Flags;
use hm_btree::{BTree, NodeTable};
use hm_key::{Base, Element, ElementStore, Extents, HasElements, HasRoom};
use hm_types::{
    BAD_PAYLOAD, Counted, Fault, HOff, Id, META_ZONE, PAYLOAD_RESERVE, SpaceFault, TREE_RESERVE,
    Zones, rounded,
};
use std::alloc::Global;

// How many bytes of room for payloads a store begins with: more than memory has.
const ROOM: u64 = 1 << 42;

/// A store in memory that tells nothing of its content, as one over a device. It has room in the zones
/// 8 and 9 alone, those of the calls on names, and no payload that was given back makes room. It
/// counts how many nodes are read and written, and how many payloads are read.
#[derive(Drop)]
pub struct TableStore {
    tree: BTree<NodeTable>,
    payloads: Vec<u8>,
    room: u64,
    fetches: u64,
}

impl TableStore {
    ghost use Rattle.std.specs.Prelude.{◌≡◌, None, IfOk};
    ghost use Rattle.hm_types.specs.declared.zone.TheConstants.{TREE_ZONE};

    /// A store with no element.
    pub fn new(alloc: Global) -> Result<TableStore, Fault>
        ensures elements { IfOk result (λ store. ⟦<TableStore as HasElements>⟧.elements store ≡ None) }
        ensures extents { IfOk result (λ store. ⟦<TableStore as HasRoom>⟧.extents store ≡ None) }
    {
        let tree = match BTree::empty(NodeTable::new(alloc)) {
            Ok(tree) => tree,
            Err(_) => return Err(Fault::NoMemory),
        };
        Ok(TableStore {
            tree,
            payloads: Vec::new(alloc),
            room: ROOM,
            fetches: 0,
        })
    }

    /// How many bytes of room are left for nodes.
    pub fn node_room(&self) -> u64
        ensures { result ≡ ⟦<TableStore as HasRoom>⟧.room self.now TREE_ZONE }
    {
        self.tree.space().room()
    }
}

impl Measured for TableStore {
    fn costs(&self) -> Costs {
        Costs {
            nodes_read: Times(self.tree.space().reads()),
            nodes_written: Times(self.tree.space().writes()),
            payloads_read: Times(self.fetches),
        }
    }
}

impl Counted for TableStore {
    ghost faults = { λ _. 0 };

    ghost name = { λ _. 0 };

    ghost frame = { λ _. tt };
}

impl HasRoom for TableStore {
    ghost use Rattle.std.specs.Prelude.{None};

    ghost room = { λ s. rooms s.room (⟦<BTree<NodeTable> as HasRoom>⟧.room s.tree) };

    ghost free = { λ _. 0 };

    ghost extents = { λ _. None };
}

impl HasElements for TableStore {
    ghost use Rattle.std.specs.Prelude.{None};

    ghost elements = { λ _. None };

    ghost mark = { λ _ _. 0 };
}

impl ElementStore for TableStore {
    ghost sorted = { λ _. tt };

    ghost marked = { λ _. tt };

    fn first_at_or_after(&mut self, at: &Base) -> Result<Option<Element>, Fault> {
        self.tree.first_at_or_after(at)
    }

    fn last_at_or_before(&mut self, at: &Base) -> Result<Option<Element>, Fault> {
        self.tree.last_at_or_before(at)
    }

    fn insert(&mut self, e: &Element) -> Result<(), Fault> {
        self.tree.insert(e)
    }

    fn set_delete(&mut self, at: &Base, delete: u64) -> Result<(), Fault> {
        self.tree.set_delete(at, delete)
    }

    fn remove(&mut self, at: &Base) -> Result<(), Fault> {
        self.tree.remove(at)
    }

    fn readdress(&mut self, at: &Base, to: HOff) -> Result<(), Fault> {
        self.tree.readdress(at, to)
    }

    fn unchanged_until(&mut self, at: &Base, since: Id) -> Result<Option<Base>, Fault> {
        self.tree.unchanged_until(at, since)
    }
}

impl Extents for TableStore {
    ghost use Rattle.std.specs.Prelude.{refl};

    ghost live = { λ _. tt };

    ghost together = { λ _. refl };

    fn admit(&mut self, zones: Zones, _held: u32) -> Result<(), SpaceFault> {
        let is_other = zones.contains(Zones::LARGE) || zones.contains(Zones::SMALL);
        if is_other
            || self.room < u64::from(PAYLOAD_RESERVE)
            || self.tree.space().room() < u64::from(TREE_RESERVE)
        {
            return Err(SpaceFault::Fault(Fault::NoMemory));
        }
        Ok(())
    }

    fn fetch(&mut self, at: HOff, buf: &mut [u8]) -> Result<(), Fault> {
        self.fetches = self.fetches.saturating_add(1);
        let from = at.byte() as usize;
        let len = buf.len();
        if from > self.payloads.len() || len > self.payloads.len() - from {
            return Err(Fault::Damaged {
                at,
                kind: BAD_PAYLOAD,
            });
        }
        buf.copy_from_slice(&self.payloads[from..from + len]);
        Ok(())
    }

    fn place(&mut self, zone: u8, bytes: &[u8]) -> Result<HOff, Fault> {
        let Some(at) = HOff::make(zone, self.payloads.len() as u64) else {
            return Err(Fault::NoMemory);
        };
        if zone != META_ZONE {
            return Err(Fault::NoMemory);
        }
        self.payloads.extend_from_slice(bytes)?;
        self.room -= rounded(bytes.len() as u64);
        Ok(at)
    }

    fn share(&mut self, _at: HOff, _len: u32) -> Result<(), Fault> {
        Ok(())
    }

    fn give_back(&mut self, _at: HOff, _len: u32) -> Result<(), Fault> {
        Ok(())
    }
}
