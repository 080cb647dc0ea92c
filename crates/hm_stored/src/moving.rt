// What a store tells of the places of its nodes and of its big-blocks, and how a node moves.
ghost use Rattle.std.specs.Prelude.{◌↔◌, IsTrue};
ghost use Rattle.std.specs.List.{Contains};

use crate::stored::Stored;
use crate::tree_calls;
use hm_btree::NODE_BYTES;
use hm_disk::Disk;
use hm_key::Base;
use hm_search::Subtree;
use hm_types::{Fault, HOff, TREE_ZONE};

// The nodes of its tree, while a call is open.
impl<D: Disk> Stored<D> {
    ghost use Rattle.std.specs.Prelude.{◌≡◌, ◌≤◌, IfOk, IfSome, IsSome};
    ghost use Rattle.std.specs.List.Sorted.{IsNonDecreasing};
    ghost use Rattle.hm_types.specs.Faults.{HasStoreCause};
    ghost use Rattle.hm_types.specs.Space.{in_zone};
    ghost use Rattle.hm_btree.specs.Calls.Choice.{FindsFrom};
    ghost use Rattle.hm_key.specs.Key.{IsBefore, greatest_key, key_of};
    ghost use Rattle.hm_stored.specs.Calls.{Stays};
    ghost use Rattle.hm_stored.specs.Heap.{pages_of, room_of};
    ghost use Rattle.hm_stored.specs.Moving.{RelocatesNode, StandsIn};
    ghost use Rattle.hm_stored.specs.Space.{heap};
    ghost use Rattle.hm_stored.specs.Told.{ReadsTree, elements_told};

    /// The first of the nodes that end after the key of `from` and lie in one of some big-blocks, whose
    /// numbers rise, and None exactly where there is none: its place, from whose beginning on all others
    /// end (`BTree::node_from`). It changes nothing. Without an open call it answers `NoMemory`.
    pub fn node_from(&mut self, chosen: &[u32], from: &Base) -> Result<Option<Subtree>, Fault>
        requires rising { IsNonDecreasing chosen.now }
        requires before { IsBefore (key_of from.now) greatest_key }
        ensures ok { IfSome (pages_of (heap self.old.space)) (λ map. IfOk result
            (FindsFrom chosen.now (key_of from.now) map self.old.root)) }
        ensures there { IfOk result (λ found. IfSome found (StandsIn chosen.now (heap self.new.space))) }
        ensures nodes { pages_of (heap self.new.space) ≡ pages_of (heap self.old.space) }
        ensures reads { ReadsTree (heap self.old.space) (heap self.new.space) self.old.root self.new.root }
        ensures cause { HasStoreCause (elements_told (heap self.old.space) self.old.root)
            (D.faults self.old.space.disk) (D.faults self.new.space.disk) result }
        ensures past { D.past self.new.space.disk ≡ D.past self.old.space.disk }
    {
        if !self.is_open {
            return Err(Fault::NoMemory);
        }
        let (root, found) = tree_calls::node_from(&mut self.space, self.root, chosen, from);
        self.root = root;
        found
    }

    /// Lets the node at `at` stand elsewhere, and answers where: at an offset that had none. It takes the
    /// room of one node in zone 8, which must have it. Where the store tells its nodes, there must be one
    /// at `at`. Elements, marks and extents stay. Without an open call it answers `NoMemory`.
    pub fn move_node(&mut self, at: HOff) -> Result<HOff, Fault>
        requires there { IfSome (pages_of (heap self.old.space)) (λ map. IsSome (map at)) }
        requires room { NODE_BYTES ≤ room_of (heap self.old.space) TREE_ZONE }
        ensures ok { IfOk result (RelocatesNode at (heap self.old.space) (heap self.new.space)
            self.old.root self.new.root) }
        ensures stays { Stays (in_zone TREE_ZONE NODE_BYTES) (heap self.old.space) (heap self.new.space) }
        ensures cause { HasStoreCause (elements_told (heap self.old.space) self.old.root)
            (D.faults self.old.space.disk) (D.faults self.new.space.disk) result }
        ensures past { D.past self.new.space.disk ≡ D.past self.old.space.disk }
    {
        if !self.is_open {
            return Err(Fault::NoMemory);
        }
        let (moved, answer) = tree_calls::move_node(&mut self.space, self.root, at);
        self.root = moved;
        answer
    }
}

// Its big-blocks.
impl<D: Disk> Stored<D> {
    ghost use Rattle.std.specs.Prelude.{◌≡◌, IfErr, IfOk};
    ghost use Rattle.hm_types.specs.Faults.{IsCaused};
    ghost use Rattle.hm_freemap.specs.Calls.{IsLive};
    ghost use Rattle.hm_freemap.specs.Faults.{IsFreemapDamage};
    ghost use Rattle.hm_stored.specs.Heap.{maps_of};
    ghost use Rattle.hm_stored.specs.Space.{heap};
    ghost use Rattle.hm_stored.specs.Turn.{LooksSame};

    /// How many bytes of a big-block of the pool are live in the current state: `live_bytes` of the space.
    pub fn live_bytes(&mut self, block: u32) -> Result<i64, Fault>
        ensures ok { IfOk result (IsLive self.old.space.books.bigblocks self.old.space.books.append
            (maps_of (heap self.old.space)) block) }
        ensures same { LooksSame (heap self.old.space) (heap self.new.space) }
        ensures rest { (self.new.root ≡ self.old.root) × (self.new.space.disk ≡ self.old.space.disk) }
        ensures cause { IfErr result (IsFreemapDamage self.old.space.books.bigblocks self.old.space.books.append
            (λ one. one ≡ block) (maps_of (heap self.old.space))) }
        ensures no_media { IfErr result (IsCaused 0 0) }
    {
        self.space.live_bytes(block)
    }

    /// Whether a zone appends to a big-block.
    pub fn is_append(&self, block: u32) -> bool
        ensures { IsTrue result ↔ Contains (heap self.now.space).append block }
    {
        is_among(&self.space.append(), block)
    }
}

fn is_among(blocks: &[u32], block: u32) -> bool
    ensures { IsTrue result ↔ Contains blocks.now block }
{
    blocks.contains(&block)
}
