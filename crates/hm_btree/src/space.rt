// The pages of a tree, with room for more.
ghost use Rattle.std.specs.Prelude.{◌≡◌, ◌≤◌, IfSome, IsSome, IfOk, OnOk, OnErr};
ghost use Rattle.hm_types.specs.Told.{BothTell};
ghost use Rattle.hm_types.specs.Faults.{HasStoreCause};
ghost use Rattle.hm_types.specs.Space.{nothing, in_zone};
ghost use Rattle.hm_node.specs.Shape.{HoldsNode};
ghost use Rattle.hm_btree.specs.Calls.Space.{HasSpent};
ghost use Rattle.hm_btree.specs.Space.{HasLost, PutsNew};

use hm_fields::Page;
use hm_key::HasRoom;
use hm_node::NodePages;
use hm_types::{Fault, HOff, TREE_ZONE};

/// The room that a node takes, in bytes of zone 8.
pub const NODE_BYTES: u32 = 4_096;

/// How many offsets there are below 2^43 at which a node may stand.
pub const MOST_NODES: u64 = 2_147_483_648;

/// Pages that hold the nodes of a tree alone, with room for more of them in zone 8.
///
/// After an error of a call that writes, nothing is known of the pages.
pub trait NodeSpace: NodePages + HasRoom {
    /// What is so where the space refused a new node. Only a call that it refused gives this fact:
    /// a caller that answers it did not give up by itself.
    ghost Refusal: { Type 0 } = { Unit {0} };

    /// Puts a page that holds a node at an offset that no page has, and answers the offset: a
    /// multiple of 4,096 below 2^43 in zone 8, which must have room for it.
    fn new_node(&mut self, with: &Page) -> Result<HOff, Fault>
        requires node { HoldsNode with.now }
        requires room { NODE_BYTES ≤ Self.room self.old TREE_ZONE }
        ensures ok { IfOk result (PutsNew Self.pages Self.room Self.extents with.now
            self.old self.new) }
        ensures refused { OnErr result Self.Refusal }
        ensures spent { HasSpent Self.name Self.frame Self.room Self.free
            (in_zone TREE_ZONE NODE_BYTES) self.old self.new }
        ensures cause { HasStoreCause (Self.pages self.old)
            (Self.faults self.old) (Self.faults self.new) result };

    /// Takes the page at `at` out. There must be one, where the pages are told.
    fn drop_node(&mut self, at: HOff) -> Result<(), Fault>
        requires { IfSome (Self.pages self.old) (λ map. IsSome (map at)) }
        ensures ok { OnOk result
            (BothTell (Self.pages self.old) (Self.pages self.new) (HasLost at)) }
        ensures extents { OnOk result (Self.extents self.new ≡ Self.extents self.old) }
        ensures spent { HasSpent Self.name Self.frame Self.room Self.free nothing
            self.old self.new }
        ensures cause { HasStoreCause (Self.pages self.old)
            (Self.faults self.old) (Self.faults self.new) result };

    /// The room, the free big-blocks and the extents are among what no call of `Pages` changes.
    ghost rests: { (s t : Self) → Self.rest t ≡ Self.rest s → (Self.room t ≡ Self.room s)
        × (Self.free t ≡ Self.free s) × (Self.extents t ≡ Self.extents s) };
}

impl<S: NodeSpace> NodeSpace for &mut S {
    ghost Refusal = { S.Refusal };

    ghost rests = { λ s t same. S.NodeSpace.rests s.now t.now same };

    fn new_node(&mut self, with: &Page) -> Result<HOff, Fault> {
        (**self).new_node(with)
    }

    fn drop_node(&mut self, at: HOff) -> Result<(), Fault> {
        (**self).drop_node(at)
    }
}
