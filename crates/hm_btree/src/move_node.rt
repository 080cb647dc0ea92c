// A node that goes to another offset.
ghost use Rattle.std.specs.Prelude.{◌≢◌, ◌≤◌, IfSome, IsSome, IfOk, IsTrue, OnOk};
ghost use Rattle.hm_types.specs.Faults.{HasStoreCause};
ghost use Rattle.hm_types.specs.Space.{in_zone};
ghost use Rattle.hm_key.specs.Key.{key_of, greatest_key, IsBefore};
ghost use Rattle.hm_node.specs.Inner.{IsNodeOffset};
ghost use Rattle.hm_node.specs.Node.{node_in};
ghost use Rattle.hm_node.specs.Shape.{HoldsNode};
ghost use Rattle.hm_search.specs.Descent.{HasSearchCause, Reads};
ghost use Rattle.hm_search.specs.Tree.{root_place};
ghost use Rattle.hm_btree.specs.Below.{HasPassCause};
ghost use Rattle.hm_btree.specs.Calls.Move.{MovesBelow, MovesIn};
ghost use Rattle.hm_btree.specs.Calls.Space.{StaysWithin};
ghost use Rattle.hm_btree.specs.Tree.{IsTreeSpace};

use crate::inner_edit::set_child_in;
use crate::node_edit::{add_page, mirror_in, update_page};
use crate::space::{NODE_BYTES, NodeSpace};
use crate::tree::BTree;
use hm_fields::Page;
use hm_key::Base;
use hm_node::{Head, LEAF, place, read_base, set_mirror};
use hm_search::{Subtree, child_below, holder_place_in, visit};
use hm_types::{Counted, Fault, HOff, TREE_ZONE};

/// What a move made of a node above the moved one, in its page.
#[derive(Clone, Copy)]
pub struct Moved {
    /// Where the moved node stands.
    pub to: HOff,
    /// Whether the page changed.
    pub changed: bool,
}

impl<S: NodeSpace> BTree<S> {
    ghost use Rattle.hm_btree.specs.Calls.Move.{MovesNode};
    ghost use Rattle.hm_btree.specs.Tree.{told_elements};

    /// Lets the node at `at` stand elsewhere, and answers where: at an offset that had no page. It
    /// takes the room of one node in zone 8, which must have it, and the page at `at` goes. Where the
    /// pages are told, there must be one. The elements and the marks of all keys stay.
    pub fn move_node(&mut self, at: HOff) -> Result<HOff, Fault>
        requires room { NODE_BYTES ≤ S.room self.old.space TREE_ZONE }
        requires there { IfSome (S.pages self.old.space) (λ map. IsSome (map at)) }
        ensures ok { IfOk result (MovesNode S.pages S.extents self.old.intact at
            self.old.space self.new.space self.old.root self.new.root) }
        ensures intact { OnOk result (IsTrue self.new.intact) }
        ensures spent { StaysWithin S.HasRoom (in_zone TREE_ZONE NODE_BYTES)
            self.old.space self.new.space }
        ensures cause { HasStoreCause
            (told_elements self.old.intact (S.pages self.old.space) self.old.root)
            (S.faults self.old.space) (S.faults self.new.space) result }
    {
        self.require_intact()?;
        self.require_root()?;
        self.intact = false;
        let (root, to) = move_from(&mut self.space, self.root, at)?;
        self.root = root;
        self.intact = true;
        Ok(to)
    }
}

// Lets the node at `at` of the tree from a root on stand elsewhere. Answers the root that the tree
// then has, and where the node stands.
fn move_from<S: NodeSpace>(space: &mut S, root: HOff, at: HOff) -> Result<(HOff, HOff), Fault>
    requires root { IsNodeOffset root }
    requires room { NODE_BYTES ≤ S.room space.old TREE_ZONE }
    requires there { IfSome (S.pages space.old) (λ was. IsSome (was at)) }
    requires tree { IfSome (S.pages space.old) (λ was. IsTreeSpace was root) }
    ensures done { IfOk result (λ moved. MovesIn S.pages S.extents at root moved.0
        space.old space.new moved.1) }
    ensures spent { StaysWithin S.HasRoom (in_zone TREE_ZONE NODE_BYTES) space.old space.new }
    ensures cause { HasStoreCause (S.pages space.old)
        (S.faults space.old) (S.faults space.new) result }
{
    if at == root {
        let to = move_root(space, root)?;
        return Ok((to, to));
    }
    let key = key_at(space, at)?;
    let below = move_on_way(space, root, &key, at)?;
    Ok((root, below))
}

// The key by which the node at `at` stands: that of its first element or child.
fn key_at<S: NodeSpace>(space: &mut S, at: HOff) -> Result<Base, Fault>
    requires there { IfSome (S.pages space.old) (λ was. IsSome (was at)) }
    ensures key { IfOk result (λ key. IsBefore (key_of key) greatest_key) }
    ensures same { Reads S.name S.frame S.rest S.pages space.old space.new }
    ensures cause { HasStoreCause (S.pages space.old)
        (S.faults space.old) (S.faults space.new) result }
{
    let mut page = Page::zero();
    space.page(at, &mut page)?;
    let key = read_base(&page, place(0));
    if key.order(&Base::greatest()).is_lt() {
        Ok(key)
    } else {
        Err(Fault::NoMemory)
    }
}

// Lets the node at `at` stand elsewhere, which is below the root and on the way to a key, and answers
// where. It answers `NoMemory` where the node is not on that way.
fn move_on_way<S: NodeSpace>(space: &mut S, root: HOff, key: &Base, at: HOff) -> Result<HOff, Fault>
    requires root { IsNodeOffset root }
    requires key { IsBefore (key_of key.now) greatest_key }
    requires below { root ≢ at }
    requires room { NODE_BYTES ≤ S.room space.old TREE_ZONE }
    requires there { IfSome (S.pages space.old) (λ was. IsSome (was at)) }
    ensures done { IfOk result (MovesIn S.pages S.extents at root root space.old space.new) }
    ensures spent { StaysWithin S.HasRoom (in_zone TREE_ZONE NODE_BYTES) space.old space.new }
    ensures cause { HasSearchCause (S.pages space.old) (root_place root)
        (S.faults space.old) (S.faults space.new) result }
{
    let place = Subtree::root(root);
    let mut page = Page::zero();
    visit(space, &place, &mut page)?;
    let moved = move_below(space, &mut page, key, at)?;
    update_page(space, root, &page, moved.changed)?;
    Ok(moved.to)
}

// Lets the node at `at` stand elsewhere, below the one in a page, which is not written.
fn move_below<S: NodeSpace>(
    space: &mut S,
    page: &mut Page,
    key: &Base,
    at: HOff,
) -> Result<Moved, Fault>
    requires node { HoldsNode page.old }
    requires room { NODE_BYTES ≤ S.room space.old TREE_ZONE }
    requires there { IfSome (S.pages space.old) (λ was. IsSome (was at)) }
    ensures done { IfOk result (MovesBelow S.pages S.extents (key_of key.now) at
        space.old space.new page.old page.new) }
    ensures spent { StaysWithin S.HasRoom (in_zone TREE_ZONE NODE_BYTES) space.old space.new }
    ensures cause { HasPassCause (S.pages space.old) (node_in page.old)
        (S.faults space.old) (S.faults space.new) result }
{
    if Head::read(page).kind == LEAF {
        return Err(Fault::NoMemory);
    }
    let i = holder_place_in(page, key);
    let place = child_below(page, i);
    let mut child = Page::zero();
    visit(space, &place, &mut child)?;
    if place.at == at {
        let to = add_page(space, &child)?;
        space.drop_node(at)?;
        set_child_in(page, i, to);
        return Ok(Moved { to, changed: true });
    }
    let moved = move_below(space, &mut child, key, at)?;
    update_page(space, place.at, &child, moved.changed)?;
    Ok(Moved {
        to: moved.to,
        changed: set_mirror(page, i, mirror_in(&child)),
    })
}

// Lets the root stand elsewhere, and answers where.
fn move_root<S: NodeSpace>(space: &mut S, root: HOff) -> Result<HOff, Fault>
    requires root { IsNodeOffset root }
    requires room { NODE_BYTES ≤ S.room space.old TREE_ZONE }
    requires tree { IfSome (S.pages space.old) (λ was. IsTreeSpace was root) }
    ensures done { IfOk result (λ to. MovesIn S.pages S.extents root root to
        space.old space.new to) }
    ensures spent { StaysWithin S.HasRoom (in_zone TREE_ZONE NODE_BYTES) space.old space.new }
    ensures cause { HasStoreCause (S.pages space.old)
        (S.faults space.old) (S.faults space.new) result }
{
    let place = Subtree::root(root);
    let mut page = Page::zero();
    visit(space, &place, &mut page)?;
    let to = add_page(space, &page)?;
    space.drop_node(root)?;
    Ok(to)
}
