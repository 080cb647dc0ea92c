// Nodes that lie in some big-blocks.
ghost use Rattle.std.specs.Prelude.{◌≡◌, ◌↔◌, ℕ, IsTrue, IfOk, OnOk, IfSome};
ghost use Rattle.std.specs.List.Sorted.{IsNonDecreasing};
ghost use Rattle.hm_types.specs.Faults.{HasStoreCause};
ghost use Rattle.hm_types.specs.Layout.{block_of};
ghost use Rattle.hm_types.specs.Offset.{byte_of};
ghost use Rattle.hm_key.specs.Key.{key_of, greatest_key, IsBefore};
ghost use Rattle.hm_node.specs.Inner.{IsNodeOffset};
ghost use Rattle.hm_search.specs.Descent.{HasSearchCause, Reads};
ghost use Rattle.hm_search.specs.Tree.{IsStoredTree};
ghost use Rattle.hm_btree.specs.Calls.Choice.{FindsBelow, LiesIn};

use crate::space::NodeSpace;
use crate::tree::BTree;
use hm_fields::Page;
use hm_key::Base;
use hm_node::{Head, LEAF, NodePages};
use hm_search::{Subtree, child_below, visit};
use hm_types::{BIGBLOCK_BYTES, Counted, Fault, HOff};

impl<S: NodeSpace> BTree<S> {
    ghost use Rattle.hm_btree.specs.Calls.Choice.{FindsNode, FindsFrom};
    ghost use Rattle.hm_btree.specs.Tree.{told_elements};

    /// A node of the tree that lies in one of some big-blocks, whose numbers rise: where it stands,
    /// and None exactly where there is none. Each inner node and each leaf is read until one is found.
    /// Takes no memory, and changes nothing.
    pub fn node_in(&mut self, chosen: &[u32]) -> Result<Option<HOff>, Fault>
        requires rising { IsNonDecreasing chosen.now }
        ensures ok { IfOk result (λ found. IfSome (S.pages self.old.space) (λ map.
            FindsNode chosen.now map found)) }
        ensures intact { OnOk result (IsTrue self.old.intact) }
        ensures same { Reads S.name S.frame S.rest S.pages self.old.space self.new.space }
        ensures stays { (self.new.root ≡ self.old.root) × (self.new.intact ≡ self.old.intact) }
        ensures cause { HasStoreCause
            (told_elements self.old.intact (S.pages self.old.space) self.old.root)
            (S.faults self.old.space) (S.faults self.new.space) result }
    {
        let found = self.node_from(chosen, &Base::least())?;
        match found {
            Some(place) => Ok(Some(place.at)),
            None => Ok(None),
        }
    }

    /// The first of the nodes that end after the key of `from` and lie in one of some big-blocks, whose
    /// numbers rise, and None exactly where there is none. A node comes before those below it, and
    /// before those that begin where it ends. What it answers is the node's place: where it stands,
    /// and the boundaries at which it begins and ends. Each node in the choice that ends after `from`
    /// ends after that beginning. So who lets the node stand elsewhere goes on from there, and reads
    /// no node twice but those on the way there. Takes no memory, and changes nothing.
    pub fn node_from(&mut self, chosen: &[u32], from: &Base) -> Result<Option<Subtree>, Fault>
        requires rising { IsNonDecreasing chosen.now }
        requires before { IsBefore (key_of from.now) greatest_key }
        ensures ok { IfOk result (λ found. IfSome (S.pages self.old.space) (λ map.
            FindsFrom chosen.now (key_of from.now) map self.old.root found)) }
        ensures intact { OnOk result (IsTrue self.old.intact) }
        ensures same { Reads S.name S.frame S.rest S.pages self.old.space self.new.space }
        ensures stays { (self.new.root ≡ self.old.root) × (self.new.intact ≡ self.old.intact) }
        ensures cause { HasStoreCause
            (told_elements self.old.intact (S.pages self.old.space) self.old.root)
            (S.faults self.old.space) (S.faults self.new.space) result }
    {
        self.require_intact()?;
        self.require_root()?;
        first_in(&mut self.space, &Subtree::root(self.root), from, chosen)
    }
}

// The first of the nodes at a place and below it that end after a key and lie in one of some big-blocks.
fn first_in<P: NodePages>(
    pages: &mut P,
    place: &Subtree,
    from: &Base,
    chosen: &[u32],
) -> Result<Option<Subtree>, Fault>
    requires spot { IsNodeOffset place.now.at }
    requires rising { IsNonDecreasing chosen.now }
    requires after { IsBefore (key_of from.now) (key_of place.now.right) }
    ensures ok { IfSome (P.pages pages.old) (λ map. (height : ℕ) →
        IsStoredTree map height place.now →
        IsBefore (key_of place.now.left) (key_of place.now.right) →
        IfOk result (FindsBelow chosen.now (key_of from.now) map place.now)) }
    ensures same { Reads P.name P.frame P.rest P.pages pages.old pages.new }
    ensures cause { HasSearchCause (P.pages pages.old) place.now
        (P.faults pages.old) (P.faults pages.new) result }
{
    if lies_in(chosen, place.at) {
        return Ok(Some(*place));
    }
    let mut page = Page::zero();
    visit(pages, place, &mut page)?;
    let head = Head::read(&page);
    if head.kind == LEAF {
        return Ok(None);
    }
    for i in 0..usize::from(head.count) {
        let child = child_below(&page, i);
        if !ends_after(&child, from) {
            continue;
        }
        if let Some(found) = first_in(pages, &child, from, chosen)? {
            return Ok(Some(found));
        }
    }
    Ok(None)
}

// Whether a place ends after a key.
fn ends_after(place: &Subtree, from: &Base) -> bool
    ensures { IsTrue result ↔ IsBefore (key_of from.now) (key_of place.now.right) }
{
    from.order(&place.right).is_lt()
}

// Whether a page lies in one of some big-blocks.
fn lies_in(chosen: &[u32], at: HOff) -> bool
    requires { IsNonDecreasing chosen.now }
    ensures { IsTrue result ↔ LiesIn chosen.now at }
{
    chosen.binary_search(&block_at(at)).is_ok()
}

// The big-block in which a page lies.
fn block_at(at: HOff) -> u32
    ensures { result ≡ block_of (byte_of at) }
{
    (at.byte() / BIGBLOCK_BYTES) as u32
}
