// The tree of a volume, node by node from the root down.
ghost use Rattle.std.specs.Prelude.{◌≡◌, IfErr, IfSome, IfOk, OnOk, length};
ghost use Rattle.hm_types.specs.Faults.{HasFaultCause};
ghost use Rattle.hm_disk.specs.declared.limits.TheConstants.{MOST_CALL_BYTES};
ghost use Rattle.hm_node.specs.Inner.{IsNodeOffset};
ghost use Rattle.hm_pages.specs.Store.{contents};
ghost use Rattle.hm_load.specs.Damage.{IsNodeDamage, IsTreeDamage};
ghost use Rattle.hm_load.specs.Faults.{Tells};
ghost use Rattle.hm_load.specs.Held.{AreRead, IsApart, IsReadBelow};
ghost use Rattle.hm_load.specs.Loaded.{IsPlain};
ghost use Rattle.hm_newfs.specs.Steps.{HasSpace};
ghost use Rattle.hm_load.specs.Tree.{AddsNode, AddsTree};

use crate::payload::check_payloads;
use crate::put::put;
use crate::volume::Volume;
use hm_disk::Disk;
use hm_fields::Page;
use hm_node::Node;
use hm_pages::PageStore;
use hm_search::{Subtree, checked_node};
use hm_types::{BAD_BOUNDS, Fault};

/// Loads the node at a place and all below it, from left to right, and checks the payloads of each
/// leaf after it.
pub(crate) fn load_below<D: Disk>(
    disk: &mut D,
    volume: &Volume,
    buffer: &mut [u8],
    store: &mut PageStore,
    subtree: &Subtree,
) -> Result<(), Fault>
    requires space { IfSome (D.told disk.old) (HasSpace volume.now.bigblocks) }
    requires len { length buffer.old ≡ MOST_CALL_BYTES }
    requires place { IsNodeOffset subtree.now.at }
    requires plain { IsPlain (contents store.old) }
    requires read { IfSome (D.told disk.old) (λ t.
        AreRead t.bytes volume.now.bigblocks (contents store.old).current) }
    requires apart { IsApart subtree.now (contents store.old).current }
    ensures ok { OnOk result (IsPlain (contents store.new)
        × AddsTree subtree.now (contents store.old).current (contents store.new).current) }
    ensures read { OnOk result (IfSome (D.told disk.old) (λ t.
        IsReadBelow t.bytes volume.now.bigblocks subtree.now (contents store.new).current)) }
    ensures damage { IfSome (D.told disk.old) (λ t. IfErr result
        (Tells (λ at kind. IsTreeDamage t.bytes volume.now.bigblocks at kind subtree.now))) }
    ensures same { D.told disk.new ≡ D.told disk.old }
    ensures crashes { D.past disk.new ≡ D.past disk.old }
    ensures cause { HasFaultCause (D.faults disk.old) (D.faults disk.new) result }
{
    let inner = match load_node(disk, volume, store, subtree)? {
        Node::Leaf(leaf) => return check_payloads(disk, volume, buffer, &leaf),
        Node::Inner(inner) => inner,
    };
    for i in 0..inner.places.len() {
        load_below(disk, volume, buffer, store, &Subtree::child(&inner, i))?;
    }
    Ok(())
}

// Loads the node at a place. A page that the store has already comes from a disk that gives other
// bytes than before: boundaries tell two places of a tree apart.
fn load_node<D: Disk>(
    disk: &mut D,
    volume: &Volume,
    store: &mut PageStore,
    subtree: &Subtree,
) -> Result<Node, Fault>
    requires space { IfSome (D.told disk.old) (HasSpace volume.now.bigblocks) }
    requires place { IsNodeOffset subtree.now.at }
    requires plain { IsPlain (contents store.old) }
    requires read { IfSome (D.told disk.old) (λ t.
        AreRead t.bytes volume.now.bigblocks (contents store.old).current) }
    requires apart { IsApart subtree.now (contents store.old).current }
    ensures ok { IfOk result (λ node. IsPlain (contents store.new)
        × AddsNode subtree.now node (contents store.old).current (contents store.new).current) }
    ensures read { OnOk result (IfSome (D.told disk.old) (λ t.
        AreRead t.bytes volume.now.bigblocks (contents store.new).current)) }
    ensures damage { IfSome (D.told disk.old) (λ t. IfErr result
        (Tells (IsNodeDamage t.bytes volume.now.bigblocks subtree.now))) }
    ensures same { D.told disk.new ≡ D.told disk.old }
    ensures crashes { D.past disk.new ≡ D.past disk.old }
    ensures cause { HasFaultCause (D.faults disk.old) (D.faults disk.new) result }
{
    let mut page = Page::zero();
    volume.page(disk, subtree.at, &mut page)?;
    let node = checked_node(&page, subtree)?;
    if store.has_page(subtree.at) {
        return Err(Fault::Damaged {
            at: subtree.at,
            kind: BAD_BOUNDS,
        });
    }
    put(store, subtree.at, &page)?;
    Ok(node)
}
