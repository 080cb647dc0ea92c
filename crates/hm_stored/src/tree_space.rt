// Room for the nodes of a space.
ghost use Rattle.std.specs.Prelude.{◌≡◌, ◌≤◌, IfOk, OnOk, Some};
ghost use Rattle.hm_types.specs.Layout.{block_of};
ghost use Rattle.hm_types.specs.Offset.{byte_of};
ghost use Rattle.hm_types.specs.declared.limits.TheConstants.{LEAST_BIGBLOCKS, MOST_BIGBLOCKS};
ghost use Rattle.hm_types.specs.declared.zone.TheConstants.{TREE_ZONE as tree_zone};
ghost use Rattle.hm_header.specs.Range.{IsRoot};
ghost use Rattle.hm_freemap.specs.Faults.{HasExtentCause, HasFreemapCause};
ghost use Rattle.hm_freemap.specs.Places.{HasLayer2};
ghost use Rattle.hm_freemap.specs.Stand.{AreBelow, append_of, room_in};
ghost use Rattle.hm_pages.specs.Store.{contents, frame_of, layer2};
ghost use Rattle.hm_stored.specs.Nodes.{AddsNode, DropsNode, MovesNodes, spots};
ghost use Rattle.hm_stored.specs.Space.{heap};

use crate::grants::{give, take};
use crate::pages::VolumePages;
use crate::places::is_tree_place;
use crate::space::Space;
use hm_btree::{NODE_BYTES, NodeSpace};
use hm_disk::Disk;
use hm_fields::{Page, Pages};
use hm_types::{Fault, HOff, TREE_ZONE};

impl<D: Disk> NodeSpace for Space<D> {
    ghost use Rattle.std.specs.Prelude.{refl};
    ghost use Rattle.hm_stored.specs.Heap.{Rest, rest_of};
    ghost use Rattle.hm_stored.specs.Laws.{rests};

    ghost rests = { λ s t same. rests (heap s) (heap t) same };

    fn new_node(&mut self, with: &Page) -> Result<HOff, Fault> {
        if !self.books.whole {
            return Err(Fault::NoMemory);
        }
        let added = add_node(
            &mut self.pages,
            self.books.bigblocks,
            self.books.append,
            with,
        );
        self.books.whole = added.is_ok();
        added
    }

    fn drop_node(&mut self, at: HOff) -> Result<(), Fault> {
        if !self.books.whole || !is_tree_place(self.books.bigblocks, at) {
            return Err(Fault::NoMemory);
        }
        let gone = take_node(&mut self.pages, self.books.bigblocks, self.books.append, at);
        self.books.gave = true;
        self.books.whole = gone.is_ok();
        gone
    }
}

// Takes the extent of a node, and puts it there.
fn add_node(
    pages: &mut VolumePages,
    bigblocks: u32,
    append: [u32; 4],
    with: &Page,
) -> Result<HOff, Fault>
    requires size { (LEAST_BIGBLOCKS ≤ bigblocks) × (bigblocks ≤ MOST_BIGBLOCKS) }
    requires below { AreBelow bigblocks append }
    requires there { HasLayer2 bigblocks (layer2 (contents pages.old.store)) }
    requires room { NODE_BYTES ≤ room_in append (contents pages.old.store).current tree_zone }
    ensures ok { IfOk result (λ at. AddsNode bigblocks append with.now at
        (contents pages.old.store) (contents pages.new.store)) }
    ensures frame { frame_of (contents pages.new.store) ≡ frame_of (contents pages.old.store) }
    ensures spots { MovesNodes bigblocks (spots (contents pages.old.store)) (spots (contents pages.new.store)) }
    ensures cause { HasFreemapCause bigblocks append (λ one. one ≡ append_of append tree_zone)
        (Some (contents pages.old.store).committed) (Some (contents pages.old.store).frozen)
        (Some (contents pages.old.store).current) 0 0 result }
{
    let at = take(pages, bigblocks, append, TREE_ZONE, NODE_BYTES)?;
    if !is_tree_place(bigblocks, at) {
        return Err(Fault::NoMemory);
    }
    match pages.store.change(at, with) {
        Ok(()) => Ok(at),
        Err(_) => Err(Fault::NoMemory),
    }
}

// Gives the extent of a node back, and takes its page out.
fn take_node(
    pages: &mut VolumePages,
    bigblocks: u32,
    append: [u32; 4],
    at: HOff,
) -> Result<(), Fault>
    requires size { (LEAST_BIGBLOCKS ≤ bigblocks) × (bigblocks ≤ MOST_BIGBLOCKS) }
    requires below { AreBelow bigblocks append }
    requires there { HasLayer2 bigblocks (layer2 (contents pages.old.store)) }
    requires place { IsRoot bigblocks at }
    ensures ok { OnOk result (DropsNode bigblocks append at
        (contents pages.old.store) (contents pages.new.store)) }
    ensures frame { frame_of (contents pages.new.store) ≡ frame_of (contents pages.old.store) }
    ensures spots { MovesNodes bigblocks (spots (contents pages.old.store)) (spots (contents pages.new.store)) }
    ensures cause { HasExtentCause bigblocks append (block_of (byte_of at)) 4096
        (Some (contents pages.old.store).committed) (Some (contents pages.old.store).frozen)
        (Some (contents pages.old.store).current) 0 0 result }
{
    give(pages, bigblocks, append, at, NODE_BYTES)?;
    match pages.store.remove(at) {
        Ok(()) => Ok(()),
        Err(_) => Err(Fault::NoMemory),
    }
}
