// Extents of payloads in the pages and the books of a space.
ghost use Rattle.std.specs.Prelude.{◌≡◌, ◌≤◌, ◌<◌, ◌^◌, IfErr, IfOk, OnOk, Some};
ghost use Rattle.hm_types.specs.Layout.{block_of};
ghost use Rattle.hm_types.specs.Offset.{byte_of};
ghost use Rattle.hm_types.specs.Space.{rounded};
ghost use Rattle.hm_freemap.specs.Admit.{HasAdmissionCause};
ghost use Rattle.hm_freemap.specs.Faults.{HasExtentCause, HasFreemapCause};
ghost use Rattle.hm_freemap.specs.Places.{HasLayer2};
ghost use Rattle.hm_freemap.specs.Stand.{append_of, room_in};
ghost use Rattle.hm_pages.specs.Store.{contents, frame_of, layer2};
ghost use Rattle.hm_stored.specs.Calls.{GivesExtent, IsNotRenewed, LeavesBooks, Renews, SameBooks, SharesExtent, TakesExtent};
ghost use Rattle.hm_stored.specs.Nodes.{spots};

use crate::books::Books;
use crate::change::Change;
use crate::grants;
use crate::pages::VolumePages;
use hm_types::{Fault, HOff, SpaceFault, Zones};

/// Takes an extent in a zone, and notes it.
pub(crate) fn take(
    pages: &mut VolumePages,
    books: &mut Books,
    zone: u8,
    len: u32,
) -> Result<HOff, Fault>
    requires there { HasLayer2 books.old.bigblocks (layer2 (contents pages.old.store)) }
    requires some { 1 ≤ len }
    requires room { rounded len ≤ room_in books.old.append (contents pages.old.store).current zone }
    ensures ok { IfOk result (λ at. TakesExtent zone len at
        (contents pages.old.store) (contents pages.new.store) books.old books.new) }
    ensures books { LeavesBooks books.old books.new result }
    ensures frame { frame_of (contents pages.new.store) ≡ frame_of (contents pages.old.store) }
    ensures spots { spots (contents pages.new.store) ≡ spots (contents pages.old.store) }
    ensures cause { HasFreemapCause books.old.bigblocks books.old.append
        (λ one. one ≡ append_of books.old.append zone)
        (Some (contents pages.old.store).committed) (Some (contents pages.old.store).frozen)
        (Some (contents pages.old.store).current) 0 0 result }
{
    books.whole = false;
    books.log.reserve(1)?;
    let at = grants::take(pages, books.bigblocks, books.append, zone, len)?;
    books.log.push_reserved(Change::Placed { at, len });
    books.whole = true;
    Ok(at)
}

/// Adds a reference to an extent, and notes it.
pub(crate) fn share(
    pages: &mut VolumePages,
    books: &mut Books,
    at: HOff,
    len: u32,
) -> Result<(), Fault>
    requires there { HasLayer2 books.old.bigblocks (layer2 (contents pages.old.store)) }
    ensures ok { OnOk result (SharesExtent at len
        (contents pages.old.store) (contents pages.new.store) books.old books.new) }
    ensures books { LeavesBooks books.old books.new result }
    ensures frame { frame_of (contents pages.new.store) ≡ frame_of (contents pages.old.store) }
    ensures spots { spots (contents pages.new.store) ≡ spots (contents pages.old.store) }
    ensures cause { HasExtentCause books.old.bigblocks books.old.append
        (block_of (byte_of at)) (rounded len)
        (Some (contents pages.old.store).committed) (Some (contents pages.old.store).frozen)
        (Some (contents pages.old.store).current) 0 0 result }
{
    books.whole = false;
    books.log.reserve(1)?;
    grants::share(pages, books.bigblocks, books.append, at, len)?;
    books.log.push_reserved(Change::Shared { at });
    books.whole = true;
    Ok(())
}

/// Takes a reference off an extent, and notes it.
pub(crate) fn give(
    pages: &mut VolumePages,
    books: &mut Books,
    at: HOff,
    len: u32,
) -> Result<(), Fault>
    requires there { HasLayer2 books.old.bigblocks (layer2 (contents pages.old.store)) }
    ensures ok { OnOk result (GivesExtent at len
        (contents pages.old.store) (contents pages.new.store) books.old books.new) }
    ensures books { LeavesBooks books.old books.new result }
    ensures frame { frame_of (contents pages.new.store) ≡ frame_of (contents pages.old.store) }
    ensures spots { spots (contents pages.new.store) ≡ spots (contents pages.old.store) }
    ensures cause { HasExtentCause books.old.bigblocks books.old.append
        (block_of (byte_of at)) (rounded len)
        (Some (contents pages.old.store).committed) (Some (contents pages.old.store).frozen)
        (Some (contents pages.old.store).current) 0 0 result }
{
    books.whole = false;
    books.log.reserve(1)?;
    grants::give(pages, books.bigblocks, books.append, at, len)?;
    books.log.push_reserved(Change::GivenBack { at });
    books.gave = true;
    books.whole = true;
    Ok(())
}

/// Lets each named zone have room of at least its reserve, while so many big-blocks are held back.
pub(crate) fn renew(
    pages: &mut VolumePages,
    books: &mut Books,
    zones: Zones,
    held: u32,
) -> Result<(), SpaceFault>
    requires there { HasLayer2 books.old.bigblocks (layer2 (contents pages.old.store)) }
    ensures ok { OnOk result (Renews zones held
        (contents pages.old.store) (contents pages.new.store) books.old books.new) }
    ensures err { IfErr result (IsNotRenewed zones held
        (contents pages.old.store) (contents pages.new.store) books.old books.new) }
    ensures books { SameBooks books.old books.new }
    ensures frame { frame_of (contents pages.new.store) ≡ frame_of (contents pages.old.store) }
    ensures spots { spots (contents pages.new.store) ≡ spots (contents pages.old.store) }
    ensures cause { HasAdmissionCause books.old.bigblocks books.old.append
        (Some (contents pages.old.store).committed) (Some (contents pages.old.store).frozen)
        (Some (contents pages.old.store).current) 0 0 result }
{
    match grants::admit(pages, books.bigblocks, books.append, zones, held) {
        Ok(append) => {
            books.append = append;
            Ok(())
        }
        Err(SpaceFault::NoSpace { free, needed }) => Err(SpaceFault::NoSpace { free, needed }),
        Err(SpaceFault::Fault(fault)) => {
            books.whole = false;
            Err(SpaceFault::Fault(fault))
        }
    }
}
