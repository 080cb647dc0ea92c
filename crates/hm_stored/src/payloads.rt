// Bytes of payloads, on the disk of a space.
ghost use Rattle.std.specs.Prelude.{◌≡◌, ◌≤◌, ◌*◌, ◌+◌, length, IfErr, IfOk, IfSome, OnErr, OnOk, Some, slice_range};
ghost use Rattle.hm_types.specs.Faults.{HasFaultCause, IsUndamaged};
ghost use Rattle.hm_types.specs.Space.{rounded};
ghost use Rattle.hm_types.specs.declared.limits.TheConstants.{BIGBLOCK_BYTES};
ghost use Rattle.hm_types.specs.declared.zone.TheConstants.{SMALL_ZONE, TREE_ZONE};
ghost use Rattle.hm_disk.specs.Disk.{moment_of};
ghost use Rattle.hm_disk.specs.declared.limits.TheConstants.{MOST_CALL_BYTES as most_bytes};
ghost use Rattle.hm_freemap.specs.Faults.{HasFreemapCause};
ghost use Rattle.hm_freemap.specs.Places.{HasLayer2};
ghost use Rattle.hm_freemap.specs.Stand.{append_of, room_in};
ghost use Rattle.hm_pages.specs.Store.{contents, frame_of, layer2};
ghost use Rattle.hm_stored.specs.Calls.{LeavesBooks, MayTear, PutsBytes};
ghost use Rattle.hm_stored.specs.Nodes.{spots};

use crate::books::Books;
use crate::extents::take;
use crate::pages::VolumePages;
use hm_disk::{Disk, disk_fault};
use hm_types::{Fault, HOff};

/// Takes an extent for bytes, and writes them there.
pub(crate) fn put<D: Disk>(
    pages: &mut VolumePages,
    disk: &mut D,
    books: &mut Books,
    zone: u8,
    bytes: &[u8],
) -> Result<HOff, Fault>
    requires there { HasLayer2 books.old.bigblocks (layer2 (contents pages.old.store)) }
    requires some { (1 ≤ length bytes.now) × (length bytes.now ≤ most_bytes) }
    requires zone { (TREE_ZONE ≤ zone) × (zone ≤ SMALL_ZONE) }
    requires room { rounded (length bytes.now) ≤
        room_in books.old.append (contents pages.old.store).current zone }
    requires size { IfSome (D.told disk.old) (λ t. books.old.bigblocks * BIGBLOCK_BYTES ≤ length t.bytes) }
    ensures ok { IfOk result (λ at. PutsBytes zone bytes.now at (contents pages.old.store)
        (contents pages.new.store) (D.told disk.old) (D.told disk.new) books.old books.new) }
    ensures err { OnErr result (MayTear zone (length bytes.now) (contents pages.old.store)
        (contents pages.new.store) (D.told disk.old) (D.told disk.new) books.old) }
    ensures books { LeavesBooks books.old books.new result }
    ensures frame { (frame_of (contents pages.new.store) ≡ frame_of (contents pages.old.store))
        × (moment_of (D.told disk.new) ≡ moment_of (D.told disk.old)) }
    ensures spots { spots (contents pages.new.store) ≡ spots (contents pages.old.store) }
    ensures cause { HasFreemapCause books.old.bigblocks books.old.append
        (λ one. one ≡ append_of books.old.append zone)
        (Some (contents pages.old.store).committed) (Some (contents pages.old.store).frozen)
        (Some (contents pages.old.store).current) (D.faults disk.old) (D.faults disk.new) result }
    ensures past { D.past disk.new ≡ D.past disk.old }
{
    let at = take(pages, books, zone, bytes.len() as u32)?;
    let before = disk.faults();
    match disk.write_at(at.byte(), bytes) {
        Ok(()) => Ok(at),
        Err(_) => {
            books.whole = false;
            Err(disk_fault(disk, before))
        }
    }
}

/// Reads bytes of a disk from a place on.
pub(crate) fn read<D: Disk>(disk: &mut D, place: u64, buf: &mut [u8]) -> Result<(), Fault>
    requires length { length buf.old ≤ most_bytes }
    requires within { IfSome (D.told disk.old) (λ t. place + length buf.old ≤ length t.bytes) }
    ensures ok { OnOk result (IfSome (D.told disk.old) (λ t.
        buf.new ≡ slice_range t.bytes place (place + length buf.old))) }
    ensures same { D.told disk.new ≡ D.told disk.old }
    ensures cause { HasFaultCause (D.faults disk.old) (D.faults disk.new) result }
    ensures undamaged { IfErr result IsUndamaged }
    ensures past { D.past disk.new ≡ D.past disk.old }
{
    let before = disk.faults();
    match disk.read_at(place, buf) {
        Ok(()) => Ok(()),
        Err(_) => Err(disk_fault(disk, before)),
    }
}
