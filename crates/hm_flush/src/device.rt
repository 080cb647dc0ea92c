// What a flush does to the disk beside its header changes.
ghost use Rattle.std.specs.Prelude.{◌≡◌, ◌<◌, ◌≤◌, ◌+◌, ◌*◌, IfSome, OnOk, OnErr, length, slice_index};
ghost use Rattle.hm_types.specs.declared.limits.TheConstants.{BIGBLOCK_BYTES, MOST_BIGBLOCKS, PAGE_BYTES};
ghost use Rattle.hm_types.specs.declared.limits.TheConstants.{UNDO_ENTRIES, UNDO_ENTRY_BYTES};
ghost use Rattle.hm_types.specs.Faults.{HasCause};
ghost use Rattle.hm_types.specs.Offset.{byte_of};
ghost use Rattle.hm_types.specs.Told.{BothTell};
ghost use Rattle.hm_disk.specs.Moments.{WriteElapses};
ghost use Rattle.hm_disk.specs.Transfer.{TornAll};
ghost use Rattle.hm_header.specs.Range.{HasRoom};
ghost use Rattle.hm_undo.specs.Log.{entry_place};
ghost use Rattle.hm_pages.specs.Store.{contents};
ghost use Rattle.hm_flush.specs.Group.{group_of};
ghost use Rattle.hm_flush.specs.Device.{IsPageWritten, IsSaved};

use hm_disk::Disk;
use hm_fields::Page;
use hm_pages::PageStore;
use hm_types::{Failed, HOff, PAGE_BYTES, UNDO_ENTRY_BYTES};
use hm_undo::{encode, entry_place};

/// Reads the page that stands at an offset, and writes it into an entry of the log, for the header of
/// this generation. After `Failed` the entry may hold any bytes.
pub fn save_page<D: Disk>(
    disk: &mut D,
    bigblocks: u32,
    entry: u32,
    generation: u64,
    at: HOff,
) -> Result<(), Failed>
    requires bigblocks { bigblocks ≤ MOST_BIGBLOCKS }
    requires entry { entry < UNDO_ENTRIES }
    requires page { IfSome (D.told disk.old) (λ t. byte_of at + PAGE_BYTES ≤ length t.bytes) }
    requires room { IfSome (D.told disk.old) (λ t.
        entry_place bigblocks entry + UNDO_ENTRY_BYTES ≤ length t.bytes) }
    ensures ok { OnOk result (BothTell (D.told disk.old) (D.told disk.new)
        (IsSaved (entry_place bigblocks entry) generation at)) }
    ensures err { OnErr result (BothTell (D.told disk.old) (D.told disk.new)
        (TornAll (entry_place bigblocks entry) UNDO_ENTRY_BYTES)) }
    ensures any_moment { BothTell (D.told disk.old) (D.told disk.new)
        (WriteElapses (entry_place bigblocks entry) UNDO_ENTRY_BYTES
        (D.left_since disk.old) (D.left_since disk.new)) }
    ensures cause { HasCause (D.faults disk.old) (D.faults disk.new) result }
{
    let mut bytes = [0; PAGE_BYTES];
    disk.read_at(at.byte(), &mut bytes)?;
    let mut old = Page::zero();
    old.copy_from(&bytes);
    let mut into = [0; UNDO_ENTRY_BYTES];
    encode(at, generation, &old, &mut into);
    disk.write_at(entry_place(bigblocks, entry), &into)
}

/// Writes the frozen page of this number where it belongs. After `Failed` the page may hold any bytes
/// there.
pub fn place_page<D: Disk>(disk: &mut D, pages: &PageStore, i: u32) -> Result<(), Failed>
    requires i { i < length (contents pages.now).frozen_group }
    requires page { IfSome (D.told disk.old) (λ t.
        byte_of (slice_index (contents pages.now).frozen_group i) + PAGE_BYTES ≤ length t.bytes) }
    ensures ok { OnOk result (BothTell (D.told disk.old) (D.told disk.new)
        (IsPageWritten (group_of (contents pages.now)) i)) }
    ensures err { OnErr result (BothTell (D.told disk.old) (D.told disk.new)
        (TornAll (byte_of (slice_index (contents pages.now).frozen_group i)) PAGE_BYTES)) }
    ensures any_moment { BothTell (D.told disk.old) (D.told disk.new)
        (WriteElapses (byte_of (slice_index (contents pages.now).frozen_group i)) PAGE_BYTES
        (D.left_since disk.old) (D.left_since disk.new)) }
    ensures cause { HasCause (D.faults disk.old) (D.faults disk.new) result }
{
    let page = pages.frozen_page(i);
    disk.write_at(pages.frozen_place(i).byte(), page.bytes())
}
