// An entry of the UNDO log on a disk, as the header that counts names it.
ghost use Rattle.std.specs.Prelude.{◌≡◌, ◌≤◌, ◌<◌, ◌↔◌, IfOk, IfSome, IfNone, IsTrue};
ghost use Rattle.hm_types.specs.declared.limits.TheConstants.{MOST_BIGBLOCKS, UNDO_ENTRIES, UNDO_ENTRY_BYTES};
ghost use Rattle.hm_types.specs.Faults.{HasCause};
ghost use Rattle.hm_disk.specs.Moments.{SameLeft};
ghost use Rattle.hm_header.specs.Range.{IsHeader};
ghost use Rattle.hm_undo.specs.Entry.{IsUndoPage, IsUndoPageOf};
ghost use Rattle.hm_undo.specs.Range.{HasUndoEntry, OldPage};
ghost use Rattle.hm_recover.specs.Damage.{SpellsOldPage, IsWholeEntry, entry_offset, old_page};
ghost use Rattle.hm_recover.specs.Recovery.{HasSpaceFor};
ghost use Rattle.hm_types.specs.declared.damage.TheConstants.{BAD_UNDO};
ghost use Rattle.hm_types.specs.declared.fault.Fault.TheVariants.{Damaged};
ghost use Rattle.hm_recover.specs.declared.fault.OpenFault.TheVariants.{Fault as of_disk};

use crate::fault::OpenFault;
use hm_disk::Disk;
use hm_fields::Page;
use hm_header::Header;
use hm_types::{
    BAD_UNDO, BIGBLOCK_BYTES, Failed, Fault, HOff, TREE_ZONE, UNDO_ENTRY_BYTES, UNDO_ZONE,
    is_layer2, is_pool,
};
use hm_undo::{decode, entry_place};

/// The old page that an entry holds for a header, and its offset. None where it holds none: its bytes are
/// no entry, or the entry has another generation, or its page is none of the header's volume. One call of
/// the disk.
pub(crate) fn read_entry<D: Disk>(
    disk: &mut D,
    header: &Header,
    entry: u32,
) -> Result<Option<(HOff, Page)>, Failed>
    requires header { IsHeader header.now }
    requires entry { entry < UNDO_ENTRIES }
    requires space { IfSome (D.told disk.old) (HasSpaceFor header.now.bigblocks) }
    ensures page { IfOk result (λ read. IfSome read (λ old. IsUndoPageOf header.now.bigblocks old.0)) }
    ensures some { IfOk result (λ read. IfSome read (λ old. IfSome (D.told disk.old) (λ t.
        HasUndoEntry t.bytes header.now entry (old_page old.0 old.1)))) }
    ensures none { IfOk result (λ read. IfNone read (IfSome (D.told disk.old) (λ t.
        IsWholeEntry t.bytes header.now entry → ⊥))) }
    ensures same { D.told disk.new ≡ D.told disk.old }
    ensures past { D.past disk.new ≡ D.past disk.old }
    ensures any_moment { SameLeft (D.left_since disk.old) (D.left_since disk.new) }
    ensures cause { HasCause (D.faults disk.old) (D.faults disk.new) result }
{
    let mut bytes = [0; UNDO_ENTRY_BYTES];
    disk.read_at(entry_place(header.bigblocks, entry), &mut bytes)?;
    Ok(page_of(header, &bytes))
}

/// The old page that the bytes of an entry have for a header.
fn page_of(header: &Header, bytes: &[u8; UNDO_ENTRY_BYTES]) -> Option<(HOff, Page)>
    requires { header.now.bigblocks ≤ MOST_BIGBLOCKS }
    ensures some { IfSome result (λ old. SpellsOldPage bytes.now header.now (old_page old.0 old.1)) }
    ensures none { IfNone result ((old : OldPage) → SpellsOldPage bytes.now header.now old → ⊥) }
{
    let (at, generation, page) = decode(bytes)?;
    if generation == header.generation && is_page_of(header.bigblocks, at) {
        Some((at, page))
    } else {
        None
    }
}

/// Whether an offset that an entry may name is one of a volume of `bigblocks`.
fn is_page_of(bigblocks: u32, at: HOff) -> bool
    requires size { bigblocks ≤ MOST_BIGBLOCKS }
    requires page { IsUndoPage at }
    ensures { IsTrue result ↔ IsUndoPageOf bigblocks at }
{
    let block = at.byte() / BIGBLOCK_BYTES;
    if at.zone() == TREE_ZONE {
        is_pool(bigblocks, block)
    } else {
        is_layer2(bigblocks, block)
    }
}

/// Damage of an entry, on a volume of `bigblocks`.
pub(crate) fn damage(bigblocks: u32, entry: u32) -> OpenFault
    requires bigblocks { bigblocks ≤ MOST_BIGBLOCKS }
    requires entry { entry < UNDO_ENTRIES }
    ensures { result ≡ of_disk (Damaged (entry_offset bigblocks entry) BAD_UNDO) }
{
    let place = entry_place(bigblocks, entry);
    OpenFault::Fault(Fault::Damaged {
        at: HOff::make(UNDO_ZONE, place).unwrap_or_default(),
        kind: BAD_UNDO,
    })
}
