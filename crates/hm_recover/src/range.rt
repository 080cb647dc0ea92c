// The range of entries that the header that counts names, from the last entry to the first.
ghost use Rattle.std.specs.Prelude.{◌≡◌, ◌≤◌, ◌<◌, ◌+◌, List, IfErr, IfSome, OnOk, length};
ghost use Rattle.hm_types.specs.Told.{BothTell};
ghost use Rattle.hm_types.specs.declared.limits.TheConstants.{PAGE_BYTES, UNDO_ENTRIES};
ghost use Rattle.hm_types.specs.Faults.{HasCause};
ghost use Rattle.hm_types.specs.Offset.{byte_of};
ghost use Rattle.hm_disk.specs.Disk.{Written};
ghost use Rattle.hm_recover.specs.Damage.{old_page};
ghost use Rattle.hm_disk.specs.Moments.{SameLeft};
ghost use Rattle.hm_header.specs.Range.{IsHeader};
ghost use Rattle.hm_undo.specs.Range.{HasRange, OldPage};
ghost use Rattle.hm_recover.specs.Recovery.{HasSpaceFor};
ghost use Rattle.hm_recover.specs.Put.{HasPutPage, HasPutAll, MayPut, MayPutAll, MayPutPage};
ghost use Rattle.hm_recover.specs.Stop.{HasEndCause, IsNoDamage, IsNoRange, IsRangeStop};

use crate::entry::{damage, read_entry};
use crate::stop::RecoveryStop;
use hm_disk::Disk;
use hm_fields::Page;
use hm_header::Header;
use hm_types::{Failed, HOff};
use hm_undo::entry_at;

/// Reads all entries of the range, from the last to the first, and stops at one that is damaged. One call
/// of the disk an entry. It changes nothing on the disk.
pub(crate) fn check_range<D: Disk>(disk: &mut D, header: &Header) -> Result<(), RecoveryStop>
    requires header { IsHeader header.now }
    requires space { IfSome (D.told disk.old) (HasSpaceFor header.now.bigblocks) }
    ensures ok { OnOk result (IfSome (D.told disk.old) (λ t.
        (olds : List OldPage) × HasRange t.bytes header.now olds)) }
    ensures err { IfErr result (λ stop. IfSome (D.told disk.old) (λ t.
        IsRangeStop t.bytes header.now stop)) }
    ensures same { D.told disk.new ≡ D.told disk.old }
    ensures past { D.past disk.new ≡ D.past disk.old }
    ensures any_moment { SameLeft (D.left_since disk.old) (D.left_since disk.new) }
    ensures cause { HasEndCause (D.faults disk.old) (D.faults disk.new) result }
{
    for i in (0..header.undo_count).rev() {
        let entry = entry_at(header.undo_first, i);
        if read_entry(disk, header, entry)?.is_none() {
            return Err(RecoveryStop::Refused(damage(header.bigblocks, entry)));
        }
    }
    Ok(())
}

/// Puts the old pages of the range back, from the last entry to the first. Two calls of the disk an entry.
/// After an error some of the pages are put back, and some may be torn.
pub(crate) fn put_back<D: Disk>(disk: &mut D, header: &Header) -> Result<(), RecoveryStop>
    requires header { IsHeader header.now }
    requires space { IfSome (D.told disk.old) (HasSpaceFor header.now.bigblocks) }
    ensures ok { OnOk result (BothTell (D.told disk.old) (D.told disk.new) (HasPutAll header.now)) }
    ensures err { IfErr result (λ stop. IfSome (D.told disk.old) (IsNoRange header.now stop)) }
    ensures any_moment { BothTell (D.told disk.old) (D.told disk.new) (MayPutAll header.now
        (D.left_since disk.old) (D.left_since disk.new)) }
    ensures cause { HasEndCause (D.faults disk.old) (D.faults disk.new) result }
{
    for i in (0..header.undo_count).rev() {
        put_page(disk, header, entry_at(header.undo_first, i))?;
    }
    Ok(())
}

/// Puts the old page of one entry back.
fn put_page<D: Disk>(disk: &mut D, header: &Header, entry: u32) -> Result<(), RecoveryStop>
    requires header { IsHeader header.now }
    requires entry { entry < UNDO_ENTRIES }
    requires space { IfSome (D.told disk.old) (HasSpaceFor header.now.bigblocks) }
    ensures ok { OnOk result (BothTell (D.told disk.old) (D.told disk.new)
        (HasPutPage header.now entry)) }
    ensures err { IfErr result (λ stop. IfSome (D.told disk.old)
        (IsNoDamage header.now entry stop)) }
    ensures any_moment { BothTell (D.told disk.old) (D.told disk.new) (MayPut header.now entry
        (D.left_since disk.old) (D.left_since disk.new)) }
    ensures space { IfSome (D.told disk.new) (HasSpaceFor header.now.bigblocks) }
    ensures cause { HasEndCause (D.faults disk.old) (D.faults disk.new) result }
{
    match read_entry(disk, header, entry)? {
        Some(old) => Ok(write_page(disk, &old)?),
        None => Err(RecoveryStop::Refused(damage(header.bigblocks, entry))),
    }
}

/// Writes a page at its offset.
fn write_page<D: Disk>(disk: &mut D, old: &(HOff, Page)) -> Result<(), Failed>
    requires within { IfSome (D.told disk.old) (λ t. byte_of old.now.0 + PAGE_BYTES ≤ length t.bytes) }
    ensures ok { OnOk result (BothTell (D.told disk.old) (D.told disk.new)
        (Written (byte_of old.now.0) old.now.1)) }
    ensures any_moment { BothTell (D.told disk.old) (D.told disk.new)
        (MayPutPage (old_page old.now.0 old.now.1) (D.left_since disk.old) (D.left_since disk.new)) }
    ensures cause { HasCause (D.faults disk.old) (D.faults disk.new) result }
{
    disk.write_at(old.0.byte(), old.1.bytes())
}
