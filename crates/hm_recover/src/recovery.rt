// Recovery.
ghost use Rattle.std.specs.Prelude.{◌≡◌, ◌≤◌, ◌<◌, IfErr, IfOk, IfSome, OnErr, OnOk};
ghost use Rattle.hm_types.specs.Faults.{HasCause};
ghost use Rattle.hm_types.specs.Told.{BothTell};
ghost use Rattle.hm_disk.specs.Disk.{Synced};
ghost use Rattle.hm_disk.specs.Moments.{SyncElapses};
ghost use Rattle.hm_header.specs.Range.{IsHeader};
ghost use Rattle.hm_recover.specs.Recovery.{HasRecoveryCause, IsOpenedHeader, IsRangeReady};
ghost use Rattle.hm_recover.specs.Recovery.{IsRecovered, IsRecoveryRefused, KeepsRecovery};
ghost use Rattle.hm_recover.specs.Stop.{HasEndCause, IsFailed, IsOfHeader, IsStopped};

use crate::fault::OpenFault;
use crate::opened::Opened;
use crate::range::{check_range, put_back};
use crate::stop::RecoveryStop;
use hm_disk::{Disk, disk_fault};
use hm_header::{Header, HeaderFault, change_header};
use hm_types::Failed;

/// Recovers a disk after a crash, and tells the header that counts then, which names no range of entries.
/// Where the header that counted named none, nothing is written. Else the entries of its range are read and
/// checked from the last to the first; then their pages are put back in this order, and settled; then the
/// next header, without a range, is written into the other slot.
///
/// It is refused before anything is written where the slots have no header, and where an entry is damaged:
/// then the first such entry in that order is told, under kind 8, by its offset in zone 3. After a failure
/// of the disk, and after a crash at any moment, recovery comes to the same bytes if it is done again.
///
/// It takes no memory. Each pass reads an entry in one call of 4,128 bytes.
pub fn recover<D: Disk>(disk: &mut D) -> Result<Opened, OpenFault>
    ensures opened { IfOk result IsOpenedHeader }
    ensures ok { IfOk result (λ opened. BothTell (D.told disk.old) (D.told disk.new)
        (IsRecovered opened (D.left_since disk.old) (D.left_since disk.new))) }
    ensures err { IfErr result (λ fault. BothTell (D.told disk.old) (D.told disk.new)
        (IsRecoveryRefused fault (D.left_since disk.old) (D.left_since disk.new))) }
    ensures any_moment { BothTell (D.told disk.old) (D.told disk.new)
        (KeepsRecovery (D.left_since disk.old) (D.left_since disk.new)) }
    ensures cause { HasRecoveryCause (D.faults disk.old) (D.faults disk.new) result }
{
    let before = disk.faults();
    match try_recover(disk) {
        Ok(opened) => Ok(opened),
        Err(RecoveryStop::Failed) => Err(OpenFault::Fault(disk_fault(disk, before))),
        Err(RecoveryStop::Refused(fault)) => Err(fault),
    }
}

/// The same, with its errors as they are met.
fn try_recover<D: Disk>(disk: &mut D) -> Result<Opened, RecoveryStop>
    ensures opened { IfOk result IsOpenedHeader }
    ensures ok { IfOk result (λ opened. BothTell (D.told disk.old) (D.told disk.new)
        (IsRecovered opened (D.left_since disk.old) (D.left_since disk.new))) }
    ensures err { IfErr result (λ stop. BothTell (D.told disk.old) (D.told disk.new)
        (IsStopped stop (D.left_since disk.old) (D.left_since disk.new))) }
    ensures any_moment { BothTell (D.told disk.old) (D.told disk.new)
        (KeepsRecovery (D.left_since disk.old) (D.left_since disk.new)) }
    ensures cause { HasEndCause (D.faults disk.old) (D.faults disk.new) result }
{
    let (header, slot) = match hm_header::read_header(disk)? {
        Ok(answer) => answer,
        Err(fault) => return Err(RecoveryStop::Refused(of_header(fault))),
    };
    if header.undo_count == 0 {
        return Ok(Opened { header, slot });
    }
    check_range(disk, &header)?;
    undo_range(disk, &header, slot)
}

/// Why slots without a header give no volume.
fn of_header(fault: HeaderFault) -> OpenFault
    ensures { IsOfHeader fault result }
{
    match fault {
        HeaderFault::NotVolume => OpenFault::NotVolume,
        HeaderFault::BadField { place } => OpenFault::BadField { place },
    }
}

/// Undoes the range of the header that counts, in this slot. Each entry was checked.
fn undo_range<D: Disk>(disk: &mut D, header: &Header, slot: u8) -> Result<Opened, RecoveryStop>
    requires header { IsHeader header.now }
    requires slot { slot ≤ 1 }
    requires ready { IfSome (D.told disk.old) (IsRangeReady header.now slot) }
    ensures opened { IfOk result IsOpenedHeader }
    ensures ok { IfOk result (λ opened. BothTell (D.told disk.old) (D.told disk.new)
        (IsRecovered opened (D.left_since disk.old) (D.left_since disk.new))) }
    ensures err { IfErr result (λ stop. IfSome (D.told disk.old) (λ _. IsFailed stop)) }
    ensures any_moment { BothTell (D.told disk.old) (D.told disk.new)
        (KeepsRecovery (D.left_since disk.old) (D.left_since disk.new)) }
    ensures cause { HasEndCause (D.faults disk.old) (D.faults disk.new) result }
{
    put_back(disk, header)?;
    settle(disk)?;
    let next = Header {
        generation: header.next_generation(),
        undo_count: 0,
        ..*header
    };
    change_header(disk, header, slot, &next)?;
    Ok(Opened {
        header: next,
        slot: 1 - slot,
    })
}

/// Settles the pages that were put back. Until then the header has to name their entries.
fn settle<D: Disk>(disk: &mut D) -> Result<(), Failed>
    ensures ok { OnOk result (BothTell (D.told disk.old) (D.told disk.new) Synced) }
    ensures err { OnErr result (D.told disk.new ≡ D.told disk.old) }
    ensures any_moment { BothTell (D.told disk.old) (D.told disk.new)
        (SyncElapses (D.left_since disk.old) (D.left_since disk.new)) }
    ensures cause { HasCause (D.faults disk.old) (D.faults disk.new) result }
{
    disk.sync()
}
