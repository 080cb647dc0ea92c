// Making a volume.
ghost use Rattle.std.specs.Prelude.{◌≡◌, IfErr, OnOk};
ghost use Rattle.hm_types.specs.Told.{BothTell};
ghost use Rattle.hm_header.specs.Range.{IsSize};
ghost use Rattle.hm_core.specs.Opened.{HasOpenCause, IsMade, IsNotMade};

use hm_disk::{Disk, disk_fault};
use hm_newfs::write_volume;
use hm_recover::OpenFault;
use hm_types::{BIGBLOCK_BYTES, Failed};

// Where the number of big-blocks stands in a header slot, in bytes.
const BIGBLOCKS_PLACE: u32 = 12;

/// Makes an empty volume of this many big-blocks. Takes no memory.
///
/// `BadField` is answered with place 12 where the disk has fewer bytes, and then it is as before. A
/// crash within, or a call of the disk that fails, may leave a disk without a volume.
pub fn newfs<D: Disk>(disk: &mut D, bigblocks: u32) -> Result<(), OpenFault>
    requires size { IsSize bigblocks }
    ensures ok { OnOk result (BothTell (D.told disk.old) (D.told disk.new) (IsMade bigblocks)) }
    ensures err { IfErr result (IsNotMade bigblocks (D.told disk.old) (D.told disk.new)) }
    ensures cause { HasOpenCause (D.faults disk.old) (D.faults disk.new) result }
{
    let before = disk.faults();
    match disk.size() {
        Ok(size) if size < u64::from(bigblocks) * BIGBLOCK_BYTES => Err(OpenFault::BadField {
            place: BIGBLOCKS_PLACE,
        }),
        Ok(_) => match write_volume(disk, bigblocks) {
            Ok(()) => Ok(()),
            Err(Failed) => Err(OpenFault::Fault(disk_fault(disk, before))),
        },
        Err(Failed) => Err(OpenFault::Fault(disk_fault(disk, before))),
    }
}
