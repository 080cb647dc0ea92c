// What a call of a disk that failed comes to.
ghost use Rattle.std.specs.Prelude.{◌≡◌};
ghost use Rattle.hm_types.specs.declared.fault.Fault.TheVariants.{Media};

use crate::disk::Disk;
use hm_types::Fault;

/// The fault of a call of a disk that failed, whose faults were counted so many before the call.
pub fn disk_fault<D: Disk>(disk: &D, before: u64) -> Fault
    ensures { result ≡ Media before (D.faults disk.now) }
{
    Fault::Media {
        before,
        after: disk.faults(),
    }
}
