// The space of a volume that is mounted.
ghost use Rattle.std.specs.Prelude.{◌≡◌, ◌≤◌, IfErr, IfOk, IfSome};
ghost use Rattle.hm_types.specs.Faults.{IsCaused};
ghost use Rattle.hm_header.specs.Range.{IsHeader};
ghost use Rattle.hm_stored.specs.Space.{heap};
ghost use Rattle.hm_core.specs.Mounting.{IsHeaderOn, IsNotRead, IsReadFrom};

use hm_disk::Disk;
use hm_header::Header;
use hm_load::load;
use hm_pages::pages_are_bytes;
use hm_stored::{Books, Space};
use hm_types::Fault;
use std::alloc::Global;

/// The space of the volume with this header, and how many of its big-blocks are free. An error hands
/// back the disk.
pub(crate) fn open_space<D: Disk>(
    alloc: Global,
    disk: D,
    header: &Header,
) -> Result<(Space<D>, u32), (D, Fault)>
    requires header { IsHeader header.now }
    requires counts { IfSome (D.told disk) (IsHeaderOn header.now) }
    requires unarmed { header.now.undo_count ≡ 0 }
    ensures ok { IfOk result (λ opened. IsReadFrom (D.told disk) header.now opened.1 (heap opened.0)) }
    ensures faults { IfOk result (λ opened. D.faults disk ≤ D.faults opened.0.disk) }
    ensures past { IfOk result (λ opened. D.past opened.0.disk ≡ D.past disk) }
    ensures err { IfErr result (λ e. IsNotRead header.now e.1 (D.told disk) (D.told e.0)) }
    ensures err_past { IfErr result (λ e. D.past e.0 ≡ D.past disk) }
    ensures cause { IfErr result (λ e. (D.faults disk ≤ D.faults e.0)
        × IsCaused (D.faults disk) (D.faults e.0) e.1) }
{
    let mut disk = disk;
    let store = match load(alloc, &mut disk, header) {
        Ok(store) => store,
        Err(fault) => return Err((disk, fault)),
    };
    pages_are_bytes(&store);
    let mut space = Space::over(store, disk, Books::of(alloc, header));
    match space.free_blocks() {
        Ok(free) => Ok((space, free)),
        Err(fault) => Err((space.into_disk(), fault)),
    }
}
