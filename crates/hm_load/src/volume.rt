// Ranges of a volume, read from its disk.
ghost use Rattle.std.specs.Prelude.{◌≡◌, ◌≤◌, ◌+◌, IfSome, OnOk, length, replicate, slice_range};
ghost use Rattle.hm_types.specs.Layout.{start_of};
ghost use Rattle.hm_types.specs.Offset.{byte_of};
ghost use Rattle.hm_types.specs.declared.limits.TheConstants.{MOST_BIGBLOCKS, PAGE_BYTES};
ghost use Rattle.hm_disk.specs.declared.limits.TheConstants.{MOST_CALL_BYTES};
ghost use Rattle.hm_load.specs.Reading.{HasDiskCause, volume_bytes};
ghost use Rattle.hm_newfs.specs.Steps.{HasSpace};

use hm_disk::{Disk, MOST_CALL_BYTES, disk_fault};
use hm_fields::Page;
use hm_types::{BIGBLOCK_BYTES, Failed, Fault, HOff, PAGE_BYTES};
use std::alloc::Global;

/// A volume that is read. A byte outside of it reads as 0.
#[derive(Drop)]
pub(crate) struct Volume {
    /// What takes memory for payloads.
    pub(crate) alloc: Global,
    /// Its size, in big-blocks.
    pub(crate) bigblocks: u32,
    ghost most: { bigblocks ≤ MOST_BIGBLOCKS },
}

impl Volume {
    /// Fills `buf` with the bytes from one of the volume on. What it holds after an error is not
    /// known.
    pub(crate) fn read<D: Disk>(
        &self,
        disk: &mut D,
        place: u64,
        buf: &mut [u8],
    ) -> Result<(), Fault>
        requires few { length buf.old ≤ MOST_CALL_BYTES }
        requires space { IfSome (D.told disk.old) (HasSpace self.now.bigblocks) }
        ensures ok { OnOk result (IfSome (D.told disk.old) (λ t.
            buf.new ≡ volume_bytes t.bytes self.now.bigblocks place (length buf.old))) }
        ensures past { OnOk result (start_of self.now.bigblocks ≤ place →
            buf.new ≡ replicate (length buf.old) 0) }
        ensures same { D.told disk.new ≡ D.told disk.old }
        ensures crashes { D.past disk.new ≡ D.past disk.old }
        ensures cause { HasDiskCause (D.faults disk.old) (D.faults disk.new) result }
    {
        let end = u64::from(self.bigblocks) * BIGBLOCK_BYTES;
        let inside = end.saturating_sub(place).min(buf.len() as u64) as usize;
        let (front, rest) = buf.split_at_mut(inside);
        read_at(disk, place, front)?;
        rest.fill(0);
        Ok(())
    }

    /// Reads the page at an offset.
    pub(crate) fn page<D: Disk>(&self, disk: &mut D, at: HOff, page: &mut Page) -> Result<(), Fault>
        requires { IfSome (D.told disk.old) (HasSpace self.now.bigblocks) }
        ensures ok { OnOk result (IfSome (D.told disk.old) (λ t.
            page.new ≡ volume_bytes t.bytes self.now.bigblocks (byte_of at) PAGE_BYTES)) }
        ensures past { OnOk result (start_of self.now.bigblocks ≤ byte_of at →
            page.new ≡ replicate PAGE_BYTES 0) }
        ensures same { D.told disk.new ≡ D.told disk.old }
        ensures crashes { D.past disk.new ≡ D.past disk.old }
        ensures cause { HasDiskCause (D.faults disk.old) (D.faults disk.new) result }
    {
        let mut bytes = [0; PAGE_BYTES];
        self.read(disk, at.byte(), &mut bytes)?;
        page.copy_from(&bytes);
        Ok(())
    }
}

// Fills `buf` with the bytes from `place` on. Where it has no room, nothing is read.
fn read_at<D: Disk>(disk: &mut D, place: u64, buf: &mut [u8]) -> Result<(), Fault>
    requires few { length buf.old ≤ MOST_CALL_BYTES }
    requires within { 1 ≤ length buf.old → IfSome (D.told disk.old) (λ t.
        place + length buf.old ≤ length t.bytes) }
    ensures ok { OnOk result (IfSome (D.told disk.old) (λ t.
        buf.new ≡ slice_range t.bytes place (place + length buf.old))) }
    ensures same { D.told disk.new ≡ D.told disk.old }
    ensures crashes { D.past disk.new ≡ D.past disk.old }
    ensures cause { HasDiskCause (D.faults disk.old) (D.faults disk.new) result }
{
    if buf.is_empty() {
        return Ok(());
    }
    let before = disk.faults();
    match disk.read_at(place, buf) {
        Ok(()) => Ok(()),
        Err(Failed) => Err(disk_fault(disk, before)),
    }
}
