// The steps of making a volume.
ghost use Rattle.std.specs.Prelude.{IfSome, OnErr, OnOk};
ghost use Rattle.hm_types.specs.Faults.{HasCause};
ghost use Rattle.hm_types.specs.Told.{BothTell};
ghost use Rattle.hm_header.specs.OnDisk.{HasSlots};
ghost use Rattle.hm_header.specs.Range.{IsSize};
ghost use Rattle.hm_newfs.specs.Steps.{ClosesGates, ClosingElapses, ContentsElapse, HasClosedGates};
ghost use Rattle.hm_newfs.specs.Steps.{HasSpace, WritesContents};
ghost use Rattle.hm_newfs.specs.Volume.{FailsToMake, MakesVolume, VolumeElapses};

use crate::header::write_body;
use crate::layer::{Layer, write_layer};
use crate::tree::write_tree;
use hm_disk::{Disk, write_synced};
use hm_header::{GATE_CLOSED, GATE_OPEN, gate_place};
use hm_types::Failed;

/// Writes an empty volume of this many big-blocks, 24 to 1,048,576, for which the disk must have
/// room. Takes no memory.
///
/// Both gates of the header slots are closed first and that of the first slot is opened last, with
/// a sync after each. So a crash at any moment within leaves the disk as it was, but for these two
/// bytes, or no volume, or the new one. After `Failed` it has one of these too.
pub fn write_volume<D: Disk>(disk: &mut D, bigblocks: u32) -> Result<(), Failed>
    requires size { IsSize bigblocks }
    requires room { IfSome (D.told disk.old) (HasSpace bigblocks) }
    ensures ok { OnOk result
        (BothTell (D.told disk.old) (D.told disk.new) (MakesVolume bigblocks)) }
    ensures err { OnErr result
        (BothTell (D.told disk.old) (D.told disk.new) (FailsToMake bigblocks)) }
    ensures any_moment { BothTell (D.told disk.old) (D.told disk.new)
        (VolumeElapses bigblocks (D.left_since disk.old) (D.left_since disk.new)) }
    ensures cause { HasCause (D.faults disk.old) (D.faults disk.new) result }
{
    close_gates(disk)?;
    write_contents(disk, bigblocks)?;
    write_synced(disk, gate_place(0), &[GATE_OPEN])
}

// Closes both gates, and settles that.
fn close_gates<D: Disk>(disk: &mut D) -> Result<(), Failed>
    requires slots { IfSome (D.told disk.old) (λ t. HasSlots t.bytes) }
    ensures ok { OnOk result (BothTell (D.told disk.old) (D.told disk.new) ClosesGates) }
    ensures any_moment { BothTell (D.told disk.old) (D.told disk.new)
        (ClosingElapses (D.left_since disk.old) (D.left_since disk.new)) }
    ensures cause { HasCause (D.faults disk.old) (D.faults disk.new) result }
{
    disk.write_at(gate_place(0), &[GATE_CLOSED])?;
    disk.write_at(gate_place(1), &[GATE_CLOSED])?;
    disk.sync()
}

// Writes all but the gates, which are closed, and settles that.
fn write_contents<D: Disk>(disk: &mut D, bigblocks: u32) -> Result<(), Failed>
    requires size { IsSize bigblocks }
    requires room { IfSome (D.told disk.old) (HasSpace bigblocks) }
    requires closed { IfSome (D.told disk.old) HasClosedGates }
    ensures ok { OnOk result
        (BothTell (D.told disk.old) (D.told disk.new) (WritesContents bigblocks)) }
    ensures any_moment { BothTell (D.told disk.old) (D.told disk.new)
        (ContentsElapse (D.left_since disk.old) (D.left_since disk.new)) }
    ensures cause { HasCause (D.faults disk.old) (D.faults disk.new) result }
{
    write_body(disk, bigblocks)?;
    write_layer(disk, bigblocks, Layer::First)?;
    write_layer(disk, bigblocks, Layer::Second)?;
    write_tree(disk, bigblocks)?;
    disk.sync()
}
