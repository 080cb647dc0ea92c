// A change of the header: the next one goes into the slot that does not count, in three stages.
ghost use Rattle.std.specs.Prelude.{◌≤◌, ◌-◌, IfSome, OnOk, OnErr};
ghost use Rattle.hm_types.specs.Faults.{HasCause};
ghost use Rattle.hm_types.specs.Told.{BothTell};
ghost use Rattle.hm_header.specs.declared.header.TheConstants.{BODY_BYTES};
ghost use Rattle.hm_header.specs.Change.{AnyCrash, HasNextBody, IsBodyWritten, IsChanged, IsClosedBeside, IsCounting, IsNext};
ghost use Rattle.hm_header.specs.Change.{ChangeElapses, ChangeFailed, Changes, StageDone, StageElapses, StageFailed};
ghost use Rattle.hm_header.specs.OnDisk.{gate_place, slot_place};
ghost use Rattle.hm_header.specs.Range.{IsHeader};

use crate::body::encode;
use crate::header::{BODY_BYTES, GATE_CLOSED, GATE_OPEN, Header};
use crate::place::{gate_place, slot_place};
use hm_disk::{Disk, write_synced};
use hm_types::Failed;

/// Makes `next` the header that counts, in the slot that does not count yet: its three stages, one
/// after the other. `header` counts so far, in this slot, whatever a crash leaves. After `Failed` one
/// of the two counts, and so it is after a crash at any moment.
pub fn change_header<D: Disk>(
    disk: &mut D,
    header: &Header,
    slot: u8,
    next: &Header,
) -> Result<(), Failed>
    requires slot { slot ≤ 1 }
    requires before { IfSome (D.told disk.old) (AnyCrash (IsCounting header.now slot)) }
    requires next { IsHeader next.now }
    requires follows { IsNext header.now next.now }
    ensures ok { OnOk result (BothTell (D.told disk.old) (D.told disk.new)
        (Changes next.now (1 - slot))) }
    ensures err { OnErr result (BothTell (D.told disk.old) (D.told disk.new)
        (ChangeFailed header.now slot next.now)) }
    ensures any_moment { BothTell (D.told disk.old) (D.told disk.new) (ChangeElapses header.now slot
        next.now (D.left_since disk.old) (D.left_since disk.new)) }
    ensures cause { HasCause (D.faults disk.old) (D.faults disk.new) result }
{
    close_gate(disk, header, slot)?;
    write_body(disk, header, slot, next)?;
    open_gate(disk, header, slot, next)
}

/// The first stage: closes the gate of the slot that does not count, where it is open, and settles
/// that. One read, one write where the gate is open, and one sync. A gate that is closed is not
/// written, since any bytes may stand under it. The header counts all the while, and after `Failed`
/// the stage may be done again.
pub fn close_gate<D: Disk>(disk: &mut D, header: &Header, slot: u8) -> Result<(), Failed>
    requires slot { slot ≤ 1 }
    requires before { IfSome (D.told disk.old) (AnyCrash (IsCounting header.now slot)) }
    ensures ok { OnOk result (BothTell (D.told disk.old) (D.told disk.new)
        (StageDone (IsClosedBeside header.now slot) (gate_place (1 - slot)) 1)) }
    ensures err { OnErr result (BothTell (D.told disk.old) (D.told disk.new)
        (StageFailed (IsCounting header.now slot) (gate_place (1 - slot)) 1)) }
    ensures any_moment { BothTell (D.told disk.old) (D.told disk.new)
        (StageElapses (IsCounting header.now slot) (gate_place (1 - slot)) 1
        (D.left_since disk.old) (D.left_since disk.new)) }
    ensures cause { HasCause (D.faults disk.old) (D.faults disk.new) result }
{
    let place = gate_place(1 - slot);
    let mut gate = [0; 1];
    disk.read_at(place, &mut gate)?;
    if gate[0] == GATE_OPEN {
        write_synced(disk, place, &[GATE_CLOSED])
    } else {
        disk.sync()
    }
}

/// The second stage: writes the body of the next header under the closed gate, and settles it. One
/// write and one sync. The header counts all the while, and after `Failed` the stage may be done
/// again.
pub fn write_body<D: Disk>(
    disk: &mut D,
    header: &Header,
    slot: u8,
    next: &Header,
) -> Result<(), Failed>
    requires slot { slot ≤ 1 }
    requires before { IfSome (D.told disk.old) (AnyCrash (IsClosedBeside header.now slot)) }
    ensures ok { OnOk result (BothTell (D.told disk.old) (D.told disk.new)
        (StageDone (IsBodyWritten header.now slot next.now) (slot_place (1 - slot)) BODY_BYTES)) }
    ensures err { OnErr result (BothTell (D.told disk.old) (D.told disk.new)
        (StageFailed (IsClosedBeside header.now slot) (slot_place (1 - slot)) BODY_BYTES)) }
    ensures any_moment { BothTell (D.told disk.old) (D.told disk.new)
        (StageElapses (IsClosedBeside header.now slot) (slot_place (1 - slot)) BODY_BYTES
        (D.left_since disk.old) (D.left_since disk.new)) }
    ensures cause { HasCause (D.faults disk.old) (D.faults disk.new) result }
{
    let mut body = [0; BODY_BYTES];
    encode(next, &mut body);
    write_synced(disk, slot_place(1 - slot), &body)
}

/// The third stage: opens the gate over the body of the next header, and settles that. One write and
/// one sync. Within it, and after `Failed`, one of the two headers counts, and the stage may be done
/// again.
pub fn open_gate<D: Disk>(
    disk: &mut D,
    header: &Header,
    slot: u8,
    next: &Header,
) -> Result<(), Failed>
    requires slot { slot ≤ 1 }
    requires before { IfSome (D.told disk.old) (AnyCrash (HasNextBody header.now slot next.now)) }
    requires next { IsHeader next.now }
    requires follows { IsNext header.now next.now }
    ensures ok { OnOk result (BothTell (D.told disk.old) (D.told disk.new)
        (StageDone (IsChanged slot next.now) (gate_place (1 - slot)) 1)) }
    ensures err { OnErr result (BothTell (D.told disk.old) (D.told disk.new)
        (StageFailed (HasNextBody header.now slot next.now) (gate_place (1 - slot)) 1)) }
    ensures any_moment { BothTell (D.told disk.old) (D.told disk.new)
        (StageElapses (HasNextBody header.now slot next.now) (gate_place (1 - slot)) 1
        (D.left_since disk.old) (D.left_since disk.new)) }
    ensures cause { HasCause (D.faults disk.old) (D.faults disk.new) result }
{
    write_synced(disk, gate_place(1 - slot), &[GATE_OPEN])
}
