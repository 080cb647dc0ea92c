// A change of the header, stage by stage.
ghost use Rattle.std.specs.Prelude.{◌≡◌, ◌≤◌, ◌-◌, IfSome, OnOk, OnErr};
ghost use Rattle.hm_types.specs.Faults.{HasCause};
ghost use Rattle.hm_types.specs.Told.{BothTell};
ghost use Rattle.hm_header.specs.Change.{AnyCrash, IsNext, StageDone, StageElapses, StageFailed};
ghost use Rattle.hm_header.specs.Range.{IsHeader};
ghost use Rattle.hm_flush.specs.Change.{change_asks, change_brings, change_range, change_number};

use hm_disk::Disk;
use hm_header::{Header, close_gate, open_gate, write_body};
use hm_types::Failed;

/// Which stage of a header change comes next.
#[derive(Clone, Copy, Debug, PartialEq, Eq)]
pub enum Change {
    /// The gate of the slot that does not count is closed.
    Close,
    /// The body is written under the closed gate.
    Write,
    /// The gate is opened. Where that was `tried`, either header may count after a crash.
    Open { tried: bool },
}

impl Change {
    /// Its number among the three, from 1 on.
    pub fn number(self) -> u8
        ensures { result ≡ change_number self }
    {
        match self {
            Change::Close => 1,
            Change::Write => 2,
            Change::Open { tried: _ } => 3,
        }
    }
}

/// Makes this stage of the change from the header that counts, in this slot, to `next` in the other one.
/// After `Failed` it may be made again.
pub fn change_header<D: Disk>(
    disk: &mut D,
    header: &Header,
    slot: u8,
    next: &Header,
    change: Change,
) -> Result<(), Failed>
    requires slot { slot ≤ 1 }
    requires before { IfSome (D.told disk.old)
        (AnyCrash (change_asks change header.now slot next.now)) }
    requires next { IsHeader next.now }
    requires follows { IsNext header.now next.now }
    ensures ok { OnOk result (BothTell (D.told disk.old) (D.told disk.new)
        (StageDone (change_brings change header.now slot next.now)
        (change_range change slot).0 (change_range change slot).1)) }
    ensures err { OnErr result (BothTell (D.told disk.old) (D.told disk.new)
        (StageFailed (change_asks change header.now slot next.now)
        (change_range change slot).0 (change_range change slot).1)) }
    ensures any_moment { BothTell (D.told disk.old) (D.told disk.new)
        (StageElapses (change_asks change header.now slot next.now)
        (change_range change slot).0 (change_range change slot).1
        (D.left_since disk.old) (D.left_since disk.new)) }
    ensures cause { HasCause (D.faults disk.old) (D.faults disk.new) result }
{
    match change {
        Change::Close => close_gate(disk, header, slot),
        Change::Write => write_body(disk, header, slot, next),
        Change::Open { tried: _ } => open_gate(disk, header, slot, next),
    }
}
