// Why a run stops before its end, with the status and the last line that tell so.
ghost use Rattle.std.specs.Prelude.{◌≡◌};
ghost use Rattle.hm_shell.specs.Stop.{of_fault, of_open, status_of};

use crate::why::Why;
use hm_core::OpenFault;
use hm_types::{Fault, NoMemory};
use std::alloc::{AllocError, AllocFailed};

/// Why a run stops before its end.
#[derive(Clone, Copy, Debug, PartialEq, Eq)]
pub(crate) enum RunStop {
    /// The words break the rule.
    Usage,
    /// The disk has no header slot with an open gate and the signature.
    NotVolume,
    /// The field at this place of the header that counts is out of range, or at 12 the disk is too
    /// small.
    BadField { place: u32 },
    /// The disk failed outside a line: its counts of faults, as the call began and after it.
    DiskFault { before: u64, after: u64 },
    /// What the disk holds at this offset breaks the rule of this number.
    Damaged { at: u64, kind: u8 },
    /// The script's source failed: its counts of faults, as the run began and now.
    ScriptFault { before: u64, after: u64 },
    /// The sink failed.
    OutFault,
    /// An allocation was refused outside a call.
    NoMemory,
    /// The line with this number, counted from 1, is outside the grammar, or has a lane, or is of a call
    /// that is not served.
    BadLine { number: u32, why: Why },
    /// The script has more bytes or more lines than it may have.
    TooLong,
}

impl RunStop {
    /// The program's exit status.
    pub(crate) fn status(self) -> u8
        ensures { result ≡ status_of self }
    {
        match self {
            RunStop::Usage => 2,
            RunStop::NotVolume | RunStop::BadField { .. } => 3,
            RunStop::DiskFault { .. } => 4,
            RunStop::ScriptFault { .. } => 5,
            RunStop::OutFault => 6,
            RunStop::NoMemory => 7,
            RunStop::BadLine { .. } => 8,
            RunStop::TooLong => 9,
            RunStop::Damaged { .. } => 10,
        }
    }

    /// A volume was not made or not opened.
    pub(crate) fn of_open(fault: OpenFault) -> RunStop
        ensures { result ≡ of_open fault }
    {
        match fault {
            OpenFault::NotVolume => RunStop::NotVolume,
            OpenFault::BadField { place } => RunStop::BadField { place },
            OpenFault::Fault(fault) => RunStop::of_fault(fault),
        }
    }

    /// The disk, what it holds, or memory failed a call.
    pub(crate) fn of_fault(fault: Fault) -> RunStop
        ensures { result ≡ of_fault fault }
    {
        match fault {
            Fault::Media { before, after } => RunStop::DiskFault { before, after },
            Fault::Damaged { at, kind } => RunStop::Damaged { at: at.raw(), kind },
            Fault::NoMemory => RunStop::NoMemory,
        }
    }
}

impl From<AllocError> for RunStop {
    ghost use Rattle.std.specs.Prelude.{◌≡◌};
    ghost use Rattle.hm_shell.specs.declared.stop.RunStop.TheVariants.{NoMemory};

    ghost from_gives = { λ _ stop. stop ≡ NoMemory };

    fn from(_: AllocError) -> RunStop {
        RunStop::NoMemory
    }
}

impl<T: Drop> From<AllocFailed<T>> for RunStop {
    ghost use Rattle.std.specs.Prelude.{◌≡◌};
    ghost use Rattle.hm_shell.specs.declared.stop.RunStop.TheVariants.{NoMemory};

    ghost from_gives = { λ _ stop. stop ≡ NoMemory };

    fn from(_: AllocFailed<T>) -> RunStop {
        RunStop::NoMemory
    }
}

impl From<NoMemory> for RunStop {
    ghost use Rattle.std.specs.Prelude.{◌≡◌};
    ghost use Rattle.hm_shell.specs.declared.stop.RunStop.TheVariants.{NoMemory};

    ghost from_gives = { λ _ stop. stop ≡ NoMemory };

    fn from(_: hm_types::NoMemory) -> RunStop {
        RunStop::NoMemory
    }
}
