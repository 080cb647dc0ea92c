// Why a script could not be read.
ghost use Rattle.std.specs.Prelude.{◌≡◌};
ghost use Rattle.hm_script.specs.declared.fault.ScriptFault.TheVariants.{NoMemory as no_memory};

use hm_types::NoMemory;
use std::alloc::{AllocError, AllocFailed};

/// Why bytes gave no script.
#[derive(Clone, Copy, Debug, PartialEq, Eq)]
pub enum ScriptFault {
    /// The first line outside the grammar, counted from 1. All lines count.
    BadLine { number: u32 },
    /// There are more than 67,108,864 bytes or more than 65,536 lines, good or bad.
    TooLong,
    /// An allocation was refused before a bad line was told.
    NoMemory,
}

impl From<NoMemory> for ScriptFault {
    ghost from_gives = { λ _ fault. fault ≡ no_memory };

    fn from(_: NoMemory) -> ScriptFault {
        ScriptFault::NoMemory
    }
}

impl From<AllocError> for ScriptFault {
    ghost from_gives = { λ _ fault. fault ≡ no_memory };

    fn from(_: AllocError) -> ScriptFault {
        ScriptFault::NoMemory
    }
}

impl<T: Drop> From<AllocFailed<T>> for ScriptFault {
    ghost from_gives = { λ _ fault. fault ≡ no_memory };

    fn from(_: AllocFailed<T>) -> ScriptFault {
        ScriptFault::NoMemory
    }
}
