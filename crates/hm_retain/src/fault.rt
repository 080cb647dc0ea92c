// Why a retention could not be made.
ghost use Rattle.std.specs.Prelude.{◌≡◌};
ghost use Rattle.hm_retain.specs.declared.fault.RetainFault.TheVariants.{NoMemory as no_memory};

use hm_types::NoMemory;
use std::alloc::{AllocError, AllocFailed};

/// Why a cut or a join could not be made.
#[derive(Clone, Copy, Debug, PartialEq, Eq)]
pub enum RetainFault {
    /// The set has more than 4,096 maximal intervals: `count` of them, or more where `count` is the
    /// greatest `u32`.
    TooMany { count: u32 },
    /// An allocation was refused.
    NoMemory,
}

impl From<NoMemory> for RetainFault {
    ghost from_gives = { λ _ fault. fault ≡ no_memory };

    fn from(_: NoMemory) -> RetainFault {
        RetainFault::NoMemory
    }
}

impl From<AllocError> for RetainFault {
    ghost from_gives = { λ _ fault. fault ≡ no_memory };

    fn from(_: AllocError) -> RetainFault {
        RetainFault::NoMemory
    }
}

impl<T: Drop> From<AllocFailed<T>> for RetainFault {
    ghost from_gives = { λ _ fault. fault ≡ no_memory };

    fn from(_: AllocFailed<T>) -> RetainFault {
        RetainFault::NoMemory
    }
}
