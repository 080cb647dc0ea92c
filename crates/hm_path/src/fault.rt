// Why a text gave no path.
ghost use Rattle.std.specs.Prelude.{◌≡◌};
ghost use Rattle.hm_path.specs.declared.fault.PathFault.TheVariants.{NoMemory as no_memory};

use hm_types::NoMemory;
use std::alloc::{AllocError, AllocFailed};

/// Why a text gave no path.
#[derive(Clone, Copy, Debug, PartialEq, Eq)]
pub enum PathFault {
    /// The text is no path. `place` is an offset in bytes: 1023 for a text that is longer than that,
    /// and else 0 for one that does not begin with a slash, and else where the first bad component
    /// begins, or the 65th if that stands first.
    BadPath { place: u32 },
    /// An allocation was refused.
    NoMemory,
}

impl From<NoMemory> for PathFault {
    ghost from_gives = { λ _ fault. fault ≡ no_memory };

    fn from(_: NoMemory) -> PathFault {
        PathFault::NoMemory
    }
}

impl From<AllocError> for PathFault {
    ghost from_gives = { λ _ fault. fault ≡ no_memory };

    fn from(_: AllocError) -> PathFault {
        PathFault::NoMemory
    }
}

impl<T: Drop> From<AllocFailed<T>> for PathFault {
    ghost from_gives = { λ _ fault. fault ≡ no_memory };

    fn from(_: AllocFailed<T>) -> PathFault {
        PathFault::NoMemory
    }
}
