// Why a plain call stopped before its end.
ghost use Rattle.std.specs.Prelude.{◌≡◌};
ghost use Rattle.hm_model.specs.declared.stop.PlainStop.TheVariants.{NoMemory as no_memory};
ghost use Rattle.hm_model.specs.Stop.{stop_of};

use crate::reply::Reply;
use hm_path::PathFault;
use hm_types::NoMemory;
use std::alloc::{AllocError, AllocFailed};

/// Why a plain call stopped before its end.
#[derive(Debug, Drop)]
pub(crate) enum PlainStop {
    /// It is refused.
    Refused(Reply),
    /// An allocation was refused.
    NoMemory,
}

impl From<NoMemory> for PlainStop {
    ghost from_gives = { λ _ stop. stop ≡ no_memory };

    fn from(_: NoMemory) -> PlainStop {
        PlainStop::NoMemory
    }
}

impl From<AllocError> for PlainStop {
    ghost from_gives = { λ _ stop. stop ≡ no_memory };

    fn from(_: AllocError) -> PlainStop {
        PlainStop::NoMemory
    }
}

impl<T: Drop> From<AllocFailed<T>> for PlainStop {
    ghost from_gives = { λ _ stop. stop ≡ no_memory };

    fn from(_: AllocFailed<T>) -> PlainStop {
        PlainStop::NoMemory
    }
}

impl From<PathFault> for PlainStop {
    ghost from_gives = { λ fault stop. stop ≡ stop_of fault };

    fn from(fault: PathFault) -> PlainStop {
        match fault {
            PathFault::BadPath { place } => PlainStop::Refused(Reply::BadPath { place }),
            PathFault::NoMemory => PlainStop::NoMemory,
        }
    }
}
