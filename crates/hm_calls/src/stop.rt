// What ends a call before its end.
ghost use Rattle.hm_calls.specs.declared.stop.Stop.TheVariants.{Failed as failed};
ghost use Rattle.hm_types.specs.declared.fault.Fault.TheVariants.{NoMemory as no_memory};
ghost use Rattle.std.specs.Prelude.{◌≡◌};

use hm_model::Reply;
use hm_types::{Fault, NoMemory};
use std::alloc::{AllocError, AllocFailed};

/// Why a step of a call does not go on to the next one.
#[derive(Debug, Drop)]
pub(crate) enum Stop {
    /// A check of the call fails, and this is its reply.
    Refused(Reply),
    /// The store failed, or an allocation was refused.
    Failed(Fault),
}

impl From<Fault> for Stop {
    ghost from_gives = { λ fault stop. stop ≡ failed fault };

    fn from(fault: Fault) -> Stop {
        Stop::Failed(fault)
    }
}

impl From<NoMemory> for Stop {
    ghost from_gives = { λ _ stop. stop ≡ failed no_memory };

    fn from(_: NoMemory) -> Stop {
        Stop::Failed(Fault::NoMemory)
    }
}

impl From<AllocError> for Stop {
    ghost from_gives = { λ _ stop. stop ≡ failed no_memory };

    fn from(_: AllocError) -> Stop {
        Stop::Failed(Fault::NoMemory)
    }
}

impl<T: Drop> From<AllocFailed<T>> for Stop {
    ghost from_gives = { λ _ stop. stop ≡ failed no_memory };

    fn from(_: AllocFailed<T>) -> Stop {
        Stop::Failed(Fault::NoMemory)
    }
}
