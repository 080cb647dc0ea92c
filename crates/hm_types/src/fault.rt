// Why a call could not do its work.
ghost use Rattle.std.specs.Prelude.{◌≡◌};
ghost use Rattle.hm_types.specs.declared.fault.Fault.TheVariants.{NoMemory as no_memory};
ghost use Rattle.hm_types.specs.declared.fault.SpaceFault.TheVariants.{Fault as of_store};

use crate::offset::HOff;
use std::alloc::{AllocError, AllocFailed};

/// A call of a source, a sink or a disk failed. The object's count of faults says so too.
#[derive(Clone, Copy, Debug, PartialEq, Eq)]
pub struct Failed;

/// An allocation was refused. The call that met it has changed nothing.
#[derive(Clone, Copy, Debug, PartialEq, Eq)]
pub struct NoMemory;

/// Why a call of a store could not do its work.
#[derive(Clone, Copy, Debug, PartialEq, Eq)]
pub enum Fault {
    /// The disk failed. Its count of faults was `before` and rose to `after`, or both are the
    /// greatest number, where the count stays.
    Media { before: u64, after: u64 },
    /// The bytes at this offset break the grammar of what stands there. `kind` is the number of the
    /// rule that they break.
    Damaged { at: HOff, kind: u8 },
    /// An allocation was refused, or what was asked has no other answer: only a store that holds what
    /// no volume holds, or tells nothing, has that.
    NoMemory,
}

/// Why a call that takes space could not do its work.
#[derive(Clone, Copy, Debug, PartialEq, Eq)]
pub enum SpaceFault {
    /// The call needs a new big-block in `needed` zones, and too few of the `free` ones are left
    /// to it.
    NoSpace { free: u32, needed: u32 },
    /// The store could not do its work.
    Fault(Fault),
}

impl From<AllocError> for NoMemory {
    ghost from_gives = { λ _ error. error ≡ record {} };

    fn from(_: AllocError) -> NoMemory {
        NoMemory
    }
}

impl<T: Drop> From<AllocFailed<T>> for NoMemory {
    ghost from_gives = { λ _ error. error ≡ record {} };

    fn from(_: AllocFailed<T>) -> NoMemory {
        NoMemory
    }
}

impl From<NoMemory> for Fault {
    ghost from_gives = { λ _ fault. fault ≡ no_memory };

    fn from(_: NoMemory) -> Fault {
        Fault::NoMemory
    }
}

impl From<AllocError> for Fault {
    ghost from_gives = { λ _ fault. fault ≡ no_memory };

    fn from(_: AllocError) -> Fault {
        Fault::NoMemory
    }
}

impl<T: Drop> From<AllocFailed<T>> for Fault {
    ghost from_gives = { λ _ fault. fault ≡ no_memory };

    fn from(_: AllocFailed<T>) -> Fault {
        Fault::NoMemory
    }
}

impl From<Fault> for SpaceFault {
    ghost from_gives = { λ fault space. space ≡ of_store fault };

    fn from(fault: Fault) -> SpaceFault {
        SpaceFault::Fault(fault)
    }
}

impl From<NoMemory> for SpaceFault {
    ghost from_gives = { λ _ space. space ≡ of_store no_memory };

    fn from(_: NoMemory) -> SpaceFault {
        SpaceFault::Fault(Fault::NoMemory)
    }
}

impl From<AllocError> for SpaceFault {
    ghost from_gives = { λ _ space. space ≡ of_store no_memory };

    fn from(_: AllocError) -> SpaceFault {
        SpaceFault::Fault(Fault::NoMemory)
    }
}

impl<T: Drop> From<AllocFailed<T>> for SpaceFault {
    ghost from_gives = { λ _ space. space ≡ of_store no_memory };

    fn from(_: AllocFailed<T>) -> SpaceFault {
        SpaceFault::Fault(Fault::NoMemory)
    }
}
