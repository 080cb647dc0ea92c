// What the words of the command line ask for.
ghost use Rattle.std.specs.Prelude.{◌≡◌};

use std::alloc::{AllocError, Global};

/// What the words of the command line ask for.
#[derive(Debug, Drop, PartialEq)]
pub struct Plan {
    /// The name of the volume's file.
    pub volume: String,
    /// The number of big-blocks of a new volume, where one is to be made.
    pub newfs: Option<u32>,
    /// The name of the file that a stream comes from. No word gives one so far.
    pub stream_in: Option<String>,
    /// The name of the file that a stream goes to. No word gives one so far.
    pub stream_out: Option<String>,
    /// The seed of a generated script. No word gives one so far.
    pub generate: Option<u32>,
}

impl Plan {
    /// A plan whose devices have no names, so that each of them fails or is at its end.
    pub(crate) fn without_names(alloc: Global) -> Plan {
        Plan {
            volume: String::new(alloc),
            newfs: None,
            stream_in: None,
            stream_out: None,
            generate: None,
        }
    }
}

/// Why words gave no plan.
#[derive(Clone, Copy, Debug, PartialEq, Eq)]
pub enum PlanFault {
    /// The words break the rule.
    Usage,
    /// An allocation was refused.
    NoMemory,
}

impl From<AllocError> for PlanFault {
    ghost use Rattle.hm_shell.specs.declared.plan.PlanFault.TheVariants.{NoMemory};

    ghost from_gives = { λ _ fault. fault ≡ NoMemory };

    fn from(_: AllocError) -> PlanFault {
        PlanFault::NoMemory
    }
}
