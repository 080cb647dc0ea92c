// Why a recovery did not come to its end.
ghost use Rattle.std.specs.Prelude.{◌≡◌};
ghost use Rattle.hm_recover.specs.declared.stop.RecoveryStop.TheVariants.{Failed as of_disk};

use crate::fault::OpenFault;
use hm_types::Failed;

/// Why a recovery did not come to its end.
#[derive(Clone, Copy, Debug, PartialEq, Eq)]
pub(crate) enum RecoveryStop {
    /// The disk failed.
    Failed,
    /// What the disk holds is no volume, or damaged.
    Refused(OpenFault),
}

impl From<Failed> for RecoveryStop {
    ghost from_gives = { λ _ stop. stop ≡ of_disk };

    fn from(_: Failed) -> RecoveryStop {
        RecoveryStop::Failed
    }
}
