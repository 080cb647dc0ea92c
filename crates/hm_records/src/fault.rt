// Damage of a payload.
ghost use Rattle.hm_records.specs.Faults.{IsBadPayload};

use hm_types::{BAD_PAYLOAD, Fault, HOff};

/// That the payload at this offset breaks its grammar.
pub(crate) fn bad_payload(at: HOff) -> Fault
    ensures { IsBadPayload at result }
{
    Fault::Damaged {
        at,
        kind: BAD_PAYLOAD,
    }
}
