// The targets of softlinks.
ghost use Rattle.std.specs.Prelude.{◌≡◌, ℕ, List, IfOk, IfErr};
ghost use Rattle.hm_records.specs.Faults.{IsReadFault, Reads};
ghost use Rattle.hm_records.specs.Target.{IsTarget, target_bytes};

use crate::fault::bad_payload;
use hm_types::{Fault, HOff, MOST_TARGET_BYTES, NoMemory, Text};
use std::alloc::Global;

/// The payload of a softlink's target: its bytes. `decode_target` gives back a target of 1 to 1,023
/// bytes. `NoMemory` where an allocation was refused.
pub fn encode_target(alloc: Global, value: &Text) -> Result<Vec<u8>, NoMemory>
    ensures { IfOk result (λ bytes. bytes.items ≡ target_bytes value.now) }
{
    Ok(Vec::from_slice(alloc, value.bytes())?)
}

/// The target that a payload is. `Damaged` at the payload's offset `at`, of kind 6, where it is
/// empty or has more than 1,023 bytes, and `NoMemory` where an allocation was refused.
pub fn decode_target(alloc: Global, at: HOff, bytes: &[u8]) -> Result<Text, Fault>
    // What is read is spelled so.
    ensures ok { IfOk result (λ target. IsTarget target × (bytes.now ≡ target_bytes target)) }
    // What is spelled so is read.
    ensures only { (target : List ℕ) → IsTarget target → bytes.now ≡ target_bytes target →
        Reads target result }
    // All else is damage of the payload.
    ensures err { IfErr result (IsReadFault at) }
{
    if bytes.is_empty() || bytes.len() > MOST_TARGET_BYTES {
        return Err(bad_payload(at));
    }
    Ok(Text::of(Vec::from_slice(alloc, bytes)?))
}
