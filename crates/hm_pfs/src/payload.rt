// The payload of a record.
ghost use Rattle.std.specs.Prelude.{◌≡◌, ◌≤◌, IfOk, length};
ghost use Rattle.hm_records.specs.PfsRecord.{pfs_bytes};
ghost use Rattle.hm_cursor.specs.Write.{most_payload};

use hm_records::{PfsRecord, encode_pfs};
use hm_types::{MOST_INTERVALS, NoMemory};
use std::alloc::Global;

/// The payload of a record, which is no longer than a payload may be: a retention has at most 4,096
/// intervals. `NoMemory` where an allocation was refused.
pub(crate) fn encode_record(alloc: Global, value: &PfsRecord) -> Result<Vec<u8>, NoMemory>
    ensures bytes { IfOk result (λ bytes. bytes.items ≡ pfs_bytes value.now) }
    ensures few { IfOk result (λ bytes. length bytes.items ≤ most_payload) }
{
    let few = value.retention.pairs().len() <= MOST_INTERVALS;
    prove!(few);
    encode_pfs(alloc, value)
}
