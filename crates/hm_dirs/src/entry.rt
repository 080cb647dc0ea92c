// Entries as they are read.
ghost use Rattle.std.specs.Prelude.{◌≡◌, IfErr, IfOk, IfSome};
ghost use Rattle.hm_types.specs.Faults.{HasFaultCause};
ghost use Rattle.hm_key.specs.Balance.{IsHeld, payload_of};
ghost use Rattle.hm_key.specs.Members.{IsSame, KeepsFrame};
ghost use Rattle.hm_cursor.specs.Names.{IsNoEntry};
ghost use Rattle.hm_dirs.specs.Entries.{IsNamed};

use hm_cursor::read_payload;
use hm_key::{Element, Extents, HasElements, HasRoom};
use hm_records::decode_entry;
use hm_types::{Counted, Fault, Name};
use std::alloc::Global;

/// The size of the longest payload of an entry, in bytes.
const MOST_ENTRY_BYTES: usize = 263;

// The name of an entry. `Damaged` at its payload, of kind 6, where that spells no entry, and
// `NoMemory` where an allocation was refused.
pub(crate) fn read_name<T: Extents>(
    alloc: Global,
    store: &mut T,
    entry: &Element,
) -> Result<Name, Fault>
    requires held { IfSome (T.extents store.old) (λ xs. IsHeld xs entry.now) }
    ensures ok { IfSome (T.extents store.old) (λ xs.
        IfOk result (IsNamed (payload_of xs entry.now))) }
    ensures keeps { IsSame T.HasElements store.old store.new }
    ensures borrowed { KeepsFrame T.Counted store.old store.new }
    ensures counted { HasFaultCause (T.faults store.old) (T.faults store.new) result }
    ensures damage { IfSome (T.extents store.old) (λ xs. IfErr result (IsNoEntry xs entry.now)) }
{
    let mut bytes = [0; MOST_ENTRY_BYTES];
    let len = read_payload(store, entry, &mut bytes)?;
    let found = decode_entry(alloc, entry.payload, &bytes[..len])?;
    Ok(found.name)
}
