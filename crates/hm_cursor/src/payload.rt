// The payloads of elements.
ghost use Rattle.std.specs.Prelude.{◌≡◌, ◌≤◌, IfSome, IfErr, IfOk, length};
ghost use Rattle.hm_types.specs.Faults.{HasFaultCause};
ghost use Rattle.hm_key.specs.Balance.{IsHeld};
ghost use Rattle.hm_key.specs.Members.{IsSame, KeepsFrame};
ghost use Rattle.hm_cursor.specs.Read.{IsReadInto, IsTooLong};

use hm_key::{Element, Extents, HasElements, HasRoom};
use hm_types::{BAD_PAYLOAD, Counted, Fault};

/// Puts the payload of an element at the front of a buffer, and answers its length in bytes. Where
/// the store tells its content, the payload stands in a live extent. `Damaged` at the payload, of
/// kind 6, exactly where it is longer than the buffer. The other faults are those of the store. It
/// takes no memory of its own.
pub fn read_payload<T: Extents>(
    store: &mut T,
    element: &Element,
    buffer: &mut [u8],
) -> Result<usize, Fault>
    requires held { IfSome (T.extents store.old) (λ xs. IsHeld xs element.now) }
    ensures fits { IfOk result (λ len. len ≤ length buffer.new) }
    ensures ok { IfSome (T.extents store.old) (λ xs.
        IfOk result (IsReadInto xs element.now buffer.new)) }
    ensures keeps { IsSame T.HasElements store.old store.new }
    ensures borrowed { KeepsFrame T.Counted store.old store.new }
    ensures counted { HasFaultCause (T.faults store.old) (T.faults store.new) result }
    ensures damage { IfSome (T.extents store.old)
        (λ _. IfErr result (IsTooLong element.now (length buffer.old))) }
{
    let len = element.len as usize;
    if len > buffer.len() {
        return Err(Fault::Damaged {
            at: element.payload,
            kind: BAD_PAYLOAD,
        });
    }
    store.fetch(element.payload, &mut buffer[..len])?;
    Ok(len)
}
