// The two slots of a disk.
ghost use Rattle.std.specs.Prelude.{◌≡◌, IfNone, IfSome, IfOk, IfErr};
ghost use Rattle.hm_header.specs.Slots.{Counts, IsChosen, IsFault, TakesPart, slot_of};

use crate::body::decode;
use crate::fault::HeaderFault;
use crate::header::Header;
use crate::slot::Slot;

/// The header that counts on a disk of `size` bytes, and the number of its slot, 0 or 1. `slot0`
/// has the first 16,384 bytes of the disk and `slot1` those after them, or as many as the disk has.
///
/// A slot takes part where its gate is open and its signature exact. Of two such slots the second
/// counts exactly where its generation is the next one after the first's. NotVolume is answered
/// where no slot takes part, and BadField where a field of the slot that counts is out of range.
/// Takes no memory.
pub fn choose(slot0: &[u8], slot1: &[u8], size: u64) -> Result<(Header, u8), HeaderFault>
    ensures ok { IfOk result (λ answer. IsChosen slot0.now slot1.now size answer.0 answer.1) }
    ensures err { IfErr result (IsFault slot0.now slot1.now size) }
{
    let (slot, number) = counting(slot0, slot1).ok_or(HeaderFault::NotVolume)?;
    let header = decode(&slot, size)?;
    Ok((header, number))
}

/// The slot that counts, and its number. None where no slot takes part.
fn counting<'a>(slot0: &'a [u8], slot1: &'a [u8]) -> Option<(Slot<'a>, u8)>
    ensures some { IfSome result (λ answer. Counts slot0.now slot1.now answer.1
        × (answer.0 ≡ slot_of slot0.now slot1.now answer.1)) }
    ensures none { IfNone result (¬ TakesPart slot0.now × ¬ TakesPart slot1.now) }
{
    match (Slot::of(slot0), Slot::of(slot1)) {
        (None, None) => None,
        (Some(first), None) => Some((first, 0)),
        (None, Some(second)) => Some((second, 1)),
        (Some(first), Some(second)) => {
            if second.generation() == first.generation().wrapping_add(1) {
                Some((second, 1))
            } else {
                Some((first, 0))
            }
        }
    }
}
