// Reading the header that counts from a disk.
ghost use Rattle.std.specs.Prelude.{◌≡◌, ◌≤◌, ℕ, List, IfOk, IfErr, IfSome, length, min, take};
ghost use Rattle.hm_types.specs.Faults.{HasCause};
ghost use Rattle.hm_disk.specs.Moments.{SameLeft};
ghost use Rattle.hm_header.specs.OnDisk.{HasFault, HasHeader};
ghost use Rattle.hm_header.specs.Range.{IsHeader};

use crate::fault::HeaderFault;
use crate::header::{Header, SLOT_BYTES};
use crate::slots::choose;
use hm_disk::Disk;
use hm_types::Failed;

// The size of both slots, in bytes.
const SLOTS_BYTES: usize = 2 * SLOT_BYTES;

/// The header of the slot that counts, and the slot's number, 0 or 1, or why the disk has none. Asks
/// for the size of the disk, and reads both slots, or as much of them as the disk has. It changes
/// nothing on the disk, and takes no memory.
pub fn read_header<D: Disk>(disk: &mut D) -> Result<Result<(Header, u8), HeaderFault>, Failed>
    ensures header { IfOk result (λ read. IfOk read
        (λ answer. IsHeader answer.0 × (answer.1 ≤ 1))) }
    ensures chosen { IfOk result (λ read. IfOk read
        (λ answer. IfSome (D.told disk.old) (λ t. HasHeader t.bytes answer.0 answer.1))) }
    ensures none { IfOk result (λ read. IfErr read
        (λ fault. IfSome (D.told disk.old) (λ t. HasFault t.bytes fault))) }
    ensures same { D.told disk.new ≡ D.told disk.old }
    ensures any_moment { SameLeft (D.left_since disk.old) (D.left_since disk.new) }
    ensures cause { HasCause (D.faults disk.old) (D.faults disk.new) result }
{
    let mut slots = [0; SLOTS_BYTES];
    let size = read_slots(disk, &mut slots)?;
    Ok(choose_header(&slots, size))
}

/// Reads both slots, or as much of them as the disk has, and tells the size of the disk in bytes.
fn read_slots<D: Disk>(disk: &mut D, slots: &mut [u8; SLOTS_BYTES]) -> Result<u64, Failed>
    ensures size { IfOk result (λ size. IfSome (D.told disk.old) (λ t. size ≡ length t.bytes)) }
    ensures ok { IfOk result (λ size. IfSome (D.told disk.old) (λ t.
        take (min size 32768) slots.new ≡ take 32768 t.bytes)) }
    ensures same { D.told disk.new ≡ D.told disk.old }
    ensures any_moment { SameLeft (D.left_since disk.old) (D.left_since disk.new) }
    ensures cause { HasCause (D.faults disk.old) (D.faults disk.new) result }
{
    let size = disk.size()?;
    let count = size.min(SLOTS_BYTES as u64) as usize;
    disk.read_at(0, &mut slots[..count])?;
    Ok(size)
}

/// The header that counts, and the number of its slot, on a disk of `size` bytes that begins so.
fn choose_header(slots: &[u8; SLOTS_BYTES], size: u64) -> Result<(Header, u8), HeaderFault>
    ensures header { IfOk result (λ answer. IsHeader answer.0 × (answer.1 ≤ 1)) }
    ensures chosen { (bytes : List ℕ) → size ≡ length bytes →
        take (min size 32768) slots.now ≡ take 32768 bytes →
        IfOk result (λ answer. HasHeader bytes answer.0 answer.1) }
    ensures err { (bytes : List ℕ) → size ≡ length bytes →
        take (min size 32768) slots.now ≡ take 32768 bytes → IfErr result (HasFault bytes) }
{
    let count = size.min(SLOTS_BYTES as u64) as usize;
    let (first, second) = slots[..count].split_at(count.min(SLOT_BYTES));
    choose(first, second, size)
}
