// What an image recovers to, once more: own code over its bytes, by docs/FORMAT.md alone.
ghost use Rattle.std.specs.Prelude.{◌≤◌, IfOk};

use crate::test_disk::{read_inside, write_inside};
use byteorder::{ByteOrder, LittleEndian};
use hm_disk_forms::MemDisk;
use hm_types::Failed;

pub const SLOT: usize = 16_384;

const ENTRY: usize = 4_128;

// The log of a volume of 24 big-blocks, and how many entries it has.
const LOG: u64 = 3 * 8_388_608;

const ENTRIES: u64 = 16_256;

fn takes_part(slot: &[u8; SLOT]) -> bool {
    slot[16_383] == 0xA5 && slot[..8] == b"HMRPROF1"[..]
}

// The generation of a slot.
pub fn generation(slot: &[u8; SLOT]) -> u64 {
    LittleEndian::read_u64(&slot[16..24])
}

// The slot that counts, and its number.
fn counting(disk: &mut MemDisk) -> Result<([u8; SLOT], u64), Failed>
    ensures { IfOk result (λ answer. answer.1 ≤ 1) }
{
    let mut first = [0; SLOT];
    let mut second = [0; SLOT];
    read_inside(disk, 0, &mut first)?;
    read_inside(disk, SLOT as u64, &mut second)?;
    let is_next = generation(&second) == generation(&first).wrapping_add(1);
    if takes_part(&second) && (is_next || !takes_part(&first)) {
        Ok((second, 1))
    } else if takes_part(&first) {
        Ok((first, 0))
    } else {
        Err(Failed)
    }
}

// Puts the page of an entry back where it was, which this slot names.
fn put_back(disk: &mut MemDisk, entry: u64, slot: &[u8; SLOT]) -> Result<(), Failed> {
    let mut bytes = [0; ENTRY];
    read_inside(disk, LOG + ENTRY as u64 * (entry % ENTRIES), &mut bytes)?;
    if bytes[..8] != b"HMRUNDO1"[..]
        || bytes[16..24] != slot[16..24]
        || bytes[24..32] != [0; 8][..]
    {
        return Err(Failed);
    }
    let place = LittleEndian::read_u64(&bytes[8..16]) % (1 << 52);
    write_inside(disk, place, &bytes[32..])
}

// The slot of the next header, which names no entries.
fn next_slot(slot: &[u8; SLOT]) -> [u8; SLOT] {
    let mut next = *slot;
    LittleEndian::write_u64(&mut next[16..24], generation(slot).wrapping_add(1));
    LittleEndian::write_u32(&mut next[44..48], 0);
    next
}

// Makes of an image what it recovers to, and gives the slot that counts there.
pub fn recovered(disk: &mut MemDisk) -> Result<[u8; SLOT], Failed> {
    let (slot, number) = counting(disk)?;
    let first = LittleEndian::read_u32(&slot[40..44]);
    let count = LittleEndian::read_u32(&slot[44..48]);
    if count == 0 {
        return Ok(slot);
    }
    for i in 0..count {
        put_back(disk, u64::from(first) + u64::from(count - 1 - i), &slot)?;
    }
    let next = next_slot(&slot);
    write_inside(disk, SLOT as u64 * (1 - number), &next)?;
    Ok(next)
}
