// Pages of a disk that are held in memory, each in the slot of its number.
ghost use Rattle.std.specs.Prelude.{◌≡◌, ◌≤◌, ◌%◌};
ghost use Rattle.hm_buffer.specs.Held.{ArePlaced, Empties, Forgets, HasNone};

use hm_types::PAGE_BYTES;
use std::alloc::Global;

/// How many pages are held at most: 8 MiB of them.
pub(crate) const SLOTS: usize = 2_048;

/// A page of a disk: its number, in pages from the start, and its bytes.
#[derive(Drop)]
pub(crate) struct HeldPage {
    pub(crate) number: u64,
    pub(crate) bytes: [u8; PAGE_BYTES],
}

/// A place for a page.
pub(crate) type Slot = Option<Box<HeldPage>>;

/// The slot of a page.
pub(crate) fn slot_of(number: u64) -> usize
    ensures { result ≡ number % SLOTS }
{
    (number % SLOTS as u64) as usize
}

/// Slots without a page: as many as there are, or fewer where memory is refused.
pub(crate) fn empty_slots(alloc: Global) -> Vec<Slot>
    ensures { HasNone result.items }
{
    let mut slots = Vec::new(alloc);
    for _ in 0..SLOTS {
        if slots.push(None).is_err() {
            return slots;
        }
    }
    slots
}

/// Holds no page any more that shares a byte with a range of a disk.
pub(crate) fn forget(slots: &mut Vec<Slot>, place: u64, len: usize)
    requires placed { ArePlaced slots.old.items }
    requires few { len ≤ 131072 }
    ensures { Forgets place len slots.old.items slots.new.items }
{
    let first = place / PAGE_BYTES as u64;
    let pages = ((place % PAGE_BYTES as u64) as usize + len).div_ceil(PAGE_BYTES) as u64;
    for k in 0..pages {
        empty(slots, slot_of(first + k));
    }
}

// Holds nothing in a slot any more.
fn empty(slots: &mut Vec<Slot>, i: usize)
    ensures { Empties i slots.old.items slots.new.items }
{
    if let Some(slot) = slots.get_mut(i) {
        *slot = None;
    }
}
