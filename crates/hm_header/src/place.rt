// Where the slots and their gates stand on a disk, and the fields in a slot, in bytes.
ghost use Rattle.std.specs.Prelude.{◌≡◌, ◌≤◌};
ghost use Rattle.hm_header.specs.OnDisk.{gate_place, slot_place};

use crate::header::{GATE_PLACE, SLOT_BYTES};

pub(crate) const SIGNATURE: usize = 0;

pub(crate) const VERSION: usize = 8;

pub(crate) const BIGBLOCKS: usize = 12;

pub(crate) const GENERATION: usize = 16;

pub(crate) const LAST: usize = 24;

pub(crate) const ROOT: usize = 32;

pub(crate) const UNDO_FIRST: usize = 40;

pub(crate) const UNDO_COUNT: usize = 44;

pub(crate) const UNDO_NEXT: usize = 48;

/// Four bytes of zeros.
pub(crate) const GAP: usize = 52;

pub(crate) const TREE_APPEND: usize = 56;

pub(crate) const META_APPEND: usize = 60;

pub(crate) const LARGE_APPEND: usize = 64;

pub(crate) const SMALL_APPEND: usize = 68;

/// Zeros, up to the gate.
pub(crate) const REST: usize = 72;

/// Where a slot begins on the disk, in bytes. The slots have the numbers 0 and 1.
pub fn slot_place(number: u8) -> u64
    requires { number ≤ 1 }
    ensures { result ≡ slot_place number }
{
    u64::from(number) * SLOT_BYTES as u64
}

/// Where the gate of a slot stands on the disk, in bytes.
pub fn gate_place(number: u8) -> u64
    requires { number ≤ 1 }
    ensures { result ≡ gate_place number }
{
    slot_place(number) + GATE_PLACE as u64
}
