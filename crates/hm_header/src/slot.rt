// One slot that takes part.
ghost use Rattle.std.specs.Prelude.{◌≡◌, ◌==◌, ◌↔◌, ◌+◌, ◌≤◌, IsTrue, IsSome, IfSome, length, slice_range, take};
ghost use Rattle.std.specs.List.{list_all};
ghost use Rattle.hm_types.specs.declared.limits.TheConstants.{PAGE_BYTES};
ghost use Rattle.hm_fields.specs.Fields.{get};
ghost use Rattle.hm_header.specs.declared.header.TheConstants.{SLOT_BYTES};
ghost use Rattle.hm_header.specs.Layout.{header_in, zeros};
ghost use Rattle.hm_header.specs.Slots.{TakesPart};

use crate::header::{GATE_OPEN, GATE_PLACE, SIGNATURE, SLOT_BYTES};
use crate::place;
use hm_fields::{Page, get_u32, get_u64};
use hm_types::PAGE_BYTES;
use std::marker::Model;

/// A slot with an open gate and the signature. A contract sees the list of its bytes.
#[derive(Drop)]
pub(crate) struct Slot<'a> {
    bytes: &'a [u8],
    // A copy of its first page, in which all its numbers stand.
    head: Page,
}

impl<'a> Model for Slot<'a> {
    ghost use Rattle.std.specs.Prelude.{◌≡◌, ◌≤◌, ℕ, List, length, take};
    ghost use Rattle.hm_types.specs.declared.limits.TheConstants.{PAGE_BYTES};
    ghost use Rattle.hm_header.specs.declared.header.TheConstants.{SLOT_BYTES};

    ghost Value = { List ℕ };

    ghost view = { λ s. s.bytes.now };

    ghost invariant = { λ s. (SLOT_BYTES ≤ length s.bytes.now)
        × (s.head ≡ take PAGE_BYTES s.bytes.now) };
}

impl<'a> Slot<'a> {
    /// The slot with these bytes. None where it does not take part.
    pub(crate) fn of(bytes: &'a [u8]) -> Option<Slot<'a>>
        ensures some { IsSome result ↔ TakesPart bytes.now }
        ensures value { IfSome result (λ slot. slot ≡ bytes.now) }
    {
        if takes_part(bytes) {
            let head = first_page(bytes);
            Some(Slot { bytes, head })
        } else {
            None
        }
    }

    pub(crate) fn generation(&self) -> u64
        ensures { result ≡ (header_in self.now).generation }
    {
        self.u64_at(place::GENERATION)
    }

    /// The number of 4 bytes at this place.
    #[tactic(auto, using(crate::proofs::NumberLemmas::get_head))]
    pub(crate) fn u32_at(&self, place: usize) -> u32
        requires { place + 4 ≤ PAGE_BYTES }
        ensures { result ≡ get self.now place 4 }
    {
        get_u32(&self.head, place)
    }

    /// The number of 8 bytes at this place.
    #[tactic(auto, using(crate::proofs::NumberLemmas::get_head))]
    pub(crate) fn u64_at(&self, place: usize) -> u64
        requires { place + 8 ≤ PAGE_BYTES }
        ensures { result ≡ get self.now place 8 }
    {
        get_u64(&self.head, place)
    }

    /// Whether zeros stand from the last field to the gate.
    pub(crate) fn rest_is_zero(&self) -> bool
        ensures { IsTrue result ↔ (slice_range self.now 72 16383 ≡ zeros 16311) }
    {
        is_zero(&self.bytes[place::REST..GATE_PLACE])
    }
}

/// Whether the gate is open and the signature exact.
fn takes_part(bytes: &[u8]) -> bool
    ensures exact { IsTrue result ↔ TakesPart bytes.now }
    ensures whole { IsTrue result → SLOT_BYTES ≤ length bytes.now }
{
    bytes.len() >= SLOT_BYTES && bytes[GATE_PLACE] == GATE_OPEN && bytes.starts_with(&SIGNATURE)
}

/// Its first page, in which all numbers of a slot stand.
fn first_page(bytes: &[u8]) -> Page
    requires { SLOT_BYTES ≤ length bytes.now }
    ensures { result ≡ take PAGE_BYTES bytes.now }
{
    let mut page = Page::zero();
    page.copy_from(&bytes[..PAGE_BYTES]);
    page
}

fn is_zero(bytes: &[u8]) -> bool
    ensures { result ≡ list_all (λ byte. byte == 0) bytes.now }
{
    bytes.iter().all(|byte| *byte == 0)
}
