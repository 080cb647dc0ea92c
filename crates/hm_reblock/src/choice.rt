// The big-blocks of a choice.
ghost use Rattle.std.specs.Prelude.{◌≡◌, ◌↔◌, IsTrue};
ghost use Rattle.std.specs.List.Sorted.{IsNonDecreasing};
ghost use Rattle.hm_types.specs.Layout.{block_of};
ghost use Rattle.hm_types.specs.Offset.{byte_of};
ghost use Rattle.hm_reblock.specs.Choice.{IsInChoice, without_block};

use hm_key::Element;
use hm_types::{BIGBLOCK_BYTES, HOff, META_ZONE, SMALL_ZONE};
use std::alloc::Global;
use std::marker::Model;

/// Big-blocks by their numbers, which rise. A contract sees the list of these.
#[derive(Drop)]
pub(crate) struct Choice {
    blocks: Vec<u32>,
}

impl Model for Choice {
    ghost use Rattle.std.specs.Prelude.{ℕ, List};
    ghost use Rattle.std.specs.List.Sorted.{IsNonDecreasing};

    ghost Value = { List ℕ };

    ghost view = { λ c. c.blocks.items };

    ghost invariant = { λ c. IsNonDecreasing c.blocks.items };
}

impl Choice {
    pub(crate) fn of(blocks: Vec<u32>) -> Choice
        requires { IsNonDecreasing blocks.items }
        ensures { result ≡ blocks.items }
    {
        Choice { blocks }
    }

    pub(crate) fn as_slice(&self) -> &[u32]
        ensures value { result.now ≡ self.now }
        ensures rising { IsNonDecreasing result.now }
    {
        &self.blocks
    }

    // What it was made with takes memory from here.
    pub(crate) fn allocator(&self) -> Global {
        *self.blocks.allocator()
    }

    // Takes a big-block out, or nothing where it has none of that number.
    pub(crate) fn leave(&mut self, block: u32)
        ensures { self.new ≡ without_block block self.old }
    {
        self.blocks.retain(|chosen| *chosen != block);
    }

    // Whether the payload of an element is an extent that lies in the choice.
    pub(crate) fn has(&self, element: &Element) -> bool
        ensures { IsTrue result ↔ IsInChoice self.now element.now }
    {
        element.len > 0
            && matches!(element.payload.zone(), META_ZONE..=SMALL_ZONE)
            && self
                .blocks
                .binary_search(&block_at(element.payload))
                .is_ok()
    }
}

// The big-block in which an extent lies.
fn block_at(at: HOff) -> u32
    ensures { result ≡ block_of (byte_of at) }
{
    (at.byte() / BIGBLOCK_BYTES) as u32
}
