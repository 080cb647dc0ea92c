// Which big-blocks of a volume serve what.
ghost use Rattle.std.specs.Prelude.{◌≡◌, ◌≤◌, ◌↔◌, IsTrue};
ghost use Rattle.hm_types.specs.declared.limits.TheConstants.{MOST_BIGBLOCKS};
ghost use Rattle.hm_types.specs.Layout.{IsLayer2, IsPool, first_pool, first_undo, layer2_blocks};

use crate::limits::UNDO_BIGBLOCKS;

// How many big-blocks of a volume one big-block of layer 2 tells of.
const BLOCKS_PER_LAYER2: u32 = 524_288;

// The big-blocks before layer 2: the one with the header slots, and layer 1.
const FIRST_LAYER2: u32 = 2;

/// How many big-blocks layer 2 of the freemap has, on a volume of `bigblocks`: one for each 524,288
/// of them, or part of that.
pub fn layer2_blocks(bigblocks: u32) -> u32
    requires { bigblocks ≤ MOST_BIGBLOCKS }
    ensures value { result ≡ layer2_blocks bigblocks }
    ensures few { result ≤ 2 }
{
    bigblocks.div_ceil(BLOCKS_PER_LAYER2)
}

/// The first of the eight UNDO big-blocks, which follow layer 2.
pub fn first_undo(bigblocks: u32) -> u32
    requires { bigblocks ≤ MOST_BIGBLOCKS }
    ensures { result ≡ first_undo bigblocks }
{
    FIRST_LAYER2 + layer2_blocks(bigblocks)
}

/// Whether a big-block is one of layer 2 of the freemap, on a volume of `bigblocks`.
pub fn is_layer2(bigblocks: u32, block: u64) -> bool
    requires { bigblocks ≤ MOST_BIGBLOCKS }
    ensures { IsTrue result ↔ IsLayer2 bigblocks block }
{
    u64::from(FIRST_LAYER2) <= block && block < u64::from(first_undo(bigblocks))
}

/// The first big-block of the pool, which reaches to the volume's end.
pub fn first_pool(bigblocks: u32) -> u32
    requires { bigblocks ≤ MOST_BIGBLOCKS }
    ensures value { result ≡ first_pool bigblocks }
    ensures small { result ≤ 12 }
{
    first_undo(bigblocks) + UNDO_BIGBLOCKS
}

/// Whether a big-block belongs to the pool of a volume of `bigblocks`.
pub fn is_pool(bigblocks: u32, block: u64) -> bool
    requires { bigblocks ≤ MOST_BIGBLOCKS }
    ensures { IsTrue result ↔ IsPool bigblocks block }
{
    u64::from(first_pool(bigblocks)) <= block && block < u64::from(bigblocks)
}
