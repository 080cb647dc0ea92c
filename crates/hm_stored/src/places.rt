// Where pages of the tree may stand.
ghost use Rattle.std.specs.Prelude.{◌≤◌, ◌↔◌, IsTrue};
ghost use Rattle.hm_types.specs.declared.limits.TheConstants.{MOST_BIGBLOCKS};
ghost use Rattle.hm_header.specs.Range.{IsRoot};

use hm_types::{BIGBLOCK_BYTES, HOff, PAGE_BYTES, TREE_ZONE, is_pool};

/// Whether a page of the tree, and so its root, may stand at an offset: a multiple of 4,096 in zone 8,
/// in a big-block of the pool.
#[inline]
pub(crate) fn is_tree_place(bigblocks: u32, at: HOff) -> bool
    requires { bigblocks ≤ MOST_BIGBLOCKS }
    ensures { IsTrue result ↔ IsRoot bigblocks at }
{
    let byte = at.byte();
    at.zone() == TREE_ZONE
        && byte % PAGE_BYTES as u64 == 0
        && is_pool(bigblocks, byte / BIGBLOCK_BYTES)
}
