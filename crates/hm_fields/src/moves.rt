// Moves of bytes within a page.
ghost use Rattle.std.specs.Prelude.{◌≤◌, ◌+◌, ◌-◌};
ghost use Rattle.hm_types.specs.declared.limits.TheConstants.{PAGE_BYTES};
ghost use Rattle.hm_fields.specs.Moves.{HasCleared, HasMoved};

use crate::page::Page;

/// Copies the bytes from `from` on, up to `to`, to where `dest` is, all counted from the start of the
/// page. The two parts may overlap: each field of the first stands in the second afterwards, and
/// what is beside the second is as it was.
pub fn move_bytes(page: &mut Page, from: usize, to: usize, dest: usize)
    requires order { from ≤ to }
    requires within { to ≤ PAGE_BYTES }
    requires room { dest + (to - from) ≤ PAGE_BYTES }
    ensures { HasMoved from to dest page.old page.new }
{
    page.bytes.copy_within(from..to, dest);
}

/// Makes each byte from `from` on, up to `to`, 0, both counted from the start of the page.
pub fn clear_bytes(page: &mut Page, from: usize, to: usize)
    requires order { from ≤ to }
    requires within { to ≤ PAGE_BYTES }
    ensures { HasCleared from to page.old page.new }
{
    page.bytes[from..to].fill(0);
}
