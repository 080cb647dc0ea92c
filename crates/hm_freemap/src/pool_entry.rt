// The entries of big-blocks of the pool, in a page.
ghost use Rattle.std.specs.Prelude.{◌≡◌, ◌<◌, ◌^◌, ◌↔◌, IsSome, IfSome};
ghost use Rattle.hm_types.specs.declared.damage.TheConstants.{BAD_FREEMAP};
ghost use Rattle.hm_types.specs.declared.fault.Fault.TheVariants.{Damaged};
ghost use Rattle.hm_freemap.specs.Entry.{entry_in};
ghost use Rattle.hm_freemap.specs.Places.{page_of, place_of};
ghost use Rattle.hm_freemap.specs.Stand.{HoldsPoolEntry, is_clear_in};

use crate::entry::Entry;
use crate::place::{page_of, place_of};
use hm_fields::Page;
use hm_types::{BAD_FREEMAP, BIGBLOCK_BYTES, Fault};

/// The entry that a page has for a big-block of the pool. None where it is out of range or that of
/// another kind of big-block.
pub(crate) fn pool_entry(page: &Page, block: u64) -> Option<Entry>
    ensures some { IsSome result ↔ HoldsPoolEntry page.now block }
    ensures value { IfSome result (λ entry. entry ≡ entry_in page.now (place_of block)) }
{
    let entry = Entry::read(page, place_of(block))?;
    if entry.is_of_pool() {
        Some(entry)
    } else {
        None
    }
}

/// Whether all bytes of a big-block of the pool are free, by the entry that a page has for it.
pub(crate) fn is_clear(page: &Page, block: u64) -> Option<bool>
    ensures some { IsSome result ↔ HoldsPoolEntry page.now block }
    ensures value { IfSome result (λ clear. clear ≡ is_clear_in page.now block) }
{
    let entry = pool_entry(page, block)?;
    Some(entry.bytes_free == BIGBLOCK_BYTES as i32)
}

/// Damage of the entry of a big-block.
pub(crate) fn bad_entry(block: u64) -> Fault
    requires { block < 2 ^ 32 }
    ensures { result ≡ Damaged (page_of block) BAD_FREEMAP }
{
    Fault::Damaged {
        at: page_of(block),
        kind: BAD_FREEMAP,
    }
}
