// An entry of layer 2.
ghost use Rattle.std.specs.Prelude.{◌≡◌, ◌≤◌, ◌+◌, ◌-◌, ◌%◌, ◌^◌, ◌↔◌, ℕ, pos, min, IsTrue, IsSome, IfSome, length};
ghost use Rattle.hm_types.specs.References.{unit_of};
ghost use Rattle.hm_types.specs.declared.limits.TheConstants.{PAGE_BYTES, MOST_BIGBLOCKS};
ghost use Rattle.hm_fields.specs.Fields.{Apart, get};
ghost use Rattle.hm_freemap.specs.Admit.{entry_begun};
ghost use Rattle.hm_freemap.specs.Change.{HasRoomFor, MayHold, appended, shared, given};
ghost use Rattle.hm_freemap.specs.Fresh.{unused_entry};
ghost use Rattle.hm_freemap.specs.Entry.{
  entry_in,
  HoldsEntry,
  IsEntry,
  IsEntryOf,
  IsOwned,
  IsPoolEntry,
  IsReserved,
  IsUnused,
};

use hm_fields::{Page, get_u32, put_u32};
use hm_types::{
    BIGBLOCK_BYTES, FREEMAP_ZONE, PAGE_BYTES, SMALL_ZONE, TREE_ZONE, UNAVAILABLE_ZONE, UNDO_ZONE,
    VOLUME_ZONE, first_pool, first_undo,
};

/// The `zone` of a big-block of the pool that was never begun.
pub const UNUSED: u8 = 0;

/// What layer 2 says of a big-block.
#[derive(Clone, Copy, Debug, PartialEq, Eq)]
pub struct Entry {
    /// The number of its zone: 8 to 11 in the pool, 0 for one that was never begun, 1 for the header
    /// slots, 3 for the UNDO log, 4 for the freemap, and 15 past the end of the volume.
    pub zone: u8,
    /// Where the next extent begins, in bytes from the start of the big-block: a multiple of 16, and
    /// in zone 8 of 4,096. 0 outside of the zones 8 to 11.
    pub append_off: u32,
    /// 8,388,608 less the bytes that are live, each as often as it is referred to.
    pub bytes_free: i32,
}

impl Entry {
    /// The entry of a big-block of the pool that was never begun.
    pub fn unused() -> Entry
        ensures { result ≡ unused_entry }
    {
        Entry {
            zone: UNUSED,
            append_off: 0,
            bytes_free: BIGBLOCK_BYTES as i32,
        }
    }

    /// The entry of a big-block that a zone begins to append to.
    pub fn begun(zone: u8) -> Entry
        ensures { result ≡ entry_begun zone }
    {
        Entry {
            zone,
            append_off: 0,
            bytes_free: BIGBLOCK_BYTES as i32,
        }
    }

    /// Reads the entry that begins at `at`, in bytes from the start of the page. None where a field
    /// is out of range, or a part that must be zero is not.
    #[tactic(auto, unfolding(crate::specs::Entry::entry_in))]
    pub fn read(page: &Page, at: usize) -> Option<Entry>
        requires { at + 16 ≤ PAGE_BYTES }
        ensures some { IsSome result ↔ HoldsEntry page.now at }
        ensures value { IfSome result (λ entry. entry ≡ entry_in page.now at) }
    {
        let zone = get_u32(page, at);
        if zone > u32::from(UNAVAILABLE_ZONE) || get_u32(page, at + 12) != 0 {
            return None;
        }
        let entry = Entry {
            zone: zone as u8,
            append_off: get_u32(page, at + 4),
            bytes_free: get_u32(page, at + 8).cast_signed(),
        };
        if entry.is_in_range() {
            Some(entry)
        } else {
            None
        }
    }

    /// Writes the entry into the 16 bytes from `at` on, and leaves all others.
    #[tactic(auto, unfolding(crate::specs::Entry::entry_in), using(hm_fields::proofs::FieldLemmas::fields))]
    pub fn write(&self, page: &mut Page, at: usize)
        requires { at + 16 ≤ PAGE_BYTES }
        ensures value { entry_in page.new at ≡ self.now }
        ensures zero { get page.new (at + 12) 4 ≡ 0 }
        ensures others { (other width : ℕ) → Apart at 16 other width →
            get page.new other width ≡ get page.old other width }
        ensures sized { length page.new ≡ PAGE_BYTES }
    {
        put_u32(page, at, u32::from(self.zone));
        put_u32(page, at + 4, self.append_off);
        put_u32(page, at + 8, self.bytes_free.cast_unsigned());
        put_u32(page, at + 12, 0);
    }

    /// Whether its fields are in range.
    pub fn is_in_range(&self) -> bool
        ensures { IsTrue result ↔ IsEntry self.now }
    {
        self.is_of_pool() || self.is_reserved()
    }

    /// Whether it may be the entry of a big-block of the pool.
    pub fn is_of_pool(&self) -> bool
        ensures { IsTrue result ↔ IsPoolEntry self.now }
    {
        self.is_owned() || self.is_unused()
    }

    /// Whether it may be the entry of a big-block, on a volume of `bigblocks`.
    pub fn is_of(&self, bigblocks: u32, block: u32) -> bool
        requires { bigblocks ≤ MOST_BIGBLOCKS }
        ensures { IsTrue result ↔ IsEntryOf bigblocks block self.now }
    {
        if block == 0 {
            return self.zone == VOLUME_ZONE && self.is_in_range();
        }
        if block < first_undo(bigblocks) {
            return self.zone == FREEMAP_ZONE && self.is_in_range();
        }
        if block < first_pool(bigblocks) {
            return self.zone == UNDO_ZONE && self.is_in_range();
        }
        if block < bigblocks {
            return self.is_of_pool();
        }
        self.zone == UNAVAILABLE_ZONE && self.is_in_range()
    }

    /// The entry after an extent of `size` bytes was appended in a zone. None where the big-block
    /// belongs to another zone, or has too few bytes left.
    pub(crate) fn extended(&self, zone: u8, size: u64) -> Option<Entry>
        requires { size ≤ 2 ^ 33 }
        ensures some { IsSome result ↔ HasRoomFor zone size self.now }
        ensures value { IfSome result (λ entry. entry ≡ appended size self.now) }
    {
        let end = u64::from(self.append_off) + size;
        if self.zone != zone || end > BIGBLOCK_BYTES {
            return None;
        }
        Some(Entry {
            zone: self.zone,
            append_off: end as u32,
            bytes_free: self.bytes_free.saturating_sub(signed(size)),
        })
    }

    /// Whether an extent of `size` bytes may be live in the big-block: no more of its bytes are free
    /// than that leaves.
    pub(crate) fn may_hold(&self, size: u64) -> bool
        requires { size ≤ 2 ^ 33 }
        ensures { IsTrue result ↔ MayHold size self.now }
    {
        i64::from(self.bytes_free) + size as i64 <= BIGBLOCK_BYTES as i64
    }

    /// The entry after `size` bytes of the big-block became live.
    pub(crate) fn shared(&self, size: u64) -> Entry
        requires { size ≤ 2 ^ 33 }
        ensures { result ≡ shared size self.now }
    {
        Entry {
            zone: self.zone,
            append_off: self.append_off,
            bytes_free: self.bytes_free.saturating_sub(signed(size)),
        }
    }

    /// The entry after `size` bytes of the big-block became free.
    pub(crate) fn given(&self, size: u64) -> Entry
        requires { size ≤ 2 ^ 33 }
        ensures { result ≡ given size self.now }
    {
        Entry {
            zone: self.zone,
            append_off: self.append_off,
            bytes_free: self.bytes_free.saturating_add(signed(size)),
        }
    }

    // Whether it may be that of a big-block of the pool that belongs to a zone.
    fn is_owned(&self) -> bool
        ensures { IsTrue result ↔ IsOwned self.now }
    {
        TREE_ZONE <= self.zone
            && self.zone <= SMALL_ZONE
            && self.append_off <= BIGBLOCK_BYTES as u32
            && is_whole(self.zone, self.append_off)
    }

    // Whether it is that of a big-block of the pool that was never begun.
    fn is_unused(&self) -> bool
        ensures { IsTrue result ↔ IsUnused self.now }
    {
        self.zone == UNUSED && self.append_off == 0 && self.bytes_free == BIGBLOCK_BYTES as i32
    }

    // Whether it may be that of a big-block that no space is handed out of.
    fn is_reserved(&self) -> bool
        ensures { IsTrue result ↔ IsReserved self.now }
    {
        matches!(
            self.zone,
            VOLUME_ZONE | UNDO_ZONE | FREEMAP_ZONE | UNAVAILABLE_ZONE
        ) && self.append_off == 0
            && self.bytes_free == 0
    }
}

// Whether an extent of a zone may begin so many bytes from the start of a big-block: nodes fill whole
// pages.
fn is_whole(zone: u8, offset: u32) -> bool
    ensures { IsTrue result ↔ (offset % unit_of zone ≡ 0) }
{
    if zone == TREE_ZONE {
        offset % PAGE_BYTES as u32 == 0
    } else {
        offset % 16 == 0
    }
}

// A number of bytes as it is taken off those that are free. No extent has as many as do not fit.
fn signed(size: u64) -> i32
    requires { size ≤ 2 ^ 33 }
    ensures { result ≡ pos (min size (2 ^ 31 - 1)) }
{
    size.min(2_147_483_647) as i32
}
