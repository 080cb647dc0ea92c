// What follows from the definitions alone: each function states one law, and does nothing.
ghost use Rattle.std.specs.Prelude.{◌≡◌, ◌⊎◌, ◌↔◌, ◌≤◌, ◌+◌, ◌∷◌, [], ℕ, List, IfSome, IsTrue, length};
ghost use Rattle.hm_disk.specs.Crash.{Told, Outside, MayLeave, is_outside};
ghost use Rattle.hm_disk.specs.Disk.{Written, MayBeTorn};
ghost use Rattle.hm_disk.specs.Moments.{WriteElapses, SyncElapses, SameLeft, Each};

use crate::disk::Disk;

/// A property of images, for the laws that speak of any.
pub trait Property {
    ghost has: { List ℕ → Type 0 };
}

/// The test whether a byte lies outside all of some ranges is exact.
pub fn a_byte_is_outside_where_the_test_says_so()
    ensures { (ranges : List (ℕ × ℕ)) (byte : ℕ) → IsTrue (is_outside ranges byte) ↔ Outside ranges byte }
{}

/// A crash may leave the disk as it reads.
pub fn the_disk_as_it_reads_may_be_left()
    ensures { (bytes : List ℕ) (unsettled : List (ℕ × ℕ)) → MayLeave bytes unsettled bytes }
{}

/// A crash of a disk that has no unsettled range leaves it as it reads, and nothing else.
pub fn a_settled_disk_alone_is_left()
    ensures { (bytes image : List ℕ) → MayLeave bytes [] image → image ≡ bytes }
{}

/// What may have been left since the present moment is what a crash now may leave.
pub fn left_since_now_is_what_a_crash_now_may_leave<D: Disk>()
    ensures { (disk : D) (image : List ℕ) → IfSome (D.told disk) (λ t.
        D.left_since disk t.moment image ↔ MayLeave t.bytes t.unsettled image) }
{}

/// Over calls that keep what is over of a disk, whatever else is known of them, what may have been left
/// since a moment was so before, or is what a crash now may leave.
pub fn what_is_left_was_so_before_or_may_be_left_now<D: Disk>()
    ensures { (before after : D) → D.past after ≡ D.past before → (moment : ℕ) (image : List ℕ) →
        D.left_since after moment image → D.left_since before moment image
        ⊎ IfSome (D.told after) (λ t. MayLeave t.bytes t.unsettled image) }
{}

/// A write only adds to what a crash may leave: what one just before it might have left, one after it
/// still may.
pub fn a_write_only_adds()
    ensures ok { (old new : Told) (place : ℕ) (bytes : List ℕ) → place + length bytes ≤ length old.bytes →
        Written place bytes old new →
        Each (MayLeave old.bytes old.unsettled) (MayLeave new.bytes new.unsettled) }
    ensures err { (old new : Told) (place count : ℕ) → MayBeTorn place count old new →
        Each (MayLeave old.bytes old.unsettled) (MayLeave new.bytes new.unsettled) }
{}

/// Where all that a crash now may leave has a property, so has all that may have been left since this
/// moment. So a property of every moment of some calls begins at the first of them.
pub fn a_property_holds_now<D: Disk, P: Property>()
    ensures { (disk : D) → IfSome (D.told disk) (λ t. Each (MayLeave t.bytes t.unsettled) P.has →
        Each (D.left_since disk t.moment) P.has) }
{}

/// Where all that may have been left since a moment has a property, and all that a crash within a write
/// may leave has it too, then so has all that may have been left since that moment after the write,
/// whether it succeeded or not.
pub fn a_property_holds_over_a_write<D: Disk, P: Property>()
    ensures { (before after : D) (old new : Told) (place count moment : ℕ) → moment ≤ old.moment →
        WriteElapses place count (D.left_since before) (D.left_since after) old new →
        Each (D.left_since before moment) P.has →
        Each (MayLeave old.bytes ((place, count) ∷ old.unsettled)) P.has →
        Each (D.left_since after moment) P.has }
{}

/// The same of a sync, within which a crash may leave what it might have left just before.
pub fn a_property_holds_over_a_sync<D: Disk, P: Property>()
    ensures { (before after : D) (old new : Told) (moment : ℕ) → moment ≤ old.moment →
        SyncElapses (D.left_since before) (D.left_since after) old new →
        Each (D.left_since before moment) P.has →
        Each (MayLeave old.bytes old.unsettled) P.has →
        Each (D.left_since after moment) P.has }
{}

/// The same of a read, or of asking for the size, within which a crash leaves nothing new.
pub fn a_property_holds_over_a_read<D: Disk, P: Property>()
    ensures { (before after : D) (moment : ℕ) →
        SameLeft (D.left_since before) (D.left_since after) →
        Each (D.left_since before moment) P.has → Each (D.left_since after moment) P.has }
{}
