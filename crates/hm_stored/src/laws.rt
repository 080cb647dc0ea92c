// What an owner knows of a store over any calls that keep its frame: each function states one law, and
// does nothing.
ghost use Rattle.std.specs.Prelude.{◌≡◌, ◌⊎◌, ℕ, List, IfSome};
ghost use Rattle.hm_disk.specs.Crash.{MayLeave};
ghost use Rattle.hm_stored.specs.Heap.{Frame, frame_of};
ghost use Rattle.hm_stored.specs.Space.{heap};
ghost use Rattle.hm_stored.specs.declared.stored.Stored.{Stored};

use crate::stored::Stored;
use hm_disk::Disk;
use hm_types::Counted;

/// Over code that keeps the frame of a store, whatever else is known of it, each image that a crash since
/// a moment may have left was left before, or a crash now may leave it.
pub fn what_a_crash_leaves_over_calls<D: Disk>()
    ensures { (before after : Stored D D.Disk) →
        ⟦<Stored<D> as Counted>⟧.frame after ≡ ⟦<Stored<D> as Counted>⟧.frame before →
        (moment : ℕ) (image : List ℕ) → D.left_since after.space.disk moment image →
        D.left_since before.space.disk moment image
        ⊎ IfSome (D.told after.space.disk) (λ t. MayLeave t.bytes t.unsettled image) }
{}

/// A word on what the frame of a store tells of its space, for the law that speaks of any.
pub trait FrameWord {
    ghost holds: { Frame → Type 0 };
}

/// Each word that depends on the frame of a store alone stays over code that keeps it.
pub fn what_the_frame_says_stays<D: Disk, W: FrameWord>()
    ensures { (before after : Stored D D.Disk) →
        ⟦<Stored<D> as Counted>⟧.frame after ≡ ⟦<Stored<D> as Counted>⟧.frame before →
        W.holds (frame_of (heap before.space)) → W.holds (frame_of (heap after.space)) }
{}
