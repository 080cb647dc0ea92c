// The disk under a volume.
ghost use Rattle.std.specs.Prelude.{◌≡◌, ◌⊎◌, ℕ, ◌≤◌, ◌+◌, List, Option};
ghost use Rattle.std.specs.Prelude.{IfSome, IfOk, OnOk, OnErr, length, slice_range};
ghost use Rattle.hm_types.specs.Faults.{HasCause};
ghost use Rattle.hm_types.specs.Told.{BothTell};
ghost use Rattle.hm_disk.specs.declared.limits.TheConstants.{MOST_CALL_BYTES};
ghost use Rattle.hm_disk.specs.Crash.{Told, MayLeave};
ghost use Rattle.hm_disk.specs.Disk.{Written, MayBeTorn, Synced, moment_of};
ghost use Rattle.hm_disk.specs.Moments.{CallElapses, SyncElapses, SameLeft};

use hm_types::Failed;

/// The disk that a volume stands on: bytes that are read and written in place, and made durable by a
/// sync.
///
/// A disk may tell what it holds; one over a file tells nothing. No call changes whether it tells, and
/// the size of a disk never changes. Where it tells, a call asks that its range lies inside the disk.
/// Its count of faults never falls, and stands still at the greatest `u64`.
pub trait Disk {
    /// What the disk holds, which of it is unsettled, and the moment: it counts the syncs that
    /// succeeded, so that no other call changes it.
    ghost told: { Self → Option Told };

    /// Which images a crash at that moment or at any later one may have left, within a call too. It
    /// says something only where the disk tells what it holds.
    ghost left_since: { Self → ℕ → List ℕ → Type 0 };

    /// What is over of the disk, as data: it fixes what a crash up to the start of the present moment
    /// may have left. So code that knows no more of a disk than that this is the same knows that too.
    ghost Past: { Type 0 };

    ghost past: { Self → Self.Past };

    /// Which images a crash at that moment or at a later one, up to the start of the present one, may
    /// have left.
    ghost left_before: { Self.Past → ℕ → List ℕ → Type 0 };

    /// How many faults there were.
    ghost faults: { Self → ℕ };

    /// The size in bytes. After `Failed`, as after any other answer, all is as before.
    fn size(&mut self) -> Result<u64, Failed>
        ensures ok { IfOk result (λ size. IfSome (told self.old) (λ t. size ≡ length t.bytes)) }
        ensures same { told self.new ≡ told self.old }
        ensures past { past self.new ≡ past self.old }
        ensures any_moment { SameLeft (left_since self.old) (left_since self.new) }
        ensures cause { HasCause (faults self.old) (faults self.new) result };

    /// Fills `buf` with the bytes from `place` on. It changes nothing on the disk; what `buf` holds
    /// after `Failed` is not known.
    fn read_at(&mut self, place: u64, buf: &mut [u8]) -> Result<(), Failed>
        requires length { length buf.old ≤ MOST_CALL_BYTES }
        requires within { IfSome (told self.old) (λ t. place + length buf.old ≤ length t.bytes) }
        ensures ok { OnOk result (IfSome (told self.old) (λ t.
            buf.new ≡ slice_range t.bytes place (place + length buf.old))) }
        ensures same { told self.new ≡ told self.old }
        ensures past { past self.new ≡ past self.old }
        ensures any_moment { SameLeft (left_since self.old) (left_since self.new) }
        ensures cause { HasCause (faults self.old) (faults self.new) result };

    /// Writes the bytes from `place` on, where they are unsettled until the next sync that succeeds.
    /// After `Failed` the range holds any bytes and is unsettled, or the write was not begun: nothing
    /// has changed, and no crash within left anything new. The moment stays.
    fn write_at(&mut self, place: u64, bytes: &[u8]) -> Result<(), Failed>
        requires length { length bytes.now ≤ MOST_CALL_BYTES }
        requires within { IfSome (told self.old) (λ t. place + length bytes.now ≤ length t.bytes) }
        ensures ok { OnOk result
            (BothTell (told self.old) (told self.new) (Written place bytes.now)) }
        ensures err { OnErr result
            (BothTell (told self.old) (told self.new) (MayBeTorn place (length bytes.now))) }
        ensures moment { moment_of (told self.new) ≡ moment_of (told self.old) }
        ensures past { past self.new ≡ past self.old }
        ensures any_moment { BothTell (told self.old) (told self.new)
            (CallElapses place (length bytes.now) (left_since self.old) (left_since self.new)) }
        ensures cause { HasCause (faults self.old) (faults self.new) result };

    /// Settles all that was written, and raises the moment. After `Failed` nothing more is settled than
    /// before, and the moment stays.
    fn sync(&mut self) -> Result<(), Failed>
        ensures ok { OnOk result (BothTell (told self.old) (told self.new) Synced) }
        ensures err { OnErr result (told self.new ≡ told self.old) }
        ensures past { OnErr result (past self.new ≡ past self.old) }
        ensures any_moment { BothTell (told self.old) (told self.new)
            (SyncElapses (left_since self.old) (left_since self.new)) }
        ensures cause { HasCause (faults self.old) (faults self.new) result };

    /// How many faults there were.
    fn faults(&self) -> u64
        ensures { result ≡ faults self.now };

    /// What a crash now may leave counts as left since each moment up to now.
    ghost counts_now: { (disk : Self) (moment : ℕ) (image : List ℕ) → IfSome (told disk) (λ t.
        moment ≤ t.moment → MayLeave t.bytes t.unsettled image → left_since disk moment image) };

    /// Since the present moment nothing else was left: within a moment writes only add to it.
    ghost only_now: { (disk : Self) (image : List ℕ) → IfSome (told disk) (λ t.
        left_since disk t.moment image → MayLeave t.bytes t.unsettled image) };

    /// What was left since a moment was left since each earlier one.
    ghost since_earlier: { (disk : Self) (earlier moment : ℕ) (image : List ℕ) →
        IfSome (told disk) (λ t.
        earlier ≤ moment → left_since disk moment image → left_since disk earlier image) };

    /// What was left since a moment was left by the start of the present one, or a crash now may leave
    /// it.
    ghost splits: { (disk : Self) (moment : ℕ) (image : List ℕ) → left_since disk moment image →
        left_before (past disk) moment image
        ⊎ IfSome (told disk) (λ t. MayLeave t.bytes t.unsettled image) };

    /// What was left by the start of the present moment was left.
    ghost joins: { (disk : Self) (moment : ℕ) (image : List ℕ) →
        left_before (past disk) moment image → left_since disk moment image };
}
