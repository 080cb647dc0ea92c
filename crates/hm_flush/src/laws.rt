// What follows from the definitions alone: each function states one law, and does nothing.
ghost use Rattle.std.specs.Prelude.{◌≡◌, ◌↔◌, ℕ, [], Result};
ghost use Rattle.hm_disk.specs.Crash.{Told, MayLeave};
ghost use Rattle.hm_disk.specs.Moments.{Each};
ghost use Rattle.hm_types.specs.declared.fault.Fault.{Fault};
ghost use Rattle.hm_header.specs.declared.header.Header.{Header};
ghost use Rattle.hm_header.specs.Change.{HaveSameSlots, IsCounting};
ghost use Rattle.hm_flush.specs.declared.flush.Flush.{Flush};
ghost use Rattle.hm_flush.specs.declared.flush.Position.{Position};
ghost use Rattle.hm_flush.specs.declared.flush.Position.TheVariants.{Idle};
ghost use Rattle.hm_flush.specs.declared.stage.Stage.{Stage};
ghost use Rattle.hm_flush.specs.Calls.{FlushStands, IsFlushReady};
ghost use Rattle.hm_flush.specs.Ends.{StageDoes, StageEnds, as_read};
ghost use Rattle.hm_flush.specs.Example.{GuardedAt, IsPositionOf};
ghost use Rattle.hm_flush.specs.Flush.{IsFlush, idle_flush, left};
ghost use Rattle.hm_flush.specs.Group.{group_of};
ghost use Rattle.hm_flush.specs.Guard.{ArePlaced, Guards, HaveSameGuarded};
ghost use Rattle.hm_flush.specs.Recoverable.{HoldsPages, Recoverable};
ghost use Rattle.hm_pages.specs.Calls.{IsSameFlush};
ghost use Rattle.hm_pages.specs.Sound.{IsSound};
ghost use Rattle.hm_pages.specs.Store.{Store};

/// No stage is left exactly where no flush is in flight.
pub fn no_stage_is_left_where_none_is_in_flight()
    ensures { (f : Flush) → (left f ≡ 0) ↔ (f.at ≡ Idle) }
{}

/// What a flush asks of the header slots hangs on these alone: another disk of the same size has it too
/// whose slots read the same and are settled in the same bytes. So it is kept over calls of which only
/// these bytes and their settledness are known.
pub fn same_slots_keep_what_a_flush_asks_for()
    ensures { (f : Flush) (old new : Told) → HaveSameSlots old new →
        FlushStands f old → FlushStands f new }
{}

/// Where the committed pages are guarded, each image that a crash may leave recovers to the committed
/// state, or, where the last stage of the flush was tried, to that or the frozen one.
pub fn what_is_guarded_is_recoverable()
    ensures { (f : Flush) (s : Store) (t : Told) → IsFlush f → Guards f s t →
        Each (MayLeave t.bytes t.unsettled) (Recoverable f s) }
{}

/// The guard hangs on the bytes before the pool and on the committed and the frozen pages alone, on what
/// they read and whether they are settled. So calls between two stages keep it, which write elsewhere and
/// leave what is committed and what is frozen.
pub fn same_guarded_bytes_keep_the_guard()
    ensures { (f : Flush) (s after : Store) (old new : Told) → IsSameFlush s after →
        HaveSameGuarded f.header.bigblocks s old new → Guards f s old → Guards f after new }
{}

/// What stands as reads give it needs no sync: where the pages are guarded as if all were settled, they
/// are so after each stage, whatever is unsettled. So the volume that a run leaves hangs on no crash.
pub fn what_is_guarded_as_read_stays_so()
    ensures { (now : Header) (f after : Flush) (s pages : Store) (result : Result Stage Fault)
        (old new : Told) → IsFlush f → IsFlushReady f s → IsSound s →
        StageEnds now f after s pages result → StageDoes f (group_of s) result old new →
        Guards f s (as_read old) → Guards after pages (as_read new) }
{}

/// On a disk that is settled an idle flush is guarded where the header counts and names no range, and each
/// committed page stands where it belongs. So the guard is had as a volume is mounted.
pub fn a_settled_disk_is_guarded()
    ensures { (header : Header) (slot : ℕ) (s : Store) (t : Told) → IsCounting header slot t.bytes →
        header.undo_count ≡ 0 → ArePlaced header.bigblocks s.committed →
        ArePlaced header.bigblocks s.frozen → HoldsPages s.committed t.bytes →
        t.unsettled ≡ [] → Guards (idle_flush header slot) s t }
{}

/// For each position that a flush of two pages may have, tried or not, there are a flush at it, a store and
/// a disk for which the guard holds, and of which the stage that is due can be made. One page of the group
/// was live as committed, one was not, and a payload is unsettled. So no position's guard is a
/// contradiction.
pub fn each_position_is_guarded_on_some_disk()
    ensures { (p : Position) → IsPositionOf 2 p → GuardedAt p }
{}
