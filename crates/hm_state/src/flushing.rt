// What a flush has to do with the volumes that a space holds: each function states one law, and does
// nothing.
ghost use Rattle.std.specs.Prelude.{◌≡◌, ℕ, ◌≤◌, [], IsSome, Option, Result, Some};
ghost use Rattle.hm_types.specs.declared.fault.Fault.{Fault};
ghost use Rattle.hm_disk.specs.Crash.{MayLeave, Told};
ghost use Rattle.hm_disk.specs.Moments.{Each, Elapses};
ghost use Rattle.hm_header.specs.declared.header.Header.{Header};
ghost use Rattle.hm_header.specs.OnDisk.{HasHeader};
ghost use Rattle.hm_pages.specs.Calls.{IsSameFlush};
ghost use Rattle.hm_pages.specs.Store.{Store};
ghost use Rattle.hm_flush.specs.declared.flush.Flush.{Flush};
ghost use Rattle.hm_flush.specs.declared.flush.Position.TheVariants.{Idle};
ghost use Rattle.hm_flush.specs.declared.stage.Stage.{Stage};
ghost use Rattle.hm_flush.specs.Ends.{StageDoes, StageTells, as_read};
ghost use Rattle.hm_flush.specs.Flush.{IsFlush, idle_flush, tried};
ghost use Rattle.hm_flush.specs.Group.{group_of};
ghost use Rattle.hm_flush.specs.Guard.{GuardsOn};
ghost use Rattle.hm_model.specs.Volume.{Volume};
ghost use Rattle.hm_image.specs.Stands.{StandsFor};
ghost use Rattle.hm_load.specs.Held.{HoldsImage};
ghost use Rattle.hm_load.specs.Loaded.{IsLoaded};
ghost use Rattle.hm_stored.specs.declared.books.Books.{Books};
ghost use Rattle.hm_stored.specs.Flushed.{ArePages, FlushesSpace};
ghost use Rattle.hm_stored.specs.Heap.{Heap, begun_content, frame_of, free_of, heap_of, room_of};
ghost use Rattle.hm_stored.specs.Mounted.{IsBooksOf};
ghost use Rattle.hm_state.specs.Flushing.{HoldsFlush, RecoversToVolume, committed_after, frozen_after};
ghost use Rattle.hm_state.specs.Volume.{HoldsVolume};
ghost use Rattle.hm_state.specs.Written.{IsHeaderOf};

use hm_disk::Disk;
use hm_flush::what_is_guarded_as_read_stays_so;

/// On a disk that is settled, or as if it were, an idle flush holds the volume for which the disk stands,
/// where its header names no range of the log. So it is as a volume is mounted.
pub fn a_mounted_volume_is_committed()
    ensures { (t : Told) (told : Option Told) (header : Header) (slot : ℕ) (s : Store)
        (books : Books) (volume : Volume) → StandsFor t.bytes volume → HasHeader t.bytes header slot →
        header.undo_count ≡ 0 → t.unsettled ≡ [] → IsLoaded header s → HoldsImage t.bytes header s →
        IsBooksOf header books → ArePages s.current →
        HoldsFlush (idle_flush header slot) (heap_of s told books) t volume volume }
{}

/// What a flush holds hangs on the frame of a space alone, where the content at the call's beginning is
/// known: each call between two stages keeps it, as reads give it and as a crash may leave it. It is
/// the same as a call is opened, kept and dropped.
pub fn calls_keep_what_a_flush_holds()
    ensures told { (f : Flush) (old new : Heap) (s t : Told) (committed frozen : Volume) →
        frame_of new ≡ frame_of old → old.disk ≡ Some s → new.disk ≡ Some t →
        IsSome (begun_content old) → HoldsFlush f old s committed frozen →
        HoldsFlush f new t committed frozen }
    ensures as_read { (f : Flush) (old new : Heap) (s t : Told) (committed frozen : Volume) →
        frame_of new ≡ frame_of old → old.disk ≡ Some s → new.disk ≡ Some t →
        IsSome (begun_content old) → HoldsFlush f old (as_read s) committed frozen →
        HoldsFlush f new (as_read t) committed frozen }
    ensures same { (f : Flush) (old new : Heap) (t : Told) (committed frozen : Volume) →
        IsSameFlush old.pages new.pages → new.bigblocks ≡ old.bigblocks →
        new.roots.committed ≡ old.roots.committed → new.roots.frozen ≡ old.roots.frozen →
        HoldsFlush f old t committed frozen → HoldsFlush f new t committed frozen }
{}

/// A stage of a flush leaves the volume that calls see. It keeps what the flush holds, as reads give it
/// and as a crash may leave it: Freeze makes the volume of calls the frozen one, and the last stage that
/// the committed one. No room and no free big-block is lost.
pub fn a_stage_keeps_what_a_flush_holds()
    ensures current { (now : Header) (f after : Flush) (old new : Heap) (result : Result Stage Fault)
        (s t : Told) (root last : ℕ) (volume committed frozen : Volume) →
        FlushesSpace now f after old new result → old.disk ≡ Some s → new.disk ≡ Some t →
        StageDoes f (group_of old.pages) result s t → IsHeaderOf old root last now →
        HoldsFlush f old (as_read s) committed frozen →
        HoldsVolume old root last volume → HoldsVolume new root last volume }
    ensures as_read { (now : Header) (f after : Flush) (old new : Heap) (result : Result Stage Fault)
        (s t : Told) (root last : ℕ) (volume committed frozen : Volume) →
        FlushesSpace now f after old new result → old.disk ≡ Some s → new.disk ≡ Some t →
        StageDoes f (group_of old.pages) result s t → IsHeaderOf old root last now →
        HoldsVolume old root last volume → HoldsFlush f old (as_read s) committed frozen →
        HoldsFlush after new (as_read t) (committed_after f.at result committed frozen)
        (frozen_after f.at result volume frozen) }
    ensures told { (now : Header) (f after : Flush) (old new : Heap) (result : Result Stage Fault)
        (s t : Told) (root last : ℕ) (volume committed frozen : Volume) →
        FlushesSpace now f after old new result → old.disk ≡ Some s → new.disk ≡ Some t →
        StageDoes f (group_of old.pages) result s t → GuardsOn f old.pages after new.pages s t →
        IsHeaderOf old root last now → HoldsVolume old root last volume →
        HoldsFlush f old s committed frozen →
        HoldsFlush after new t (committed_after f.at result committed frozen)
        (frozen_after f.at result volume frozen) }
    ensures free { (now : Header) (f after : Flush) (old new : Heap) (result : Result Stage Fault) →
        FlushesSpace now f after old new result →
        (free_of old ≤ free_of new) × ((zone : ℕ) → room_of new zone ≡ room_of old zone) }
{
    what_is_guarded_as_read_stays_so();
}

/// Each image that a crash may leave of what a flush holds recovers to one that stands for the committed
/// volume, or, where its last stage was tried, for the frozen one. So does each that a crash within
/// a stage leaves. Where no flush is in flight, the disk itself stands for the committed volume.
pub fn what_a_flush_holds_is_recovered<D: Disk>()
    ensures now { (f : Flush) (h : Heap) (t : Told) (committed frozen : Volume) → IsFlush f →
        HoldsFlush f h t committed frozen →
        Each (MayLeave t.bytes t.unsettled) (RecoversToVolume f committed frozen) }
    ensures within { (now : Header) (f after : Flush) (old new : Heap) (result : Result Stage Fault)
        (s t : Told) (was is : D) (root last : ℕ) (volume committed frozen : Volume) →
        FlushesSpace now f after old new result → old.disk ≡ Some s → new.disk ≡ Some t →
        StageTells f after old.pages new.pages result (D.left_since was) (D.left_since is) s t →
        HoldsVolume old root last volume → HoldsFlush f old s committed frozen →
        Elapses (RecoversToVolume (tried f) committed frozen) (D.left_since was) (D.left_since is) s t }
    ensures idle { (f : Flush) (h : Heap) (t : Told) (committed frozen : Volume) → IsFlush f →
        f.at ≡ Idle → HoldsFlush f h t committed frozen → StandsFor t.bytes committed }
{}
