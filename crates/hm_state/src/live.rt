// That no step of a space writes over a byte that is live, and that what a crash needs is settled: each
// function states one law, and does nothing.
ghost use Rattle.std.specs.Prelude.{◌≡◌, ℕ, IsSome, Result, Some};
ghost use Rattle.hm_types.specs.declared.fault.Fault.{Fault};
ghost use Rattle.hm_disk.specs.Crash.{Told};
ghost use Rattle.hm_flush.specs.declared.flush.Flush.{Flush};
ghost use Rattle.hm_flush.specs.declared.stage.Stage.{Stage};
ghost use Rattle.hm_flush.specs.Calls.{IsFlushReady};
ghost use Rattle.hm_flush.specs.Ends.{StageDoes};
ghost use Rattle.hm_flush.specs.Group.{group_of};
ghost use Rattle.hm_model.specs.Volume.{Volume};
ghost use Rattle.hm_pages.specs.Sound.{IsSound};
ghost use Rattle.hm_stored.specs.Heap.{Heap, begun_content, frame_of};
ghost use Rattle.hm_stored.specs.Turn.{IsOpened};
ghost use Rattle.hm_state.specs.Flushing.{HoldsFlush};
ghost use Rattle.hm_state.specs.Live.{AreLiveSettled, IsInPlace, KeepsLiveBut, NoByte};
ghost use Rattle.hm_state.specs.Volume.{HoldsVolume};

/// A call that was opened over a space writes over nothing to which the current tree, the frozen one or the
/// committed one referred before, as long as its changes leave the frame, and where the content at its
/// beginning is known.
pub fn calls_keep_what_is_live()
    ensures { (h old new : Heap) (root last : ℕ) (s t : Told) → IsOpened root last h old →
        frame_of new ≡ frame_of old → old.disk ≡ Some s → new.disk ≡ Some t →
        IsSome (begun_content old) → KeepsLiveBut NoByte h root s t }
{}

/// Where a space holds a volume, a stage of a flush over its pages writes over nothing of that kind, but
/// for the page that it places, where it is one that does so. So it is also where the stage fails.
pub fn a_stage_keeps_what_is_live()
    ensures { (f : Flush) (h : Heap) (root last : ℕ) (volume : Volume)
        (result : Result Stage Fault) (s t : Told) → IsFlushReady f h.pages →
        f.header.bigblocks ≡ h.bigblocks → HoldsVolume h root last volume →
        StageDoes f (group_of h.pages) result s t →
        KeepsLiveBut (IsInPlace f.at h.pages) h root s t }
{}

/// No unsettled range meets what the committed tree refers to, or a committed page of the freemap, but for the
/// pages of the frozen group from the first Place stage until PlaceSync has succeeded. From the success of
/// UndoSync on, none meets a payload to which the frozen tree refers. So it is where a flush holds both states
/// as a crash may leave them.
pub fn what_a_flush_holds_is_settled()
    ensures { (f : Flush) (h : Heap) (t : Told) (committed frozen : Volume) → IsSound h.pages →
        HoldsFlush f h t committed frozen → AreLiveSettled f.at h t }
{}
