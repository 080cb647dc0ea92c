// What a core that answers by a store over a space rests on: each function states one law, and does nothing.
ghost use Rattle.std.specs.Prelude.{◌≡◌, ◌⊎◌, ℕ, ◌+◌, ◌^◌, ◌<◌, ◌≤◌, [], ◌∷◌, ◌++◌, IfErr, IfSome, IsTrue, true};
ghost use Rattle.std.specs.Prelude.{List, Option, Result, length};
ghost use Rattle.hm_types.specs.Elements.{FullElement};
ghost use Rattle.hm_types.specs.Space.{reserve_of};
ghost use Rattle.hm_types.specs.declared.fault.Fault.{Fault};
ghost use Rattle.hm_types.specs.declared.id.Id.{Id};
ghost use Rattle.hm_types.specs.declared.limits.TheConstants.{BIGBLOCK_BYTES, GREATEST_ID};
ghost use Rattle.hm_btree.specs.Tree.{HoldsTree, told_elements};
ghost use Rattle.hm_key.specs.Balance.{Balanced};
ghost use Rattle.hm_key.specs.Charges.{Charges};
ghost use Rattle.hm_key.specs.Extents.{Extent};
ghost use Rattle.hm_key.specs.Versions.{IsBelow};
ghost use Rattle.hm_key.specs.declared.element.Element.{Element};
ghost use Rattle.hm_cursor.specs.Told.{HasReadingCause};
ghost use Rattle.hm_model.specs.After.{Event};
ghost use Rattle.hm_model.specs.Caused.{Counts};
ghost use Rattle.hm_model.specs.Due.{ReadsPaths};
ghost use Rattle.hm_model.specs.Foreign.{Foreigners};
ghost use Rattle.hm_model.specs.Legal.{IsLegal, call_after, entries_of};
ghost use Rattle.hm_model.specs.Needs.{floor};
ghost use Rattle.hm_model.specs.Sites.{Parsed, ReadsWords};
ghost use Rattle.hm_model.specs.Volume.{Volume};
ghost use Rattle.hm_model.specs.declared.command.Command.{Command};
ghost use Rattle.hm_model.specs.declared.command.Command.TheVariants.{Df};
ghost use Rattle.hm_model.specs.declared.entry.Entry.{Entry};
ghost use Rattle.hm_model.specs.declared.reply.Reply.TheVariants.{Synced};
ghost use Rattle.hm_image.specs.StandFor.{StandFor};
ghost use Rattle.hm_calls.specs.Answered.{IsAnswerable, IsFormOf};
ghost use Rattle.hm_calls.specs.Due.{due_over};
ghost use Rattle.hm_calls.specs.declared.answered.Answered.{Answered};
ghost use Rattle.hm_step.specs.Next.{UsedBelow};
ghost use Rattle.hm_step.specs.Seen.{AreGiven};
ghost use Rattle.hm_stored.specs.Content.{DropsContent, KeepsContent, OpensContent};
ghost use Rattle.hm_stored.specs.Heap.{Heap, begun_content, extents_in, free_of, pages_of, room_of};
ghost use Rattle.hm_stored.specs.Known.{AreKnown, is_known};
ghost use Rattle.hm_stored.specs.Standing.{Holds};
ghost use Rattle.hm_stored.specs.Told.{elements_told};
ghost use Rattle.hm_stored.specs.Turn.{IsClosed};
ghost use Rattle.hm_stored.specs.declared.stored.Stored.{Stored};
ghost use Rattle.hm_core.specs.Answer.{led_work, running_after};
ghost use Rattle.hm_core.specs.Calls.{Fails, IsNextCall, Serves};
ghost use Rattle.hm_core.specs.Core.{Follows, IsSoundCore};
ghost use Rattle.hm_core.specs.Counts.{AreLater};
ghost use Rattle.hm_core.specs.Handed.{BeginsAs};
ghost use Rattle.hm_core.specs.History.{IsLegalBeyond, IsLegalOver, setting_of, up_to, volume_of};
ghost use Rattle.hm_core.specs.Inside.{AreDrawnBy, AreUpTo};
ghost use Rattle.hm_core.specs.Ledger.{IsPaid};
ghost use Rattle.hm_core.specs.Numbers.{numbers_told};
ghost use Rattle.hm_core.specs.Replied.{IsReplied, free_now};
ghost use Rattle.hm_core.specs.Seen.{seen, store_in};
ghost use Rattle.hm_core.specs.Served.{IsServed, IsSync};
ghost use Rattle.hm_core.specs.State.{CoreState, OpenJob};
ghost use Rattle.hm_core.specs.Told.{ArePages, HoldsSame, HoldsTold, OpensStore, TellsFailure, TellsHeld};
ghost use Rattle.hm_core.specs.Told.{TellsSpace, reply_to};
ghost use Rattle.hm_core.specs.declared.volume.Core.{Core};
ghost use Rattle.hm_state.specs.Volume.{HoldsVolume};

use crate::volume::Core;
use hm_disk::Disk;
use hm_key::{ElementStore, Extents, HasElements, HasRoom};
use hm_stored::Stored;

/// A core follows itself, and what a core that it follows followed.
pub fn a_core_follows_what_it_followed_before<D: Disk>()
    ensures itself { (disk : D) (core : CoreState) → IsSoundCore core →
        Follows (D.left_since disk) (D.left_since disk) core core }
    ensures further { (one two three : D) (a b c : CoreState) →
        Follows (D.left_since one) (D.left_since two) a b →
        Follows (D.left_since two) (D.left_since three) b c →
        Follows (D.left_since one) (D.left_since three) a c }
{}

/// A core begins with the empty history, over each volume that its space holds, whatever foreign
/// masters there are.
pub fn a_core_begins_with_no_history()
    ensures { (free : ℕ) (start faults : Counts) (h : Heap) (root last : ℕ) (opening : Volume)
        (foreigners : Foreigners) → AreLater start faults → HoldsVolume h root last opening →
        IsLegalOver free start faults [] h root last [] opening foreigners [] }
{}

/// A call that was served: where a history is legal over an opening volume by some events, and the space
/// holds the volume after them, a call that a store over the space served goes on with it legally, by
/// these events and more, and the space that came of it holds the volume after that call. A prune that the
/// call opened is open then. The store knows nothing of the volume.
pub fn a_served_call_goes_on<T: ElementStore + Extents>()
    ensures { (free : ℕ) (start faults faults' : Counts) (history : List Entry) (h h' : Heap)
        (root root' last : ℕ) (running : List OpenJob) (opening : Volume) (foreigners : Foreigners) (events : List Event)
        (entry : Entry) (numbers : ℕ) (answered : Answered) (old new : T) →
        IsLegalOver free start faults history h root last running opening foreigners events →
        UsedBelow numbers (volume_of opening foreigners events) →
        AreLater faults faults' → IsNextCall last entry →
        Serves T.elements T.extents T.free (floor free history) numbers last entry answered old new h h' root root' →
        IsFormOf entry.call answered →
        IsLegalBeyond free start faults' (history ++ entry ∷ []) h' root' (last + 1)
        (running_after entry (led_work answered) running) opening foreigners events }
{}

/// A call that failed: the same, where the device failed or memory was refused, and the space that
/// came of it holds what the one before held.
pub fn a_failed_call_goes_on()
    ensures { (free : ℕ) (start faults faults' : Counts) (history : List Entry) (h h' : Heap)
        (root root' last : ℕ) (running : List OpenJob) (opening : Volume) (foreigners : Foreigners) (events : List Event)
        (entry : Entry) →
        IsLegalOver free start faults history h root last running opening foreigners events →
        AreLater faults faults' → IsNextCall last entry → Fails faults.disk faults'.disk entry h h' root root' →
        IsLegalBeyond free start faults' (history ++ entry ∷ []) h' root' (last + 1) running opening foreigners events }
{}

/// A call `df` that tells the pool of the space, and a number of free big-blocks that is not below the
/// least: the same, and the space stays.
pub fn a_call_that_tells_space_goes_on()
    ensures { (free : ℕ) (start faults faults' : Counts) (history : List Entry) (h : Heap)
        (root last : ℕ) (running : List OpenJob) (opening : Volume) (foreigners : Foreigners) (events : List Event)
        (entry : Entry) →
        IsLegalOver free start faults history h root last running opening foreigners events →
        AreLater faults faults' → last < GREATEST_ID → entry.call ≡ Df → entry.id.0 ≡ last + 1 →
        TellsSpace free history h entry.reply →
        IsLegalBeyond free start faults' (history ++ entry ∷ []) h root (last + 1) running opening foreigners events }
{}

/// A sync: the same, where the boundary that it tells was drawn, and each one that the history told is at
/// most this one.
pub fn a_sync_goes_on()
    ensures { (free : ℕ) (start faults faults' : Counts) (history : List Entry) (h : Heap)
        (root last : ℕ) (running : List OpenJob) (opening : Volume) (foreigners : Foreigners) (events : List Event)
        (entry : Entry) (boundary : Id) →
        IsLegalOver free start faults history h root last running opening foreigners events →
        AreLater faults faults' → last < GREATEST_ID → IsSync entry.call → entry.id.0 ≡ last + 1 →
        entry.reply ≡ Synced boundary → boundary.0 ≤ last → AreUpTo boundary.0 history →
        IsLegalBeyond free start faults' (history ++ entry ∷ []) h root (last + 1) running opening foreigners events }
{}

/// Any call that is asked and was refused, since a stage of a flush that was made for it failed: the
/// same, where the device failed or memory was refused, and the space that came of it holds what the one
/// before held.
pub fn a_refused_call_goes_on()
    ensures { (free : ℕ) (start faults faults' : Counts) (history : List Entry) (h h' : Heap)
        (root root' last : ℕ) (running : List OpenJob) (opening : Volume) (foreigners : Foreigners) (events : List Event)
        (entry : Entry) →
        IsLegalOver free start faults history h root last running opening foreigners events →
        AreLater faults faults' → last < GREATEST_ID → IsServed entry.call → entry.id.0 ≡ last + 1 →
        Fails faults.disk faults'.disk entry h h' root root' →
        IsLegalBeyond free start faults' (history ++ entry ∷ []) h' root' (last + 1) running opening foreigners events }
{}

/// Once a call was entered, the events of the history up to any earlier id are those of before; and before
/// it those up to the last id were all.
pub fn events_of_before_stay()
    ensures stay { (last id : ℕ) (history : List Entry) (events more : List Event) (entry : Entry) →
        entries_of events ≡ history → entries_of (events ++ more) ≡ history ++ entry ∷ [] →
        entry.id.0 ≡ last + 1 → id ≤ last → up_to id (events ++ more) ≡ up_to id events }
    ensures all { (last : ℕ) (history : List Entry) (events : List Event) →
        entries_of events ≡ history → AreDrawnBy last history → up_to last events ≡ events }
{}

/// A fault of a call over a store that tells what a space holds is one of the device or of memory,
/// where the space holds a volume: no payload is broken.
pub fn a_fault_tells_no_damage<V>()
    ensures { (old new : ℕ) (es : Option (List Element)) (xs : Option (List Extent))
        (h : Heap) (root last : ℕ) (volume : Volume) (result : Result V Fault) →
        HoldsVolume h root last volume → TellsHeld es xs h root →
        HasReadingCause es xs old new result →
        IfErr result (λ fault. TellsFailure old new (reply_to fault)) }
{}

/// Where a space holds a volume, the space of a call that was opened over it tells what it holds, as a
/// store over it does: its tree from that root on, and its extents.
pub fn an_opened_space_tells_what_was_held()
    ensures { (h h' : Heap) (root last : ℕ) (volume : Volume) →
        HoldsVolume h root last volume → OpensContent root last h h' →
        TellsHeld (told_elements true (pages_of h') root) (extents_in h') h root }
{}

/// The same of a store that was opened over the space: it tells what the space holds.
pub fn an_opened_store_tells_what_was_held()
    ensures { (h h' : Heap) (root root' last : ℕ) (volume : Volume) →
        HoldsVolume h root last volume → OpensStore last h root h' root' →
        TellsHeld (elements_told h' root') (extents_in h') h root }
{}

/// Once the call of that store was dropped, the space holds what it held before, whatever the call did.
pub fn a_dropped_store_holds_what_was_held()
    ensures { (h h' old new : Heap) (root root' back last : ℕ) (volume : Volume) →
        HoldsVolume h root last volume → OpensStore last h root h' root' →
        begun_content old ≡ begun_content h' → IfSome (begun_content old) (Holds new back) →
        HoldsSame h root new back }
{}

/// Once the call was kept, the space holds what its tree and its extents told, and the ids fit, since
/// its pages are bytes.
pub fn a_kept_space_holds_what_was_told()
    ensures { (old new : Heap) (root : ℕ) → ArePages new → KeepsContent old new →
        HoldsTree (pages_of old) root →
        HoldsTold (told_elements true (pages_of old) root) (extents_in old) new root }
{}

/// Once the call was dropped, the space holds what it held before, whatever the call did.
pub fn a_dropped_space_holds_what_was_held()
    ensures { (h h' old new : Heap) (root last : ℕ) (volume : Volume) →
        HoldsVolume h root last volume → OpensContent root last h h' →
        begun_content old ≡ begun_content h' → old.roots.current ≡ root → DropsContent old new →
        HoldsSame h root new root }
{}

/// A history that is legal while so many faults were counted is legal once more were.
pub fn later_counts_leave_a_history_legal()
    ensures { (free : ℕ) (start faults faults' : Counts) (opening : Volume) (foreigners : Foreigners)
        (events : List Event) → AreLater faults faults' →
        IsLegal (setting_of free start faults opening foreigners) events →
        IsLegal (setting_of free start faults' opening foreigners) events }
{}

/// The path words of each command are read, as paths or as bad ones.
pub fn every_command_is_read()
    ensures { (command : Command) → (paths : List Parsed) × ReadsWords command paths }
{}

/// The ids of all elements that a space holds fit 8 bytes, where its pages are bytes.
pub fn ids_of_held_elements_fit()
    ensures { (h : Heap) (root : ℕ) (es : List FullElement) → ArePages h → Holds h root es →
        IsBelow (2 ^ 64) es }
{}

/// The ids of elements that stand for a volume are known, as a space asks it of what it tells: each
/// pseudo file system is a slave, or all ids of its elements were drawn.
pub fn ids_of_a_volume_are_known()
    ensures each { (es : List FullElement) (volume : Volume) → StandFor es volume →
        AreKnown volume.last es }
    ensures tested { (es : List FullElement) (volume : Volume) → StandFor es volume →
        IsTrue (is_known volume.last es) }
{}

/// As many big-blocks are free by the freemap of a space as the trees of its three states leave, where it
/// holds elements and no call is open.
pub fn as_many_are_free_as_the_trees_leave()
    ensures { (h : Heap) (root : ℕ) (es : List FullElement) → IsClosed h → Holds h root es →
        free_of h ≡ free_now h root }
{}

/// What a reply tells of space is exact in its history too: over each volume on which this may have begun,
/// it is the one that the next call is due over the room and the free big-blocks of the space, in the
/// trees that the space has, or it tells a failure.
pub fn a_reply_is_due_in_its_history()
    ensures { (free : ℕ) (start counts : Counts) (history : List Entry) (h : Heap) (root last : ℕ)
        (running : List OpenJob) (opening : Volume) (foreigners : Foreigners) (events : List Event) (event : Event)
        (numbers faults faults' : ℕ) →
        IsLegalOver free start counts history h root last running opening foreigners events →
        IsAnswerable event.entry.call →
        ((es : List FullElement) → Holds h root es →
        AreGiven es (volume_of opening foreigners events) event.substitutes) →
        UsedBelow numbers (volume_of opening foreigners events) →
        ReadsPaths (call_after (setting_of free start counts opening foreigners) events event) →
        IsReplied numbers faults faults' last event.entry.call h root event.entry.reply →
        (event.entry.reply ≡ due_over (call_after (setting_of free start counts opening foreigners) events event)
        (room_of h) (free_now h root)) ⊎ TellsFailure faults faults' event.entry.reply }
{}

/// The ledger of a run is in order as it begins, and what it leaves is no less than the least of the
/// history, where a zone has the room of one big-block at most.
pub fn the_ledger_keeps_the_least()
    ensures begins { (free : ℕ) (room : ℕ → ℕ) → IsPaid free free 0 room }
    ensures leaves { (first spare : ℕ) (history : List Entry) (room : ℕ → ℕ) →
        ((zone : ℕ) → room zone ≤ BIGBLOCK_BYTES) →
        IsPaid first spare (length history) room → floor first history ≤ spare }
{}

/// The ledger is in order still after a call that took no more of a zone than its reserve.
pub fn a_call_is_paid_for<T: Extents>()
    ensures { (first calls : ℕ) (most : ℕ → ℕ) (old new : T) →
        ((zone : ℕ) → most zone ≤ reserve_of zone) → Charges T.room T.free most old new →
        IsPaid first (T.free old) calls (T.room old) →
        IsPaid first (T.free new) (calls + 1) (T.room new) }
{}

/// The numbers of pseudo file systems that a history tells are used in the volume after it.
pub fn told_numbers_are_used()
    ensures { (free : ℕ) (start counts : Counts) (opening : Volume) (foreigners : Foreigners)
        (events : List Event) → IsLegal (setting_of free start counts opening foreigners) events →
        UsedBelow (numbers_told (entries_of events)) (volume_of opening foreigners events) }
{}

/// As a call opens over the store of a core, what that tells is balanced: the payload of each element stands
/// in a live extent of its length, which has as many references as elements refer to it. So a job that asks
/// no more of a store than this fits that of each core.
pub fn the_store_of_a_core_opens_balanced<D: Disk, I, O>()
    ensures { (core : Core D I O D.Disk) (s : Stored D D.Disk) → BeginsAs (seen core).last (store_in core) s →
        Balanced (⟦<Stored<D> as HasElements>⟧.elements s) (⟦<Stored<D> as HasRoom>⟧.extents s) }
{}
