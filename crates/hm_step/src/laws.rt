// What follows from the definitions alone: each function states one law, and does nothing.
ghost use Rattle.std.specs.Prelude.{◌≡◌, ◌≢◌, ℕ, true, ◌+◌, ◌^◌, ◌<◌, ◌≤◌, List, [], ◌∷◌, ◌++◌, None, Option, Some, length};
ghost use Rattle.std.specs.List.{All, Contains};
ghost use Rattle.hm_types.specs.Elements.{FullElement};
ghost use Rattle.hm_types.specs.Hash.{name_hash};
ghost use Rattle.hm_types.specs.declared.id.Pfs.{Pfs};
ghost use Rattle.hm_types.specs.declared.limits.TheConstants.{GREATEST_ID, MOST_INTERVALS, MOST_PFS};
ghost use Rattle.hm_types.specs.Tree.{root_tree};
ghost use Rattle.hm_cursor.specs.Told.{IsBroken, Lists, fulls};
ghost use Rattle.hm_key.specs.Element.{pfs_of};
ghost use Rattle.hm_key.specs.Balance.{LosesDead};
ghost use Rattle.hm_model.specs.After.{Event, of_pfs, present_only, retaining};
ghost use Rattle.hm_model.specs.Caused.{Counts, HasCause, HasNumbers, Known, counts_after, known_after, known_at};
ghost use Rattle.hm_model.specs.Due.{ReadsPaths};
ghost use Rattle.hm_model.specs.Laws.{adds_pfs};
ghost use Rattle.hm_model.specs.Legal.{IsAllowed, MayFollow, Setting, call_after, state_after};
ghost use Rattle.hm_model.specs.Reply.{passed_ids, told_boundary};
ghost use Rattle.hm_model.specs.Sites.{Parsed, ReadsWords};
ghost use Rattle.hm_model.specs.View.{Substitute, view_of};
ghost use Rattle.hm_model.specs.Change.{new_slave, with_system};
ghost use Rattle.hm_model.specs.Cut.{pruned};
ghost use Rattle.hm_model.specs.Volume.{PseudoFileSystem, Volume, new_master, shown_id, system_of};
ghost use Rattle.hm_model.specs.declared.command.Command.{Command};
ghost use Rattle.hm_model.specs.declared.reply.Reply.{Reply};
ghost use Rattle.hm_model.specs.declared.reply.Reply.TheVariants.{MadePfs};
ghost use Rattle.hm_records.specs.Payload.{IsPayload};
ghost use Rattle.hm_volume.specs.Shown.{ShowsAs};
ghost use Rattle.hm_calls.specs.Call.{IsCall};
ghost use Rattle.hm_calls.specs.Answered.{IsAnswerable, reply_in};
ghost use Rattle.hm_calls.specs.Known.{AreOlderOrSlaves};
ghost use Rattle.hm_calls.specs.Possible.{MayReply};
ghost use Rattle.hm_calls.specs.declared.answered.Answered.{Answered};
ghost use Rattle.hm_pfs.specs.Systems.{AddsMaster, AddsSlave, IsUnusedNumber, made_record, slave_record};
ghost use Rattle.hm_step.specs.Causes.{IsNextOf, TellsFault};
ghost use Rattle.hm_step.specs.Cut.{IsCutTo, SetsRecordBy};
ghost use Rattle.hm_step.specs.Next.{IsLedIfOpened, UsedBelow, opened_after};
ghost use Rattle.hm_step.specs.Pruned.{KeepsEnough, KeepsWithin, StandAfter, StillKeeps};
ghost use Rattle.hm_step.specs.Seen.{AreGiven};
ghost use Rattle.hm_step.specs.Served.{IsServed};
ghost use Rattle.hm_image.specs.StandFor.{StandFor};
ghost use Rattle.hm_step.specs.Step.{AreHeld, IsFailure, IsNext, drawn};

/// Elements that stand for a volume show it in its own trees, and in those of its elements where the
/// trees of a pseudo file system are not certain.
pub fn elements_show_their_volume()
    ensures { (es : List FullElement) (volume : Volume) (substitutes : List Substitute) →
        StandFor es volume → AreGiven es volume substitutes →
        ShowsAs es volume (view_of volume substitutes) }
{}

/// Elements that stand for the volume of a history show the call that comes next: what is said of each
/// call that elements show is said of it.
pub fn elements_show_the_next_call()
    ensures { (run : Setting) (before : List Event) (event : Event) (es : List FullElement) →
        StandFor es (state_after run before).volume →
        AreGiven es (state_after run before).volume event.substitutes →
        ReadsPaths (call_after run before event) →
        IsCall name_hash ((state_after run before).volume.last + 1) es (call_after run before event) }
{}

/// Elements that stand for a volume make a tree of each pseudo file system, now and as of each id
/// that it keeps: so there are trees to look in also where those of the volume are not certain.
pub fn elements_give_their_trees()
    ensures { (es : List FullElement) (volume : Volume) → StandFor es volume →
        (substitutes : List Substitute) × AreGiven es volume substitutes }
{}

/// Each pseudo file system of elements that stand for a volume is a slave by its record, or all ids
/// of its elements are below the one that is drawn next.
pub fn elements_are_older_or_slaves()
    ensures { (es : List FullElement) (volume : Volume) → StandFor es volume →
        AreOlderOrSlaves (volume.last + 1) es }
{}

/// Where each payload keeps the grammar of its type, none is broken: a call tells no damage.
pub fn sound_payloads_are_not_broken()
    ensures { (lists : Lists) (at : ℕ) → All IsPayload (fulls lists) → IsBroken lists at → ⊥ }
{}

/// Elements stand for a volume still once an id more is drawn and nothing else happens, and what a job
/// keeps is enough if it was.
pub fn drawing_an_id_leaves_what_stands()
    ensures { (es : List FullElement) (volume : Volume) → StandFor es volume →
        volume.last < GREATEST_ID → StandAfter volume es (drawn (volume.last + 1) volume) }
{}

/// Elements that stand for a volume stand for it still where dead ones went, if what the volume keeps
/// of each pseudo file system was kept in it or is above all that was.
pub fn a_prune_leaves_what_stands()
    ensures { (es es' : List FullElement) (volume : Volume) (kept : ℕ → Option (List (ℕ × ℕ))) →
        StandFor es volume → LosesDead kept es es' → KeepsWithin kept volume →
        StandFor es' volume }
{}

/// Elements that stand for a volume stand for it still, with fewer ids to show, where the record of a
/// pseudo file system was replaced by one that tells of a smaller retention: one with each id as of
/// which the pseudo file system is shown from now on. Such is what a prune leaves by ids that are
/// shown, and what is left where all but the present goes. What a job keeps is enough if it was. Where
/// a volume has no such pseudo file system, a cut changes nothing of it.
pub fn a_cut_leaves_what_stands()
    ensures cut { (es es' : List FullElement) (volume : Volume) (pfs : ℕ) (s : PseudoFileSystem)
        (kept : List (ℕ × ℕ)) → StandFor es volume →
        SetsRecordBy volume pfs s (retaining kept) es es' → IsCutTo volume.last s kept →
        StandAfter volume es' (of_pfs volume pfs (retaining kept)) }
    ensures pruned { (es es' : List FullElement) (volume : Volume) (pfs : ℕ) (s : PseudoFileSystem)
        (ids : List ℕ) → StandFor es volume →
        SetsRecordBy volume pfs s (λ s. retaining (pruned s.retention ids) s) es es' →
        All (λ id. id ≤ shown_id volume.last s) ids →
        length (pruned s.retention ids) ≤ MOST_INTERVALS →
        StandAfter volume es' (of_pfs volume pfs (λ s. retaining (pruned s.retention ids) s)) }
    ensures present { (es es' : List FullElement) (volume : Volume) (pfs : ℕ)
        (s : PseudoFileSystem) → StandFor es volume →
        SetsRecordBy volume pfs s (present_only volume.last) es es' →
        StandAfter volume es' (of_pfs volume pfs (present_only volume.last)) }
    ensures absent { (volume : Volume) (pfs : ℕ) (change : PseudoFileSystem → PseudoFileSystem) →
        system_of volume pfs ≡ None → of_pfs volume pfs change ≡ volume }
{}

/// A number that a volume does not have is unused among elements that stand for it. Where a pseudo
/// file system with that number, one that there may be, was added by an id that is drawn, they stand for the volume with it:
/// a new master shows the root directory from that id on and no object before, and a new slave has no
/// sync end and no element but its record. What a job keeps is enough if it was.
pub fn a_new_system_stands_with_the_others()
    ensures unused { (es : List FullElement) (volume : Volume) (pfs : ℕ) → StandFor es volume →
        system_of volume pfs ≡ None → IsUnusedNumber pfs es }
    ensures master { (es es' : List FullElement) (volume : Volume) (pfs shared i : ℕ) →
        StandFor es volume → system_of volume pfs ≡ None → shared < 2 ^ 64 → pfs < MOST_PFS →
        1 ≤ i → i ≤ volume.last → AddsMaster pfs shared i es es' →
        StandAfter volume es' (with_system volume (new_master pfs shared ((i, root_tree) ∷ []))) }
    ensures slave { (es es' : List FullElement) (volume : Volume) (pfs shared i : ℕ) →
        StandFor es volume → system_of volume pfs ≡ None → shared < 2 ^ 64 → pfs < MOST_PFS →
        i ≤ volume.last → AddsSlave pfs shared i es es' →
        StandAfter volume es' (with_system volume (new_slave pfs shared)) }
    ensures alone { (es es' : List FullElement) (volume : Volume) (pfs shared i : ℕ) →
        StandFor es volume → system_of volume pfs ≡ None → AddsSlave pfs shared i es es' →
        (x : FullElement) → Contains es' x → pfs_of x.key.localization ≡ pfs →
        x ≡ made_record pfs (slave_record shared) i }
{}

/// A job that keeps what a volume keeps of one pseudo file system, and tells of no other one, keeps
/// enough for the volume. So does one that keeps nothing of it.
pub fn a_prune_begins_with_enough()
    ensures kept { (volume : Volume) (pfs : ℕ) (s : PseudoFileSystem)
        (kept : ℕ → Option (List (ℕ × ℕ))) → system_of volume pfs ≡ Some s →
        kept pfs ≡ Some s.retention → ((other : ℕ) → other ≢ pfs → kept other ≡ None) →
        KeepsEnough kept volume }
    ensures nothing { (volume : Volume) (pfs : ℕ) (kept : ℕ → Option (List (ℕ × ℕ))) →
        kept pfs ≡ Some [] → ((other : ℕ) → other ≢ pfs → kept other ≡ None) →
        KeepsEnough kept volume }
{}

/// One step. Where elements stand for the volume of a history, and a call is answered as it is due, the
/// elements that it leaves stand for the volume of the history with this call, and what a job keeps is
/// enough if it was. An opening that was accepted is open, and led to what the volume keeps. The call
/// may follow: a legal history goes on legally.
pub fn a_served_call_is_a_step()
    ensures stands { (run : Setting) (before : List Event) (event : Event) (room : ℕ → ℕ) (free : ℕ)
        (es es' : List FullElement) (answered : Answered) → IsNext run before event free es →
        event.entry.reply ≡ reply_in answered →
        IsServed (call_after run before event) room free es es' answered →
        AreHeld es' → StandFor es' (state_after run (before ++ event ∷ [])).volume }
    ensures jobs { (run : Setting) (before : List Event) (event : Event) (room : ℕ → ℕ) (free : ℕ)
        (es es' : List FullElement) (answered : Answered) → IsNext run before event free es →
        event.entry.reply ≡ reply_in answered →
        IsServed (call_after run before event) room free es es' answered →
        StillKeeps (state_after run before).volume
        (state_after run (before ++ event ∷ [])).volume }
    ensures opened { (run : Setting) (before : List Event) (event : Event) (room : ℕ → ℕ) (free : ℕ)
        (es es' : List FullElement) (answered : Answered) → IsNext run before event free es →
        event.entry.reply ≡ reply_in answered →
        IsServed (call_after run before event) room free es es' answered →
        (state_after run (before ++ event ∷ [])).opened
        ≡ opened_after (state_after run before) (call_after run before event) answered }
    ensures leads { (run : Setting) (before : List Event) (event : Event) (room : ℕ → ℕ) (free : ℕ)
        (es es' : List FullElement) (answered : Answered) → IsNext run before event free es →
        event.entry.reply ≡ reply_in answered →
        IsServed (call_after run before event) room free es es' answered →
        IsLedIfOpened (state_after run (before ++ event ∷ [])).volume answered }
    ensures follows { (run : Setting) (before : List Event) (event : Event) (room : ℕ → ℕ) (free : ℕ)
        (es es' : List FullElement) (answered : Answered) → IsNext run before event free es →
        event.entry.reply ≡ reply_in answered →
        IsServed (call_after run before event) room free es es' answered →
        MayFollow run before event }
    ensures allowed { (run : Setting) (before : List Event) (event : Event) (room : ℕ → ℕ) (free : ℕ)
        (es es' : List FullElement) (answered : Answered) → IsNext run before event free es →
        event.entry.reply ≡ reply_in answered →
        IsServed (call_after run before event) room free es es' answered →
        IsAllowed run before event }
{}

/// Where a device failed in such a call, or memory was refused, and the elements are as they were,
/// they stand for the volume of the history with this call, what a job keeps is enough if it was, no
/// more calls are open, and the call may follow, if its reply tells counts of faults that were counted.
pub fn a_failed_call_is_a_step()
    ensures stands { (run : Setting) (before : List Event) (event : Event) (free : ℕ)
        (es : List FullElement) → IsNext run before event free es →
        IsFailure event.entry.reply →
        StandFor es (state_after run (before ++ event ∷ [])).volume }
    ensures jobs { (run : Setting) (before : List Event) (event : Event) (free : ℕ)
        (es : List FullElement) → IsNext run before event free es →
        IsFailure event.entry.reply →
        StillKeeps (state_after run before).volume (state_after run (before ++ event ∷ [])).volume }
    ensures opened { (run : Setting) (before : List Event) (event : Event) (free : ℕ)
        (es : List FullElement) → IsNext run before event free es →
        IsFailure event.entry.reply →
        (state_after run (before ++ event ∷ [])).opened ≡ (state_after run before).opened }
    ensures follows { (run : Setting) (before : List Event) (event : Event) (free : ℕ)
        (es : List FullElement) → IsNext run before event free es →
        IsFailure event.entry.reply →
        HasNumbers run.now (known_after (known_at run.opening.last run.start) before) event.entry →
        MayFollow run before event }
{}

/// A number of a pseudo file system that is used stays used, whatever comes next. Where a call that
/// makes one tells its number, all numbers up to that one are used.
pub fn numbers_stay_used()
    ensures stay { (run : Setting) (before : List Event) (event : Event) (numbers : ℕ) →
        UsedBelow numbers (state_after run before).volume →
        UsedBelow numbers (state_after run (before ++ event ∷ [])).volume }
    ensures made { (run : Setting) (before : List Event) (event : Event) (number : Pfs) →
        adds_pfs event.entry.call ≡ true → event.entry.reply ≡ MadePfs number →
        MayFollow run before event →
        UsedBelow (number.0 + 1) (state_after run (before ++ event ∷ [])).volume }
{}

/// A reply that a call may have, by its words alone, tells no boundary.
pub fn a_possible_reply_tells_no_boundary()
    ensures { (last : ℕ) (busy : Option ℕ) (command : Command) (paths : List Parsed) (reply : Reply) →
        IsAnswerable command → ReadsWords command paths → MayReply last busy command reply →
        told_boundary reply ≡ None }
{}

/// A reply that a call may have, by its words alone, has its cause by what is known before it, whatever
/// the elements are. It tells no faults, and no ids of a pass.
pub fn a_possible_reply_has_its_cause()
    ensures caused { (now : Counts) (known : Known) (busy : Option ℕ) (event : Event) →
        IsNextOf known event →
        MayReply known.last busy event.entry.call event.entry.reply → HasCause now known event }
    ensures told { (known : Known) (busy : Option ℕ) (event : Event) → IsNextOf known event →
        MayReply known.last busy event.entry.call event.entry.reply →
        (counts_after known event.entry ≡ known.counts) × (passed_ids event.entry.reply ≡ None) }
{}

/// So has one that tells a fault, if the counts that it tells have theirs.
pub fn a_told_fault_has_its_cause()
    ensures { (now : Counts) (known : Known) (event : Event) → IsNextOf known event →
        TellsFault event.entry.reply → HasNumbers now known event.entry →
        HasCause now known event }
{}
