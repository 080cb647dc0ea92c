// Laws of changes of a list: what counts as of an id before the change, and as of one from it on.
ghost use Rattle.std.specs.Prelude.{◌≡◌, ◌≢◌, ℕ, ◌+◌, ◌<◌, ◌≤◌, List, None, Some};
ghost use Rattle.std.specs.List.{Contains};
ghost use Rattle.hm_types.specs.Elements.{FullElement};
ghost use Rattle.hm_key.specs.Counts.{Counts, IsSeen, Subject, subject_of};
ghost use Rattle.hm_key.specs.Versions.{Adds, Closes, HaveOwnKeys, IsBelow, TakesOut, Replaces};
ghost use Rattle.hm_records.specs.Changes.{CountSame, Overrides};
ghost use Rattle.hm_records.specs.Follows.{VersionsFollow};
ghost use Rattle.hm_records.specs.Laws.{HasIdsUpTo};

/// As of an id below that of a change the same counts as before: below the one that made an added
/// element, and below the one at which elements were closed. As of an id that did not see it, an
/// element that is taken out is not missed, where the versions of what it is about follow one
/// another.
pub fn changes_leave_the_past()
    ensures adds { (e : FullElement) (es es' : List FullElement) (t : ℕ) → Adds e es es' →
        t < e.key.create → CountSame (Counts es t) (Counts es' t) }
    ensures closes { (s : Subject) (i : ℕ) (es es' : List FullElement) (t : ℕ) →
        Closes s i es es' → t < i → CountSame (Counts es t) (Counts es' t) }
    ensures takes_out { (e : FullElement) (es es' : List FullElement) (t : ℕ) →
        VersionsFollow (subject_of e.key) t es → TakesOut e es es' →
        (IsSeen t e → ⊥) → CountSame (Counts es t) (Counts es' t) }
{}

/// From its id on an open element that is newer than all others counts for what it is about, and
/// nothing else does.
pub fn additions_count_from_their_id()
    ensures { (e : FullElement) (es es' : List FullElement) (t : ℕ) → Adds e es es' →
        e.delete ≡ 0 → e.key.create ≤ t →
        ((x : FullElement) → Contains es x → x.key.create < e.key.create) →
        Overrides (subject_of e.key) (Some e.bytes) (Counts es t) (Counts es' t) }
{}

/// From an id above all on, nothing counts for a subject of which the open elements were closed at
/// it.
pub fn closed_versions_count_no_more()
    ensures { (s : Subject) (i : ℕ) (es es' : List FullElement) (t : ℕ) → Closes s i es es' →
        IsBelow i es → i ≤ t → Overrides s None (Counts es t) (Counts es' t) }
{}

/// From the id of a new version on it counts, and the one before it does not.
pub fn replaced_versions_count_no_more()
    ensures { (e : FullElement) (es es' : List FullElement) (t : ℕ) → Replaces e es es' →
        e.key.create ≤ t →
        Overrides (subject_of e.key) (Some e.bytes) (Counts es t) (Counts es' t) }
{}

/// As of all ids that no id of the list is above the same counts.
pub fn later_ids_count_the_same()
    ensures { (es : List FullElement) (t u : ℕ) → HasIdsUpTo t es → HasIdsUpTo u es →
        CountSame (Counts es t) (Counts es u) }
{}

/// What a change by an id leaves has no id above it.
pub fn ids_stay_below()
    ensures adds { (e : FullElement) (es es' : List FullElement) (i : ℕ) → Adds e es es' →
        IsBelow i es → e.key.create ≤ i → e.delete ≤ i → HasIdsUpTo i es' }
    ensures closes { (s : Subject) (i : ℕ) (es es' : List FullElement) → Closes s i es es' →
        IsBelow i es → HasIdsUpTo i es' }
    ensures takes_out { (e : FullElement) (es es' : List FullElement) (i : ℕ) →
        TakesOut e es es' → IsBelow i es → IsBelow i es' }
    ensures later { (es : List FullElement) (i j : ℕ) → i ≤ j → IsBelow i es → IsBelow j es }
{}

/// A change leaves no two elements of one key, where an added one has a key that none had.
pub fn keys_stay_apart()
    ensures adds { (e : FullElement) (es es' : List FullElement) → Adds e es es' →
        ((x : FullElement) → Contains es x → x.key ≢ e.key) →
        HaveOwnKeys es → HaveOwnKeys es' }
    ensures closes { (s : Subject) (i : ℕ) (es es' : List FullElement) → Closes s i es es' →
        HaveOwnKeys es → HaveOwnKeys es' }
    ensures takes_out { (e : FullElement) (es es' : List FullElement) → TakesOut e es es' →
        HaveOwnKeys es → HaveOwnKeys es' }
{}
