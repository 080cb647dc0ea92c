// Laws of versions that follow one another.
ghost use Rattle.std.specs.Prelude.{◌≡◌, ◌↔◌, ◌⊎◌, ℕ, ◌<◌, ◌≤◌, List};
ghost use Rattle.std.specs.List.{Contains};
ghost use Rattle.hm_types.specs.Elements.{FullElement};
ghost use Rattle.hm_types.specs.Intervals.{Keeps};
ghost use Rattle.hm_types.specs.Tree.{FileTree};
ghost use Rattle.hm_key.specs.Counts.{Counts, IsSeen, Subject, subject_of};
ghost use Rattle.hm_key.specs.Versions.{Adds, HaveOwnKeys};
ghost use Rattle.hm_records.specs.Changes.{CountsNothing};
ghost use Rattle.hm_records.specs.Follows.{
  AreMadeBy,
  Follows,
  HasWay,
  HaveAged,
  IsAbove,
  IsOf,
  EndedBy,
  IsSeenWith,
  LosesDead,
  LosesUnseen,
  Meet,
  StillFollow,
  VersionsFollow,
};
ghost use Rattle.hm_records.specs.View.{IsViewOf};

/// Where the versions of a subject follow one another up to an id, what counts for it as of that id
/// or an earlier one is what is seen then, and one of them is at most. Where the elements of a
/// pseudo file system follow one another, one of those that meet is seen at most: so of those that
/// have a byte of a file.
pub fn what_follows_counts_where_it_is_seen()
    ensures counts { (s : Subject) (t u : ℕ) (es : List FullElement) (bytes : List ℕ) →
        VersionsFollow s t es → u ≤ t → Counts es u s bytes ↔ IsSeenWith es u s bytes }
    ensures one { (s : Subject) (t u : ℕ) (es : List FullElement) (x y : FullElement) →
        HaveOwnKeys es → VersionsFollow s t es → u ≤ t → Contains es x → Contains es y →
        subject_of x.key ≡ s → subject_of y.key ≡ s → IsSeen u x → IsSeen u y → x ≡ y }
    ensures versions { (pfs t : ℕ) (es : List FullElement) → Follows pfs t es →
        (s : Subject) → IsOf pfs s → VersionsFollow s t es }
    ensures meeting { (pfs t u : ℕ) (es : List FullElement) (x y : FullElement) →
        HaveOwnKeys es → Follows pfs t es → u ≤ t → Contains es x → Contains es y →
        Meet pfs x y → IsSeen u x → IsSeen u y → x ≡ y }
{}

/// Elements that follow one another do so still after open ones were closed at an id, and after one
/// was added where all that it meets was made before it and closed by its id. So is each version of a
/// subject about which nothing counts as of an id that all of them are older than. Where no element
/// of a pseudo file system was made above an id, those that follow up to it follow up to any.
pub fn what_follows_goes_on()
    ensures closed { (i : ℕ) (es es' : List FullElement) → HaveAged i es es' → StillFollow es es' }
    ensures added { (e : FullElement) (es es' : List FullElement) → Adds e es es' → (pfs t : ℕ) →
        Follows pfs t es → HasWay pfs e es → Follows pfs t es' }
    ensures nothing { (pfs t i : ℕ) (es : List FullElement) (x : FullElement) →
        Follows pfs t es → i ≤ t → Contains es x → IsOf pfs (subject_of x.key) →
        x.key.create < i → x.delete ≤ i → CountsNothing (Counts es i) (subject_of x.key) →
        EndedBy i x }
    ensures later { (pfs t u : ℕ) (es : List FullElement) →
        AreMadeBy pfs t es → Follows pfs t es → Follows pfs u es }
{}

/// A list that lost elements follows still. As of an id up to which it followed, and which saw none
/// of those that went, it has the same view as before. So it has where they were dead for a
/// retention, as of each id that is kept, and as of each one that is above all of these.
pub fn what_goes_unseen_is_not_missed()
    ensures follows { (pfs t : ℕ) (es es' : List FullElement) →
        ((x : FullElement) → Contains es' x → Contains es x) →
        Follows pfs t es → Follows pfs t es' }
    ensures unseen { (pfs t u : ℕ) (es es' : List FullElement) (tree : FileTree) →
        LosesUnseen u es es' → Follows pfs t es → u ≤ t →
        IsViewOf es' pfs u tree ↔ IsViewOf es pfs u tree }
    ensures dead { (kept : List (ℕ × ℕ)) (u : ℕ) (es es' : List FullElement) →
        LosesDead kept es es' → Keeps kept u ⊎ IsAbove kept u → LosesUnseen u es es' }
{}
