// Laws of lists as they stand: what counts decides, and a view is one.
ghost use Rattle.std.specs.Prelude.{◌≡◌, ◌≢◌, ◌↔◌, ℕ, List};
ghost use Rattle.std.specs.List.{Contains};
ghost use Rattle.hm_types.specs.Elements.{FullElement};
ghost use Rattle.hm_types.specs.Tree.{FileTree};
ghost use Rattle.hm_key.specs.Counts.{
  Counts,
  IsRecordOf,
  record_subject,
  subject_of,
};
ghost use Rattle.hm_key.specs.Versions.{AreSorted, HaveOwnKeys};
ghost use Rattle.hm_records.specs.Changes.{CountSame, IsSettled};
ghost use Rattle.hm_records.specs.Laws.{AsOf, HasIdsUpTo, counts_of};
ghost use Rattle.hm_records.specs.View.{IsView};

/// Lists of which the same counts for every subject, each as of its id, have the same views.
pub fn what_counts_decides()
    ensures { (old new : AsOf) (pfs : ℕ) (tree : FileTree) →
        CountSame (counts_of old) (counts_of new) →
        IsView (counts_of old) pfs tree → IsView (counts_of new) pfs tree }
{}

/// Two trees that are views of one list, as of one id and of one pseudo file system, are equal.
pub fn views_are_one()
    ensures { (shown : AsOf) (pfs : ℕ) (one other : FileTree) →
        IsView (counts_of shown) pfs one → IsView (counts_of shown) pfs other → one ≡ other }
{}

/// In a list that is sorted by its keys no two elements have one key, and then as of each id at
/// most one payload counts for each subject.
pub fn keys_settle_what_counts()
    ensures sorted { (es : List FullElement) → AreSorted es → HaveOwnKeys es }
    ensures settled { (es : List FullElement) (t : ℕ) → HaveOwnKeys es → IsSettled (Counts es t) }
{}

/// A pseudo file system has at most one record, no closed element is one, and it is what counts as
/// of an id that no id of the list is above.
pub fn records_are_what_counts_last()
    ensures one { (es : List FullElement) (pfs : ℕ) (a b : List ℕ) → HaveOwnKeys es →
        IsRecordOf es pfs a → IsRecordOf es pfs b → a ≡ b }
    ensures closed { (es : List FullElement) (pfs : ℕ) (bytes : List ℕ) →
        ((x : FullElement) → Contains es x → subject_of x.key ≡ record_subject pfs →
        x.delete ≢ 0) →
        IsRecordOf es pfs bytes → ⊥ }
    ensures counts { (es : List FullElement) (pfs t : ℕ) (bytes : List ℕ) → HasIdsUpTo t es →
        IsRecordOf es pfs bytes ↔ Counts es t (record_subject pfs) bytes }
{}
