// Laws of what makes no difference to a view.
ghost use Rattle.std.specs.Prelude.{◌≡◌, ◌≢◌, ℕ, List, Option};
ghost use Rattle.hm_types.specs.declared.id.Obj.{Obj};
ghost use Rattle.hm_types.specs.Tree.{FileTree};
ghost use Rattle.hm_key.specs.declared.rec_type.TheConstants.{
  DIRECTORY_ENTRY,
  FILE_BYTES,
  INODE,
  SOFTLINK_TARGET,
};
ghost use Rattle.hm_records.specs.declared.kind.TheConstants.{FILE, SOFTLINK};
ghost use Rattle.hm_key.specs.Counts.{
  Subject,
  bytes_subject,
  inodes_of,
  others_of,
  target_subject,
};
ghost use Rattle.hm_records.specs.Changes.{AgreeOnName, AgreeOnObject, IsBeside, IsNotOfKind, Overrides};
ghost use Rattle.hm_records.specs.Laws.{AsOf, HasView, counts_of};
ghost use Rattle.hm_records.specs.View.{IsView};

/// A target makes no difference where the object has no inode or is no softlink, and bytes make
/// none where it has none or is no file.
pub fn targets_and_bytes_need_their_inodes()
    ensures target { (old new : AsOf) (pfs obj : ℕ) (now : Option (List ℕ)) (tree : FileTree) →
        HasView (counts_of old) pfs tree →
        Overrides (target_subject pfs obj) now (counts_of old) (counts_of new) →
        IsNotOfKind (counts_of old) pfs obj SOFTLINK → HasView (counts_of new) pfs tree }
    ensures bytes { (old new : AsOf) (pfs obj end : ℕ) (now : Option (List ℕ))
        (tree : FileTree) → HasView (counts_of old) pfs tree →
        Overrides (bytes_subject pfs obj end) now (counts_of old) (counts_of new) →
        IsNotOfKind (counts_of old) pfs obj FILE → HasView (counts_of new) pfs tree }
{}

/// What counts beside a tree makes no difference to it: an element of another pseudo file system,
/// and one that is neither an inode nor an entry nor bytes nor a target.
pub fn trees_are_of_their_own_elements()
    ensures beside { (old new : AsOf) (pfs : ℕ) (s : Subject) (now : Option (List ℕ))
        (tree : FileTree) → HasView (counts_of old) pfs tree → IsBeside pfs s →
        Overrides s now (counts_of old) (counts_of new) → HasView (counts_of new) pfs tree }
    ensures others { (pfs : ℕ) (s : Subject) → s.localization ≢ inodes_of pfs →
        s.localization ≢ others_of pfs → IsBeside pfs s }
    ensures types { (pfs : ℕ) (s : Subject) → s.rec_type ≢ INODE → s.rec_type ≢ FILE_BYTES →
        s.rec_type ≢ DIRECTORY_ENTRY → s.rec_type ≢ SOFTLINK_TARGET → IsBeside pfs s }
{}

/// The triples are those of the entries, whether or not a directory or an object has an inode, and
/// the objects those of the inodes, whether or not a name leads to them.
pub fn entries_and_inodes_need_not_fit()
    ensures triples { (one other : AsOf) (pfs : ℕ) (t u : FileTree) →
        ((directory : Obj) (name : List ℕ) →
        AgreeOnName pfs directory name (counts_of one) (counts_of other)) →
        IsView (counts_of one) pfs t → IsView (counts_of other) pfs u → t.triples ≡ u.triples }
    ensures objects { (one other : AsOf) (pfs : ℕ) (t u : FileTree) →
        ((obj : ℕ) → AgreeOnObject pfs obj (counts_of one) (counts_of other)) →
        IsView (counts_of one) pfs t → IsView (counts_of other) pfs u → t.objects ≡ u.objects }
{}
