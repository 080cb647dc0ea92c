// Laws of entries: what one more or one less does to a view.
ghost use Rattle.std.specs.Prelude.{◌≡◌, ℕ, List};
ghost use Rattle.hm_types.specs.declared.id.Obj.{Obj};
ghost use Rattle.hm_types.specs.Tree.{FileTree, with_name, without_name};
ghost use Rattle.hm_records.specs.declared.entry.DirEntry.{DirEntry};
ghost use Rattle.hm_records.specs.Changes.{LacksName};
ghost use Rattle.hm_records.specs.Laws.{
  AsOf,
  GetsEntry,
  HasEarlier,
  HasView,
  IsFirstOf,
  IsNext,
  IsOnly,
  LosesEntry,
  counts_of,
};

/// A new entry, under a key that no entry had. Where the directory has none of its name, the view
/// gets the name. Where the new one comes before all others of its name, the name leads to its
/// object. Where there is an earlier one, nothing changes.
pub fn new_entries_are_shown_where_they_come_first()
    ensures new { (old new : AsOf) (pfs : ℕ) (tree : FileTree) (directory : Obj) (key : ℕ)
        (entry : DirEntry) → HasView (counts_of old) pfs tree →
        GetsEntry pfs directory key entry (counts_of old) (counts_of new) →
        LacksName (counts_of old) pfs directory entry.name →
        HasView (counts_of new) pfs (with_name tree directory entry.name entry.obj) }
    ensures first { (old new : AsOf) (pfs : ℕ) (tree : FileTree) (directory : Obj) (key : ℕ)
        (entry : DirEntry) → HasView (counts_of old) pfs tree →
        GetsEntry pfs directory key entry (counts_of old) (counts_of new) →
        IsFirstOf (counts_of old) pfs directory entry.name key →
        HasView (counts_of new) pfs
        (with_name (without_name tree directory entry.name) directory entry.name entry.obj) }
    ensures later { (old new : AsOf) (pfs : ℕ) (tree : FileTree) (directory : Obj) (key : ℕ)
        (entry : DirEntry) → HasView (counts_of old) pfs tree →
        GetsEntry pfs directory key entry (counts_of old) (counts_of new) →
        HasEarlier (counts_of old) pfs directory entry.name key →
        HasView (counts_of new) pfs tree }
{}

/// An entry that counts no more. Where it was the only one of its name, the view loses the name.
/// Where it was not, the name leads to the object of the first one that is left. Where an earlier
/// one is there, nothing changes.
pub fn entries_that_go_show_the_next_of_their_name()
    ensures only { (old new : AsOf) (pfs : ℕ) (tree : FileTree) (directory : Obj) (key : ℕ)
        (entry : DirEntry) → HasView (counts_of old) pfs tree →
        LosesEntry pfs directory key entry (counts_of old) (counts_of new) →
        IsOnly (counts_of old) pfs directory entry.name key →
        HasView (counts_of new) pfs (without_name tree directory entry.name) }
    ensures next { (old new : AsOf) (pfs : ℕ) (tree : FileTree) (directory : Obj) (key : ℕ)
        (entry : DirEntry) (object : Obj) → HasView (counts_of old) pfs tree →
        LosesEntry pfs directory key entry (counts_of old) (counts_of new) →
        IsNext (counts_of old) pfs directory entry.name key object →
        HasView (counts_of new) pfs
        (with_name (without_name tree directory entry.name) directory entry.name object) }
    ensures later { (old new : AsOf) (pfs : ℕ) (tree : FileTree) (directory : Obj) (key : ℕ)
        (entry : DirEntry) → HasView (counts_of old) pfs tree →
        LosesEntry pfs directory key entry (counts_of old) (counts_of new) →
        HasEarlier (counts_of old) pfs directory entry.name key →
        HasView (counts_of new) pfs tree }
{}
