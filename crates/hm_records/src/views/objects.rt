// Laws of inodes and of what belongs to them: what a change of one object does to a view.
ghost use Rattle.std.specs.Prelude.{◌≡◌, ℕ, ◌^◌, ◌<◌, List, Some};
ghost use Rattle.std.specs.List.{Contains};
ghost use Rattle.hm_types.specs.declared.id.Obj.{Obj};
ghost use Rattle.hm_types.specs.declared.object.Object.{Object};
ghost use Rattle.hm_types.specs.declared.object.Kind.TheVariants.{File};
ghost use Rattle.hm_types.specs.declared.object.Content.TheVariants.{File as of_file};
ghost use Rattle.hm_types.specs.Tree.{
  FileTree,
  holding,
  with_change,
  with_links,
  without_object,
};
ghost use Rattle.hm_records.specs.declared.inode.Inode.{Inode};
ghost use Rattle.hm_key.specs.Counts.{inode_subject};
ghost use Rattle.hm_records.specs.Changes.{ChangesObject, CountsNothing, HasInode, Overrides};
ghost use Rattle.hm_records.specs.Inode.{inode_bytes};
ghost use Rattle.hm_records.specs.Laws.{
  AsOf,
  HasView,
  HoldsBytes,
  KeepsNumbers,
  counts_of,
  linked,
  with_inode,
};
ghost use Rattle.hm_records.specs.View.{IsObject};

/// Where an object is there that had no inode, the view gets it. No name needs to lead to it.
pub fn new_inodes_add_their_objects()
    ensures { (old new : AsOf) (pfs : ℕ) (tree : FileTree) (object : Object) →
        HasView (counts_of old) pfs tree →
        ChangesObject pfs object.number.0 (counts_of old) (counts_of new) →
        CountsNothing (counts_of old) (inode_subject pfs object.number.0) →
        IsObject (counts_of new) pfs object →
        HasView (counts_of new) pfs (with_inode tree object) }
{}

/// Where an object has no inode any more, the view loses it. The names that lead to it stay.
pub fn lost_inodes_take_their_objects()
    ensures { (old new : AsOf) (pfs : ℕ) (tree : FileTree) (number : Obj) →
        HasView (counts_of old) pfs tree →
        ChangesObject pfs number.0 (counts_of old) (counts_of new) →
        CountsNothing (counts_of new) (inode_subject pfs number.0) →
        HasView (counts_of new) pfs (without_object tree number) }
{}

/// Where an object of the view has become another one of its number, the view has that one in its
/// place.
pub fn changed_objects_are_shown()
    ensures { (old new : AsOf) (pfs : ℕ) (tree : FileTree) (held : Object)
        (change : Object → Object) → HasView (counts_of old) pfs tree →
        ChangesObject pfs held.number.0 (counts_of old) (counts_of new) →
        Contains tree.objects held → KeepsNumbers change →
        IsObject (counts_of new) pfs (change held) →
        HasView (counts_of new) pfs (with_change tree held.number change) }
{}

/// Where an inode got another number of links, so did its object.
pub fn new_links_are_shown()
    ensures { (old new : AsOf) (pfs : ℕ) (tree : FileTree) (number : Obj) (links : ℕ)
        (inode : Inode) → HasView (counts_of old) pfs tree →
        HasInode (counts_of old) pfs number.0 inode → links < 2 ^ 32 →
        Overrides (inode_subject pfs number.0) (Some (inode_bytes (linked links inode)))
        (counts_of old) (counts_of new) →
        HasView (counts_of new) pfs (with_change tree number (with_links links)) }
{}

/// Where a file's inode has another size, and the bytes that go with it count, the file holds
/// these.
pub fn new_bytes_are_shown()
    ensures { (old new : AsOf) (pfs : ℕ) (tree : FileTree) (file : Object) (inode : Inode)
        (bytes : List ℕ) → HasView (counts_of old) pfs tree →
        ChangesObject pfs file.number.0 (counts_of old) (counts_of new) →
        Contains tree.objects file → file.kind ≡ File →
        HoldsBytes (counts_of new) pfs file inode bytes →
        HasView (counts_of new) pfs (with_change tree file.number (holding (of_file bytes))) }
{}
