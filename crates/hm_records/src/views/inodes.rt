// Laws of single objects: which one an inode makes, and which changes are about one alone.
ghost use Rattle.std.specs.Prelude.{◌≡◌, ℕ, List, [], Option};
ghost use Rattle.hm_types.specs.declared.id.Obj.{Obj};
ghost use Rattle.hm_types.specs.declared.object.Kind.TheVariants.{
  Directory,
  File,
  PfsLink,
  Softlink,
};
ghost use Rattle.hm_types.specs.declared.object.Content.TheVariants.{
  File as of_file,
  Linked,
  Nothing,
  Target,
};
ghost use Rattle.hm_records.specs.declared.inode.Inode.{Inode};
ghost use Rattle.hm_records.specs.declared.kind.TheConstants.{
  DIRECTORY,
  FILE,
  PFS_LINK,
  SOFTLINK,
};
ghost use Rattle.hm_key.specs.Counts.{bytes_subject, inode_subject, target_subject};
ghost use Rattle.hm_records.specs.Changes.{AgreeButObject, ChangesObject, HasInode, IsSettled, Overrides};
ghost use Rattle.hm_records.specs.Laws.{AsOf, counts_of, made_of};
ghost use Rattle.hm_records.specs.View.{AreFileBytes, IsObject, IsTargetOf};

/// An inode that counts makes an object of its kind: a directory; a file of its bytes, which is
/// empty where its size is 0, whatever else counts of it; a softlink; a PFS link.
pub fn inodes_make_objects()
    ensures directory { (shown : AsOf) (pfs : ℕ) (number : Obj) (inode : Inode) →
        HasInode (counts_of shown) pfs number.0 inode → inode.kind ≡ DIRECTORY →
        IsObject (counts_of shown) pfs (made_of number Directory Nothing inode) }
    ensures file { (shown : AsOf) (pfs : ℕ) (number : Obj) (inode : Inode) (bytes : List ℕ) →
        HasInode (counts_of shown) pfs number.0 inode → inode.kind ≡ FILE →
        AreFileBytes (counts_of shown) pfs number.0 inode.size bytes →
        IsObject (counts_of shown) pfs (made_of number File (of_file bytes) inode) }
    ensures empty { (shown : AsOf) (pfs : ℕ) (number : Obj) (inode : Inode) →
        HasInode (counts_of shown) pfs number.0 inode → inode.kind ≡ FILE → inode.size ≡ 0 →
        IsObject (counts_of shown) pfs (made_of number File (of_file []) inode) }
    ensures softlink { (shown : AsOf) (pfs : ℕ) (number : Obj) (inode : Inode)
        (text : List ℕ) → HasInode (counts_of shown) pfs number.0 inode →
        inode.kind ≡ SOFTLINK → IsTargetOf (counts_of shown) pfs number.0 text →
        IsObject (counts_of shown) pfs (made_of number Softlink (Target text) inode) }
    ensures pfs_link { (shown : AsOf) (pfs : ℕ) (number : Obj) (inode : Inode) →
        HasInode (counts_of shown) pfs number.0 inode → inode.kind ≡ PFS_LINK →
        IsObject (counts_of shown) pfs (made_of number PfsLink (Linked inode.pfs) inode) }
{}

/// What counts for an inode, for some bytes or for a target is about one object, and about no
/// entry.
pub fn inodes_bytes_and_targets_are_of_one_object()
    ensures inode { (old new : AsOf) (pfs obj : ℕ) (now : Option (List ℕ)) →
        IsSettled (counts_of old) →
        Overrides (inode_subject pfs obj) now (counts_of old) (counts_of new) →
        ChangesObject pfs obj (counts_of old) (counts_of new) }
    ensures bytes { (old new : AsOf) (pfs obj end : ℕ) (now : Option (List ℕ)) →
        IsSettled (counts_of old) →
        Overrides (bytes_subject pfs obj end) now (counts_of old) (counts_of new) →
        ChangesObject pfs obj (counts_of old) (counts_of new) }
    ensures target { (old new : AsOf) (pfs obj : ℕ) (now : Option (List ℕ)) →
        IsSettled (counts_of old) →
        Overrides (target_subject pfs obj) now (counts_of old) (counts_of new) →
        ChangesObject pfs obj (counts_of old) (counts_of new) }
{}

/// Several changes of one object are one.
pub fn changes_of_one_object_join()
    ensures { (old mid new : AsOf) (pfs obj : ℕ) →
        ChangesObject pfs obj (counts_of old) (counts_of mid) →
        ChangesObject pfs obj (counts_of mid) (counts_of new) →
        ChangesObject pfs obj (counts_of old) (counts_of new) }
{}
