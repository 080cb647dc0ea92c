// What follows from the definitions alone: each function states one law, and does nothing.
ghost use Rattle.std.specs.Prelude.{◌≡◌, ℕ, List, None, Some};
ghost use Rattle.hm_types.specs.Elements.{FullElement};
ghost use Rattle.hm_types.specs.Tree.{FileTree, object_in};
ghost use Rattle.hm_types.specs.declared.id.Obj.{Obj};
ghost use Rattle.hm_types.specs.declared.object.Object.{Object};
ghost use Rattle.hm_key.specs.Counts.{Counts, IsRecordOf, inode_subject};
ghost use Rattle.hm_key.specs.Versions.{HaveOwnKeys};
ghost use Rattle.hm_model.specs.Volume.{PseudoFileSystem, Volume, system_of};
ghost use Rattle.hm_records.specs.Changes.{CountsNothing, HasInode};
ghost use Rattle.hm_records.specs.View.{IsViewOf};
ghost use Rattle.hm_records.specs.declared.inode.Inode.{Inode};
ghost use Rattle.hm_records.specs.declared.pfs_record.PfsRecord.{PfsRecord};
ghost use Rattle.hm_volume.specs.Found.{IsMadeBy};
ghost use Rattle.hm_volume.specs.Records.{HasRecord, HaveRecords, IsRecordFor};

/// Each inode that counts makes an object: whatever elements there are, they decide each byte of a
/// file and the target of a softlink.
pub fn inodes_that_count_make_objects()
    ensures { (es : List FullElement) (t pfs : ℕ) (number : Obj) (inode : Inode) → HaveOwnKeys es →
        HasInode (Counts es t) pfs number.0 inode →
        (o : Object) × (o.number ≡ number) × IsMadeBy (Counts es t) pfs inode o }
{}

/// An object is found by its number in a view exactly where an inode counts for it, which is that
/// of the object.
pub fn inodes_are_found_in_views()
    ensures some { (es : List FullElement) (t pfs : ℕ) (tree : FileTree) (number : Obj)
        (inode : Inode) → HaveOwnKeys es → IsViewOf es pfs t tree →
        HasInode (Counts es t) pfs number.0 inode →
        (o : Object) × (object_in tree number ≡ Some o) × IsMadeBy (Counts es t) pfs inode o }
    ensures none { (es : List FullElement) (t pfs : ℕ) (tree : FileTree) (number : Obj) →
        HaveOwnKeys es → IsViewOf es pfs t tree →
        CountsNothing (Counts es t) (inode_subject pfs number.0) → object_in tree number ≡ None }
{}

/// There is a pseudo file system of a number exactly where there is a record, which is its own.
pub fn records_tell_systems()
    ensures some { (es : List FullElement) (volume : Volume) (pfs : ℕ) (r : PfsRecord) →
        HaveOwnKeys es → HaveRecords es volume → HasRecord es pfs r →
        (s : PseudoFileSystem) × (system_of volume pfs ≡ Some s) × IsRecordFor s r }
    ensures none { (es : List FullElement) (volume : Volume) (pfs : ℕ) → HaveRecords es volume →
        ((bytes : List ℕ) → IsRecordOf es pfs bytes → ⊥) → system_of volume pfs ≡ None }
{}
