// Laws of PFS links at the end of a path, and of what a PFS shows now.
ghost use Rattle.std.specs.Prelude.{◌≡◌, ℕ, List, [], ◌∷◌, ◌++◌, None, Some};
ghost use Rattle.hm_model.specs.Laws.{NamesLink};
ghost use Rattle.hm_model.specs.View.{Now, Position, View, own_tree};
ghost use Rattle.hm_model.specs.Volume.{
  Master,
  PseudoFileSystem,
  Slave,
  Volume,
  at,
  system_of,
};
ghost use Rattle.hm_model.specs.Walk.{
  Follows,
  Passed,
  Reaches,
  Stays,
  TakesPfs,
  enter,
  take_pfs,
  walk_on,
};

/// Where the last part names a PFS link, a call that does not follow links comes to the link itself.
/// One that follows them enters the linked PFS, at the time of the walk. One that takes a PFS by its
/// path comes to its root, and does not look at it.
pub fn last_links_are_followed_or_not()
    ensures stays { (volume : Volume) (view : View) (here link : Position) (name : List ℕ)
        (pfs : ℕ) (passed : Passed) → NamesLink view here name link pfs →
        walk_on volume view Stays (record { name = Some name; as_of = None } ∷ []) here passed
        ≡ Reaches link (passed ++ (link.pfs, link.object.0) ∷ []) }
    ensures follows { (volume : Volume) (view : View) (here link : Position) (name : List ℕ)
        (pfs : ℕ) (passed : Passed) → NamesLink view here name link pfs →
        walk_on volume view Follows (record { name = Some name; as_of = None } ∷ []) here passed
        ≡ enter volume view pfs here.when (passed ++ (link.pfs, link.object.0) ∷ []) }
    ensures takes { (volume : Volume) (view : View) (here link : Position) (name : List ℕ)
        (pfs : ℕ) (passed : Passed) → NamesLink view here name link pfs →
        walk_on volume view TakesPfs (record { name = Some name; as_of = None } ∷ []) here passed
        ≡ take_pfs volume pfs here.when (passed ++ (link.pfs, link.object.0) ∷ []) }
{}

/// Now, a master shows its tree as of the last id, and a slave as of its sync end.
pub fn slaves_show_their_sync_end()
    ensures master { (volume : Volume) (pfs : ℕ) (s : PseudoFileSystem) →
        system_of volume pfs ≡ Some s → s.role ≡ Master →
        own_tree volume pfs Now ≡ at volume pfs volume.last }
    ensures slave { (volume : Volume) (pfs : ℕ) (s : PseudoFileSystem) →
        system_of volume pfs ≡ Some s → s.role ≡ Slave →
        own_tree volume pfs Now ≡ at volume pfs s.sync_end }
{}
