// Laws of walks along the parts of a path.
ghost use Rattle.std.specs.Prelude.{◌≡◌, ℕ, List, [], ◌∷◌, Bool, false, Some};
ghost use Rattle.hm_path.specs.declared.part.Part.{Part};
ghost use Rattle.hm_types.specs.declared.id.Id.{Id};
ghost use Rattle.hm_model.specs.declared.reply.Reply.TheVariants.{NotRetained};
ghost use Rattle.hm_model.specs.View.{Position, View};
ghost use Rattle.hm_model.specs.Volume.{Volume};
ghost use Rattle.hm_model.specs.Walk.{
  Follow,
  Passed,
  Reaches,
  Refuses,
  is_kept,
  start,
  step,
  walk,
  walk_on,
};

/// A walk without parts ends where each walk starts, in the root of PFS 0, and passed that alone.
pub fn no_part_goes_nowhere()
    ensures { (volume : Volume) (view : View) (follow : Follow) →
        walk volume view follow [] ≡ Reaches start ((0, 1) ∷ []) }
{}

/// The id of a part comes before its name. Where the PFS in hand does not keep it, the walk is
/// refused with `NotRetained`, whatever the name, the view, and the parts that follow.
pub fn ids_come_before_names()
    ensures step { (volume : Volume) (view : View) (follow : Follow) (part : Part) (id : Id)
        (here : Position) (passed : Passed) →
        part.as_of ≡ Some id → is_kept volume here.pfs id.0 ≡ false →
        step volume view follow part here passed ≡ Refuses NotRetained passed }
    ensures walk { (volume : Volume) (view : View) (follow : Follow) (part : Part) (id : Id)
        (parts : List Part) (here : Position) (passed : Passed) →
        part.as_of ≡ Some id → is_kept volume here.pfs id.0 ≡ false →
        walk_on volume view follow (part ∷ parts) here passed ≡ Refuses NotRetained passed }
{}
