// What follows from the words of a walk alone: each function states one law, and does nothing.
ghost use Rattle.std.specs.Prelude.{◌≡◌, false, Some, option_map};
ghost use Rattle.std.specs.Option.{option_map_or};
ghost use Rattle.hm_types.specs.declared.id.Pfs.{Pfs};
ghost use Rattle.hm_types.specs.declared.object.Object.{Object};
ghost use Rattle.hm_model.specs.View.{object_at};
ghost use Rattle.hm_model.specs.Walk.{is_directory, linked_in};
ghost use Rattle.hm_dirs.specs.Walk.{IsRead, Scene, is_directory_by, link_by, place_of};
ghost use Rattle.hm_dirs.specs.declared.position.Stand.{Stand};

/// The inode in hand tells whether the object there is a directory, and where it leads as a link.
pub fn stands_tell_of_their_objects()
    ensures directory { (scene : Scene) (stand : Stand) → IsRead scene stand →
        option_map_or is_directory (object_at scene.view (place_of stand.at)) false
        ≡ is_directory_by stand.inode }
    ensures link { (scene : Scene) (stand : Stand) (object : Object) → IsRead scene stand →
        object_at scene.view (place_of stand.at) ≡ Some object →
        linked_in object.content ≡ option_map (λ (pfs : Pfs). pfs.0) (link_by stand.inode) }
{}
