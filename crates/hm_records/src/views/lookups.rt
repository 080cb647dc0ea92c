// Laws of what is found in a view.
ghost use Rattle.std.specs.Prelude.{◌≡◌, ◌↔◌, ℕ, List, false, None, Some};
ghost use Rattle.hm_types.specs.declared.id.Obj.{Obj};
ghost use Rattle.hm_types.specs.declared.object.Object.{Object};
ghost use Rattle.hm_types.specs.Tree.{FileTree, has_name, named_in, object_in};
ghost use Rattle.hm_records.specs.Changes.{LacksName};
ghost use Rattle.hm_records.specs.Laws.{AsOf, HasView, counts_of, triple_of};
ghost use Rattle.hm_records.specs.View.{IsObject, IsTriple};

/// A directory has an object under a name in a view exactly where its triple is there, and none
/// exactly where it has no entry of the name at all.
pub fn names_in_views_are_those_of_entries()
    ensures some { (shown : AsOf) (pfs : ℕ) (tree : FileTree) (directory object : Obj)
        (name : List ℕ) → HasView (counts_of shown) pfs tree →
        named_in tree directory name ≡ Some object
        ↔ IsTriple (counts_of shown) pfs (triple_of directory name object) }
    ensures none { (shown : AsOf) (pfs : ℕ) (tree : FileTree) (directory : Obj)
        (name : List ℕ) → HasView (counts_of shown) pfs tree →
        named_in tree directory name ≡ None
        ↔ LacksName (counts_of shown) pfs directory name }
    ensures has { (shown : AsOf) (pfs : ℕ) (tree : FileTree) (directory : Obj) (name : List ℕ) →
        HasView (counts_of shown) pfs tree →
        has_name tree directory name ≡ false
        ↔ LacksName (counts_of shown) pfs directory name }
{}

/// The object that is found by its number in a view is the one that is there.
pub fn objects_in_views_are_those_of_inodes()
    ensures found { (shown : AsOf) (pfs : ℕ) (tree : FileTree) (number : Obj) (o : Object) →
        HasView (counts_of shown) pfs tree → object_in tree number ≡ Some o →
        IsObject (counts_of shown) pfs o × (o.number ≡ number) }
    ensures there { (shown : AsOf) (pfs : ℕ) (tree : FileTree) (o : Object) →
        HasView (counts_of shown) pfs tree → IsObject (counts_of shown) pfs o →
        object_in tree o.number ≡ Some o }
{}
