// A whole tree, as plain lists.
ghost use Rattle.std.specs.Prelude.{◌≡◌};
ghost use Rattle.hm_types.specs.Tree.{directory_of};

use hm_types::{Content, Kind, Name, NoMemory, Obj, Object, Triple};
use std::alloc::Global;
use std::marker::Model;

/// A whole tree. A contract sees its objects, rising by number, and its triples, rising by directory
/// and then by the bytes of the name.
#[derive(Debug, Drop)]
pub struct Tree {
    pub(crate) objects: Vec<Object>,
    pub(crate) triples: Vec<Triple>,
}

impl Model for Tree {
    ghost use Rattle.hm_types.specs.Tree.{FileTree};

    ghost Value = { FileTree };

    ghost view = { λ t. record { objects = t.objects.items; triples = t.triples.items } };
}

impl Tree {
    ghost use Rattle.std.specs.Prelude.{◌≡◌, IfOk, false, length};
    ghost use Rattle.std.specs.Option.{option_copied, option_map_or};
    ghost use Rattle.hm_types.specs.Tree.{root_tree, object_in, named_in, entries_in};
    ghost use Rattle.hm_model.specs.Walk.{is_directory};

    /// The tree of a new volume: the root directory, with no entry.
    pub fn root(alloc: Global) -> Result<Tree, NoMemory>
        ensures { IfOk result (λ tree. tree ≡ root_tree) }
    {
        let mut objects = Vec::new(alloc);
        objects.push(directory(Obj(1)))?;
        Ok(Tree {
            objects,
            triples: Vec::new(alloc),
        })
    }

    /// The object with this number, if the tree has it.
    pub(crate) fn object(&self, number: Obj) -> Option<&Object>
        ensures { option_copied result ≡ object_in self.now number }
    {
        self.objects.iter().find(|o| o.number == number)
    }

    /// The number of the object that a directory has under a name.
    pub(crate) fn named(&self, directory: Obj, name: &Name) -> Option<Obj>
        ensures { result ≡ named_in self.now directory name.now }
    {
        self.triples
            .iter()
            .find(|t| t.directory == directory && t.name == *name)
            .map(|t| t.object)
    }

    /// How many entries a directory has.
    pub(crate) fn entry_count(&self, directory: Obj) -> usize
        ensures { result ≡ length (entries_in self.now directory) }
    {
        self.triples
            .iter()
            .filter(|t| t.directory == directory)
            .count()
    }

    /// Whether it has this object, and that is a directory.
    pub(crate) fn is_directory(&self, number: Obj) -> bool
        ensures { result ≡ option_map_or is_directory (object_in self.now number) false }
    {
        match self.object(number) {
            Some(object) => object.kind == Kind::Directory,
            None => false,
        }
    }
}

/// A directory with this number, and one link.
pub(crate) fn directory(number: Obj) -> Object
    ensures { result ≡ directory_of number }
{
    Object {
        number,
        kind: Kind::Directory,
        content: Content::Nothing,
        links: 1,
    }
}
