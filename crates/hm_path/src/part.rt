// A path and its parts.

use hm_types::{Id, Name};
use std::alloc::AllocError;
use std::marker::Model;

/// One step of a walk: what a component of a path says.
#[derive(Clone, Debug, PartialEq, Drop)]
pub struct Part {
    /// The entry to go to in the directory in hand. Without one the walk stays at its object.
    pub name: Option<Name>,
    /// The moment as of which the walk goes on. Without one it goes on as before.
    pub as_of: Option<Id>,
}

/// The steps of a walk from the root. A contract sees the list of its parts.
#[derive(Debug, Drop)]
pub struct Path {
    parts: Vec<Part>,
}

impl Model for Path {
    ghost use Rattle.std.specs.Prelude.{List};
    ghost use Rattle.hm_path.specs.declared.part.Part.{Part};

    ghost Value = { List Part };

    ghost view = { λ p. p.parts.items };
}

impl Path {
    ghost use Rattle.std.specs.Prelude.{◌≡◌};

    /// Takes no memory, as `parts` does not.
    pub fn of(parts: Vec<Part>) -> Path
        ensures { result ≡ parts.items }
    {
        Path { parts }
    }

    pub fn parts(&self) -> &[Part]
        ensures { result.now ≡ self.now }
    {
        &self.parts
    }
}

impl Clone for Path {
    ghost use Rattle.std.specs.Prelude.{◌≡◌};

    ghost is_clone = { λ path copy. copy ≡ path };

    fn clone(&self) -> Result<Path, AllocError> {
        Ok(Path::of(self.parts.clone()?))
    }
}
