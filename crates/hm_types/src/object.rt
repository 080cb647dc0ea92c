// What a tree is made of.

ghost use Rattle.std.specs.Prelude.{◌≡◌};

use crate::bytes::Bytes;
use crate::id::{Obj, Pfs};
use crate::name::Name;
use crate::text::Text;
use std::alloc::AllocError;

#[derive(Clone, Copy, Debug, PartialEq, Eq)]
pub enum Kind {
    Directory,
    File,
    Softlink,
    PfsLink,
}

/// What an object holds beside its names.
#[derive(Debug, PartialEq, Drop)]
pub enum Content {
    /// A directory holds nothing itself: its entries are triples.
    Nothing,
    /// A file's bytes.
    File(Bytes),
    /// A softlink's target.
    Target(Text),
    /// The pseudo file system that a PFS link leads to.
    Linked(Pfs),
}

impl Clone for Content {
    ghost is_clone = { λ content copy. copy ≡ content };

    fn clone(&self) -> Result<Content, AllocError> {
        Ok(match self {
            Content::Nothing => Content::Nothing,
            Content::File(bytes) => Content::File(bytes.clone()?),
            Content::Target(text) => Content::Target(text.clone()?),
            Content::Linked(pfs) => Content::Linked(*pfs),
        })
    }
}

/// One object of a tree.
#[derive(Debug, PartialEq, Drop)]
pub struct Object {
    pub number: Obj,
    pub kind: Kind,
    pub content: Content,
    /// How many names it has: 1 for a directory and a PFS link.
    pub links: u32,
}

impl Clone for Object {
    ghost is_clone = { λ object copy. copy ≡ object };

    fn clone(&self) -> Result<Object, AllocError> {
        Ok(Object {
            number: self.number,
            kind: self.kind,
            content: self.content.clone()?,
            links: self.links,
        })
    }
}

/// A directory has an object under a name.
#[derive(Debug, PartialEq, Drop)]
pub struct Triple {
    pub directory: Obj,
    pub name: Name,
    pub object: Obj,
}

impl Clone for Triple {
    ghost is_clone = { λ triple copy. copy ≡ triple };

    fn clone(&self) -> Result<Triple, AllocError> {
        Ok(Triple {
            directory: self.directory,
            name: self.name.clone()?,
            object: self.object,
        })
    }
}
