// Where a walk along the parts of a path stands, and how it comes out.
ghost use Rattle.std.specs.Prelude.{◌≡◌, ◌||◌, if◌then◌else◌};
ghost use Rattle.hm_model.specs.Walk.{Follows as follows};
ghost use Rattle.hm_dirs.specs.Walk.{is_directory_by, is_watched, link_by, mode_of};

use hm_records::{DIRECTORY, Inode, PFS_LINK};
use hm_types::{Id, Obj, Pfs};

/// A place in the trees of a volume: an object of a pseudo file system, as of when it is seen.
#[derive(Clone, Copy, Debug, PartialEq, Eq)]
pub struct Position {
    pub pfs: Pfs,
    pub object: Obj,
    /// The id as of which the tree is seen, or None for what it shows now.
    pub when: Option<Id>,
}

/// The end of a walk, or of some parts of one.
#[derive(Clone, Copy, Debug, PartialEq, Eq)]
pub struct Stand {
    pub at: Position,
    /// The id as of which the tree in hand is read: that of the position, and of what is seen now a
    /// master's last id or a slave's sync end.
    pub as_of: Id,
    /// The inode of the object, where the tree has it. A walk that takes a PFS does not look.
    pub inode: Option<Inode>,
    /// Whether the walk passed the object that it watched for.
    pub passed: bool,
}

/// Why a walk came to no end.
#[derive(Clone, Copy, Debug, PartialEq, Eq)]
pub enum Lost {
    /// There is no such name, object or pseudo file system.
    NotFound,
    /// A name was looked for in what is no directory.
    NotDir,
    /// The pseudo file system does not keep the id.
    NotRetained,
}

/// What becomes of a PFS link that the last part of a path names.
#[derive(Clone, Copy, Debug, PartialEq, Eq)]
pub enum Follow {
    /// The walk stays at the link.
    Stays,
    /// It goes on to the root of the PFS.
    Follows,
    /// It takes the PFS, without a look at its root.
    TakesPfs,
}

/// What is one for all parts of a walk.
#[derive(Clone, Copy, Debug, PartialEq, Eq)]
pub struct Course {
    /// The last id that was drawn, as of which a master is seen now.
    pub last: Id,
    /// The object of which the walk tells whether it passed it.
    pub watch: Option<(Pfs, Obj)>,
}

impl Stand {
    /// Whether the object in hand is a directory.
    pub fn is_directory(&self) -> bool
        ensures { result ≡ is_directory_by self.now.inode }
    {
        match self.inode {
            Some(inode) => inode.kind == DIRECTORY,
            None => false,
        }
    }

    /// The PFS that the object in hand leads to, if it is a PFS link.
    pub fn link(&self) -> Option<Pfs>
        ensures { result ≡ link_by self.now.inode }
    {
        match self.inode {
            Some(inode) if inode.kind == PFS_LINK => Some(inode.pfs),
            _ => None,
        }
    }
}

impl Follow {
    /// What becomes of a PFS link that a part names, where that is the last one or is not: one that
    /// is not last is followed.
    pub(crate) fn before(self, last: bool) -> Follow
        ensures { mode_of result ≡ (if last then mode_of self else follows) }
    {
        if last { self } else { Follow::Follows }
    }
}

impl Course {
    /// Whether a walk passed the object that it watches for, once it comes to a position.
    pub(crate) fn passes(self, passed: bool, at: Position) -> bool
        ensures { result ≡ (passed || is_watched self.watch (at.pfs.0, at.object.0)) }
    {
        match self.watch {
            Some((pfs, object)) => passed || (at.pfs.0 == pfs.0 && at.object.0 == object.0),
            None => passed,
        }
    }
}
