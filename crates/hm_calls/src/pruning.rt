// Prunes, and what their openings led to.
ghost use Rattle.std.specs.Prelude.{◌≡◌};
ghost use Rattle.hm_dirs.specs.Walk.{mode_of};
ghost use Rattle.hm_calls.specs.Prunes.{mode_by};

use hm_dirs::Follow;
use hm_model::Reply;
use hm_retain::Retention;
use hm_types::Pfs;

/// What a prune keeps of a pseudo file system.
#[derive(Clone, Copy, Debug, PartialEq, Eq)]
pub enum Pruning {
    /// `prune`: the ids that the softlinks of a directory name, and all from the greatest of them
    /// on.
    Snapshots,
    /// `prune-everything`: of a master the call's own id and all later ones, and of a slave its sync
    /// end.
    Present,
}

impl Pruning {
    // What becomes of a PFS link at the end of its path.
    pub(crate) fn follow(self) -> Follow
        ensures { mode_of result ≡ mode_by self }
    {
        match self {
            Pruning::Snapshots => Follow::Follows,
            Pruning::Present => Follow::TakesPfs,
        }
    }
}

/// What the opening of a prune led to.
#[derive(Debug, Drop)]
pub struct Led {
    /// The pseudo file system that is pruned.
    pub pfs: Pfs,
    /// The ids that it keeps from now on, as its record tells; none where it has no record.
    pub kept: Retention,
}

/// What became of the opening of a prune.
#[derive(Debug, Drop)]
pub enum Opened {
    /// It was refused, with this reply, and changed nothing.
    Refused(Reply),
    /// It was accepted, with the reply `ok`, and led to this.
    Led(Led),
}
