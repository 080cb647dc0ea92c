// Where the trees of three states begin.
ghost use Rattle.std.specs.Prelude.{◌≡◌};
ghost use Rattle.hm_flush.specs.declared.flush.Flush.{Flush};
ghost use Rattle.hm_flush.specs.Group.{Group};
ghost use Rattle.hm_flush.specs.Stages.{due_stage};
ghost use Rattle.hm_stored.specs.Flushed.{roots_made};

use hm_flush::Stage;
use hm_header::Header;
use hm_types::HOff;

/// The roots of the committed, the frozen and the current tree.
#[derive(Clone, Copy, Debug, PartialEq, Eq)]
pub struct Roots {
    pub committed: HOff,
    pub frozen: HOff,
    pub current: HOff,
}

impl Roots {
    /// The roots after this stage of a flush. Freeze takes the frozen tree's from `now`, and the last stage,
    /// which is Commit 3, makes it the committed one's.
    pub(crate) fn moved(&self, stage: Stage, now: &Header) -> Roots
        ensures { (f : Flush) (g : Group) → stage ≡ due_stage f g →
            result ≡ roots_made f.at now.now self.now }
    {
        match stage {
            Stage::Freeze => Roots {
                frozen: now.root,
                ..*self
            },
            Stage::Commit(3) => Roots {
                committed: self.frozen,
                ..*self
            },
            _ => *self,
        }
    }
}
