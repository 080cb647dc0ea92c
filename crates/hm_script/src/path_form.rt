// The forms of one path.
ghost use Rattle.std.specs.Prelude.{◌≡◌, [], ◌∷◌, MatchOption};
ghost use Rattle.hm_script.specs.Commands.{IsCommandOf};
ghost use Rattle.hm_script.specs.PathForms.{form_name, IsNoName};

use crate::words::is;
use hm_model::Command;
use hm_types::Text;

/// A form that is a name and a path.
#[derive(Clone, Copy, Debug)]
pub(crate) enum PathForm {
    Mkdir,
    Touch,
    Snapshot,
    Rm,
    Rmdir,
    Ls,
    Stat,
    Readlink,
    Prune,
    PruneAll,
    PfsStatus,
    PfsUpgrade,
    MirrorWrite,
}

impl PathForm {
    /// The form with this name.
    pub(crate) fn of(name: &[u8]) -> Option<PathForm>
        ensures { MatchOption result (IsNoName name.now) (λ form. name.now ≡ form_name form) }
    {
        if is(name, b"mkdir") {
            Some(PathForm::Mkdir)
        } else if is(name, b"touch") {
            Some(PathForm::Touch)
        } else if is(name, b"snapshot") {
            Some(PathForm::Snapshot)
        } else if is(name, b"rm") {
            Some(PathForm::Rm)
        } else if is(name, b"rmdir") {
            Some(PathForm::Rmdir)
        } else if is(name, b"ls") {
            Some(PathForm::Ls)
        } else if is(name, b"stat") {
            Some(PathForm::Stat)
        } else if is(name, b"readlink") {
            Some(PathForm::Readlink)
        } else if is(name, b"prune") {
            Some(PathForm::Prune)
        } else if is(name, b"prune-everything") {
            Some(PathForm::PruneAll)
        } else if is(name, b"pfs-status") {
            Some(PathForm::PfsStatus)
        } else if is(name, b"pfs-upgrade") {
            Some(PathForm::PfsUpgrade)
        } else if is(name, b"mirror-write") {
            Some(PathForm::MirrorWrite)
        } else {
            None
        }
    }

    /// The command of this form with this path.
    pub(crate) fn command(self, path: Text) -> Command
        ensures { IsCommandOf (form_name self ∷ path ∷ []) result }
    {
        match self {
            PathForm::Mkdir => Command::Mkdir { path },
            PathForm::Touch => Command::Touch { path },
            PathForm::Snapshot => Command::Snapshot { path },
            PathForm::Rm => Command::Rm { path },
            PathForm::Rmdir => Command::Rmdir { path },
            PathForm::Ls => Command::Ls { path },
            PathForm::Stat => Command::Stat { path },
            PathForm::Readlink => Command::Readlink { path },
            PathForm::Prune => Command::Prune { path },
            PathForm::PruneAll => Command::PruneAll { path },
            PathForm::PfsStatus => Command::PfsStatus { path },
            PathForm::PfsUpgrade => Command::PfsUpgrade { path },
            PathForm::MirrorWrite => Command::MirrorWrite { path },
        }
    }
}
