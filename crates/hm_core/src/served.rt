// Which commands are served.
ghost use Rattle.std.specs.Prelude.{◌≡◌, ◌↔◌, IsTrue};
ghost use Rattle.hm_core.specs.Open.{opens_job};
ghost use Rattle.hm_core.specs.Served.{IsServed, IsSync};

use hm_model::Command;

/// Whether a core serves a command: the calls on names, on the bytes of files and on pseudo file systems,
/// prunes, `reblock`, `df`, `sync` and `synctid`. `pfs-upgrade`, mirror calls and `progress`
/// are not served yet.
pub fn is_served(command: &Command) -> bool
    ensures { IsTrue result ↔ IsServed command.now }
{
    matches!(
        command,
        Command::Mkdir { .. }
            | Command::Touch { .. }
            | Command::Symlink { .. }
            | Command::Snapshot { .. }
            | Command::Ln { .. }
            | Command::Mv { .. }
            | Command::Write { .. }
            | Command::Fill { .. }
            | Command::Truncate { .. }
            | Command::Rm { .. }
            | Command::Rmdir { .. }
            | Command::Ls { .. }
            | Command::Cat { .. }
            | Command::Stat { .. }
            | Command::Readlink { .. }
            | Command::PfsMaster { .. }
            | Command::PfsSlave { .. }
            | Command::PfsStatus { .. }
            | Command::Prune { .. }
            | Command::PruneAll { .. }
            | Command::Reblock { .. }
            | Command::Df
            | Command::Sync
            | Command::Synctid
    )
}

/// Whether a command is a sync, which waits until all that was answered before it is committed.
pub(crate) fn is_sync(command: &Command) -> bool
    ensures { IsTrue result ↔ IsSync command.now }
{
    matches!(command, Command::Sync | Command::Synctid)
}

/// Whether a command opens a call of housekeeping.
pub(crate) fn opens_job(command: &Command) -> bool
    ensures { result ≡ opens_job command.now }
{
    matches!(
        command,
        Command::Prune { .. } | Command::PruneAll { .. } | Command::Reblock { .. }
    )
}
