// What a run is to do: the words and the script, once both were found good.
ghost use Rattle.std.specs.Prelude.{◌≤◌, IfErr, IfOk};
ghost use Rattle.hm_shell.specs.Preparing.{StoppedPreparing, WasPrepared};
ghost use Rattle.hm_shell.specs.Seen.{seen};
ghost use Rattle.hm_shell.specs.Words.{texts};

use crate::lines::served_lines;
use crate::read::read_script;
use crate::stop::RunStop;
use crate::words::planned_size;
use hm_model::Line;
use hm_pipe::Source;
use std::alloc::Global;

/// What a run is to do.
#[derive(Drop)]
pub(crate) struct Job {
    /// The size of a new volume in big-blocks, where one is to be made.
    pub(crate) newfs: Option<u32>,
    /// The lines of the script, each of a call that is served.
    pub(crate) lines: Vec<Line>,
}

/// Reads the words, then the script, and looks whether each of its lines is served. The script's bytes
/// are dropped.
pub(crate) fn prepare<S: Source>(
    alloc: Global,
    words: &[String],
    source: &mut S,
) -> Result<Job, RunStop>
    ensures ok { IfOk result (WasPrepared (texts words.now)
        (seen S.left S.faults source.old) (seen S.left S.faults source.new)) }
    ensures err { IfErr result (StoppedPreparing (texts words.now)
        (seen S.left S.faults source.old) (seen S.left S.faults source.new)) }
    ensures never_falls { S.faults source.old ≤ S.faults source.new }
{
    let Some(newfs) = planned_size(words) else {
        return Err(RunStop::Usage);
    };
    let script = read_script(alloc, source)?;
    let lines = served_lines(alloc, &script)?;
    Ok(Job { newfs, lines })
}
