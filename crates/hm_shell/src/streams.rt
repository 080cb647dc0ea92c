// Standard streams that are closed as the program starts.

use crate::stop::RunStop;
use std::fs::{File, OpenOptions};
use std::io;
use std::os::fd::AsFd;

/// What stands in for the standard streams that are closed, for as long as this is kept.
#[derive(Drop)]
pub(crate) struct StandIns {
    input: Option<File>,
    output: Option<File>,
    errors: Option<File>,
}

/// Opens a file in place of each standard stream that is closed. Else the next file that is opened would
/// get its number: replies to a closed standard output would go into the volume.
///
/// The file is opened the wrong way round, so reading or writing the stream fails, as if it were closed.
/// Where it cannot be opened, the run has to stop before it opens anything else.
pub(crate) fn stand_in(rt: &HostRuntime) -> Result<StandIns, RunStop> {
    let mut to_write = OpenOptions::new();
    to_write.write(true);
    let mut to_read = OpenOptions::new();
    to_read.read(true);
    // In this order, since a file gets the lowest number that is free.
    let Ok(input) = stand_in_for(rt, &rt.stdin(), &to_write) else {
        return Err(RunStop::ScriptFault {
            before: 0,
            after: 1,
        });
    };
    let Ok(output) = stand_in_for(rt, &rt.stdout(), &to_read) else {
        return Err(RunStop::OutFault);
    };
    let Ok(errors) = stand_in_for(rt, &rt.stderr(), &to_read) else {
        return Err(RunStop::OutFault);
    };
    Ok(StandIns {
        input,
        output,
        errors,
    })
}

fn stand_in_for<S: AsFd>(
    rt: &HostRuntime,
    stream: &S,
    options: &OpenOptions,
) -> io::Result<Option<File>> {
    // A closed stream cannot be duplicated.
    if stream.as_fd().try_clone_to_owned().is_ok() {
        return Ok(None);
    }
    Ok(Some(options.open(rt, "/dev/null")?))
}
