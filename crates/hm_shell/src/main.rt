//! The command `hammer`: runs a script of calls on the volume of a file and prints their replies.
#![tactic(auto)]

mod devices;
mod digits;
mod job;
pub mod laws;
mod lines;
mod plan;
mod print;
mod read;
mod reason;
mod run;
mod serve;
mod stop;
mod streams;
mod volume;
mod why;
mod words;

use devices::{Devices, Ended};
use hm_disk_forms::FileDisk;
use hm_pipe::{FileSink, FileSource, NoGate, StdSink, StdSource};
use plan::{Plan, PlanFault};
use print::print_last;
use reason::{tell_bad_line, tell_reason};
use run::run;
use std::io::ErrorKind;
use std::process::ExitCode;
use std::{env, io};
use stop::RunStop;
use streams::stand_in;
use words::plan;

fn given_words(rt: &HostRuntime) -> io::Result<Vec<String>> {
    let mut words = Vec::new(rt.alloc());
    for word in env::args(rt)?.skip(1) {
        words.push(word)?;
    }
    Ok(words)
}

// A run that stops before it has any device.
fn stop_early(rt: &HostRuntime, stop: RunStop) -> ExitCode {
    print_last(stop, &mut StdSink::new(rt.stdout()));
    ExitCode::from(stop.status())
}

fn main(rt: HostRuntime) -> ExitCode {
    let _stand_ins = match stand_in(&rt) {
        Ok(stand_ins) => stand_ins,
        Err(stop) => return stop_early(&rt, stop),
    };
    let words = match given_words(&rt) {
        Ok(words) => words,
        Err(error) if error.kind() == ErrorKind::OutOfMemory => {
            return stop_early(&rt, RunStop::NoMemory);
        }
        // Where the system does not give the words, or one is not UTF-8, no words are handed in,
        // which is answered as wrong words are.
        Err(_) => Vec::new(rt.alloc()),
    };
    let plan = match plan(rt.alloc(), &words) {
        Ok(plan) => plan,
        // `run` refuses the words again, and no device is used.
        Err(PlanFault::Usage) => Plan::without_names(rt.alloc()),
        Err(PlanFault::NoMemory) => return stop_early(&rt, RunStop::NoMemory),
    };
    let Plan {
        volume,
        newfs,
        stream_in,
        stream_out,
        generate: _,
    } = plan;
    let devices = Devices {
        disk: FileDisk::named(rt, volume, newfs),
        script: StdSource::new(rt.stdin()),
        out: StdSink::new(rt.stdout()),
        stream_in: FileSource::named(rt, stream_in),
        stream_out: FileSink::named(rt, stream_out),
    };
    let Ended {
        status,
        devices,
        bad_line,
    } = run(&rt, &words, devices, &NoGate);
    tell_bad_line(&rt, bad_line);
    tell_reason(&rt, devices.disk.name(), devices.disk.last_error());
    tell_reason(&rt, "standard input", devices.script.last_error());
    tell_reason(&rt, "standard output", devices.out.last_error());
    ExitCode::from(status)
}
