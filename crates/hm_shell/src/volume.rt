// A script's lines, run on the volume of a disk.
ghost use Rattle.std.specs.Prelude.{◌≡◌, ◌≤◌, [], IfErr, IfSome, None, OnErr, OnOk, All, length};
ghost use Rattle.hm_header.specs.Range.{IsSize};
ghost use Rattle.hm_types.specs.declared.limits.TheConstants.{MOST_SCRIPT_LINES};
ghost use Rattle.hm_core.specs.Core.{Follows, KeepsStreams, Waits};
ghost use Rattle.hm_core.specs.Seen.{devices as devices_of, seen as seen_core};
ghost use Rattle.hm_core.specs.Staged.{IsFlushed};
ghost use Rattle.hm_shell.specs.Lines.{NumbersRise, IsServedLine};
ghost use Rattle.hm_shell.specs.Making.{MakesWhereAsked};
ghost use Rattle.hm_shell.specs.Opening.{StoppedOpening};
ghost use Rattle.hm_shell.specs.Preparing.{MayRun};
ghost use Rattle.hm_shell.specs.Running.{IsWriteCause, RunsAll, StoppedRunning};
ghost use Rattle.hm_shell.specs.Seen.{seen};
ghost use Rattle.hm_shell.specs.Serving.{Commits, KeepsSize, StopsUsing, UsesAll};

use crate::job::Job;
use crate::serve::serve_script;
use crate::stop::RunStop;
use hm_buffer::BufferedDisk;
use hm_core::{Core, newfs};
use hm_disk::Disk;
use hm_model::Line;
use hm_pipe::Sink;
use std::alloc::Global;
use std::sync::Wait;

/// What a volume was used with, handed back, and what came of it.
#[derive(Drop)]
pub(crate) struct Closed<D, I, O> {
    pub(crate) disk: D,
    pub(crate) stream_in: I,
    pub(crate) stream_out: O,
    pub(crate) outcome: Result<(), RunStop>,
}

/// Makes a volume where that is asked for, opens the volume of the disk, runs the script's lines,
/// and commits what is left. All reads and writes of the run go through one buffer.
pub(crate) fn run_job<W: Wait, D: Disk, I, O, K: Sink>(
    rt: &W,
    alloc: Global,
    job: Job,
    disk: D,
    stream_in: I,
    stream_out: O,
    out: &mut K,
) -> Closed<D, I, O>
    requires due { MayRun job }
    ensures ok { OnOk result.outcome (RunsAll job.newfs job.lines.items (D.left_since result.disk)
        (seen D.told D.faults disk) (seen D.told D.faults result.disk) (K.held out.old) (K.held out.new)) }
    ensures err { IfErr result.outcome (StoppedRunning job.newfs job.lines.items
        (D.left_since disk) (D.left_since result.disk)
        (seen D.told D.faults disk) (seen D.told D.faults result.disk)
        (seen K.held K.faults out.old) (seen K.held K.faults out.new)) }
    ensures streams { (result.stream_in ≡ stream_in) × (result.stream_out ≡ stream_out) }
    ensures counts { (D.faults disk ≤ D.faults result.disk) × (K.faults out.old ≤ K.faults out.new) }
{
    let disk = BufferedDisk::new(alloc, disk);
    let Closed {
        disk,
        stream_in,
        stream_out,
        outcome,
    } = run_on(rt, alloc, job, disk, stream_in, stream_out, out);
    Closed {
        disk: disk.into_inner(),
        stream_in,
        stream_out,
        outcome,
    }
}

// The same on this disk itself.
fn run_on<W: Wait, D: Disk, I, O, K: Sink>(
    rt: &W,
    alloc: Global,
    job: Job,
    disk: D,
    stream_in: I,
    stream_out: O,
    out: &mut K,
) -> Closed<D, I, O>
    requires due { MayRun job }
    ensures ok { OnOk result.outcome (RunsAll job.newfs job.lines.items (D.left_since result.disk)
        (seen D.told D.faults disk) (seen D.told D.faults result.disk) (K.held out.old) (K.held out.new)) }
    ensures err { IfErr result.outcome (StoppedRunning job.newfs job.lines.items
        (D.left_since disk) (D.left_since result.disk)
        (seen D.told D.faults disk) (seen D.told D.faults result.disk)
        (seen K.held K.faults out.old) (seen K.held K.faults out.new)) }
    ensures streams { (result.stream_in ≡ stream_in) × (result.stream_out ≡ stream_out) }
    ensures counts { (D.faults disk ≤ D.faults result.disk) × (K.faults out.old ≤ K.faults out.new) }
{
    let Job { newfs, lines } = job;
    let mut disk = disk;
    if let Err(stop) = make_volume(&mut disk, newfs) {
        return Closed {
            disk,
            stream_in,
            stream_out,
            outcome: Err(stop),
        };
    }
    match Core::mount(alloc, disk, stream_in, stream_out) {
        Ok(core) => run_lines(rt, alloc, core, lines, out),
        Err((disk, stream_in, stream_out, fault)) => Closed {
            disk,
            stream_in,
            stream_out,
            outcome: Err(RunStop::of_open(fault)),
        },
    }
}

// Makes a volume of this size, where one is asked for.
fn make_volume<D: Disk>(disk: &mut D, bigblocks: Option<u32>) -> Result<(), RunStop>
    requires size { IfSome bigblocks IsSize }
    ensures ok { OnOk result (MakesWhereAsked bigblocks (D.told disk.old) (D.told disk.new)) }
    ensures err { IfErr result (StoppedOpening bigblocks (D.left_since disk.old) (D.left_since disk.new)
        (seen D.told D.faults disk.old) (seen D.told D.faults disk.new)) }
    ensures as_was { (bigblocks ≡ None) → disk.new ≡ disk.old }
    ensures never_falls { D.faults disk.old ≤ D.faults disk.new }
{
    let Some(bigblocks) = bigblocks else {
        return Ok(());
    };
    match newfs(disk, bigblocks) {
        Ok(()) => Ok(()),
        Err(fault) => Err(RunStop::of_open(fault)),
    }
}

// Runs the lines on an open volume, and closes it.
fn run_lines<W: Wait, D: Disk, I, O, K: Sink>(
    rt: &W,
    alloc: Global,
    core: Core<D, I, O>,
    lines: Vec<Line>,
    out: &mut K,
) -> Closed<D, I, O>
    requires each { All IsServedLine lines.items }
    requires rising { NumbersRise lines.items }
    requires few { length lines.items ≤ MOST_SCRIPT_LINES }
    requires start { (seen_core core).history ≡ [] }
    requires flushed { IsFlushed (seen_core core) }
    ensures ok { OnOk result.outcome (UsesAll lines.items (D.left_since (devices_of core).disk)
        (D.left_since result.disk) (seen_core core)
        (seen D.told D.faults result.disk) (K.held out.old) (K.held out.new)) }
    ensures err { IfErr result.outcome (StopsUsing lines.items (D.left_since (devices_of core).disk)
        (D.left_since result.disk) (seen_core core)
        (seen D.told D.faults result.disk) (seen K.held K.faults out.old) (seen K.held K.faults out.new)) }
    ensures streams { (result.stream_in ≡ (devices_of core).input)
        × (result.stream_out ≡ (devices_of core).output) }
    ensures counts { ((seen_core core).counts.disk ≤ D.faults result.disk)
        × (K.faults out.old ≤ K.faults out.new) }
{
    let mut core = core;
    let outcome = use_core(rt, alloc, &mut core, lines, out);
    let (disk, stream_in, stream_out) = core.into_devices();
    Closed {
        disk,
        stream_in,
        stream_out,
        outcome,
    }
}

// Runs the lines, and commits all where each of them was run.
fn use_core<W: Wait, D: Disk, I, O, K: Sink>(
    rt: &W,
    alloc: Global,
    core: &mut Core<D, I, O>,
    lines: Vec<Line>,
    out: &mut K,
) -> Result<(), RunStop>
    requires each { All IsServedLine lines.items }
    requires rising { NumbersRise lines.items }
    requires few { length lines.items ≤ MOST_SCRIPT_LINES }
    requires start { (seen_core core.old).history ≡ [] }
    requires flushed { IsFlushed (seen_core core.old) }
    ensures ok { OnOk result (UsesAll lines.items (D.left_since (devices_of core.old).disk)
        (D.left_since (devices_of core.new).disk) (seen_core core.old)
        (seen D.told D.faults (devices_of core.new).disk) (K.held out.old) (K.held out.new)) }
    ensures err { IfErr result (StopsUsing lines.items (D.left_since (devices_of core.old).disk)
        (D.left_since (devices_of core.new).disk) (seen_core core.old)
        (seen D.told D.faults (devices_of core.new).disk)
        (seen K.held K.faults out.old) (seen K.held K.faults out.new)) }
    ensures streams { KeepsStreams (devices_of core.old) (devices_of core.new) }
    ensures counts { ((seen_core core.old).counts.disk ≤ (seen_core core.new).counts.disk)
        × (K.faults out.old ≤ K.faults out.new) }
{
    match serve_script(rt, alloc, core, lines, out) {
        Ok(()) => commit_all(core),
        Err(stop) => Err(stop),
    }
}

// Makes the stages of the last flush, until all is committed.
fn commit_all<D: Disk, I, O>(core: &mut Core<D, I, O>) -> Result<(), RunStop>
    ensures ok { OnOk result (Commits (seen_core core.old) (seen_core core.new)) }
    ensures err { IfErr result (IsWriteCause (seen_core core.old).counts.disk
        (seen_core core.new).counts.disk) }
    ensures waits { Waits (seen_core core.old) (seen_core core.new) }
    ensures follows { Follows (D.left_since (devices_of core.old).disk)
        (D.left_since (devices_of core.new).disk) (seen_core core.old) (seen_core core.new) }
    ensures size { KeepsSize (seen_core core.old) (seen_core core.new) }
    ensures streams { KeepsStreams (devices_of core.old) (devices_of core.new) }
    ensures never_falls { (seen_core core.old).counts.disk ≤ (seen_core core.new).counts.disk }
{
    core.core_is_sound();
    'flushing: loop {
        match core.end_stage() {
            Ok(true) => return Ok(()),
            Ok(false) => {}
            Err(fault) => return Err(RunStop::of_fault(fault)),
        }
    }
}
