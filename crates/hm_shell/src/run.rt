// The top call.
ghost use Rattle.std.specs.Prelude.{◌≡◌, ◌≢◌, ◌↔◌, ◌≤◌, [], IfErr, OnOk};
ghost use Rattle.hm_shell.specs.Devices.{NeverFall, sight};
ghost use Rattle.hm_shell.specs.Printing.{Prints};
ghost use Rattle.hm_shell.specs.Seen.{seen};
ghost use Rattle.hm_shell.specs.Stop.{last_line, status_of};
ghost use Rattle.hm_shell.specs.Words.{IsUsageFault, texts};
ghost use Rattle.hm_shell.specs.Run.{Completes, Stops, StopsWith};
ghost use Rattle.hm_shell.specs.Exact.{Brings, IsStatus};

use crate::devices::{Devices, Ended};
use crate::job::prepare;
use crate::print::print_last;
use crate::stop::RunStop;
use crate::volume::{Closed, run_job};
use crate::why::BadLine;
use hm_disk::Disk;
use hm_pipe::{Gate, Sink, Source};
use std::alloc::Global;
use std::sync::Wait;
use std::thread::Threads;

/// Reads the words and the script, makes a volume on the disk where the words ask for one, opens
/// the disk's volume, runs the script's lines one after another, prints each reply before the next
/// line is run, and commits what is left in a last flush.
///
/// A flush is made in stages. One is due before a line is answered where the changed pages fill a group,
/// and for a sync until all that was answered before it is committed. A prune or a reblock that a line
/// opened is brought to its end, unit by unit, before the next line is run; the run waits as long as that takes.
///
/// It ends with status 0 once each line was answered and the volume is on the disk. Else it ends
/// at the first of these that it meets: words that break the rule (2), a fault of the script's
/// source (5), a script that is too long (9), a line that is outside the grammar, or has a lane, or is
/// of a call that is not served (8), a disk that fails (4), that has no volume or one whose header is
/// out of range (3), or a volume that is damaged (10), a fault of the sink (6), and want of memory outside
/// a call's own reply (7). A volume that was cut off in a flush is recovered as it is opened. A disk that
/// fails in a stage for a line refuses that line alone. A last line is printed then, but for a fault of the
/// sink, which ends the run in silence. A fault of the sink in the last line leaves the status as it is.
/// Nothing is written to the disk before words and script were found good, and nothing is flushed after a
/// fault of the sink.
///
/// The streams are handed back as they are, and the gate is not called.
pub fn run<
    R: AllocGlobal + Threads + Wait + Sync,
    D: Disk + Send,
    S: Source,
    K: Sink,
    I: Source + Send,
    O: Sink + Send,
    G: Gate + Sync,
>(rt: &R, words: &[String], devices: Devices<D, S, K, I, O>, _gate: &G) -> Ended<D, S, K, I, O>
    // Each line of the script was answered, and whatever volume the disk stood for, it stands for that
    // after these answers. Each image that a crash may have left recovers to a prefix of them.
    ensures done { result.status ≡ 0 → Completes (texts words.now)
        (D.left_since result.devices.disk) (sight devices) (sight result.devices) }

    // Any other status has its cause, tells it in the last line, and says how far the run came. What the
    // disk recovers to is a prefix of that.
    ensures stopped { result.status ≢ 0 →
        StopsWith (texts words.now) result.status (D.left_since devices.disk)
        (D.left_since result.devices.disk) (sight devices) (sight result.devices) }

    // The words break the rule, exactly there.
    ensures usage { (result.status ≡ 2) ↔ IsUsageFault (texts words.now) }

    // Where the source and the disk tell, they decide which it is.
    ensures exact { Brings (texts words.now) (sight devices) result.status }
    ensures statuses { IsStatus result.status }

    // The streams are those that were given, and no count of faults falls.
    ensures streams { (result.devices.stream_in ≡ devices.stream_in)
        × (result.devices.stream_out ≡ devices.stream_out) }
    ensures counts { NeverFall (sight devices) (sight result.devices) }
{
    let (mut devices, outcome) = perform(rt, rt.alloc(), words, devices);
    let bad_line = bad_line_of(&outcome);
    let status = end(outcome, &mut devices.out);
    Ended {
        status,
        devices,
        bad_line,
    }
}

// Runs up to the last line that is due where the run stops early.
fn perform<W: Wait, D: Disk, S: Source, K: Sink, I, O>(
    rt: &W,
    alloc: Global,
    words: &[String],
    devices: Devices<D, S, K, I, O>,
) -> (Devices<D, S, K, I, O>, Result<(), RunStop>)
    ensures ok { OnOk result.1 (Completes (texts words.now) (D.left_since result.0.disk)
        (sight devices) (sight result.0)) }
    ensures err { IfErr result.1 (Stops (texts words.now) (D.left_since devices.disk)
        (D.left_since result.0.disk) (sight devices) (sight result.0)) }
    ensures streams { (result.0.stream_in ≡ devices.stream_in)
        × (result.0.stream_out ≡ devices.stream_out) }
    ensures counts { NeverFall (sight devices) (sight result.0) }
{
    let Devices {
        disk,
        mut script,
        mut out,
        stream_in,
        stream_out,
    } = devices;
    let closed = match prepare(alloc, words, &mut script) {
        Ok(job) => run_job(rt, alloc, job, disk, stream_in, stream_out, &mut out),
        Err(stop) => Closed {
            disk,
            stream_in,
            stream_out,
            outcome: Err(stop),
        },
    };
    let Closed {
        disk,
        stream_in,
        stream_out,
        outcome,
    } = closed;
    let devices = Devices {
        disk,
        script,
        out,
        stream_in,
        stream_out,
    };
    (devices, outcome)
}

// The bad line at which a run stopped, if it did at one.
fn bad_line_of(outcome: &Result<(), RunStop>) -> Option<BadLine> {
    match outcome {
        Err(RunStop::BadLine { number, why }) => Some(BadLine {
            number: *number,
            why: *why,
        }),
        _ => None,
    }
}

// Prints the last line of a run that stopped, and gives the exit status.
fn end<K: Sink>(outcome: Result<(), RunStop>, out: &mut K) -> u8
    ensures done { OnOk outcome ((result ≡ 0) × (K.held out.new ≡ K.held out.old)) }
    ensures stopped { IfErr outcome (λ stop. (result ≡ status_of stop) × Prints [] (last_line stop)
        (seen K.held K.faults out.old) (seen K.held K.faults out.new)) }
    ensures never_falls { K.faults out.old ≤ K.faults out.new }
{
    match outcome {
        Ok(()) => 0,
        Err(stop) => {
            print_last(stop, out);
            stop.status()
        }
    }
}

#[cfg(test)]
mod tests;
