// What a run is given, and what it hands back.
ghost use Rattle.std.specs.Prelude.{◌≤◌};

use crate::why::BadLine;
use hm_disk::Disk;
use hm_pipe::{Sink, Source};

/// The devices of a run.
#[derive(Drop)]
pub struct Devices<D: Disk, S: Source, K: Sink, I, O> {
    /// The volume's disk.
    pub disk: D,
    /// Where the script comes from.
    pub script: S,
    /// Where the replies go.
    pub out: K,
    /// Where a stream would come from. No line reads one so far.
    pub stream_in: I,
    /// Where a stream would go. No line writes one so far.
    pub stream_out: O,
    // It says nothing, but by it the struct alone tells a contract what is seen of the devices.
    ghost seen: { (D.faults disk ≤ D.faults disk) × (S.faults script ≤ S.faults script)
        × (K.faults out ≤ K.faults out) },
}

/// How a run ended: the exit status, the devices that it was given, and, where a line was bad, what is
/// wrong with it.
#[derive(Drop)]
pub struct Ended<D: Disk, S: Source, K: Sink, I, O> {
    pub status: u8,
    pub devices: Devices<D, S, K, I, O>,
    pub bad_line: Option<BadLine>,
}
