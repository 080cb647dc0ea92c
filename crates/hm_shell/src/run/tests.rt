// The top call over devices in memory and over files.

use super::*;
use hm_disk_forms::MemDisk;
use hm_pipe::{MemSink, MemSource, NoGate};
use std::alloc::AllocError;
use std::test::Fail;

mod disks;
mod failing;
mod faults;
mod files;
mod gate;
mod prunes;
mod syncs;

type Memory = Ended<MemDisk, MemSource, MemSink, MemSource, MemSink>;

// The words that make a volume.
const MAKES: [&str; 3] = ["v", "--newfs", "24"];

const USAGE: &str =
    "usage: hammer VOLUME [--newfs BIGBLOCKS] [--stream-in FILE] [--stream-out FILE] [--generate N]\n";

fn blank<R: AllocGlobal>(rt: &R) -> MemDisk {
    MemDisk::new(rt.alloc(), 24, Vec::new(rt.alloc()))
}

fn owned(alloc: Global, words: &[&str]) -> Result<Vec<String>, AllocError> {
    let mut owned = Vec::new(alloc);
    for word in words {
        owned.push(String::from_str(alloc, word)?)?;
    }
    Ok(owned)
}

// Runs a script over a disk, and over a source and a sink whose calls of these numbers fail.
fn run_over<R: AllocGlobal + Threads + Wait + Sync>(
    rt: &R,
    words: &[&str],
    disk: MemDisk,
    script: Vec<u8>,
    takes: &[u64],
    puts: &[u64],
) -> Result<Memory, AllocError> {
    let devices = in_memory(rt.alloc(), disk, script, takes, puts)?;
    Ok(run(rt, &owned(rt.alloc(), words)?, devices, &NoGate))
}

fn in_memory(
    alloc: Global,
    disk: MemDisk,
    script: Vec<u8>,
    takes: &[u64],
    puts: &[u64],
) -> Result<Devices<MemDisk, MemSource, MemSink, MemSource, MemSink>, AllocError> {
    Ok(Devices {
        disk,
        script: MemSource::new(script, takes.to_vec(alloc)?),
        out: MemSink::new(alloc, puts.to_vec(alloc)?),
        stream_in: MemSource::new(Vec::new(alloc), Vec::new(alloc)),
        stream_out: MemSink::new(alloc, Vec::new(alloc)),
    })
}

// The status of a run that ended, what was printed, and the disk that it left.
fn parts(ended: Memory) -> (u8, MemSink, MemDisk) {
    let Ended {
        status,
        devices,
        bad_line: _,
    } = ended;
    let Devices {
        disk,
        script: _,
        out,
        stream_in: _,
        stream_out: _,
    } = devices;
    (status, out, disk)
}

// Whether a run ends with a status and prints a text, and the disk that it leaves.
fn ends<R: AllocGlobal + Threads + Wait + Sync>(
    rt: &R,
    words: &[&str],
    disk: MemDisk,
    script: &str,
    status: u8,
    printed: &str,
) -> Result<(bool, MemDisk), AllocError> {
    let script = script.as_bytes().to_vec(rt.alloc())?;
    let (told, out, disk) = parts(run_over(rt, words, disk, script, &[], &[])?);
    let is_so = told == status && out.bytes() == printed.as_bytes();
    Ok((is_so, disk))
}

// A disk with the directory `a`.
fn made<R: AllocGlobal + Threads + Wait + Sync>(rt: &R) -> Result<MemDisk, AllocError> {
    let (_, disk) = ends(
        rt,
        &MAKES,
        blank(rt),
        "mkdir /a\n",
        0,
        "0x0000000000000002 ok\n",
    )?;
    Ok(disk)
}
