// The generated lines beside those that a script in another language gave from the same rules.
use hm_model::{Command, generated_line, next_number};
use hm_types::{NoMemory, Text};
use std::alloc::Global;
use std::test::Fail;

// The line as a script would have it.
fn spelled(alloc: Global, command: &Command) -> Result<Vec<u8>, NoMemory> {
    match command {
        Command::Touch { path } => joined(alloc, b"touch ", path, b""),
        Command::Ls { path } => joined(alloc, b"ls ", path, b""),
        Command::Stat { path } => joined(alloc, b"stat ", path, b""),
        Command::Snapshot { path } => joined(alloc, b"snapshot ", path, b""),
        Command::Prune { path } => joined(alloc, b"prune ", path, b""),
        Command::Truncate { path, size } => {
            let size = format!(in alloc; " {size}")?;
            joined(alloc, b"truncate ", path, size.as_bytes())
        }
        Command::Cat {
            path,
            offset,
            count,
        } => {
            let range = format!(in alloc; " {offset} {count}")?;
            joined(alloc, b"cat ", path, range.as_bytes())
        }
        Command::Fill {
            path,
            offset,
            count,
            byte,
        } => {
            let range = format!(in alloc; " {offset} {count} {byte:02x}")?;
            joined(alloc, b"fill ", path, range.as_bytes())
        }
        Command::Reblock { fill } => Ok(format!(in alloc; "reblock {fill}")?.into_bytes()),
        Command::Sync => Ok(b"sync".to_vec(alloc)?),
        _ => Ok(Vec::new(alloc)),
    }
}

fn joined(alloc: Global, verb: &[u8], path: &Text, rest: &[u8]) -> Result<Vec<u8>, NoMemory> {
    let mut line = verb.to_vec(alloc)?;
    line.extend_from_slice(path.bytes())?;
    line.extend_from_slice(rest)?;
    Ok(line)
}

// The line with this number that a seed gives.
fn line_of(alloc: Global, seed: u64, number: u32) -> Result<Vec<u8>, NoMemory> {
    if number == 0 {
        return Ok(Vec::new(alloc));
    }
    let mut x = seed;
    for _ in 0..number {
        x = next_number(x);
    }
    spelled(alloc, &generated_line(alloc, number, x)?.command)
}

#[test]
fn generates_the_lines_of_a_seed(rt: HostRuntime) -> Result<(), Fail> {
    let alloc = rt.alloc();
    for (seed, number, text) in [
        (1, 1, "touch /f00"),
        (1, 64, "touch /f63"),
        (1, 65, "fill /f39 520192 4096 19"),
        (1, 67, "fill /f51 1011712 4096 02"),
        (1, 69, "cat /f34 708608 256"),
        (1, 72, "cat /@@0x0000000000000023/f29 73728 256"),
        (1, 73, "truncate /f49 901120"),
        (1, 91, "snapshot /s0091"),
        (1, 97, "ls /"),
        (1, 108, "stat /f51"),
        (1, 256, "sync"),
        (1, 2_048, "prune /"),
        (1, 3_072, "reblock 50"),
        (1, 4_095, "fill /f24 466944 4096 c5"),
        (1, 4_096, "sync"),
        (18_446_744_073_709_551_615, 1, "touch /f00"),
        (18_446_744_073_709_551_615, 65, "fill /f43 585728 4096 e4"),
        (18_446_744_073_709_551_615, 66, "fill /f60 802816 4096 80"),
        (18_446_744_073_709_551_615, 4_095, "stat /f04"),
    ] {
        let line = line_of(alloc, seed, number)?;
        assert_eq!(rt; line.as_slice(), text.as_bytes());
    }
    Ok(())
}
