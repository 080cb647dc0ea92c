// Values from the grammar: lines of one command, and the command that each gives.
use hm_script::{Line, read};
use std::alloc::{AllocError, Global};
use std::test::Fail;

// The line of a script of one line, if it gives one.
fn only_line(alloc: Global, bytes: &[u8]) -> Option<Line> {
    let script = read(alloc, bytes).ok()?;
    let mut blocks = script.into_blocks();
    let mut lines = blocks.pop()?.into_lines();
    let line = lines.pop()?;
    if blocks.is_empty() && lines.is_empty() {
        Some(line)
    } else {
        None
    }
}

// The command of a script of one line, or none. A path is shown as its bytes: `/p` as 47 and 112.
fn command_shown(alloc: Global, line: &str) -> Result<String, AllocError> {
    match only_line(alloc, line.as_bytes()) {
        Some(
            Line {
                lane: _,
                number: _,
                command,
            },
        ) => format!(in alloc; "{command:?}"),
        None => String::from_str(alloc, "none"),
    }
}

#[test]
fn each_line_gives_its_command(rt: HostRuntime) -> Result<(), Fail> {
    for (line, want) in [
        // Each form of one path.
        ("mkdir /p", "Mkdir { path: Text { bytes: [47, 112] } }"),
        ("touch /p", "Touch { path: Text { bytes: [47, 112] } }"),
        (
            "snapshot /p",
            "Snapshot { path: Text { bytes: [47, 112] } }",
        ),
        ("rm /p", "Rm { path: Text { bytes: [47, 112] } }"),
        ("rmdir /p", "Rmdir { path: Text { bytes: [47, 112] } }"),
        ("ls /p", "Ls { path: Text { bytes: [47, 112] } }"),
        ("stat /p", "Stat { path: Text { bytes: [47, 112] } }"),
        (
            "readlink /p",
            "Readlink { path: Text { bytes: [47, 112] } }",
        ),
        ("prune /p", "Prune { path: Text { bytes: [47, 112] } }"),
        (
            "prune-everything /p",
            "PruneAll { path: Text { bytes: [47, 112] } }",
        ),
        (
            "pfs-status /p",
            "PfsStatus { path: Text { bytes: [47, 112] } }",
        ),
        (
            "pfs-upgrade /p",
            "PfsUpgrade { path: Text { bytes: [47, 112] } }",
        ),
        (
            "mirror-write /p",
            "MirrorWrite { path: Text { bytes: [47, 112] } }",
        ),
        // Every other form.
        (
            "symlink ../t /p",
            "Symlink { target: Text { bytes: [46, 46, 47, 116] }, path: Text { bytes: [47, 112] } }",
        ),
        (
            "ln /p /q",
            "Ln { old: Text { bytes: [47, 112] }, new: Text { bytes: [47, 113] } }",
        ),
        (
            "mv /p /q",
            "Mv { old: Text { bytes: [47, 112] }, new: Text { bytes: [47, 113] } }",
        ),
        (
            "write /p 7 0aFf",
            "Write { path: Text { bytes: [47, 112] }, offset: 7, bytes: Bytes { bytes: [10, 255] } }",
        ),
        (
            "fill /p 8 512 7F",
            "Fill { path: Text { bytes: [47, 112] }, offset: 8, count: 512, byte: 127 }",
        ),
        (
            "truncate /p 9",
            "Truncate { path: Text { bytes: [47, 112] }, size: 9 }",
        ),
        (
            "cat /p 10 11",
            "Cat { path: Text { bytes: [47, 112] }, offset: 10, count: 11 }",
        ),
        ("sync", "Sync"),
        ("synctid", "Synctid"),
        ("reblock", "Reblock { fill: 100 }"),
        ("reblock 50", "Reblock { fill: 50 }"),
        (
            "pfs-master /p 00000000000000aA",
            "PfsMaster { path: Text { bytes: [47, 112] }, shared: 170 }",
        ),
        (
            "pfs-slave /p 00000000000000aA",
            "PfsSlave { path: Text { bytes: [47, 112] }, shared: 170 }",
        ),
        (
            "mirror-read /p 0x0000000000000010",
            "MirrorRead { path: Text { bytes: [47, 112] }, begin: Id(16) }",
        ),
        (
            "mirror-copy /p /q",
            "MirrorCopy { master: Text { bytes: [47, 112] }, slave: Text { bytes: [47, 113] }, limit: None }",
        ),
        (
            "mirror-copy /p /q 3",
            "MirrorCopy { master: Text { bytes: [47, 112] }, slave: Text { bytes: [47, 113] }, limit: Some(3) }",
        ),
        ("df", "Df"),
        ("progress", "Progress"),
        // A number is printed digits below 2 to 64.
        (
            "truncate /p 0",
            "Truncate { path: Text { bytes: [47, 112] }, size: 0 }",
        ),
        (
            "truncate /p 1",
            "Truncate { path: Text { bytes: [47, 112] }, size: 1 }",
        ),
        (
            "truncate /p 10",
            "Truncate { path: Text { bytes: [47, 112] }, size: 10 }",
        ),
        (
            "truncate /p 9999999999",
            "Truncate { path: Text { bytes: [47, 112] }, size: 9999999999 }",
        ),
        (
            "truncate /p 18446744073709551615",
            "Truncate { path: Text { bytes: [47, 112] }, size: 18446744073709551615 }",
        ),
        ("truncate /p 18446744073709551616", "none"),
        ("truncate /p 18446744073709551625", "none"),
        ("truncate /p 28446744073709551615", "none"),
        ("truncate /p 99999999999999999999", "none"),
        ("truncate /p 100000000000000000000", "none"),
        ("truncate /p 00", "none"),
        ("truncate /p 01", "none"),
        ("truncate /p +1", "none"),
        ("truncate /p -1", "none"),
        ("truncate /p 1e3", "none"),
        ("truncate /p 0x1", "none"),
        ("truncate /p 1_0", "none"),
        ("truncate /p 1.0", "none"),
        ("truncate /p a", "none"),
        ("truncate /p ", "none"),
        // An id is `0x` and 16 digits.
        (
            "mirror-read /p 0x0000000000000000",
            "MirrorRead { path: Text { bytes: [47, 112] }, begin: Id(0) }",
        ),
        (
            "mirror-read /p 0x00000000000000ff",
            "MirrorRead { path: Text { bytes: [47, 112] }, begin: Id(255) }",
        ),
        (
            "mirror-read /p 0x00000000000000FF",
            "MirrorRead { path: Text { bytes: [47, 112] }, begin: Id(255) }",
        ),
        (
            "mirror-read /p 0xfFfFfFfFfFfFfFfF",
            "MirrorRead { path: Text { bytes: [47, 112] }, begin: Id(18446744073709551615) }",
        ),
        ("mirror-read /p 0x123456789abcdef", "none"),
        ("mirror-read /p 0x0123456789abcdef0", "none"),
        ("mirror-read /p 0X0123456789abcdef", "none"),
        ("mirror-read /p 0123456789abcdef", "none"),
        ("mirror-read /p 0x0123456789abcdeg", "none"),
        ("mirror-read /p 0x+123456789abcdef", "none"),
        ("mirror-read /p 0x", "none"),
        ("mirror-read /p 1", "none"),
    ] {
        assert_eq!(rt; command_shown(rt.alloc(), line)?.as_str(), want, "{line:?}");
    }
    Ok(())
}
