// A run of every command that is served, of which one call of the disk fails, for each call in turn.

use super::*;

// What the volume of the run holds before it. The last id is 15.
const BEFORE: &str =
    "mkdir /a\nmkdir /e\ntouch /e/x\ntouch /f\ntouch /m\ntouch /w\ntouch /i\ntouch /c\n\
write /c 0 3132\ntouch /r\nwrite /r 0 3132\nsymlink t /k\ntouch /q\nmkdir /u\n";

// A line of the run, its reply, a line of a later run, and its reply where the first one was run and
// where it was answered `media`. No line changes the reply of another one.
const ROWS: [[&str; 5]; 16] = [
    ["mkdir /d", "ok", "ls /d", "ok 0", "not found"],
    ["touch /t", "ok", "cat /t 0 1", "ok 0", "not found"],
    ["symlink x /l", "ok", "readlink /l", "ok x", "not found"],
    [
        "snapshot /s",
        "ok",
        "readlink /s",
        "ok @@0x0000000000000012",
        "not found",
    ],
    ["ln /f /h", "ok", "cat /h 0 1", "ok 0", "not found"],
    ["mv /m /a/n", "ok", "cat /a/n 0 1", "ok 0", "not found"],
    ["write /w 0 6161", "ok", "cat /w 0 9", "ok 2 6161", "ok 0"],
    [
        "fill /i 16384 2 62",
        "ok",
        "cat /i 16383 9",
        "ok 3 006262",
        "ok 0",
    ],
    ["truncate /c 1", "ok", "cat /c 0 9", "ok 1 31", "ok 2 3132"],
    [
        "cat /r 0 9",
        "ok 2 3132",
        "cat /r 0 9",
        "ok 2 3132",
        "ok 2 3132",
    ],
    [
        "stat /r",
        "ok f 0x000000000000000b 2 1",
        "ls /a/b",
        "not found",
        "not found",
    ],
    ["readlink /k", "ok t", "readlink /k", "ok t", "ok t"],
    ["ls /e", "ok 1 f:x", "ls /e", "ok 1 f:x", "ok 1 f:x"],
    ["rm /q", "ok", "cat /q 0 1", "not found", "ok 0"],
    ["rmdir /u", "ok", "ls /u", "not found", "ok 0"],
    ["df", "ok 13 9", "df", "ok 13 9", "ok 13 9"],
];

const MEDIA: &str = "media 0 1";

// How the ends of runs are numbered, in the order of the calls that fail: the volume is not opened, a
// line is answered `media`, the volume is not written back, and no call fails.
const UNOPENED: usize = 0;

const FIRST_LINE: usize = 1;

const UNWRITTEN: usize = 17;

const COMPLETED: usize = 18;

// What a script, or what it prints, takes of each row.
#[derive(Clone, Copy)]
enum Column {
    Line,
    Reply,
    LaterLine,
    LaterReply,
}

impl Column {
    fn of(self, row: &[&'static str; 5]) -> &'static str {
        match self {
            Column::Line => row[0],
            Column::Reply => row[1],
            Column::LaterLine => row[2],
            Column::LaterReply => row[3],
        }
    }
}

// The lines of a column as a script.
fn script_of(alloc: Global, column: Column) -> Result<Vec<u8>, AllocError> {
    let mut script = Vec::new(alloc);
    for row in &ROWS {
        script.extend_from_slice(column.of(row).as_bytes())?;
        script.push(b'\n')?;
    }
    Ok(script)
}

// What lines print of which the first draws this id: the replies of a column, but for one line.
fn printed(
    alloc: Global,
    first: u64,
    column: Column,
    other: Option<(usize, &str)>,
) -> Result<String, AllocError> {
    let mut text = String::new(alloc);
    for (number, row) in ROWS.iter().enumerate() {
        let id = first.wrapping_add(number as u64);
        let reply = match other {
            Some((line, reply)) if line == number => reply,
            _ => column.of(row),
        };
        text.push_str(format!(in alloc; "0x{id:016x} {reply}\n")?.as_str())?;
    }
    Ok(text)
}

// Which line of the run was answered `media`, and the number of lines where none was.
fn failed_line(alloc: Global, out: &MemSink) -> Result<Option<usize>, AllocError> {
    for line in 0..=ROWS.len() {
        let text = printed(alloc, 16, Column::Reply, Some((line, MEDIA)))?;
        if out.bytes() == text.as_bytes() {
            return Ok(Some(line));
        }
    }
    Ok(None)
}

// Whether a later run finds what each line but this one did, and nothing of this one.
fn is_kept<R: AllocGlobal + Threads + Wait + Sync>(
    rt: &R,
    disk: MemDisk,
    line: usize,
) -> Result<bool, AllocError> {
    let disk = disk.failing(Vec::new(rt.alloc()));
    let script = script_of(rt.alloc(), Column::LaterLine)?;
    let (status, out, _) = parts(run_over(rt, &["v"], disk, script, &[], &[])?);
    let other = ROWS.get(line).map(|row| (line, row[4]));
    let text = printed(rt.alloc(), 32, Column::LaterReply, other)?;
    Ok(status == 0 && out.bytes() == text.as_bytes())
}

// The number of the end of a run in which this call of the disk fails. Where the volume is not written
// back, the next run may refuse it.
fn end_of_run<R: AllocGlobal + Threads + Wait + Sync>(
    rt: &R,
    disk: MemDisk,
    call: u64,
) -> Result<Option<usize>, AllocError> {
    let alloc = rt.alloc();
    let changes = disk.changes();
    let disk = disk.failing(vec![in alloc; call]?);
    let script = script_of(alloc, Column::Line)?;
    let (status, out, disk) = parts(run_over(rt, &["v"], disk, script, &[], &[])?);
    if status == 4 {
        let mut late = printed(alloc, 16, Column::Reply, None)?;
        late.push_str("media 0 1\n")?;
        return Ok(match out.bytes() {
            bytes if bytes == b"media 0 1\n".as_slice() && disk.changes() == changes => {
                Some(UNOPENED)
            }
            bytes if bytes == late.as_bytes() => Some(UNWRITTEN),
            _ => None,
        });
    }
    let line = match failed_line(alloc, &out)? {
        Some(line) if status == 0 => line,
        _ => return Ok(None),
    };
    let end = if line == ROWS.len() {
        COMPLETED
    } else {
        FIRST_LINE.saturating_add(line)
    };
    Ok(if is_kept(rt, disk, line)? {
        Some(end)
    } else {
        None
    })
}

#[test]
fn nothing_that_was_answered_is_lost_whichever_call_of_the_disk_fails(
    rt: HostRuntime,
) -> Result<(), Fail> {
    let script = BEFORE.as_bytes().to_vec(rt.alloc())?;
    let (_, _, disk) = parts(run_over(&rt, &MAKES, blank(&rt), script, &[], &[])?);
    let mut last = UNOPENED;
    // Reading both layers of the freemap makes the calls before these, and a run fewer than these.
    for call in 130..600 {
        let copy = disk.after_changes(disk.changes())?;
        match end_of_run(&rt, copy, call)? {
            Some(end) if last <= end => last = end,
            _ => panic!(rt; "{call}"),
        }
        if last == COMPLETED {
            break;
        }
    }
    assert_eq!(rt; last, COMPLETED);
    Ok(())
}
