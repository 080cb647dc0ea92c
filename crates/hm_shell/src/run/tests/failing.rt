// Runs in which one call of a device fails, for each call that a run makes.

use super::*;

// What `ls /` prints on the volume as it was before the run that fails.
const OLD: &str = "0x0000000000000003 ok 1 d:a\n";

// Which of some texts `ls /` prints on the volume of a disk, or in place of it where there is none.
fn which<R: AllocGlobal + Threads + Wait + Sync>(
    rt: &R,
    disk: MemDisk,
    texts: &[&str],
) -> Result<Option<usize>, AllocError> {
    let disk = disk.failing(Vec::new(rt.alloc()));
    let script = b"ls /\n".to_vec(rt.alloc())?;
    let (status, out, _) = parts(run_over(rt, &["v"], disk, script, &[], &[])?);
    let place = texts.iter().position(|text| out.bytes() == text.as_bytes());
    Ok(if status == 0 || status == 3 {
        place
    } else {
        None
    })
}

// How a run ended, of which one call may have failed.
#[derive(Clone, Copy, Debug, PartialEq)]
enum End {
    Completed,
    Stopped,
}

// Whether a run ended with a status, and printed one of these texts.
fn ends_with(status: u8, wanted: u8, out: &MemSink, printed: &[&str]) -> bool {
    status == wanted && printed.iter().any(|text| out.bytes() == text.as_bytes())
}

#[test]
fn writes_nothing_where_a_call_of_opening_fails(rt: HostRuntime) -> Result<(), Fail> {
    let mut disk = made(&rt)?;
    let before = disk.changes();
    // Opening the volume makes more calls than these.
    for call in 1..=130 {
        let script = b"mkdir /b\n".to_vec(rt.alloc())?;
        let failing = disk.failing(vec![in rt.alloc(); call]?);
        let (status, out, back) = parts(run_over(&rt, &["v"], failing, script, &[], &[])?);
        assert!(rt; ends_with(status, 4, &out, &["media 0 1\n"]), "{call}");
        assert_eq!(rt; back.changes(), before, "{call}");
        disk = back;
    }
    Ok(())
}

// Whether a run that makes a volume, where this call of the disk fails, tells so. Nothing is promised of
// the disk but where the run ends with status 0.
fn tells_making<R: AllocGlobal + Threads + Wait + Sync>(
    rt: &R,
    call: u64,
) -> Result<bool, AllocError> {
    let disk = blank(rt).failing(vec![in rt.alloc(); call]?);
    let script = b"mkdir /a\n".to_vec(rt.alloc())?;
    let (status, out, disk) = parts(run_over(rt, &MAKES, disk, script, &[], &[])?);
    let completes = ends_with(status, 0, &out, &["0x0000000000000002 ok\n"]);
    let refuses = ends_with(status, 0, &out, &["0x0000000000000002 media 0 1\n"]);
    let told = ["media 0 1\n", "0x0000000000000002 ok\nmedia 0 1\n"];
    let stops = ends_with(status, 4, &out, &told);
    Ok(
        match which(rt, disk, &["0x0000000000000003 ok 0\n", OLD])? {
            Some(0) if refuses => true,
            Some(1) if completes => true,
            _ => stops,
        },
    )
}

#[test]
fn tells_the_call_of_the_disk_that_fails_as_a_volume_is_made(rt: HostRuntime) -> Result<(), Fail> {
    // Calls of making the volume, of opening it, of running the line, and of writing it back; and more
    // than there are.
    for call in [
        1, 2, 70, 138, 139, 140, 200, 271, 272, 275, 278, 281, 284, 287, 300,
    ] {
        assert!(rt; tells_making(&rt, call)?, "{call}");
    }
    Ok(())
}

// How a run of three lines ends whose sink fails at this call. No line is run after that, nothing is
// written back, and the next run finds the old volume.
fn end_of_printing<R: AllocGlobal + Threads + Wait + Sync>(
    rt: &R,
    call: u64,
) -> Result<Option<End>, AllocError> {
    const PRINTED: &str =
        "0x0000000000000003 ok\n0x0000000000000004 ok\n0x0000000000000005 ok 3 d:a d:b d:c\n";
    let script = b"mkdir /b\nmkdir /c\nls /\n".to_vec(rt.alloc())?;
    let (status, out, disk) = parts(run_over(rt, &["v"], made(rt)?, script, &[], &[call])?);
    let is_front = PRINTED.as_bytes().starts_with(out.bytes());
    let is_whole = out.bytes() == PRINTED.as_bytes();
    let next = which(rt, disk, &[OLD, "0x0000000000000006 ok 3 d:a d:b d:c\n"])?;
    Ok(match next {
        Some(0) if status == 6 && is_front && !is_whole && out.faults() == 1 => Some(End::Stopped),
        Some(1) if status == 0 && is_whole => Some(End::Completed),
        _ => None,
    })
}

#[test]
fn keeps_the_volume_where_a_call_of_the_sink_fails(rt: HostRuntime) -> Result<(), Fail> {
    let mut last = Some(End::Stopped);
    for call in 1..=4 {
        let end = end_of_printing(&rt, call)?;
        assert!(rt;
            end.is_some() && (end == last || last == Some(End::Stopped)),
            "{call}"
        );
        last = end;
    }
    // The run puts a line three times.
    assert_eq!(rt; last, Some(End::Completed));
    Ok(())
}

// How a run ends whose source fails at this call. Nothing is run then, so no volume is made.
fn end_of_reading<R: AllocGlobal + Threads + Wait + Sync>(
    rt: &R,
    script: Vec<u8>,
    call: u64,
) -> Result<Option<End>, AllocError> {
    let (status, out, disk) = parts(run_over(rt, &MAKES, blank(rt), script, &[call], &[])?);
    let stops = ends_with(status, 5, &out, &["script fault 0 1\n"]);
    let completes = ends_with(status, 0, &out, &["0x0000000000000002 ok\n"]);
    Ok(match which(rt, disk, &["not a volume\n", OLD])? {
        Some(0) if stops => Some(End::Stopped),
        Some(1) if completes => Some(End::Completed),
        _ => None,
    })
}

#[test]
fn runs_nothing_where_a_call_of_the_source_fails(rt: HostRuntime) -> Result<(), Fail> {
    // The first call gives the script, and the second finds its end.
    for (call, want) in [(1, End::Stopped), (2, End::Stopped), (3, End::Completed)] {
        let script = b"mkdir /a\n".to_vec(rt.alloc())?;
        assert_eq!(rt; end_of_reading(&rt, script, call)?, Some(want), "{call}");
    }
    // The script comes in two pieces, and the third call finds its end.
    for (call, want) in [(2, End::Stopped), (3, End::Stopped), (4, End::Completed)] {
        let mut script = b"mkdir /a\n#".to_vec(rt.alloc())?;
        script.extend_from_slice(&[b'.'; 70_000])?;
        assert_eq!(rt; end_of_reading(&rt, script, call)?, Some(want), "{call}");
    }
    Ok(())
}

// Whether a run whose sink fails in the last line keeps its status, and prints no more than a front of
// that line.
fn keeps_its_status<R: AllocGlobal + Threads + Wait + Sync>(
    rt: &R,
    words: &[&str],
    script: &str,
    takes: &[u64],
    cause: u8,
    line: &str,
) -> Result<bool, AllocError> {
    let script = script.as_bytes().to_vec(rt.alloc())?;
    let (status, out, _) = parts(run_over(rt, words, blank(rt), script, takes, &[1])?);
    let is_front = line.as_bytes().starts_with(out.bytes());
    Ok(status == cause && out.faults() == 1 && is_front && out.bytes().len() < line.len())
}

#[test]
fn keeps_its_status_where_the_last_line_is_cut_short(rt: HostRuntime) -> Result<(), Fail> {
    assert!(rt; keeps_its_status(&rt, &["v", "w"], "", &[], 2, USAGE)?);
    assert!(rt; keeps_its_status(&rt, &["v"], "", &[], 3, "not a volume\n")?);
    assert!(rt; keeps_its_status(&rt, &["v"], "", &[1], 5, "script fault 0 1\n")?);
    assert!(rt; keeps_its_status(&rt, &["v"], "frob\n", &[], 8, "bad line 1\n")?);
    Ok(())
}

// The source that failed at calls before the run.
fn failed_before(alloc: Global) -> Result<MemSource, AllocError> {
    let fails = [1, 2, 3, 4].to_vec(alloc)?;
    let mut source = MemSource::new(Vec::new(alloc), fails);
    let mut buf = [0; 1];
    for _ in 0..3 {
        let _ = source.take(&mut buf);
    }
    Ok(source)
}

#[test]
fn tells_the_faults_of_the_source_from_before_the_run(rt: HostRuntime) -> Result<(), Fail> {
    let alloc = rt.alloc();
    let devices = Devices {
        disk: blank(&rt),
        script: failed_before(alloc)?,
        out: MemSink::new(alloc, Vec::new(alloc)),
        stream_in: MemSource::new(Vec::new(alloc), Vec::new(alloc)),
        stream_out: MemSink::new(alloc, Vec::new(alloc)),
    };
    let (status, out, _) = parts(run(&rt, &owned(alloc, &MAKES)?, devices, &NoGate));
    assert!(rt; status == 5 && out.bytes() == b"script fault 3 4\n".as_slice());
    Ok(())
}
