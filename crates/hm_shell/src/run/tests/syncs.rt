// Runs with syncs: what they tell, and what is there where a flush fails or a run is cut off in one.

use super::*;
use hm_header::read_header;

#[test]
fn a_sync_tells_the_last_id_before_it(rt: HostRuntime) -> Result<(), Fail> {
    let script = "sync\nsynctid\nmkdir /a\nsynctid\nls /\nsync\nsynctid\n";
    let printed = "0x0000000000000002 ok\n0x0000000000000003 ok 0x0000000000000002\n\
0x0000000000000004 ok\n0x0000000000000005 ok 0x0000000000000004\n0x0000000000000006 ok 1 d:a\n\
0x0000000000000007 ok\n0x0000000000000008 ok 0x0000000000000007\n";
    let (is_so, _) = ends(&rt, &MAKES, blank(&rt), script, 0, printed)?;
    assert!(rt; is_so);
    Ok(())
}

// What `ls /` prints on the volume of a disk, as one of these texts.
fn found<R: AllocGlobal + Threads + Wait + Sync>(
    rt: &R,
    disk: MemDisk,
    texts: &[&str],
) -> Result<Option<usize>, AllocError> {
    let disk = disk.failing(Vec::new(rt.alloc()));
    let script = b"ls /\n".to_vec(rt.alloc())?;
    let (status, out, _) = parts(run_over(rt, &["v"], disk, script, &[], &[])?);
    let place = texts.iter().position(|text| out.bytes() == text.as_bytes());
    Ok(if status == 0 { place } else { None })
}

#[test]
fn a_run_that_is_cut_off_leaves_what_was_flushed(rt: HostRuntime) -> Result<(), Fail> {
    // As before the run, as of its sync, and as of its end.
    let texts = [
        "0x0000000000000003 ok 1 d:a\n",
        "0x0000000000000004 ok 2 d:a d:b\n",
        "0x0000000000000006 ok 3 d:a d:b d:c\n",
    ];
    let disk = made(&rt)?;
    let begin = disk.changes();
    let script = "mkdir /b\nsync\nmkdir /c\n";
    let printed = "0x0000000000000003 ok\n0x0000000000000004 ok\n0x0000000000000005 ok\n";
    let (is_so, disk) = ends(&rt, &["v"], disk, script, 0, printed)?;
    assert!(rt; is_so);
    let mut seen = Vec::new(rt.alloc());
    for count in begin..=disk.changes() {
        let is = found(&rt, disk.after_changes(count)?, &texts)?;
        if seen.last() != Some(&is) {
            seen.push(is)?;
        }
    }
    assert_eq!(rt; seen.as_slice(), [Some(0), Some(1), Some(2)].as_slice());
    Ok(())
}

// What a run of `mkdir /b` and two syncs prints, where a call of the disk fails as the volume is opened, in
// the first line, in a stage for the first sync, in one for the second, in the last flush, or none does;
// and what `ls /` prints afterwards: of what the last flush was to commit, any part may be there.
const ENDS: [(u8, &str, [&str; 2]); 6] = [
    (
        4,
        "media 0 1\n",
        [
            "0x0000000000000003 ok 1 d:a\n",
            "0x0000000000000003 ok 1 d:a\n",
        ],
    ),
    (
        0,
        "0x0000000000000003 media 0 1\n0x0000000000000004 ok\n0x0000000000000005 ok\n",
        [
            "0x0000000000000006 ok 1 d:a\n",
            "0x0000000000000006 ok 1 d:a\n",
        ],
    ),
    (
        0,
        "0x0000000000000003 ok\n0x0000000000000004 media 0 1\n0x0000000000000005 ok\n",
        [
            "0x0000000000000006 ok 2 d:a d:b\n",
            "0x0000000000000006 ok 2 d:a d:b\n",
        ],
    ),
    (
        0,
        "0x0000000000000003 ok\n0x0000000000000004 ok\n0x0000000000000005 media 0 1\n",
        [
            "0x0000000000000006 ok 2 d:a d:b\n",
            "0x0000000000000006 ok 2 d:a d:b\n",
        ],
    ),
    (
        4,
        "0x0000000000000003 ok\n0x0000000000000004 ok\n0x0000000000000005 ok\nmedia 0 1\n",
        [
            "0x0000000000000005 ok 2 d:a d:b\n",
            "0x0000000000000006 ok 2 d:a d:b\n",
        ],
    ),
    (
        0,
        "0x0000000000000003 ok\n0x0000000000000004 ok\n0x0000000000000005 ok\n",
        [
            "0x0000000000000006 ok 2 d:a d:b\n",
            "0x0000000000000006 ok 2 d:a d:b\n",
        ],
    ),
];

// Which of these ends a run has in which this call of the disk fails.
fn end_of_syncs<R: AllocGlobal + Threads + Wait + Sync>(
    rt: &R,
    disk: MemDisk,
    call: u64,
) -> Result<Option<usize>, AllocError> {
    let alloc = rt.alloc();
    let script = b"mkdir /b\nsync\nsync\n".to_vec(alloc)?;
    let disk = disk.failing(vec![in alloc; call]?);
    let (status, out, disk) = parts(run_over(rt, &["v"], disk, script, &[], &[])?);
    let end = ENDS
        .iter()
        .position(|end| end.0 == status && out.bytes() == end.1.as_bytes());
    match end {
        Some(place) if place < ENDS.len() => {
            let is_there = found(rt, disk, &ENDS[place].2)?.is_some();
            Ok(if is_there { Some(place) } else { None })
        }
        _ => Ok(None),
    }
}

#[test]
fn a_stage_that_fails_refuses_the_sync_that_waits_for_it(rt: HostRuntime) -> Result<(), Fail> {
    let disk = made(&rt)?;
    let mut seen = Vec::new(rt.alloc());
    // Opening the volume makes some 130 calls.
    for call in 130..=400 {
        let copy = disk.after_changes(disk.changes())?;
        let end = end_of_syncs(&rt, copy, call)?;
        if seen.last() != Some(&end) {
            seen.push(end)?;
        }
        if end == Some(ENDS.len() - 1) {
            break;
        }
    }
    let want = [Some(0), Some(1), Some(2), Some(3), Some(4), Some(5)];
    assert_eq!(rt; seen.as_slice(), want.as_slice());
    Ok(())
}

// Runs a change and two syncs on a new volume, where these calls of the disk fail.
fn synced_twice<R: AllocGlobal + Threads + Wait + Sync>(
    rt: &R,
    fails: Vec<u64>,
) -> Result<(u8, MemSink, MemDisk), AllocError> {
    let script = b"mkdir /a\nsync\nsync\n".to_vec(rt.alloc())?;
    let disk = blank(rt).failing(fails);
    Ok(parts(run_over(rt, &MAKES, disk, script, &[], &[])?))
}

// Whether the header that counts on a disk names entries of the log.
fn names_entries<R: AllocGlobal>(rt: &R, disk: MemDisk) -> bool {
    let mut disk = disk.failing(Vec::new(rt.alloc()));
    match read_header(&mut disk) {
        Ok(Ok((header, _))) => header.undo_count > 0,
        _ => false,
    }
}

// The number of the call that first places a page: the one after the sync of the header that names entries.
fn first_place<R: AllocGlobal + Threads + Wait + Sync>(rt: &R) -> Result<Option<u64>, AllocError> {
    // Making the volume and opening it make some 270 calls.
    for call in 270..=400 {
        // Where the sync fails and so does all after it, that header is what the disk has.
        let fails = vec![in rt.alloc(); call, call + 1, call + 2, call + 3]?;
        let (_, _, disk) = synced_twice(rt, fails)?;
        if names_entries(rt, disk) {
            return Ok(Some(call + 1));
        }
    }
    Ok(None)
}

#[test]
fn a_sync_is_refused_where_a_page_cannot_be_placed(rt: HostRuntime) -> Result<(), Fail> {
    let (_, _, whole) = synced_twice(&rt, Vec::new(rt.alloc()))?;
    let Some(call) = first_place(&rt)? else {
        panic!(rt; "no page was placed");
    };
    let (status, out, disk) = synced_twice(&rt, vec![in rt.alloc(); call]?)?;
    let printed = "0x0000000000000002 ok\n0x0000000000000003 media 0 1\n0x0000000000000004 ok\n";
    assert_eq!(rt; status, 0);
    assert_eq!(rt; out.bytes(), printed.as_bytes());
    // The call that failed was a write, and it was made again.
    assert_eq!(rt; disk.changes(), whole.changes() + 1);
    Ok(())
}
