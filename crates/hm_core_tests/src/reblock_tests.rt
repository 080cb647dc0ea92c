// Reblocks of a core: the space that comes back, and what stays, also with calls, prunes and a flush between their units.
use crate::elements::{elements_of, elements_on};
use crate::run::Run;
use crate::volume::made;
use hm_types::NoMemory;
use std::alloc::Global;
use std::process::Abort;
use std::test::Fail;

// How many bytes a line writes here: four extents of large pieces, of which 512 fill a big-block. Each of its extents needs
// 131,072 bytes of room, so that a line finds it full after 127 lines, and a unit that moves one of them after 505 of these.
const LINE_BYTES: u32 = 65_536;

// How many lines a file holds.
const FILE_LINES: u32 = 240;

// A line that writes a byte behind the others of its file.
fn write_behind(
    run: &mut Run,
    rt: &impl Abort,
    alloc: Global,
    file: &str,
    lines: u32,
    byte: &str,
) -> Result<(), NoMemory> {
    let offset = u64::from(LINE_BYTES) * u64::from(lines);
    let line = format!(in alloc; "fill {file} {offset} {LINE_BYTES} {byte}")?;
    run.replies(rt, alloc, &[(&line, "ok")])
}

// Each file has the byte in these of its lines, as of an id, or of now where the prefix is empty.
fn has_lines(
    run: &mut Run,
    rt: &impl Abort,
    alloc: Global,
    file: &str,
    lines: u32,
    want: &str,
) -> Result<(), NoMemory> {
    for line in 0..lines {
        let offset = u64::from(LINE_BYTES) * u64::from(line);
        let ask = format!(in alloc; "cat {file} {offset} 1")?;
        run.replies(rt, alloc, &[(&ask, want)])?;
    }
    Ok(())
}

// Nine big-blocks are free at first, four are held back, and six of large pieces take 127 lines each. What is left of the
// second file in the second of these moves, once the first file is gone.
#[test]
fn a_full_volume_takes_a_line_more_once_it_is_reblocked(rt: HostRuntime) -> Result<(), Fail> {
    let alloc = rt.alloc();
    let mut run = Run::new(&rt, alloc, made(&rt, alloc));
    for (file, lines) in [("/a", 240), ("/b", 240), ("/c", 240), ("/d", 42)] {
        let touch = format!(in alloc; "touch {file}")?;
        run.replies(&rt, alloc, &[(&touch, "ok")])?;
        for line in 0..lines {
            write_behind(&mut run, &rt, alloc, file, line, "61")?;
        }
    }
    run.prints(
        &rt,
        alloc,
        &[
            ("fill /d 2752512 65536 61", "#300 no space 4 1"),
            ("rm /a", "#301 ok"),
            ("prune-everything /", "#302 ok #303 done"),
            ("sync", "#304 ok"),
            ("df", "#305 ok 13 5"),
            ("reblock 50", "#306 ok #307 done"),
            ("df", "#308 ok 13 4"),
            ("sync", "#309 ok"),
            ("df", "#30a ok 13 5"),
            ("fill /d 2752512 65536 61", "#30b ok"),
        ],
    )?;
    has_lines(&mut run, &rt, alloc, "/b", 14, "ok 1 61")?;
    Ok(())
}

// Of each ten lines one is dead, and five big-blocks of nine tenths are chosen. Four are free: they take 2,020 extents, and
// the first four of the chosen ones have 1,828. Of the fifth 264 are left, which is less than 60 of a hundred.
#[test]
fn a_reblock_ends_where_no_big_block_is_free(rt: HostRuntime) -> Result<(), Fail> {
    let alloc = rt.alloc();
    let mut run = Run::new(&rt, alloc, made(&rt, alloc));
    let files = ["/g", "/h", "/i"];
    for file in ["/f", "/g", "/h", "/i"] {
        let touch = format!(in alloc; "touch {file}")?;
        run.replies(&rt, alloc, &[(&touch, "ok")])?;
    }
    let mut live: u32 = 0;
    for line in 0..762_u32 {
        if line % 10 == 0 {
            write_behind(&mut run, &rt, alloc, "/f", 0, "61")?;
        } else {
            let file = files.get((live / FILE_LINES) as usize).unwrap_or(&"/g");
            write_behind(&mut run, &rt, alloc, file, live % FILE_LINES, "62")?;
            live = live.saturating_add(1);
        }
    }
    run.prints(
        &rt,
        alloc,
        &[
            ("prune-everything /", "#300 ok #301 done"),
            ("sync", "#302 ok"),
            ("df", "#303 ok 13 4"),
            ("reblock", "#304 ok #305 no space 0 1"),
            ("df", "#306 ok 13 0"),
            ("sync", "#307 ok"),
            ("df", "#308 ok 13 4"),
            ("reblock 60", "#309 ok #30a done"),
            ("df", "#30b ok 13 3"),
            ("sync", "#30c ok"),
            ("df", "#30d ok 13 4"),
        ],
    )?;
    has_lines(&mut run, &rt, alloc, "/g", FILE_LINES, "ok 1 62")?;
    has_lines(&mut run, &rt, alloc, "/h", FILE_LINES, "ok 1 62")?;
    has_lines(&mut run, &rt, alloc, "/f", 1, "ok 1 61")?;
    Ok(())
}

// A volume with two big-blocks of large pieces: of each four lines the first three are dead once all but the present is
// pruned, and 63 lines of a file are left. The prune ends with the id 0x103.
fn sparse(rt: &impl Abort, alloc: Global) -> Result<Run, NoMemory> {
    let mut run = Run::new(rt, alloc, made(rt, alloc));
    run.replies(rt, alloc, &[("touch /f", "ok"), ("touch /g", "ok")])?;
    let mut live: u32 = 0;
    for line in 0..254_u32 {
        if line % 4 == 3 {
            write_behind(&mut run, rt, alloc, "/g", live, "62")?;
            live = live.saturating_add(1);
        } else {
            write_behind(&mut run, rt, alloc, "/f", 0, "61")?;
        }
    }
    assert_eq!(rt; live, 63);
    run.prints(
        rt,
        alloc,
        &[
            ("prune-everything /", "#102 ok #103 done"),
            ("sync", "#104 ok"),
        ],
    )?;
    Ok(run)
}

// Units go on while calls are answered and the stages of flushes are made between them. The extents of the file that lie in
// the first big-block move, and each view stays.
#[test]
fn calls_and_stages_come_between_the_units_of_a_reblock(rt: HostRuntime) -> Result<(), Fail> {
    let alloc = rt.alloc();
    let mut run = sparse(&rt, alloc)?;
    run.replies(&rt, alloc, &[("touch /e", "ok"), ("df", "ok 13 8")])?;
    run.asks(&rt, alloc, "reblock 30", "ok")?;
    let mut units: u32 = 0;
    for _ in 0..1_024 {
        if run.open() == 0 {
            break;
        }
        if let Some(ending) = run.unit(&rt, alloc, 0)? {
            assert_eq!(rt; ending.ends_with(b" done"), true);
        }
        if units % 4 == 0 {
            run.replies(&rt, alloc, &[("write /e 0 ff", "ok")])?;
        }
        run.stage(&rt);
        units = units.saturating_add(1);
    }
    // It collects elements, puts them in order, moves 31 lines of four extents, and looks once more.
    assert_eq!(rt; (run.open(), units), (0, 127));
    run.replies(&rt, alloc, &[("sync", "ok"), ("df", "ok 13 8")])?;
    has_lines(&mut run, &rt, alloc, "/g", 63, "ok 1 62")?;
    has_lines(
        &mut run,
        &rt,
        alloc,
        "/@@0x0000000000000103/g",
        63,
        "ok 1 62",
    )?;
    has_lines(&mut run, &rt, alloc, "/f", 1, "ok 1 61")?;
    let mut disk = run.finished(&rt);
    // The record and the root, three files with two each, the one that was empty and 32 bytes that were put into it, and four
    // for each of 64 lines.
    let elements = elements_on(&rt, alloc, &mut disk)?;
    assert_eq!(rt; elements_of(&elements, 0), 2 + 3 * 2 + 1 + 32 + 4 * 64);
    let mut again = Run::new(&rt, alloc, disk);
    has_lines(&mut again, &rt, alloc, "/g", 63, "ok 1 62")?;
    again.replies(&rt, alloc, &[("df", "ok 13 8")])?;
    Ok(())
}

// A reblock beside a prune of all that is dead: their units take turns, and both end.
#[test]
fn a_reblock_and_a_prune_take_turns(rt: HostRuntime) -> Result<(), Fail> {
    let alloc = rt.alloc();
    let mut run = sparse(&rt, alloc)?;
    for _ in 0..8 {
        run.replies(&rt, alloc, &[("fill /f 0 65536 63", "ok")])?;
    }
    run.asks(&rt, alloc, "reblock 30", "ok")?;
    run.asks(&rt, alloc, "prune-everything /", "ok")?;
    run.asks(&rt, alloc, "reblock", "ok")?;
    for _ in 0..4_096 {
        if run.open() == 0 {
            break;
        }
        if let Some(ending) = run.unit(&rt, alloc, 0)? {
            assert_eq!(rt; ending.ends_with(b" done"), true);
        }
    }
    assert_eq!(rt; run.open(), 0);
    run.replies(&rt, alloc, &[("sync", "ok")])?;
    has_lines(&mut run, &rt, alloc, "/g", 63, "ok 1 62")?;
    has_lines(&mut run, &rt, alloc, "/f", 1, "ok 1 63")?;
    Ok(())
}

// Where nothing is chosen a reblock is at its end at once.
#[test]
fn a_reblock_of_nothing_is_done(rt: HostRuntime) -> Result<(), Fail> {
    let alloc = rt.alloc();
    let mut run = Run::new(&rt, alloc, made(&rt, alloc));
    run.prints(
        &rt,
        alloc,
        &[
            ("reblock", "#2 ok #3 done"),
            ("touch /f", "#4 ok"),
            ("fill /f 0 65536 61", "#5 ok"),
            ("reblock 1", "#6 ok #7 done"),
            ("df", "#8 ok 13 9"),
        ],
    )?;
    run.asks(&rt, alloc, "reblock 100", "ok")?;
    let (units, _) = run.end(&rt, alloc, 0)?;
    assert_eq!(rt; units, 1);
    Ok(())
}
