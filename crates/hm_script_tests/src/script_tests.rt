// Values from the grammar: scripts and what they give. A script is shown as its blocks between brackets,
// each line as its lane and its number, and a fault in words.
use hm_script::{Block, Script, ScriptFault, first_lines, read};
use std::alloc::{AllocError, Global};
use std::test::Fail;

// What a script of one line without a lane gives, and one whose first line is bad.
const ONE: &str = "[ 0:1 ]";

const BAD: &str = "bad line 1";

fn shown(alloc: Global, answer: &Result<Script, ScriptFault>) -> Result<String, AllocError> {
    let script = match answer {
        Ok(script) => script,
        Err(ScriptFault::BadLine { number }) => return format!(in alloc; "bad line {number}"),
        Err(ScriptFault::TooLong) => return String::from_str(alloc, "too long"),
        Err(ScriptFault::NoMemory) => return String::from_str(alloc, "no memory"),
    };
    let mut text = String::from_str(alloc, "")?;
    for block in script.blocks() {
        text.push('[')?;
        for line in block.lines() {
            let lane = line.lane;
            let number = line.number;
            text.push_str(format!(in alloc; " {lane}:{number}")?.as_str())?;
        }
        text.push_str(" ]")?;
    }
    Ok(text)
}

// What the bytes give, shown.
fn outcome(alloc: Global, bytes: &[u8]) -> Result<String, AllocError> {
    shown(alloc, &read(alloc, bytes))
}

#[test]
fn values_keep_their_forms_and_ranges(rt: HostRuntime) -> Result<(), Fail> {
    for (script, want) in [
        (b"pfs-master /p 0123456789abcdef".as_slice(), ONE),
        (b"pfs-master /p 0123456789ABCDEF", ONE),
        (b"pfs-master /p 123456789abcdef", BAD),
        (b"pfs-master /p 00123456789abcdef", BAD),
        (b"pfs-master /p 0x0123456789abcdef", BAD),
        (b"pfs-slave /p 0123456789abcdeg", BAD),
        (b"fill /p 0 1 00", ONE),
        (b"fill /p 0 1 fF", ONE),
        (b"fill /p 0 1 0", BAD),
        (b"fill /p 0 1 000", BAD),
        (b"fill /p 0 1 g0", BAD),
        (b"fill /p 0 1 +1", BAD),
        (b"fill /p 0 0 00", BAD),
        (b"fill /p 0 65536 00", ONE),
        (b"fill /p 0 65537 00", BAD),
        (b"fill /p 0 4294967297 00", BAD),
        (b"fill /p 00 1 00", BAD),
        (b"fill /p 18446744073709551615 1 00", ONE),
        (b"fill /p 18446744073709551616 1 00", BAD),
        (b"cat /p 0 0", BAD),
        (b"cat /p 0 1", ONE),
        (b"cat /p 0 16384", ONE),
        (b"cat /p 0 16385", BAD),
        (b"cat /p 0 4294967297", BAD),
        (b"cat /p +0 1", BAD),
        (b"write /p 0 0", BAD),
        (b"write /p 0 000", BAD),
        (b"write /p 0 0g", BAD),
        (b"write /p 0 g0", BAD),
        (b"write /p 0 0x", BAD),
        (b"write /p 01 00", BAD),
        (b"reblock 0", BAD),
        (b"reblock 1", ONE),
        (b"reblock 100", ONE),
        (b"reblock 101", BAD),
        (b"reblock 256", BAD),
        (b"reblock 050", BAD),
        (b"mirror-copy /p /q 0", BAD),
        (b"mirror-copy /p /q 1", ONE),
        (b"mirror-copy /p /q 4294967295", ONE),
        (b"mirror-copy /p /q 4294967296", BAD),
        (b"mirror-copy /p /q 4294967297", BAD),
    ] {
        assert_eq!(rt; outcome(rt.alloc(), script)?.as_str(), want, "{script:?}");
    }
    Ok(())
}

#[test]
fn a_lane_is_1_to_8_and_a_colon_before_the_command(rt: HostRuntime) -> Result<(), Fail> {
    for (script, want) in [
        (b"sync".as_slice(), ONE),
        (b"1: sync", "[ 1:1 ]"),
        (b"8: sync", "[ 8:1 ]"),
        (b"2: mkdir /p", "[ 2:1 ]"),
        (b"3: fill /p 0 1 00", "[ 3:1 ]"),
        (b"ls 1:", ONE),
        (b"4: ls 4:", "[ 4:1 ]"),
        (b"0: sync", BAD),
        (b"9: sync", BAD),
        (b"10: sync", BAD),
        (b"01: sync", BAD),
        (b"+1: sync", BAD),
        (b"1 : sync", BAD),
        (b"1:sync", BAD),
        (b"1; sync", BAD),
        (b": sync", BAD),
        (b"1 sync", BAD),
        (b"1:", BAD),
        (b"1: ", BAD),
        (b"1: 1: sync", BAD),
        (b"1: 2: sync", BAD),
        (b"1: frob", BAD),
        (b"1: # sync", BAD),
    ] {
        assert_eq!(rt; outcome(rt.alloc(), script)?.as_str(), want, "{script:?}");
    }
    Ok(())
}

#[test]
fn words_are_bytes_with_one_blank_between_two(rt: HostRuntime) -> Result<(), Fail> {
    for (script, want) in [
        (b"ls /a".as_slice(), ONE),
        (b"ls a", ONE),
        (b"ls !", ONE),
        (b"ls ~", ONE),
        (b"ls #", ONE),
        (b"ls /\x80", ONE),
        (b"ls /\xff", ONE),
        (b"ls /\x7f", BAD),
        (b"ls /\x1f", BAD),
        (b"ls /\0", BAD),
        (b"ls\t/a", BAD),
        (b"ls /a\t", BAD),
        (b"ls  /a", BAD),
        (b" ls /a", BAD),
        (b"ls /a ", BAD),
        (b"ls ", BAD),
        (b" ", BAD),
        (b"\t", BAD),
        (b"\r", BAD),
        (b"sync\r", BAD),
        (b"sync \r", BAD),
    ] {
        assert_eq!(rt; outcome(rt.alloc(), script)?.as_str(), want, "{script:?}");
    }
    Ok(())
}

#[test]
fn blocks_remarks_and_the_first_bad_line(rt: HostRuntime) -> Result<(), Fail> {
    for (script, want) in [
        // Lanes in a row make one block.
        (b"".as_slice(), ""),
        (b"\n", ""),
        (b"\n\n# sync\n", ""),
        (b"sync", ONE),
        (b"sync\n", ONE),
        (b"sync\ndf", "[ 0:1 ][ 0:2 ]"),
        (b"sync\ndf\n", "[ 0:1 ][ 0:2 ]"),
        (b"\nsync\n\n\ndf\n\n", "[ 0:2 ][ 0:5 ]"),
        (b"1: sync\n2: sync\n", "[ 1:1 2:2 ]"),
        (b"1: sync\n2: sync\n1: df", "[ 1:1 2:2 1:3 ]"),
        (b"1: sync\n1: sync\n", "[ 1:1 1:2 ]"),
        (b"1: sync\n\n2: sync\n", "[ 1:1 ][ 2:3 ]"),
        (b"1: sync\n#\n2: sync\n", "[ 1:1 ][ 2:3 ]"),
        (b"1: sync\n# 2: sync\n\n2: sync\n", "[ 1:1 ][ 2:4 ]"),
        (b"1: sync\nsync\n2: sync\n", "[ 1:1 ][ 0:2 ][ 2:3 ]"),
        (
            b"sync\n1: sync\n2: sync\nsync\nsync\n3: sync",
            "[ 0:1 ][ 1:2 2:3 ][ 0:4 ][ 0:5 ][ 3:6 ]",
        ),
        (b"#\n1: sync\n2: df\n\n\n", "[ 1:2 2:3 ]"),
        // A remark is empty or begins with a number sign.
        (b"#", ""),
        (b"#sync", ""),
        (b"#  \t\x7f\x80\r", ""),
        (b"##\n#\n", ""),
        (b" #", BAD),
        (b"sync # now", BAD),
        (b"\n ", "bad line 2"),
        // The first bad line is told, with all lines counted.
        (b"mkdir /a\nfrob /b\n", "bad line 2"),
        (b"frob\nfrob\n", BAD),
        (b"sync\nfrob\nbar\nsync", "bad line 2"),
        (b"# a\n\nfrob\nsync", "bad line 3"),
        (b"\n\n\nfrob", "bad line 4"),
        (b"1: sync\n2: sync\n9: sync\n", "bad line 3"),
        (b"sync\nsync\nsync ", "bad line 3"),
    ] {
        assert_eq!(rt; outcome(rt.alloc(), script)?.as_str(), want, "{script:?}");
    }
    Ok(())
}

#[test]
fn what_is_no_form_is_a_bad_line(rt: HostRuntime) -> Result<(), Fail> {
    for (script, want) in [
        (b"frob".as_slice(), BAD),
        (b"frob /b", BAD),
        (b"Mkdir /a", BAD),
        (b"mkdi /a", BAD),
        (b"mkdirs /a", BAD),
        (b"/a", BAD),
        (b"mkdir", BAD),
        (b"mkdir /a /b", BAD),
        (b"touch", BAD),
        (b"touch /a /b", BAD),
        (b"symlink t", BAD),
        (b"symlink t /a /b", BAD),
        (b"snapshot", BAD),
        (b"snapshot /a /b", BAD),
        (b"ln /a", BAD),
        (b"ln /a /b /c", BAD),
        (b"mv /a", BAD),
        (b"mv /a /b /c", BAD),
        (b"write /a 0", BAD),
        (b"write /a 0 00 00", BAD),
        (b"fill /a 0 1", BAD),
        (b"fill /a 0 1 00 00", BAD),
        (b"truncate /a", BAD),
        (b"truncate /a 0 0", BAD),
        (b"rm", BAD),
        (b"rm /a /b", BAD),
        (b"rmdir", BAD),
        (b"rmdir /a /b", BAD),
        (b"ls", BAD),
        (b"ls /a /b", BAD),
        (b"cat /a 0", BAD),
    ] {
        assert_eq!(rt; outcome(rt.alloc(), script)?.as_str(), want, "{script:?}");
    }
    Ok(())
}

#[test]
fn what_is_no_form_of_later_commands_is_a_bad_line(rt: HostRuntime) -> Result<(), Fail> {
    for (script, want) in [
        (b"cat /a 0 1 1".as_slice(), BAD),
        (b"stat", BAD),
        (b"stat /a /b", BAD),
        (b"readlink", BAD),
        (b"readlink /a /b", BAD),
        (b"sync /a", BAD),
        (b"synctid /a", BAD),
        (b"prune", BAD),
        (b"prune /a /b", BAD),
        (b"prune-everything", BAD),
        (b"prune-everything /a /b", BAD),
        (b"reblock 1 1", BAD),
        (b"pfs-master /a", BAD),
        (b"pfs-master /a 0123456789abcdef 1", BAD),
        (b"pfs-slave /a", BAD),
        (b"pfs-slave /a 0123456789abcdef 1", BAD),
        (b"pfs-status", BAD),
        (b"pfs-status /a /b", BAD),
        (b"pfs-upgrade", BAD),
        (b"pfs-upgrade /a /b", BAD),
        (b"mirror-read /a", BAD),
        (b"mirror-read /a 0x0123456789abcdef 1", BAD),
        (b"mirror-write", BAD),
        (b"mirror-write /a /b", BAD),
        (b"mirror-copy /a", BAD),
        (b"mirror-copy /a /b 1 1", BAD),
        (b"df /a", BAD),
        (b"progress 1", BAD),
        (b"end", BAD),
        (b"end 0x0123456789abcdef", BAD),
        (b"1: fill /a 0 1 00 00", BAD),
        (b"1: fill /a 0 1", BAD),
    ] {
        assert_eq!(rt; outcome(rt.alloc(), script)?.as_str(), want, "{script:?}");
    }
    Ok(())
}

// A front, a text so many times, and what follows.
fn repeated(
    alloc: Global,
    front: &str,
    text: &str,
    count: usize,
    end: &str,
) -> Result<String, AllocError> {
    let mut script = String::from_str(alloc, front)?;
    script.push_str(text.repeat(alloc, count)?.as_str())?;
    script.push_str(end)?;
    Ok(script)
}

#[test]
fn lines_words_and_scripts_have_their_greatest_lengths(rt: HostRuntime) -> Result<(), Fail> {
    for (front, text, count, end, want) in [
        // Hex and targets have a longest and a shortest.
        ("write /p 0 ", "a", 0, "", BAD),
        ("write /p 0 ", "a", 1, "", BAD),
        ("write /p 0 ", "a", 2, "", ONE),
        ("write /p 0 ", "a", 131_071, "", BAD),
        ("write /p 0 ", "a", 131_072, "", ONE),
        ("write /p 0 ", "a", 131_073, "", BAD),
        ("write /p 0 ", "a", 131_074, "", BAD),
        ("symlink ", "a", 0, " /p", BAD),
        ("symlink ", "a", 1, " /p", ONE),
        ("symlink ", "a", 1_023, " /p", ONE),
        ("symlink ", "a", 1_024, " /p", BAD),
        ("mkdir /", "a", 65_536, "", ONE),
        // A script has 65,536 lines at most.
        ("", "\n", 65_536, "", ""),
        ("", "\n", 65_537, "", "too long"),
        ("", "#\n", 65_535, "#", ""),
        ("", "#\n", 65_536, "#", "too long"),
        ("", "#\n", 65_535, "sync", "[ 0:65536 ]"),
        ("", "#\n", 65_536, "sync", "too long"),
        ("", "#\n", 65_535, "frob", "bad line 65536"),
        ("", "frob\n", 65_536, "", BAD),
        ("", "frob\n", 65_537, "", "too long"),
        ("", "frob\n", 65_536, "frob", "too long"),
    ] {
        let script = repeated(rt.alloc(), front, text, count, end)?;
        assert_eq!(rt;
            outcome(rt.alloc(), script.as_bytes())?.as_str(),
            want,
            "{front:?}, {count} times {text:?}, {end:?}"
        );
    }
    // A script has 67,108,864 bytes at most.
    for (first, size, want) in [
        (b'#', 67_108_864, ""),
        (b'#', 67_108_865, "too long"),
        (b'x', 67_108_864, BAD),
        (b'x', 67_108_865, "too long"),
    ] {
        let mut script = vec![in rt.alloc(); b'x'; size]?;
        if let Some(byte) = script.first_mut() {
            *byte = first;
        }
        assert_eq!(rt;
            outcome(rt.alloc(), &script)?.as_str(),
            want,
            "{size} bytes"
        );
    }
    let script = read(rt.alloc(), "sync\n".repeat(rt.alloc(), 65_536)?.as_bytes())
        .ok()
        .ok_or("full")?;
    assert_eq!(rt; script.blocks().len(), 65_536);
    Ok(())
}

#[test]
fn gives_the_bytes_of_the_first_lines(rt: HostRuntime) {
    for (script, count, want) in [
        (b"".as_slice(), 0, b"".as_slice()),
        (b"", 2, b""),
        (b"a\nb\nc", 0, b""),
        (b"a\nb\nc", 1, b"a\n"),
        (b"a\nb\nc", 2, b"a\nb\n"),
        (b"a\nb\nc", 3, b"a\nb\nc"),
        (b"a\nb\nc", 4, b"a\nb\nc"),
        (b"a\nb\n", 2, b"a\nb\n"),
        (b"\n\nb", 2, b"\n\n"),
        (b"ab", 1, b"ab"),
    ] {
        assert!(rt; first_lines(script, count) == want, "{count} of {script:?}");
    }
}

#[test]
fn blocks_and_lines_are_handed_on_by_value(rt: HostRuntime) -> Result<(), Fail> {
    let script = read(rt.alloc(), b"1: sync\n2: df\nsync")
        .ok()
        .ok_or("three lines")?;
    let mut blocks = script.into_blocks();
    assert_eq!(rt; blocks.len(), 2);
    let last = blocks.pop().ok_or("two blocks")?;
    let first = blocks.pop().ok_or("two blocks")?;
    assert_eq!(rt; last.lines().len(), 1);
    let lines = first.into_lines();
    assert_eq!(rt; lines.len(), 2);
    let mut again = Vec::new(rt.alloc());
    again.push(Block::of(lines))?;
    again.push(last)?;
    let script = Script::of(again);
    assert_eq!(rt; script.blocks().len(), 2);
    Ok(())
}
