// Why a line is none that a run answers, for people to read: no contract speaks of it.

use hm_script::first_lines;

/// The first line that a run does not answer.
#[derive(Clone, Copy, Debug, PartialEq, Eq)]
pub struct BadLine {
    /// Its number, counted from 1.
    pub number: u32,
    /// What is wrong with it.
    pub why: Why,
}

/// What is wrong with a line.
#[derive(Clone, Copy, Debug, PartialEq, Eq)]
pub enum Why {
    /// It ends in a carriage return, which is a byte of its last word.
    CarriageReturn,
    /// It begins with a lane.
    Lane,
    /// It is of a call that nothing serves yet.
    Planned,
    /// The words after the name of its call are none that this takes.
    Words,
    /// Its first word is no name of a call.
    Name,
}

// The calls that are served, and those that are planned.
const SERVED: [&[u8]; 24] = [
    b"mkdir",
    b"touch",
    b"symlink",
    b"snapshot",
    b"ln",
    b"mv",
    b"rm",
    b"rmdir",
    b"ls",
    b"stat",
    b"readlink",
    b"write",
    b"fill",
    b"truncate",
    b"cat",
    b"df",
    b"sync",
    b"synctid",
    b"prune",
    b"prune-everything",
    b"reblock",
    b"pfs-master",
    b"pfs-slave",
    b"pfs-status",
];

const PLANNED: [&[u8]; 5] = [
    b"pfs-upgrade",
    b"mirror-read",
    b"mirror-write",
    b"mirror-copy",
    b"progress",
];

impl Why {
    /// What is wrong with the line of this number, of a script in which it is no line that a run answers.
    pub(crate) fn of_line(script: &[u8], number: u32) -> Why {
        Why::of(last_text(first_lines(script, number)))
    }

    fn of(text: &[u8]) -> Why {
        let name = first_word(text);
        if text.ends_with(b"\r") {
            Why::CarriageReturn
        } else if is_lane(name) {
            Why::Lane
        } else if PLANNED.contains(&name) {
            Why::Planned
        } else if SERVED.contains(&name) {
            Why::Words
        } else {
            Why::Name
        }
    }

    /// The words that say so.
    pub(crate) fn text(self) -> &'static str {
        match self {
            Why::CarriageReturn => "ends in a carriage return",
            Why::Lane => "begins with a lane, and no run has lanes yet",
            Why::Planned => "is of a call that is not served yet",
            Why::Words => "has words that this call does not take, or a value out of its range",
            Why::Name => "begins with no call's name",
        }
    }
}

// Whether a word puts its line into a lane: a number from 1 to 8, and a colon.
fn is_lane(word: &[u8]) -> bool {
    match word {
        [number, b':'] => b'1' <= *number && *number <= b'8',
        _ => false,
    }
}

// The last line of some lines, without its line feed.
fn last_text(lines: &[u8]) -> &[u8] {
    let lines = lines.strip_suffix(b"\n").unwrap_or(lines);
    match lines.rsplit(|byte| *byte == b'\n').next() {
        Some(text) => text,
        None => lines,
    }
}

// The bytes up to the first space.
fn first_word(text: &[u8]) -> &[u8] {
    match text.split(|byte| *byte == b' ').next() {
        Some(word) => word,
        None => text,
    }
}

#[cfg(test)]
mod tests {
    use super::*;

    #[test]
    fn tells_what_is_wrong_with_a_line(rt: HostRuntime) {
        let script =
            b"mkdir /a\nls /\r\n1: ls /\npfs-upgrade /\nfill /a 0 0 61\nfrob /b\nreblock 0\nprune";
        let rows = [
            (2, Why::CarriageReturn),
            (3, Why::Lane),
            (4, Why::Planned),
            (5, Why::Words),
            (6, Why::Name),
            (7, Why::Words),
            (8, Why::Words),
        ];
        for (number, want) in rows {
            assert_eq!(rt; Why::of_line(script, number), want, "{number}");
        }
    }
}
