// The lines of a script, as calls.
ghost use Rattle.std.specs.Prelude.{◌≡◌, IfOk};
ghost use Rattle.hm_model.specs.Forms.{Between};
ghost use Rattle.hm_core.specs.Served.{IsAsked};

use hm_model::Command;
use hm_types::{Bytes, MOST_CAT_BYTES, MOST_TARGET_BYTES, MOST_WRITE_BYTES, NoMemory, Text};
use std::alloc::Global;
use std::process::Abort;

// A text in which each `#` with hexadecimal digits stands for the id of these: `0x` and 16 digits.
pub fn spelled(alloc: Global, short: &str) -> Result<Vec<u8>, NoMemory> {
    let bytes = short.as_bytes();
    let mut text = Vec::new(alloc);
    for (place, byte) in bytes.iter().enumerate() {
        if *byte == b'#' {
            text.extend_from_slice(b"0x")?;
            for _ in digits_after(bytes, place)..16 {
                text.push(b'0')?;
            }
        } else {
            text.push(*byte)?;
        }
    }
    Ok(text)
}

// How many hexadecimal digits stand behind a place of a text.
fn digits_after(text: &[u8], place: usize) -> usize {
    let mut count: usize = 0;
    for byte in text.iter().skip(place.saturating_add(1)) {
        if !byte.is_ascii_hexdigit() {
            return count;
        }
        count = count.saturating_add(1);
    }
    count
}

fn text(alloc: Global, word: &str) -> Result<Text, NoMemory>
    ensures { IfOk result (λ text. text ≡ word.now) }
{
    Ok(Text::of(Vec::from_slice(alloc, word.as_bytes())?))
}

// The call of a line of one path word.
fn call_of_path(rt: &impl Abort, alloc: Global, name: &str, word: &str) -> Result<Command, NoMemory>
    ensures { IfOk result IsAsked }
{
    let path = text(alloc, word)?;
    match name {
        "mkdir" => Ok(Command::Mkdir { path }),
        "touch" => Ok(Command::Touch { path }),
        "snapshot" => Ok(Command::Snapshot { path }),
        "rm" => Ok(Command::Rm { path }),
        "ls" => Ok(Command::Ls { path }),
        "readlink" => Ok(Command::Readlink { path }),
        "prune" => Ok(Command::Prune { path }),
        "prune-everything" => Ok(Command::PruneAll { path }),
        "pfs-status" => Ok(Command::PfsStatus { path }),
        "reblock" => Ok(Command::Reblock {
            fill: fill_share(rt, word),
        }),
        _ => panic!(rt; "{name} {word}"),
    }
}

// The number that a word spells.
fn number(rt: &impl Abort, word: &str) -> u64 {
    match word.parse::<u64>() {
        Ok(number) => number,
        Err(_) => panic!(rt; "{word}"),
    }
}

// The fill of a reblock that a word spells.
fn fill_share(rt: &impl Abort, word: &str) -> u8
    ensures { Between 1 100 result }
{
    match word.parse::<u8>() {
        Ok(fill) if 1 <= fill && fill <= 100 => fill,
        _ => panic!(rt; "{word}"),
    }
}

// The count that a word spells, from 1 to a most.
fn count_of(rt: &impl Abort, word: &str, most: u32) -> u32
    ensures { Between 1 most result }
{
    let count = number(rt, word);
    if count == 0 || count > u64::from(most) {
        panic!(rt; "{word}");
    }
    count as u32
}

fn byte_of(rt: &impl Abort, word: &str) -> u8 {
    match u8::from_str_radix(word, 16) {
        Ok(byte) => byte,
        Err(_) => panic!(rt; "{word}"),
    }
}

// The call that puts a byte into a file so often, by its words.
fn fill_of(rt: &impl Abort, path: Text, offset: u64, words: &str) -> Command
    ensures { IsAsked result }
{
    let Some((count, byte)) = words.split_once(' ') else {
        panic!(rt; "{words}");
    };
    Command::Fill {
        path,
        offset,
        count: count_of(rt, count, MOST_WRITE_BYTES),
        byte: byte_of(rt, byte),
    }
}

// The call of a line on the bytes of a file, by its words behind the path.
fn call_on_bytes(
    rt: &impl Abort,
    alloc: Global,
    name: &str,
    path: Text,
    words: &str,
) -> Result<Command, NoMemory>
    ensures { IfOk result IsAsked }
{
    let Some((offset, rest)) = words.split_once(' ') else {
        panic!(rt; "{name} {words}");
    };
    let offset = number(rt, offset);
    match name {
        // One byte is put.
        "write" => Ok(Command::Write {
            path,
            offset,
            bytes: Bytes::of(vec![in alloc; byte_of(rt, rest)]?),
        }),
        "fill" => Ok(fill_of(rt, path, offset, rest)),
        _ => Ok(Command::Cat {
            path,
            offset,
            count: count_of(rt, rest, MOST_CAT_BYTES),
        }),
    }
}

// The call of a line of several words.
fn call_of_words(
    rt: &impl Abort,
    alloc: Global,
    name: &str,
    first: &str,
    words: &str,
) -> Result<Command, NoMemory>
    ensures { IfOk result IsAsked }
{
    match name {
        "symlink" => {
            if first.is_empty() || first.len() > MOST_TARGET_BYTES {
                panic!(rt; "{first}");
            }
            Ok(Command::Symlink {
                target: text(alloc, first)?,
                path: text(alloc, words)?,
            })
        }
        "pfs-master" => Ok(Command::PfsMaster {
            path: text(alloc, first)?,
            shared: number(rt, words),
        }),
        "pfs-slave" => Ok(Command::PfsSlave {
            path: text(alloc, first)?,
            shared: number(rt, words),
        }),
        "write" | "fill" | "cat" => call_on_bytes(rt, alloc, name, text(alloc, first)?, words),
        _ => panic!(rt; "{name} {first} {words}"),
    }
}

// The call of a line. The shared id of a PFS is given in decimal digits here.
pub fn call_of(rt: &impl Abort, alloc: Global, line: &str) -> Result<Command, NoMemory>
    ensures { IfOk result IsAsked }
{
    match line.split_once(' ') {
        None => match line {
            "df" => Ok(Command::Df),
            "sync" => Ok(Command::Sync),
            "reblock" => Ok(Command::Reblock { fill: 100 }),
            _ => panic!(rt; "{line}"),
        },
        Some((name, words)) => match words.split_once(' ') {
            None => call_of_path(rt, alloc, name, words),
            Some((first, rest)) => call_of_words(rt, alloc, name, first, rest),
        },
    }
}
