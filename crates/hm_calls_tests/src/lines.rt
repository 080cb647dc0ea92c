// The lines that tests ask, as commands.
ghost use Rattle.std.specs.Prelude.{◌≡◌, ◌<◌, ◌^◌, IfOk};
ghost use Rattle.hm_model.specs.Forms.{Between, IsInRange};
ghost use Rattle.hm_calls.specs.Commands.{IsOnTrees};

use hm_model::Command;
use hm_types::{Bytes, MOST_CAT_BYTES, MOST_TARGET_BYTES, MOST_WRITE_BYTES, Text};
use std::alloc::Global;
use std::test::Fail;

fn text(alloc: Global, word: &str) -> Result<Text, Fail>
    ensures { IfOk result (λ text. text ≡ word.now) }
{
    Ok(Text::of(Vec::from_slice(alloc, word.as_bytes())?))
}

// The command of a line of one path word.
fn command_of_path(alloc: Global, name: &str, word: &str) -> Result<Command, Fail>
    ensures { IfOk result (λ command. IsOnTrees command × IsInRange command) }
{
    let path = text(alloc, word)?;
    match name {
        "mkdir" => Ok(Command::Mkdir { path }),
        "touch" => Ok(Command::Touch { path }),
        "snapshot" => Ok(Command::Snapshot { path }),
        "rm" => Ok(Command::Rm { path }),
        "rmdir" => Ok(Command::Rmdir { path }),
        "ls" => Ok(Command::Ls { path }),
        "stat" => Ok(Command::Stat { path }),
        "readlink" => Ok(Command::Readlink { path }),
        _ => Err("no command of one word")?,
    }
}

// The number that a word spells.
fn number(word: &str) -> Result<u64, Fail> {
    match word.parse::<u64>() {
        Ok(number) => Ok(number),
        Err(_) => Err("no number")?,
    }
}

// The count that a word spells, from 1 to a most.
fn count_of(word: &str, most: u32) -> Result<u32, Fail>
    ensures { IfOk result (Between 1 most) }
{
    let count = number(word)?;
    if count == 0 || count > u64::from(most) {
        return Err("no count")?;
    }
    Ok(count as u32)
}

// The command that puts the bytes of a word into a file, two hexadecimal digits each.
fn command_of_write(alloc: Global, path: Text, offset: u64, digits: &str) -> Result<Command, Fail>
    ensures { IfOk result (λ command. IsOnTrees command × IsInRange command) }
{
    let Ok(bytes) = hex::decode(alloc, digits.as_bytes()) else {
        return Err("no bytes")?;
    };
    if bytes.is_empty() || bytes.len() > MOST_WRITE_BYTES as usize {
        return Err("no bytes")?;
    }
    Ok(Command::Write {
        path,
        offset,
        bytes: Bytes::of(bytes),
    })
}

// The command that puts a byte into a file so often, by the two words.
fn command_of_fill(path: Text, offset: u64, words: &str) -> Result<Command, Fail>
    ensures { IfOk result (λ command. IsOnTrees command × IsInRange command) }
{
    let Some((count, byte)) = words.split_once(' ') else {
        return Err("no byte")?;
    };
    let count = count_of(count, MOST_WRITE_BYTES)?;
    let Ok(byte) = u8::from_str_radix(byte, 16) else {
        return Err("no byte")?;
    };
    Ok(Command::Fill {
        path,
        offset,
        count,
        byte,
    })
}

// The command of a line on the bytes of a file, by its words behind the path.
fn command_on_bytes(alloc: Global, name: &str, path: Text, words: &str) -> Result<Command, Fail>
    ensures { IfOk result (λ command. IsOnTrees command × IsInRange command) }
{
    if name == "truncate" {
        let size = number(words)?;
        return Ok(Command::Truncate { path, size });
    }
    let Some((offset, rest)) = words.split_once(' ') else {
        return Err("no offset")?;
    };
    let offset = number(offset)?;
    match name {
        "write" => command_of_write(alloc, path, offset, rest),
        "fill" => command_of_fill(path, offset, rest),
        _ => {
            let count = count_of(rest, MOST_CAT_BYTES)?;
            Ok(Command::Cat {
                path,
                offset,
                count,
            })
        }
    }
}

/// The command of a line on names, or on the bytes of a file.
pub(crate) fn command_of(alloc: Global, line: &str) -> Result<Command, Fail>
    ensures { IfOk result (λ command. IsOnTrees command × IsInRange command) }
{
    let Some((name, words)) = line.split_once(' ') else {
        return Err("no word")?;
    };
    let Some((first, second)) = words.split_once(' ') else {
        return command_of_path(alloc, name, words);
    };
    match name {
        "write" | "fill" | "truncate" | "cat" => {
            return command_on_bytes(alloc, name, text(alloc, first)?, second);
        }
        _ => {}
    }
    if first.is_empty() || first.len() > MOST_TARGET_BYTES {
        return Err("no target")?;
    }
    let (first, second) = (text(alloc, first)?, text(alloc, second)?);
    match name {
        "symlink" => Ok(Command::Symlink {
            target: first,
            path: second,
        }),
        "ln" => Ok(Command::Ln {
            old: first,
            new: second,
        }),
        "mv" => Ok(Command::Mv {
            old: first,
            new: second,
        }),
        _ => Err("no command of two words")?,
    }
}
