// The forms of links and of file bytes, each by its words after the name.
ghost use Rattle.std.specs.Prelude.{[], ◌∷◌, codes, IfOk};
ghost use Rattle.hm_script.specs.Values.{ReadsBytes};
ghost use Rattle.hm_script.specs.Commands.{FindsCommand};

use crate::number::{read_hex_number, read_number, read_number_between};
use crate::words::copy_of;
use hex::FromHexError;
use hm_model::Command;
use hm_types::{Bytes, MOST_CAT_BYTES, MOST_TARGET_BYTES, MOST_WRITE_BYTES, NoMemory};
use std::alloc::Global;

pub(crate) fn symlink(
    alloc: Global,
    target: &[u8],
    path: &[u8],
) -> Result<Option<Command>, NoMemory>
    ensures { IfOk result (FindsCommand (codes "symlink" ∷ target.now ∷ path.now ∷ [])) }
{
    if target.is_empty() || target.len() > MOST_TARGET_BYTES {
        return Ok(None);
    }
    let target = copy_of(alloc, target)?;
    let path = copy_of(alloc, path)?;
    Ok(Some(Command::Symlink { target, path }))
}

pub(crate) fn ln(alloc: Global, old: &[u8], new: &[u8]) -> Result<Option<Command>, NoMemory>
    ensures { IfOk result (FindsCommand (codes "ln" ∷ old.now ∷ new.now ∷ [])) }
{
    let old = copy_of(alloc, old)?;
    let new = copy_of(alloc, new)?;
    Ok(Some(Command::Ln { old, new }))
}

pub(crate) fn mv(alloc: Global, old: &[u8], new: &[u8]) -> Result<Option<Command>, NoMemory>
    ensures { IfOk result (FindsCommand (codes "mv" ∷ old.now ∷ new.now ∷ [])) }
{
    let old = copy_of(alloc, old)?;
    let new = copy_of(alloc, new)?;
    Ok(Some(Command::Mv { old, new }))
}

pub(crate) fn write(
    alloc: Global,
    path: &[u8],
    offset: &[u8],
    digits: &[u8],
) -> Result<Option<Command>, NoMemory>
    ensures { IfOk result (FindsCommand (codes "write" ∷ path.now ∷ offset.now ∷ digits.now ∷ [])) }
{
    let Some(offset) = read_number(offset) else {
        return Ok(None);
    };
    let Some(bytes) = read_bytes(alloc, digits)? else {
        return Ok(None);
    };
    let path = copy_of(alloc, path)?;
    Ok(Some(Command::Write {
        path,
        offset,
        bytes,
    }))
}

// The bytes that a word spells, two hexadecimal digits each, if they are as many as a `write` puts.
fn read_bytes(alloc: Global, digits: &[u8]) -> Result<Option<Bytes>, NoMemory>
    ensures { IfOk result (ReadsBytes digits.now) }
{
    let count = digits.len() / 2;
    if count == 0 || count > MOST_WRITE_BYTES as usize {
        return Ok(None);
    }
    match hex::decode(alloc, digits) {
        Ok(bytes) => Ok(Some(Bytes::of(bytes))),
        Err(FromHexError::OutOfMemory) => Err(NoMemory),
        Err(_) => Ok(None),
    }
}

pub(crate) fn fill(
    alloc: Global,
    path: &[u8],
    offset: &[u8],
    count: &[u8],
    byte: &[u8],
) -> Result<Option<Command>, NoMemory>
    ensures { IfOk result
        (FindsCommand (codes "fill" ∷ path.now ∷ offset.now ∷ count.now ∷ byte.now ∷ [])) }
{
    let Some(offset) = read_number(offset) else {
        return Ok(None);
    };
    let Some(count) = read_number_between(count, 1, u64::from(MOST_WRITE_BYTES)) else {
        return Ok(None);
    };
    let Some(byte) = read_hex_number(byte, 2) else {
        return Ok(None);
    };
    Ok(Some(Command::Fill {
        path: copy_of(alloc, path)?,
        offset,
        count: count as u32,
        byte: byte as u8,
    }))
}

pub(crate) fn truncate(alloc: Global, path: &[u8], size: &[u8]) -> Result<Option<Command>, NoMemory>
    ensures { IfOk result (FindsCommand (codes "truncate" ∷ path.now ∷ size.now ∷ [])) }
{
    let Some(size) = read_number(size) else {
        return Ok(None);
    };
    let path = copy_of(alloc, path)?;
    Ok(Some(Command::Truncate { path, size }))
}

pub(crate) fn cat(
    alloc: Global,
    path: &[u8],
    offset: &[u8],
    count: &[u8],
) -> Result<Option<Command>, NoMemory>
    ensures { IfOk result (FindsCommand (codes "cat" ∷ path.now ∷ offset.now ∷ count.now ∷ [])) }
{
    let Some(offset) = read_number(offset) else {
        return Ok(None);
    };
    let Some(count) = read_number_between(count, 1, u64::from(MOST_CAT_BYTES)) else {
        return Ok(None);
    };
    Ok(Some(Command::Cat {
        path: copy_of(alloc, path)?,
        offset,
        count: count as u32,
    }))
}
