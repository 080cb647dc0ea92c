// The forms of the commands, by the number of their words.
ghost use Rattle.std.specs.Prelude.{[], ◌∷◌, IfOk};
ghost use Rattle.hm_script.specs.Texts.{texts};
ghost use Rattle.hm_script.specs.Commands.{FindsCommand};

use crate::file_forms::{cat, fill, ln, mv, symlink, truncate, write};
use crate::path_form::PathForm;
use crate::pfs_forms::{
    WHOLE_FILL, limited_mirror_copy, mirror_copy, mirror_read, pfs_master, pfs_slave, reblock,
};
use crate::words::{copy_of, is};
use hm_model::Command;
use hm_types::NoMemory;
use std::alloc::Global;

/// The command that the words of a line give, without its lane.
pub(crate) fn command_of(alloc: Global, words: &[&[u8]]) -> Result<Option<Command>, NoMemory>
    ensures { IfOk result (FindsCommand (texts words.now)) }
{
    match words {
        [name] => Ok(of_name(name)),
        [name, value] => of_one(alloc, name, value),
        [name, first, second] => of_two(alloc, name, first, second),
        [name, first, second, third] => of_three(alloc, name, first, second, third),
        [name, first, second, third, fourth] => {
            of_four(alloc, name, first, second, third, fourth)
        }
        _ => Ok(None),
    }
}

fn of_name(name: &[u8]) -> Option<Command>
    ensures { FindsCommand (name.now ∷ []) result }
{
    if is(name, b"sync") {
        Some(Command::Sync)
    } else if is(name, b"synctid") {
        Some(Command::Synctid)
    } else if is(name, b"reblock") {
        Some(Command::Reblock { fill: WHOLE_FILL })
    } else if is(name, b"df") {
        Some(Command::Df)
    } else if is(name, b"progress") {
        Some(Command::Progress)
    } else {
        None
    }
}

fn of_one(alloc: Global, name: &[u8], value: &[u8]) -> Result<Option<Command>, NoMemory>
    ensures { IfOk result (FindsCommand (name.now ∷ value.now ∷ [])) }
{
    if is(name, b"reblock") {
        return Ok(reblock(value));
    }
    let Some(form) = PathForm::of(name) else {
        return Ok(None);
    };
    let path = copy_of(alloc, value)?;
    Ok(Some(form.command(path)))
}

fn of_two(
    alloc: Global,
    name: &[u8],
    first: &[u8],
    second: &[u8],
) -> Result<Option<Command>, NoMemory>
    ensures { IfOk result (FindsCommand (name.now ∷ first.now ∷ second.now ∷ [])) }
{
    if is(name, b"symlink") {
        symlink(alloc, first, second)
    } else if is(name, b"ln") {
        ln(alloc, first, second)
    } else if is(name, b"mv") {
        mv(alloc, first, second)
    } else if is(name, b"truncate") {
        truncate(alloc, first, second)
    } else if is(name, b"pfs-master") {
        pfs_master(alloc, first, second)
    } else if is(name, b"pfs-slave") {
        pfs_slave(alloc, first, second)
    } else if is(name, b"mirror-read") {
        mirror_read(alloc, first, second)
    } else if is(name, b"mirror-copy") {
        mirror_copy(alloc, first, second)
    } else {
        Ok(None)
    }
}

fn of_three(
    alloc: Global,
    name: &[u8],
    first: &[u8],
    second: &[u8],
    third: &[u8],
) -> Result<Option<Command>, NoMemory>
    ensures { IfOk result (FindsCommand (name.now ∷ first.now ∷ second.now ∷ third.now ∷ [])) }
{
    if is(name, b"write") {
        write(alloc, first, second, third)
    } else if is(name, b"cat") {
        cat(alloc, first, second, third)
    } else if is(name, b"mirror-copy") {
        limited_mirror_copy(alloc, first, second, third)
    } else {
        Ok(None)
    }
}

fn of_four(
    alloc: Global,
    name: &[u8],
    first: &[u8],
    second: &[u8],
    third: &[u8],
    fourth: &[u8],
) -> Result<Option<Command>, NoMemory>
    ensures { IfOk result
        (FindsCommand (name.now ∷ first.now ∷ second.now ∷ third.now ∷ fourth.now ∷ [])) }
{
    if is(name, b"fill") {
        fill(alloc, first, second, third, fourth)
    } else {
        Ok(None)
    }
}
