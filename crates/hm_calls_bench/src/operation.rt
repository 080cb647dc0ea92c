// The calls of a job.
ghost use Rattle.std.specs.Prelude.{◌≡◌, IfOk};
ghost use Rattle.hm_calls.specs.Commands.{IsOnTrees};
ghost use Rattle.hm_model.specs.Forms.{IsInRange};

use hm_model::Command;
use hm_types::{Fault, Id, Text};
use std::alloc::Global;

/// Which calls are made of a volume that has nothing but its root.
#[derive(Clone, Copy, Debug, PartialEq, Eq)]
pub enum Operation {
    /// Files are made, each by a name of its own.
    Touch,
    /// Directories are.
    Mkdir,
    /// One file is made, and gets one further name after another: each call makes a new version of its
    /// inode.
    Relink,
    /// Files are made, and then each of them is asked for.
    Stat,
    /// Files are made, and then listed.
    Ls,
    /// The file of `Relink` is asked for.
    Now,
    /// It is asked for as it was in the midst of its past.
    Past,
}

// The id of the first call on a fresh volume.
const FIRST_ID: u64 = 3;

// How often a listing, and one file, are asked for.
const LISTINGS: u32 = 10;

const LOOKS: u32 = 20_000;

impl Operation {
    /// The operation with this name.
    pub fn of(name: &str) -> Option<Operation> {
        match name {
            "touch" => Some(Operation::Touch),
            "mkdir" => Some(Operation::Mkdir),
            "relink" => Some(Operation::Relink),
            "stat" => Some(Operation::Stat),
            "ls" => Some(Operation::Ls),
            "now" => Some(Operation::Now),
            "past" => Some(Operation::Past),
            _ => None,
        }
    }

    /// The operation whose calls come before its own, if there is one.
    pub fn before(self) -> Option<Operation> {
        match self {
            Operation::Touch | Operation::Mkdir | Operation::Relink => None,
            Operation::Stat | Operation::Ls => Some(Operation::Touch),
            Operation::Now | Operation::Past => Some(Operation::Relink),
        }
    }

    /// How many calls it has.
    pub fn calls(self, names: u32) -> u32 {
        match self {
            Operation::Touch | Operation::Mkdir | Operation::Relink | Operation::Stat => names,
            Operation::Ls => LISTINGS,
            Operation::Now | Operation::Past => LOOKS,
        }
    }

    /// The call that comes after so many of its own.
    pub fn command(self, alloc: Global, before: u32, names: u32) -> Result<Command, Fault>
        ensures { IfOk result (λ command. IsOnTrees command × IsInRange command) }
    {
        match self {
            Operation::Touch => Ok(Command::Touch {
                path: numbered(alloc, before)?,
            }),
            Operation::Mkdir => Ok(Command::Mkdir {
                path: numbered(alloc, before)?,
            }),
            Operation::Stat => Ok(Command::Stat {
                path: numbered(alloc, before)?,
            }),
            Operation::Relink => relink(alloc, before),
            Operation::Ls => Ok(Command::Ls {
                path: text(alloc, "/")?,
            }),
            Operation::Now => Ok(Command::Stat {
                path: text(alloc, "/f")?,
            }),
            Operation::Past => {
                let middle = Id(FIRST_ID + u64::from(names / 2));
                Ok(Command::Stat {
                    path: text(alloc, &format!(in alloc; "/@@{middle}/f")?)?,
                })
            }
        }
    }
}

fn relink(alloc: Global, before: u32) -> Result<Command, Fault>
    ensures { IfOk result (λ command. IsOnTrees command × IsInRange command) }
{
    if before == 0 {
        return Ok(Command::Touch {
            path: text(alloc, "/f")?,
        });
    }
    Ok(Command::Ln {
        old: text(alloc, "/f")?,
        new: text(alloc, &format!(in alloc; "/g{before}")?)?,
    })
}

// The path of a file of its own.
fn numbered(alloc: Global, number: u32) -> Result<Text, Fault> {
    text(alloc, &format!(in alloc; "/f{number}")?)
}

fn text(alloc: Global, word: &str) -> Result<Text, Fault> {
    Ok(Text::of(Vec::from_slice(alloc, word.as_bytes())?))
}
