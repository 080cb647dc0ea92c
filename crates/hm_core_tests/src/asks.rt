// The calls of the tests, as plain data.
ghost use Rattle.std.specs.Prelude.{IfOk};
ghost use Rattle.hm_core.specs.Served.{IsAsked};

use hm_model::{Command, Reply};
use hm_types::{Bytes, NoMemory, Text};
use std::alloc::Global;

// A call, of which each command is made anew. A number names a file in the root.
#[derive(Clone, Copy, Debug)]
pub enum Ask {
    Touch(u32),
    Mkdir(u32),
    // Puts `abc` at its beginning.
    Write(u32),
    // Puts this byte into its first 20,000: a whole block, and a part of the next.
    Fill(u32, u8),
    // Puts this byte into its first ones, one more than it says.
    Grow(u32, u8),
    Truncate(u32, u64),
    // Its first nine bytes.
    Cat(u32),
    // As of an id, its bytes in this block of 16,384.
    BlockAt(u8, u32, u8),
    Stat(u32),
    Rm(u32),
    Ls,
    LsAt(u8),
    Df,
    Sync,
    Synctid,
}

impl Ask {
    pub fn command(self, alloc: Global) -> Result<Command, NoMemory>
        ensures { IfOk result IsAsked }
    {
        match self {
            Ask::Touch(file) => {
                let path = path(alloc, None, file)?;
                Ok(Command::Touch { path })
            }
            Ask::Mkdir(file) => {
                let path = path(alloc, None, file)?;
                Ok(Command::Mkdir { path })
            }
            Ask::Write(file) => {
                let path = path(alloc, None, file)?;
                let bytes = Bytes::of(Vec::from_slice(alloc, b"abc")?);
                Ok(Command::Write {
                    path,
                    offset: 0,
                    bytes,
                })
            }
            Ask::Fill(file, byte) => {
                let path = path(alloc, None, file)?;
                Ok(Command::Fill {
                    path,
                    offset: 0,
                    count: 20_000,
                    byte,
                })
            }
            Ask::Grow(file, byte) => {
                let path = path(alloc, None, file)?;
                Ok(Command::Fill {
                    path,
                    offset: 0,
                    count: 1 + u32::from(byte),
                    byte,
                })
            }
            Ask::Truncate(file, size) => {
                let path = path(alloc, None, file)?;
                Ok(Command::Truncate { path, size })
            }
            Ask::Cat(file) => {
                let path = path(alloc, None, file)?;
                Ok(Command::Cat {
                    path,
                    offset: 0,
                    count: 9,
                })
            }
            Ask::BlockAt(id, file, block) => {
                let path = path(alloc, Some(id), file)?;
                Ok(Command::Cat {
                    path,
                    offset: 16_384 * u64::from(block),
                    count: 16_384,
                })
            }
            Ask::Stat(file) => {
                let path = path(alloc, None, file)?;
                Ok(Command::Stat { path })
            }
            Ask::Rm(file) => {
                let path = path(alloc, None, file)?;
                Ok(Command::Rm { path })
            }
            Ask::Ls => {
                let path = root(alloc, None)?;
                Ok(Command::Ls {
                    path: Text::of(path),
                })
            }
            Ask::LsAt(id) => {
                let path = root(alloc, Some(id))?;
                Ok(Command::Ls {
                    path: Text::of(path),
                })
            }
            Ask::Df => Ok(Command::Df),
            Ask::Sync => Ok(Command::Sync),
            Ask::Synctid => Ok(Command::Synctid),
        }
    }
}

// The root, as of an id.
fn root(alloc: Global, id: Option<u8>) -> Result<Vec<u8>, NoMemory> {
    let mut bytes = Vec::new(alloc);
    bytes.push(b'/')?;
    if let Some(id) = id {
        bytes.extend_from_slice(b"@@0x00000000000000")?;
        bytes.push(digit(id / 16))?;
        bytes.push(digit(id % 16))?;
    }
    Ok(bytes)
}

// The hexadecimal digit of a number below 16.
fn digit(value: u8) -> u8 {
    match value % 16 {
        low if low < 10 => b'0' + low,
        high => b'a' + (high - 10),
    }
}

// The path of a file: four letters after the slash, which say its number.
fn path(alloc: Global, id: Option<u8>, file: u32) -> Result<Text, NoMemory> {
    let mut bytes = root(alloc, id)?;
    if id.is_some() {
        bytes.push(b'/')?;
    }
    let mut rest = file;
    for _ in 0..4 {
        bytes.push(b'a' + (rest % 26) as u8)?;
        rest /= 26;
    }
    Ok(Text::of(bytes))
}

// What a file has once `abc` was put into it.
pub fn content(alloc: Global) -> Result<Reply, NoMemory> {
    Ok(Reply::Content {
        bytes: Bytes::of(Vec::from_slice(alloc, b"abc")?),
    })
}
