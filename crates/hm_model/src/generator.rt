// The lines that are run where no script is read, made from one number.
ghost use Rattle.std.specs.Prelude.{◌≡◌, ◌<◌, ◌≤◌, ℕ, IfOk, codes};
ghost use Rattle.hm_model.specs.Generator.{
  drawn_command,
  file_path,
  generated_command,
  generated_line,
  next_number,
  past_id,
  past_path,
  snapshot_path,
};

use crate::command::Command;
use crate::line::Line;
use hm_types::{NoMemory, Text};
use std::alloc::Global;

// How the numbers of lines follow one another.
const FACTOR: u64 = 6_364_136_223_846_793_005;

const STEP: u64 = 1_442_695_040_888_963_407;

/// The number that the next line is made from. The first line's is the one that follows the seed.
pub fn next_number(x: u64) -> u64
    ensures { result ≡ next_number x }
{
    x.wrapping_mul(FACTOR).wrapping_add(STEP)
}

/// The line with this number, from 1, which is made from `x`.
pub fn generated_line(alloc: Global, number: u32, x: u64) -> Result<Line, NoMemory>
    requires { 1 ≤ number }
    ensures { IfOk result (λ line. line ≡ generated_line number x) }
{
    Ok(Line {
        lane: 0,
        number,
        command: command(alloc, number, x)?,
    })
}

fn command(alloc: Global, number: u32, x: u64) -> Result<Command, NoMemory>
    requires { 1 ≤ number }
    ensures { IfOk result (λ command. command ≡ generated_command number x) }
{
    if number <= 64 {
        return Ok(Command::Touch {
            path: file(alloc, u64::from(number - 1))?,
        });
    }
    if number == 2_048 {
        return Ok(Command::Prune { path: root(alloc)? });
    }
    if number == 3_072 {
        return Ok(Command::Reblock { fill: 50 });
    }
    if number % 256 == 0 {
        return Ok(Command::Sync);
    }
    drawn(alloc, number, x / 8_589_934_592)
}

// The command that these bits draw.
fn drawn(alloc: Global, number: u32, bits: u64) -> Result<Command, NoMemory>
    requires number { 1 ≤ number }
    requires bits { bits < 2147483648 }
    ensures { IfOk result (λ command. command ≡ drawn_command number bits) }
{
    let kind = bits / 64 % 16;
    let offset = bits / 1_024 % 256 * 4_096;
    if kind == 12 {
        let id = 1 + bits / 1_024 % u64::from(number);
        return Ok(Command::Cat {
            path: past_file(alloc, id, bits % 64)?,
            offset,
            count: 256,
        });
    }
    if kind == 13 {
        return Ok(Command::Ls { path: root(alloc)? });
    }
    if kind == 14 {
        return Ok(Command::Snapshot {
            path: snapshot(alloc, number)?,
        });
    }
    let path = file(alloc, bits % 64)?;
    Ok(if kind < 8 {
        Command::Fill {
            path,
            offset,
            count: 4_096,
            byte: (bits / 262_144 % 256) as u8,
        }
    } else if kind < 11 {
        Command::Cat {
            path,
            offset,
            count: 256,
        }
    } else if kind == 11 {
        Command::Truncate { path, size: offset }
    } else {
        Command::Stat { path }
    })
}

fn root(alloc: Global) -> Result<Text, NoMemory>
    ensures { IfOk result (λ path. path ≡ codes "/") }
{
    Ok(Text::of(b"/".to_vec(alloc)?))
}

fn file(alloc: Global, file: u64) -> Result<Text, NoMemory>
    ensures { IfOk result (λ path. path ≡ file_path file) }
{
    Ok(Text::of(format!(in alloc; "/f{file:02}")?.into_bytes()))
}

fn past_file(alloc: Global, id: u64, file: u64) -> Result<Text, NoMemory>
    ensures { IfOk result (λ path. path ≡ past_path id file) }
{
    Ok(Text::of(format!(in alloc; "/@@0x{id:016x}/f{file:02}")?.into_bytes()))
}

fn snapshot(alloc: Global, number: u32) -> Result<Text, NoMemory>
    ensures { IfOk result (λ path. path ≡ snapshot_path number) }
{
    Ok(Text::of(format!(in alloc; "/s{number:04}")?.into_bytes()))
}
