// The lines of a script, which are all served, or the first that is not.
ghost use Rattle.std.specs.Prelude.{◌≡◌, All, IfErr, IfOk, MatchOption};
ghost use Rattle.hm_model.specs.Out.{lines_in};
ghost use Rattle.hm_model.specs.Script.{IsFirstBadLine};
ghost use Rattle.hm_shell.specs.Lines.{AreServedLines, IsFirstRefused, IsFirstUnserved, IsLinesStop, IsServable};

use crate::stop::RunStop;
use crate::why::Why;
use hm_core::is_served;
use hm_model::Line;
use hm_script::{Script, ScriptFault, first_lines, read};
use hm_types::NoMemory;
use std::alloc::Global;

/// The lines of a script, each of a call that is served, and without a lane. Else the first line that is
/// none, a script that is too long, or want of memory.
pub(crate) fn served_lines(alloc: Global, script: &[u8]) -> Result<Vec<Line>, RunStop>
    ensures ok { IfOk result (λ lines. AreServedLines script.now lines.items) }
    ensures err { IfErr result (IsLinesStop script.now) }
{
    match read(alloc, script) {
        Ok(blocks) => match first_unserved(&blocks) {
            Some(number) => Err(bad_line(script, number)),
            None => Ok(lines_of(alloc, blocks)?),
        },
        Err(ScriptFault::BadLine { number }) => Err(first_bad(alloc, script, number)),
        Err(ScriptFault::TooLong) => Err(RunStop::TooLong),
        Err(ScriptFault::NoMemory) => Err(RunStop::NoMemory),
    }
}

// The first line that is not served, where this one is the first outside the grammar: one of those before
// it, or itself.
fn first_bad(alloc: Global, script: &[u8], number: u32) -> RunStop
    requires { IsFirstBadLine script.now number }
    ensures { IsLinesStop script.now result }
{
    match read(alloc, first_lines(script, number - 1)) {
        Ok(blocks) => match first_unserved(&blocks) {
            Some(earlier) => bad_line(script, earlier),
            None => bad_line(script, number),
        },
        Err(ScriptFault::BadLine { number: earlier }) => bad_line(script, earlier),
        Err(ScriptFault::TooLong) => RunStop::TooLong,
        Err(ScriptFault::NoMemory) => RunStop::NoMemory,
    }
}

// What is told of the first line that is not served.
fn bad_line(script: &[u8], number: u32) -> RunStop
    requires { IsFirstRefused script.now number }
    ensures { IsLinesStop script.now result }
{
    RunStop::BadLine {
        number,
        why: Why::of_line(script, number),
    }
}

// The number of the first line that has a lane or is not served, if there is one.
fn first_unserved(script: &Script) -> Option<u32>
    ensures { MatchOption result (All IsServable (lines_in script.now)) (IsFirstUnserved (lines_in script.now)) }
{
    for block in script.blocks() {
        if let Some(number) = first_unserved_of(block.lines()) {
            return Some(number);
        }
    }
    None
}

fn first_unserved_of(lines: &[Line]) -> Option<u32>
    ensures { MatchOption result (All IsServable lines.now) (IsFirstUnserved lines.now) }
{
    for line in lines {
        if line.lane != 0 || !is_served(&line.command) {
            return Some(line.number);
        }
    }
    None
}

// All lines of the blocks, in their order.
fn lines_of(alloc: Global, script: Script) -> Result<Vec<Line>, NoMemory>
    ensures { IfOk result (λ lines. lines.items ≡ lines_in script) }
{
    let mut lines = Vec::new(alloc);
    for block in script.into_blocks() {
        lines.append(&mut block.into_lines())?;
    }
    Ok(lines)
}
