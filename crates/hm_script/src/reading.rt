// The script that bytes give.
ghost use Rattle.std.specs.Prelude.{◌≡◌, ◌≤◌, ◌↔◌, IfOk, IfErr, IsErrOf, OnOk, MatchOption, false, length};
ghost use Rattle.hm_types.specs.declared.limits.TheConstants.{MOST_SCRIPT_LINES};
ghost use Rattle.hm_model.specs.Lines.{texts_of};
ghost use Rattle.hm_model.specs.Script.{is_remark as is_remark_of, IsBad, IsScriptOf, IsTooLong};
ghost use Rattle.hm_script.specs.declared.fault.ScriptFault.TheVariants.{TooLong};
ghost use Rattle.hm_script.specs.Reading.{IsLineOf, Adds, IsTextFault, IsLineFault, IsScriptFault};

use crate::blocks::Blocks;
use crate::fault::ScriptFault;
use crate::forms::command_of;
use crate::lane::cut_lane;
use crate::lines::{is_too_long, split_line};
use crate::script::Script;
use crate::words::Words;
use hm_model::Line;
use hm_types::NoMemory;
use std::alloc::Global;

/// The script that bytes give, in time linear in them. Each value of a line is copied once.
///
/// TooLong comes exactly where the script is too long, whatever else is wrong with it. BadLine has the
/// number of the first line outside the grammar. NoMemory comes where an allocation is refused before
/// a bad line is told.
pub fn read(alloc: Global, bytes: &[u8]) -> Result<Script, ScriptFault>
    ensures ok { IfOk result (IsScriptOf bytes.now) }
    ensures err { IfErr result (IsScriptFault bytes.now) }
    ensures too_long { IsErrOf result TooLong ↔ IsTooLong bytes.now }
{
    if is_too_long(bytes) {
        return Err(ScriptFault::TooLong);
    }
    read_lines(alloc, bytes)
}

fn read_lines(alloc: Global, bytes: &[u8]) -> Result<Script, ScriptFault>
    requires { length (texts_of bytes.now) ≤ MOST_SCRIPT_LINES }
    ensures ok { IfOk result (IsScriptOf bytes.now) }
    ensures err { IfErr result (IsLineFault bytes.now) }
{
    let mut blocks = Blocks::new(alloc);
    let mut rest = bytes;
    let mut number = 0u32;
    'lines: while !rest.is_empty() {
        let (text, after) = split_line(rest);
        number += 1;
        add_text(&mut blocks, alloc, number, text)?;
        rest = after;
    }
    Ok(blocks.into_script(alloc)?)
}

/// Adds what the text of a line gives to the blocks.
fn add_text(blocks: &mut Blocks, alloc: Global, number: u32, text: &[u8]) -> Result<(), ScriptFault>
    ensures ok { OnOk result (Adds number text.now blocks.old blocks.new) }
    ensures err { IfErr result (IsTextFault number text.now) }
{
    if is_remark(text) {
        blocks.end_block(alloc)?;
        return Ok(());
    }
    let Some(line) = read_line(alloc, number, text)? else {
        return Err(ScriptFault::BadLine { number });
    };
    blocks.add(alloc, line)?;
    Ok(())
}

fn is_remark(text: &[u8]) -> bool
    ensures { result ≡ is_remark_of text.now }
{
    text.is_empty() || text[0] == b'#'
}

/// The line that a text gives, or None where the text is outside the grammar.
fn read_line(alloc: Global, number: u32, text: &[u8]) -> Result<Option<Line>, NoMemory>
    requires { is_remark_of text.now ≡ false }
    ensures { IfOk result
        (λ found. MatchOption found (IsBad text.now) (IsLineOf number text.now)) }
{
    let Some(words) = Words::of(text) else {
        return Ok(None);
    };
    let (lane, values) = cut_lane(words.list());
    let Some(command) = command_of(alloc, values)? else {
        return Ok(None);
    };
    Ok(Some(Line {
        lane,
        number,
        command,
    }))
}
