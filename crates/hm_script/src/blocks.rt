// The blocks of lines that come one by one.

use crate::script::{Block, Script};
use hm_model::Line;
use hm_types::NoMemory;
use std::alloc::Global;
use std::marker::Model;
use std::mem;

/// The blocks so far, and the lines with lanes that the next such line joins. A contract sees both
/// lists.
#[derive(Drop)]
pub(crate) struct Blocks {
    done: Vec<Block>,
    lanes: Vec<Line>,
}

impl Model for Blocks {
    ghost use Rattle.std.specs.Prelude.{List};
    ghost use Rattle.hm_model.specs.declared.line.Line.{Line};

    ghost Value = { List (List Line) × List Line };

    ghost view = { λ b. (b.done.items, b.lanes.items) };
}

impl Blocks {
    ghost use Rattle.std.specs.Prelude.{◌≡◌, [], Some, None, IfOk, OnOk};
    ghost use Rattle.hm_script.specs.Gathering.{closed, gather};

    pub(crate) fn new(alloc: Global) -> Blocks
        ensures { result ≡ ([], []) }
    {
        Blocks {
            done: Vec::new(alloc),
            lanes: Vec::new(alloc),
        }
    }

    /// Ends the block of lanes, if one is open.
    pub(crate) fn end_block(&mut self, alloc: Global) -> Result<(), NoMemory>
        ensures { OnOk result (self.new ≡ gather self.old None) }
    {
        if !self.lanes.is_empty() {
            let lines = mem::replace(&mut self.lanes, Vec::new(alloc));
            self.done.push(Block::of(lines))?;
        }
        Ok(())
    }

    /// Adds a line: to the block of lanes, or as a block of its own.
    pub(crate) fn add(&mut self, alloc: Global, line: Line) -> Result<(), NoMemory>
        ensures { OnOk result (self.new ≡ gather self.old (Some line)) }
    {
        if line.lane > 0 {
            self.lanes.push(line)?;
            return Ok(());
        }
        self.end_block(alloc)?;
        let mut lines = Vec::with_capacity(alloc, 1)?;
        lines.push(line)?;
        self.done.push(Block::of(lines))?;
        Ok(())
    }

    /// All the blocks, after the last line.
    pub(crate) fn into_script(mut self, alloc: Global) -> Result<Script, NoMemory>
        ensures { IfOk result (λ script. script ≡ closed self) }
    {
        self.end_block(alloc)?;
        let Blocks { done, lanes: _ } = self;
        Ok(Script::of(done))
    }
}
