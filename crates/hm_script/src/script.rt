// A script and its blocks.

use hm_model::Line;
use std::marker::Model;

/// Lines that run together: one line without a lane, or lines that all have lanes, which run at once
/// and each in its own order. A contract sees the list of its lines.
#[derive(Debug, Drop)]
pub struct Block {
    lines: Vec<Line>,
}

impl Model for Block {
    ghost use Rattle.std.specs.Prelude.{List};
    ghost use Rattle.hm_model.specs.declared.line.Line.{Line};

    ghost Value = { List Line };

    ghost view = { λ b. b.lines.items };
}

impl Block {
    ghost use Rattle.std.specs.Prelude.{◌≡◌};

    /// Takes no memory, as `lines` and `into_lines` do not.
    pub fn of(lines: Vec<Line>) -> Block
        ensures { result ≡ lines.items }
    {
        Block { lines }
    }

    pub fn lines(&self) -> &[Line]
        ensures { result.now ≡ self.now }
    {
        &self.lines
    }

    /// The lines by value, in their order.
    pub fn into_lines(self) -> Vec<Line>
        ensures { result.items ≡ self }
    {
        let Block { lines } = self;
        lines
    }
}

/// What is to be run, block after block. A contract sees the list of its blocks, each as the list of
/// its lines.
#[derive(Debug, Drop)]
pub struct Script {
    blocks: Vec<Block>,
}

impl Model for Script {
    ghost use Rattle.std.specs.Prelude.{List};
    ghost use Rattle.hm_model.specs.declared.line.Line.{Line};

    ghost Value = { List (List Line) };

    ghost view = { λ s. s.blocks.items };
}

impl Script {
    ghost use Rattle.std.specs.Prelude.{◌≡◌};

    /// Takes no memory, as `blocks` and `into_blocks` do not.
    pub fn of(blocks: Vec<Block>) -> Script
        ensures { result ≡ blocks.items }
    {
        Script { blocks }
    }

    pub fn blocks(&self) -> &[Block]
        ensures { result.now ≡ self.now }
    {
        &self.blocks
    }

    /// The blocks by value, in their order.
    pub fn into_blocks(self) -> Vec<Block>
        ensures { result.items ≡ self }
    {
        let Script { blocks } = self;
        blocks
    }
}
