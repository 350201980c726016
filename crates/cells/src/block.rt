ghost use Rattle.std.specs.Prelude.{◌≡◌};

use std::marker::Model;

/// A block in a pass's hands. It can't be copied.
#[derive(Drop)]
pub struct Block {
    pub(crate) at: u64,
    pub(crate) len: u64,
}

impl Model for Block {
    ghost use Rattle.cells.specs.Tokens.{BlockValue};

    ghost Value = { BlockValue };

    ghost use Rattle.cells.specs.Modeled.{block_value};

    ghost view = { block_value };
}

impl Block {
    /// The place of its first word.
    pub fn at(&self) -> u64
        ensures { result ≡ self.now.at }
    {
        self.at
    }

    /// The number of its words.
    pub fn len(&self) -> u64
        ensures { result ≡ self.now.len }
    {
        self.len
    }
}

/// A draw passed the end of the arena, now or before: the pass is spent.
#[derive(Clone, Copy, Debug, PartialEq, Eq)]
pub struct Full;

/// An exchange found another word than the one expected. The block stays in the pass's hands, to be
/// written again.
#[derive(Drop)]
pub struct LostBlock {
    /// The word that it found.
    pub found: u64,
    /// The block that it would have published.
    pub block: Block,
}
