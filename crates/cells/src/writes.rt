// The step that writes into a block in hand.
ghost use Rattle.std.specs.Prelude.{◌≡◌, ◌+◌, ◌<◌, [], ◌∷◌, length};
ghost use Rattle.arena.specs.Hands.{words_at};
ghost use Rattle.cells.specs.Steps.{Writes, view_after_write};
ghost use Rattle.cells.specs.Tokens.{IsPassOf, IsSamePass};

use crate::{Block, Pass, Round, plays};

impl Round {
    /// Writes the value into the block, `offset` words behind its first. The block must be in the
    /// pass's hands.
    pub fn write(&self, pass: &mut Pass, block: &mut Block, offset: u64, value: u64)
        requires pass { IsPassOf self.now pass.old }
        requires hand { offset < length (words_at pass.old.view.hands block.old.at) }
        ensures pass { IsSamePass pass.old pass.new }
        ensures block { block.new ≡ block.old }
        ensures view { pass.new.view
            ≡ view_after_write (block.old.at + offset) value pass.old.view }
        ensures writes { Writes block.old.at offset (value ∷ []) pass.old.view pass.new.view }
    {
        let shared = &self.table.shared;
        let seat = &mut pass.seat;
        let place = block.at + offset;
        shared.store::<plays::Write>(seat, place as usize, value);
    }
}
