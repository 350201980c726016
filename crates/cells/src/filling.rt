// The step that fills a nil bucket.
ghost use Rattle.std.specs.Prelude.{◌≡◌, IfErr, OnOk};
ghost use Rattle.cells.specs.Filling.{FillsBucket, LosesFill, MayFill};
ghost use Rattle.cells.specs.Tokens.{IsPassOf, IsSamePass};
ghost use Rattle.step_core.specs.Format.{IsNil};

use crate::{Block, LostBlock, Pass, Round, plays};
use step_core::mutable_word;

impl Round {
    /// Fills a nil bucket with the row in the block, which has of the bucket's class what its frozen
    /// sources in the generation before have. Where the word found is 0, the exchange is won and the
    /// row is published. Else another pass had filled the bucket: the block is given back, and its
    /// words stay in hand. Either way the bucket isn't nil then, and no call has taken effect by it.
    pub fn init_bucket(&self, pass: &mut Pass, at: u64, block: Block) -> Result<(), LostBlock>
        requires pass { IsPassOf self.now pass.old }
        requires may { MayFill pass.old.view at block.at }
        ensures pass { IsSamePass pass.old pass.new }
        ensures won { OnOk result (FillsBucket at block.at pass.old.view pass.new.view) }
        ensures lost { IfErr result (λ lost. (¬ IsNil lost.found) × (lost.block ≡ block)
            × LosesFill at pass.old.view pass.new.view) }
    {
        let shared = &self.table.shared;
        let seat = &mut pass.seat;
        let new = mutable_word(block.at);
        let found = shared.compare_exchange::<plays::InitBucket>(seat, at as usize, 0, new);
        if found == 0 {
            Ok(())
        } else {
            Err(LostBlock { found, block })
        }
    }
}
