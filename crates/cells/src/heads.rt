// The step that exchanges the head.
ghost use Rattle.std.specs.Prelude.{◌≡◌, ◌≢◌, IfErr, OnOk};
ghost use Rattle.cells.specs.HeadSwaps.{LosesHead, MaySwapHead, SwapsHead};
ghost use Rattle.cells.specs.Tokens.{IsPassOf, IsSamePass};

use crate::{Block, LostBlock, Pass, Round, plays};
use step_core::HEAD;

impl Round {
    /// Exchanges the head `old`, of which no bucket is nil, for the generation in the block, all of
    /// whose buckets are. Where HEAD has `old`, the exchange is won: the generation is published and
    /// the head. Else it is lost to another head: the block is given back, and its words stay in hand.
    /// Either way no turn is open then, and no call has taken effect by it.
    pub fn swap_head(&self, pass: &mut Pass, old: u64, block: Block) -> Result<(), LostBlock>
        requires pass { IsPassOf self.now pass.old }
        requires may { MaySwapHead pass.old.view old block.at }
        ensures pass { IsSamePass pass.old pass.new }
        ensures won { OnOk result (SwapsHead old block.at pass.old.view pass.new.view) }
        ensures lost { IfErr result (λ lost. (lost.found ≢ old) × (lost.block ≡ block)
            × LosesHead old pass.old.view pass.new.view) }
    {
        let shared = &self.table.shared;
        let seat = &mut pass.seat;
        let new = block.at;
        let found = shared.compare_exchange::<plays::SwapHead>(seat, HEAD as usize, old, new);
        if found == old {
            Ok(())
        } else {
            Err(LostBlock { found, block })
        }
    }
}
