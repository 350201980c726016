// The step that exchanges the row of a bucket, and the beginning of the call that makes it.
ghost use Rattle.std.specs.Prelude.{◌≡◌, ◌≢◌, ◌+◌, ◌-◌, ◌<◌, IfErr, OnOk};
ghost use Rattle.cells.specs.Exchanges.{LosesSwap, MaySwapRow, SwapsRow};
ghost use Rattle.cells.specs.Tokens.{HasNewCall, IsPassOf, IsSamePass};
ghost use Rattle.step_core.specs.Limits.{max_calls};

use crate::{Block, LostBlock, Pass, Round, plays};
use step_core::mutable_word;

impl Round {
    /// The pass begins a call. It makes no step. What the call changes has a serial one below the
    /// number of calls that the pass has begun then.
    pub fn begin_call(&self, pass: &mut Pass)
        requires pass { IsPassOf self.now pass.old }
        requires few { pass.old.calls < max_calls }
        ensures pass { pass.new ≡ record pass.old { calls = pass.old.calls + 1 } }
        ensures call { HasNewCall pass.new }
    {
        let _round = self;
        pass.calls += 1;
    }

    /// Exchanges the bucket word `old` for that of the row in the block, which has one key more or
    /// one less. Where the word found is `old`, the exchange is won: the row is published, and the
    /// pass's call has taken effect, right behind all that had before; it has an entry in the
    /// history. Else the exchange is lost, and with it the turn: the block is given back, and its
    /// words stay in hand. Either way no turn is open then.
    pub fn swap_row(
        &self,
        pass: &mut Pass,
        at: u64,
        old: u64,
        block: Block,
    ) -> Result<(), LostBlock>
        requires pass { IsPassOf self.now pass.old }
        requires call { HasNewCall pass.old }
        requires swap { MaySwapRow pass.old.view at old block.at }
        ensures pass { IsSamePass pass.old pass.new }
        ensures won { OnOk result
            (SwapsRow (pass.old.calls - 1) old block.at pass.old.view pass.new.view) }
        ensures lost { IfErr result (λ lost. (lost.found ≢ old) × (lost.block ≡ block)
            × LosesSwap pass.old.view pass.new.view) }
    {
        let shared = &self.table.shared;
        let seat = &mut pass.seat;
        let serial = pass.calls - 1;
        let new = mutable_word(block.at);
        let place = at as usize;
        let found = shared.compare_exchange_with::<plays::SwapRow>(seat, place, old, new, &serial);
        if found == old {
            Ok(())
        } else {
            Err(LostBlock { found, block })
        }
    }
}
