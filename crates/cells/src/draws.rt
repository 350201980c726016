// The step that draws a block.
ghost use Rattle.std.specs.Prelude.{◌≡◌, ◌≤◌, IfOk, IfErr, is_err};
ghost use Rattle.cells.specs.Lone.{EndsAs, ledger_of};
ghost use Rattle.cells.specs.Steps.{Draws, RefusesDraw};
ghost use Rattle.cells.specs.Tokens.{IsPassOf, IsSamePass};
ghost use Rattle.step_core.specs.Ledger.{drawing};
ghost use Rattle.step_core.specs.Limits.{max_draw};

use crate::{Block, Full, Pass, Round, plays};
use step_core::NEXT;

impl Round {
    /// Draws a block of so many words, all 0, into the pass's hands. It is Full exactly where the
    /// pass was spent, whose view then stays, or where the words drawn pass the end of the arena:
    /// from then on the pass is spent. Of the only pass of a round its ledger says which of these
    /// it is, and where the block lies.
    pub fn draw(&self, pass: &mut Pass, len: u64) -> Result<Block, Full>
        requires pass { IsPassOf self.now pass.old }
        requires fits { (1 ≤ len) × (len ≤ max_draw) }
        ensures pass { IsSamePass pass.old pass.new }
        ensures answer { IfOk result (λ block. (block.len ≡ len)
            × Draws pass.old.view block.at len pass.new.view) }
        ensures full { IfErr result (λ _. RefusesDraw pass.old.view len pass.new.view) }
        ensures alone { pass.old.view.facts.seats ≡ 1
            → EndsAs (drawing len (ledger_of pass.old.view)) (is_err result) pass.new.view }
    {
        let end = self.layout.cap;
        if pass.spent.is_some() {
            return Err(Full);
        }
        let shared = &self.table.shared;
        let seat = &mut pass.seat;
        let at = shared.fetch_add::<plays::Draw>(seat, NEXT as usize, len);
        if at + len <= end {
            Ok(Block { at, len })
        } else {
            pass.spent = Some(at);
            Err(Full)
        }
    }
}
