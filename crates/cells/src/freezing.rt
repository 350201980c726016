// The step that freezes a bucket.
ghost use Rattle.cells.specs.Freezing.{FreezesBucket, MayFreeze};
ghost use Rattle.cells.specs.Tokens.{IsPassOf, IsSamePass};

use crate::{Pass, Round, plays};

impl Round {
    /// Freezes a bucket word of a generation that another is known to follow, and gives the word as it
    /// was: from then on the word is odd and doesn't change. The pass then knows that, and the row that
    /// the word names. A word that is frozen already stays as it is.
    pub fn freeze(&self, pass: &mut Pass, at: u64) -> u64
        requires pass { IsPassOf self.now pass.old }
        requires may { MayFreeze pass.old.view at }
        ensures pass { IsSamePass pass.old pass.new }
        ensures answer { FreezesBucket at pass.old.view result pass.new.view }
    {
        let shared = &self.table.shared;
        let seat = &mut pass.seat;
        shared.fetch_or::<plays::Freeze>(seat, at as usize, 1)
    }
}
