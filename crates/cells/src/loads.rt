// The steps that load a word.
ghost use Rattle.std.specs.Prelude.{◌≡◌};
ghost use Rattle.cells.specs.Known.{KnowsSealed, KnowsBucket};
ghost use Rattle.cells.specs.Steps.{LoadsHead, LoadsSealed, LoadsBucket};
ghost use Rattle.cells.specs.Tokens.{IsPassOf, IsSamePass};

use crate::{Pass, Round, plays};
use step_core::HEAD;

impl Round {
    /// Loads HEAD: the address of the head generation. The pass's front is then the history as far
    /// as it had come, the pass knows that generation, and has a turn open.
    pub fn load_head(&self, pass: &mut Pass) -> u64
        requires pass { IsPassOf self.now pass.old }
        ensures pass { IsSamePass pass.old pass.new }
        ensures answer { LoadsHead pass.old.view result pass.new.view }
    {
        let shared = &self.table.shared;
        let seat = &mut pass.seat;
        shared.load::<plays::LoadHead>(seat, HEAD as usize)
    }

    /// Loads a word of a known block that no longer changes. The pass then knows the operation or
    /// the predecessor that the word names.
    pub fn load_sealed(&self, pass: &mut Pass, at: u64) -> u64
        requires pass { IsPassOf self.now pass.old }
        requires knows { KnowsSealed pass.old.view at }
        ensures pass { IsSamePass pass.old pass.new }
        ensures answer { LoadsSealed at pass.old.view result pass.new.view }
    {
        let shared = &self.table.shared;
        let seat = &mut pass.seat;
        shared.load::<plays::LoadSealed>(seat, at as usize)
    }

    /// Loads a bucket word of a known generation. The pass then knows the row that it names, and
    /// where the bucket isn't frozen its front is the history as far as it had come. A frozen bucket of the head
    /// that the open turn loaded loses the turn.
    pub fn load_bucket(&self, pass: &mut Pass, at: u64) -> u64
        requires pass { IsPassOf self.now pass.old }
        requires knows { KnowsBucket pass.old.view at }
        ensures pass { IsSamePass pass.old pass.new }
        ensures answer { LoadsBucket at pass.old.view result pass.new.view }
    {
        let shared = &self.table.shared;
        let seat = &mut pass.seat;
        shared.load::<plays::LoadBucket>(seat, at as usize)
    }
}
